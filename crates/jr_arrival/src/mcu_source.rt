//! A source of the MCUs of a scan.

ghost use Rattle.std.specs.Prelude.{◌≡◌, ◌+◌, ◌<◌, ◌≤◌, ◌^◌, true, false, Some};
ghost use Rattle.jr_head.specs.HeadValue.{HeadValue};
ghost use Rattle.jr_head.specs.Geometry.{mcus_across, mcus_of};
ghost use Rattle.jr_head.specs.Intervals.{intervals_of, mcus_in};
ghost use Rattle.jr_scan.specs.Run.{CanReadFrom};
ghost use Rattle.jr_rows.specs.Cursors.{mcus_to};
ghost use Rattle.jr_arrival.specs.RowMcus.{TakesWhole};
ghost use Rattle.jr_arrival.specs.Sources.{HasNoneLeft, SourceValue, Steps, Walks};

use crate::mcu_sink::McuSink;
use jr_head::Head;
use jr_scan::{Cursor, IntervalRef, McuReader, Place};

/// A source of the MCUs of a scan, one after the other, of which some may still be missing.
pub(crate) trait McuSource {
    // what it has of a file
    ghost Part: { Type 0 };

    // what is known of it
    ghost value: { Self → SourceValue Part };

    /// Returns its position.
    fn cursor(&self) -> Cursor
        ensures { result ≡ (value self.now).cursor };

    /// Moves to the next interval if all MCUs of this one are read. Returns `false` if its end has not arrived.
    fn advance(&mut self, head: &Head) -> bool
        requires at { (value self.old).is_at head.now }
        requires more { mcus_to head.now (value self.old).cursor < mcus_of head.now }
        ensures steps { Steps head.now (value self.old) (value self.new) 0 }
        ensures some { result ≡ true → (value self.new).cursor.mcu < mcus_in head.now (value self.new).cursor.number }
        ensures waits { result ≡ false → (value self.new).waits head.now };

    /// Takes the next whole MCUs of the interval after the first `done` of a row, and returns their number, 0 if no
    /// further one is whole.
    fn take_some<K: McuSink>(&mut self, head: &Head, sink: &mut K, done: u32) -> u32
        requires at { (value self.old).is_at head.now }
        requires some { (value self.old).cursor.mcu < mcus_in head.now (value self.old).cursor.number }
        requires within { done < mcus_across head.now }
        requires space { K.has_space head.now sink.old }
        ensures space { K.has_space head.now sink.new }
        ensures walks { Walks head.now (value self.old) (value self.new) K.keeps done result (K.groups sink.old) (K.groups sink.new) }
        ensures number { (value self.new).cursor.number ≡ (value self.old).cursor.number }
        ensures none { result ≡ 0 → (value self.new).reads_all head.now };

    /// Returns whether no further MCU of the interval ever becomes whole. None is whole so far.
    fn give_up(&mut self, head: &Head) -> bool
        requires at { (value self.old).is_at head.now }
        requires some { (value self.old).cursor.mcu < mcus_in head.now (value self.old).cursor.number }
        requires none { (value self.old).reads_all head.now }
        ensures steps { Steps head.now (value self.old) (value self.new) 0 }
        ensures stuck { result ≡ true → HasNoneLeft head.now (value self.new) }
        ensures waits { result ≡ false → (value self.new).waits head.now };

    /// Skips MCUs of an interval of which no further one is whole.
    fn pass_grey(&mut self, mcus: u32)
        requires { (value self.old).cursor.mcu + mcus < 2 ^ 32 }
        ensures { (h : HeadValue) → (value self.old).is_at h → HasNoneLeft h (value self.old) → (value self.old).cursor.mcu + mcus ≤ mcus_in h (value self.old).cursor.number → Steps h (value self.old) (value self.new) mcus };
}

/// Takes the next whole MCUs of a cursor's interval, which begin at `place`, into a sink after the first `done` of a
/// row. Moves the cursor past them, and returns their number.
pub(crate) fn take_whole<K: McuSink>(
    cursor: &mut Cursor,
    head: &Head,
    interval: IntervalRef<'_>,
    place: Place,
    sink: &mut K,
    done: u32,
) -> u32
    requires head { interval.head ≡ head.now }
    requires can { CanReadFrom interval place }
    requires place { cursor.old.place ≡ Some place }
    requires number { cursor.old.number < intervals_of head.now }
    requires some { cursor.old.mcu < mcus_in head.now cursor.old.number }
    requires within { done < mcus_across head.now }
    requires space { K.has_space head.now sink.old }
    ensures space { K.has_space head.now sink.new }
    ensures taken { TakesWhole head.now interval.entry place K.keeps done result cursor.old cursor.new (K.groups sink.old) (K.groups sink.new) }
{
    // By its contract an MCU has a data unit.
    let _some = head.order().len();
    let left = head.mcus_in(cursor.number) - cursor.mcu;
    let mut reader = McuReader::at(interval, place, left);
    let whole = sink.take(head, &mut reader, done);
    let next = reader.place();
    cursor.mcu += whole;
    cursor.place = Some(next);
    whole
}
