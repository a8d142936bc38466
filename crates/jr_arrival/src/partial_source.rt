//! A source of MCUs that reads a scan whose file is still arriving.

ghost use Rattle.std.specs.Prelude.{◌≡◌, ◌+◌, ◌-◌, ◌*◌, ◌<◌, ◌≤◌, true, false, length, None};
ghost use Rattle.jr_head.specs.Intervals.{mcus_in};
ghost use Rattle.jr_scan.specs.PartialScan.{PartialScanValue};
ghost use Rattle.jr_scan.specs.Run.{left_at};
ghost use Rattle.jr_scan.specs.ScanValue.{ScanValue, interval_of};
ghost use Rattle.jr_scan.specs.Mcus.{ReportsSound};
ghost use Rattle.jr_rows.specs.Rows.{CountsMarks};
ghost use Rattle.jr_arrival.specs.LongerFile.{IsOver};
ghost use Rattle.jr_arrival.specs.PartialRows.{GrowsInto, IsFinal, IsPartialReading, ReadsTo};
ghost use Rattle.jr_arrival.specs.PartialSources.{partial_source_of};

use crate::mcu_sink::McuSink;
use crate::mcu_source::{McuSource, take_whole};
use crate::window::MCU_BITS;
use jr_cut::ScanEnd;
use jr_head::Head;
use jr_rows::Marked;
use jr_scan::{Cursor, IntervalRef, PartialScan, Place};

/// Returns whether an interval is over: no more data of it can come.
fn is_over(scan: &PartialScan, i: u32) -> bool
    ensures over { result ≡ true → IsOver scan.now.scan scan.now.segments i }
    ensures going { result ≡ false → IsOver scan.now.scan scan.now.segments i → ⊥ }
{
    match scan.ended() {
        ScanEnd::EndOfFile => i < scan.last_begun(),
        ScanEnd::EndOfImage
        | ScanEnd::OtherMarker(..)
        | ScanEnd::OutOfStep { .. }
        | ScanEnd::ExtraRestart(..) => true,
    }
}

/// Returns the number of bits of an interval's data after a position.
fn bits_left(interval: IntervalRef<'_>, place: Place) -> u64
    requires within { place.bit ≤ 8 * length interval.bytes }
    ensures { result ≡ length (left_at interval.entry place) }
{
    8 * interval.bytes().len() as u64 - place.bit
}

/// Returns whether the interval of a cursor has a decoding. It skips the MCUs that are left.
pub(crate) fn is_sound(scan: &PartialScan, cursor: Cursor) -> bool
    requires number { cursor.number < length scan.now.scan.intervals }
    requires few { cursor.mcu ≤ mcus_in scan.now.scan.head cursor.number }
    requires reads { ReadsTo scan.now cursor.number cursor.mcu cursor.place }
    ensures { ReportsSound result (interval_of scan.now.scan cursor.number) }
{
    let Some(_) = cursor.place else {
        return false;
    };
    let interval = scan.interval_ref(cursor.number);
    let left = interval.mcus() - cursor.mcu;
    let mut cursor = cursor;
    cursor.skip(interval.fork(), None, left);
    cursor.is_sound(&interval)
}

/// Returns the marks of the intervals up to that of a cursor: its own is that of its data so far. Those before it have
/// the given ones.
pub(crate) fn partial_marks(scan: &PartialScan, cursor: Cursor, marked: Marked) -> Marked
    requires { IsPartialReading scan.now cursor marked }
    ensures counts { (t : ScanValue) → GrowsInto scan.now t → interval_of t cursor.number ≡ interval_of scan.now.scan cursor.number → CountsMarks t (length t.intervals) 0 (cursor.number + 1) result }
{
    // By its contract the numbers of all intervals fit.
    let _most = scan.intervals();
    let is_sound = is_sound(scan, cursor);
    marked.with(Marked::one(is_sound))
}

/// A source of MCUs over a scan whose file is still arriving.
#[derive(Drop)]
pub(crate) struct PartialSource<'a> {
    pub scan: &'a PartialScan,
    /// Start of the next MCU; without a position no further one of its interval becomes whole.
    pub cursor: Cursor,
    /// The marks of the intervals before the one that is read.
    pub marked: Marked,
}

impl<'a> PartialSource<'a> {
    /// Returns whether the interval's next MCU, which is not whole, never becomes so: the interval is over, or the data
    /// so far have the maximum number of bits of an MCU left there (T.81, F.1.2).
    fn is_final(&self) -> bool
        requires number { self.now.cursor.number < length self.now.scan.now.scan.intervals }
        requires reads { ReadsTo self.now.scan.now self.now.cursor.number self.now.cursor.mcu self.now.cursor.place }
        ensures never { result ≡ true → IsFinal self.now.scan.now self.now.cursor.number self.now.cursor.place }
        ensures going { result ≡ false → IsFinal self.now.scan.now self.now.cursor.number self.now.cursor.place → ⊥ }
    {
        let Some(place) = self.cursor.place else {
            return true;
        };
        is_over(self.scan, self.cursor.number)
            || bits_left(self.scan.interval_ref(self.cursor.number), place) >= MCU_BITS
    }
}

impl<'a> McuSource for PartialSource<'a> {
    ghost Part = { PartialScanValue };

    ghost value = { partial_source_of };

    fn cursor(&self) -> Cursor {
        self.cursor
    }

    fn advance(&mut self, head: &Head) -> bool {
        // By its contract the numbers of all intervals fit.
        let _most = self.scan.intervals();
        if self.cursor.mcu < head.mcus_in(self.cursor.number) {
            return true;
        }
        if !is_over(self.scan, self.cursor.number) {
            return false;
        }
        self.marked = partial_marks(self.scan, self.cursor, self.marked);
        self.cursor = Cursor::at_start(self.cursor.number + 1);
        true
    }

    fn take_some<K: McuSink>(&mut self, head: &Head, sink: &mut K, done: u32) -> u32 {
        let Some(place) = self.cursor.place else {
            return 0;
        };
        let interval = self.scan.interval_ref(self.cursor.number);
        take_whole(&mut self.cursor, head, interval, place, sink, done)
    }

    fn give_up(&mut self, head: &Head) -> bool {
        // By its contract the numbers of all intervals fit.
        let _most = self.scan.intervals();
        head.assert_invariant();
        if !self.is_final() {
            return false;
        }
        self.cursor.place = None;
        true
    }

    fn pass_grey(&mut self, mcus: u32) {
        self.cursor.mcu += mcus;
    }
}
