//! A source of MCUs that reads a file's bytes, a window of them at a time. Only a position between rows has an offset in the
//! file.

ghost use Rattle.std.specs.List.{All};
ghost use Rattle.std.specs.Prelude.{◌≡◌, ◌≤◌, ◌<◌, ◌+◌, ◌-◌, ◌*◌, ◌^◌, ℕ, List, length, max, true, false, Some, None, IfOk, IfSome};
ghost use Rattle.jr_head.specs.Geometry.{mcus_across};
ghost use Rattle.jr_head.specs.HeadValue.{HeadValue};
ghost use Rattle.jr_head.specs.Intervals.{intervals_of, mcus_in};
ghost use Rattle.jr_mcu.specs.Block.{IsInDcRange};
ghost use Rattle.jr_scan.specs.Run.{HasNoMcu};
ghost use Rattle.jr_scan.specs.ScanValue.{ScanValue};
ghost use Rattle.jr_scan.specs.declared.place.Place.{Place};
ghost use Rattle.jr_rows.specs.Cursors.{mcus_to};
ghost use Rattle.jr_arrival.specs.FileSources.{BeginsNext, IsFileSource, IsInside, IsOpen, IsRightIn, IsWindow, begun, in_window, source_of, start_unless};
ghost use Rattle.jr_arrival.specs.Meaning.{IsPlaceIn, MayBe};
ghost use Rattle.jr_arrival.specs.Parts.{part_of};
ghost use Rattle.jr_arrival.specs.Places.{IsPlaceOf, place_state};
ghost use Rattle.jr_arrival.specs.Sources.{Steps, Walks};
ghost use Rattle.jr_arrival.specs.declared.file_bytes.FileBytes.{FileBytes};

use crate::file_bytes::FileBytes;
use crate::mcu_sink::McuSink;
use crate::mcu_source::{McuSource, take_whole};
use crate::place::RowPlace;
use crate::window::Window;
use jr_base::Memory;
use jr_cut::{Stop, offset_in};
use jr_head::Head;
use jr_scan::{Cursor, IntervalRef, Place};
use std::alloc::Global;

/// A source of MCUs over a window of a file's bytes.
#[derive(Drop)]
pub(crate) struct FileSource<'a> {
    pub window: Window<'a>,
    /// Where the next MCU begins, in the window; without a position no further one of the interval is whole.
    pub cursor: Cursor,
    /// Whether the scan has ended before it, and no further interval has data.
    pub ended: bool,
}

/// Returns a number clamped to the range of sixteen bits.
fn in_sixteen_bits(prediction: i32) -> i32
    ensures in_range { IsInDcRange result }
    ensures kept { IsInDcRange prediction → result ≡ prediction }
{
    prediction.clamp(-32768, 32767)
}

/// Returns each number clamped to the range of sixteen bits.
fn in_range(predictions: [i32; 3]) -> [i32; 3]
    ensures in_range { All IsInDcRange result }
    ensures kept { All IsInDcRange predictions → result ≡ predictions }
{
    let [a, b, c] = predictions;
    [in_sixteen_bits(a), in_sixteen_bits(b), in_sixteen_bits(c)]
}

/// Returns the state of a position (`RowPlace::state`).
fn place_state(place: Option<Place>, ended: bool) -> u32
    ensures { result ≡ place_state place ended }
{
    match place {
        Some(_) => 0,
        None => 1 + u32::from(ended),
    }
}

/// Returns a position with another bit.
fn at_bit(place: Place, bit: u64) -> Place
    ensures { result ≡ record { bit = bit; predictions = place.predictions } }
{
    let predictions = place.predictions;
    Place { bit, predictions }
}

/// Returns where the next MCU begins after a position whose bit has this number.
fn next_of(place: &RowPlace, bit: u64) -> Option<Place>
    ensures stuck { 0 < place.now.state → result ≡ None }
    ensures inside { IfSome result (λ p. (p.bit ≡ bit) × All IsInDcRange p.predictions) }
    ensures next { place.now.state ≡ 0 → All IsInDcRange place.now.predictions → result ≡ Some (record { bit = bit; predictions = place.now.predictions }) }
{
    if place.state > 0 {
        return None;
    }
    Some(Place {
        bit,
        predictions: in_range(place.predictions),
    })
}

/// Returns where the first MCU of an interval is read, unless the scan has ended before it.
fn start_unless(ended: bool) -> Option<Place>
    ensures { result ≡ start_unless ended }
{
    if ended {
        return None;
    }
    Some(Place::start())
}

/// Returns the offset of a position in bytes of a file whose scan begins at `scan_at`: no byte before the scan's or the
/// first of the bytes, and none past the end.
fn offset_of(place: &RowPlace, scan_at: u64, file: FileBytes<'_>) -> usize
    ensures within { result ≤ length file.entry.bytes.now }
    ensures there { max place.now.at scan_at - file.entry.from ≤ length file.entry.bytes.now → result ≡ max place.now.at scan_at - file.entry.from }
{
    let at = place.at.max(scan_at).saturating_sub(file.from);
    offset_in(file.bytes, at)
}

impl<'a> FileSource<'a> {
    /// Opens a source at a position of a file with this header. It allocates a window.
    pub(crate) fn open(
        alloc: Global,
        head: &Head,
        file: FileBytes<'a>,
        place: &RowPlace,
    ) -> Result<FileSource<'a>, Memory>
        requires lies { IsPlaceOf head.now place.now }
        ensures at { IfOk result (IsFileSource head.now) }
        ensures file { IfOk result (λ s. s.window.file ≡ file.entry) }
        ensures before { IfOk result (λ s. mcus_to head.now s.cursor ≡ place.now.row * mcus_across head.now) }
        ensures right { (whole : List ℕ) (t : ScanValue) → MayBe (part_of file.entry) head.now whole t → IsPlaceIn (part_of file.entry) whole t place.now → IfOk result (IsRightIn whole t) }
    {
        let mut window = Window::empty(alloc, file)?;
        let at = offset_of(place, head.scan_at(), file);
        let bit = window.fill(at, u64::from(place.bit));
        let cursor = Cursor {
            number: place.interval,
            mcu: place.mcu,
            place: next_of(place, bit),
        };
        Ok(FileSource {
            window,
            cursor,
            ended: place.state > 1,
        })
    }

    /// Drops the window's bytes before the next MCU. Returns its position, or the start of an interval if no further one is
    /// whole.
    fn trim(&mut self) -> Place
        requires window { IsWindow self.old.window }
        requires inside { IsInside self.old.window self.old.cursor.place }
        ensures steps { (h : HeadValue) → IsFileSource h self.old → Steps h (source_of self.old) (source_of self.new) 0 }
        ensures low { result.bit < 8 }
        ensures within { result.bit ≤ 8 * (self.new.window.found - self.new.window.from) }
        ensures place { IfSome self.new.cursor.place (λ p. p ≡ result) }
    {
        let Some(place) = self.cursor.place else {
            return Place::start();
        };
        let bit = self.window.trim(place.bit);
        let next = at_bit(place, bit);
        self.cursor.place = Some(next);
        next
    }

    /// Returns the position before a row of MCUs, where the source is.
    pub(crate) fn row_place(&mut self, row: u32) -> RowPlace
        requires window { IsWindow self.old.window }
        requires inside { IsInside self.old.window self.old.cursor.place }
        ensures steps { (h : HeadValue) → IsFileSource h self.old → Steps h (source_of self.old) (source_of self.new) 0 }
        ensures row { result.row ≡ row }
        ensures interval { result.interval ≡ self.new.cursor.number }
        ensures mcu { result.mcu ≡ self.new.cursor.mcu }
        ensures place { (h : HeadValue) (whole : List ℕ) (t : ScanValue) → IsFileSource h self.old → MayBe (part_of self.old.window.file) h whole t → IsRightIn whole t self.old → IsPlaceIn (part_of self.old.window.file) whole t result }
    {
        let next = self.trim();
        let predictions = next.predictions;
        RowPlace {
            at: self.window.file.from.saturating_add(self.window.at as u64),
            bit: next.bit as u32,
            row,
            interval: self.cursor.number,
            mcu: self.cursor.mcu,
            predictions,
            state: place_state(self.cursor.place, self.ended),
        }
    }

    /// Returns the rest of the interval, as far as its data are in the window.
    fn interval<'s>(&'s self, head: &'s Head) -> IntervalRef<'s>
        requires at { IsFileSource head.now self.now }
        ensures { result ≡ in_window head.now self.now }
    {
        let left = head.mcus_in(self.cursor.number) - self.cursor.mcu;
        let data = &self.window.space[self.window.from..self.window.found];
        IntervalRef::of(head, data, self.cursor.number, left)
    }

    /// Takes whole MCUs of the window, which begin at `place`, after the first `done` of a row, and returns their number.
    fn take_near<K: McuSink>(&mut self, head: &Head, sink: &mut K, done: u32, place: Place) -> u32
        requires at { IsFileSource head.now self.old }
        requires within { done < mcus_across head.now }
        requires space { K.has_space head.now sink.old }
        requires place { self.old.cursor.place ≡ Some place }
        requires some { self.old.cursor.mcu < mcus_in head.now self.old.cursor.number }
        ensures space { K.has_space head.now sink.new }
        ensures walks { Walks head.now (source_of self.old) (source_of self.new) K.keeps done result (K.groups sink.old) (K.groups sink.new) }
        ensures number { self.new.cursor.number ≡ self.old.cursor.number }
        ensures none { result ≡ 0 → (self.new ≡ self.old) × HasNoMcu (in_window head.now self.old) place }
    {
        let mut cursor = self.cursor;
        let whole = take_whole(&mut cursor, head, self.interval(head), place, sink, done);
        self.cursor = cursor;
        whole
    }

    /// Moves to what follows the interval: the next one's data or the scan's end. Returns `false` if neither has arrived.
    fn leave_interval(&mut self, head: &Head) -> bool
        requires window { IsWindow self.old.window }
        requires number { self.old.cursor.number < intervals_of head.now }
        ensures window { IsWindow self.new.window }
        ensures file { self.new.window.file ≡ self.old.window.file }
        ensures cursor { self.new.cursor ≡ self.old.cursor }
        ensures follows { result ≡ true → self.old.ended ≡ false → BeginsNext head.now self.old self.new }
        ensures kept { result ≡ false → self.new ≡ self.old }
        ensures goes_on { result ≡ false → self.old.window.file.are_all ≡ false }
        ensures waits { result ≡ false → IsOpen self.old.window }
    {
        let end = self.window.end_of_data();
        match self.window.stop_after(head, self.cursor.number, end) {
            Stop::Restart(marker) => {
                self.window.fill(end + marker, 0);
            }
            Stop::End(ended) => {
                if !self.window.is_final(ended) {
                    return false;
                }
                self.window.leave(end);
                self.ended = true;
            }
        }
        true
    }

    /// Does what `leave_interval` does, unless it has moved to the scan's end before.
    fn find_end(&mut self, head: &Head) -> bool
        requires at { IsFileSource head.now self.old }
        ensures window { IsWindow self.new.window }
        ensures file { self.new.window.file ≡ self.old.window.file }
        ensures cursor { self.new.cursor ≡ self.old.cursor }
        ensures follows { result ≡ true → BeginsNext head.now self.old self.new }
        ensures kept { result ≡ false → (self.new ≡ self.old) × (self.old.ended ≡ false) }
        ensures goes_on { result ≡ false → self.old.window.file.are_all ≡ false }
        ensures waits { result ≡ false → IsOpen self.old.window }
    {
        self.ended || self.leave_interval(head)
    }

    /// Moves to the first MCU of the next interval, at whose data the window is.
    fn begin_next(&mut self)
        requires { self.old.cursor.number + 1 < 2 ^ 32 }
        ensures { self.new ≡ begun self.old }
    {
        let next = start_unless(self.ended);
        self.cursor.number += 1;
        self.cursor.mcu = 0;
        self.cursor.place = next;
    }
}

impl<'a> McuSource for FileSource<'a> {
    ghost Part = { FileBytes };

    ghost value = { source_of };

    fn cursor(&self) -> Cursor {
        self.cursor
    }

    fn advance(&mut self, head: &Head) -> bool {
        // By its contract the numbers of all intervals fit.
        let _most = head.intervals();
        head.assert_invariant();
        if self.cursor.mcu < head.mcus_in(self.cursor.number) {
            return true;
        }
        if !self.find_end(head) {
            return false;
        }
        self.begin_next();
        true
    }

    fn take_some<K: McuSink>(&mut self, head: &Head, sink: &mut K, done: u32) -> u32 {
        'windows: loop {
            let Some(place) = self.cursor.place else {
                return 0;
            };
            let some = self.take_near(head, sink, done, place);
            if some > 0 {
                return some;
            }
            let Some(bit) = self.window.slide(place.bit) else {
                return 0;
            };
            self.cursor.place = Some(at_bit(place, bit));
        }
    }

    // If no further MCU becomes whole, it moves past the interval's data so far.
    fn give_up(&mut self, head: &Head) -> bool {
        head.assert_invariant();
        // By its contract an MCU has a data unit.
        let _some = head.order().len();
        let Some(place) = self.cursor.place else {
            return true;
        };
        let end = self.window.end_of_data();
        if !self.window.is_stuck_at(end, place.bit) {
            return false;
        }
        self.window.leave(end);
        self.cursor.place = None;
        true
    }

    fn pass_grey(&mut self, mcus: u32) {
        self.cursor.mcu += mcus;
    }
}
