//! A position between two MCUs of a scan, from which one can read or skip.

ghost use Rattle.std.specs.Prelude.{◌≡◌, ◌+◌, ◌*◌, ◌<◌, ◌≤◌, ℕ, ℤ, true, List, Some, None, [], length, slice_index_or, take, IfSome};
ghost use Rattle.jr_head.specs.Geometry.{IsValid, order_of};
ghost use Rattle.jr_scan.specs.declared.place.Place.{Place};
ghost use Rattle.jr_scan.specs.Cursors.{AreBlocksFrom, IsPlaceAfter, TakesMcus, interval_start, zero_block};
ghost use Rattle.jr_scan.specs.Speculations.{AreSpeculationsOf};
ghost use Rattle.jr_scan.specs.McuReader.{HasEnded, HasRead, per_mcu};
ghost use Rattle.jr_scan.specs.Mcus.{ReportsSound};
ghost use Rattle.jr_scan.specs.Run.{CanReadFrom};

use crate::interval_ref::IntervalRef;
use crate::mcu_reader::McuReader;
use crate::place::Place;
use crate::speculations::Speculations;
use jr_base::Coefficients;
use jr_mcu::{Kept, Skipped};

/// A position between two MCUs of a scan.
#[derive(Clone, Copy)]
pub struct Cursor {
    /// The interval.
    pub number: u32,
    /// Number of its MCUs passed, whole or not.
    pub mcu: u32,
    /// Start of the next MCU; `None` if no further one is whole.
    pub place: Option<Place>,
}

/// Fills the blocks starting at `first` with zeros.
pub fn zero_from(blocks: &mut [Coefficients], first: usize)
    requires { first ≤ length blocks.old }
    ensures kept { (k : ℕ) → k < first → slice_index_or blocks.new k [] ≡ slice_index_or blocks.old k [] }
    ensures zeros { (k : ℕ) → first ≤ k → k < length blocks.new → slice_index_or blocks.new k [] ≡ zero_block }
{
    for k in first..blocks.len() {
        blocks[k] = Coefficients::zeros();
    }
}

/// Takes the MCUs of a reader that has taken none: all whole ones. If they are kept, their blocks fill the start of
/// `blocks`. Returns their number.
fn take_all(
    reader: &mut McuReader<'_>,
    speculations: Option<&Speculations>,
    mcus: u32,
    keeps: bool,
    blocks: &mut [Coefficients],
) -> u32
    requires valid { IsValid reader.old.run.interval.head }
    requires new { HasRead reader.old [] }
    requires all { reader.old.mcu + mcus ≡ reader.old.run.mcus }
    requires space { keeps ≡ true → mcus * per_mcu reader.old ≤ length blocks.old }
    requires same { IfSome speculations (λ g. AreSpeculationsOf reader.old.run.interval g.now) }
    ensures run { reader.new.run ≡ reader.old.run }
    ensures mcu { reader.new.mcu ≡ reader.old.mcu + result }
    ensures few { result ≤ mcus }
    ensures taken { (zs : List (List ℤ)) × HasRead reader.new zs × (keeps ≡ true → take (result * per_mcu reader.old) blocks.new ≡ zs) }
    ensures ended { result < mcus → HasEnded reader.new }
{
    match speculations {
        Some(speculations) if keeps => reader.read_by(speculations, blocks),
        Some(speculations) => reader.skip_by(speculations, mcus),
        None if keeps => reader.take_mcus::<Kept>(mcus, blocks),
        None => reader.take_mcus::<Skipped>(mcus, blocks),
    }
}

/// Returns where a reader is that has taken `whole` of `mcus` MCUs, unless these are fewer.
fn place_after(reader: &McuReader<'_>, whole: u32, mcus: u32) -> Option<Place>
    ensures place { (p : Place) → result ≡ Some p → p ≡ reader.now.place }
    ensures can { (p : Place) → result ≡ Some p → CanReadFrom reader.now.run.interval p }
    ensures none { result ≡ None → whole < mcus }
    ensures short { whole < mcus → result ≡ None }
{
    if whole < mcus {
        return None;
    }
    Some(reader.place())
}

impl Cursor {
    /// Returns the start of an interval.
    pub fn at_start(number: u32) -> Cursor
        ensures { result ≡ interval_start number }
    {
        Cursor {
            number,
            mcu: 0,
            place: Some(Place::start()),
        }
    }

    /// Takes the next whole MCUs of the interval: all that follow, at most `most`. If they are kept, their blocks fill
    /// the start of `blocks`. Returns their number. The speculative reads change nothing of what is taken.
    pub fn take(
        &mut self,
        interval: IntervalRef<'_>,
        speculations: Option<&Speculations>,
        most: u32,
        keeps: bool,
        blocks: &mut [Coefficients],
    ) -> u32
        requires at { IsPlaceAfter interval self.old.mcu self.old.place }
        requires space { keeps ≡ true → most * length (order_of interval.head) ≤ length blocks.old }
        requires same { IfSome speculations (λ g. AreSpeculationsOf interval g.now) }
        ensures number { self.new.number ≡ self.old.number }
        ensures mcu { self.new.mcu ≡ self.old.mcu + result }
        ensures few { result ≤ most }
        ensures at { IsPlaceAfter interval.entry self.new.mcu self.new.place }
        ensures stuck { result < most → self.new.mcu < interval.entry.mcus → self.new.place ≡ None }
        ensures none { self.old.place ≡ None → result ≡ 0 }
        ensures some { (from : Place) → self.old.place ≡ Some from → (zs : List (List ℤ)) × TakesMcus interval.entry self.old.mcu from most result zs self.new.place
            × (keeps ≡ true → take (result * length (order_of interval.entry.head)) blocks.new ≡ zs) }
    {
        // By its contract an interval's header is valid.
        let _valid = interval.head();
        let Some(from) = self.place else {
            return 0;
        };
        let mcus = most.min(interval.mcus() - self.mcu);
        let mut reader = McuReader::at(interval, from, mcus);
        let whole = take_all(&mut reader, speculations, mcus, keeps, blocks);
        self.mcu += whole;
        self.place = place_after(&reader, whole, mcus);
        whole
    }

    /// Reads the coefficients of the next MCUs of the interval, as many as fit into the slice. Those of an MCU that is
    /// not whole, and all after it, are zeros. The speculative reads change nothing of what is read.
    pub fn read(
        &mut self,
        interval: IntervalRef<'_>,
        speculations: Option<&Speculations>,
        mcus: u32,
        blocks: &mut [Coefficients],
    )
        requires at { IsPlaceAfter interval self.old.mcu self.old.place }
        requires few { self.old.mcu + mcus ≤ interval.mcus }
        requires space { length blocks.old ≡ mcus * length (order_of interval.head) }
        requires same { IfSome speculations (λ g. AreSpeculationsOf interval g.now) }
        ensures at { IsPlaceAfter interval.entry self.new.mcu self.new.place }
        ensures number { self.new.number ≡ self.old.number }
        ensures mcu { self.new.mcu ≡ self.old.mcu + mcus }
        ensures blocks { AreBlocksFrom interval.entry self.old.mcu blocks.new }
    {
        let per_mcu = interval.head().order().len();
        self.mcu += mcus;
        let Some(from) = self.place else {
            zero_from(blocks, 0);
            return;
        };
        let mut reader = McuReader::at(interval, from, mcus);
        let whole = match speculations {
            Some(speculations) => reader.read_by(speculations, blocks),
            None => reader.take_mcus::<Kept>(mcus, blocks),
        };
        self.place = place_after(&reader, whole, mcus);
        zero_from(blocks, whole as usize * per_mcu);
    }

    /// Skips the next MCUs of the interval.
    pub fn skip(
        &mut self,
        interval: IntervalRef<'_>,
        speculations: Option<&Speculations>,
        mcus: u32,
    )
        requires at { IsPlaceAfter interval self.old.mcu self.old.place }
        requires few { self.old.mcu + mcus ≤ interval.mcus }
        requires same { IfSome speculations (λ g. AreSpeculationsOf interval g.now) }
        ensures at { IsPlaceAfter interval.entry self.new.mcu self.new.place }
        ensures number { self.new.number ≡ self.old.number }
        ensures mcu { self.new.mcu ≡ self.old.mcu + mcus }
    {
        let whole = self.take(interval, speculations, mcus, false, &mut []);
        self.mcu += mcus - whole;
    }

    /// Returns whether the interval has a decoding, once all its MCUs are read.
    pub fn is_sound(&self, interval: &IntervalRef<'_>) -> bool
        requires at { IsPlaceAfter interval.now self.now.mcu self.now.place }
        requires all { self.now.mcu ≡ interval.now.mcus }
        ensures { ReportsSound result interval.now }
    {
        // By its contract an interval's header is valid.
        let _valid = interval.head();
        let Some(place) = self.place else {
            return false;
        };
        let bits = 8 * interval.bytes().len() as u64;
        bits.saturating_sub(place.bit) < 8
    }

    /// Returns where reading continues, as the number of an interval and a bit. This interval has `mcus` MCUs.
    pub fn next_start(&self, mcus: u32) -> (u32, u64) {
        let next = (self.number.saturating_add(1), 0);
        let Some(place) = self.place else {
            return next;
        };
        if self.mcu < mcus {
            (self.number, place.bit)
        } else {
            next
        }
    }
}
