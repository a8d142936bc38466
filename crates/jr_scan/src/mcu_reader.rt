//! The whole MCUs of an interval, one after the other.

ghost use Rattle.std.specs.Prelude.{◌≡◌, ◌<◌, ◌≤◌, ◌+◌, ◌*◌, ◌++◌, ◌^◌, ℤ, List, [], length, take, drop, false, IsTrue};
ghost use Rattle.std.specs.List.{All};
ghost use Rattle.jr_code.specs.Bits.{bits};
ghost use Rattle.jr_head.specs.Geometry.{IsValid};
ghost use Rattle.jr_mcu.specs.Block.{IsInDcRange, IsInRange};

use crate::interval_ref::IntervalRef;
use crate::place::Place;
use jr_base::Coefficients;
use jr_code::Bits;
use jr_mcu::{BlockSink, Kept, Skipped, read_mcu};
use std::marker::Model;

/// Maximum number of data units of an MCU (T.81, B.2.3): as many blocks hold a whole one of any file.
pub const MAX_UNITS: usize = 10;

/// Returns the bits of the bytes starting at one of them.
pub(crate) fn bits_from(bytes: &[u8], bit: u64) -> Bits<'_>
    requires within { bit ≤ 8 * length bytes.now }
    requires few { length bytes.now < 2 ^ 61 }
    ensures { result ≡ drop bit (bits bytes.now) }
{
    let mut bits = Bits::over(&bytes[(bit / 8) as usize..]);
    let _ = bits.take((bit % 8) as u32);
    bits
}

/// A reader of the whole MCUs of a run, one after the other. It is always between two of them: an MCU that is not whole
/// moves nothing.
#[derive(Drop)]
pub struct McuReader<'a> {
    interval: IntervalRef<'a>,
    from: Place,
    mcus: u32,
    bits: Bits<'a>,
    predictions: [i32; 3],
    mcu: u32,
}

impl<'a> Model for McuReader<'a> {
    ghost use Rattle.std.specs.Prelude.{◌≡◌, ◌≤◌, ◌*◌, ◌-◌, length};
    ghost use Rattle.std.specs.List.{All};
    ghost use Rattle.jr_mcu.specs.Block.{IsInDcRange};
    ghost use Rattle.jr_scan.specs.McuReader.{McuReaderValue, IsMcuReader};

    ghost Value = { McuReaderValue };

    ghost view = { λ r. record { run = record { interval = r.interval; from = r.from; mcus = r.mcus }; mcu = r.mcu; place = record { bit = 8 * length r.interval.bytes - length r.bits; predictions = r.predictions } } };

    ghost invariant = { λ r. IsMcuReader (record { run = record { interval = r.interval; from = r.from; mcus = r.mcus }; mcu = r.mcu; place = record { bit = 8 * length r.interval.bytes - length r.bits; predictions = r.predictions } }) r.bits };
}

impl<'a> McuReader<'a> {
    ghost use Rattle.jr_scan.specs.IntervalValue.{IntervalValue};
    ghost use Rattle.jr_scan.specs.Mcus.{Decodes, HasNoDecoding, LongestFront};
    ghost use Rattle.jr_scan.specs.Run.{whole_run, IsRun, HasNoMcu, run_from};
    ghost use Rattle.jr_scan.specs.declared.place.RunEnd.TheVariants.{AllRead};
    ghost use Rattle.jr_scan.specs.declared.mcu_reader.TheConstants.{MAX_UNITS};
    ghost use Rattle.jr_scan.specs.McuReader.{HasRead, HasReadOf, HasReadAll, HasEnded, per_mcu};

    /// Returns a reader of all MCUs of an interval.
    pub fn over(interval: IntervalRef<'a>) -> McuReader<'a>
        ensures run { result.run ≡ whole_run interval.entry }
        ensures mcu { result.mcu ≡ 0 }
        ensures read { HasRead result [] }
    {
        let mcus = interval.mcus();
        McuReader::at(interval, Place::start(), mcus)
    }

    /// Returns a reader of `mcus` MCUs starting at a position of an interval.
    pub fn at(interval: IntervalRef<'a>, from: Place, mcus: u32) -> McuReader<'a>
        requires within { from.bit ≤ 8 * length interval.bytes }
        requires in_range { All IsInDcRange from.predictions }
        ensures run { result.run ≡ run_from interval.entry from mcus }
        ensures mcu { result.mcu ≡ 0 }
        ensures read { HasRead result [] }
    {
        // By its contract the header is valid.
        let _head = interval.head();
        let bits = bits_from(interval.bytes(), from.bit);
        let predictions = from.predictions;
        McuReader {
            interval,
            from,
            mcus,
            bits,
            predictions,
            mcu: 0,
        }
    }

    /// Returns a second reader at the same position.
    pub fn fork(&self) -> McuReader<'a>
        ensures { result ≡ self.now }
    {
        McuReader {
            interval: self.interval.fork(),
            from: self.from,
            mcus: self.mcus,
            bits: self.bits.fork(),
            predictions: self.predictions,
            mcu: self.mcu,
        }
    }

    /// Returns the number of MCUs of its run that are left to read.
    pub(crate) fn left(&self) -> u32
        ensures { self.now.mcu + result ≡ self.now.run.mcus }
    {
        self.mcus - self.mcu
    }

    /// Moves to the position after `mcus` further MCUs.
    pub(crate) fn advance_to(&mut self, mcus: u32, place: &Place)
        requires few { self.old.mcu + mcus ≤ self.old.run.mcus }
        requires within { place.now.bit ≤ 8 * length self.old.run.interval.bytes }
        requires in_range { All IsInDcRange place.now.predictions }
        ensures { self.new ≡ record { run = self.old.run; mcu = self.old.mcu + mcus; place = place.now } }
    {
        self.bits = bits_from(self.interval.bytes(), place.bit);
        self.predictions = place.predictions;
        self.mcu += mcus;
    }

    /// Returns the interval that it reads.
    pub fn interval(&self) -> &IntervalRef<'a>
        ensures { result.now ≡ self.now.run.interval }
    {
        &self.interval
    }

    /// Takes the next MCUs: all whole ones that follow, at most `most`. Blocks that are kept fill the start of `blocks`.
    /// Returns the number of MCUs.
    pub fn take_mcus<S: BlockSink>(&mut self, most: u32, blocks: &mut [Coefficients]) -> u32
        requires few { self.old.mcu + most ≤ self.old.run.mcus }
        requires space { IsTrue S.keeps → most * per_mcu self.old ≤ length blocks.old }
        ensures run { self.new.run ≡ self.old.run }
        ensures mcus { self.new.mcu ≡ self.old.mcu + result }
        ensures few { self.new.mcu ≤ self.new.run.mcus }
        ensures most { result ≤ most }
        ensures taken { (zs : List (List ℤ)) × IsRun (run_from self.old.run.interval self.old.place result) zs self.new.place AllRead × (IsTrue S.keeps → take (result * per_mcu self.old) blocks.new ≡ zs) }
        ensures ended { result < most → HasNoMcu self.new.run.interval self.new.place }
        ensures stays { result ≡ 0 → self.new ≡ self.old }
    {
        let head = self.interval.head();
        let per_mcu = head.order().len();
        for k in 0..most {
            let start = k as usize * per_mcu;
            let Some(()) = read_mcu::<S>(head, &mut self.bits, &mut self.predictions, start, blocks)
            else {
                return k;
            };
            self.mcu += 1;
        }
        most
    }

    /// Reads the blocks of the next MCUs, as many whole ones as fit into the slice or as follow. Returns their number.
    /// What the slice holds after them means nothing.
    pub fn read(&mut self, blocks: &mut [Coefficients]) -> u32
        ensures run { self.new.run ≡ self.old.run }
        ensures mcus { self.new.mcu ≡ self.old.mcu + result }
        ensures few { self.new.mcu ≤ self.new.run.mcus }
        ensures fits { result * per_mcu self.old ≤ length blocks.new }
        ensures read { (zs : List (List ℤ)) → HasRead self.old zs → HasRead self.new (zs ++ take (result * per_mcu self.old) blocks.new) }
        ensures in_range { All IsInRange (take (result * per_mcu self.old) blocks.new) }
        ensures ended { (result + 1) * per_mcu self.old ≤ length blocks.new → HasEnded self.new }
        ensures none { MAX_UNITS ≤ length blocks.new → result ≡ 0 → HasEnded self.new }
        ensures stays { HasEnded self.old → self.new ≡ self.old }
    {
        let per_mcu = self.interval.head().order().len();
        let space = blocks.len() / per_mcu;
        let most = space.min((self.mcus - self.mcu) as usize) as u32;
        self.take_mcus::<Kept>(most, blocks)
    }

    /// Skips the next MCUs, as many whole ones as are asked for or as follow, and keeps none of their blocks. Returns
    /// their number.
    pub fn skip(&mut self, mcus: u32) -> u32
        ensures run { self.new.run ≡ self.old.run }
        ensures mcus { self.new.mcu ≡ self.old.mcu + result }
        ensures few { self.new.mcu ≤ self.new.run.mcus }
        ensures most { result ≤ mcus }
        ensures passed { (zs : List (List ℤ)) → HasRead self.old zs → (ys : List (List ℤ)) × (length ys ≡ result * per_mcu self.old) × All IsInRange ys × HasRead self.new (zs ++ ys) }
        ensures ended { result < mcus → HasEnded self.new }
        ensures stays { HasEnded self.old → self.new ≡ self.old }
    {
        let most = mcus.min(self.mcus - self.mcu);
        self.take_mcus::<Skipped>(most, &mut [])
    }

    /// Returns the number of MCUs read: those of the interval's longest prefix, once no further one follows.
    pub fn mcus(&self) -> u32
        ensures value { result ≡ self.now.mcu }
        ensures front { (i : IntervalValue) (zs : List (List ℤ)) → HasReadAll self.now i zs → LongestFront i result zs }
    {
        self.mcu
    }

    /// Returns where the next MCU starts.
    pub fn place(&self) -> Place
        ensures value { result ≡ self.now.place }
        ensures valid { IsValid self.now.run.interval.head }
        ensures within { result.bit ≤ 8 * length self.now.run.interval.bytes }
        ensures in_range { All IsInDcRange result.predictions }
    {
        let bits = 8 * self.interval.bytes().len() as u64;
        Place {
            bit: bits.saturating_sub(self.bits.left()),
            predictions: self.predictions,
        }
    }

    /// Returns whether all MCUs are read and fewer than eight bits are left.
    pub fn is_sound(&self) -> bool
        ensures sound { IsTrue result → (i : IntervalValue) (zs : List (List ℤ)) → HasReadOf self.now i zs → Decodes i zs }
        ensures damaged { result ≡ false → (i : IntervalValue) (zs : List (List ℤ)) → HasReadAll self.now i zs → HasNoDecoding i }
    {
        self.mcu == self.mcus && self.bits.left() < 8
    }
}
