//! MCUs that are read before it is known where one starts.

ghost use Rattle.std.specs.Prelude.{◌≡◌, ◌<◌, ◌≤◌, ◌*◌, ℕ, ℤ, pos, List, [], length, slice_index_or, ◌+ℤ◌, IfOk, IfSome, IfNone, IsTrue, OnSome};
ghost use Rattle.std.specs.List.{All};
ghost use Rattle.jr_head.specs.Geometry.{IsValid, order_of};
ghost use Rattle.jr_head.specs.HeadValue.{HeadValue};
ghost use Rattle.jr_mcu.specs.Block.{IsInDcRange};
ghost use Rattle.jr_scan.specs.Run.{run_from, IsRun};
ghost use Rattle.jr_mcu.specs.Shift.{AreShifted, IsSmall};
ghost use Rattle.jr_scan.specs.Speculation.{AreLastBits, IsSpeculationOf, KeepsBlocks, TakesNext, blocks_at};
ghost use Rattle.jr_scan.specs.IntervalValue.{IntervalValue};
ghost use Rattle.jr_scan.specs.declared.place.RunEnd.TheVariants.{AllRead};

use crate::interval_ref::IntervalRef;
use crate::mcu_reader::bits_from;
use crate::place::Place;
use crate::speculated::Speculated;
use jr_base::{Coefficients, Memory};
use jr_code::Bits;
use jr_mcu::{Kept, Skipped, all_small, read_mcu, store_shifted, sums};
use std::alloc::Global;
use std::marker::Model;

/// Returns the maximum number of starts of a speculative read of these bits. A failed start costs at most 640
/// codes; this bounds their sum by the number of bits.
fn most_starts(from: u64, to: u64) -> u64 {
    16 + to.saturating_sub(from) / 1024
}

/// Whole MCUs of an interval, read from some bit before it is known whether one starts there, each as if its components
/// were predicted to be 0. What it keeps is true whatever the bit: a reader that comes to the bit at which one of its
/// MCUs starts takes it over, its own predictions added.
#[derive(Drop)]
pub struct Speculation {
    /// The number of its interval.
    number: u32,
    /// Maximum number of its MCUs.
    most: usize,
    mcus: Vec<Speculated>,
    /// Those of its MCUs, and space for further ones; empty if no blocks are kept.
    blocks: Vec<Coefficients>,
}

impl Model for Speculation {
    ghost use Rattle.jr_scan.specs.Speculation.{SpeculationValue};

    ghost Value = { SpeculationValue };

    ghost view = { λ g. record { number = g.number; mcus = g.mcus.items; blocks = g.blocks.items } };
}

impl Speculation {
    /// Allocates a buffer for a speculative read of at most `most` MCUs of an interval. If their blocks are not kept, a
    /// reader can skip the MCUs, but not read them.
    pub fn open(
        alloc: Global,
        interval: &IntervalRef<'_>,
        most: u32,
        keeps_blocks: bool,
    ) -> Result<Speculation, Memory>
        ensures { IfOk result (IsSpeculationOf interval.now) }
    {
        let units = if keeps_blocks {
            most as usize * interval.head().order().len()
        } else {
            0
        };
        let mcus = Vec::with_capacity(alloc, most as usize)?;
        let blocks = vec![in alloc; Coefficients::zeros(); units]?;
        Ok(Speculation {
            number: interval.number(),
            most: most as usize,
            mcus,
            blocks,
        })
    }

    /// Returns the number of the interval that it is of.
    pub fn number(&self) -> u32
        ensures { result ≡ self.now.number }
    {
        self.number
    }

    /// Reads MCUs starting at a bit of an interval, over those that were read before, until one starts at bit `to` or
    /// past it, or the buffer is full. If no MCU follows it retries at the next byte, at most `most_starts` times.
    pub fn read(&mut self, interval: &IntervalRef<'_>, from: u64, to: u64)
        ensures { IsSpeculationOf interval.now self.new }
    {
        self.clear(interval.number());
        let mut start = from;
        for _ in 0..most_starts(from, to) {
            let next = self.read_from(interval, start, to);
            if next >= to {
                return;
            }
            start = (next - next % 8).saturating_add(8);
        }
    }

    /// Forgets its MCUs: it is one of the interval of another number.
    fn clear(&mut self, number: u32)
        ensures { (i : IntervalValue) → i.number ≡ number → IsSpeculationOf i self.new }
    {
        self.number = number;
        self.mcus.clear();
    }

    /// Reads the MCUs that follow one another starting at a bit, and returns the bit at which none follows; `to` if one
    /// starts there or past it, or if the buffer is full.
    fn read_from(&mut self, interval: &IntervalRef<'_>, from: u64, to: u64) -> u64
        requires { IsSpeculationOf interval.now self.old }
        ensures { IsSpeculationOf interval.now self.new }
    {
        let bytes = interval.bytes();
        let all = 8 * bytes.len() as u64;
        if from > all {
            return to;
        }
        let mut left = bits_from(bytes, from);
        for _ in self.mcus.len()..self.most {
            let next = all - left.left();
            if next >= to {
                return to;
            }
            let Some(()) = self.keep(interval, &mut left) else {
                return next;
            };
        }
        to
    }

    /// Reads or skips the blocks of the next MCU after the others, with predictions of 0. Returns the predictions after
    /// it; `None` if no whole one follows, or if it does not fit.
    fn take_mcu(&mut self, interval: &IntervalRef<'_>, bits: &mut Bits<'_>) -> Option<[i32; 3]>
        requires { IsSpeculationOf interval.now self.old }
        ensures of { IsSpeculationOf interval.now self.new }
        ensures mcus { self.new.mcus ≡ self.old.mcus }
        ensures taken { IfSome result (λ ps. TakesNext interval.now self.new ps bits.old bits.new) }
        ensures none { IfNone result (bits.new ≡ bits.old) }
    {
        let head = interval.head();
        let per_mcu = head.order().len();
        let mut predictions = [0; 3];
        if self.blocks.is_empty() {
            read_mcu::<Skipped>(head, bits, &mut predictions, 0, &mut [])?;
            return Some(predictions);
        }
        let start = self.mcus.len() * per_mcu;
        if start + per_mcu > self.blocks.len() {
            return None;
        }
        read_mcu::<Kept>(head, bits, &mut predictions, start, &mut self.blocks)?;
        Some(predictions)
    }

    /// Takes the next MCU after the others, if it fits. If it is none, the bits stay.
    fn keep(&mut self, interval: &IntervalRef<'_>, bits: &mut Bits<'_>) -> Option<()>
        requires of { IsSpeculationOf interval.now self.old }
        requires bits { AreLastBits interval.now bits.old }
        ensures of { IsSpeculationOf interval.now self.new }
        ensures bits { AreLastBits interval.now bits.new }
    {
        // By its contract an interval's header is valid, and an MCU has at most ten data units.
        let _few = interval.head().order();
        let all = 8 * interval.bytes().len() as u64;
        let from = all - bits.left();
        let predictions = self.take_mcu(interval, bits)?;
        let to = Place {
            bit: all - bits.left(),
            predictions,
        };
        self.mcus.push(Speculated { from, to }).ok()
    }

    /// Returns the index of its MCU that starts at a bit.
    pub fn find(&self, bit: u64) -> Option<usize>
        ensures { IfSome result (λ k. k < length self.now.mcus) }
    {
        let mut low = 0;
        let mut high = self.mcus.len();
        while low < high {
            let middle = low + (high - low) / 2;
            let from = self.mcus[middle].from;
            if from == bit {
                return Some(middle);
            }
            if from < bit {
                low = middle + 1;
            } else {
                high = middle;
            }
        }
        None
    }

    /// Returns the position that MCU k leads to from a position. `None` if it starts at another bit, or if sixteen bits
    /// may not hold its coefficients with the position's predictions.
    #[inline(always)]
    pub(crate) fn pass(&self, interval: &IntervalRef<'_>, k: usize, place: &Place) -> Option<Place>
        requires of { IsSpeculationOf interval.now self.now }
        ensures valid { IsValid interval.now.head }
        ensures run { IfSome result (λ to. (zs : List (List ℤ)) × IsRun (run_from interval.now place.now 1) zs to AllRead) }
        ensures shifted { IfSome result (λ to. KeepsBlocks self.now → (zs : List (List ℤ)) → AreShifted interval.now.head place.now.predictions (blocks_at interval.now self.now k) zs → IsRun (run_from interval.now place.now 1) zs to AllRead) }
        ensures kept { OnSome result (k < length self.now.mcus) }
        ensures small { OnSome result (All IsSmall place.now.predictions) }
        ensures within { IfSome result (λ to. to.bit ≤ 8 * length interval.now.bytes) }
        ensures in_range { IfSome result (λ to. All IsInDcRange to.predictions) }
    {
        // By its contract the header is valid.
        let _head = interval.head();
        if k >= self.mcus.len() {
            return None;
        }
        let mcu = &self.mcus[k];
        if mcu.from != place.bit || !all_small(&place.predictions) {
            return None;
        }
        Some(Place {
            bit: mcu.to.bit,
            predictions: sums(&mcu.to.predictions, &place.predictions),
        })
    }

    /// Does what `pass` does, and copies the MCU's blocks; `None` also if no blocks are kept.
    #[inline(always)]
    pub(crate) fn store(
        &self,
        interval: &IntervalRef<'_>,
        k: usize,
        place: &Place,
        blocks: &mut [Coefficients],
    ) -> Option<Place>
        requires of { IsSpeculationOf interval.now self.now }
        requires space { length blocks.old ≡ length (order_of interval.now.head) }
        ensures some { IfSome result (λ to. IsRun (run_from interval.now place.now 1) blocks.new to AllRead) }
        ensures within { IfSome result (λ to. to.bit ≤ 8 * length interval.now.bytes) }
        ensures in_range { IfSome result (λ to. All IsInDcRange to.predictions) }
    {
        if self.blocks.is_empty() {
            return None;
        }
        let to = self.pass(interval, k, place)?;
        let head = interval.head();
        let per_mcu = head.order().len();
        let own = self.blocks.as_slice();
        let start = k * per_mcu;
        let end = start + per_mcu;
        store_shifted(head, &place.predictions, &own[start..end], blocks)?;
        Some(to)
    }
}
