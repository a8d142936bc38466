//! An interval of a scan.

ghost use Rattle.std.specs.Prelude.{◌≡◌, ◌↔◌, ◌<◌, ◌≤◌, ◌^◌, ◌*◌, ℕ, ℤ, List, All, ◌++◌, length, IsTrue, IfOk, OnOk, IfSome, IfNone};
ghost use Rattle.jr_head.specs.Geometry.{IsValid};

use crate::front::FrontBlocks;
use crate::interval_ref::IntervalRef;
use crate::mcu_reader::{MAX_UNITS, McuReader};
use jr_base::{Coefficients, Memory};
use jr_cut::Span;
use jr_head::Head;
use std::alloc::Global;
use std::array;
use std::marker::Model;
use std::sync::Arc;

/// The coefficients of a block, in zigzag order.
pub type Block = [i32; 64];

/// A restart interval of a scan: its number of MCUs, and the bytes that code them without stuffing.
#[derive(Drop)]
pub struct Interval {
    head: Arc<Head>,
    unstuffed: Arc<Vec<u8>>,
    start: usize,
    end: usize,
    number: u32,
    mcus: u32,
}

impl Model for Interval {
    ghost use Rattle.jr_scan.specs.IntervalValue.{IntervalValue};

    ghost Value = { IntervalValue };

    ghost use Rattle.std.specs.Prelude.{◌<◌, ◌≤◌, ◌^◌, length, slice_range};
    ghost use Rattle.std.specs.Arc.{arc_value};

    ghost view = { λ i. record { number = i.number; mcus = i.mcus; bytes = slice_range (arc_value i.unstuffed).items i.start i.end; head = arc_value i.head } };

    ghost invariant = { λ i. (i.start ≤ i.end) × (i.end ≤ length (arc_value i.unstuffed).items) × (length (arc_value i.unstuffed).items < 2 ^ 61) };
}

/// Appends blocks, in zigzag order.
fn push_zigzag(blocks: &mut Vec<Block>, more: &[Coefficients]) -> Result<(), Memory>
    ensures { OnOk result (blocks.new.items ≡ blocks.old.items ++ more.now) }
{
    for k in 0..more.len() {
        blocks.push(more[k].to_zigzag())?;
    }
    Ok(())
}

impl Interval {
    ghost use Rattle.std.specs.Arc.{arc_value};
    ghost use Rattle.jr_cut.specs.Spans.{segment_data, IsSpanOf};
    ghost use Rattle.jr_mcu.specs.Block.{IsInRange};
    ghost use Rattle.jr_head.specs.Geometry.{order_of};
    ghost use Rattle.jr_scan.specs.Mcus.{Decodes, HasNoDecoding, Front, LongestFront};
    ghost use Rattle.jr_scan.specs.Run.{whole_run};
    ghost use Rattle.jr_scan.specs.McuReader.{HasRead, HasEnded};

    pub(crate) fn of(
        head: Arc<Head>,
        unstuffed: Arc<Vec<u8>>,
        span: Span,
        number: u32,
        mcus: u32,
    ) -> Interval
        requires few { length (arc_value unstuffed).items < 2 ^ 61 }
        requires within { IsSpanOf (arc_value unstuffed).items span }
        ensures { result ≡ record { number = number; mcus = mcus; bytes = segment_data (arc_value unstuffed).items span; head = arc_value head } }
    {
        Interval {
            head,
            unstuffed,
            start: span.start,
            end: span.end,
            number,
            mcus,
        }
    }

    /// Returns the interval's number in its scan, from 0.
    pub fn number(&self) -> u32
        ensures { result ≡ self.now.number }
    {
        self.number
    }

    /// Returns the number of MCUs that the interval codes.
    pub fn mcus(&self) -> u32
        ensures { result ≡ self.now.mcus }
    {
        self.mcus
    }

    /// Returns the interval's data, without stuffing.
    pub fn bytes(&self) -> &[u8]
        ensures bytes { result.now ≡ self.now.bytes }
        ensures few { length result.now < 2 ^ 61 }
    {
        &self.unstuffed[self.start..self.end]
    }

    /// Returns the header by which the interval is read.
    pub fn head(&self) -> &Head
        ensures value { result.now ≡ self.now.head }
        ensures valid { IsValid result.now }
    {
        self.head.assert_invariant();
        &self.head
    }

    /// Borrows the interval.
    pub fn as_ref(&self) -> IntervalRef<'_>
        ensures { result ≡ self.now }
    {
        IntervalRef::of(self.head(), self.bytes(), self.number, self.mcus)
    }

    /// Returns the maximum number of whole MCUs of the interval: as many as its header claims, and no more than its
    /// bits can code, since each data unit has two bits or more.
    pub fn most_mcus(&self) -> u32
        ensures enough { (k : ℕ) (zs : List (List ℤ)) → Front self.now k zs → k ≤ result }
        ensures claimed { result ≤ self.now.mcus }
        ensures coded { result * length (order_of self.now.head) ≤ 4 * length self.now.bytes }
    {
        self.head.assert_invariant();
        let units = 4 * self.bytes().len();
        let mcus = units / self.head.order().len();
        mcus.min(self.mcus as usize) as u32
    }

    /// Returns whether both are the same interval: equal numbers, MCU counts, data and headers.
    pub fn is_same(&self, other: &Interval) -> bool
        ensures { IsTrue result ↔ (self.now ≡ other.now) }
    {
        self.number == other.number
            && self.mcus == other.mcus
            && self.bytes() == other.bytes()
            && self.head.is_same(&other.head)
    }

    /// Returns the blocks of the interval's one decoding, or that it has none.
    pub fn read(&self, alloc: Global) -> Result<Option<Vec<Block>>, Memory>
        ensures some { IfOk result (λ answer. IfSome answer (λ v. Decodes self.now v.items)) }
        ensures only { IfOk result (λ answer. IfSome answer (λ v. (ys : List (List ℤ)) → Decodes self.now ys → ys ≡ v.items)) }
        ensures none { IfOk result (λ answer. IfNone answer (HasNoDecoding self.now)) }
        ensures in_range { IfOk result (λ answer. IfSome answer (λ v. All IsInRange v.items)) }
    {
        let (blocks, reader) = self.read_blocks(alloc)?;
        if reader.is_sound() {
            Ok(Some(blocks))
        } else {
            Ok(None)
        }
    }

    /// Returns the blocks of the greatest number of whole MCUs that the interval's bits begin with.
    pub fn read_front(&self, alloc: Global) -> Result<FrontBlocks, Memory>
        ensures front { IfOk result (λ f. LongestFront self.now f.mcus f.blocks) }
        ensures sound { IfOk result (λ f. IsTrue f.is_sound ↔ Decodes self.now f.blocks) }
        ensures damaged { IfOk result (λ f. (ys : List (List ℤ)) → Decodes self.now ys → ys ≡ f.blocks) }
        ensures in_range { IfOk result (λ f. All IsInRange f.blocks) }
    {
        let (blocks, reader) = self.read_blocks(alloc)?;
        Ok(FrontBlocks::of(reader.mcus(), blocks, reader.is_sound()))
    }

    /// Returns the blocks of all MCUs up to the last, or up to where no whole one follows.
    fn read_blocks(&self, alloc: Global) -> Result<(Vec<Block>, McuReader<'_>), Memory>
        ensures run { IfOk result (λ r. r.1.run ≡ whole_run self.now) }
        ensures read { IfOk result (λ r. HasRead r.1 r.0.items) }
        ensures ended { IfOk result (λ r. HasEnded r.1) }
    {
        let per_mcu = self.head().order().len();
        let mut reader = McuReader::over(self.as_ref());
        let mut blocks = Vec::new(alloc);
        let mut next: [Coefficients; MAX_UNITS] = array::from_fn(|_| Coefficients::zeros());
        'mcus: loop {
            let count = reader.read(&mut next) as usize;
            if count == 0 {
                return Ok((blocks, reader));
            }
            push_zigzag(&mut blocks, &next[..count * per_mcu])?;
        }
    }
}
