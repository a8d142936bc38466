//! The destination of the blocks of an MCU.

ghost use Rattle.std.specs.Prelude.{◌≡◌, ◌<◌, ℤ, List, Bool, true, false, IsTrue, length, take, pos, IfSome, IfNone, slice_index_or, slice_set};
ghost use Rattle.jr_mcu.specs.Block.{IsInDcRange};
ghost use Rattle.jr_mcu.specs.Step.{TakesBlock, HasNoBlock};

use crate::block::{read_first, read_others, skip_others};
use jr_base::Coefficients;
use jr_code::{Bits, CodeBook, WordBook};

/// The destination of the blocks of an MCU, one after the other.
pub trait BlockSink {
    // whether they are kept
    ghost keeps: { Bool };

    /// Takes the next block, which is block k of those that are kept, and returns its DC coefficient.
    fn take(
        dc: &WordBook,
        ac: &CodeBook,
        bits: &mut Bits<'_>,
        prediction: i32,
        k: usize,
        blocks: &mut [Coefficients],
    ) -> Option<i32>
        requires in_range { IsInDcRange prediction }
        requires space { IsTrue keeps → k < length blocks.old }
        ensures some { IfSome result (λ first. (z : List ℤ) × TakesBlock dc.now ac.now prediction z bits.old bits.new × (first ≡ slice_index_or z 0 (pos 0)) × (IsTrue keeps → blocks.new ≡ slice_set blocks.old k z)) }
        ensures front { IsTrue keeps → take k blocks.new ≡ take k blocks.old }
        ensures none { IfNone result (HasNoBlock dc.now ac.now prediction bits.old) };
}

/// Keeps each block.
pub struct Kept;

impl BlockSink for Kept {
    ghost keeps = { true };

    fn take(
        dc: &WordBook,
        ac: &CodeBook,
        bits: &mut Bits<'_>,
        prediction: i32,
        k: usize,
        blocks: &mut [Coefficients],
    ) -> Option<i32> {
        let mut left = bits.fork();
        let first = read_first(dc, &mut left, prediction)?;
        read_others(ac, &mut left, first, &mut blocks[k])?;
        *bits = left;
        Some(i32::from(first))
    }
}

/// Skips each block.
pub struct Skipped;

impl BlockSink for Skipped {
    ghost keeps = { false };

    #[inline(always)]
    fn take(
        dc: &WordBook,
        ac: &CodeBook,
        bits: &mut Bits<'_>,
        prediction: i32,
        _k: usize,
        _blocks: &mut [Coefficients],
    ) -> Option<i32> {
        let mut left = bits.fork();
        let first = read_first(dc, &mut left, prediction)?;
        skip_others(ac, &mut left)?;
        *bits = left;
        Some(i32::from(first))
    }
}
