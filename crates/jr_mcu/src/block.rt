//! The bits of one block, read or skipped.

ghost use Rattle.std.specs.Prelude.{◌≡◌, ◌≤◌, ℤ, ◌+ℤ◌, ◌∷◌, ◌↔◌, ◌⊎◌, List, slice_set, IsSome, IfSome, IfNone};
ghost use Rattle.jr_code.specs.Code.{Table};
ghost use Rattle.jr_mcu.specs.Block.{IsInDcRange};
ghost use Rattle.jr_mcu.specs.Step.{TakesDifference, TakesOthers, HasNoOthers, HasNoBlock};

use jr_base::Coefficients;
use jr_code::{Bits, CodeBook, WordBook};

/// Reads a block's DC coefficient: its difference, added to its prediction (T.81, F.1.2.1 and F.2.1.3.1).
#[inline(always)]
pub(crate) fn read_first(dc: &WordBook, bits: &mut Bits<'_>, prediction: i32) -> Option<i16>
    requires { IsInDcRange prediction }
    ensures some { IfSome result (λ first. (d : ℤ) × TakesDifference dc.now d bits.old bits.new × (first ≡ prediction +ℤ d)) }
    ensures none { IfNone result ((ac : Table) → HasNoBlock dc.now ac prediction bits.old) }
{
    let (size, difference) = dc.read_extended(bits)?;
    if size > 11 {
        return None;
    }
    let first = prediction + difference;
    if first < -32768 || first > 32767 {
        return None;
    }
    Some(first as i16)
}

/// Ends a block whose last code advanced to its last position, or past it: at the last one its value is stored there,
/// and from 128 it was the code of the end. `None` if it is a position that no block has.
#[inline(always)]
fn end_block(place: usize, value: i16, block: &mut Coefficients) -> Option<()>
    requires { 63 ≤ place }
    ensures some { IsSome result ↔ ((place ≡ 63) ⊎ (128 ≤ place)) }
    ensures last { place ≡ 63 → block.new ≡ slice_set block.old 63 value }
    ensures end { 128 ≤ place → block.new ≡ block.old }
{
    if place == 63 {
        block.set(63, value);
    } else if place < 128 {
        return None;
    }
    Some(())
}

/// Number of codes that are read after a refill before the next one: it suffices for them and the one beside the refill,
/// if a look-up holds each.
const HELD_CODES: u32 = 4;

/// Reads the coefficients after the first into a block.
#[inline(always)]
pub(crate) fn read_others(
    ac: &CodeBook,
    bits: &mut Bits<'_>,
    first: i16,
    block: &mut Coefficients,
) -> Option<()>
    ensures some { IfSome result (λ _. (others : List ℤ) × (block.new ≡ first ∷ others) × TakesOthers ac.now others bits.old bits.new) }
    ensures none { IfNone result (HasNoOthers ac.now bits.old) }
{
    *block = Coefficients::zeros();
    block.set(0, first);
    let mut place: usize = 0;
    'codes: loop {
        'held: for _ in 0..HELD_CODES {
            let code = ac.read_places(bits)?;
            place += code.places() as usize;
            if place > 62 {
                return end_block(place, code.value(), block);
            }
            block.set(place, code.value());
        }

        let next = ac.read_places_and_refill(bits)?;
        place += next.places() as usize;
        if place > 62 {
            return end_block(place, next.value(), block);
        }
        block.set(place, next.value());
    }
}

/// Returns whether a block ends if its last code advanced to this position: the last one, or the end by its code.
#[inline(always)]
fn end_at(place: usize) -> Option<()>
    ensures { IsSome result ↔ ((place ≡ 63) ⊎ (128 ≤ place)) }
{
    if place == 63 || place >= 128 {
        Some(())
    } else {
        None
    }
}

/// Skips the coefficients after the first.
#[inline(always)]
pub(crate) fn skip_others(ac: &CodeBook, bits: &mut Bits<'_>) -> Option<()>
    ensures some { IfSome result (λ _. (others : List ℤ) × TakesOthers ac.now others bits.old bits.new) }
    ensures none { IfNone result (HasNoOthers ac.now bits.old) }
{
    let mut place: usize = 0;
    'codes: loop {
        'held: for _ in 0..HELD_CODES {
            let code = ac.read_places(bits)?;
            place += code.places() as usize;
            if place > 62 {
                return end_at(place);
            }
        }

        let next = ac.read_places_and_refill(bits)?;
        place += next.places() as usize;
        if place > 62 {
            return end_at(place);
        }
    }
}
