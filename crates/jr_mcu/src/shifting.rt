//! The blocks of one MCU that was read with predictions of 0, shifted by its predictions (T.81, F.1.1.5.1).

ghost use Rattle.std.specs.Prelude.{◌≡◌, ◌<◌, ℕ, pos, [], length, slice_index_or, ◌+ℤ◌, IfSome, IsTrue, OnSome};
ghost use Rattle.std.specs.List.{All};
ghost use Rattle.jr_head.specs.Geometry.{IsValid, order_of};
ghost use Rattle.jr_mcu.specs.Block.{IsInDcRange};
ghost use Rattle.jr_mcu.specs.Shift.{AreGreater, IsShifted, AreShifted, IsInMcuRange, HaveFirstInMcuRange, IsSmall};

use jr_base::Coefficients;
use jr_head::Head;

/// Maximum distance from 0 of a small prediction.
const MAX_SMALL: i32 = 12297;

/// Returns whether a number is so small that sixteen bits hold its sum with a DC coefficient of an MCU that was read with
/// predictions of 0.
#[inline(always)]
fn is_small(value: i32) -> bool
    ensures { IsTrue result → IsSmall value }
{
    -MAX_SMALL <= value && value <= MAX_SMALL
}

/// Returns whether the predictions are small.
#[inline(always)]
pub fn all_small(predictions: &[i32; 3]) -> bool
    ensures { IsTrue result → All IsSmall predictions.now }
{
    is_small(predictions[0]) && is_small(predictions[1]) && is_small(predictions[2])
}

/// Returns the sum of a number in the range of an MCU and a small one.
#[inline(always)]
fn sum(a: i32, b: i32) -> i32
    requires a { IsInMcuRange a }
    requires b { IsSmall b }
    ensures value { result ≡ a +ℤ b }
    ensures in_range { IsInDcRange result }
{
    a + b
}

/// Returns the sums of the predictions after an MCU that was read with predictions of 0 and of small predictions,
/// component by component.
#[inline(always)]
pub fn sums(a: &[i32; 3], b: &[i32; 3]) -> [i32; 3]
    requires a { All IsInMcuRange a.now }
    requires b { All IsSmall b.now }
    ensures sums { AreGreater b.now a.now result }
    ensures in_range { All IsInDcRange result }
{
    [sum(a[0], b[0]), sum(a[1], b[1]), sum(a[2], b[2])]
}

/// Returns a block whose DC coefficient is greater by `by`.
#[inline(always)]
fn shifted(block: &Coefficients, by: i32) -> Option<Coefficients>
    requires some { 0 < length block.now }
    requires first { IsInMcuRange (slice_index_or block.now 0 (pos 0)) }
    requires by { IsSmall by }
    ensures { IfSome result (λ y. IsShifted by block.now y) }
{
    let first = i32::from(block.first()) + by;
    let mut shifted = block.clone().ok()?;
    shifted.set(0, first as i16);
    Some(shifted)
}

/// Copies the blocks of an MCU, adding to each DC coefficient what is given for its component.
pub fn store_shifted(
    head: &Head,
    by: &[i32; 3],
    blocks: &[Coefficients],
    others: &mut [Coefficients],
) -> Option<()>
    requires valid { IsValid head.now }
    requires count { length blocks.now ≡ length (order_of head.now) }
    requires space { length others.old ≡ length (order_of head.now) }
    requires some { (k : ℕ) → k < length blocks.now → 0 < length (slice_index_or blocks.now k []) }
    requires small { HaveFirstInMcuRange blocks.now }
    requires by { All IsSmall by.now }
    ensures { OnSome result (AreShifted head.now by.now blocks.now others.new) }
{
    let order = head.order();
    for k in 0..order.len() {
        others[k] = shifted(&blocks[k], by[order[k] as usize])?;
    }
    Some(())
}
