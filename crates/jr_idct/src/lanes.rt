//! Sums of products in lanes. A vector of sixteen lanes holds a row of each of two blocks; its products, of 32 bits, are
//! reckoned a half at a time, so that no lane leaves its half of the registers.

ghost use Rattle.std.specs.Prelude.{◌≡◌, ℕ, ◌^◌, ◌<◌, ◌++◌, pos, ◌+ℤ◌, true, false};
ghost use Rattle.std.specs.Simd.Lanes.{pick_l};
ghost use Rattle.std.proofs.Math.IntN.{◌*ℤ◌};
ghost use Rattle.jr_idct.specs.Lanes.{half_lane, word_lanes};
ghost use Rattle.jr_idct.specs.Matrix.{at, IsWithin};

use std::simd::prelude::*;

/// Interleaves the lanes of both halves of two rows, one of each at a time.
#[inline(always)]
pub(crate) fn by_words(a: i16x16, b: i16x16, upper: bool) -> i16x16
    ensures { result ≡ pick_l (pos 0) (a ++ b) (word_lanes upper) }
{
    if upper {
        return a.shuffle(
            b,
            [4, 20, 5, 21, 6, 22, 7, 23, 12, 28, 13, 29, 14, 30, 15, 31],
        );
    }
    a.shuffle(
        b,
        [0, 16, 1, 17, 2, 18, 3, 19, 8, 24, 9, 25, 10, 26, 11, 27],
    )
}

/// Returns the products of the lanes of a half of two rows with a constant each, summed in pairs.
#[inline(always)]
pub(crate) fn pair_sum(a: i16x16, b: i16x16, x: i16, y: i16, upper: bool) -> i32x8
    requires x { IsWithin (2 ^ 14) x }
    requires y { IsWithin (2 ^ 14) y }
    ensures { (j : ℕ) → j < 8 → at result j ≡ x *ℤ at a (half_lane upper j) +ℤ y *ℤ at b (half_lane upper j) }
{
    let pairs = by_words(a, b, upper).cast::<i32>();
    let constants = i16x16::from_array([x, y, x, y, x, y, x, y, x, y, x, y, x, y, x, y]);
    let products = constants.cast::<i32>() * pairs;
    let first: i32x8 = products.swizzle([0, 2, 4, 6, 8, 10, 12, 14]);
    let second: i32x8 = products.swizzle([1, 3, 5, 7, 9, 11, 13, 15]);
    first + second
}

/// Returns the lanes of a half of a row.
#[inline(always)]
fn half_of(a: i16x16, upper: bool) -> i16x8
    ensures { (j : ℕ) → j < 8 → at result j ≡ at a (half_lane upper j) }
{
    if upper {
        return a.swizzle([4, 5, 6, 7, 12, 13, 14, 15]);
    }
    a.swizzle([0, 1, 2, 3, 8, 9, 10, 11])
}

/// Returns the lanes of a half of a row, times c4, which is 8192.
#[inline(always)]
pub(crate) fn scaled(a: i16x16, upper: bool) -> i32x8
    ensures { (j : ℕ) → j < 8 → at result j ≡ pos 8192 *ℤ at a (half_lane upper j) }
{
    let half = half_of(a, upper);
    half.cast::<i32>() * Simd::splat(8192)
}

/// Returns both halves of a row that fits in 16 bits.
#[inline(always)]
pub(crate) fn narrowed(lower: i32x8, upper: i32x8) -> i16x16
    requires lower { (j : ℕ) → j < 8 → IsWithin 32767 (at lower j) }
    requires upper { (j : ℕ) → j < 8 → IsWithin 32767 (at upper j) }
    ensures lower { (j : ℕ) → j < 8 → at result (half_lane false j) ≡ at lower j }
    ensures upper { (j : ℕ) → j < 8 → at result (half_lane true j) ≡ at upper j }
{
    let row: Simd<i32, 16> = lower.shuffle(
        upper,
        [0, 1, 2, 3, 8, 9, 10, 11, 4, 5, 6, 7, 12, 13, 14, 15],
    );
    // it changes nothing, and with it the two steps are one instruction
    row.simd_max(Simd::splat(-32768))
        .simd_min(Simd::splat(32767))
        .cast::<i16>()
}
