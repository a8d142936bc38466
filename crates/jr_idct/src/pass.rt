//! A pass over each of the columns of two blocks, in lanes.

ghost use Rattle.std.specs.Prelude.{◌≡◌, ℕ, ◌+◌, ◌-◌, ◌*◌, ◌^◌, ◌<◌, ◌+ℤ◌, ◌-ℤ◌, [], ◌∷◌, true, false};
ghost use Rattle.jr_idct.specs.Lanes.{half_lane, lane, AreShort, IsShort};
ghost use Rattle.jr_idct.specs.Matrix.{at, even_sum, floor_div, odd_sum, row_sum, IsWithin};

use crate::lanes::{narrowed, pair_sum, scaled};
use std::simd::prelude::*;

/// Eight rows of each of two blocks.
pub(crate) type Rows = (
    i16x16,
    i16x16,
    i16x16,
    i16x16,
    i16x16,
    i16x16,
    i16x16,
    i16x16,
);

/// Returns the part of entries 0 to 3 that numbers 0, 2, 4 and 6 of the columns of a half make, and a constant.
#[inline(always)]
fn even_lanes(
    x0: i16x16,
    x2: i16x16,
    x4: i16x16,
    x6: i16x16,
    constant: i32,
    upper: bool,
) -> (i32x8, i32x8, i32x8, i32x8)
    requires { IsWithin (2 ^ 26) constant }
    ensures entry_0 { (j : ℕ) → j < 8 → at result.0 j ≡ even_sum 0 (at x0 (half_lane upper j) ∷ at x2 (half_lane upper j) ∷ at x4 (half_lane upper j) ∷ at x6 (half_lane upper j) ∷ []) +ℤ constant }
    ensures entry_1 { (j : ℕ) → j < 8 → at result.1 j ≡ even_sum 1 (at x0 (half_lane upper j) ∷ at x2 (half_lane upper j) ∷ at x4 (half_lane upper j) ∷ at x6 (half_lane upper j) ∷ []) +ℤ constant }
    ensures entry_2 { (j : ℕ) → j < 8 → at result.2 j ≡ even_sum 2 (at x0 (half_lane upper j) ∷ at x2 (half_lane upper j) ∷ at x4 (half_lane upper j) ∷ at x6 (half_lane upper j) ∷ []) +ℤ constant }
    ensures entry_3 { (j : ℕ) → j < 8 → at result.3 j ≡ even_sum 3 (at x0 (half_lane upper j) ∷ at x2 (half_lane upper j) ∷ at x4 (half_lane upper j) ∷ at x6 (half_lane upper j) ∷ []) +ℤ constant }
{
    let s0 = scaled(x0, upper);
    let s4 = scaled(x4, upper);
    let outer = pair_sum(x2, x6, 10703, 4433, upper);
    let inner = pair_sum(x2, x6, 4433, -10704, upper);
    let first = s0 + Simd::splat(constant);
    let sum = first + s4;
    let difference = first - s4;
    (
        sum + outer,
        difference + inner,
        difference - inner,
        sum - outer,
    )
}

/// Returns the part of entries 0 to 3 that numbers 1, 3, 5 and 7 of the columns of a half make.
#[inline(always)]
fn odd_lanes(
    x1: i16x16,
    x3: i16x16,
    x5: i16x16,
    x7: i16x16,
    upper: bool,
) -> (i32x8, i32x8, i32x8, i32x8)
    ensures entry_0 { (j : ℕ) → j < 8 → at result.0 j ≡ odd_sum 0 (at x1 (half_lane upper j) ∷ at x3 (half_lane upper j) ∷ at x5 (half_lane upper j) ∷ at x7 (half_lane upper j) ∷ []) }
    ensures entry_1 { (j : ℕ) → j < 8 → at result.1 j ≡ odd_sum 1 (at x1 (half_lane upper j) ∷ at x3 (half_lane upper j) ∷ at x5 (half_lane upper j) ∷ at x7 (half_lane upper j) ∷ []) }
    ensures entry_2 { (j : ℕ) → j < 8 → at result.2 j ≡ odd_sum 2 (at x1 (half_lane upper j) ∷ at x3 (half_lane upper j) ∷ at x5 (half_lane upper j) ∷ at x7 (half_lane upper j) ∷ []) }
    ensures entry_3 { (j : ℕ) → j < 8 → at result.3 j ≡ odd_sum 3 (at x1 (half_lane upper j) ∷ at x3 (half_lane upper j) ∷ at x5 (half_lane upper j) ∷ at x7 (half_lane upper j) ∷ []) }
{
    let a0 = pair_sum(x1, x3, 11363, 9633, upper);
    let b0 = pair_sum(x5, x7, 6437, 2260, upper);
    let a1 = pair_sum(x1, x3, 9633, -2259, upper);
    let b1 = pair_sum(x5, x7, -11362, -6436, upper);
    let a2 = pair_sum(x1, x3, 6437, -11362, upper);
    let b2 = pair_sum(x5, x7, 2261, 9633, upper);
    let a3 = pair_sum(x1, x3, 2260, -6436, upper);
    let b3 = pair_sum(x5, x7, 9633, -11363, upper);
    (a0 + b0, a1 + b1, a2 + b2, a3 + b3)
}

/// Returns the sums and the differences of the parts of an entry, without their last bits.
#[inline(always)]
fn shifted(even: i32x8, odd: i32x8, bits: u32) -> (i32x8, i32x8)
    requires few { bits < 19 }
    requires short { AreShort bits even odd }
    ensures sum { (j : ℕ) → j < 8 → at result.0 j ≡ floor_div (at even j +ℤ at odd j) (2 ^ bits) }
    ensures difference { (j : ℕ) → j < 8 → at result.1 j ≡ floor_div (at even j -ℤ at odd j) (2 ^ bits) }
{
    let shift = Simd::splat(bits as i32);
    ((even + odd) >> shift, (even - odd) >> shift)
}

/// Entries i and 7 - i of the columns of both halves, from their parts.
#[inline(always)]
fn ends(
    lower_even: i32x8,
    lower_odd: i32x8,
    upper_even: i32x8,
    upper_odd: i32x8,
    bits: u32,
) -> (i16x16, i16x16)
    requires few { bits < 19 }
    requires lower { AreShort bits lower_even lower_odd }
    requires upper { AreShort bits upper_even upper_odd }
    ensures first_lower { (j : ℕ) → j < 8 → at result.0 (half_lane false j) ≡ floor_div (at lower_even j +ℤ at lower_odd j) (2 ^ bits) }
    ensures first_upper { (j : ℕ) → j < 8 → at result.0 (half_lane true j) ≡ floor_div (at upper_even j +ℤ at upper_odd j) (2 ^ bits) }
    ensures last_lower { (j : ℕ) → j < 8 → at result.1 (half_lane false j) ≡ floor_div (at lower_even j -ℤ at lower_odd j) (2 ^ bits) }
    ensures last_upper { (j : ℕ) → j < 8 → at result.1 (half_lane true j) ≡ floor_div (at upper_even j -ℤ at upper_odd j) (2 ^ bits) }
{
    let lower = shifted(lower_even, lower_odd, bits);
    let upper = shifted(upper_even, upper_odd, bits);
    let first = narrowed(lower.0, upper.0);
    let last = narrowed(lower.1, upper.1);
    (first, last)
}

/// Makes the pass over each column: row i holds entry i of each, of its sum and a constant without the last bits.
#[inline(always)]
pub(crate) fn entries(x: Rows, constant: i32, bits: u32) -> Rows
    requires constant { IsWithin (2 ^ 26) constant }
    requires few { bits < 19 }
    requires short { (i p : ℕ) → i < 8 → p < 16 → IsShort bits (row_sum i (λ k. lane (x.0 ∷ x.1 ∷ x.2 ∷ x.3 ∷ x.4 ∷ x.5 ∷ x.6 ∷ x.7 ∷ []) k p) +ℤ constant) }
    ensures { (i p : ℕ) → i < 8 → p < 16 → lane (result.0 ∷ result.1 ∷ result.2 ∷ result.3 ∷ result.4 ∷ result.5 ∷ result.6 ∷ result.7 ∷ []) i p ≡ floor_div (row_sum i (λ k. lane (x.0 ∷ x.1 ∷ x.2 ∷ x.3 ∷ x.4 ∷ x.5 ∷ x.6 ∷ x.7 ∷ []) k p) +ℤ constant) (2 ^ bits) }
{
    let lower_even = even_lanes(x.0, x.2, x.4, x.6, constant, false);
    let lower_odd = odd_lanes(x.1, x.3, x.5, x.7, false);
    let upper_even = even_lanes(x.0, x.2, x.4, x.6, constant, true);
    let upper_odd = odd_lanes(x.1, x.3, x.5, x.7, true);
    let y0 = ends(lower_even.0, lower_odd.0, upper_even.0, upper_odd.0, bits);
    let y1 = ends(lower_even.1, lower_odd.1, upper_even.1, upper_odd.1, bits);
    let y2 = ends(lower_even.2, lower_odd.2, upper_even.2, upper_odd.2, bits);
    let y3 = ends(lower_even.3, lower_odd.3, upper_even.3, upper_odd.3, bits);
    (y0.0, y1.0, y2.0, y3.0, y3.1, y2.1, y1.1, y0.1)
}
