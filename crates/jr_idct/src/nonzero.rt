//! Which blocks have only zeros past their DC coefficient, or in rows and columns 4 to 7.

ghost use Rattle.std.specs.Prelude.{◌≡◌, ◌+◌, ◌*◌, ◌%◌, ◌<◌, ◌≤◌, ℕ, pos, IsTrue};
ghost use Rattle.jr_idct.specs.Matrix.{at};
ghost use Rattle.jr_idct.specs.Transform.{zigzag_place, IsLow};

use jr_base::Coefficients;
use std::simd::prelude::*;

/// Returns rows 2 k and 2 k + 1 of a block. It takes the block by value, whose numbers are known to have 16 bits; inlined,
/// it copies none.
#[inline(always)]
fn two_rows(block: [i16; 64], k: usize) -> i16x16
    requires { k < 4 }
    ensures { (j : ℕ) → j < 16 → at result j ≡ at block (16 * k + j) }
{
    i16x16::from_slice(&block[16 * k..])
}

/// Returns the lanes of two vectors, ORed: only two zeros give zero.
#[inline(always)]
fn either(x: i16x16, y: i16x16) -> i16x16
    ensures first { (j : ℕ) → j < 16 → at result j ≡ pos 0 → at x j ≡ pos 0 }
    ensures second { (j : ℕ) → j < 16 → at result j ≡ pos 0 → at y j ≡ pos 0 }
{
    x | y
}

/// Returns rows 2 k and 2 k + 1 of two blocks, ORed.
#[inline(always)]
fn both_rows(a: &[i16; 64], b: &[i16; 64], k: usize) -> i16x16
    requires { k < 4 }
    ensures first { (j : ℕ) → j < 16 → at result j ≡ pos 0 → at a.now (16 * k + j) ≡ pos 0 }
    ensures second { (j : ℕ) → j < 16 → at result j ≡ pos 0 → at b.now (16 * k + j) ≡ pos 0 }
{
    either(two_rows(*a, k), two_rows(*b, k))
}

/// Returns two rows with 0 in lane 0.
#[inline(always)]
fn but_first(x: i16x16) -> i16x16
    ensures { (j : ℕ) → 0 < j → j < 16 → at result j ≡ at x j }
{
    x & i16x16::from_array([
        0, -1, -1, -1, -1, -1, -1, -1, -1, -1, -1, -1, -1, -1, -1, -1,
    ])
}

/// Returns two rows with 0 in columns 0 to 3.
#[inline(always)]
fn right_half(x: i16x16) -> i16x16
    ensures { (j : ℕ) → j < 16 → 4 ≤ j % 8 → at result j ≡ at x j }
{
    x & i16x16::from_array([0, 0, 0, 0, -1, -1, -1, -1, 0, 0, 0, 0, -1, -1, -1, -1])
}

/// Returns whether all lanes are seen to be 0.
#[inline(always)]
fn is_zero(x: i16x16) -> bool
    ensures { IsTrue result → (j : ℕ) → j < 16 → at x j ≡ pos 0 }
{
    x.reduce_or() == 0
}

/// Returns whether all coefficients of two blocks in rows and columns 4 to 7 are seen to be 0.
#[inline(always)]
pub(crate) fn are_low(a: &Coefficients, b: &Coefficients) -> bool
    ensures first { IsTrue result → IsLow (λ n. at a.now (zigzag_place n)) }
    ensures second { IsTrue result → IsLow (λ n. at b.now (zigzag_place n)) }
{
    let (x, y) = (a.natural(), b.natural());
    let top = either(both_rows(x, y, 0), both_rows(x, y, 1));
    let bottom = either(both_rows(x, y, 2), both_rows(x, y, 3));
    is_zero(either(right_half(top), bottom))
}

/// Returns whether all coefficients of two such blocks but their first are seen to be 0: only rows 0 to 3 are tested.
#[inline(always)]
pub(crate) fn are_flat(a: &Coefficients, b: &Coefficients) -> bool
    requires low_a { IsLow (λ n. at a.now (zigzag_place n)) }
    requires low_b { IsLow (λ n. at b.now (zigzag_place n)) }
    ensures first { IsTrue result → (k : ℕ) → 0 < k → k < 64 → at a.now k ≡ pos 0 }
    ensures second { IsTrue result → (k : ℕ) → 0 < k → k < 64 → at b.now k ≡ pos 0 }
{
    let (x, y) = (a.natural(), b.natural());
    let first = but_first(both_rows(x, y, 0));
    is_zero(either(first, both_rows(x, y, 1)))
}
