//! Which blocks have small products.

ghost use Rattle.std.specs.Prelude.{◌≡◌, ◌<◌, ◌≤◌, ℕ, slice_index, unsigned_abs, IsTrue};
ghost use Rattle.jr_base.specs.declared.quantisers.TheConstants.{MAX_PRODUCT};
ghost use Rattle.jr_idct.specs.Matrix.{at, IsWithin};
ghost use Rattle.jr_idct.specs.Transform.{product_at, zigzag_place, IsLow};

use jr_base::{Coefficients, Quantisers};

/// Returns by how much the larger of two coefficients exceeds a limit, and 0 if it does not.
#[inline(always)]
fn excess_of(a: i16, b: i16, limit: u16) -> u16
    ensures first { result ≡ 0 → unsigned_abs a ≤ limit }
    ensures second { result ≡ 0 → unsigned_abs b ≤ limit }
{
    let size = a.unsigned_abs().max(b.unsigned_abs());
    size.saturating_sub(limit)
}

/// Returns whether the first `count` coefficients of two blocks are seen to be at most as large as their limits. It has no
/// early end, and no booleans, so that vectors of 16 bits do it.
#[inline(always)]
fn are_within(a: &[i16; 64], b: &[i16; 64], limits: &[u16; 64], count: usize) -> bool
    requires { count ≤ 64 }
    ensures first { IsTrue result → (n : ℕ) → n < count → unsigned_abs (at a.now n) ≤ slice_index limits.now n }
    ensures second { IsTrue result → (n : ℕ) → n < count → unsigned_abs (at b.now n) ≤ slice_index limits.now n }
{
    let mut excess = 0;
    for n in 0..count {
        excess |= excess_of(a[n], b[n], limits[n]);
    }
    excess == 0
}

/// Returns whether the products of two blocks with quantisers are so small that they may be transformed in lanes.
#[inline(always)]
pub(crate) fn are_small(a: &Coefficients, b: &Coefficients, quantisers: &Quantisers) -> bool
    ensures first { IsTrue result → (n : ℕ) → n < 64 → IsWithin MAX_PRODUCT (product_at a.now quantisers.now n) }
    ensures second { IsTrue result → (n : ℕ) → n < 64 → IsWithin MAX_PRODUCT (product_at b.now quantisers.now n) }
{
    are_within(a.natural(), b.natural(), quantisers.limits(), 64)
}

/// Returns whether the products of two blocks that are zero in rows and columns 4 to 7 are so small: only rows 0 to 3 are
/// tested.
#[inline(always)]
pub(crate) fn are_low_small(a: &Coefficients, b: &Coefficients, quantisers: &Quantisers) -> bool
    requires low_a { IsLow (λ n. at a.now (zigzag_place n)) }
    requires low_b { IsLow (λ n. at b.now (zigzag_place n)) }
    ensures first { IsTrue result → (n : ℕ) → n < 64 → IsWithin MAX_PRODUCT (product_at a.now quantisers.now n) }
    ensures second { IsTrue result → (n : ℕ) → n < 64 → IsWithin MAX_PRODUCT (product_at b.now quantisers.now n) }
{
    are_within(a.natural(), b.natural(), quantisers.limits(), 32)
}
