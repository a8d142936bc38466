//! The transform of two blocks side by side that are zero in rows and columns 4 to 7. Half of the terms of both passes
//! and half of the exchanges are zeros, and the compiler drops them.

ghost use Rattle.std.specs.Prelude.{◌≡◌, ℕ, ℤ, ◌+◌, ◌*◌, ◌/◌, ◌%◌, ◌<◌, ◌≤◌, pos, ◌+ℤ◌, slice_index, slice_index_or, [], ◌∷◌};
ghost use Rattle.std.proofs.Math.IntN.{◌*ℤ◌};
ghost use Rattle.jr_base.specs.declared.quantisers.TheConstants.{MAX_PRODUCT};
ghost use Rattle.jr_idct.specs.Lanes.{lane};
ghost use Rattle.jr_idct.specs.Matrix.{at, pass, IsWithin};
ghost use Rattle.jr_idct.specs.Transform.{column_pass, sample_of, IsLow};

use crate::number::{COLUMN_BITS, ROW_BITS};
use crate::pair::{COLUMN_CONSTANT, ROW_CONSTANT, byte_rows, gathered, rows_of, small_products};
use crate::pass::{Rows, entries};
use crate::turned::turned;
use crate::turned_bytes::Bytes;
use std::simd::prelude::*;

/// Makes both passes and the level shift by rows 0 to 3: column c of both blocks is row c of the result. The numbers in
/// rows and columns 4 to 7 are zeros, and so are the results of the first pass in columns 4 to 7.
#[inline(always)]
fn low_values(x0: i16x16, x1: i16x16, x2: i16x16, x3: i16x16) -> Rows
    requires small { (k p : ℕ) → k < 8 → p < 16 → IsWithin MAX_PRODUCT (lane (x0 ∷ x1 ∷ x2 ∷ x3 ∷ []) k p) }
    requires zeros { (k p : ℕ) → k < 8 → p < 16 → 4 ≤ p % 8 → lane (x0 ∷ x1 ∷ x2 ∷ x3 ∷ []) k p ≡ pos 0 }
    ensures first { (v : ℕ → ℤ) → ((j k : ℕ) → j < 8 → k < 8 → lane (x0 ∷ x1 ∷ x2 ∷ x3 ∷ []) j k ≡ v (8 * j + k)) → (r c : ℕ) → r < 8 → c < 8 → lane (result.0 ∷ result.1 ∷ result.2 ∷ result.3 ∷ result.4 ∷ result.5 ∷ result.6 ∷ result.7 ∷ []) c r ≡ pass 18 (λ k. column_pass v k r) c +ℤ pos 128 }
    ensures second { (v : ℕ → ℤ) → ((j k : ℕ) → j < 8 → k < 8 → lane (x0 ∷ x1 ∷ x2 ∷ x3 ∷ []) j (8 + k) ≡ v (8 * j + k)) → (r c : ℕ) → r < 8 → c < 8 → lane (result.0 ∷ result.1 ∷ result.2 ∷ result.3 ∷ result.4 ∷ result.5 ∷ result.6 ∷ result.7 ∷ []) c (8 + r) ≡ pass 18 (λ k. column_pass v k r) c +ℤ pos 128 }
{
    let zero = i16x16::splat(0);
    let x = (x0, x1, x2, x3, zero, zero, zero, zero);
    let columns = entries(x, COLUMN_CONSTANT, COLUMN_BITS);
    let rows = turned(columns);
    let y = (rows.0, rows.1, rows.2, rows.3, zero, zero, zero, zero);
    let sums = entries(y, ROW_CONSTANT, ROW_BITS);
    sums
}

/// Returns the samples of two blocks side by side by rows 0 to 3, two rows of each in a vector. It is not inlined: in its
/// callers the rows would be taken apart byte by byte.
#[inline(never)]
fn low_rows(x0: i16x16, x1: i16x16, x2: i16x16, x3: i16x16) -> Bytes
    requires small { (k p : ℕ) → k < 8 → p < 16 → IsWithin MAX_PRODUCT (lane (x0 ∷ x1 ∷ x2 ∷ x3 ∷ []) k p) }
    requires zeros { (k p : ℕ) → k < 8 → p < 16 → 4 ≤ p % 8 → lane (x0 ∷ x1 ∷ x2 ∷ x3 ∷ []) k p ≡ pos 0 }
    ensures first { (v : ℕ → ℤ) → ((j k : ℕ) → j < 8 → k < 8 → lane (x0 ∷ x1 ∷ x2 ∷ x3 ∷ []) j k ≡ v (8 * j + k)) → (r c : ℕ) → r < 8 → c < 8 → slice_index (slice_index_or (result.0 ∷ result.1 ∷ result.2 ∷ result.3 ∷ []) ((8 * r + c) / 16) []) ((8 * r + c) % 16) ≡ sample_of v r c }
    ensures second { (v : ℕ → ℤ) → ((j k : ℕ) → j < 8 → k < 8 → lane (x0 ∷ x1 ∷ x2 ∷ x3 ∷ []) j (8 + k) ≡ v (8 * j + k)) → (r c : ℕ) → r < 8 → c < 8 → slice_index (slice_index_or (result.0 ∷ result.1 ∷ result.2 ∷ result.3 ∷ []) ((8 * r + c) / 16) []) ((8 * r + c) % 16 + 16) ≡ sample_of v r c }
{
    let t = low_values(x0, x1, x2, x3);
    byte_rows(t)
}

/// Returns the samples of two blocks of one component that are zero in rows and columns 4 to 7, by their coefficients
/// and quantisers in natural order.
#[inline(always)]
pub(crate) fn low_samples(a: &[i16; 64], b: &[i16; 64], factors: &[u16; 64]) -> ([u8; 64], [u8; 64])
    requires small_a { (n : ℕ) → n < 64 → IsWithin MAX_PRODUCT (at a.now n *ℤ pos (slice_index factors.now n)) }
    requires small_b { (n : ℕ) → n < 64 → IsWithin MAX_PRODUCT (at b.now n *ℤ pos (slice_index factors.now n)) }
    requires low_a { IsLow (at a.now) }
    requires low_b { IsLow (at b.now) }
    ensures first { (r c : ℕ) → r < 8 → c < 8 → slice_index result.0 (8 * r + c) ≡ sample_of (λ n. at a.now n *ℤ pos (slice_index factors.now n)) r c }
    ensures second { (r c : ℕ) → r < 8 → c < 8 → slice_index result.1 (8 * r + c) ≡ sample_of (λ n. at b.now n *ℤ pos (slice_index factors.now n)) r c }
{
    let products_a = small_products(a, factors);
    let products_b = small_products(b, factors);
    let x = rows_of(&products_a, &products_b);
    let rows = low_rows(x.0, x.1, x.2, x.3);
    let first = gathered(rows.0, rows.1, rows.2, rows.3, false);
    let second = gathered(rows.0, rows.1, rows.2, rows.3, true);
    (first, second)
}
