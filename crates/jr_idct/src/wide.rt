//! The transform in 64 bits, by butterflies: for any products of coefficients and quantisers.

ghost use Rattle.std.specs.Prelude.{◌≡◌, ℕ, ◌+◌, ◌*◌, ◌^◌, ◌<◌, pos, ◌+ℤ◌, ◌-ℤ◌, slice_index};
ghost use Rattle.jr_idct.specs.Matrix.{at, descale, wide_reach, row_weight, transposed, IsWithin};
ghost use Rattle.jr_idct.specs.Transform.{byte_of, sample_of};

use crate::butterfly::{even_part, odd_part};
use crate::number::{COLUMN_BITS, ROW_BITS, clamped, descaled};

/// Returns the sum and the difference of the two halves, each descaled.
#[inline]
fn both_descaled(even: i64, odd: i64, bits: u32) -> (i64, i64)
    requires positive { 0 < bits }
    requires few { bits < 19 }
    requires small_sum { IsWithin (row_weight * wide_reach) (even +ℤ odd) }
    requires small_difference { IsWithin (row_weight * wide_reach) (even -ℤ odd) }
    ensures sum { result.0 ≡ descale bits (even +ℤ odd) }
    ensures difference { result.1 ≡ descale bits (even -ℤ odd) }
{
    let sum = descaled(even + odd, bits);
    let difference = descaled(even - odd, bits);
    (sum, difference)
}

/// Makes the pass over column c of a table.
#[inline(always)]
fn column_pass(table: &[i64; 64], c: usize, bits: u32) -> [i64; 8]
    requires column { c < 8 }
    requires positive { 0 < bits }
    requires few { bits < 19 }
    requires small { (k : ℕ) → k < 64 → IsWithin wide_reach (at table.now k) }
    ensures { (r : ℕ) → r < 8 → at result r ≡ transposed bits table.now (8 * c + r) }
{
    let (e0, e1, e2, e3) = even_part(table[c], table[c + 16], table[c + 32], table[c + 48]);
    let (o0, o1, o2, o3) = odd_part(table[c + 8], table[c + 24], table[c + 40], table[c + 56]);
    let (y0, y7) = both_descaled(e0, o0, bits);
    let (y1, y6) = both_descaled(e1, o1, bits);
    let (y2, y5) = both_descaled(e2, o2, bits);
    let (y3, y4) = both_descaled(e3, o3, bits);
    [y0, y1, y2, y3, y4, y5, y6, y7]
}

/// Makes the first pass over each column; the results are the rows of what it returns. No step depends on what a column
/// holds, so that several are done at once, by vectors.
#[inline]
fn first_passes(table: &[i64; 64]) -> [i64; 64]
    requires { (k : ℕ) → k < 64 → IsWithin wide_reach (at table.now k) }
    ensures { (k : ℕ) → k < 64 → at result k ≡ transposed COLUMN_BITS table.now k }
{
    let mut rows = [0; 64];
    for c in 0..8 {
        let row = column_pass(table, c, COLUMN_BITS);
        for r in 0..8 {
            rows[8 * c + r] = row[r];
        }
    }
    rows
}

/// Makes the second pass over each column of the first one's result; its results, clamped at once, are the rows of what
/// it returns. Clamped in a loop of their own they would be stored one by one and read back by vectors.
#[inline]
fn sample_rows(columns: &[i64; 64]) -> [u8; 64]
    requires { (k : ℕ) → k < 64 → IsWithin wide_reach (at columns.now k) }
    ensures { (k : ℕ) → k < 64 → slice_index result k ≡ byte_of (transposed ROW_BITS columns.now k +ℤ pos 128) }
{
    let mut rows = [0; 64];
    for c in 0..8 {
        let row = column_pass(columns, c, ROW_BITS);
        for r in 0..8 {
            rows[8 * c + r] = clamped(row[r]);
        }
    }
    rows
}

/// Returns the samples of a table of products in natural order.
#[inline]
pub(crate) fn wide_samples(table: &[i64; 64]) -> [u8; 64]
    requires { (k : ℕ) → k < 64 → IsWithin (2 ^ 31) (at table.now k) }
    ensures { (r c : ℕ) → r < 8 → c < 8 → slice_index result (8 * r + c) ≡ sample_of (at table.now) r c }
{
    sample_rows(&first_passes(table))
}
