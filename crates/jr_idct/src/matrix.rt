//! The plain form of the transform: zigzag order undone through a table, and each pass by the whole matrix.

ghost use Rattle.std.specs.Prelude.{◌≡◌, ℕ, ◌+◌, ◌*◌, ◌^◌, ◌<◌, slice_index};
ghost use Rattle.std.proofs.Math.IntN.{◌*ℤ◌};
ghost use Rattle.jr_idct.specs.Matrix.{at, weight, row_sum, transposed, IsWithin};
ghost use Rattle.jr_idct.specs.Transform.{zigzag_place, product_at, sample, samples};

use crate::number::{COLUMN_BITS, Number, ROW_BITS, clamped, descaled};

/// The zigzag position of each natural index, `8 row + column`.
static PLACES: [u8; 64] = [
    0, 1, 5, 6, 14, 15, 27, 28, 2, 4, 7, 13, 16, 26, 29, 42, 3, 8, 12, 17, 25, 30, 41, 43, 9, 11,
    18, 24, 31, 40, 44, 53, 10, 19, 23, 32, 39, 45, 52, 54, 20, 22, 33, 38, 46, 51, 55, 60, 21, 34,
    37, 47, 50, 56, 59, 61, 35, 36, 48, 49, 57, 58, 62, 63,
];

/// Row i and column k: how much of number k is in entry i.
static MATRIX: [[i16; 8]; 8] = [
    [8192, 11363, 10703, 9633, 8192, 6437, 4433, 2260],
    [8192, 9633, 4433, -2259, -8192, -11362, -10704, -6436],
    [8192, 6437, -4433, -11362, -8192, 2261, 10704, 9633],
    [8192, 2260, -10703, -6436, 8192, 9633, -4433, -11363],
    [8192, -2260, -10703, 6436, 8192, -9633, -4433, 11363],
    [8192, -6437, -4433, 11362, -8192, -2261, 10704, -9633],
    [8192, -9633, 4433, 2259, -8192, 11362, -10704, 6436],
    [8192, -11363, 10703, -9633, 8192, -6437, 4433, -2260],
];

/// Returns the zigzag position of natural index n.
fn place_at(n: usize) -> usize
    requires { n < 64 }
    ensures value { result ≡ zigzag_place n }
    ensures below { result < 64 }
{
    PLACES[n] as usize
}

/// Returns the weight of number k in entry i.
fn weight_at(i: usize, k: usize) -> i16
    requires row { i < 8 }
    requires column { k < 8 }
    ensures value { result ≡ weight i k }
    ensures small { IsWithin (2 ^ 14) result }
{
    MATRIX[i][k]
}

/// Returns the products of a block in natural order, from coefficients and quantisers in zigzag order.
pub(crate) fn dequantised(coefficients: &[i32; 64], quantisers: &[u16; 64]) -> [i64; 64]
    ensures { (n : ℕ) → n < 64 → at result n ≡ product_at coefficients.now quantisers.now n }
{
    let mut table = [0; 64];
    for n in 0..64 {
        let place = place_at(n);
        table[n] = i64::from(coefficients[place]) * i64::from(quantisers[place]);
    }
    table
}

/// Returns entry i of the pass over column c, before descaling.
fn plain_sum(table: &[i64; 64], c: usize, i: usize) -> i64
    requires column { c < 8 }
    requires row { i < 8 }
    requires small { (k : ℕ) → k < 64 → IsWithin (2 ^ 40) (at table.now k) }
    ensures { result ≡ row_sum i (λ k. at table.now (8 * k + c)) }
{
    let mut sum: i64 = 0;
    for k in 0..8 {
        sum = sum.plus(table[8 * k + c].times(weight_at(i, k)));
    }
    sum
}

/// Makes the pass over each column; the results are the rows of what it returns.
fn plain_passes(table: &[i64; 64], bits: u32) -> [i64; 64]
    requires positive { 0 < bits }
    requires few { bits < 19 }
    requires small { (k : ℕ) → k < 64 → IsWithin (2 ^ 40) (at table.now k) }
    ensures { (k : ℕ) → k < 64 → at result k ≡ transposed bits table.now k }
{
    let mut rows = [0; 64];
    for n in 0..64 {
        rows[n] = descaled(plain_sum(table, n / 8, n % 8), bits);
    }
    rows
}

/// Returns the samples of [`transform`](crate::transform), by the matrix as it is, in 64 bits: slow, and plain enough
/// to be compared with.
///
/// Shapes, order and conditions are those of `transform`.
#[inline(never)]
#[cold]
pub fn matrix_transform(coefficients: &[i32; 64], quantisers: &[u16; 64]) -> [u8; 64]
    requires { (k : ℕ) → k < 64 → IsWithin 32768 (at coefficients.now k) }
    ensures by_place { (r c : ℕ) → r < 8 → c < 8 → slice_index result (8 * r + c) ≡ sample coefficients.now quantisers.now r c }
    ensures whole { result ≡ samples coefficients.now quantisers.now }
{
    let columns = plain_passes(&dequantised(coefficients, quantisers), COLUMN_BITS);
    let values = plain_passes(&columns, ROW_BITS);
    let mut samples = [0; 64];
    for k in 0..64 {
        samples[k] = clamped(values[k]);
    }
    samples
}
