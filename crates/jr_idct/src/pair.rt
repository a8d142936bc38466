//! The transform of two blocks side by side, in lanes of 16 bits, for blocks with small products, which are nearly all.

ghost use Rattle.std.specs.Prelude.{◌≡◌, ℕ, ℤ, ◌+◌, ◌*◌, ◌/◌, ◌%◌, ◌<◌, pos, ◌+ℤ◌, slice_index, slice_index_or, cond, [], ◌∷◌};
ghost use Rattle.std.proofs.Math.IntN.{◌*ℤ◌};
ghost use Rattle.jr_base.specs.declared.quantisers.TheConstants.{MAX_PRODUCT};
ghost use Rattle.jr_idct.specs.Lanes.{lane};
ghost use Rattle.jr_idct.specs.Matrix.{at, pass, IsWithin};
ghost use Rattle.jr_idct.specs.Transform.{byte_of, column_pass, sample_of};

use crate::number::{COLUMN_BITS, ROW_BITS};
use crate::pass::{Rows, entries};
use crate::turned::turned;
use crate::turned_bytes::{Bytes, turned_bytes};
use std::simd::prelude::*;

/// Returns the product of a coefficient and its quantiser.
#[inline(always)]
fn product(coefficient: i16, factor: u16) -> i16
    requires { IsWithin MAX_PRODUCT (coefficient *ℤ pos factor) }
    ensures { result ≡ coefficient *ℤ pos factor }
{
    (i32::from(coefficient) * i32::from(factor)) as i16
}

/// Dequantisation (T.81, A.3.4) of a block in natural order.
#[inline(always)]
pub(crate) fn small_products(block: &[i16; 64], factors: &[u16; 64]) -> [i16; 64]
    requires { (n : ℕ) → n < 64 → IsWithin MAX_PRODUCT (at block.now n *ℤ pos (slice_index factors.now n)) }
    ensures { (n : ℕ) → n < 64 → at result n ≡ at block.now n *ℤ pos (slice_index factors.now n) }
{
    let mut table = [0; 64];
    for n in 0..64 {
        table[n] = product(block[n], factors[n]);
    }
    table
}

/// Returns row r of a block.
#[inline(always)]
fn load(block: &[i16; 64], r: usize) -> i16x8
    requires row { r < 8 }
    requires small { (n : ℕ) → n < 64 → IsWithin MAX_PRODUCT (at block.now n) }
    ensures { (c : ℕ) → c < 8 → at result c ≡ at block.now (8 * r + c) }
{
    i16x8::from_slice(&block[8 * r..])
}

/// Returns row r of both blocks.
#[inline(always)]
fn row(a: &[i16; 64], b: &[i16; 64], r: usize) -> i16x16
    requires row { r < 8 }
    requires small_a { (n : ℕ) → n < 64 → IsWithin MAX_PRODUCT (at a.now n) }
    requires small_b { (n : ℕ) → n < 64 → IsWithin MAX_PRODUCT (at b.now n) }
    ensures first { (c : ℕ) → c < 8 → at result c ≡ at a.now (8 * r + c) }
    ensures second { (c : ℕ) → c < 8 → at result (8 + c) ≡ at b.now (8 * r + c) }
{
    let first = load(a, r);
    let second = load(b, r);
    first.shuffle(
        second,
        [0, 1, 2, 3, 4, 5, 6, 7, 8, 9, 10, 11, 12, 13, 14, 15],
    )
}

/// Returns the nearest bytes to two columns of both blocks: those of the first block, then those of the second. They
/// are put in this order once they are bytes, so that no lane leaves its half of the registers.
#[inline(always)]
fn two_columns(first: i16x16, second: i16x16) -> u8x32
    ensures { (q : ℕ) → q < 32 → slice_index result q ≡ byte_of (lane (first ∷ second ∷ []) (q / 8 % 2) (8 * (q / 16) + q % 8)) }
{
    let both: Simd<i16, 32> = first.shuffle(
        second,
        [
            0, 1, 2, 3, 4, 5, 6, 7, 8, 9, 10, 11, 12, 13, 14, 15, 16, 17, 18, 19, 20, 21, 22, 23,
            24, 25, 26, 27, 28, 29, 30, 31,
        ],
    );
    let bytes = both
        .simd_max(Simd::splat(0))
        .simd_min(Simd::splat(255))
        .cast::<u8>();
    bytes.swizzle([
        0, 1, 2, 3, 4, 5, 6, 7, 16, 17, 18, 19, 20, 21, 22, 23, 8, 9, 10, 11, 12, 13, 14, 15, 24,
        25, 26, 27, 28, 29, 30, 31,
    ])
}

/// Returns the first or the second halves of two vectors.
#[inline(always)]
fn halves(a: u8x32, b: u8x32, second: bool) -> u8x32
    ensures { (k : ℕ) → k < 32 → slice_index result k ≡ slice_index (slice_index_or (a ∷ b ∷ []) (k / 16) []) (k % 16 + cond second 16 0) }
{
    if second {
        return a.shuffle(
            b,
            [
                16, 17, 18, 19, 20, 21, 22, 23, 24, 25, 26, 27, 28, 29, 30, 31, 48, 49, 50, 51, 52,
                53, 54, 55, 56, 57, 58, 59, 60, 61, 62, 63,
            ],
        );
    }
    a.shuffle(
        b,
        [
            0, 1, 2, 3, 4, 5, 6, 7, 8, 9, 10, 11, 12, 13, 14, 15, 32, 33, 34, 35, 36, 37, 38, 39,
            40, 41, 42, 43, 44, 45, 46, 47,
        ],
    )
}

/// Returns the samples of a block of four times two rows of both: of the first, or of the second.
#[inline(always)]
pub(crate) fn gathered(q0: u8x32, q1: u8x32, q2: u8x32, q3: u8x32, second: bool) -> [u8; 64]
    ensures { (k : ℕ) → k < 64 → slice_index result k ≡ slice_index (slice_index_or (q0 ∷ q1 ∷ q2 ∷ q3 ∷ []) (k / 16) []) (k % 16 + cond second 16 0) }
{
    let upper = halves(q0, q1, second);
    let lower = halves(q2, q3, second);
    let all: u8x64 = upper.shuffle(
        lower,
        [
            0, 1, 2, 3, 4, 5, 6, 7, 8, 9, 10, 11, 12, 13, 14, 15, 16, 17, 18, 19, 20, 21, 22, 23,
            24, 25, 26, 27, 28, 29, 30, 31, 32, 33, 34, 35, 36, 37, 38, 39, 40, 41, 42, 43, 44, 45,
            46, 47, 48, 49, 50, 51, 52, 53, 54, 55, 56, 57, 58, 59, 60, 61, 62, 63,
        ],
    );
    all.to_array()
}

/// Returns the rows of two blocks side by side.
#[inline(always)]
pub(crate) fn rows_of(a: &[i16; 64], b: &[i16; 64]) -> Rows
    requires small_a { (n : ℕ) → n < 64 → IsWithin MAX_PRODUCT (at a.now n) }
    requires small_b { (n : ℕ) → n < 64 → IsWithin MAX_PRODUCT (at b.now n) }
    ensures first { (r c : ℕ) → r < 8 → c < 8 → lane (result.0 ∷ result.1 ∷ result.2 ∷ result.3 ∷ result.4 ∷ result.5 ∷ result.6 ∷ result.7 ∷ []) r c ≡ at a.now (8 * r + c) }
    ensures second { (r c : ℕ) → r < 8 → c < 8 → lane (result.0 ∷ result.1 ∷ result.2 ∷ result.3 ∷ result.4 ∷ result.5 ∷ result.6 ∷ result.7 ∷ []) r (8 + c) ≡ at b.now (8 * r + c) }
{
    let x0 = row(a, b, 0);
    let x1 = row(a, b, 1);
    let x2 = row(a, b, 2);
    let x3 = row(a, b, 3);
    let x4 = row(a, b, 4);
    let x5 = row(a, b, 5);
    let x6 = row(a, b, 6);
    let x7 = row(a, b, 7);
    (x0, x1, x2, x3, x4, x5, x6, x7)
}

/// Added before the first pass drops its bits: a half.
pub(crate) const COLUMN_CONSTANT: i32 = 1024;

/// Added before the second pass drops its bits: a half, and the level shift of 128 (T.81, A.3.1).
pub(crate) const ROW_CONSTANT: i32 = 33_685_504;

/// Makes both passes and the level shift: column c of both blocks is row c of the result.
#[inline(always)]
fn values(x: Rows) -> Rows
    requires { (k p : ℕ) → k < 8 → p < 16 → IsWithin MAX_PRODUCT (lane (x.0 ∷ x.1 ∷ x.2 ∷ x.3 ∷ x.4 ∷ x.5 ∷ x.6 ∷ x.7 ∷ []) k p) }
    ensures first { (v : ℕ → ℤ) → ((j k : ℕ) → j < 8 → k < 8 → lane (x.0 ∷ x.1 ∷ x.2 ∷ x.3 ∷ x.4 ∷ x.5 ∷ x.6 ∷ x.7 ∷ []) j k ≡ v (8 * j + k)) → (r c : ℕ) → r < 8 → c < 8 → lane (result.0 ∷ result.1 ∷ result.2 ∷ result.3 ∷ result.4 ∷ result.5 ∷ result.6 ∷ result.7 ∷ []) c r ≡ pass 18 (λ k. column_pass v k r) c +ℤ pos 128 }
    ensures second { (v : ℕ → ℤ) → ((j k : ℕ) → j < 8 → k < 8 → lane (x.0 ∷ x.1 ∷ x.2 ∷ x.3 ∷ x.4 ∷ x.5 ∷ x.6 ∷ x.7 ∷ []) j (8 + k) ≡ v (8 * j + k)) → (r c : ℕ) → r < 8 → c < 8 → lane (result.0 ∷ result.1 ∷ result.2 ∷ result.3 ∷ result.4 ∷ result.5 ∷ result.6 ∷ result.7 ∷ []) c (8 + r) ≡ pass 18 (λ k. column_pass v k r) c +ℤ pos 128 }
{
    let columns = entries(x, COLUMN_CONSTANT, COLUMN_BITS);
    let rows = turned(columns);
    let sums = entries(rows, ROW_CONSTANT, ROW_BITS);
    sums
}

/// Returns the nearest bytes to the columns of both blocks, row by row. They are made bytes first, of which half as
/// many vectors are turned.
#[inline(always)]
pub(crate) fn byte_rows(t: Rows) -> Bytes
    ensures first { (r c : ℕ) → r < 8 → c < 8 → slice_index (slice_index_or (result.0 ∷ result.1 ∷ result.2 ∷ result.3 ∷ []) ((8 * r + c) / 16) []) ((8 * r + c) % 16) ≡ byte_of (lane (t.0 ∷ t.1 ∷ t.2 ∷ t.3 ∷ t.4 ∷ t.5 ∷ t.6 ∷ t.7 ∷ []) c r) }
    ensures second { (r c : ℕ) → r < 8 → c < 8 → slice_index (slice_index_or (result.0 ∷ result.1 ∷ result.2 ∷ result.3 ∷ []) ((8 * r + c) / 16) []) ((8 * r + c) % 16 + 16) ≡ byte_of (lane (t.0 ∷ t.1 ∷ t.2 ∷ t.3 ∷ t.4 ∷ t.5 ∷ t.6 ∷ t.7 ∷ []) c (8 + r)) }
{
    let c0 = two_columns(t.0, t.4);
    let c1 = two_columns(t.1, t.5);
    let c2 = two_columns(t.2, t.6);
    let c3 = two_columns(t.3, t.7);
    turned_bytes((c0, c1, c2, c3))
}

/// Returns the samples of two blocks side by side, two rows of each in a vector. It is not inlined: in its callers the rows
/// would be taken apart byte by byte. In eight arguments the rows stay in registers.
#[inline(never)]
fn sample_rows(
    x0: i16x16,
    x1: i16x16,
    x2: i16x16,
    x3: i16x16,
    x4: i16x16,
    x5: i16x16,
    x6: i16x16,
    x7: i16x16,
) -> Bytes
    requires { (k p : ℕ) → k < 8 → p < 16 → IsWithin MAX_PRODUCT (lane (x0 ∷ x1 ∷ x2 ∷ x3 ∷ x4 ∷ x5 ∷ x6 ∷ x7 ∷ []) k p) }
    ensures first { (v : ℕ → ℤ) → ((j k : ℕ) → j < 8 → k < 8 → lane (x0 ∷ x1 ∷ x2 ∷ x3 ∷ x4 ∷ x5 ∷ x6 ∷ x7 ∷ []) j k ≡ v (8 * j + k)) → (r c : ℕ) → r < 8 → c < 8 → slice_index (slice_index_or (result.0 ∷ result.1 ∷ result.2 ∷ result.3 ∷ []) ((8 * r + c) / 16) []) ((8 * r + c) % 16) ≡ sample_of v r c }
    ensures second { (v : ℕ → ℤ) → ((j k : ℕ) → j < 8 → k < 8 → lane (x0 ∷ x1 ∷ x2 ∷ x3 ∷ x4 ∷ x5 ∷ x6 ∷ x7 ∷ []) j (8 + k) ≡ v (8 * j + k)) → (r c : ℕ) → r < 8 → c < 8 → slice_index (slice_index_or (result.0 ∷ result.1 ∷ result.2 ∷ result.3 ∷ []) ((8 * r + c) / 16) []) ((8 * r + c) % 16 + 16) ≡ sample_of v r c }
{
    let t = values((x0, x1, x2, x3, x4, x5, x6, x7));
    byte_rows(t)
}

/// Returns the samples of two blocks of one component, by their coefficients and quantisers in natural order.
#[inline(always)]
pub(crate) fn pair_samples(
    a: &[i16; 64],
    b: &[i16; 64],
    factors: &[u16; 64],
) -> ([u8; 64], [u8; 64])
    requires small_a { (n : ℕ) → n < 64 → IsWithin MAX_PRODUCT (at a.now n *ℤ pos (slice_index factors.now n)) }
    requires small_b { (n : ℕ) → n < 64 → IsWithin MAX_PRODUCT (at b.now n *ℤ pos (slice_index factors.now n)) }
    ensures first { (r c : ℕ) → r < 8 → c < 8 → slice_index result.0 (8 * r + c) ≡ sample_of (λ n. at a.now n *ℤ pos (slice_index factors.now n)) r c }
    ensures second { (r c : ℕ) → r < 8 → c < 8 → slice_index result.1 (8 * r + c) ≡ sample_of (λ n. at b.now n *ℤ pos (slice_index factors.now n)) r c }
{
    let products_a = small_products(a, factors);
    let products_b = small_products(b, factors);
    let x = rows_of(&products_a, &products_b);
    let rows = sample_rows(x.0, x.1, x.2, x.3, x.4, x.5, x.6, x.7);
    let first = gathered(rows.0, rows.1, rows.2, rows.3, false);
    let second = gathered(rows.0, rows.1, rows.2, rows.3, true);
    (first, second)
}
