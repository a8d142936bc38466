//! The transform of blocks.

ghost use Rattle.std.specs.Prelude.{◌≡◌, ℕ, ◌+◌, ◌*◌, ◌<◌, pos, slice_index};
ghost use Rattle.std.proofs.Math.IntN.{◌*ℤ◌};
ghost use Rattle.jr_base.specs.declared.quantisers.TheConstants.{MAX_PRODUCT};
ghost use Rattle.jr_idct.specs.Matrix.{at, IsWithin};
ghost use Rattle.jr_idct.specs.Transform.{product_at, sample, samples, zigzag_place, IsLow};

use crate::first_only::flat_block;
use crate::low::low_samples;
use crate::matrix::dequantised;
use crate::nonzero::{are_flat, are_low};
use crate::pair::pair_samples;
use crate::small::{are_low_small, are_small};
use crate::wide::wide_samples;
use jr_base::{Coefficients, Quantisers};
use std::simd::prelude::*;

/// Returns the 64 samples of a block: dequantised, put in natural order, transformed and shifted (T.81, A.3.1, A.3.3,
/// A.3.4 and A.3.6).
///
/// Coefficients and quantisers come in zigzag order; the samples are in natural order, at index `8 row + column`. Each
/// coefficient must be in -32768..=32768. A quantiser may be any number of 16 bits, 0 included. The samples are exactly
/// those of [`matrix_transform`](crate::matrix_transform).
pub fn transform(coefficients: &[i32; 64], quantisers: &[u16; 64]) -> [u8; 64]
    requires { (k : ℕ) → k < 64 → IsWithin 32768 (at coefficients.now k) }
    ensures by_place { (r c : ℕ) → r < 8 → c < 8 → slice_index result (8 * r + c) ≡ sample coefficients.now quantisers.now r c }
    ensures whole { result ≡ samples coefficients.now quantisers.now }
{
    wide_samples(&dequantised(coefficients, quantisers))
}

/// Returns the products of coefficients and quantisers, both in natural order.
fn products(natural: &[i16; 64], factors: &[u16; 64]) -> [i64; 64]
    ensures values { (n : ℕ) → n < 64 → at result n ≡ at natural.now n *ℤ pos (slice_index factors.now n) }
    ensures small { (n : ℕ) → n < 64 → IsWithin (32768 * 65535) (at result n) }
{
    let mut table = [0; 64];
    for n in 0..64 {
        table[n] = i64::from(natural[n]) * i64::from(factors[n]);
    }
    table
}

/// Returns the samples of a block of any size, at index `8 row + column`.
#[inline(never)]
#[cold]
fn any_block(block: &Coefficients, quantisers: &Quantisers) -> [u8; 64]
    ensures { result ≡ samples block.now quantisers.now }
{
    wide_samples(&products(block.natural(), quantisers.factors()))
}

/// Returns the samples of two such blocks: by one call, for which callers save no registers, and in vectors, since callers
/// would fill arrays with zeros before each pair.
#[inline(never)]
#[cold]
fn any_blocks(a: &Coefficients, b: &Coefficients, quantisers: &Quantisers) -> (u8x64, u8x64)
    ensures first { result.0 ≡ samples a.now quantisers.now }
    ensures second { result.1 ≡ samples b.now quantisers.now }
{
    let x = any_block(a, quantisers);
    let y = any_block(b, quantisers);
    (Simd::from_array(x), Simd::from_array(y))
}

/// Returns the samples of two blocks with small products, at index `8 row + column`.
#[inline(always)]
fn small_blocks(a: &Coefficients, b: &Coefficients, quantisers: &Quantisers) -> ([u8; 64], [u8; 64])
    requires small_a { (n : ℕ) → n < 64 → IsWithin MAX_PRODUCT (product_at a.now quantisers.now n) }
    requires small_b { (n : ℕ) → n < 64 → IsWithin MAX_PRODUCT (product_at b.now quantisers.now n) }
    ensures first { result.0 ≡ samples a.now quantisers.now }
    ensures second { result.1 ≡ samples b.now quantisers.now }
{
    pair_samples(a.natural(), b.natural(), quantisers.factors())
}

/// Returns the samples of two such blocks that are zero in rows and columns 4 to 7.
#[inline(always)]
fn low_blocks(a: &Coefficients, b: &Coefficients, quantisers: &Quantisers) -> ([u8; 64], [u8; 64])
    requires small_a { (n : ℕ) → n < 64 → IsWithin MAX_PRODUCT (product_at a.now quantisers.now n) }
    requires small_b { (n : ℕ) → n < 64 → IsWithin MAX_PRODUCT (product_at b.now quantisers.now n) }
    requires low_a { IsLow (λ n. at a.now (zigzag_place n)) }
    requires low_b { IsLow (λ n. at b.now (zigzag_place n)) }
    ensures first { result.0 ≡ samples a.now quantisers.now }
    ensures second { result.1 ≡ samples b.now quantisers.now }
{
    low_samples(a.natural(), b.natural(), quantisers.factors())
}

/// Returns the samples of a block, at index `8 row + column`: dequantised, transformed and shifted (T.81, A.3.1, A.3.3,
/// A.3.4 and A.3.6).
#[inline(never)]
pub fn transform_one(block: &Coefficients, quantisers: &Quantisers) -> [u8; 64]
    ensures { result ≡ samples block.now quantisers.now }
{
    if are_low(block, block) && are_flat(block, block) {
        return flat_block(block, quantisers);
    }
    if are_small(block, block, quantisers) {
        let (samples, _) = small_blocks(block, block, quantisers);
        return samples;
    }
    any_block(block, quantisers)
}

/// Returns the samples of two blocks of one component. Where it is called its results stay in registers, so that each
/// row of samples can be stored where it belongs.
#[inline(always)]
pub fn transform_two(
    a: &Coefficients,
    b: &Coefficients,
    quantisers: &Quantisers,
) -> ([u8; 64], [u8; 64])
    ensures first { result.0 ≡ samples a.now quantisers.now }
    ensures second { result.1 ≡ samples b.now quantisers.now }
{
    // two flat blocks are low, so that a pair that is not low needs no further test
    let low = are_low(a, b);
    if low && are_flat(a, b) {
        (flat_block(a, quantisers), flat_block(b, quantisers))
    } else if low && are_low_small(a, b, quantisers) {
        low_blocks(a, b, quantisers)
    } else if !low && are_small(a, b, quantisers) {
        small_blocks(a, b, quantisers)
    } else {
        let (x, y) = any_blocks(a, b, quantisers);
        (x.to_array(), y.to_array())
    }
}
