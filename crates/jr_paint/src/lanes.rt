//! 32 pixels at once, in lanes of sixteen bits: those with even numbers in one vector, those with odd ones in another. A
//! lane stays in its half of the registers, so that halves of 128 bits cost nothing.
//!
//! Twice a sample and an offset are multiplied, and each product keeps its upper half only. The offsets and the
//! factors make the half that is dropped round as the definition does, for each of the samples, and bring red, green
//! and blue out alike as 1628 more than they have over luminance: so the 1628 are subtracted from luminance, and once.

ghost use Rattle.std.specs.Prelude.{◌≡◌, ℕ, ◌+◌, ◌*◌, ◌/◌, ◌%◌, ◌<◌, ◌≤◌, length, slice_index, slice_index_or, pos, ◌+ℤ◌, [], ◌∷◌};
ghost use Rattle.std.specs.Simd.Lanes.{put_chunk};
ghost use Rattle.jr_paint.specs.Lines.{colours_over};
ghost use Rattle.jr_paint.specs.Shades.{red_over_of, green_over_of, blue_over_of, IsRaised, lowered};

use crate::stores::store;
use std::simd::prelude::*;

/// Loads the sixteen bytes starting at index i.
#[inline(always)]
pub(crate) fn load(bytes: &[u8], i: usize) -> u16x16
    requires { i + 16 ≤ length bytes.now }
    ensures values { (k : ℕ) → k < 16 → slice_index result k ≡ slice_index bytes.now (i + k) }
    ensures small { (k : ℕ) → k < 16 → slice_index result k < 256 }
{
    u8x16::from_slice(&bytes[i..]).cast::<u16>()
}

/// Loads the 32 bytes starting at index i: those at even distances from it, and the others.
#[inline(always)]
pub(crate) fn load_by_turns(bytes: &[u8], i: usize) -> (u16x16, u16x16)
    requires { i + 32 ≤ length bytes.now }
    ensures even { (k : ℕ) → k < 16 → slice_index result.0 k ≡ slice_index bytes.now (i + 2 * k) }
    ensures odd { (k : ℕ) → k < 16 → slice_index result.1 k ≡ slice_index bytes.now (i + (2 * k + 1)) }
    ensures small_even { (k : ℕ) → k < 16 → slice_index result.0 k < 256 }
    ensures small_odd { (k : ℕ) → k < 16 → slice_index result.1 k < 256 }
{
    let words = u16x16::from_le_bytes(u8x32::from_slice(&bytes[i..]));
    (words & Simd::splat(255), words >> Simd::splat(8))
}

/// Returns what red has over luminance, raised. 45943 is about 65536 times 1.402 over 2.
#[inline(always)]
pub(crate) fn raised_red(cr: u16x16) -> u16x16
    requires { (k : ℕ) → k < 16 → slice_index cr k < 256 }
    ensures { (k : ℕ) → k < 16 → IsRaised (slice_index result k) (red_over_of (slice_index cr k)) }
{
    let product = (cr + cr + Simd::splat(2067)).cast::<u32>() * Simd::splat(45_943);
    (product >> Simd::splat(16)).cast::<u16>()
}

/// Returns what blue has over luminance, raised. 58066 is about 65536 times 1.772 over 2.
#[inline(always)]
pub(crate) fn raised_blue(cb: u16x16) -> u16x16
    requires { (k : ℕ) → k < 16 → slice_index cb k < 256 }
    ensures { (k : ℕ) → k < 16 → IsRaised (slice_index result k) (blue_over_of (slice_index cb k)) }
{
    let product = (cb + cb + Simd::splat(1582)).cast::<u32>() * Simd::splat(58_066);
    (product >> Simd::splat(16)).cast::<u16>()
}

/// 2^32 less 11277 and less 23401, about 65536 times 0.34414 and 0.71414 over 2, alternating.
const GREEN_FACTORS: [u32; 16] = [
    4_294_956_019,
    4_294_943_895,
    4_294_956_019,
    4_294_943_895,
    4_294_956_019,
    4_294_943_895,
    4_294_956_019,
    4_294_943_895,
    4_294_956_019,
    4_294_943_895,
    4_294_956_019,
    4_294_943_895,
    4_294_956_019,
    4_294_943_895,
    4_294_956_019,
    4_294_943_895,
];

/// Returns what green has over luminance, raised, by twice the interleaved samples of both chrominances. The sum wraps;
/// what is added makes up for the middles, and is 65536 times 1628.5 more.
#[inline(always)]
fn green_of_pairs(pairs: u16x16) -> u16x8
    ensures { (j b r : ℕ) → j < 8 → b < 256 → r < 256 → slice_index pairs (2 * j) ≡ b + b → slice_index pairs (2 * j + 1) ≡ r + r → IsRaised (slice_index result j) (green_over_of b r) }
{
    let products = pairs.cast::<u32>() * Simd::from_array(GREEN_FACTORS);
    let first: u32x8 = products.swizzle([0, 2, 4, 6, 8, 10, 12, 14]);
    let second: u32x8 = products.swizzle([1, 3, 5, 7, 9, 11, 13, 15]);
    ((first + second + Simd::splat(115_602_944)) >> Simd::splat(16)).cast::<u16>()
}

/// Returns what green has over luminance, raised.
#[inline(always)]
pub(crate) fn raised_green(cb: u16x16, cr: u16x16) -> u16x16
    requires second { (k : ℕ) → k < 16 → slice_index cb k < 256 }
    requires third { (k : ℕ) → k < 16 → slice_index cr k < 256 }
    ensures { (k : ℕ) → k < 16 → IsRaised (slice_index result k) (green_over_of (slice_index cb k) (slice_index cr k)) }
{
    let b = cb + cb;
    let r = cr + cr;
    let lower = green_of_pairs(b.shuffle(
        r,
        [0, 16, 1, 17, 2, 18, 3, 19, 8, 24, 9, 25, 10, 26, 11, 27],
    ));
    let upper = green_of_pairs(b.shuffle(
        r,
        [4, 20, 5, 21, 6, 22, 7, 23, 12, 28, 13, 29, 14, 30, 15, 31],
    ));
    lower.shuffle(
        upper,
        [0, 1, 2, 3, 8, 9, 10, 11, 4, 5, 6, 7, 12, 13, 14, 15],
    )
}

/// Returns the nearest bytes to luminance y and what is over it, which is raised, of interleaved pixels: each half of
/// the bytes holds eight with even numbers, then eight with odd ones.
#[inline(always)]
fn lit(even: u16x16, odd: u16x16, even_over: u16x16, odd_over: u16x16) -> u8x32
    requires small_even { (k : ℕ) → k < 16 → slice_index even k < 256 }
    requires small_odd { (k : ℕ) → k < 16 → slice_index odd k < 256 }
    requires even { (k : ℕ) → k < 16 → slice_index even_over k < 4096 }
    requires odd { (k : ℕ) → k < 16 → slice_index odd_over k < 4096 }
    ensures { (q : ℕ) → q < 32 → slice_index result q ≡ lowered (slice_index (slice_index_or (even ∷ odd ∷ []) (q / 8 % 2) []) (8 * (q / 16) + q % 8)) (slice_index (slice_index_or (even_over ∷ odd_over ∷ []) (q / 8 % 2) []) (8 * (q / 16) + q % 8)) }
{
    let first = even.cast::<i16>() - Simd::splat(1628) + even_over.cast::<i16>();
    let second = odd.cast::<i16>() - Simd::splat(1628) + odd_over.cast::<i16>();
    let sum: Simd<i16, 32> = first.shuffle(
        second,
        [
            0, 1, 2, 3, 4, 5, 6, 7, 16, 17, 18, 19, 20, 21, 22, 23, 8, 9, 10, 11, 12, 13, 14, 15,
            24, 25, 26, 27, 28, 29, 30, 31,
        ],
    );
    sum.simd_max(Simd::splat(0))
        .simd_min(Simd::splat(255))
        .cast::<u8>()
}

/// Paints 32 pixels starting at index i, by what the colours have over luminance, raised, of interleaved pixels.
#[inline(always)]
pub(crate) fn paint(
    luma: &[u8],
    i: usize,
    red: (u16x16, u16x16),
    green: (u16x16, u16x16),
    blue: (u16x16, u16x16),
    out: &mut [u8],
)
    requires even_red { (k : ℕ) → k < 16 → slice_index red.0 k < 4096 }
    requires odd_red { (k : ℕ) → k < 16 → slice_index red.1 k < 4096 }
    requires even_green { (k : ℕ) → k < 16 → slice_index green.0 k < 4096 }
    requires odd_green { (k : ℕ) → k < 16 → slice_index green.1 k < 4096 }
    requires even_blue { (k : ℕ) → k < 16 → slice_index blue.0 k < 4096 }
    requires odd_blue { (k : ℕ) → k < 16 → slice_index blue.1 k < 4096 }
    requires across { i + 32 ≤ length luma.now }
    requires space { 3 * i + 96 ≤ length out.old }
    ensures { out.new ≡ put_chunk (3 * i) out.old (colours_over luma.now i (red.0 ∷ red.1 ∷ []) (green.0 ∷ green.1 ∷ []) (blue.0 ∷ blue.1 ∷ []) 32) }
{
    let y = load_by_turns(luma, i);
    let red = lit(y.0, y.1, red.0, red.1);
    let green = lit(y.0, y.1, green.0, green.1);
    let blue = lit(y.0, y.1, blue.0, blue.1);
    store(red, green, blue, out, 3 * i);
}
