//! Columns of bytes of two blocks transposed to rows, in lanes.

ghost use Rattle.std.specs.Prelude.{◌≡◌, ℕ, ◌+◌, ◌*◌, ◌/◌, ◌%◌, ◌<◌, [], ◌∷◌, ◌++◌, slice_index, slice_index_or};
ghost use Rattle.std.specs.Simd.Lanes.{pick_l};
ghost use Rattle.jr_idct.specs.Lanes.{bytes, fours};

use std::simd::prelude::*;

/// Eight columns or rows of bytes of each of two blocks, two a vector: both of the first block, then both of the second.
pub(crate) type Bytes = (u8x32, u8x32, u8x32, u8x32);

/// Interleaves the bytes of both halves of two vectors, one of each at a time.
#[inline(always)]
fn by_bytes(a: u8x32, b: u8x32, upper: bool) -> u8x32
    ensures { result ≡ pick_l 0 (a ++ b) (bytes upper) }
{
    if upper {
        return a.shuffle(
            b,
            [
                8, 40, 9, 41, 10, 42, 11, 43, 12, 44, 13, 45, 14, 46, 15, 47, 24, 56, 25, 57, 26,
                58, 27, 59, 28, 60, 29, 61, 30, 62, 31, 63,
            ],
        );
    }
    a.shuffle(
        b,
        [
            0, 32, 1, 33, 2, 34, 3, 35, 4, 36, 5, 37, 6, 38, 7, 39, 16, 48, 17, 49, 18, 50, 19, 51,
            20, 52, 21, 53, 22, 54, 23, 55,
        ],
    )
}

/// Interleaves both, four entries of each at a time.
#[inline(always)]
fn by_fours(a: u8x32, b: u8x32, upper: bool) -> u8x32
    ensures { result ≡ pick_l 0 (a ++ b) (fours upper) }
{
    if upper {
        return a.shuffle(
            b,
            [
                8, 9, 10, 11, 40, 41, 42, 43, 12, 13, 14, 15, 44, 45, 46, 47, 24, 25, 26, 27, 56,
                57, 58, 59, 28, 29, 30, 31, 60, 61, 62, 63,
            ],
        );
    }
    a.shuffle(
        b,
        [
            0, 1, 2, 3, 32, 33, 34, 35, 4, 5, 6, 7, 36, 37, 38, 39, 16, 17, 18, 19, 48, 49, 50, 51,
            20, 21, 22, 23, 52, 53, 54, 55,
        ],
    )
}

/// Returns rows 0 and 1, 2 and 3, 4 and 5, and 6 and 7 of columns 0 and 4, 1 and 5, 2 and 6, and 3 and 7.
#[inline(always)]
pub(crate) fn turned_bytes(x: Bytes) -> Bytes
    ensures { (m n : ℕ) → m < 4 → n < 32 → slice_index (slice_index_or (result.0 ∷ result.1 ∷ result.2 ∷ result.3 ∷ []) m []) n ≡ slice_index (slice_index_or (x.0 ∷ x.1 ∷ x.2 ∷ x.3 ∷ []) (n % 4) []) (16 * (n / 16) + 8 * (n % 8 / 4) + (2 * m + n % 16 / 8)) }
{
    let a0 = by_bytes(x.0, x.2, false);
    let a1 = by_bytes(x.0, x.2, true);
    let a2 = by_bytes(x.1, x.3, false);
    let a3 = by_bytes(x.1, x.3, true);
    let b0 = by_bytes(a0, a2, false);
    let b1 = by_bytes(a0, a2, true);
    let b2 = by_bytes(a1, a3, false);
    let b3 = by_bytes(a1, a3, true);
    let r0 = by_fours(b0, b2, false);
    let r1 = by_fours(b0, b2, true);
    let r2 = by_fours(b1, b3, false);
    let r3 = by_fours(b1, b3, true);
    (r0, r1, r2, r3)
}
