//! 32 pixels of three bytes combined from their colours and stored. Each third position of a half of 16 bytes is
//! red's, the one after it green's, then blue's; where a half begins, another of the three is first.

ghost use Rattle.std.specs.Prelude.{◌≡◌, ◌+◌, ◌*◌, ◌/◌, ◌%◌, ◌≤◌, length, slice_index, slice_index_or, [], ◌∷◌, map};
ghost use Rattle.std.specs.List.{range_with_len};
ghost use Rattle.std.specs.Simd.Lanes.{put_chunk};
ghost use Rattle.jr_paint.specs.Lines.{interleaving_of, spread};

use std::simd::prelude::*;

/// Interleaves the bytes of each third position of three vectors, starting with the first.
#[inline(always)]
fn by_thirds(a: u8x32, b: u8x32, c: u8x32) -> u8x32
    ensures { result ≡ map (λ q. slice_index (slice_index_or (a ∷ b ∷ c ∷ []) (q % 16 % 3) []) q) (range_with_len 0 32) }
{
    let two: u8x32 = a.shuffle(
        b,
        [
            0, 33, 2, 3, 36, 5, 6, 39, 8, 9, 42, 11, 12, 45, 14, 15, 16, 49, 18, 19, 52, 21, 22,
            55, 24, 25, 58, 27, 28, 61, 30, 31,
        ],
    );
    two.shuffle(
        c,
        [
            0, 1, 34, 3, 4, 37, 6, 7, 40, 9, 10, 43, 12, 13, 46, 15, 16, 17, 50, 19, 20, 53, 22,
            23, 56, 25, 26, 59, 28, 29, 62, 31,
        ],
    )
}

/// Bytes of red, green and blue where they belong in a half of what is stored: pixel k of 16 at 3 k, 3 k + 1 and 3 k + 2, less
/// 16 or 32 if these are too many.
#[inline(always)]
fn placed(red: u8x32, green: u8x32, blue: u8x32) -> (u8x32, u8x32, u8x32)
    ensures red { result.0 ≡ map (λ q. slice_index red (spread 0 q)) (range_with_len 0 32) }
    ensures green { result.1 ≡ map (λ q. slice_index green (spread 1 q)) (range_with_len 0 32) }
    ensures blue { result.2 ≡ map (λ q. slice_index blue (spread 2 q)) (range_with_len 0 32) }
{
    let red: u8x32 = red.swizzle([
        0, 13, 3, 8, 6, 11, 1, 14, 4, 9, 7, 12, 2, 15, 5, 10, 16, 29, 19, 24, 22, 27, 17, 30, 20,
        25, 23, 28, 18, 31, 21, 26,
    ]);
    let green: u8x32 = green.swizzle([
        10, 0, 13, 3, 8, 6, 11, 1, 14, 4, 9, 7, 12, 2, 15, 5, 26, 16, 29, 19, 24, 22, 27, 17, 30,
        20, 25, 23, 28, 18, 31, 21,
    ]);
    let blue: u8x32 = blue.swizzle([
        5, 10, 0, 13, 3, 8, 6, 11, 1, 14, 4, 9, 7, 12, 2, 15, 21, 26, 16, 29, 19, 24, 22, 27, 17,
        30, 20, 25, 23, 28, 18, 31,
    ]);
    (red, green, blue)
}

/// Stores 32 pixels of three bytes starting at byte i, from interleaved halves.
#[inline(always)]
pub(crate) fn store(red: u8x32, green: u8x32, blue: u8x32, out: &mut [u8], i: usize)
    requires { i + 96 ≤ length out.old }
    ensures { out.new ≡ put_chunk i out.old (interleaving_of red green blue 32) }
{
    let (red, green, blue) = placed(red, green, blue);
    let first = by_thirds(red, green, blue);
    let second = by_thirds(green, blue, red);
    let third = by_thirds(blue, red, green);
    let front: u8x32 = first.shuffle(
        second,
        [
            0, 1, 2, 3, 4, 5, 6, 7, 8, 9, 10, 11, 12, 13, 14, 15, 32, 33, 34, 35, 36, 37, 38, 39,
            40, 41, 42, 43, 44, 45, 46, 47,
        ],
    );
    front.copy_to_slice(&mut out[i..]);
    let middle: u8x32 = third.shuffle(
        first,
        [
            0, 1, 2, 3, 4, 5, 6, 7, 8, 9, 10, 11, 12, 13, 14, 15, 48, 49, 50, 51, 52, 53, 54, 55,
            56, 57, 58, 59, 60, 61, 62, 63,
        ],
    );
    middle.copy_to_slice(&mut out[i + 32..]);
    let back: u8x32 = second.shuffle(
        third,
        [
            16, 17, 18, 19, 20, 21, 22, 23, 24, 25, 26, 27, 28, 29, 30, 31, 48, 49, 50, 51, 52, 53,
            54, 55, 56, 57, 58, 59, 60, 61, 62, 63,
        ],
    );
    back.copy_to_slice(&mut out[i + 64..]);
}
