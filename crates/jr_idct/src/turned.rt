//! Rows and columns of two blocks exchanged, in lanes.

ghost use Rattle.std.specs.Prelude.{◌≡◌, ℕ, ◌+◌, ◌*◌, ◌/◌, ◌%◌, ◌<◌, pos, [], ◌∷◌, ◌++◌};
ghost use Rattle.std.specs.Simd.Lanes.{pick_l};
ghost use Rattle.jr_idct.specs.Lanes.{doubles, lane, quads};

use crate::lanes::by_words;
use crate::pass::Rows;
use std::simd::prelude::*;

/// Interleaves the lanes of both halves of two rows, two of each at a time.
#[inline(always)]
fn by_doubles(a: i16x16, b: i16x16, upper: bool) -> i16x16
    ensures { result ≡ pick_l (pos 0) (a ++ b) (doubles upper) }
{
    if upper {
        return a.shuffle(
            b,
            [4, 5, 20, 21, 6, 7, 22, 23, 12, 13, 28, 29, 14, 15, 30, 31],
        );
    }
    a.shuffle(
        b,
        [0, 1, 16, 17, 2, 3, 18, 19, 8, 9, 24, 25, 10, 11, 26, 27],
    )
}

/// Interleaves both, four entries of each at a time.
#[inline(always)]
fn interleave_quads(a: i16x16, b: i16x16, upper: bool) -> i16x16
    ensures { result ≡ pick_l (pos 0) (a ++ b) (quads upper) }
{
    if upper {
        return a.shuffle(
            b,
            [4, 5, 6, 7, 20, 21, 22, 23, 12, 13, 14, 15, 28, 29, 30, 31],
        );
    }
    a.shuffle(
        b,
        [0, 1, 2, 3, 16, 17, 18, 19, 8, 9, 10, 11, 24, 25, 26, 27],
    )
}

/// Rows and columns exchanged, of each block.
#[inline(always)]
pub(crate) fn turned(y: Rows) -> Rows
    ensures { (i p : ℕ) → i < 8 → p < 16 → lane (result.0 ∷ result.1 ∷ result.2 ∷ result.3 ∷ result.4 ∷ result.5 ∷ result.6 ∷ result.7 ∷ []) i p ≡ lane (y.0 ∷ y.1 ∷ y.2 ∷ y.3 ∷ y.4 ∷ y.5 ∷ y.6 ∷ y.7 ∷ []) (p % 8) (8 * (p / 8) + i) }
{
    let a0 = by_words(y.0, y.1, false);
    let a1 = by_words(y.0, y.1, true);
    let a2 = by_words(y.2, y.3, false);
    let a3 = by_words(y.2, y.3, true);
    let a4 = by_words(y.4, y.5, false);
    let a5 = by_words(y.4, y.5, true);
    let a6 = by_words(y.6, y.7, false);
    let a7 = by_words(y.6, y.7, true);
    let b0 = by_doubles(a0, a2, false);
    let b1 = by_doubles(a0, a2, true);
    let b2 = by_doubles(a1, a3, false);
    let b3 = by_doubles(a1, a3, true);
    let b4 = by_doubles(a4, a6, false);
    let b5 = by_doubles(a4, a6, true);
    let b6 = by_doubles(a5, a7, false);
    let b7 = by_doubles(a5, a7, true);
    let c0 = interleave_quads(b0, b4, false);
    let c1 = interleave_quads(b0, b4, true);
    let c2 = interleave_quads(b1, b5, false);
    let c3 = interleave_quads(b1, b5, true);
    let c4 = interleave_quads(b2, b6, false);
    let c5 = interleave_quads(b2, b6, true);
    let c6 = interleave_quads(b3, b7, false);
    let c7 = interleave_quads(b3, b7, true);
    (c0, c1, c2, c3, c4, c5, c6, c7)
}
