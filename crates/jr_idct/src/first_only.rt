//! Blocks that are only their DC coefficient.

ghost use Rattle.std.specs.Prelude.{◌≡◌, ◌<◌, ◌*◌, ◌+ℤ◌, ℕ, pos, slice_index};
ghost use Rattle.jr_idct.specs.Matrix.{at, floor_div, IsWithin};
ghost use Rattle.jr_idct.specs.Transform.{byte_of, samples};

use crate::number::clamped;
use jr_base::{Coefficients, Quantisers};

/// Returns the samples of a block that is only its DC coefficient, by its product: all are equal.
#[inline(always)]
fn flat_samples(product: i64) -> [u8; 64]
    requires { IsWithin (32768 * 65535) product }
    ensures { (n : ℕ) → n < 64 → slice_index result n ≡ byte_of (floor_div (product +ℤ pos 4) 8 +ℤ pos 128) }
{
    [clamped((product + 4) >> 3); 64]
}

/// Returns the samples of such a block.
#[inline(always)]
pub(crate) fn flat_block(block: &Coefficients, quantisers: &Quantisers) -> [u8; 64]
    requires { (k : ℕ) → 0 < k → k < 64 → at block.now k ≡ pos 0 }
    ensures { result ≡ samples block.now quantisers.now }
{
    flat_samples(i64::from(block.first()) * i64::from(quantisers.factors()[0]))
}
