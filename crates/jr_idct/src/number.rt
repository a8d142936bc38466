//! The 64-bit numbers of a pass.

ghost use Rattle.std.specs.Prelude.{◌≡◌, ℕ, ℤ, ◌+◌, ◌*◌, ◌<◌, pos, ◌+ℤ◌, ◌-ℤ◌};
ghost use Rattle.std.proofs.Math.IntN.{◌*ℤ◌};
ghost use Rattle.jr_idct.specs.Matrix.{descale, wide_reach, row_weight, IsInBounds, IsWithin};
ghost use Rattle.jr_idct.specs.Transform.{byte_of};

/// Number of bits that the pass over columns drops: the 13 of the constants, less two that are kept.
pub(crate) const COLUMN_BITS: u32 = 11;

/// Number of bits that the pass over rows drops: those 13, the two, and three for the sum's scale of 8.
pub(crate) const ROW_BITS: u32 = 18;

/// A signed number. A pass over numbers within its reach is exact.
///
/// It is a trait, though one type implements it: a proof over any `Number` has no conversion between bits and numbers.
pub(crate) trait Number: Copy {
    // the whole number that it encodes
    ghost value: { Self → ℤ };

    // the bound on the inputs of a pass
    ghost reach: { ℕ };

    /// Returns the sum of the two.
    fn plus(self, other: Self) -> Self
        requires { IsInBounds reach (value self +ℤ value other) }
        ensures { value result ≡ value self +ℤ value other };

    /// Returns the difference of the two.
    fn minus(self, other: Self) -> Self
        requires { IsInBounds reach (value self -ℤ value other) }
        ensures { value result ≡ value self -ℤ value other };

    /// Returns the product with a constant.
    fn times(self, constant: i16) -> Self
        requires { IsInBounds reach (constant *ℤ value self) }
        ensures { value result ≡ constant *ℤ value self };
}

impl Number for i64 {
    ghost value = { λ x. x };

    ghost reach = { wide_reach };

    #[inline]
    fn plus(self, other: Self) -> Self {
        self + other
    }

    #[inline]
    fn minus(self, other: Self) -> Self {
        self - other
    }

    #[inline]
    fn times(self, constant: i16) -> Self {
        constant as i64 * self
    }
}

/// Returns the number without its last bits, rounded; halves go up.
#[inline]
pub(crate) fn descaled(number: i64, bits: u32) -> i64
    requires positive { 0 < bits }
    requires few { bits < 19 }
    requires small { IsWithin (row_weight * wide_reach) number }
    ensures { result ≡ descale bits number }
{
    (number + (1_i64 << (bits - 1))) >> bits
}

/// Returns the sample of a value: the level shift of T.81, A.3.1, and the nearest number of eight bits.
#[inline]
pub(crate) fn clamped(value: i64) -> u8
    requires { IsInBounds wide_reach value }
    ensures { result ≡ byte_of (value +ℤ pos 128) }
{
    (value + 128).clamp(0, 255) as u8
}
