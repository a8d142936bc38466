//! A code and its additional bits in one number, so that one load returns both.

ghost use Rattle.std.specs.Prelude.{◌≡◌, ◌<◌, ◌≤ℤ◌, ℕ, pos, negsuc, IfSome, IfNone};
ghost use Rattle.jr_code.specs.Code.{unpacked, places_in, GoesOn};

use crate::words::Extended;

/// Number of bits of a look-up.
pub(crate) const LOOKED_UP: u8 = 11;

/// Number of values that these bits have.
pub(crate) const WINDOWS: usize = 2048;

/// The number of coefficients that means the end of a block: more than a block has.
const TO_THE_END: u8 = 128;

/// The symbol of a run of sixteen zeros.
const SIXTEEN_ZEROS: u8 = 0xF0;

/// Maximum number of additional bits of an AC coefficient.
const MAX_ADDITIONAL_BITS: u8 = 10;

/// An entry of a table. The lowest byte is the number of bits of the code and its additional bits, the next one the
/// number of positions in a block that they advance; the lower half of the third is the number of additional bits, the
/// upper eleven bits are their value. Without a code the lowest byte is 255, longer than any register.
#[derive(Clone, Copy)]
pub struct Packed {
    number: u32,
}

impl Packed {
    /// Nothing.
    pub(crate) const NONE: Packed = Packed { number: 255 };

    /// Packs a code, its additional bits, and the number of positions that they advance.
    pub(crate) fn of(both: Extended, places: u8) -> Packed
        requires places { GoesOn both.symbol places }
        requires least { negsuc 1023 ≤ℤ both.value }
        requires greatest { both.value ≤ℤ pos 1023 }
        ensures both { unpacked result ≡ both }
        ensures places { places_in result ≡ places }
    {
        let value = u32::from(both.value.cast_unsigned()) % 2048;
        let size = u32::from(both.symbol % 16);
        Packed {
            number: value * 2097152 + size * 65536 + u32::from(places) * 256 + u32::from(both.long),
        }
    }

    /// Returns the number of bits of the code and its additional bits.
    #[inline(always)]
    pub(crate) fn long(self) -> u32
        ensures { result ≡ (unpacked self).long }
    {
        self.number % 256
    }

    /// Returns the number of positions in a block that they advance: a run of zeros and the coefficient after it; 128
    /// to the end of the block.
    #[inline(always)]
    pub fn places(self) -> u32
        ensures value { result ≡ places_in self }
        ensures few { result < 256 }
    {
        self.number / 256 % 256
    }

    /// Returns the value of the additional bits.
    #[inline(always)]
    pub fn value(self) -> i16
        ensures { result ≡ (unpacked self).value }
    {
        (self.number.cast_signed() >> 21) as i16
    }
}

/// Returns the number of positions in a block that the code of a symbol advances (T.81, F.1.2.2): its upper four bits
/// are a run of zeros, its lower four the number of additional bits of the coefficient after it. `None` if it is the
/// symbol of no such code.
#[inline(always)]
pub(crate) fn places_of(symbol: u8) -> Option<u8>
    ensures some { IfSome result (λ n. GoesOn symbol n) }
    ensures none { IfNone result ((n : ℕ) → GoesOn symbol n → ⊥) }
{
    let size = symbol % 16;
    if symbol == 0 {
        return Some(TO_THE_END);
    }
    if symbol == SIXTEEN_ZEROS {
        return Some(16);
    }
    if size == 0 || size > MAX_ADDITIONAL_BITS {
        return None;
    }
    Some(symbol / 16 + 1)
}
