//! The coefficients of a data unit.

ghost use Rattle.std.specs.Prelude.{◌≡◌, ◌<◌, ℕ, pos, replicate, length, slice_set};
ghost use Rattle.jr_base.specs.Blocks.{at};
ghost use Rattle.jr_base.specs.Zigzag.{zigzag_place};

use crate::zigzag::natural_at;
use std::marker::Model;

/// The 64 coefficients of a data unit, each of sixteen bits (T.81, A.3.3).
///
/// A contract sees them in zigzag order, in which they are coded; kept they are in natural order, `8 row + column`, in which
/// they are transformed.
#[derive(Clone, Drop)]
pub struct Coefficients {
    natural: [i16; 64],
}

impl Model for Coefficients {
    ghost use Rattle.std.specs.Prelude.{◌≡◌, List, ℤ, length};
    ghost use Rattle.jr_base.specs.Blocks.{in_zigzag_order};

    ghost Value = { List ℤ };

    ghost view = { λ c. in_zigzag_order c.natural };

    ghost invariant = { λ c. length c.natural ≡ 64 };
}

impl Coefficients {
    /// Coefficients that are all 0.
    #[inline(always)]
    pub fn zeros() -> Coefficients
        ensures { result ≡ replicate 64 (pos 0) }
    {
        Coefficients { natural: [0; 64] }
    }

    /// Stores a value at a zigzag index.
    #[inline(always)]
    pub fn set(&mut self, index: usize, value: i16)
        requires { index < 64 }
        ensures { self.new ≡ slice_set self.old index value }
    {
        self.natural[natural_at(index)] = value;
    }

    /// Returns the DC coefficient, that of the mean.
    #[inline(always)]
    pub fn first(&self) -> i16
        ensures { result ≡ at self.now 0 }
    {
        self.natural[0]
    }

    /// Returns the coefficients in natural order, `8 row + column`.
    #[inline(always)]
    pub fn natural(&self) -> &[i16; 64]
        ensures count { length result.now ≡ 64 }
        ensures values { (n : ℕ) → n < 64 → at result.now n ≡ at self.now (zigzag_place n) }
    {
        &self.natural
    }

    /// Returns the coefficients in zigzag order.
    pub fn to_zigzag(&self) -> [i32; 64]
        ensures { result ≡ self.now }
    {
        let mut zigzag = [0; 64];
        for k in 0..64 {
            zigzag[k] = i32::from(self.natural[natural_at(k)]);
        }
        zigzag
    }
}
