//! The destination of the samples of data units.

ghost use Rattle.std.specs.Prelude.{◌≡◌, ℕ, ◌+◌, ◌*◌, ◌<◌, List, length, set, ⊤};
ghost use Rattle.jr_head.specs.Geometry.{blocks_of};
ghost use Rattle.jr_head.specs.HeadValue.{HeadValue};

use jr_head::Head;

/// A destination of the samples of data units, MCU after MCU.
pub trait UnitSink {
    // whether it has space for MCUs of an image with this header
    ghost has_space: { HeadValue → Self → Type 0 };

    // the samples of the data units, in the order of their MCUs
    ghost units: { HeadValue → Self → List (List ℕ) };

    /// Stores the samples of data unit j of an MCU, `8 row + column`.
    fn store(&mut self, head: &Head, mcu: usize, j: usize, samples: &[u8; 64])
        requires space { has_space head.now self.old }
        requires unit { j < blocks_of head.now }
        requires inside { mcu * blocks_of head.now + j < length (units head.now self.old) }
        ensures space { has_space head.now self.new }
        ensures store { units head.now self.new ≡ set (units head.now self.old) (mcu * blocks_of head.now + j) samples.now };
}

impl UnitSink for Vec<[u8; 64]> {
    ghost has_space = { λ _ _. ⊤ };

    ghost units = { λ _ list. list.items };

    #[inline(always)]
    fn store(&mut self, head: &Head, mcu: usize, j: usize, samples: &[u8; 64]) {
        self[mcu * head.order().len() + j] = *samples;
    }
}
