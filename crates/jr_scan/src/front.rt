//! The longest decodable prefix of an interval.

ghost use Rattle.std.specs.Prelude.{◌≡◌};

use crate::interval::Block;
use std::marker::Model;

/// The blocks of the whole MCUs that an interval's bits begin with.
#[derive(Drop)]
pub struct FrontBlocks {
    mcus: u32,
    blocks: Vec<Block>,
    is_sound: bool,
}

impl Model for FrontBlocks {
    ghost use Rattle.jr_scan.specs.FrontValue.{FrontValue};

    ghost Value = { FrontValue };

    ghost view = { λ f. record { mcus = f.mcus; blocks = f.blocks.items; is_sound = f.is_sound } };
}

impl FrontBlocks {
    pub(crate) fn of(mcus: u32, blocks: Vec<Block>, is_sound: bool) -> FrontBlocks
        ensures { result ≡ record { mcus = mcus; blocks = blocks.items; is_sound = is_sound } }
    {
        FrontBlocks {
            mcus,
            blocks,
            is_sound,
        }
    }

    /// Returns the number of whole MCUs.
    pub fn mcus(&self) -> u32
        ensures { result ≡ self.now.mcus }
    {
        self.mcus
    }

    /// Their blocks, in order.
    pub fn blocks(&self) -> &[Block]
        ensures { result.now ≡ self.now.blocks }
    {
        self.blocks.as_slice()
    }

    /// Returns whether they are all of the interval, and fewer than eight bits follow them.
    pub fn is_sound(&self) -> bool
        ensures { result ≡ self.now.is_sound }
    {
        self.is_sound
    }
}
