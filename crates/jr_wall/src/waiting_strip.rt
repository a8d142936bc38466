//! A strip of a shared interval that waits for a free worker.

ghost use Rattle.std.specs.Prelude.{◌≡◌, IfOk};
ghost use Rattle.jr_wall.specs.Sharing.{interval_of_strip, HasItsSpeculations};

use jr_base::{Coefficients, Memory};
use jr_piece::{CodedStrip, PlacedStrip, Strip};
use jr_scan::Speculations;
use std::alloc::Global;

/// A strip that waits: its blocks are read, or it is skipped, and then its position is known and speculative reads have
/// its MCUs.
#[derive(Drop)]
pub(crate) enum WaitingStrip {
    Coded(CodedStrip),
    Placed(PlacedStrip, Speculations),
}

impl WaitingStrip {
    /// Returns the strip's samples.
    pub(crate) fn decode(&self, alloc: Global) -> Result<Strip, Memory>
        requires { HasItsSpeculations self.now }
        ensures { IfOk result (λ s. s.interval ≡ interval_of_strip self.now) }
    {
        match self {
            WaitingStrip::Coded(strip) => strip.decode(alloc),
            WaitingStrip::Placed(strip, speculations) => strip.decode_by(alloc, speculations),
        }
    }

    /// Returns the memory of its blocks, to be used again; `None` if it has none.
    pub(crate) fn into_blocks(self) -> Option<Vec<Coefficients>> {
        match self {
            WaitingStrip::Coded(strip) => Some(strip.into_blocks()),
            WaitingStrip::Placed(..) => None,
        }
    }
}
