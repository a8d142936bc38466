//! Strips that are skipped, and decoded from the positions where they start.

ghost use Rattle.std.specs.Prelude.{◌≡◌, IfOk};
ghost use Rattle.std.specs.Arc.{arc_value};
ghost use Rattle.jr_scan.specs.Speculations.{AreSpeculationsOf};
ghost use Rattle.jr_piece.specs.Strips.{IsPlaced, IsStrip};

use crate::decoded::read_samples;
use crate::strip::Strip;
use jr_base::Memory;
use jr_scan::{Interval, McuReader, Place, Speculations};
use std::alloc::Global;
use std::marker::Model;
use std::sync::Arc;

/// Whole MCUs of an interval that follow one another, and the position at which the first of them starts: they are skipped,
/// and none of their blocks is kept.
#[derive(Drop)]
pub struct PlacedStrip {
    interval: Arc<Interval>,
    first: u32,
    mcus: u32,
    from: Place,
}

impl Model for PlacedStrip {
    ghost use Rattle.std.specs.Arc.{arc_value};
    ghost use Rattle.jr_piece.specs.StripValue.{PlacedStripValue};
    ghost use Rattle.jr_piece.specs.Strips.{IsPlaced};

    ghost Value = { PlacedStripValue };

    ghost view = { λ s. record { interval = arc_value s.interval; first = s.first; mcus = s.mcus; from = s.from } };

    ghost invariant = { λ s. IsPlaced (record { interval = arc_value s.interval; first = s.first; mcus = s.mcus; from = s.from }) };
}

impl PlacedStrip {
    pub(crate) fn of(interval: Arc<Interval>, first: u32, mcus: u32, from: Place) -> PlacedStrip
        requires { IsPlaced (record { interval = arc_value interval; first = first; mcus = mcus; from = from }) }
        ensures { result ≡ record { interval = arc_value interval; first = first; mcus = mcus; from = from } }
    {
        PlacedStrip {
            interval,
            first,
            mcus,
            from,
        }
    }

    /// Returns the strip's samples: its MCUs are read starting at its position, and transformed as they come. Any
    /// thread may ask for them, at any time.
    pub fn decode(&self, alloc: Global) -> Result<Strip, Memory>
        ensures interval { IfOk result (λ s. s.interval ≡ self.now.interval) }
        ensures first { IfOk result (λ s. s.first ≡ self.now.first) }
        ensures mcus { IfOk result (λ s. s.mcus ≡ self.now.mcus) }
        ensures strip { IfOk result IsStrip }
    {
        self.decode_by(alloc, &Speculations::none())
    }

    /// Decodes the strip, and takes over what the speculative reads have of its MCUs.
    pub fn decode_by(&self, alloc: Global, speculations: &Speculations) -> Result<Strip, Memory>
        requires { AreSpeculationsOf self.now.interval speculations.now }
        ensures interval { IfOk result (λ s. s.interval ≡ self.now.interval) }
        ensures first { IfOk result (λ s. s.first ≡ self.now.first) }
        ensures mcus { IfOk result (λ s. s.mcus ≡ self.now.mcus) }
        ensures strip { IfOk result IsStrip }
    {
        let coded: &Interval = &self.interval;
        // By its contract an interval's header is valid.
        let _valid = coded.head();
        let mut reader = McuReader::at(coded.as_ref(), self.from, self.mcus);
        let samples = read_samples(alloc, &mut reader, speculations, self.mcus as usize)?;
        let interval = Arc::try_clone(&self.interval)?;
        Ok(Strip::of(interval, self.first, self.mcus, samples))
    }
}
