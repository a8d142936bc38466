//! Strips: whole MCUs of an interval that follow one another, decoded before the interval's end is known.

ghost use Rattle.std.specs.Prelude.{◌≡◌, IfOk, slice_get};
ghost use Rattle.std.specs.Option.{option_copied};
ghost use Rattle.std.specs.Arc.{arc_value};
ghost use Rattle.jr_piece.specs.Outcome.{AreSamples};
ghost use Rattle.jr_piece.specs.Strips.{HasItsBlocks, IsStrip};

use crate::transforming::transform_blocks;
use jr_base::{Coefficients, Memory};
use jr_head::Head;
use jr_scan::Interval;
use std::alloc::Global;
use std::marker::Model;
use std::sync::Arc;

/// The blocks of MCUs of an interval that follow one another: read, and not yet transformed.
#[derive(Drop)]
pub struct CodedStrip {
    interval: Arc<Interval>,
    first: u32,
    mcus: u32,
    blocks: Vec<Coefficients>,
}

impl Model for CodedStrip {
    ghost use Rattle.std.specs.Arc.{arc_value};
    ghost use Rattle.jr_piece.specs.StripValue.{CodedStripValue};
    ghost use Rattle.jr_piece.specs.Strips.{HasItsBlocks};

    ghost Value = { CodedStripValue };

    ghost view = { λ s. record { interval = arc_value s.interval; first = s.first; mcus = s.mcus; blocks = s.blocks.items } };

    ghost invariant = { λ s. HasItsBlocks (record { interval = arc_value s.interval; first = s.first; mcus = s.mcus; blocks = s.blocks.items }) };
}

/// The samples of MCUs of an interval that follow one another.
#[derive(Drop)]
pub struct Strip {
    interval: Arc<Interval>,
    first: u32,
    mcus: u32,
    samples: Vec<[u8; 64]>,
}

impl Model for Strip {
    ghost use Rattle.std.specs.Arc.{arc_value};
    ghost use Rattle.jr_piece.specs.StripValue.{StripValue};
    ghost use Rattle.jr_piece.specs.Strips.{IsStrip};

    ghost Value = { StripValue };

    ghost view = { λ s. record { interval = arc_value s.interval; first = s.first; mcus = s.mcus; samples = s.samples.items } };

    ghost invariant = { λ s. IsStrip (record { interval = arc_value s.interval; first = s.first; mcus = s.mcus; samples = s.samples.items }) };
}

/// Returns the samples of blocks that begin with an MCU.
fn samples_of(alloc: Global, head: &Head, blocks: &[Coefficients]) -> Result<Vec<[u8; 64]>, Memory>
    ensures { IfOk result (λ v. AreSamples head.now blocks.now v.items) }
{
    let mut samples = vec![in alloc; [0; 64]; blocks.len()]?;
    transform_blocks(head, 0, blocks, &mut samples);
    Ok(samples)
}

impl CodedStrip {
    pub(crate) fn of(
        interval: Arc<Interval>,
        first: u32,
        mcus: u32,
        blocks: Vec<Coefficients>,
    ) -> CodedStrip
        requires { HasItsBlocks (record { interval = arc_value interval; first = first; mcus = mcus; blocks = blocks.items }) }
        ensures { result ≡ record { interval = arc_value interval; first = first; mcus = mcus; blocks = blocks.items } }
    {
        CodedStrip {
            interval,
            first,
            mcus,
            blocks,
        }
    }

    /// Returns the memory of its blocks, to be used again.
    pub fn into_blocks(self) -> Vec<Coefficients>
        ensures { result.items ≡ self.blocks }
    {
        self.blocks
    }

    /// Returns the strip's samples. Any thread may ask for them, at any time.
    pub fn decode(&self, alloc: Global) -> Result<Strip, Memory>
        ensures interval { IfOk result (λ s. s.interval ≡ self.now.interval) }
        ensures first { IfOk result (λ s. s.first ≡ self.now.first) }
        ensures mcus { IfOk result (λ s. s.mcus ≡ self.now.mcus) }
        ensures strip { IfOk result IsStrip }
    {
        let samples = samples_of(alloc, self.interval.head(), self.blocks.as_slice())?;
        let interval = Arc::try_clone(&self.interval)?;
        Ok(Strip::of(interval, self.first, self.mcus, samples))
    }
}

impl Strip {
    pub(crate) fn of(
        interval: Arc<Interval>,
        first: u32,
        mcus: u32,
        samples: Vec<[u8; 64]>,
    ) -> Strip
        requires { IsStrip (record { interval = arc_value interval; first = first; mcus = mcus; samples = samples.items }) }
        ensures { result ≡ record { interval = arc_value interval; first = first; mcus = mcus; samples = samples.items } }
    {
        Strip {
            interval,
            first,
            mcus,
            samples,
        }
    }

    /// Asserts that the strip shows whole MCUs of its interval.
    pub fn assert_invariant(&self)
        ensures { IsStrip self.now }
    {
        let _ = &self.samples;
    }

    /// Returns the number of its interval.
    pub fn number(&self) -> u32
        ensures { result ≡ self.now.interval.number }
    {
        self.interval.number()
    }

    /// Returns the number in its interval of the first MCU.
    pub fn first(&self) -> u32
        ensures { result ≡ self.now.first }
    {
        self.first
    }

    /// Returns the number of its MCUs.
    pub fn mcus(&self) -> u32
        ensures { result ≡ self.now.mcus }
    {
        self.mcus
    }

    /// Returns the samples of data unit k of the strip, `8 row + column`; none past the last.
    pub fn block(&self, k: u32) -> Option<&[u8; 64]>
        ensures { option_copied result ≡ slice_get self.now.samples k }
    {
        self.samples.get(k as usize)
    }
}
