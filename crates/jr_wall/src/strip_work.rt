//! The strips of a shared interval: one thread at a time reads or skips them, and they wait for a free worker.

ghost use Rattle.std.specs.Prelude.{◌≡◌, IfOk, Some};
ghost use Rattle.std.specs.Arc.{arc_value};
ghost use Rattle.jr_wall.specs.Sharing.{IsOneOf, interval_of_strip, HasItsSpeculations};

use crate::gathered::Gathered;
use crate::reading::IntervalReading;
use crate::waiting_strip::WaitingStrip;
use jr_base::{Coefficients, Memory};
use jr_piece::Strip;
use jr_scan::{FirstIntervals, Speculations};
use jr_work::{OneScan, SpeculationQueue, Work};
use std::alloc::Global;
use std::marker::{Model, PhantomData};
use std::sync::Arc;

/// A strip of an interval of the scan that waits.
#[derive(Drop)]
pub(crate) struct ScanStrip<S: OneScan> {
    strip: WaitingStrip,
    of: PhantomData<S>,
}

impl<S: OneScan> Model for ScanStrip<S> {
    ghost use Rattle.jr_scan.specs.IntervalValue.{IntervalValue};
    ghost use Rattle.jr_wall.specs.Sharing.{IsOneOf, interval_of_strip, HasItsSpeculations};

    ghost Value = { IntervalValue };

    ghost view = { λ c. interval_of_strip c.strip };

    ghost invariant = { λ c. IsOneOf S.part (interval_of_strip c.strip) × HasItsSpeculations c.strip };
}

impl<S: OneScan> ScanStrip<S> {
    pub(crate) fn of(strip: WaitingStrip) -> ScanStrip<S>
        requires own { IsOneOf S.part (interval_of_strip strip) }
        requires speculations { HasItsSpeculations strip }
        ensures { result ≡ interval_of_strip strip }
    {
        ScanStrip {
            strip,
            of: PhantomData,
        }
    }

    /// Returns the strip's samples.
    pub(crate) fn decode(&self, alloc: Global) -> Result<Strip, Memory>
        ensures interval { IfOk result (λ s. s.interval ≡ self.now) }
        ensures own { IfOk result (λ s. IsOneOf S.part s.interval) }
    {
        self.strip.decode(alloc)
    }

    /// Returns the memory of its blocks, to be used again; `None` if it has none.
    pub(crate) fn into_blocks(self) -> Option<Vec<Coefficients>> {
        self.strip.into_blocks()
    }
}

/// What the workers of an interval share in addition to their queue: strips wait in it for a free worker.
#[derive(Drop)]
pub(crate) struct StripWork<S: OneScan> {
    /// Maximum number of strips that wait before the worker that reads decodes one.
    most_waiting: usize,
    /// Memory of strips that are transformed, for those to be read.
    spare: Vec<Vec<Coefficients>>,
    pub(crate) gathered: Gathered<S>,
}

impl<S: OneScan> StripWork<S> {
    /// Returns the work on an interval of which nothing is read yet.
    pub(crate) fn of(alloc: Global, gathered: Gathered<S>, most_waiting: usize) -> StripWork<S> {
        StripWork {
            most_waiting,
            spare: Vec::new(alloc),
            gathered,
        }
    }

    /// Keeps a strip of the interval, and the memory of its blocks if it has some.
    pub(crate) fn keep(
        &mut self,
        strip: Arc<Strip>,
        blocks: Option<Vec<Coefficients>>,
    ) -> Result<(), Memory>
        requires { IsOneOf S.part (arc_value strip).interval }
    {
        let kept = self.gathered.keep(strip);
        if let Some(blocks) = blocks {
            drop(self.spare.push(blocks));
        }
        kept
    }
}

impl<S: OneScan> Work<S> for StripWork<S> {
    type Reader = IntervalReading<S>;

    type Begun = IntervalReading<S>;

    type Unfinished = ScanStrip<S>;

    type Spare = Vec<Coefficients>;

    fn has_space(&self, unfinished: usize) -> bool {
        unfinished < self.most_waiting
    }

    fn position(&self, _part: &FirstIntervals<'_>, reader: &IntervalReading<S>) -> (u32, u64) {
        (reader.number(), reader.bit())
    }

    fn begin(
        &mut self,
        part: &FirstIntervals<'_>,
        mut reader: IntervalReading<S>,
        speculations: &SpeculationQueue<S>,
        skips: bool,
    ) -> Option<(IntervalReading<S>, Option<IntervalReading<S>>)> {
        if skips {
            let speculations = speculations.for_next(part, reader.number());
            reader.guide(speculations);
        } else {
            reader.guide(Speculations::none());
            if let Some(blocks) = self.spare.pop() {
                reader.lend(blocks);
            }
        }
        Some((reader, None))
    }

    fn spare(&mut self) -> Option<Vec<Coefficients>> {
        self.spare.pop()
    }
}
