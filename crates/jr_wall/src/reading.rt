//! How far a shared interval is read.

ghost use Rattle.std.specs.Prelude.{◌≡◌, ◌<◌, IfOk, IfSome, IfNone};
ghost use Rattle.std.specs.Arc.{arc_value};
ghost use Rattle.jr_scan.specs.Mcus.{HasLongestFront};
ghost use Rattle.jr_scan.specs.Speculations.{AreSpeculationsOf};
ghost use Rattle.jr_wall.specs.Sharing.{IsOneOf, IsNextOf, interval_of_strip, HasItsSpeculations};

use crate::waiting_strip::WaitingStrip;
use jr_base::{Coefficients, Memory};
use jr_piece::StripReader;
use jr_scan::{Interval, Speculations};
use jr_work::OneScan;
use jr_work::tuning::{MAX_UNITS_OF_STRIP, MIN_MCUS_OF_STRIP, MIN_STRIPS};
use std::alloc::Global;
use std::marker::{Model, PhantomData};
use std::mem::replace;
use std::sync::Arc;

/// Returns the number of MCUs of each strip of a shared interval but the last.
pub(crate) fn strip_mcus(interval: &Interval) -> u32
    ensures { 0 < result }
{
    let units = interval.head().order().len() as u32;
    let even = interval.mcus() / MIN_STRIPS;
    even.min(MAX_UNITS_OF_STRIP / units).max(MIN_MCUS_OF_STRIP)
}

/// Where the whole MCUs of interval `number` end, and whether it has a decoding.
#[derive(Clone, Copy)]
pub(crate) struct End {
    pub number: u32,
    pub front: u32,
    pub is_sound: bool,
}

/// What follows the MCUs that are read.
#[derive(Drop)]
pub(crate) enum Next {
    /// The next strip.
    Strip(WaitingStrip),
    /// Nothing: so the interval ends.
    End(End),
}

/// Reads the next strip of `each` MCUs, or skips it by speculative reads if there are some. `None` if no whole MCU
/// follows.
fn next_strip(
    alloc: Global,
    reader: &mut StripReader,
    speculations: &Speculations,
    each: u32,
) -> Result<Option<WaitingStrip>, Memory>
    requires { AreSpeculationsOf reader.old.interval speculations.now }
    ensures interval { reader.new.interval ≡ reader.old.interval }
    ensures speculations { IfOk result (λ o. IfSome o HasItsSpeculations) }
    ensures of { IfOk result (λ o. IfSome o (λ s. interval_of_strip s ≡ reader.old.interval)) }
    ensures none { IfOk result (λ o. IfNone o (0 < each → HasLongestFront reader.old.interval reader.old.first)) }
    ensures same { IfOk result (λ o. IfNone o (reader.new ≡ reader.old)) }
{
    if !speculations.is_none() {
        let Some(strip) = reader.skip_by(speculations, each)? else {
            return Ok(None);
        };
        return Ok(Some(WaitingStrip::Placed(strip, speculations.fork())));
    }
    let Some(strip) = reader.next(alloc, each)? else {
        return Ok(None);
    };
    Ok(Some(WaitingStrip::Coded(strip)))
}

/// The reader of an interval of the scan.
#[derive(Drop)]
pub(crate) struct IntervalReading<S: OneScan> {
    reader: StripReader,
    each: u32,
    /// The reads by which the next strip is skipped; if there are none, it is read.
    speculations: Speculations,
    of: PhantomData<S>,
}

impl<S: OneScan> Model for IntervalReading<S> {
    ghost use Rattle.std.specs.Prelude.{◌<◌};
    ghost use Rattle.jr_scan.specs.Speculations.{AreSpeculationsOf};
    ghost use Rattle.jr_scan.specs.IntervalValue.{IntervalValue};
    ghost use Rattle.jr_wall.specs.Sharing.{IsOneOf};

    ghost Value = { IntervalValue };

    ghost view = { λ r. r.reader.interval };

    ghost invariant = { λ r. IsOneOf S.part r.reader.interval × (0 < r.each) × AreSpeculationsOf r.reader.interval r.speculations };
}

impl<S: OneScan> IntervalReading<S> {
    /// Returns a reader of an interval of which nothing is read yet.
    pub(crate) fn of(interval: Arc<Interval>) -> IntervalReading<S>
        requires { IsOneOf S.part (arc_value interval) }
        ensures { result ≡ arc_value interval }
    {
        let each = strip_mcus(&interval);
        IntervalReading {
            reader: StripReader::over(interval),
            each,
            speculations: Speculations::none(),
            of: PhantomData,
        }
    }

    /// Gives it blocks whose memory the next strip reuses.
    pub(crate) fn lend(&mut self, blocks: Vec<Coefficients>)
        ensures { self.new ≡ self.old }
    {
        self.reader.lend(blocks);
    }

    /// Returns the number of its interval.
    pub(crate) fn number(&self) -> u32
        ensures { result ≡ self.now.number }
    {
        self.reader.number()
    }

    /// Returns the bit at which the next strip starts.
    pub(crate) fn bit(&self) -> u64 {
        self.reader.bit()
    }

    /// Sets the speculative reads by which the next strip is skipped, if any.
    pub(crate) fn guide(&mut self, speculations: Speculations)
        requires { AreSpeculationsOf self.old speculations }
        ensures { self.new ≡ self.old }
    {
        drop(replace(&mut self.speculations, speculations));
    }

    /// Reads the next strip, or skips it.
    pub(crate) fn next(&mut self, alloc: Global) -> Result<Next, Memory>
        ensures { IfOk result (IsNextOf S.part) }
    {
        let reader = &mut self.reader;
        if let Some(strip) = next_strip(alloc, reader, &self.speculations, self.each)? {
            return Ok(Next::Strip(strip));
        }
        Ok(Next::End(End {
            number: self.reader.number(),
            front: self.reader.first(),
            is_sound: self.reader.is_sound(),
        }))
    }
}
