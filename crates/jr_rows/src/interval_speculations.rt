//! Speculative reads of one interval of a scan.

ghost use Rattle.std.specs.Prelude.{IfSome};
ghost use Rattle.jr_scan.specs.Speculations.{AreSpeculationsOf};
ghost use Rattle.jr_scan.specs.ScanValue.{ScanValue, interval_of};
ghost use Rattle.jr_rows.specs.Cursors.{AreSpeculationsIn};

use jr_scan::Speculations;

/// Speculative reads of one interval of a scan. They change nothing of what is read.
#[derive(Drop)]
pub struct IntervalSpeculations {
    number: u32,
    speculations: Speculations,
}

impl IntervalSpeculations {
    /// Returns these speculative reads as those of interval `number`.
    pub fn of(number: u32, speculations: Speculations) -> IntervalSpeculations
        ensures { (s : ScanValue) → AreSpeculationsOf (interval_of s number) speculations → AreSpeculationsIn s result }
    {
        IntervalSpeculations {
            number,
            speculations,
        }
    }

    /// Returns no speculative reads.
    pub fn none() -> IntervalSpeculations
        ensures { (s : ScanValue) → AreSpeculationsIn s result }
    {
        IntervalSpeculations::of(0, Speculations::none())
    }
}

/// Returns those of an interval.
pub(crate) fn of_interval(
    speculations: Option<&IntervalSpeculations>,
    number: u32,
) -> Option<&Speculations>
    ensures { (s : ScanValue) → IfSome speculations.entry (λ g. AreSpeculationsIn s g.now) → IfSome result (λ g. AreSpeculationsOf (interval_of s number) g.now) }
{
    let own = speculations?;
    if own.number == number {
        Some(&own.speculations)
    } else {
        None
    }
}
