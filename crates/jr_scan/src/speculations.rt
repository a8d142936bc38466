//! The speculative reads that a reader takes over.

ghost use Rattle.std.specs.Prelude.{IfSome};
ghost use Rattle.std.specs.Arc.{arc_value};
ghost use Rattle.jr_scan.specs.Speculation.{IsSpeculationOf};
ghost use Rattle.jr_scan.specs.Speculations.{AreSpeculationsOf, IsSpeculationOrNone};
ghost use Rattle.jr_scan.specs.IntervalValue.{IntervalValue};

use crate::speculation::Speculation;
use std::sync::Arc;

/// The speculative reads that a reader takes over, of one interval: at most three.
#[derive(Drop)]
pub struct Speculations {
    first: Option<Arc<Speculation>>,
    second: Option<Arc<Speculation>>,
    third: Option<Arc<Speculation>>,
}

/// Returns another reference to the same speculative read, or none.
fn speculate_again(speculation: &Option<Arc<Speculation>>) -> Option<Arc<Speculation>>
    ensures { (i : IntervalValue) → IsSpeculationOrNone i speculation.now → IsSpeculationOrNone i result }
{
    Arc::try_clone(speculation.as_ref()?).ok()
}

/// Returns the speculative read, and which of its MCUs starts at a bit.
fn found<'g>(
    speculation: &'g Option<Arc<Speculation>>,
    bit: u64,
) -> Option<(&'g Speculation, usize)>
    ensures { IfSome result (λ found. (i : IntervalValue) → IsSpeculationOrNone i speculation.now → IsSpeculationOf i found.0.now) }
{
    let speculation: &Speculation = speculation.as_ref()?;
    Some((speculation, speculation.find(bit)?))
}

impl Speculations {
    /// Returns no speculative reads.
    pub fn none() -> Speculations
        ensures { (i : IntervalValue) → AreSpeculationsOf i result }
    {
        Speculations {
            first: None,
            second: None,
            third: None,
        }
    }

    /// Returns further references to the same speculative reads; one that has too many is left out.
    pub fn fork(&self) -> Speculations
        ensures { (i : IntervalValue) → AreSpeculationsOf i self.now → AreSpeculationsOf i result }
    {
        Speculations {
            first: speculate_again(&self.first),
            second: speculate_again(&self.second),
            third: speculate_again(&self.third),
        }
    }

    /// Returns these, with another instead of the oldest.
    pub fn with(self, speculation: Arc<Speculation>) -> Speculations
        ensures { (i : IntervalValue) → AreSpeculationsOf i self → IsSpeculationOf i (arc_value speculation) → AreSpeculationsOf i result }
    {
        Speculations {
            first: self.second,
            second: self.third,
            third: Some(speculation),
        }
    }

    /// Returns whether there is none.
    pub fn is_none(&self) -> bool {
        self.first.is_none() && self.second.is_none() && self.third.is_none()
    }

    /// Returns a speculative read with an MCU that starts at a bit, and which MCU it is.
    pub(crate) fn find(&self, bit: u64) -> Option<(&Speculation, usize)>
        ensures { IfSome result (λ found. (i : IntervalValue) → AreSpeculationsOf i self.now → IsSpeculationOf i found.0.now) }
    {
        if let Some(found) = found(&self.first, bit) {
            return Some(found);
        }
        if let Some(found) = found(&self.second, bit) {
            return Some(found);
        }
        found(&self.third, bit)
    }
}
