//! Work on a scan that threads share.

ghost use Rattle.std.specs.Prelude.{◌≡◌, Some};

use crate::one_scan::OneScan;
use crate::speculation_queue::SpeculationQueue;
use jr_scan::FirstIntervals;

/// Work on a scan that threads share: one at a time reads it, a step after the other, and any of them finishes a step
/// that was read. A step is a row of MCUs, or a strip of an interval.
pub trait Work<S: OneScan>: Drop {
    /// The steps that are left to read.
    type Reader: Drop;
    /// A step that is begun, with all that reading it needs.
    type Begun: Drop;
    /// A step that was skipped or read.
    type Unfinished: Drop;
    /// Memory that no step needs any more.
    type Spare: Drop;

    /// Returns whether there is space for what another step reads, while `unfinished` steps wait.
    fn has_space(&self, unfinished: usize) -> bool;

    /// Returns where the next step starts: the number of its interval, and the bit.
    fn position(&self, part: &FirstIntervals<'_>, reader: &Self::Reader) -> (u32, u64)
        requires { S.part ≡ Some part.now };

    /// Begins the next step, with the speculative reads by which it is skipped, or to be read. Returns it, and the
    /// steps after it if another thread can read them meanwhile.
    fn begin(
        &mut self,
        part: &FirstIntervals<'_>,
        reader: Self::Reader,
        speculations: &SpeculationQueue<S>,
        skips: bool,
    ) -> Option<(Self::Begun, Option<Self::Reader>)>
        requires { S.part ≡ Some part.now };

    /// Takes some memory, once no step is left to begin; `None` if no more is there.
    fn spare(&mut self) -> Option<Self::Spare>;
}
