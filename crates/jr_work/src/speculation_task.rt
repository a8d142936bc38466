//! A speculative read that a thread makes.

ghost use Rattle.std.specs.Prelude.{◌≡◌, Some};

use crate::one_scan::OneScan;
use crate::scan_speculation::ScanSpeculation;
use crate::window::BitWindow;
use jr_scan::FirstIntervals;

/// The buffer of a speculative read that a thread makes outside of the lock, its bits, and its index in the queue.
#[derive(Drop)]
pub struct SpeculationTask<S: OneScan> {
    pub(crate) place: usize,
    pub(crate) window: BitWindow,
    pub(crate) speculation: ScanSpeculation<S>,
}

impl<S: OneScan> SpeculationTask<S> {
    /// Reads MCUs starting at the first of its bits, as if one started there and each prediction were 0.
    pub fn make(self, part: &FirstIntervals<'_>) -> SpeculationTask<S>
        requires { S.part ≡ Some part.now }
    {
        let speculation = self.speculation.read(part, self.window);
        SpeculationTask {
            place: self.place,
            window: self.window,
            speculation,
        }
    }
}
