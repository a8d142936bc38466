//! A file that has arrived.

use jr_picture::Counts;
use jr_scan::Scan;

/// A file that has arrived: its scan, and the numbers of its sound and damaged intervals.
#[derive(Drop)]
pub struct Finished {
    pub scan: Scan,
    pub counts: Counts,
}
