//! The one scan of a JPEG file: its restart intervals, the blocks that each of them codes, and positions in them.
#![tactic(auto)]

mod cursor;
mod cut_scan;
mod first_intervals;
mod front;
mod interval;
mod interval_ref;
mod laws;
mod mcu_reader;
mod partial_scan;
mod place;
mod scan;
mod speculated;
mod speculation;
mod speculations;
mod taking_over;

pub use cursor::{Cursor, zero_from};
pub use cut_scan::CutScan;
pub use first_intervals::FirstIntervals;
pub use front::FrontBlocks;
pub use interval::{Block, Interval};
pub use interval_ref::IntervalRef;
pub use jr_cut::{ScanEnd, one_cut};
pub use laws::{
    decoding_is_whole_run, each_interval_decodes_or_not, each_interval_has_a_longest_front,
    no_front, one_decoding, one_front, one_run, runs_meet, shorter_front,
};
pub use mcu_reader::{MAX_UNITS, McuReader};
pub use partial_scan::PartialScan;
pub use place::{Place, RunEnd};
pub use scan::Scan;
pub use speculation::Speculation;
pub use speculations::Speculations;
