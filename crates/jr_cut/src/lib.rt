//! The bytes of a scan, cut into the segments between its restart markers, without their stuffing (T.81, B.1.1.5 and F.1.2.3).
#![tactic(auto)]

mod breaks;
mod coded_segments;
mod file_segments;
mod front;
mod into_buffer;
mod laws;
mod partial_cut;
mod partial_segments;
mod scan_end;
mod span;
mod stop;
mod unstuff;

pub use breaks::Break;
pub use coded_segments::{CodedSegments, SegmentsToEnd, cut, cut_to_end};
pub use file_segments::{CodedSpan, FileSegment, segment_at, unstuff_at};
pub use front::{segment_length, spelled_length};
pub use into_buffer::{Spelled, UnstuffedPart, unstuff_into, unstuff_segment, unstuff_some};
pub use laws::{each_scan_has_a_cut, one_cut};
pub use partial_cut::PartialCut;
pub use scan_end::ScanEnd;
pub use span::Span;
pub use stop::{Stop, stop_at};
pub use unstuff::{Unstuffing, offset_in};
