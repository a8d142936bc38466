//! The marker segments before a scan, each by itself (ITU-T T.81 | ISO/IEC 10918-1, Annex B): their tests and refusals, and what
//! they define.
#![tactic(auto)]

mod frame;
mod huffman_table;
mod kind;
mod marker;
mod quantiser;
mod refusal;
mod restart;
mod segment;

pub use frame::{Frame, FrameComponent, read_frame};
pub use huffman_table::define_huffman_tables;
pub use kind::{Kind, adobe_transform, is_jfif_mark, kind_from};
pub use marker::Marker;
pub use quantiser::{Quantiser, define_quantisers};
pub use refusal::Refusal;
pub use restart::read_restart;
pub use segment::{Segment, read_segment};
