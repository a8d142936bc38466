//! Decoded intervals: their samples, whether they have a decoding, and otherwise their longest prefix. Long ones
//! can be had strip by strip.
#![tactic(auto)]

mod data_units;
mod decoded;
mod laws;
mod order;
mod piece;
mod placed_strip;
mod strip;
mod strip_reader;
mod transforming;
mod unit_sink;

pub use laws::{
    blocks_have_units, each_interval_has_an_outcome, one_outcome, one_strip, strip_is_final,
    strips_meet, whole_strip_is_outcome,
};
pub use piece::{OrderError, Piece};
pub use placed_strip::PlacedStrip;
pub use strip::{CodedStrip, Strip};
pub use strip_reader::StripReader;
pub use transforming::transform_blocks;
pub use unit_sink::UnitSink;
