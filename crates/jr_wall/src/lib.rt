//! Pieces of an image, the board that keeps them, and the workers that fill it.
//!
//! The headline, that each interval of a board shows what its mark says, is the contract of `Board::headline`; its
//! definition, `IsPicture`, is in `jr_picture`.
#![tactic(auto)]

mod board;
mod decoding;
mod gathered;
mod glimpse;
mod headline;
mod job;
mod jobs;
mod laws;
mod painting;
mod reading;
mod strip_work;
mod strips;
mod sweeping;
mod waiting_strip;
mod workers;
mod writing;

pub use board::{Board, Unposted};
pub use decoding::Decoding;
pub use glimpse::{Glimpse, glance};
pub use headline::same_scan_has_the_picture;
pub use job::Job;
pub use jr_cells::{Cells, Desk, Drawn, Seat, Sight, StripCells, StripSight};
pub use jr_picture::{Counts, Gate, Mark, OpenGate, blank_sample, one_picture};
pub use jr_piece::{
    CodedStrip, OrderError, Piece, PlacedStrip, Strip, StripReader, one_outcome, one_strip,
    strip_is_final, strips_meet, whole_strip_is_outcome,
};
pub use laws::pieces_are_of_their_data;
pub use workers::{decode_all, decode_alone, work};
pub use writing::write_board;
