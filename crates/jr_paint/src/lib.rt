//! The positions of samples (T.81, A.1 and A.2), colours (JFIF 1.02), and the Netpbm text of an image.
#![tactic(auto)]

mod colours;
mod geometry;
mod halves;
mod header;
mod lanes;
mod lines;
mod netpbm;
mod pixels;
mod samples;
mod stores;
mod unit_lines;
mod upsampling;

pub use colours::{colour, colours_are_near};
pub use geometry::{Spot, exactly_one_place, place};
pub use header::{HEADER_SPACE, write_header};
pub use jr_base::{Tally, WriteFault};
pub use lines::{bytes_of_line, bytes_to, line_space, paint_lines};
pub use netpbm::{BATCH, make_space, write_netpbm};
pub use samples::Samples;
pub use unit_lines::{Unit, Units, fill_line, sample_of_units};
