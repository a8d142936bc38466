//! The rows of MCUs of a scan in their order: read, decoded and painted one after the other, and the image or some of
//! its lines written in one pass.
#![tactic(auto)]

mod announcing;
mod band;
mod blank;
mod interval_speculations;
mod intervals;
mod lines;
mod mark_bytes;
mod marked;
mod painter;
mod painting;
mod row_lines;
mod rows;
mod sample_row;
mod shape;
mod whole;
mod whole_mcus;
mod writing;

pub use announcing::announce;
pub use interval_speculations::IntervalSpeculations;
pub use lines::paint_scan_lines;
pub use mark_bytes::write_mark;
pub use marked::Marked;
pub use painter::RowPainter;
pub use rows::Rows;
pub use sample_row::SampleRow;
pub use shape::{
    Shape, bytes_of_row, coded_of_row, intervals_of_row, lines_of, shape_of, space_for,
};
pub use whole::paint_scan;
pub use writing::{counts_of, write_rows, write_scan};
