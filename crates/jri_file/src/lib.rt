//! A file's scan, of bytes in memory or of a reader's.
#![tactic(auto)]

mod heading;
mod incoming;
mod laws;
mod reading;
mod scanning;
mod whole;

pub use heading::read_file_head;
pub use incoming::read_scan;
pub use laws::{each_accepted_file_has_a_picture, each_scan_has_a_picture, one_text};
pub use scanning::scan_of_file;
pub use whole::read_file;
