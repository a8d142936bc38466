//! A scan's image, decoded and painted by several threads, and written in one pass; and the memory for a row of MCUs
//! that threads hand on: empty, read, or painted.
#![tactic(auto)]

mod baton;
mod caller;
mod crew;
mod crew_size;
mod paint_space;
mod row;
mod row_buffer;
mod row_work;
mod sending;
mod sharing;

pub use sharing::write_scan_by;
