//! A file that is still arriving, and a file entered in its middle: what its bytes so far make final in every file that
//! they can become, the lines, and the positions from which its rows are decoded or skipped.
//!
//! What is read of a file that is still arriving is final in every file that it can become. `laws.rt` states this for
//! headers, refusals, restart intervals, whole MCUs, lines and marks, and `PartialFile` returns each line once as bytes
//! are pushed. An interval is final up to its last whole MCU; all of it is once the marker that ends it is whole, code
//! included (`IsOver` in specs/LongerFile.antt), or once its data have more bits without a code than an MCU has
//! (`IsNeverWhole`).
//!
//! Nothing is read twice: the cut continues where it was, each MCU is decoded once into the row of MCUs that comes
//! next, and its lines are painted once. So all pushes and looks together cost what one decoding of the whole file
//! does, however it is split.
//!
//! A position is plain numbers: it uses no memory of its own, and the caller may copy, keep and drop it. Of the scan
//! only what follows the position is read, a window of it at a time, as far as the rows reach.
#![tactic(auto)]

mod file_bytes;
mod file_source;
mod finished;
mod head;
mod laws;
mod mcu_sink;
mod mcu_source;
mod partial_file;
mod partial_head;
mod partial_image;
mod partial_row;
mod partial_source;
mod place;
mod place_laws;
mod row_walk;
mod rows;
mod same_lines;
mod window;

pub use file_bytes::FileBytes;
pub use finished::Finished;
pub use head::read_partial_head;
pub use laws::{
    cut_is_final, fault_is_final, front_is_final, head_is_final, lines_are_final, mark_is_final,
    run_is_final, scan_is_final, too_long_is_final,
};
pub use partial_file::PartialFile;
pub use place::{RowPlace, is_position};
pub use place_laws::{
    no_mcu_in_long_data, place_in_part, place_stays, run_after, split_segment, top_is_place,
};
pub use rows::{decode_rows, lines_before, lines_between, rows_with_space, skip_rows};
pub use same_lines::lines_are_one;
