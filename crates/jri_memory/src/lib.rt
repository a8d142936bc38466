//! A file in memory decoded into buffers of the caller's, and a list of its damaged intervals: the calls of libjri as a library.
//!
//! No call starts a thread, waits, or keeps anything: calls on different buffers may run at once.
#![tactic(auto)]

mod answers;
mod calls;
mod canvas;
mod canvas_calls;
mod check;
mod damages;
mod decode;
mod file_head;
mod file_scan;
mod filling;
mod final_segment;
mod frame_size;
mod header;
mod laying;
mod lines;
mod mend;
mod mend_report;
mod place_calls;
mod places;
mod report;
mod resync;
mod rows_report;
mod space;
pub mod status;
mod text;

pub use answers::status_of;
pub use calls::{check_marks, decode_file, decode_lines, read_header};
pub use canvas::CanvasShape;
pub use canvas_calls::decode_canvas;
pub use damages::{Damage, DamageReport, list_damages};
pub use header::Header;
pub use jr_arrival::{FileBytes, RowPlace};
pub use jr_mend::MAX_COPIES;
pub use laying::lay_out;
pub use mend::mend_files;
pub use mend_report::{ChoiceEntry, MendReport};
pub use place_calls::{decode_file_rows, decode_window_rows, skip_file_rows, skip_window_rows};
pub use report::{DecodeReport, detail};
pub use resync::{ResyncReport, resynchronise_file};
pub use rows_report::RowsReport;
pub use text::{build_text, end_text, refusal_text};
