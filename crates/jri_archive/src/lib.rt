//! The check of JPEG files for damage: a line for each, and an exit status. No image is made. The names of files: among the
//! arguments of a command line, in lists, and in directories.
#![tactic(auto)]

mod answers;
mod asking;
mod checking;
mod count_lines;
mod counts;
mod damaged_lines;
mod damaged_run;
mod disk;
mod file_queue;
mod given;
mod in_step;
mod judging;
mod lines;
mod map;
mod names;
mod one_check;
mod outcome;
mod progress;
mod reading;
mod rows;
mod running;
mod sharing;
mod source;
mod state_file;
mod state_line;
mod state_record;
mod unsupported;
mod words;

pub use answers::{CheckRequest, LineForm};
pub use asking::asked;
pub use checking::{Checked, check_file};
pub use count_lines::{append_counts_line, write_counts_line};
pub use counts::{CheckEnd, CheckReport, FileCounts, FileState, Finding, Findings};
pub use in_step::InStepDirectory;
pub use map::ReportError;
pub use outcome::{Outcome, outcome_of};
pub use progress::{NoProgress, Progress, Reported, TerminalProgress};
pub use reading::{CheckedBytes, Directory};
pub use running::{Lists, Streams, program};
pub use sharing::check_all;
pub use source::CheckSource;
pub use state_file::{Records, State, StateError, read_state};
pub use state_line::{parse_record, record_line};
pub use state_record::{FileRecord, RecordedState, Stamp};
