//! What `jri_mend` does: it reads damaged copies of a file, or of the files of directories, mends them, and reports.
#![tactic(auto)]

mod asking;
mod breaks;
mod combined;
mod headers;
mod mended_file;
mod preparing;
mod reading;
mod report;
mod running;
mod runs;
mod tree_counts;
mod tree_lines;
mod tree_making;
mod tree_plan;
mod tree_running;
mod trees;
mod writing;

pub use asking::{MendRequest, TreesRequest, is_of_trees, trees_request};
pub use running::program;
pub use tree_running::program_for_trees;
