//! What the arguments of a command line ask for, and what jri reports.
#![tactic(auto)]

mod answers;
mod asking;
mod describing;
mod ending;
mod finishing;
mod head_line;
mod help;
mod line;
mod many;
mod modes;
mod opening;
mod placing;
mod quality;
mod status;

pub use answers::{Asked, DecodeRequest, Target, Verbosity};
pub use asking::{
    asked, decode_request, flag_argument, resync_argument, strings_of, with_argument,
};
pub use describing::{DescribeRequest, describe_request};
pub use ending::{Ending, Names, report_breaks, report_ending};
pub use finishing::{finish, flush_written};
pub use head_line::describe;
pub use many::{ManyRequest, image_name, many_request};
pub use modes::Mode;
pub use opening::{opened, understood, warn_of_name};
pub use placing::{make_part, place, unwritten};
pub use quality::quality_of;
pub use status::fault_status;
