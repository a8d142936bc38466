//! From the bytes of a JPEG file to an image's text and a report; and the program that does so for the arguments of its
//! command line.
#![tactic(auto)]

mod engine;
mod headers;
mod many;
mod resync;
mod running;

pub use engine::run;
pub use headers::program_for_headers;
pub use jr_picture::{Fault, Report};
pub use jri_file::{one_text, scan_of_file};
pub use jri_machine::Unasked;
pub use jri_words::{
    Asked, DecodeRequest, DescribeRequest, ManyRequest, Mode, Target, Verbosity, asked,
    decode_request, describe_request, finish, many_request,
};
pub use many::program_for_many;
pub use resync::{ResyncedReport, run_resynced};
pub use running::program;
