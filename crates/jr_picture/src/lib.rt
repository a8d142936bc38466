//! The meaning of an image of a scan: the marks of its intervals, the samples of each, and the report of its decoding.
//!
//! The headline, that each interval of an image shows what its mark says, is `IsPicture` in specs/Headline.antt.
#![tactic(auto)]

mod blank;
mod counts;
mod gate;
mod laws;
mod mark;
mod picture_error;
mod report;

pub use blank::blank_sample;
pub use counts::Counts;
pub use gate::{Gate, OpenGate};
pub use laws::{one_picture, sound_samples_are_faithful};
pub use mark::Mark;
pub use picture_error::PictureError;
pub use report::{Fault, Report};
