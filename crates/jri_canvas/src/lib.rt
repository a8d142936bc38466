//! Lines of pixels laid out on a canvas: in the order of bytes that a caller's image has, each where its stride says.
#![tactic(auto)]

mod layout;
mod line;
mod lines;
mod shuffles;

pub use layout::{Layout, Order, Pixels};
pub use line::lay_line;
pub use lines::{CanvasLines, have_places, lay_lines};
