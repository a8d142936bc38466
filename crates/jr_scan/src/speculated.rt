//! One MCU of a speculative read.

use crate::place::Place;

/// An MCU that is read starting at a bit with each component predicted to be 0, and the position after it.
#[derive(Clone, Copy)]
pub(crate) struct Speculated {
    pub from: u64,
    pub to: Place,
}
