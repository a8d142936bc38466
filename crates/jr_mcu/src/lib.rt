//! The blocks of one MCU (T.81, Annex F), read or skipped, and shifted by predictions that are known later.
#![tactic(auto)]

mod block;
mod block_sink;
mod mcu;
mod shifting;

pub use block_sink::{BlockSink, Kept, Skipped};
pub use mcu::read_mcu;
pub use shifting::{all_small, store_shifted, sums};
