//! The damage of a scan: which restart intervals have no decoding, and where they are in the image and in the file. No
//! image is made.
#![tactic(auto)]

mod by_threads;
mod damage;
mod decodable;
mod doubtful;
mod laws;
mod lines;
mod map;
mod offsets;
mod shared_scan;
mod verdict;

pub use by_threads::check_scan_by;
pub use damage::damaged_front;
pub use decodable::decodable_end;
pub use doubtful::{DoubtfulMcu, first_doubtful, is_doubtful_mcu};
pub use laws::one_count;
pub use lines::{Lines, McuRange, lines_of, mcus_of};
pub use map::{DamagedInterval, damaged_interval};
pub use verdict::{Verdict, check_scan};
