//! Files whose scan is written anew of coded intervals: with the header that they have, and the bytes of each interval
//! as they are in a file (T.81, B.1.1.5 and E.1.4). The intervals are those of a damaged file, found past restart markers that
//! are out of step, or those of copies of a file, each from a copy in which it is sound.
#![tactic(auto)]

mod buffers;
mod byte_runs;
mod choice;
mod combining;
mod file_copy;
mod following;
mod headers;
mod in_step;
mod laws;
mod locality;
mod markers;
mod mending;
mod outlook;
mod positions;
mod reading;
mod resync;
mod scan_position;
mod soundness;
mod splice;

pub use byte_runs::{ByteRun, MIN_GAP, SECTOR_BYTES};
pub use choice::{Choice, MAX_COPIES};
pub use combining::{CombineError, Combined, FAR_BYTES, MAX_RUNS, combine};
pub use file_copy::FileCopy;
pub use headers::under_header;
pub use in_step::is_in_step;
pub use laws::{
    bytes_after_image_are_ignored, each_scan_resyncs, file_in_step_is_resynced, file_in_step_stays,
    header_stays, in_step_stays, intervals_are_cut, one_resync, spliced_has_its_scan,
};
pub use locality::{damage_is_local, mending_is_exact};
pub use mending::{MendError, Mended, mend};
pub use outlook::{MAX_EARLY, SURE_BYTES};
pub use resync::{ResyncFault, Resynced, resynchronised};
pub use soundness::{sound_copies_come_first, sound_if_any_is};
pub use splice::{write_header, write_image_end, write_interval};
