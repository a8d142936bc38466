//! Work that several threads share: the steps that are read of a scan, speculative reads ahead of them, and the threads
//! that help a calling one.
#![tactic(auto)]

mod beside;
mod choice;
mod one_scan;
mod scan_speculation;
mod shared_work;
mod speculation_queue;
mod speculation_slot;
mod speculation_task;
mod task;
pub mod tuning;
mod window;
mod work;
mod work_queue;

pub use beside::{Beside, Help, run_beside};
pub use one_scan::OneScan;
pub use scan_speculation::BufferSize;
pub use shared_work::SharedWork;
pub use speculation_queue::{SpeculationQueue, windows_of};
pub use task::{Assist, Task};
pub use work::Work;
pub use work_queue::WorkQueue;
