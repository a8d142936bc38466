//! Files for tests, in a short notation, their scans, images in a notation, and waiting.
#![tactic(auto)]

mod draft;
pub mod error;
pub mod files;
pub mod pictures;
pub mod scans;
pub mod waiting;
