//! How a decoding went.

use jr_cut::ScanEnd;
use jr_segments::Refusal;

/// The report of a file whose image was written.
#[derive(Clone, Copy)]
pub struct Report {
    /// Number of restart intervals of the scan.
    pub intervals: u32,
    /// Number of those with a decoding.
    pub sound: u32,
    /// Number of those without one.
    pub damaged: u32,
    /// Number of those that were not to be decoded.
    pub blank: u32,
    /// What ended the scan.
    pub ended: ScanEnd,
}

/// The reason why no whole image was written.
#[derive(Clone, Copy, PartialEq, Eq)]
pub enum Fault {
    /// The input could not be read.
    Read,
    /// The file is refused.
    Refused(Refusal),
    /// Memory ran out.
    Memory,
    /// The image could not be written to its end.
    Write,
    /// The file could not be opened.
    NoFile,
}
