//! The numbers of marks.

/// The numbers of sound, damaged and blank intervals of a scan.
#[derive(Clone, Copy, PartialEq, Eq)]
pub struct Counts {
    /// Number of intervals with a decoding.
    pub sound: u32,
    /// Number of intervals without one.
    pub damaged: u32,
    /// Number of intervals that are not decoded.
    pub blank: u32,
}
