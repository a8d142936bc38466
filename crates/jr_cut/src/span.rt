//! The range of data in the unstuffed bytes of a scan.

/// From one offset up to another.
#[derive(Clone, Copy)]
pub struct Span {
    pub start: usize,
    pub end: usize,
}
