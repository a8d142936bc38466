//! The bytes of a file that are there.

/// Some bytes of a file, and whether the file ends after them.
#[derive(Clone, Copy)]
pub struct FileBytes<'a> {
    /// The offset in the file of the first of them.
    pub from: u64,
    pub bytes: &'a [u8],
    /// Whether the file ends after them. Otherwise it continues, and rows that further bytes could change are not
    /// returned.
    pub are_all: bool,
}
