//! The entries of directories, and the reasons why they, or files, are not read.

/// Why the bytes of a file are not there.
#[derive(Clone, Copy)]
pub enum ReadError {
    /// No file has that name.
    NotFound,
    /// It may not be read.
    NotAllowed,
    /// It is a directory.
    Directory,
    /// Its name is not UTF-8: the toolchain opens files by text alone.
    NameIsNoText,
    /// It is a FIFO, a socket or a device.
    NotRegular,
    /// The system allows no name of this length.
    NameTooLong,
    /// Another reason.
    Failed,
    /// With its restart markers in step it would be longer than a file may be.
    TooLong,
    /// Memory ran out.
    Memory,
}

impl ReadError {
    /// Returns the reason in words.
    pub fn text(&self) -> &'static str {
        match self {
            ReadError::NotFound => "no such file",
            ReadError::NotAllowed => "permission denied",
            ReadError::Directory => "a folder",
            ReadError::NameIsNoText => "its name is not UTF-8",
            ReadError::NotRegular => "not a regular file",
            ReadError::NameTooLong => "its name is too long",
            ReadError::Failed => "reading failed",
            ReadError::TooLong => "too long with its restart markers in step",
            ReadError::Memory => "out of memory",
        }
    }
}

/// The kind of an entry of a directory.
#[derive(Clone, Copy)]
pub enum EntryKind {
    File,
    Directory,
    /// Its kind cannot be read.
    Unread(ReadError),
}

/// The entries of a directory.
#[derive(Drop)]
pub struct Entry {
    /// Its name after that of its directory, of any bytes.
    pub name: Vec<u8>,
    pub kind: EntryKind,
}
