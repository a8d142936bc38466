//! Standard input or a file.

use std::io::{Read, Result as IoResult};

/// Where the bytes of a file come from.
#[derive(Drop)]
pub enum Source<I, F> {
    /// Standard input.
    Input(I),
    /// A file.
    File(F),
}

impl<I: Read, F: Read> Read for Source<I, F> {
    fn read(&mut self, buf: &mut [u8]) -> IoResult<usize> {
        match self {
            Source::Input(input) => input.read(buf),
            Source::File(file) => file.read(buf),
        }
    }
}
