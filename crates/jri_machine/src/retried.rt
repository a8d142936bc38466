//! Calls that a signal interrupts, and that are made again.

use std::io::{Error, ErrorKind, Read, Result as IoResult, Write};

/// A reader or a writer of which a call that a signal interrupts is made again.
#[derive(Drop)]
pub struct Retried<T> {
    inner: T,
}

impl<T> Retried<T> {
    /// Returns a device over this reader or writer.
    pub fn of(inner: T) -> Self {
        Retried { inner }
    }

    /// Returns the reader or writer.
    pub(crate) fn inner(&self) -> &T {
        &self.inner
    }
}

impl<R: Read> Read for Retried<R> {
    fn read(&mut self, buf: &mut [u8]) -> IoResult<usize> {
        for _ in 0..u64::MAX {
            match self.inner.read(buf) {
                Err(error) if error.kind() == ErrorKind::Interrupted => {}
                result => return result,
            }
        }
        Err(Error::from(ErrorKind::Interrupted))
    }
}

impl<W: Write> Write for Retried<W> {
    fn write(&mut self, buf: &[u8]) -> IoResult<usize> {
        for _ in 0..u64::MAX {
            match self.inner.write(buf) {
                Err(error) if error.kind() == ErrorKind::Interrupted => {}
                result => return result,
            }
        }
        Err(Error::from(ErrorKind::Interrupted))
    }

    fn flush(&mut self) -> IoResult<()> {
        self.inner.flush()
    }
}
