//! Readers and writers that keep the reason of a failure.

ghost use Rattle.std.specs.Prelude.{OnOk, ◌≡◌, true};
ghost use Rattle.std.specs.Io.KnownBytes.{Keeps};
ghost use Rattle.jri_machine.specs.Noted.{has_flushed, noted_in};

use std::io::{Error, Read, Result as IoResult, Write};

/// A reader or a writer, the system's reason for the last call that failed, and whether all that was written is flushed.
#[derive(Drop)]
pub struct Noted<T> {
    inner: T,
    reason: Option<Error>,
    is_flushed: bool,
}

impl<T> Noted<T> {
    /// Returns a device over this reader or writer, of which no call has failed yet.
    pub fn of(inner: T) -> Self
        ensures { noted_in result ≡ inner }
    {
        Noted {
            inner,
            reason: None,
            is_flushed: false,
        }
    }

    /// Returns the reader or writer.
    pub fn into_inner(self) -> T
        ensures { result ≡ noted_in self }
    {
        self.inner
    }

    /// Returns the reason of the last failure.
    pub fn reason(&self) -> Option<Error> {
        self.reason
    }
}

impl<R: Read> Read for Noted<R> {
    ghost remaining = { λ noted. R.remaining (noted_in noted) };

    fn read(&mut self, buf: &mut [u8]) -> IoResult<usize> {
        let result = self.inner.read(buf);
        self.reason = result.err().or(self.reason);
        result
    }
}

impl<W: Write> Write for Noted<W> {
    ghost contents = { λ noted. W.contents (noted_in noted) };

    fn write(&mut self, buf: &[u8]) -> IoResult<usize> {
        self.is_flushed = false;
        let result = self.inner.write(buf);
        self.reason = result.err().or(self.reason);
        result
    }

    fn flush(&mut self) -> IoResult<()>
        ensures bytes { Keeps (W.contents (noted_in self.old)) (W.contents (noted_in self.new)) }
        ensures flushed { OnOk result (has_flushed self.new ≡ true) }
    {
        let result = self.inner.flush();
        self.is_flushed = result.is_ok();
        self.reason = result.err().or(self.reason);
        result
    }
}
