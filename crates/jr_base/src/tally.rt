//! A reader or a writer, and whether a call through it has failed.

ghost use Rattle.std.specs.Prelude.{◌≡◌, ◌||◌, is_err, false};
ghost use Rattle.std.specs.Io.{ReadsAtMost, WritesAtMost};
ghost use Rattle.std.specs.Io.KnownBytes.{Keeps, ReadConsumes, WriteAppends};
ghost use Rattle.jr_base.specs.Tally.{inner_of, has_failed, took_none, known_in};

use std::io::{Read, Result, Write};

/// A reader or a writer, and a note of the first call that fails: an error, or a write of at least one byte that takes
/// none. No contract can say that each call is one of what it holds; tests show it.
#[derive(Drop)]
pub struct Tally<T> {
    inner: T,
    has_failed: bool,
}

impl<T> Tally<T> {
    /// Returns a tally of this reader or writer, of which no call has failed yet.
    pub fn of(inner: T) -> Self
        ensures inner { inner_of result ≡ inner }
        ensures unfailed { has_failed result ≡ false }
    {
        Tally {
            inner,
            has_failed: false,
        }
    }

    /// Returns the reader or writer that it holds.
    pub fn into_inner(self) -> T
        ensures { result ≡ inner_of self }
    {
        self.inner
    }

    /// Returns whether a call through it has failed, or a write of at least one byte has taken none.
    pub fn failed(&self) -> bool
        ensures { result ≡ has_failed self.now }
    {
        self.has_failed
    }
}

impl<R: Read> Read for Tally<R> {
    ghost remaining = { known_in R.remaining };

    fn read(&mut self, buf: &mut [u8]) -> Result<usize>
        ensures bound { ReadsAtMost result buf.new }
        ensures bytes { ReadConsumes (known_in R.remaining self.old) (known_in R.remaining self.new) result buf.new }
        ensures failed { has_failed self.new ≡ (has_failed self.old || is_err result) }
    {
        let result = self.inner.read(buf);
        self.has_failed |= result.is_err();
        result
    }
}

impl<W: Write> Write for Tally<W> {
    ghost contents = { known_in W.contents };

    fn write(&mut self, buf: &[u8]) -> Result<usize>
        ensures bound { WritesAtMost result buf.now }
        ensures bytes { WriteAppends (known_in W.contents self.old) (known_in W.contents self.new) result buf.now }
        ensures failed { has_failed self.new ≡ (has_failed self.old || took_none result buf.now) }
    {
        let result = self.inner.write(buf);
        self.has_failed |= match result {
            Ok(n) => n == 0 && !buf.is_empty(),
            Err(_) => true,
        };
        result
    }

    fn flush(&mut self) -> Result<()>
        ensures bytes { Keeps (known_in W.contents self.old) (known_in W.contents self.new) }
        ensures failed { has_failed self.new ≡ (has_failed self.old || is_err result) }
    {
        let result = self.inner.flush();
        self.has_failed |= result.is_err();
        result
    }
}
