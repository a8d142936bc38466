//! Lines for differences from a row, with the path in which each occurs.

use std::alloc::{AllocError, Global};
use std::io::{Result as IoResult, Write};
use test_files::error::NotationError;

/// The lines of a row's differences, without its name. A check whose allocation fails is noted here, and continues with less.
#[derive(Drop)]
pub(crate) struct Differences {
    pub(crate) alloc: Global,
    lines: String,
    /// Why the row is not checked on each path, if it is not.
    failure: Option<NotationError>,
}

/// Returns the length of the prefix that two texts share.
fn common(wanted: &[u8], found: &[u8]) -> usize {
    for i in 0..wanted.len() {
        if wanted.get(i) != found.get(i) {
            return i;
        }
    }
    wanted.len()
}

impl Differences {
    pub(crate) fn new(alloc: Global) -> Differences {
        Differences {
            alloc,
            lines: String::new(alloc),
            failure: None,
        }
    }

    /// Returns whether the row is not checked on each path.
    pub(crate) fn has_failed(&self) -> bool {
        self.failure.is_some()
    }

    /// Returns the size of the lines in bytes.
    pub(crate) fn len(&self) -> usize {
        self.lines.len()
    }

    /// Notes why the row is not checked on each path.
    pub(crate) fn fail(&mut self, error: NotationError) {
        self.failure = Some(error);
    }

    /// Notes whether allocation fails.
    pub(crate) fn note(&mut self, done: Result<(), AllocError>) {
        if done.is_err() {
            self.fail(NotationError::Memory);
        }
    }

    /// Returns the given number of bytes of this value, or none if allocation fails.
    pub(crate) fn bytes(&mut self, value: u8, size: usize) -> Vec<u8> {
        if let Ok(bytes) = vec![in self.alloc; value; size] {
            return bytes;
        }
        self.fail(NotationError::Memory);
        Vec::new(self.alloc)
    }

    /// Adds a line with a number.
    pub(crate) fn add(&mut self, before: &str, number: usize, after: &str) {
        let written = writeln!(self.lines, "{before} {number}{after}");
        self.note(written);
    }

    /// Adds the text `found`, if it is not the one that is wanted.
    pub(crate) fn compare_texts(&mut self, path: &str, wanted: &str, found: &str) {
        if wanted != found {
            let written = writeln!(self.lines, "{path}: wanted {wanted:?}, found {found:?}");
            self.note(written);
        }
    }

    /// Adds the number `found`, if it is not the one that is wanted.
    pub(crate) fn compare_numbers(&mut self, path: &str, wanted: u64, found: u64) {
        if wanted != found {
            let written = writeln!(self.lines, "{path}: wanted {wanted}, found {found}");
            self.note(written);
        }
    }

    /// Adds the bytes `found`, if they are not those that are wanted.
    pub(crate) fn compare_bytes(&mut self, path: &str, wanted: &[u8], found: &[u8]) {
        if wanted != found {
            let (all, count, at) = (wanted.len(), found.len(), common(wanted, found));
            let (a, b) = (wanted.get(at), found.get(at));
            let written = writeln!(
                self.lines,
                "{path}: wanted {all} bytes, found {count}; byte {at}: wanted {a:?}, found {b:?}"
            );
            self.note(written);
        }
    }

    /// Writes the failure of the table's line of this number, and the differences of the row of this name.
    pub(crate) fn write<W: Write>(&self, number: usize, name: &str, out: &mut W) -> IoResult<()> {
        match self.failure {
            Some(NotationError::Malformed) => writeln!(out, "line {number}: not a row")?,
            Some(NotationError::Memory) => writeln!(out, "line {number}: out of memory")?,
            None => {}
        }
        for line in self.lines.as_str().lines() {
            writeln!(out, "{name}: {line}")?;
        }
        Ok(())
    }
}
