//! Runs of `jri_check`'s program over a directory of memory: its lines and its exit status, with several numbers of workers.

use crate::case::Case;
use crate::commands::{compare_field, named_by};
use crate::differences::Differences;
use crate::row::{field, part};
use crate::texts::write_check_lines;
use jri_archive::{Directory, Lists, NoProgress, StateError, Streams, program};
use jri_machine::{Entry, EntryKind, ReadError};
use std::alloc::Global;
use std::io::{Cursor, Error, ErrorKind, Result as IoResult, Write};
use std::sync::Wait;
use std::thread::Threads;
use test_files::error::NotationError;
use test_files::files::file;

/// The files and directories of a table and a further file, two files that are not read, and lists and state files.
#[derive(Clone, Copy)]
struct Shelf<'a> {
    table: &'a str,
    name: &'a str,
    bytes: &'a [u8],
}

/// Returns the bytes of a word: those of the hexadecimal digits after `%`, or its text.
fn bytes_of(alloc: Global, word: &str) -> Result<Vec<u8>, NotationError> {
    match word.strip_prefix('%') {
        Some(digits) => file(alloc, digits),
        None => Ok(word.as_bytes().to_vec(alloc)?),
    }
}

/// Returns the entry of a name: one that ends in `/` is a directory's, and one in digits is not UTF-8.
fn entry_of(alloc: Global, word: &str) -> Result<Entry, NotationError> {
    let (word, kind) = match word.strip_suffix('/') {
        Some(directory) => (directory, EntryKind::Directory),
        None if word.starts_with('%') => (word, EntryKind::Unread(ReadError::NameIsNoText)),
        None => (word, EntryKind::File),
    };
    let name = bytes_of(alloc, word)?;
    Ok(Entry { name, kind })
}

/// Returns the entries of a directory.
fn entries_of(alloc: Global, names: &str) -> Result<Vec<Entry>, NotationError> {
    let mut entries = Vec::new(alloc);
    for word in names.split_whitespace() {
        entries.push(entry_of(alloc, word)?)?;
    }
    Ok(entries)
}

impl<'a> Shelf<'a> {
    /// Returns what the table's line with this sign and name gives.
    fn find(&self, sign: char, name: &str) -> Option<&'a str> {
        for line in self.table.lines() {
            if let Some((found, content)) = named_by(line, sign)
                && found == name
            {
                return Some(content);
            }
        }
        None
    }
}

impl Directory for Shelf<'_> {
    fn read(&self, alloc: Global, name: &str) -> Result<Vec<u8>, ReadError> {
        if name == self.name {
            return self.bytes.to_vec(alloc).or(Err(ReadError::Memory));
        }
        match (name, self.find('=', name)) {
            ("shut", _) => Err(ReadError::NotAllowed),
            ("fifo", _) => Err(ReadError::NotRegular),
            (_, Some(words)) => file(alloc, words).or(Err(ReadError::Memory)),
            (_, None) => Err(ReadError::NotFound),
        }
    }

    fn entries(&self, alloc: Global, name: &str) -> Result<Option<Vec<Entry>>, ReadError> {
        let Some(names) = self.find('/', name) else {
            return Ok(None);
        };
        match entries_of(alloc, names) {
            Ok(entries) => Ok(Some(entries)),
            Err(_) => Err(ReadError::Memory),
        }
    }
}

impl Lists for Shelf<'_> {
    type List = &'static [u8];

    type Log = Cursor<[u8; 18]>;

    fn list(&self, name: &str) -> Result<&'static [u8], ReadError> {
        let names: &'static [u8] = match name {
            "list" => b"two\0cut\0",
            "unended" => b"two\0missing",
            "lines" => b"two\ncut\n",
            "empty" => b"",
            _ => return Err(ReadError::NotFound),
        };
        Ok(names)
    }

    fn state(&self, alloc: Global, name: &str) -> Result<(Vec<u8>, Cursor<[u8; 18]>), StateError> {
        let bytes: &[u8] = match name {
            "new" => b"",
            "damaged" => b"jri_check state 1\nx\n",
            // Its end has no space for what is missing.
            "full" => b"jri_check state 1\nten letters",
            "used" => return Err(StateError::InUse),
            _ => return Err(StateError::Unread(ReadError::NotAllowed)),
        };
        let mut log = Cursor::new([0; 18]);
        log.set_position(bytes.len() as u64);
        match bytes.to_vec(alloc) {
            Ok(read) => Ok((read, log)),
            Err(_) => Err(StateError::Memory),
        }
    }
}

/// An output with space for a number of bytes. A bar follows each write that does not end with a line.
#[derive(Drop)]
struct Stream<'a> {
    bytes: &'a mut Vec<u8>,
    space: usize,
    refusal: ErrorKind,
}

impl Write for Stream<'_> {
    fn write(&mut self, bytes: &[u8]) -> IoResult<usize> {
        if self.space < bytes.len() {
            return Err(Error::from(self.refusal));
        }
        self.space -= bytes.len();
        self.bytes.extend_from_slice(bytes)?;
        if bytes.last() != Some(&b'\n') {
            self.bytes.push(b'|')?;
        }
        Ok(bytes.len())
    }

    fn flush(&mut self) -> IoResult<()> {
        Ok(())
    }
}

/// Returns the arguments of a row, after others.
fn words_of(alloc: Global, before: &str, words: &str) -> Result<Vec<Vec<u8>>, NotationError> {
    let mut all = Vec::new(alloc);
    for line in [before, words] {
        for word in line.split_whitespace() {
            all.push(bytes_of(alloc, word)?)?;
        }
    }
    Ok(all)
}

/// Returns the number of bytes for which standard output has space.
fn space_of(settings: &str) -> Result<usize, NotationError> {
    match part(settings, ' ', 0) {
        "" => Ok(usize::MAX),
        digits => Ok(digits.parse::<usize>()?),
    }
}

/// Returns the error of a write past that space.
fn refusal_of(settings: &str) -> ErrorKind {
    match part(settings, ' ', 1) {
        "reader-gone" => ErrorKind::BrokenPipe,
        _ => ErrorKind::StorageFull,
    }
}

/// A run of the program: its files, its arguments, and the space of standard output.
#[derive(Clone, Copy)]
struct CheckRun<'a> {
    directory: Shelf<'a>,
    options: &'a str,
    names: &'a str,
    space: usize,
    /// The error of a write past that space.
    refusal: ErrorKind,
}

/// Makes a run, and returns its exit status.
fn make<R: Threads + Wait + Sync>(
    rt: &R,
    alloc: Global,
    run: CheckRun<'_>,
    written: &mut Vec<u8>,
    reported: &mut Vec<u8>,
) -> Result<u8, NotationError> {
    let words = words_of(alloc, run.options, run.names)?;
    let (directory, space, refusal) = (run.directory, run.space, run.refusal);
    let out = Stream {
        bytes: written,
        space,
        refusal,
    };
    let errors = Stream {
        bytes: reported,
        space: usize::MAX,
        refusal,
    };
    let streams = Streams {
        out,
        errors,
        progress: NoProgress,
    };
    Ok(program(rt, alloc, directory, &directory, Ok(words), streams).status)
}

/// Makes the run of a row with these arguments before its own, and compares what comes of it.
fn compare_run<R: Threads + Wait + Sync>(
    rt: &R,
    table: &str,
    line: &str,
    options: &str,
    out: &mut Differences,
) -> Result<(), NotationError> {
    let (name, bytes): (&str, &[u8]) = ("", &[]);
    let run = CheckRun {
        directory: Shelf { table, name, bytes },
        options,
        names: field(line, 0),
        space: space_of(field(line, 1))?,
        refusal: refusal_of(field(line, 1)),
    };
    let wanted = u64::from(field(line, 3).parse::<u8>()?);
    let (mut written, mut reported) = (Vec::new(out.alloc), Vec::new(out.alloc));
    let status = make(rt, out.alloc, run, &mut written, &mut reported)?;
    out.compare_numbers(options, wanted, u64::from(status));
    compare_field(options, table, field(line, 2), written.as_slice(), out);
    compare_field(options, table, field(line, 4), reported.as_slice(), out);
    Ok(())
}

/// Checks a row of a table of checks: what a line has after `%`.
pub(crate) fn check_archive<R: Threads + Wait + Sync>(
    rt: &R,
    table: &str,
    line: &str,
    out: &mut Differences,
) {
    for options in ["", "-j 1", "-j 8"] {
        if let Err(error) = compare_run(rt, table, line, options, out) {
            out.fail(error);
        }
    }
}

/// Checks a case's file with these arguments before its name.
fn check_case<R: Threads + Wait + Sync>(
    rt: &R,
    case: &Case<'_>,
    options: &str,
    wanted: &str,
    out: &mut Differences,
) {
    let (table, name, bytes) = ("", case.row.name, case.bytes);
    let run = CheckRun {
        directory: Shelf { table, name, bytes },
        options,
        names: name,
        space: usize::MAX,
        refusal: ErrorKind::StorageFull,
    };
    let (mut written, mut reported) = (Vec::new(case.alloc), Vec::new(case.alloc));
    match make(rt, case.alloc, run, &mut written, &mut reported) {
        Ok(_status) => {
            let found = str::from_utf8(written.as_slice()).unwrap_or("no text");
            out.compare_texts("check", wanted, found);
        }
        Err(error) => out.fail(error),
    }
}

/// Checks a case's file with a map, with one worker and with three.
pub(crate) fn check_as_archive<R: Threads + Wait + Sync>(
    rt: &R,
    case: &Case<'_>,
    out: &mut Differences,
) {
    let mut wanted = String::new(case.alloc);
    out.note(write_check_lines(&mut wanted, case.row));
    check_case(rt, case, "--map -j 1", wanted.as_str(), out);
    check_case(rt, case, "--map -j 3", wanted.as_str(), out);
}
