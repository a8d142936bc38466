//! Arguments of a program that checks files, the line of its counts, and two files that are read at once, since several workers check
//! them: the reading of each waits for that of the other.

use jri_archive::{
    CheckRequest, CheckSource, Directory, FileCounts, Findings, NoProgress, State,
    append_counts_line, asked, check_all, write_counts_line,
};
use jri_machine::{Entry, ReadError};
use std::alloc::Global;
use std::io::{BufReader, Cursor};
use std::sync::atomic::{AtomicU32, Ordering};
use std::test::Fail;
use test_files::waiting::has_come;

/// There is no list of names.
pub(crate) const NO_LIST: Option<BufReader<Cursor<[u8; 1]>>> = None;

/// Returns what the arguments in a line ask for.
pub(crate) fn request_of(alloc: Global, line: &str) -> Result<CheckRequest, Fail> {
    let mut all = Vec::new(alloc);
    for word in line.split_whitespace() {
        all.push(word.as_bytes().to_vec(alloc)?)?;
    }
    match asked(alloc, all.as_slice()) {
        Ok(request) => Ok(request),
        Err(_) => Err(Fail::from("arguments that are refused")),
    }
}

/// Arguments, and the number of workers and of names that they ask for.
const LINES: [(&str, u32, usize); 4] = [
    ("a", 4, 1),
    ("a -j 64 b c", 64, 3),
    ("- --files0-from list", 4, 1),
    ("--workers 1 --files0-from list", 1, 0),
];

#[test]
fn asks_for_workers_and_names(rt: HostRuntime) -> Result<(), Fail> {
    for (line, workers, names) in &LINES {
        let asked = request_of(rt.alloc(), line)?;
        if asked.workers != *workers || asked.names.len() != *names {
            return Err(Fail::from(*line));
        }
    }
    Ok(())
}

/// The longest line of counts is written whole.
#[test]
fn counts_are_written_whole(rt: HostRuntime) {
    let counts = FileCounts {
        sound: u64::MAX,
        damaged: u64::MAX,
        refused: u64::MAX,
        unsupported: u64::MAX,
        unread: u64::MAX,
        out_of_memory: u64::MAX,
        changed: u64::MAX,
    };
    let findings = Findings {
        new_versions: u64::MAX,
        missing: u64::MAX,
        doubtful: u64::MAX,
    };
    let (mut line, mut wanted) = (Vec::new(rt.alloc()), String::new(rt.alloc()));
    let is_whole = write_counts_line(&mut line, counts, findings).is_ok()
        && append_counts_line(&mut wanted, counts, findings).is_ok()
        && line.as_slice() == wanted.as_bytes();
    assert!(rt; is_whole);
}

/// Files of no bytes, whose readings wait until two have begun.
#[derive(Drop)]
struct Meeting<'a> {
    begun: &'a AtomicU32,
    /// Readings that have seen the other one.
    met: &'a AtomicU32,
}

impl<'a> Directory for Meeting<'a> {
    fn read(&self, alloc: Global, _name: &str) -> Result<Vec<u8>, ReadError> {
        self.begun.fetch_add(1, Ordering::SeqCst);
        if has_come(self.begun, 2) {
            self.met.fetch_add(1, Ordering::SeqCst);
        }
        Ok(Vec::new(alloc))
    }

    fn entries(&self, _alloc: Global, _name: &str) -> Result<Option<Vec<Entry>>, ReadError> {
        Ok(None)
    }
}

#[test]
fn two_files_are_read_at_once(rt: HostRuntime) -> Result<(), Fail> {
    let asked = request_of(rt.alloc(), "-j 2 a b")?;
    let (begun, met) = (AtomicU32::new(0), AtomicU32::new(0));
    let directory = Meeting {
        begun: &begun,
        met: &met,
    };
    let state: Option<State<Vec<u8>>> = None;
    let out = Vec::new(rt.alloc());
    let source = CheckSource { directory, state };
    let (report, lines) = check_all(&rt, rt.alloc(), source, asked, NO_LIST, out, NoProgress);
    let expected = "a: refused 1: not a JPEG file\nb: refused 1: not a JPEG file\n".as_bytes();
    let is_right = met.load(Ordering::SeqCst) == 2
        && report.counts.refused == 2
        && lines.as_slice() == expected;
    assert!(rt; is_right);
    Ok(())
}
