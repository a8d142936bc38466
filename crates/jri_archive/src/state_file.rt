//! The records of earlier runs, and the state file that has them.

ghost use Rattle.std.specs.Prelude.{◌≡◌};
ghost use Rattle.jri_archive.specs.Records.{recorded};
ghost use Rattle.jri_archive.specs.Status.{state_error_status};

use crate::map::ReportError;
use crate::state_line::{parse_record, record_line};
use crate::state_record::FileRecord;
use jri_machine::ReadError;
use std::alloc::{AllocError, Global};
use std::collections::HashMap;
use std::collections::hash_map::Keys;
use std::io::Write;
use std::marker::Model;
use std::sync::{Mutex, Wait};

/// The first line of a state file.
const HEADER: &[u8] = b"jri_check state 1\n";

/// What ends a line that was cut off: it is appended by the next run.
const CUT: &[u8] = b" cut\n";

/// Why a state file is not used.
#[derive(Drop)]
pub enum StateError {
    /// It cannot be opened or read.
    Unread(ReadError),
    /// Another run uses it.
    InUse,
    /// Its line of that number, counted from 1, is not one of a state file.
    Damaged(u64),
    /// It cannot be written.
    Unwritten,
    /// Memory ran out.
    Memory,
}

impl StateError {
    /// Returns the exit status: 2 if the file cannot be used, 4 if memory or a write failed.
    pub fn status(&self) -> u8
        ensures { result ≡ state_error_status self.now }
    {
        match self {
            StateError::Unread(_) | StateError::InUse | StateError::Damaged(_) => 2,
            StateError::Unwritten | StateError::Memory => 4,
        }
    }
}

impl From<AllocError> for StateError {
    fn from(_refused: AllocError) -> Self {
        StateError::Memory
    }
}

/// The last record of each name.
#[derive(Drop)]
pub struct Records {
    by_name: HashMap<Vec<u8>, FileRecord>,
}

impl Model for Records {
    ghost use Rattle.std.specs.Prelude.{ℕ, List};
    ghost use Rattle.std.specs.Global.{Vec};
    ghost use Rattle.jri_archive.specs.declared.state_record.FileRecord.{FileRecord};

    ghost Value = { List (Vec ℕ × FileRecord) };

    ghost view = { λ r. r.by_name.entries };
}

impl Records {
    /// Returns the record of the file of that name.
    pub fn find(&self, name: &[u8]) -> Option<FileRecord>
        ensures { result ≡ recorded self.now name.now }
    {
        self.by_name.get(name).copied()
    }

    /// Adds the record of a line without its end; `false` if it is not the whole line of one.
    fn add(&mut self, alloc: Global, line: &[u8]) -> Result<bool, AllocError> {
        let Some((name, record)) = parse_record(alloc, line)? else {
            return Ok(false);
        };
        match self.by_name.insert(name, record) {
            Ok(_) => Ok(true),
            Err(_) => Err(AllocError),
        }
    }

    /// Adds the record of a line, unless the line was cut off. Returns what the line lacks; `None` if it is damaged.
    fn add_line(
        &mut self,
        alloc: Global,
        line: &[u8],
    ) -> Result<Option<&'static [u8]>, AllocError> {
        let Some((last, whole)) = line.split_last() else {
            return Ok(Some(b""));
        };
        if *last != b'\n' {
            let is_record = self.add(alloc, line)?;
            return Ok(Some(if is_record { b"\n" } else { CUT }));
        }
        if line.ends_with(CUT) || self.add(alloc, whole)? {
            return Ok(Some(b""));
        }
        Ok(None)
    }
}

/// Returns the records of the lines after the first, and what has to be appended before a further one.
fn records_of(alloc: Global, lines: &[u8]) -> Result<(Records, &'static [u8]), StateError> {
    let mut records = Records {
        by_name: HashMap::new(alloc),
    };
    let mut missing: &'static [u8] = b"";
    let mut number: u64 = 1;
    for line in lines.split_inclusive(|byte| *byte == b'\n') {
        number = number.saturating_add(1);
        missing = match records.add_line(alloc, line)? {
            Some(missing) => missing,
            None => return Err(StateError::Damaged(number)),
        };
    }
    Ok((records, missing))
}

/// Returns the records of a state file, and what has to be appended to it before a further one: its first line if it is
/// empty, and the end of a line that was cut off.
///
/// # Errors
///
/// The number of the first line that is neither that of a record nor one that was cut off.
pub fn read_state(alloc: Global, bytes: &[u8]) -> Result<(Records, &'static [u8]), StateError> {
    if bytes.starts_with(HEADER) {
        return records_of(alloc, &bytes[HEADER.len()..]);
    }
    if !HEADER.starts_with(bytes) {
        return Err(StateError::Damaged(1));
    }
    let (records, _) = records_of(alloc, b"")?;
    Ok((records, &HEADER[bytes.len()..]))
}

/// The records of earlier runs, and the file to which this run appends its own.
#[derive(Drop)]
pub struct State<W> {
    records: Records,
    /// Whether files that are recorded are read again.
    is_verifying: bool,
    log: Mutex<W>,
}

impl<W> Model for State<W> {
    ghost use Rattle.std.specs.Prelude.{ℕ, List};
    ghost use Rattle.std.specs.Global.{Vec};
    ghost use Rattle.jri_archive.specs.declared.state_record.FileRecord.{FileRecord};

    ghost Value = { List (Vec ℕ × FileRecord) };

    ghost view = { λ s. s.records };
}

impl<W: Write> State<W> {
    /// Reads the bytes of a state file to whose end `log` appends, and ends a line that was cut off.
    ///
    /// # Errors
    ///
    /// Nothing is written if a line is damaged or allocation fails.
    pub fn open(
        alloc: Global,
        bytes: &[u8],
        log: W,
        is_verifying: bool,
    ) -> Result<State<W>, StateError>
    where
        W: Drop,
    {
        let mut log = log;
        let (records, missing) = read_state(alloc, bytes)?;
        if log.write_all(missing).is_err() {
            return Err(StateError::Unwritten);
        }
        Ok(State {
            records,
            is_verifying,
            log: Mutex::new(log),
        })
    }

    /// Returns whether files that are recorded are read again.
    pub(crate) fn is_verifying(&self) -> bool {
        self.is_verifying
    }

    /// Returns the names that have records, in any order.
    pub(crate) fn names(&self) -> Keys<'_, Vec<u8>, FileRecord> {
        self.records.by_name.keys()
    }

    /// Returns the record of the file of that name by earlier runs.
    pub(crate) fn find(&self, name: &[u8]) -> Option<FileRecord>
        ensures { result ≡ recorded self.now name.now }
    {
        self.records.find(name)
    }

    /// Appends the line of a record by one write.
    pub(crate) fn append<R: Wait>(
        &self,
        rt: &R,
        alloc: Global,
        name: &[u8],
        record: &FileRecord,
    ) -> Result<(), ReportError> {
        let line = record_line(alloc, name, record)?;
        let mut log = self.log.lock(rt);
        log.write_all(line.as_bytes())?;
        Ok(())
    }
}
