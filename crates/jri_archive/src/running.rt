//! What the program does with its arguments.

ghost use Rattle.std.specs.Prelude.{◌≡◌, IfErr};
ghost use Rattle.jri_archive.specs.Status.{state_error_status};

use crate::answers::CheckRequest;
use crate::asking::asked;
use crate::count_lines::write_counts_line;
use crate::counts::{CheckEnd, CheckReport};
use crate::in_step::InStepDirectory;
use crate::progress::Progress;
use crate::reading::Directory;
use crate::sharing::check_all;
use crate::source::CheckSource;
use crate::state_file::{State, StateError};
use jr_base::Tally;
use jri_machine::{Ended, Noted, ReadError, Unasked, answer};
use std::alloc::{AllocError, Global};
use std::io::{BufReader, ErrorKind, Read, Write};
use std::sync::Wait;
use std::thread::Threads;

/// The exit status if the list of names cannot be read.
const LIST_UNREAD: u8 = 3;

/// The exit status if memory ran out or the output failed.
const FAILED: u8 = 4;

/// A source of lists of names, and of state files.
pub trait Lists {
    /// An open list.
    type List: Read + Send + Drop;

    /// The end of an open state file, to which each write appends.
    type Log: Write + Send + Drop;

    /// Opens the list of that name; `-` is standard input.
    fn list(&self, name: &str) -> Result<Self::List, ReadError>;

    /// Opens the state file of that name for this run alone, and creates it if there is none. Returns its bytes and its end.
    fn state(&self, alloc: Global, name: &str) -> Result<(Vec<u8>, Self::Log), StateError>;
}

/// The streams of a run.
#[derive(Drop)]
pub struct Streams<O, E, P> {
    pub out: O,
    pub errors: E,
    /// Shows how far the run is.
    pub progress: P,
}

/// Writes the counts, and why not every file has its line. It allocates nothing.
fn report_end<E: Write>(errors: &mut E, report: &CheckReport, is_quiet: bool) {
    if !is_quiet {
        let _ = write_counts_line(errors, report.counts, report.findings);
    }
    let text = match report.end {
        CheckEnd::AllReported => "",
        CheckEnd::NamesUnread => "cannot read further names\n",
        CheckEnd::NamesUnended => "cannot read names: each must end in NUL\n",
        CheckEnd::Unwritten => "cannot write the lines\n",
        CheckEnd::Memory => "out of memory\n",
        CheckEnd::Unrecorded => "cannot write the state file\n",
    };
    let _ = errors.write_all(text.as_bytes());
}

/// Opens the list of names that the arguments name, if they name one.
fn open_list<L: Lists>(
    alloc: Global,
    lists: &L,
    asked: &CheckRequest,
) -> Result<Option<BufReader<L::List>>, ReadError> {
    let Some(name) = &asked.names_from else {
        return Ok(None);
    };
    match BufReader::new(alloc, lists.list(name.as_str())?) {
        Ok(list) => Ok(Some(list)),
        Err(_) => Err(ReadError::Memory),
    }
}

/// Opens the state file that the arguments name, if they name one.
fn open_state<L: Lists>(
    alloc: Global,
    lists: &L,
    asked: &CheckRequest,
) -> Result<Option<State<L::Log>>, StateError> {
    let Some(name) = &asked.state else {
        return Ok(None);
    };
    let (bytes, log) = lists.state(alloc, name.as_str())?;
    let state = State::open(alloc, bytes.as_slice(), log, asked.is_verifying)?;
    Ok(Some(state))
}

/// Reports why the state file is not used, and returns the exit status.
fn report_state<E: Write>(errors: &mut E, error: &StateError) -> u8
    ensures { result ≡ state_error_status error.now }
{
    let (what, why) = match error {
        StateError::Unread(why) => ("cannot use the state file: ", why.text()),
        StateError::InUse => ("cannot use the state file: ", "another run uses it"),
        StateError::Damaged(_) => ("cannot use the state file: line ", ""),
        StateError::Unwritten => ("cannot write the state file", ""),
        StateError::Memory => ("out of memory", ""),
    };
    let _ = match error {
        StateError::Damaged(line) => writeln!(errors, "{what}{line} is damaged"),
        _ => writeln!(errors, "{what}{why}"),
    };
    error.status()
}

/// Opens the list of names and the state file, and reports why one of them is not opened, with the exit status.
fn open_all<L: Lists, E: Write>(
    alloc: Global,
    lists: &L,
    asked: &CheckRequest,
    errors: &mut E,
) -> Result<(Option<BufReader<L::List>>, Option<State<L::Log>>), u8> {
    let list = match open_list(alloc, lists, asked) {
        Ok(list) => list,
        Err(error) => {
            let _ = writeln!(errors, "cannot read names: {}", error.text());
            return Err(LIST_UNREAD);
        }
    };
    match open_state(alloc, lists, asked) {
        Ok(state) => Ok((list, state)),
        Err(error) => Err(report_state(errors, &error)),
    }
}

/// Returns whether the reader of an output has gone away.
fn is_left<W>(out: &Noted<W>) -> bool {
    match out.reason() {
        Some(reason) => reason.kind() == ErrorKind::BrokenPipe,
        None => false,
    }
}

/// Does what the program's arguments ask for: checks the files of a directory and of a list, and writes a line for each. The
/// status is that of the check's report, or of what `answer` writes instead, 3 if the list of names cannot be read, or that of the
/// error of the state file.
pub fn program<
    R: Threads + Wait + Sync,
    F: Directory + Sync + Drop,
    L: Lists,
    O: Write + Send + Drop,
    E: Write + Send + Drop,
    P: Progress + Send + Drop,
>(
    rt: &R,
    alloc: Global,
    directory: F,
    lists: &L,
    words: Result<Vec<Vec<u8>>, AllocError>,
    streams: Streams<O, E, P>,
) -> Ended
    ensures memory { IfErr words (λ _. result.status ≡ 4) }
{
    let Streams {
        out,
        mut errors,
        progress,
    } = streams;
    let asked = match words {
        Ok(words) => asked(alloc, words.as_slice()),
        Err(_) => Err(Unasked::Memory),
    };
    let asked = match asked {
        Ok(asked) => asked,
        Err(unasked) => {
            let status = answer(&mut Tally::of(out), &mut errors, &unasked, FAILED);
            return Ended { status };
        }
    };
    let (list, state) = match open_all(alloc, lists, &asked, &mut errors) {
        Ok(opened) => opened,
        Err(status) => return Ended { status },
    };
    let is_resync = asked.is_resync;
    let source = CheckSource {
        directory: InStepDirectory {
            directory,
            is_resync,
        },
        state,
    };
    let (is_quiet, is_strict) = (asked.form.is_quiet, asked.is_strict);
    let (report, out) = check_all(rt, alloc, source, asked, list, Noted::of(out), progress);
    if !is_left(&out) {
        report_end(&mut errors, &report, is_quiet);
    }
    Ended {
        status: report.status(is_strict),
    }
}
