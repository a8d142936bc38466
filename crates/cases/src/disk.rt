//! Runs of `jri` and of `jri_mend` on the machine's own disk, in a directory that is made for each.

use crate::commands::{Program, compare_field, content, makes, named_by, run};
use crate::differences::Differences;
use crate::row::field;
use jri_machine::{Entry, EntryKind, Machine, entries_in};
use std::alloc::Global;
use std::fs;
use std::io::Result as IoResult;
use std::sync::Wait;
use std::thread::Threads;
use test_files::error::NotationError;
use test_files::files::file;

/// The directory of a run.
const DIRECTORY: &str = "disk";

/// Returns the name of a file in the directory.
fn path_of(out: &Differences, name: &str) -> Result<String, NotationError> {
    Ok(format!(in out.alloc; "{DIRECTORY}/{name}")?)
}

/// Returns a failure of the disk as one of the table: its row cannot be checked.
fn unusable<T: Drop>(made: IoResult<T>) -> Result<T, NotationError> {
    made.or(Err(NotationError::Malformed))
}

/// Makes the directory, with the files of a table.
fn make_files(rt: &HostRuntime, table: &str, out: &Differences) -> Result<(), NotationError> {
    unusable(fs::create_dir(rt, DIRECTORY))?;
    for line in table.lines() {
        if let Some((name, words)) = named_by(line, '=') {
            let bytes = file(out.alloc, words)?;
            let path = path_of(out, name)?;
            if let Some((directory, _)) = path.as_str().rsplit_once('/') {
                unusable(fs::create_dir_all(rt, directory))?;
            }
            unusable(fs::write(rt, path.as_str(), bytes))?;
        }
    }
    Ok(())
}

/// Compares a file of the directory with these bytes.
fn compare_file(
    rt: &HostRuntime,
    name: &str,
    wanted: &[u8],
    out: &mut Differences,
) -> Result<(), NotationError> {
    let path = path_of(out, name)?;
    match fs::read(rt, path.as_str()) {
        Ok(found) => out.compare_bytes(name, wanted, found.as_slice()),
        Err(_) => out.add(name, 0, " files"),
    }
    Ok(())
}

/// Compares the files that a run makes, and those of the table that it leaves unchanged. Returns their number.
fn compare_files(
    rt: &HostRuntime,
    table: &str,
    files: &str,
    out: &mut Differences,
) -> Result<usize, NotationError> {
    let mut count: usize = 0;
    for made in files.split(';') {
        if let Some((name, field)) = made.split_once(" = ") {
            let wanted = content(out.alloc, table, field.trim())?;
            compare_file(rt, name.trim(), wanted.as_slice(), out)?;
            count = count.saturating_add(1);
        }
    }
    for line in table.lines() {
        if let Some((name, words)) = named_by(line, '=')
            && !makes(files, name)
        {
            let wanted = file(out.alloc, words)?;
            compare_file(rt, name, wanted.as_slice(), out)?;
            count = count.saturating_add(1);
        }
    }
    Ok(count)
}

/// Adds the directories among entries, and returns the number of the others.
fn add_directories(
    alloc: Global,
    waiting: &mut Vec<String>,
    entries: &[Entry],
) -> Result<usize, NotationError> {
    let mut count: usize = 0;
    for entry in entries {
        match (entry.kind, str::from_utf8(entry.name.as_slice())) {
            (EntryKind::Directory, Ok(name)) => {
                waiting.push(String::from_str(alloc, name)?)?;
            }
            _ => count = count.saturating_add(1),
        }
    }
    Ok(count)
}

/// Returns the number of files below the directory.
fn count_files(rt: &HostRuntime) -> Result<usize, NotationError> {
    let mut waiting = Vec::new(rt.alloc());
    waiting.push(String::from_str(rt.alloc(), DIRECTORY)?)?;
    let mut count: usize = 0;
    for _ in 0..u64::MAX {
        let Some(directory) = waiting.pop() else {
            break;
        };
        match entries_in(rt, directory.as_str()) {
            Ok(Some(entries)) => {
                let files = add_directories(rt.alloc(), &mut waiting, &entries)?;
                count = count.saturating_add(files);
            }
            _ => return Err(NotationError::Malformed),
        }
    }
    Ok(count)
}

/// Makes a run in the directory, and compares what comes of it.
fn compare_run<R: Threads + Wait + Sync>(
    host: &HostRuntime,
    rt: &R,
    table: &str,
    line: &str,
    out: &mut Differences,
) -> Result<(), NotationError> {
    make_files(host, table, out)?;
    let wanted = u64::from(field(line, 2).parse::<u8>()?);
    let mut errors = Vec::new(out.alloc);
    let command = match field(line, 0).split_once(' ') {
        Some(("jri", words)) => (Program::Decode, words),
        Some(("jri_mend", words)) => (Program::Mend, words),
        _ => return Err(NotationError::Malformed),
    };
    let status = run(
        rt,
        out.alloc,
        command,
        &mut Machine { rt: host },
        &mut errors,
    );
    out.compare_numbers("status", wanted, u64::from(status));
    compare_field(
        "standard error",
        table,
        field(line, 1),
        errors.as_slice(),
        out,
    );
    let files = compare_files(host, table, field(line, 3), out)?;
    out.compare_numbers("files", files as u64, count_files(host)? as u64);
    Ok(())
}

/// Checks a row of a table of runs on the disk: what a line has after `&`.
pub(crate) fn check_on_disk<R: Threads + Wait + Sync>(
    host: &HostRuntime,
    rt: &R,
    table: &str,
    line: &str,
    out: &mut Differences,
) {
    if let Err(error) = compare_run(host, rt, table, line, out) {
        out.fail(error);
    }
    let _ = fs::remove_dir_all(host, DIRECTORY);
}
