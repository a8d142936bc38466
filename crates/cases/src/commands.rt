//! Runs of `jri` and of `jri_mend` over a machine of memory: their lines, exit statuses, what they write and leave in the directory.

use crate::differences::Differences;
use crate::machine::Machine;
use crate::row::field;
use crate::texts::write_lines;
use jri_engine::{
    Mode, describe_request, many_request, program, program_for_headers, program_for_many,
};
use jri_machine::Devices;
use jri_mending::{is_of_trees, program_for_trees, trees_request};
use std::alloc::{AllocError, Global};
use std::io::{Error, ErrorKind, Result as IoResult};
use std::mem::replace;
use std::sync::Wait;
use std::thread::Threads;
use test_files::error::NotationError;
use test_files::files::file;
use test_files::pictures::picture;

/// The program that a row runs.
#[derive(Clone, Copy)]
pub(crate) enum Program {
    /// `jri`.
    Decode,
    /// `jri_mend`.
    Mend,
}

/// Returns the name and the content of what a line of the table with this sign gives.
pub(crate) fn named_by<'a>(line: &'a str, sign: char) -> Option<(&'a str, &'a str)> {
    line.strip_prefix(sign)?.trim_start().split_once(" | ")
}

/// Changes a machine as a word says.
fn set(machine: &mut Machine, word: &str) -> Result<(), NotationError> {
    match word.split_once('=') {
        Some(("room", digits)) => machine.space = digits.parse::<usize>()?,
        Some(("input", name)) => machine.read_from(name)?,
        Some(("device", name)) => machine.store(name, &[], true)?,
        Some(("old", name)) => machine.store(name, b"old\n", false)?,
        Some(("meanwhile", name)) => {
            let name = String::from_str(machine.alloc, name)?;
            drop(replace(&mut machine.taken_meanwhile, Some(name)));
        }
        Some(("size", digits)) => machine.claimed_size = Some(digits.parse::<u64>()?),
        None if word == "reader-gone" => machine.refusal = ErrorKind::BrokenPipe,
        None if word == "no-create" => machine.can_create = false,
        None if word == "no-rename" => machine.can_rename = false,
        None if word == "no-flush" => machine.can_flush = false,
        None if word == "no-sync" => machine.can_sync = false,
        None if word == "input-terminal" => machine.has_input_terminal = true,
        None if word == "output-terminal" => machine.has_output_terminal = true,
        _ => return Err(NotationError::Malformed),
    }
    Ok(())
}

/// Adds the files of a table to a machine.
fn write_files(alloc: Global, table: &str, machine: &mut Machine) -> Result<(), NotationError> {
    for line in table.lines() {
        if let Some((name, words)) = named_by(line, '=') {
            machine.store(name, file(alloc, words)?.as_slice(), false)?;
        }
    }
    Ok(())
}

/// Returns the bytes of a file of a table.
fn file_of(alloc: Global, table: &str, wanted: &str) -> Result<Vec<u8>, NotationError> {
    for line in table.lines() {
        if let Some((name, words)) = named_by(line, '=')
            && name == wanted
        {
            return file(alloc, words);
        }
    }
    Err(NotationError::Malformed)
}

/// Changes a machine as a command's settings say.
fn set_all(settings: &str, machine: &mut Machine) -> Result<(), NotationError> {
    for word in settings.split_whitespace() {
        set(machine, word)?;
    }
    Ok(())
}

/// Returns the arguments of a command; two texts mean arguments that cannot be read.
fn words_of(alloc: Global, line: &str) -> IoResult<Vec<String>> {
    match line {
        "<no text>" => return Err(Error::from(ErrorKind::InvalidData)),
        "<no memory>" => return Err(Error::from(ErrorKind::OutOfMemory)),
        _ => {}
    }
    let mut words = Vec::new(alloc);
    for word in line.split_whitespace() {
        words.push(String::from_str(alloc, word)?)?;
    }
    Ok(words)
}

/// Runs `jri` on a machine as its `main` does, and returns the exit status.
fn run_on<R: Threads + Wait + Sync, D: Devices>(
    rt: &R,
    alloc: Global,
    machine: &mut D,
    words: Vec<String>,
    errors: &mut Vec<u8>,
) -> u8 {
    let ended = match Mode::of(&words) {
        Mode::DecodeEach => {
            let request = many_request(alloc, &words);
            program_for_many(rt, alloc, machine, request, errors)
        }
        Mode::Describe => {
            let request = describe_request(alloc, &words);
            program_for_headers(alloc, machine, request, errors)
        }
        Mode::Decode => program(rt, alloc, machine, Ok(words), errors),
    };
    ended.status
}

/// Runs a program on a machine with the arguments of a command, and returns the exit status.
pub(crate) fn run<R: Threads + Wait + Sync, D: Devices>(
    rt: &R,
    alloc: Global,
    command: (Program, &str),
    machine: &mut D,
    errors: &mut Vec<u8>,
) -> u8 {
    match (command.0, words_of(alloc, command.1)) {
        (Program::Mend, Ok(words)) if is_of_trees(&words) => {
            let request = trees_request(alloc, &words);
            program_for_trees(alloc, machine, request, errors).status
        }
        (Program::Mend, words) => jri_mending::program(alloc, machine, words, errors).status,
        (Program::Decode, Ok(words)) => run_on(rt, alloc, machine, words, errors),
        (Program::Decode, Err(error)) => program(rt, alloc, machine, Err(error), errors).status,
    }
}

/// Returns the bytes of a field: an image in the notation of images, those of a file of the table after `@`, or lines that
/// are separated by `/`.
pub(crate) fn content(alloc: Global, table: &str, field: &str) -> Result<Vec<u8>, NotationError> {
    if let Some(wanted) = field.strip_prefix('@') {
        return file_of(alloc, table, wanted);
    }
    if field.starts_with("P5 ") || field.starts_with("P6 ") {
        return picture(alloc, field);
    }
    let mut text = String::new(alloc);
    if !field.is_empty() {
        write_lines(&mut text, field)?;
    }
    Ok(text.as_bytes().to_vec(alloc)?)
}

/// Compares bytes with those of a field, if it is not `*`.
pub(crate) fn compare_field(
    path: &str,
    table: &str,
    field: &str,
    found: &[u8],
    out: &mut Differences,
) {
    if field == "*" {
        return;
    }
    match content(out.alloc, table, field) {
        Ok(wanted) => out.compare_bytes(path, wanted.as_slice(), found),
        Err(error) => out.fail(error),
    }
}

/// Compares a file of the machine.
fn compare_file(machine: &Machine, path: &str, wanted: &[u8], out: &mut Differences) {
    match machine.kept(path) {
        Ok(Some(kept)) => out.compare_bytes(path, wanted, kept.as_slice()),
        Ok(None) => out.add(path, 0, " files"),
        Err(_) => out.fail(NotationError::Memory),
    }
}

/// Compares the files that a command makes, and returns their number.
fn compare_made(
    machine: &Machine,
    table: &str,
    files: &str,
    out: &mut Differences,
) -> Result<usize, NotationError> {
    let mut count: usize = 0;
    for made in files.split(';') {
        if let Some((name, field)) = made.split_once(" = ") {
            let wanted = content(out.alloc, table, field.trim())?;
            compare_file(machine, name.trim(), wanted.as_slice(), out);
            count = count.saturating_add(1);
        }
    }
    Ok(count)
}

/// Returns whether a file of this name is among those that a command makes.
pub(crate) fn makes(files: &str, name: &str) -> bool {
    for made in files.split(';') {
        if let Some((found, _field)) = made.split_once(" = ")
            && found.trim() == name
        {
            return true;
        }
    }
    false
}

/// Compares the files of a table that a command leaves unchanged, and returns their number.
fn compare_kept(
    machine: &Machine,
    table: &str,
    files: &str,
    out: &mut Differences,
) -> Result<usize, NotationError> {
    let mut count: usize = 0;
    for line in table.lines() {
        if let Some((name, words)) = named_by(line, '=')
            && !makes(files, name)
        {
            let wanted = file(out.alloc, words)?;
            compare_file(machine, name, wanted.as_slice(), out);
            count = count.saturating_add(1);
        }
    }
    Ok(count)
}

/// Runs a command on a machine, and compares what comes of it.
fn compare_run<R: Threads + Wait + Sync>(
    rt: &R,
    program: Program,
    table: &str,
    line: &str,
    machine: &mut Machine,
    out: &mut Differences,
) -> Result<(), NotationError> {
    let alloc = out.alloc;
    write_files(alloc, table, machine)?;
    set_all(field(line, 1), machine)?;
    let wanted = u64::from(field(line, 3).parse::<u8>()?);
    let mut errors = Vec::new(alloc);
    let command = (program, field(line, 0));
    let status = run(rt, alloc, command, machine, &mut errors);
    out.compare_numbers("status", wanted, u64::from(status));
    compare_field(
        "standard error",
        table,
        field(line, 2),
        errors.as_slice(),
        out,
    );
    let written = machine.written()?;
    compare_field(
        "standard output",
        table,
        field(line, 4),
        written.as_slice(),
        out,
    );
    let made = compare_made(machine, table, field(line, 5), out)?;
    let kept = compare_kept(machine, table, field(line, 5), out)?;
    let (wanted, found) = (made.saturating_add(kept), machine.files.len());
    out.compare_numbers("files", wanted as u64, found as u64);
    Ok(())
}

/// Checks a row of a table of commands: what a line has after its sign.
pub(crate) fn check_command<R: Threads + Wait + Sync>(
    rt: &R,
    program: Program,
    table: &str,
    line: &str,
    out: &mut Differences,
) {
    let Ok(mut machine) = Machine::new(out.alloc) else {
        return out.fail(NotationError::Memory);
    };
    if let Err(error) = compare_run(rt, program, table, line, &mut machine, out) {
        out.fail(error);
    }
}
