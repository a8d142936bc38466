//! What the program does with its arguments.

ghost use Rattle.std.specs.Prelude.{◌≡◌, ◌<◌, ◌≤◌, IfOk, is_ok, length};
ghost use Rattle.jr_mend.specs.declared.choice.TheConstants.{MAX_COPIES};
ghost use Rattle.jri_machine.specs.Steps.{LeavesFile};

use crate::asking::{MendRequest, asked};
use crate::mended_file::{MendedFile, is_changed, mended_of};
use crate::preparing::{Prepared, prepare};
use crate::reading::{CopyError, read_files};
use crate::report::{object_of, report_of, write_lines, write_prepared};
use crate::writing::{write_out, write_part};
use jr_base::{Printable, Tally};
use jr_mend::MAX_COPIES;
use jr_picture::{Fault, Report};
use jri_machine::{Destination, Devices, Ended, Existing, Unasked, answer, unreported, wrong};
use jri_words::{Ending, Target, unwritten};
use std::alloc::Global;
use std::io::{Result as IoResult, Write};

/// The exit status if memory runs out or the output fails.
pub(crate) const FAILED: u8 = 4;

/// The exit status of wrong arguments.
pub(crate) const WRONG: u8 = 2;

/// The text for arguments that are not text.
const NOT_TEXT: &str = "an argument is not valid UTF-8\n";

/// The text for a file that would go to a terminal.
const ONTO_TERMINAL: &str = "refusing to write the file to a terminal; use -o FILE\n";

/// The text for a file that would replace a copy.
const OWN_INPUT: &str = "refusing to replace a file that is read; name another FILE\n";

/// Returns whether a file of this name would replace a copy.
fn is_copy<D: Devices>(devices: &D, copies: &[String], name: &str) -> bool {
    for copy in copies {
        if matches!(
            devices.destination(name, Some(copy.as_str())),
            Destination::Source
        ) {
            return true;
        }
    }
    false
}

/// Returns what the arguments ask for, on a machine whose output may be a terminal.
fn requested<D: Devices>(
    alloc: Global,
    devices: &D,
    words: IoResult<Vec<String>>,
) -> Result<MendRequest, Unasked>
    ensures some { IfOk result (λ a. 1 ≤ length a.copies.items) }
    ensures few { IfOk result (λ a. length a.copies.items ≤ MAX_COPIES) }
{
    let words = match words {
        Ok(words) => words,
        Err(error) => return Err(unreported(alloc, &error, NOT_TEXT)),
    };
    let asked = asked(alloc, &words)?;
    match &asked.target {
        Target::Output if devices.is_output_terminal() => Err(wrong(alloc, ONTO_TERMINAL)),
        Target::File(name) if is_copy(devices, &asked.copies, name.as_str()) => {
            Err(wrong(alloc, OWN_INPUT))
        }
        _ => Ok(asked),
    }
}

/// Writes a file, which is replaced once it is whole, or into a device.
fn write_file<D: Devices>(
    alloc: Global,
    devices: &mut D,
    file: &[u8],
    report: Report,
    name: &str,
) -> Ending
    ensures { LeavesFile (D.are_devices devices.old) Existing.Replaced name.now (D.steps devices.old) (D.steps devices.new) (is_ok result.outcome) }
{
    if let Destination::WrittenInto = devices.destination(name, None) {
        return match devices.open_device(name) {
            Ok(mut device) => write_out(&mut device, file, report),
            Err(error) => unwritten(error),
        };
    }
    write_part(alloc, devices, file, report, name, Existing::Replaced)
}

/// Writes the mended file to its destination.
fn write_mended<D: Devices>(
    alloc: Global,
    devices: &mut D,
    target: &Target,
    file: &[u8],
    report: Report,
) -> Ending {
    match target {
        Target::Output | Target::AnyOutput => write_out(&mut devices.output(), file, report),
        Target::File(name) => write_file(alloc, devices, file, report, name.as_str()),
    }
}

/// Reports why the mended file is not written, and returns the exit status.
fn report_unwritten<E: Write>(errors: &mut E, ending: &Ending) -> u8 {
    let _ = match (ending.outcome, ending.reason) {
        (Err(Fault::Memory), _) => writeln!(errors, "out of memory"),
        (_, Some(reason)) => writeln!(errors, "cannot write the file: {reason}"),
        _ => writeln!(errors, "cannot write the file"),
    };
    FAILED
}

/// Writes the report, and returns the exit status: 1 if an interval is damaged in all copies.
fn report_mended<D: Devices, E: Write>(
    alloc: Global,
    devices: &D,
    asked: &MendRequest,
    outcome: &MendedFile,
    prepared: &Prepared,
    is_mended: bool,
    errors: &mut E,
) -> u8 {
    let status = if outcome.is_damaged() { 1 } else { 0 };
    if !asked.is_json {
        let _ = write_prepared(alloc, errors, prepared);
        let _ = write_lines(alloc, errors, outcome, is_mended);
        return status;
    }
    let Ok(object) = object_of(alloc, outcome, prepared, is_mended) else {
        let _ = writeln!(errors, "out of memory");
        return FAILED;
    };
    match &asked.target {
        Target::File(_) => {
            let mut out = devices.output();
            if out.write_all(object.as_bytes()).is_err() || out.flush().is_err() {
                let _ = writeln!(errors, "cannot write to standard output");
                return FAILED;
            }
        }
        _ => {
            let _ = errors.write_all(object.as_bytes());
        }
    }
    status
}

/// Returns the name of a copy, for a line.
fn shown(names: &[String], copy: usize) -> Printable<'_> {
    match names.get(copy) {
        Some(name) => Printable(name.as_str()),
        None => Printable(""),
    }
}

/// Returns the file that is written: the mended one, or the first copy as it is.
fn file_of<'a>(is_mended: bool, mended: &'a [u8], first: &'a [u8]) -> &'a [u8] {
    if is_mended { mended } else { first }
}

/// Writes the mended file, the first copy as it is if all of it is sound, and returns the exit status.
fn write_outcome<D: Devices, E: Write>(
    alloc: Global,
    devices: &mut D,
    asked: &MendRequest,
    first: &[u8],
    outcome: &MendedFile,
    prepared: &Prepared,
    errors: &mut E,
) -> u8 {
    let choices = outcome.mended.choices.as_slice();
    let is_mended = is_changed(outcome, prepared);
    let file = file_of(is_mended, outcome.mended.file.as_slice(), first);
    let ending = write_mended(alloc, devices, &asked.target, file, report_of(choices));
    if ending.outcome.is_err() {
        return report_unwritten(errors, &ending);
    }
    report_mended(alloc, devices, asked, outcome, prepared, is_mended, errors)
}

/// Reports why there is no mended file, and returns the exit status.
fn report_failure<E: Write>(errors: &mut E, names: &[String], copy: usize, error: CopyError) -> u8 {
    let _ = match error {
        CopyError::TooLong | CopyError::Memory => writeln!(errors, "{error}"),
        _ => writeln!(errors, "{}: {error}", shown(names, copy)),
    };
    error.status()
}

/// Prepares files, mends them, writes the mended one, and returns the exit status.
fn mend_files<D: Devices, E: Write>(
    alloc: Global,
    devices: &mut D,
    asked: &MendRequest,
    files: &mut [Vec<u8>],
    errors: &mut E,
) -> u8
    requires some { 0 < length files.old }
    requires few { length files.old ≤ MAX_COPIES }
{
    let prepared = match prepare(alloc, asked, files) {
        Ok(prepared) => prepared,
        Err((copy, error)) => return report_failure(errors, &asked.copies, copy, error),
    };
    match mended_of(alloc, asked, files, &prepared) {
        Ok(outcome) => {
            let first = &files[0];
            write_outcome(alloc, devices, asked, first, &outcome, &prepared, errors)
        }
        Err((copy, error)) => report_failure(errors, &asked.copies, copy, error),
    }
}

/// Does what the program's arguments ask for on these devices, and reports it. The status is 0 if each interval is
/// sound, 1 if one is damaged in all copies, 2 for wrong arguments and copies of another file, 3 for copies that are
/// not read, 4 for memory and the output.
pub fn program<D: Devices, E: Write>(
    alloc: Global,
    devices: &mut D,
    words: IoResult<Vec<String>>,
    errors: &mut E,
) -> Ended {
    let asked = match requested(alloc, devices, words) {
        Ok(asked) => asked,
        Err(unasked) => {
            let status = answer(&mut Tally::of(devices.output()), errors, &unasked, FAILED);
            return Ended { status };
        }
    };
    let status = match read_files(alloc, devices, &asked.copies) {
        Ok(mut files) => mend_files(alloc, devices, &asked, &mut files, errors),
        Err((copy, error)) => report_failure(errors, &asked.copies, copy, error),
    };
    Ended { status }
}
