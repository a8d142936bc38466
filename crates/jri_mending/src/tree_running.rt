//! What the program does with directories.

ghost use Rattle.std.specs.Prelude.{◌≡◌, ◌≤◌, [], IfOk, IfErr, IfSome};
ghost use Rattle.std.specs.String.{string_bytes};
ghost use Rattle.jri_machine.specs.Steps.{Follow};
ghost use Rattle.jri_mending.specs.Making.{MakesWithin};

use crate::asking::TreesRequest;
use crate::running::{FAILED, WRONG};
use crate::tree_counts::NameCounts;
use crate::tree_making::mend_name;
use crate::trees::{next_file, search};
use jr_base::{Printable, Tally};
use jri_machine::{Devices, Ended, Unasked, answer};
use std::alloc::Global;
use std::io::{Error, ErrorKind, Result as IoResult, Write};

/// The exit status if a directory that is searched cannot be read.
const UNREAD: u8 = 3;

/// The text for mended files that would be among their copies.
const WITHIN: &str =
    "refusing to write into a directory that is read, or around it; name another DIR";

/// Reports that a directory cannot be listed. Returns the exit status, 2 if it is not a directory; `None` if it is listed.
fn report_unlisted<D: Devices, E: Write>(
    devices: &D,
    name: &str,
    status: u8,
    errors: &mut E,
) -> Option<u8>
    requires { status ≤ 4 }
    ensures { IfSome result (λ s. s ≤ 4) }
{
    let (status, why) = match devices.entries(name) {
        Ok(Some(_)) => return None,
        Ok(None) => (WRONG, "not a directory"),
        Err(error) => (status, error.text()),
    };
    let _ = writeln!(errors, "{}: cannot be read: {why}", Printable(name));
    Some(status)
}

/// Returns whether the directory of the mended files is one that is read, or one of both lies in the other.
fn is_among<D: Devices>(devices: &D, directory: &str, trees: &[String]) -> bool {
    for tree in trees {
        if devices.is_within(directory, tree.as_str())
            || devices.is_within(tree.as_str(), directory)
        {
            return true;
        }
    }
    false
}

/// Reports why directories are not mended, with the exit status; `None` if they are.
fn report_objection<D: Devices, E: Write>(
    devices: &D,
    request: &TreesRequest,
    errors: &mut E,
) -> Option<u8>
    ensures { IfSome result (λ s. s ≤ 4) }
{
    let trees = &request.each.copies;
    for tree in trees {
        if let Some(status) = report_unlisted(devices, tree.as_str(), UNREAD, errors) {
            return Some(status);
        }
    }
    let directory = request.directory.as_str();
    if let Some(status) = report_unlisted(devices, directory, FAILED, errors) {
        return Some(status);
    }
    if is_among(devices, directory, trees) {
        let _ = writeln!(errors, "{WITHIN}");
        return Some(WRONG);
    }
    None
}

/// Writes a line at once.
fn write_line<W: Write>(out: &mut W, line: &str) -> IoResult<()> {
    out.write_all(line.as_bytes())?;
    out.flush()
}

/// Mends the files of each name, and writes its line and that of the counts. Returns the exit status.
fn mend_each<D: Devices>(alloc: Global, devices: &mut D, request: &TreesRequest) -> IoResult<u8>
    ensures made { MakesWithin (string_bytes request.now.directory) (D.steps devices.old) (D.steps devices.new) }
    ensures status { IfOk result (λ status. status ≤ 4) }
{
    let mut trees = search(alloc, devices, &request.each.copies)?;
    let mut out = devices.output();
    let mut counts = NameCounts::NONE;
    for _ in 0..u64::MAX {
        let Some(file) = next_file(alloc, devices, &mut trees)? else {
            break;
        };
        let mut line = String::new(alloc);
        let state = mend_name(alloc, devices, request, &file, &mut line)?;
        counts.count(state);
        write_line(&mut out, line.as_str())?;
    }
    let mut line = String::new(alloc);
    counts.append_to(&mut line, request.each.is_json)?;
    write_line(&mut out, line.as_str())?;
    Ok(counts.status())
}

/// Reports why not all names have a line, unless the reader of the lines has gone away, and returns the exit status.
fn report_end<E: Write>(errors: &mut E, error: &Error) -> u8
    ensures { result ≤ 4 }
{
    let _ = match error.kind() {
        ErrorKind::BrokenPipe => Ok(()),
        ErrorKind::OutOfMemory => writeln!(errors, "out of memory"),
        _ => writeln!(errors, "cannot write to standard output"),
    };
    FAILED
}

/// Mends directories, or reports why it does not. Returns the exit status.
fn mend_trees<D: Devices, E: Write>(
    alloc: Global,
    devices: &mut D,
    request: &TreesRequest,
    errors: &mut E,
) -> u8
    ensures made { MakesWithin (string_bytes request.now.directory) (D.steps devices.old) (D.steps devices.new) }
    ensures status { result ≤ 4 }
{
    if let Some(status) = report_objection(devices, request, errors) {
        return status;
    }
    match mend_each(alloc, devices, request) {
        Ok(status) => status,
        Err(error) => report_end(errors, &error),
    }
}

/// Does what `jri_mend --trees` is asked for on these devices: mends the files of each name that differ to a new file of the
/// directory, and writes a line for each name. Nothing is replaced. The status is the greatest of those of the names, as
/// `program` has them; 2 for wrong arguments, 3 if a directory cannot be read.
pub fn program_for_trees<D: Devices, E: Write>(
    alloc: Global,
    devices: &mut D,
    request: Result<TreesRequest, Unasked>,
    errors: &mut E,
) -> Ended
    ensures made { IfOk request (λ r. MakesWithin (string_bytes r.directory) (D.steps devices.old) (D.steps devices.new)) }
    ensures untouched { IfErr request (λ _. Follow (D.steps devices.old) (D.steps devices.new) []) }
    ensures status { result.status ≤ 4 }
{
    let status = match &request {
        Ok(request) => mend_trees(alloc, devices, request, errors),
        Err(unasked) => answer(&mut Tally::of(devices.output()), errors, unasked, FAILED),
    };
    Ended { status }
}
