//! What is to be made of the files that have a name.

ghost use Rattle.std.specs.Prelude.{◌<◌, ◌≤◌, length};
ghost use Rattle.jr_mend.specs.declared.choice.TheConstants.{MAX_COPIES};

use crate::asking::TreesRequest;
use crate::mended_file::{is_changed, mended_of};
use crate::preparing::prepare;
use crate::reading::{CopyError, read_files};
use crate::tree_counts::NameState;
use crate::tree_lines::{append_equal, append_error, append_mended, append_skipped, append_there};
use crate::trees::TreeFile;
use jr_mend::MAX_COPIES;
use jri_machine::{Destination, Devices};
use std::alloc::{AllocError, Global};
use std::mem::replace;

/// What comes of a name, and the file that is to be written, if there is one.
pub(crate) type NamePlan = (NameState, Option<Vec<u8>>);

/// Returns whether all files have the bytes of the first.
fn are_equal(files: &[Vec<u8>]) -> bool {
    let Some(first) = files.first() else {
        return true;
    };
    for file in files {
        if file.as_slice() != first.as_slice() {
            return false;
        }
    }
    true
}

/// Takes the first of several files.
fn take_first(alloc: Global, files: &mut [Vec<u8>]) -> Vec<u8>
    requires { 0 < length files.old }
{
    replace(&mut files[0], Vec::new(alloc))
}

/// Appends the line of a name of which a copy has an error. Nothing is written.
fn plan_error(
    alloc: Global,
    request: &TreesRequest,
    file: &TreeFile,
    tree: usize,
    error: CopyError,
    line: &mut String,
) -> Result<NamePlan, AllocError> {
    let is_json = request.each.is_json;
    append_error(alloc, line, file.name.as_slice(), tree, error, is_json)?;
    Ok((NameState::of_error(error.status()), None))
}

/// Returns the number of the directory of a copy.
fn tree_of(file: &TreeFile, copy: usize) -> usize {
    match file.trees.get(copy) {
        Some(tree) => *tree,
        None => copy,
    }
}

/// Mends the files of a name, which differ, and appends its line.
fn plan_mended(
    alloc: Global,
    request: &TreesRequest,
    file: &TreeFile,
    files: &mut [Vec<u8>],
    line: &mut String,
) -> Result<NamePlan, AllocError>
    requires some { 0 < length files.old }
    requires few { length files.old ≤ MAX_COPIES }
{
    let mended = match prepare(alloc, &request.each, files) {
        Ok(prepared) => match mended_of(alloc, &request.each, files, &prepared) {
            Ok(outcome) => Ok((is_changed(&outcome, &prepared), outcome)),
            Err(failure) => Err(failure),
        },
        Err(failure) => Err(failure),
    };
    let (is_mended, outcome) = match mended {
        Ok(mended) => mended,
        Err((copy, error)) => {
            return plan_error(alloc, request, file, tree_of(file, copy), error, line);
        }
    };
    let trees = request.each.copies.len();
    append_mended(line, file, &outcome, trees, request.each.is_json)?;
    let state = if outcome.is_damaged() {
        NameState::Damaged
    } else {
        NameState::Mended
    };
    let bytes = if is_mended {
        outcome.mended.file
    } else {
        take_first(alloc, files)
    };
    Ok((state, Some(bytes)))
}

/// Compares the files of a name, mends them if they differ, and appends its line.
fn plan_files(
    alloc: Global,
    request: &TreesRequest,
    file: &TreeFile,
    files: &mut [Vec<u8>],
    line: &mut String,
) -> Result<NamePlan, AllocError>
    requires some { 0 < length files.old }
    requires few { length files.old ≤ MAX_COPIES }
{
    if !are_equal(files) {
        return plan_mended(alloc, request, file, files, line);
    }
    let trees = request.each.copies.len();
    append_equal(line, file, request.is_copying, trees, request.each.is_json)?;
    if !request.is_copying {
        return Ok((NameState::Equal, None));
    }
    Ok((NameState::Equal, Some(take_first(alloc, files))))
}

/// Reads the files of a name, unless the directory of the mended files has the target, mends them if they differ, and appends
/// the line of the name.
pub(crate) fn plan<D: Devices>(
    alloc: Global,
    devices: &D,
    request: &TreesRequest,
    file: &TreeFile,
    target: &str,
    line: &mut String,
) -> Result<NamePlan, AllocError> {
    let (name, is_json) = (file.name.as_slice(), request.each.is_json);
    if file.is_skipped {
        append_skipped(line, name, is_json)?;
        return Ok((NameState::Skipped, None));
    }
    if let Some((tree, error)) = file.error {
        return plan_error(alloc, request, file, tree, error, line);
    }
    let source = match file.paths.first() {
        Some(path) => Some(path.as_str()),
        None => None,
    };
    if !matches!(devices.destination(target, source), Destination::New) {
        append_there(line, name, is_json)?;
        return Ok((NameState::There, None));
    }
    match read_files(alloc, devices, &file.paths) {
        Ok(mut files) => {
            if files.is_empty() || files.len() > MAX_COPIES {
                return plan_error(alloc, request, file, 0, CopyError::Memory, line);
            }
            plan_files(alloc, request, file, &mut files, line)
        }
        Err((copy, error)) => { plan_error(alloc, request, file, tree_of(file, copy), error, line) }
    }
}
