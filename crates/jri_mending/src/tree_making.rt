//! The mended files of a directory. Nothing in it is replaced.

ghost use Rattle.std.specs.Prelude.{IfOk};
ghost use Rattle.std.specs.String.{string_bytes};
ghost use Rattle.jri_machine.specs.Steps.{IsInDirectory};
ghost use Rattle.jri_mending.specs.Making.{MakesWithin};

use crate::asking::TreesRequest;
use crate::report::report_of;
use crate::tree_counts::NameState;
use crate::tree_lines::append_unwritten;
use crate::tree_plan::plan;
use crate::trees::TreeFile;
use crate::writing::write_part;
use jr_picture::Fault;
use jri_machine::{Devices, Existing};
use jri_words::Ending;
use std::alloc::{AllocError, Global};

/// Returns a name in a directory.
fn name_in(alloc: Global, directory: &str, name: &str) -> Result<String, AllocError>
    ensures { IfOk result (λ whole. IsInDirectory directory.now (string_bytes whole)) }
{
    let mut whole = String::from_str(alloc, directory)?;
    whole.push_str("/")?;
    whole.push_str(name)?;
    Ok(whole)
}

/// Makes a directory, unless something has its name. A failure shows when a file of it is made.
fn make_directory<D: Devices>(devices: &mut D, directory: &str, name: &str)
    requires { IsInDirectory directory.now name.now }
    ensures { MakesWithin directory.now (D.steps devices.old) (D.steps devices.new) }
{
    let _ = devices.make_directory(name);
}

/// Makes the directories of a name in a directory, unless they are there.
fn make_directories<D: Devices>(
    alloc: Global,
    devices: &mut D,
    directory: &str,
    name: &str,
) -> Result<(), AllocError>
    ensures { MakesWithin directory.now (D.steps devices.old) (D.steps devices.new) }
{
    for at in 0..name.len() {
        if name.as_bytes()[at] == b'/'
            && let Some(parent) = name.get(..at)
        {
            let whole = name_in(alloc, directory, parent)?;
            make_directory(devices, directory, whole.as_str());
        }
    }
    Ok(())
}

/// Writes a new file of a directory, in directories of it that are made. Returns how that ended.
fn make_file<D: Devices>(
    alloc: Global,
    devices: &mut D,
    directory: &str,
    name: &str,
    target: &str,
    bytes: &[u8],
) -> Ending
    requires { IsInDirectory directory.now target.now }
    ensures { MakesWithin directory.now (D.steps devices.old) (D.steps devices.new) }
{
    if make_directories(alloc, devices, directory, name).is_err() {
        return Ending {
            outcome: Err(Fault::Memory),
            reason: None,
        };
    }
    write_part(
        alloc,
        devices,
        bytes,
        report_of(&[]),
        target,
        Existing::Kept,
    )
}

/// Mends the files of a name to a new file of the directory, and appends its line.
pub(crate) fn mend_name<D: Devices>(
    alloc: Global,
    devices: &mut D,
    request: &TreesRequest,
    file: &TreeFile,
    line: &mut String,
) -> Result<NameState, AllocError>
    ensures { MakesWithin (string_bytes request.now.directory) (D.steps devices.old) (D.steps devices.new) }
{
    let directory = request.directory.as_str();
    let name = str::from_utf8(file.name.as_slice()).unwrap_or("");
    let target = name_in(alloc, directory, name)?;
    let (state, bytes) = plan(alloc, devices, request, file, target.as_str(), line)?;
    let Some(bytes) = bytes else {
        return Ok(state);
    };
    let ending = make_file(alloc, devices, directory, name, target.as_str(), &bytes);
    if ending.outcome.is_ok() {
        return Ok(state);
    }
    line.clear();
    let is_json = request.each.is_json;
    append_unwritten(alloc, line, file.name.as_slice(), &ending, is_json)?;
    Ok(NameState::Failed)
}
