//! What the headers of files say.

ghost use Rattle.std.specs.Prelude.{◌≡◌, ◌≤◌, IfErr, IfOk};

use crate::many::worse_of;
use crate::running::FAILED;
use jr_base::Tally;
use jr_base::limits::MAX_FILE_BYTES;
use jr_head::Head;
use jr_picture::Fault;
use jr_segments::Refusal;
use jri_file::read_file_head;
use jri_machine::{Devices, Ended, STREAM, Unasked, answer};
use jri_words::{DescribeRequest, describe, fault_status};
use std::alloc::Global;
use std::io::{ErrorKind, Result as IoResult, Write};

/// Returns whether a file, or standard input, is known to be longer than a file may be.
fn is_too_long<D: Devices>(devices: &D, source: Option<&str>) -> bool {
    devices
        .size(source)
        .is_some_and(|size| size > MAX_FILE_BYTES as u64)
}

/// Reads the header of the file of a name, or of standard input.
fn head_of<D: Devices>(alloc: Global, devices: &D, name: &str) -> Result<Head, Fault> {
    let source = if name == STREAM { None } else { Some(name) };
    if is_too_long(devices, source) {
        return Err(Fault::Refused(Refusal::TooLong));
    }
    let Some(name) = source else {
        return read_file_head(alloc, &mut Tally::of(devices.input()));
    };
    match devices.open(name) {
        Ok(file) => read_file_head(alloc, &mut Tally::of(file)),
        Err(_) => Err(Fault::NoFile),
    }
}

/// Writes the line of a file. Returns the file's exit status: 0, 1 if it cannot be read, 2 if it is refused.
fn describe_one<D: Devices, W: Write>(
    alloc: Global,
    devices: &D,
    name: &str,
    is_json: bool,
    out: &mut W,
) -> IoResult<u8>
    ensures { IfOk result (λ status. status ≤ 2) }
{
    let head = head_of(alloc, devices, name);
    let line = describe(alloc, name, &head, is_json)?;
    out.write_all(line.as_bytes())?;
    Ok(match head {
        Ok(_) => 0,
        Err(fault) => fault_status(fault),
    })
}

/// Writes the lines of all files, in order. Returns the exit status of all.
fn describe_each<D: Devices, W: Write>(
    alloc: Global,
    devices: &D,
    request: &DescribeRequest,
    out: &mut W,
) -> IoResult<u8>
    ensures { IfOk result (λ status. status ≤ 2) }
{
    let mut status = 0;
    for k in 0..request.files.len() {
        let name = request.files[k].as_str();
        let of_file = describe_one(alloc, devices, name, request.is_json, out)?;
        status = worse_of(status, of_file);
    }
    out.flush()?;
    Ok(status)
}

/// Does what `jri --info` is asked for on these devices: writes a line for each file, what its header says or why it
/// says nothing, and decodes no interval. The status is the first that applies of 1 (a file or the output failed, or
/// memory ran out), 2 (a file is refused, or the arguments are wrong) and 0.
pub fn program_for_headers<D: Devices, E: Write>(
    alloc: Global,
    devices: &D,
    request: Result<DescribeRequest, Unasked>,
    errors: &mut E,
) -> Ended
    ensures { result.status ≤ 2 }
{
    let request = match request {
        Ok(request) => request,
        Err(unasked) => {
            let status = answer(&mut Tally::of(devices.output()), errors, &unasked, FAILED);
            return Ended { status };
        }
    };
    match describe_each(alloc, devices, &request, &mut devices.output()) {
        Ok(status) => Ended { status },
        Err(error) => {
            if error.kind() != ErrorKind::BrokenPipe {
                let _ = writeln!(errors, "cannot write to standard output");
            }
            Ended { status: FAILED }
        }
    }
}
