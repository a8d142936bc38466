//! The decoding of many files into a directory.

ghost use Rattle.std.specs.Prelude.{◌≡◌, ◌≤◌, IfOk, IfErr, List, [], ℕ, is_ok, length};
ghost use Rattle.std.specs.String.{string_bytes};
ghost use Rattle.jr_base.specs.declared.limits.TheConstants.{MAX_WORKERS};
ghost use Rattle.jri_machine.specs.Steps.{Follow, IsInDirectory, LeavesFile};
ghost use Rattle.jri_words.specs.Images.{DecodesEach, is_picture_status, worse};

use crate::running::{DecodeOptions, FAILED, ImageFile, decode_to_part};
use jr_base::Tally;
use jr_cut::Break;
use jr_picture::Fault;
use jri_machine::{Destination, Devices, Ended, Existing, Unasked, answer};
use jri_words::{
    Ending, ManyRequest, Names, Verbosity, image_name, report_breaks, report_ending, unwritten,
};
use std::alloc::Global;
use std::io::{Error, ErrorKind, Write};
use std::sync::Wait;
use std::thread::Threads;

/// Returns the first that applies of the exit statuses 1, 2, 3 and 0.
pub(crate) fn worse_of(a: u8, b: u8) -> u8
    ensures { result ≡ worse a b }
{
    if a == 1 || b == 1 {
        1
    } else if a == 2 || b == 2 {
        2
    } else if a == 3 || b == 3 {
        3
    } else {
        0
    }
}

/// Decodes a file into a new image. A file that has the image's name keeps it, also one that is made meanwhile.
fn decode_into_new<T: Threads + Wait + Sync, D: Devices>(
    rt: &T,
    alloc: Global,
    devices: &mut D,
    decoding: DecodeOptions,
    file: &str,
    image: &str,
    breaks: &mut Vec<Break>,
) -> Ending
    requires some { 1 ≤ decoding.workers }
    requires few { decoding.workers ≤ MAX_WORKERS }
    ensures { LeavesFile (λ _. ⊥) Existing.Kept image.now (D.steps devices.old) (D.steps devices.new) (is_ok result.outcome) }
{
    if !matches!(devices.destination(image, Some(file)), Destination::New) {
        return unwritten(Error::from(ErrorKind::AlreadyExists));
    }
    match devices.open(file) {
        Ok(source) => {
            let image = ImageFile {
                name: image,
                existing: Existing::Kept,
            };
            decode_to_part(rt, alloc, devices, decoding, source, image, breaks)
        }
        Err(error) => Ending {
            outcome: Err(Fault::NoFile),
            reason: Some(error),
        },
    }
}

/// Decodes one file of many and reports how that ended. Returns its exit status.
fn decode_one<T: Threads + Wait + Sync, D: Devices, E: Write>(
    rt: &T,
    alloc: Global,
    devices: &mut D,
    request: &ManyRequest,
    file: &str,
    errors: &mut E,
) -> u8
    requires some { 1 ≤ request.now.workers }
    requires few { request.now.workers ≤ MAX_WORKERS }
    ensures { (name : List ℕ) × IsInDirectory (string_bytes request.now.directory) name × LeavesFile (λ _. ⊥) Existing.Kept name (D.steps devices.old) (D.steps devices.new) (is_picture_status result) }
{
    let verbosity = Verbosity {
        is_quiet: request.is_quiet,
        is_verbose: true,
    };
    let decoding = DecodeOptions {
        workers: request.workers,
        first: request.first,
        is_resync: request.is_resync,
    };
    let Ok(image) = image_name(alloc, request.directory.as_str(), file) else {
        let ending = Ending {
            outcome: Err(Fault::Memory),
            reason: None,
        };
        return report_ending(
            &ending,
            &Names {
                source: file,
                target: "",
            },
            verbosity,
            errors,
        );
    };
    let names = Names {
        source: file,
        target: image.as_str(),
    };
    let mut breaks = Vec::new(alloc);
    let ending = decode_into_new(
        rt,
        alloc,
        devices,
        decoding,
        file,
        names.target,
        &mut breaks,
    );
    report_breaks(&breaks, &ending, &names, verbosity, errors);
    report_ending(&ending, &names, verbosity, errors)
}

/// Decodes each file that a request names, and reports on each. Returns the exit status of all.
fn decode_each<T: Threads + Wait + Sync, D: Devices, E: Write>(
    rt: &T,
    alloc: Global,
    devices: &mut D,
    request: &ManyRequest,
    errors: &mut E,
) -> u8
    requires some { 1 ≤ request.now.workers }
    requires few { request.now.workers ≤ MAX_WORKERS }
    ensures { DecodesEach (string_bytes request.now.directory) (length request.now.files.items) (D.steps devices.old) (D.steps devices.new) result }
{
    let mut status = 0;
    for k in 0..request.files.len() {
        let file = request.files[k].as_str();
        let ended = decode_one(rt, alloc, devices, request, file, errors);
        status = worse_of(status, ended);
    }
    status
}

/// Does what `jri --output-dir` is asked for on these devices: decodes each file into a new image of the directory, in
/// order, and reports on each. Nothing is replaced. The status is the first that applies of 1 (a device failed, or
/// memory ran out), 2 (a file is refused, or the arguments are wrong), 3 (an interval is damaged) and 0.
pub fn program_for_many<T: Threads + Wait + Sync, D: Devices, E: Write>(
    rt: &T,
    alloc: Global,
    devices: &mut D,
    request: Result<ManyRequest, Unasked>,
    errors: &mut E,
) -> Ended
    requires some { IfOk request (λ r. 1 ≤ r.workers) }
    requires few { IfOk request (λ r. r.workers ≤ MAX_WORKERS) }
    ensures decoded { IfOk request (λ r. DecodesEach (string_bytes r.directory) (length r.files.items) (D.steps devices.old) (D.steps devices.new) result.status) }
    ensures untouched { IfErr request (λ _. Follow (D.steps devices.old) (D.steps devices.new) []) }
{
    match request {
        Ok(request) => {
            let status = decode_each(rt, alloc, devices, &request, errors);
            Ended { status }
        }
        Err(unasked) => {
            let status = answer(&mut Tally::of(devices.output()), errors, &unasked, FAILED);
            Ended { status }
        }
    }
}
