//! What the program does with its arguments.

ghost use Rattle.std.specs.Prelude.{◌≡◌, ◌≤◌, IfErr, IfOk, [], false, is_ok, map, true};
ghost use Rattle.std.specs.String.{string_bytes};
ghost use Rattle.jr_base.specs.declared.limits.TheConstants.{MAX_WORKERS};
ghost use Rattle.jr_base.specs.Tally.{has_failed, known_in};
ghost use Rattle.jr_segments.specs.declared.refusal.Refusal.{Refusal};
ghost use Rattle.jri_machine.specs.Noted.{has_flushed, noted_in};
ghost use Rattle.jri_machine.specs.Steps.{Follow, LeavesFile};
ghost use Rattle.jri_words.specs.Images.{LeavesNamed, is_picture_status};
ghost use Rattle.jri_engine.specs.Decoding.{BeginsBy, PaintsBy, RefusesBy};

use crate::engine::run;
use crate::resync::run_resynced;
use jr_base::Tally;
use jr_cut::Break;
use jr_picture::{Fault, Report};
use jr_wall::OpenGate;
use jri_machine::{Destination, Devices, Ended, Existing, Noted, Part, answer};
use jri_words::{
    DecodeRequest, Ending, Names, Target, flush_written, make_part, opened, place, report_breaks,
    report_ending, understood, unwritten, warn_of_name,
};
use std::alloc::Global;
use std::io::{Read, Result as IoResult, Write};
use std::sync::Wait;
use std::thread::Threads;

/// The exit status if memory ran out or the output failed.
pub(crate) const FAILED: u8 = 1;

/// How a file is decoded.
#[derive(Clone, Copy)]
pub(crate) struct DecodeOptions {
    /// The number of workers, 1 to 64.
    pub(crate) workers: u32,
    /// The number of intervals that are decoded, starting at the first one; all if it is `None`.
    pub(crate) first: Option<u32>,
    /// Whether the file is read past restart markers that are out of step.
    pub(crate) is_resync: bool,
}

/// Returns how the arguments ask for a file to be decoded.
fn decoding_of(request: &DecodeRequest) -> DecodeOptions
    ensures workers { result.workers ≡ request.now.asked.workers }
    ensures first { result.first ≡ request.now.asked.first }
    ensures resync { result.is_resync ≡ request.now.is_resync }
{
    DecodeOptions {
        workers: request.asked.workers,
        first: request.asked.first,
        is_resync: request.is_resync,
    }
}

/// Decodes an input into an output. The breaks of a resynchronised file are stored.
fn outcome_of<T: Threads + Wait + Sync, R: Read, W: Write>(
    rt: &T,
    alloc: Global,
    decoding: DecodeOptions,
    input: &mut Tally<R>,
    output: &mut Tally<W>,
    breaks: &mut Vec<Break>,
) -> Result<Report, Fault>
    requires input { has_failed input.old ≡ false }
    requires output { has_failed output.old ≡ false }
    requires some { 1 ≤ decoding.workers }
    requires few { decoding.workers ≤ MAX_WORKERS }
    ensures painted { IfOk result (λ r. PaintsBy decoding.is_resync (known_in R.remaining input.old) decoding.first (record { report = r; breaks = breaks.new }) (known_in W.contents output.old) (known_in W.contents output.new)) }
    ensures begun { result ≡ Err Fault.Write → BeginsBy decoding.is_resync (known_in R.remaining input.old) decoding.first (known_in W.contents output.old) (known_in W.contents output.new) }
    ensures refused { (f : Refusal) → result ≡ Err (Fault.Refused f) → RefusesBy decoding.is_resync (known_in R.remaining input.old) f }
{
    let DecodeOptions {
        workers,
        first,
        is_resync,
    } = decoding;
    if !is_resync {
        return run(rt, alloc, input, output, workers, first, &OpenGate);
    }
    match run_resynced(rt, alloc, input, output, workers, first, &OpenGate) {
        Ok(resynced) => {
            *breaks = resynced.breaks;
            Ok(resynced.report)
        }
        Err(fault) => Err(fault),
    }
}

/// Decodes a source into an output, which is flushed if the image is written. Returns how it ended, and the output. The
/// breaks of a resynchronised file are stored.
fn decode<T: Threads + Wait + Sync, R: Read + Drop, W: Write + Drop>(
    rt: &T,
    alloc: Global,
    decoding: DecodeOptions,
    source: R,
    out: W,
    breaks: &mut Vec<Break>,
) -> (Ending, Noted<W>)
    requires some { 1 ≤ decoding.workers }
    requires few { decoding.workers ≤ MAX_WORKERS }
    ensures painted { IfOk result.0.outcome (λ r. PaintsBy decoding.is_resync (R.remaining source) decoding.first (record { report = r; breaks = breaks.new }) (W.contents out) (W.contents (noted_in result.1))) }
    ensures flushed { IfOk result.0.outcome (λ _. has_flushed result.1 ≡ true) }
    ensures refused { (f : Refusal) → result.0.outcome ≡ Err (Fault.Refused f) → RefusesBy decoding.is_resync (R.remaining source) f }
{
    let mut input = Tally::of(Noted::of(source));
    let mut output = Tally::of(Noted::of(out));
    let outcome = outcome_of(rt, alloc, decoding, &mut input, &mut output, breaks);
    let mut out = output.into_inner();
    let outcome = flush_written(outcome, &mut out);
    let reason = match outcome {
        Err(Fault::Read) => input.into_inner().reason(),
        Err(Fault::Write) => out.reason(),
        _ => None,
    };
    (Ending { outcome, reason }, out)
}

/// The file of an image.
#[derive(Clone, Copy)]
pub(crate) struct ImageFile<'a> {
    /// Its name.
    pub(crate) name: &'a str,
    /// What becomes of a file that has this name.
    pub(crate) existing: Existing,
}

/// Decodes a source into a part, which takes the name of a file if the image is whole, and is otherwise removed.
pub(crate) fn decode_to_part<T: Threads + Wait + Sync, D: Devices, R: Read + Drop>(
    rt: &T,
    alloc: Global,
    devices: &mut D,
    decoding: DecodeOptions,
    source: R,
    image: ImageFile<'_>,
    breaks: &mut Vec<Break>,
) -> Ending
    requires some { 1 ≤ decoding.workers }
    requires few { decoding.workers ≤ MAX_WORKERS }
    ensures { LeavesFile (λ _. ⊥) image.entry.existing image.entry.name.now (D.steps devices.old) (D.steps devices.new) (is_ok result.outcome) }
{
    let Part { file, name } = match make_part(alloc, devices, image.name) {
        Ok(part) => part,
        Err(ending) => return ending,
    };
    let (ending, out) = decode(rt, alloc, decoding, source, file, breaks);
    let part = Part {
        file: out.into_inner(),
        name,
    };
    place(devices, ending, part, image.name, image.existing)
}

/// Decodes a source into a file, which is replaced once the image is whole, or into a device.
fn decode_to_file<T: Threads + Wait + Sync, D: Devices, R: Read + Drop>(
    rt: &T,
    alloc: Global,
    devices: &mut D,
    request: &DecodeRequest,
    source: R,
    name: &str,
    breaks: &mut Vec<Break>,
) -> Ending
    requires some { 1 ≤ request.now.asked.workers }
    requires few { request.now.asked.workers ≤ MAX_WORKERS }
    ensures { LeavesFile (D.are_devices devices.old) Existing.Replaced name.now (D.steps devices.old) (D.steps devices.new) (is_ok result.outcome) }
{
    let file = request.asked.file.as_ref().map(|file| file.as_str());
    if let Destination::WrittenInto = devices.destination(name, file) {
        return match devices.open_device(name) {
            Ok(device) => decode(rt, alloc, decoding_of(request), source, device, breaks).0,
            Err(error) => unwritten(error),
        };
    }
    decode_to_part(
        rt,
        alloc,
        devices,
        decoding_of(request),
        source,
        ImageFile {
            name,
            existing: Existing::Replaced,
        },
        breaks,
    )
}

/// Does what the program's arguments ask for on these devices, and reports it. The status is 0, or 3 if an interval is
/// damaged, if the image is written; 2 for a refused file and wrong arguments; 1 for devices and memory.
pub fn program<T: Threads + Wait + Sync, D: Devices, E: Write>(
    rt: &T,
    alloc: Global,
    devices: &mut D,
    words: IoResult<Vec<String>>,
    errors: &mut E,
) -> Ended
    ensures named { IfOk words (λ given. LeavesNamed (D.are_devices devices.old) (map string_bytes given.items) (D.steps devices.old) (D.steps devices.new) result.status) }
    ensures untouched { IfErr words (λ _. Follow (D.steps devices.old) (D.steps devices.new) []) }
    ensures unread { IfErr words (λ _. is_picture_status result.status ≡ false) }
{
    let request = match understood(alloc, devices, words) {
        Ok(request) => request,
        Err(unasked) => {
            let status = answer(&mut Tally::of(devices.output()), errors, &unasked, FAILED);
            return Ended { status };
        }
    };
    let asked = &request.asked;
    warn_of_name(asked, errors);
    let mut breaks = Vec::new(alloc);
    let ending = match opened(devices, asked, errors) {
        Ok(source) => match &asked.target {
            Target::Output | Target::AnyOutput => {
                let out = devices.output();
                decode(rt, alloc, decoding_of(&request), source, out, &mut breaks).0
            }
            Target::File(name) => decode_to_file(
                rt,
                alloc,
                devices,
                &request,
                source,
                name.as_str(),
                &mut breaks,
            ),
        },
        Err(error) => Ending {
            outcome: Err(Fault::NoFile),
            reason: Some(error),
        },
    };
    let names = Names::of(asked);
    report_breaks(&breaks, &ending, &names, asked.verbosity, errors);
    let status = report_ending(&ending, &names, asked.verbosity, errors);
    Ended { status }
}
