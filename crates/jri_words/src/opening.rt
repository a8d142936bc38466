//! What the arguments of a run ask for, and the source that they name.

ghost use Rattle.std.specs.Prelude.{◌≡◌, ◌≤◌, IfOk, IfErr, IsErr, map, false};
ghost use Rattle.std.specs.String.{string_bytes};
ghost use Rattle.jr_base.specs.declared.limits.TheConstants.{MAX_WORKERS};
ghost use Rattle.jri_words.specs.CommandLine.{IsTargetOf, is_taken};
ghost use Rattle.jri_machine.specs.Status.{AsksForHelp};

use crate::answers::{Asked, DecodeRequest, Target};
use crate::asking::decode_request;
use jri_machine::{Destination, Devices, Source, Unasked, unreported, wrong};
use std::alloc::Global;
use std::io::{Result as IoResult, Write};

/// The text for arguments that are not text.
const NOT_TEXT: &str = "an argument is not valid UTF-8; use: jri < FILE\n";

/// The text if standard input is a terminal.
const WAITING: &str = "waiting for a JPEG file on standard input\n";

/// The text for an image that would go to a terminal.
const ONTO_TERMINAL: &str =
    "refusing to write the image to a terminal; use -o PICTURE or --force\n";

/// The text for an image that would replace the file that is read.
const OWN_INPUT: &str = "refusing to replace the file that is read; name another PICTURE\n";

/// The text for djpeg's option, which `-o` would take for a file named utfile.
const NO_OUTFILE: &str = "there is no option -outfile; use -o PICTURE\n";

/// The text for an image whose name ends like that of another format.
const OTHER_ENDING: &str =
    "warning: the image is written as PGM or PPM, whatever its name ends in\n";

/// The endings of other formats' names, in small letters.
const OTHER_ENDINGS: [&str; 8] = ["png", "jpg", "jpeg", "gif", "webp", "tif", "tiff", "bmp"];

/// Returns whether djpeg's option is among the arguments, before `--`.
fn has_outfile(words: &[String]) -> bool {
    for word in words {
        match word.as_str() {
            "--" => return false,
            "-outfile" => return true,
            _ => {}
        }
    }
    false
}

/// Returns whether an image of this name would replace what is read.
fn is_own_input<D: Devices>(devices: &D, asked: &Asked, name: &str) -> bool {
    let source = asked.file.as_ref().map(|file| file.as_str());
    matches!(devices.destination(name, source), Destination::Source)
}

/// Returns whether a name ends as those of other formats do.
fn has_other_ending(name: &str) -> bool {
    let Some((_, ending)) = name.rsplit_once('.') else {
        return false;
    };
    OTHER_ENDINGS
        .iter()
        .any(|other| ending.eq_ignore_ascii_case(other))
}

/// Writes a warning if the image's name ends like that of another format, unless `--quiet` is given.
pub fn warn_of_name<E: Write>(asked: &Asked, errors: &mut E) {
    if let Target::File(name) = &asked.target {
        if !asked.verbosity.is_quiet && has_other_ending(name.as_str()) {
            let _ = errors.write_all(OTHER_ENDING.as_bytes());
        }
    }
}

/// Returns why an image is not written to where the arguments say: onto a terminal, or over the file that is read.
fn objection<D: Devices>(devices: &D, asked: &Asked) -> Option<&'static str> {
    match &asked.target {
        Target::Output if devices.is_output_terminal() => Some(ONTO_TERMINAL),
        Target::File(name) if is_own_input(devices, asked, name.as_str()) => Some(OWN_INPUT),
        _ => None,
    }
}

/// Returns what arguments that are text ask for.
fn request_on<D: Devices>(
    alloc: Global,
    devices: &D,
    words: &[String],
) -> Result<DecodeRequest, Unasked>
    ensures some { IfOk result (λ r. 1 ≤ r.asked.workers) }
    ensures few { IfOk result (λ r. r.asked.workers ≤ MAX_WORKERS) }
    ensures target { IfOk result (λ r. IsTargetOf (map string_bytes words.now) r.asked.target) }
    ensures help { IfErr result (λ unasked. AsksForHelp unasked → is_taken (map string_bytes words.now) ≡ false) }
{
    if has_outfile(words) {
        return Err(wrong(alloc, NO_OUTFILE));
    }
    match decode_request(alloc, words) {
        Ok(request) => match objection(devices, &request.asked) {
            Some(text) => Err(wrong(alloc, text)),
            None => Ok(request),
        },
        Err(unasked) => Err(unasked),
    }
}

/// Returns what the arguments ask for, if there are some, on a machine whose output may be a terminal, and whose
/// image's name may be that of the file that is read.
pub fn understood<D: Devices>(
    alloc: Global,
    devices: &D,
    words: IoResult<Vec<String>>,
) -> Result<DecodeRequest, Unasked>
    ensures some { IfOk result (λ r. 1 ≤ r.asked.workers) }
    ensures few { IfOk result (λ r. r.asked.workers ≤ MAX_WORKERS) }
    ensures target { IfOk result (λ r. IfOk words (λ given. IsTargetOf (map string_bytes given.items) r.asked.target)) }
    ensures help { IfErr result (λ unasked. AsksForHelp unasked → IfOk words (λ given. is_taken (map string_bytes given.items) ≡ false)) }
    ensures unread { IfErr words (λ _. IfErr result (λ unasked. AsksForHelp unasked → ⊥)) }
    ensures unasked { IfErr words (λ _. IsErr result) }
{
    match words {
        Ok(words) => request_on(alloc, devices, &words),
        Err(error) => Err(unreported(alloc, &error, NOT_TEXT)),
    }
}

/// Opens what is read. Reports that standard input is awaited if that is a terminal.
pub fn opened<D: Devices, E: Write>(
    devices: &D,
    asked: &Asked,
    errors: &mut E,
) -> IoResult<Source<D::Input, D::File>> {
    if let Some(name) = &asked.file {
        return Ok(Source::File(devices.open(name.as_str())?));
    }
    if devices.is_input_terminal() && !asked.verbosity.is_quiet {
        let _ = errors.write_all(WAITING.as_bytes());
    }
    Ok(Source::Input(devices.input()))
}
