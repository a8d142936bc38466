//! An image that takes its name when it is whole.

ghost use Rattle.std.specs.Prelude.{IfOk, IfErr, List, ◌∷◌, [], ◌≡◌, is_ok, false};
ghost use Rattle.std.specs.String.{string_bytes};
ghost use Rattle.jri_machine.specs.Steps.{Step, Created, Synced, Removed, Removes, Follow, placed};

use crate::ending::Ending;
use jr_picture::Fault;
use jri_machine::{Devices, Existing, Part};
use std::alloc::{AllocError, Global};
use std::io::{Error, ErrorKind};

/// Maximum number of names that are tried for a part.
const MAX_PARTS: u32 = 1000;

/// Returns the name of a part of this run, in the directory of the file that it is to be.
fn part_name(alloc: Global, name: &str, run: u64, number: u32) -> Result<String, AllocError> {
    match name.rsplit_once('/') {
        Some((directory, _)) => format!(in alloc; "{directory}/.jri-{run:x}-{number}.part"),
        None => format!(in alloc; ".jri-{run:x}-{number}.part"),
    }
}

/// Returns the ending of an image that cannot be written, for this reason.
pub fn unwritten(reason: Error) -> Ending
    ensures { result.outcome ≡ Err Fault.Write }
{
    Ending {
        outcome: Err(Fault::Write),
        reason: Some(reason),
    }
}

/// Creates a part of a file, under the first name that nothing has, with the permissions of the file that it is to replace.
pub fn make_part<D: Devices>(
    alloc: Global,
    devices: &mut D,
    name: &str,
) -> Result<Part<D::File>, Ending>
    ensures made { IfOk result (λ part. Follow (D.steps devices.old) (D.steps devices.new) (Created (string_bytes part.name) ∷ [])) }
    ensures none { IfErr result (λ ending. Follow (D.steps devices.old) (D.steps devices.new) []) }
    ensures unwritten { IfErr result (λ ending. is_ok ending.outcome ≡ false) }
{
    let run = devices.run_number();
    for number in 1..=MAX_PARTS {
        let Ok(part) = part_name(alloc, name, run, number) else {
            return Err(Ending {
                outcome: Err(Fault::Memory),
                reason: None,
            });
        };
        match devices.create(part.as_str(), name) {
            Ok(file) => return Ok(Part { file, name: part }),
            Err(error) if error.kind() == ErrorKind::AlreadyExists => {}
            Err(error) => return Err(unwritten(error)),
        }
    }
    Err(unwritten(Error::from(ErrorKind::AlreadyExists)))
}

/// Writes a part to the disk and gives it the name of its file if it is a whole image; otherwise removes it.
pub fn place<D: Devices>(
    devices: &mut D,
    ending: Ending,
    part: Part<D::File>,
    name: &str,
    existing: Existing,
) -> Ending
    ensures placed { IfOk result.outcome (λ _. Follow (D.steps devices.old) (D.steps devices.new) (Synced (string_bytes part.name) ∷ placed existing (string_bytes part.name) name.now ∷ [])) }
    ensures removed { IfErr result.outcome (λ _. Removes (string_bytes part.name) (D.steps devices.old) (D.steps devices.new)) }
    ensures picture { IfOk result.outcome (λ report. ending.outcome ≡ Ok report) }
    ensures fault { IfErr ending.outcome (λ fault. result.outcome ≡ Err fault) }
{
    let mut part = part;
    if ending.outcome.is_err() {
        let _ = devices.remove(part.name.as_str());
        return ending;
    }
    let placed = match devices.sync(&mut part) {
        Ok(()) => devices.rename(part.name.as_str(), name, existing),
        Err(error) => Err(error),
    };
    match placed {
        Ok(()) => ending,
        Err(error) => {
            let _ = devices.remove(part.name.as_str());
            unwritten(error)
        }
    }
}
