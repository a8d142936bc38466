//! The writing of files.

ghost use Rattle.std.specs.Prelude.{is_ok};
ghost use Rattle.jri_machine.specs.Steps.{LeavesFile};

use jr_picture::{Fault, Report};
use jri_machine::{Devices, Existing, Noted};
use jri_words::{Ending, flush_written, make_part, place};
use std::alloc::Global;
use std::io::Write;

/// Writes a file to an output, which is flushed.
pub(crate) fn write_out<W: Write>(out: &mut W, file: &[u8], report: Report) -> Ending {
    let mut output = Noted::of(out);
    let written = match output.write_all(file) {
        Ok(()) => Ok(report),
        Err(_) => Err(Fault::Write),
    };
    let outcome = flush_written(written, &mut output);
    let reason = match outcome {
        Err(_) => output.reason(),
        Ok(_) => None,
    };
    Ending { outcome, reason }
}

/// Writes a part, which takes the name of a file if it is whole, and is otherwise removed.
pub(crate) fn write_part<D: Devices>(
    alloc: Global,
    devices: &mut D,
    file: &[u8],
    report: Report,
    name: &str,
    existing: Existing,
) -> Ending
    ensures { LeavesFile (λ _. ⊥) existing name.now (D.steps devices.old) (D.steps devices.new) (is_ok result.outcome) }
{
    let mut part = match make_part(alloc, devices, name) {
        Ok(part) => part,
        Err(ending) => return ending,
    };
    let ending = write_out(&mut part.file, file, report);
    place(devices, ending, part, name, existing)
}
