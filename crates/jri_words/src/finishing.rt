//! The last lines on standard error, and the exit status.

ghost use Rattle.std.specs.Prelude.{◌≡◌, IfOk, IfErr, OnOk, true, false};
ghost use Rattle.std.specs.Io.KnownBytes.{Keeps};
ghost use Rattle.jr_base.specs.Tally.{has_failed, known_in};
ghost use Rattle.jri_machine.specs.Noted.{has_flushed, noted_in};
ghost use Rattle.jri_words.specs.Status.{status_of_fault, status_of_report};

use crate::answers::Verbosity;
use crate::ending::{Ending, Names, report_ending};
use jr_base::Tally;
use jr_picture::{Fault, Report};
use jri_machine::Noted;
use std::io::Write;

/// Flushes an image that was written, and returns the outcome after that. A failed flush is a fault.
pub fn flush_written<W: Write>(
    outcome: Result<Report, Fault>,
    out: &mut Noted<W>,
) -> Result<Report, Fault>
    ensures same { IfOk result (λ report. outcome ≡ Ok report) }
    ensures flushed { IfOk result (λ _. has_flushed out.new ≡ true) }
    ensures write { IfOk outcome (λ _. IfErr result (λ fault. fault ≡ Fault.Write)) }
    ensures fault { IfErr outcome (λ fault. result ≡ Err fault) }
    ensures kept { Keeps (W.contents (noted_in out.old)) (W.contents (noted_in out.new)) }
    ensures untouched { IfErr outcome (λ _. out.new ≡ out.old) }
{
    let report = outcome?;
    match out.flush() {
        Ok(()) => Ok(report),
        Err(_) => Err(Fault::Write),
    }
}

/// Flushes an image that was written, writes the report's two lines, or the fault's one, and returns the exit status. A
/// failed flush is a fault. Errors of standard error are ignored.
pub fn finish<W: Write, E: Write>(
    outcome: Result<Report, Fault>,
    out: &mut Tally<W>,
    errors: &mut E,
) -> u8
    ensures written { IfOk outcome (λ report. has_failed out.old ≡ false → result ≡ status_of_report report (has_failed out.new)) }
    ensures fault { IfErr outcome (λ fault. result ≡ status_of_fault fault) }
    ensures kept { Keeps (known_in W.contents out.old) (known_in W.contents out.new) }
    ensures untouched { IfErr outcome (λ _. out.new ≡ out.old) }
{
    let outcome = match outcome {
        Ok(report) if out.flush().is_ok() => Ok(report),
        Ok(_) => Err(Fault::Write),
        Err(fault) => Err(fault),
    };
    let ending = Ending {
        outcome,
        reason: None,
    };
    report_ending(&ending, &Names::NONE, Verbosity::PLAIN, errors)
}
