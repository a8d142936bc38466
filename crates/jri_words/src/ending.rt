//! The end of a run, reported on standard error.

ghost use Rattle.std.specs.Prelude.{◌≡◌, IfOk, IfErr, true, false};
ghost use Rattle.jri_words.specs.Status.{status_of_fault, status_of_report};

use crate::answers::{Asked, Target, Verbosity};
use crate::line::{LineContext, write_line};
use crate::status::{fault_status, report_status};
use jr_cut::Break;
use jr_picture::{Fault, Report};
use std::io::{Error, ErrorKind, Result as IoResult, Write};

/// The end of a run, and the system's reason if a reader or writer failed.
#[derive(Clone, Copy)]
pub struct Ending {
    /// The report of an image that was written, or the fault.
    pub outcome: Result<Report, Fault>,
    /// The reason, if the system gave one.
    pub reason: Option<Error>,
}

/// The names of the input and of the output, for lines.
#[derive(Clone, Copy)]
pub struct Names<'a> {
    /// The name of the input.
    pub source: &'a str,
    /// The name of the output.
    pub target: &'a str,
}

impl Names<'_> {
    /// Of lines without names.
    pub(crate) const NONE: Names<'static> = Names {
        source: "",
        target: "",
    };
}

impl<'a> Names<'a> {
    /// Returns the names that the arguments give.
    pub fn of(asked: &'a Asked) -> Self {
        Names {
            source: match &asked.file {
                Some(name) => name.as_str(),
                None => "standard input",
            },
            target: match &asked.target {
                Target::File(name) => name.as_str(),
                Target::Output | Target::AnyOutput => "standard output",
            },
        }
    }
}

impl Ending {
    /// Returns whether the image's reader has gone away.
    fn is_left(&self) -> bool {
        match (self.outcome, self.reason) {
            (Err(Fault::Write), Some(reason)) => reason.kind() == ErrorKind::BrokenPipe,
            _ => false,
        }
    }
}

fn write_report<E: Write>(
    errors: &mut E,
    report: &Report,
    context: LineContext<'_>,
) -> IoResult<()> {
    let Report {
        intervals,
        sound,
        damaged,
        blank,
        ended,
    } = *report;
    write_line(
        errors,
        format_args!("intervals {intervals} sound {sound} damaged {damaged} blank {blank}"),
        context,
    )?;
    write_line(errors, format_args!("scan ended at {ended}"), context)
}

fn write_fault<E: Write>(errors: &mut E, fault: Fault, context: LineContext<'_>) -> IoResult<()> {
    let text = match fault {
        Fault::NoFile => "cannot open the file",
        Fault::Read => "cannot read the input",
        Fault::Write => "cannot write the picture",
        Fault::Memory => "out of memory",
        Fault::Refused(refusal) => {
            let number = refusal.number();
            return write_line(errors, format_args!("refused {number}: {refusal}"), context);
        }
    };
    write_line(errors, text, context)
}

/// Returns what follows the lines of an ending.
fn line_context<'a>(ending: &Ending, names: &Names<'a>, verbosity: Verbosity) -> LineContext<'a> {
    let name = match ending.outcome {
        Err(Fault::Write) => names.target,
        _ => names.source,
    };
    if verbosity.is_verbose {
        LineContext {
            name: Some(name),
            reason: ending.reason,
        }
    } else {
        LineContext {
            name: None,
            reason: None,
        }
    }
}

/// Writes the report's two lines, or the fault's one, and returns the exit status. With `is_quiet` it writes neither
/// the report nor that the image's reader has gone away. Errors of standard error are ignored.
pub fn report_ending<E: Write>(
    ending: &Ending,
    names: &Names<'_>,
    verbosity: Verbosity,
    errors: &mut E,
) -> u8
    ensures written { IfOk ending.now.outcome (λ report. result ≡ status_of_report report false) }
    ensures fault { IfErr ending.now.outcome (λ fault. result ≡ status_of_fault fault) }
    ensures quiet { IfOk ending.now.outcome (λ _. verbosity.is_quiet ≡ true → errors.new ≡ errors.old) }
{
    let context = line_context(ending, names, verbosity);
    match ending.outcome {
        Ok(report) => {
            if !verbosity.is_quiet {
                let _ = write_report(errors, &report, context);
            }
            report_status(&report)
        }
        Err(fault) => {
            if !(verbosity.is_quiet && ending.is_left()) {
                let _ = write_fault(errors, fault, context);
            }
            fault_status(fault)
        }
    }
}

fn write_breaks<E: Write>(
    errors: &mut E,
    breaks: &[Break],
    context: LineContext<'_>,
) -> IoResult<()> {
    for found in breaks {
        write_line(errors, *found, context)?;
    }
    Ok(())
}

/// Writes a line for each break of a file that is resynchronised, unless there is no image or `is_quiet` is set. Errors
/// of standard error are ignored.
pub fn report_breaks<E: Write>(
    breaks: &[Break],
    ending: &Ending,
    names: &Names<'_>,
    verbosity: Verbosity,
    errors: &mut E,
)
    ensures quiet { verbosity.is_quiet ≡ true → errors.new ≡ errors.old }
    ensures fault { IfErr ending.now.outcome (λ _. errors.new ≡ errors.old) }
{
    if !verbosity.is_quiet && ending.outcome.is_ok() {
        let _ = write_breaks(errors, breaks, line_context(ending, names, verbosity));
    }
}
