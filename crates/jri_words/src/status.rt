//! Exit statuses.

ghost use Rattle.std.specs.Prelude.{◌≡◌, false};
ghost use Rattle.jri_words.specs.Status.{status_of_fault, status_of_report};

use jr_picture::{Fault, Report};

/// Returns the exit status of a fault: 2 for a refused file, 1 for devices and memory.
pub fn fault_status(fault: Fault) -> u8
    ensures { result ≡ status_of_fault fault }
{
    match fault {
        Fault::Refused(_) => 2,
        Fault::Read | Fault::Memory | Fault::Write | Fault::NoFile => 1,
    }
}

/// Returns the exit status of an image that was written: 3 if an interval is damaged, otherwise 0.
pub(crate) fn report_status(report: &Report) -> u8
    ensures { result ≡ status_of_report report.now false }
{
    if report.damaged == 0 { 0 } else { 3 }
}
