//! The status and the report of a decoding.

ghost use Rattle.std.specs.Prelude.{◌≡◌, ◌≢◌, ◌<◌, ◌≤◌};
ghost use Rattle.jr_segments.specs.declared.refusal.Refusal.TheVariants.{Memory};
ghost use Rattle.jri_memory.specs.Calls.{IsRefusal, ReportsNoPicture, ReportsNoRefusal};

use crate::decode::DecodeError;
use crate::report::DecodeReport;
use crate::status::{BUFFER_TOO_SMALL, DAMAGED, NO_MEMORY, REFUSED, SOUND, TOO_LONG};
use jr_segments::Refusal;

/// Returns the status of a refusal.
pub fn status_of(refusal: Refusal) -> u32
    ensures memory { refusal ≡ Memory → result ≡ 1 }
    ensures refused { refusal ≢ Memory → result ≡ 2 }
    ensures of_the_file { result ≡ 2 → refusal ≢ Memory }
    ensures of_memory { result ≡ 1 → refusal ≡ Memory }
    ensures some { result ≢ 0 }
    ensures few { result ≤ 2 }
{
    match refusal {
        Refusal::Memory => NO_MEMORY,
        _ => REFUSED,
    }
}

/// Reports a decoding, and returns the status.
pub(crate) fn report_decoded(decoded: DecodeReport, report: &mut DecodeReport) -> u32
    ensures stated { report.new ≡ decoded }
    ensures undamaged { result ≡ 0 → decoded.damaged ≡ 0 }
    ensures damaged { result ≡ 3 → 0 < decoded.damaged }
    ensures done { result ≢ 0 → result ≡ 3 }
{
    *report = decoded;
    if decoded.damaged == 0 { SOUND } else { DAMAGED }
}

/// Reports why nothing is decoded, and returns the status.
pub(crate) fn report_undone(undecoded: DecodeError, report: &mut DecodeReport) -> u32
    ensures undone { result ≢ 0 }
    ensures undamaged { result ≢ 3 }
    ensures few { result ≢ 8 → result ≤ 4 }
    ensures refused { result ≡ 2 → IsRefusal undecoded report.new }
    ensures memory { result ≡ 1 → report.new.refusal ≡ 19 }
    ensures space { result ≡ 4 → undecoded ≡ DecodeError.BufferTooSmall }
    ensures each_space { undecoded ≡ DecodeError.BufferTooSmall → result ≡ 4 }
    ensures space_alone { result ≡ 4 → ReportsNoRefusal report.new }
    ensures long { result ≡ 8 → undecoded ≡ DecodeError.TooLong }
    ensures each_long { undecoded ≡ DecodeError.TooLong → result ≡ 8 }
    ensures long_alone { result ≡ 8 → ReportsNoRefusal report.new }
    ensures no_picture { ReportsNoPicture report.new }
{
    match undecoded {
        DecodeError::Refused(refusal) => {
            *report = DecodeReport::refused(refusal);
            status_of(refusal)
        }
        DecodeError::BufferTooSmall => {
            *report = DecodeReport::empty();
            BUFFER_TOO_SMALL
        }
        DecodeError::TooLong => {
            *report = DecodeReport::empty();
            TOO_LONG
        }
    }
}
