//! The texts of refusals, of what ended a scan, and of the build.

ghost use Rattle.std.specs.Prelude.{◌≡◌, ◌≢◌, ◌≤◌, ◌<◌, length, drop, IfSome, None};
ghost use Rattle.jr_segments.specs.Refusal.{number_of};
ghost use Rattle.jri_memory.specs.Calls.{IsNumberOfSome};

use crate::report::DecodeReport;
use jr_base::VERSION;
use jr_cut::ScanEnd;
use jr_segments::Refusal;
use std::io::{Cursor, Write};

/// Maximum length in bytes of the text of a refusal.
const SPACE: usize = 64;

/// Maximum length in bytes of a text of another kind.
const LONG_SPACE: usize = 96;

/// Returns the refusal of this number and detail.
fn refusal_of(number: u32, detail: u64) -> Option<Refusal>
    ensures of_the_number { IfSome result (λ f. number ≡ number_of f) }
    ensures some { IsNumberOfSome number → result ≢ None }
{
    let code = (detail % 256) as u8;
    match number {
        1 => Some(Refusal::NotJpeg),
        2 => Some(Refusal::EndsEarly),
        3 => Some(Refusal::ExpectedMarker(detail)),
        4 => Some(Refusal::UnexpectedMarker(code)),
        5 => Some(Refusal::NotBaseline(code)),
        6 => Some(Refusal::BadLength(code)),
        7 => Some(Refusal::BadQuantTable),
        8 => Some(Refusal::BadCodeTable),
        9 => Some(Refusal::SecondFrame),
        10 => Some(Refusal::BadPrecision),
        11 => Some(Refusal::BadSize),
        12 => Some(Refusal::TooManyPixels),
        13 => Some(Refusal::BadComponents),
        14 => Some(Refusal::BadSampling),
        15 => Some(Refusal::BadScanHeader),
        16 => Some(Refusal::NoFrame),
        17 => Some(Refusal::MissingTable),
        18 => Some(Refusal::TooLong),
        19 => Some(Refusal::Memory),
        _ => None,
    }
}

/// Writes the text of a refusal by its numbers into `text`, as much as fits, with no 0 after it, and returns its length
/// in bytes: 0 if no refusal has that number.
pub fn refusal_text(number: u32, detail: u64, text: &mut [u8]) -> usize
    ensures some { IsNumberOfSome number → 0 < length text.old → 0 < result }
    ensures none { 0 < result → IsNumberOfSome number }
    ensures few { result ≤ length text.new }
    ensures most { result ≤ 64 }
    ensures kept { drop result text.new ≡ drop result text.old }
{
    let Some(refusal) = refusal_of(number, detail) else {
        return 0;
    };
    let mut line = Cursor::new([0; SPACE]);
    let _ = write!(line, "{refusal}");
    // no contract of `write!` says that it writes anything
    let length = (line.position() as usize).clamp(1, SPACE).min(text.len());
    text[..length].copy_from_slice(&line.get_ref()[..length]);
    length
}

/// Copies what is written on a line into `text`, as much as fits, and returns its length in bytes.
fn write_line(line: &Cursor<[u8; LONG_SPACE]>, text: &mut [u8]) -> usize
    ensures some { 0 < length text.old → 0 < result }
    ensures few { result ≤ length text.new }
    ensures most { result ≤ 96 }
    ensures kept { drop result text.new ≡ drop result text.old }
{
    // no contract of `write!` says that it writes anything
    let length = (line.position() as usize)
        .clamp(1, LONG_SPACE)
        .min(text.len());
    text[..length].copy_from_slice(&line.get_ref()[..length]);
    length
}

/// Writes what ended the scan of a report, in the words of `jri`, into `text`, as much as fits, with no 0 after it, and
/// returns its length in bytes: 0 if the report has no end.
pub fn end_text(report: &DecodeReport, text: &mut [u8]) -> usize
    ensures some { 1 ≤ report.now.ended → report.now.ended ≤ 5 → 0 < length text.old → 0 < result }
    ensures none { 0 < result → (1 ≤ report.now.ended) × (report.now.ended ≤ 5) }
    ensures few { result ≤ length text.new }
    ensures most { result ≤ 96 }
    ensures kept { drop result text.new ≡ drop result text.old }
{
    let (found, due) = ((report.found % 256) as u8, (report.due % 256) as u8);
    let at = report.at;
    let ended = match report.ended {
        1 => ScanEnd::EndOfImage,
        2 => ScanEnd::OtherMarker(found, at),
        3 => ScanEnd::OutOfStep {
            found,
            expected: due,
            at,
        },
        4 => ScanEnd::ExtraRestart(at),
        5 => ScanEnd::EndOfFile,
        _ => return 0,
    };
    let mut line = Cursor::new([0; LONG_SPACE]);
    let _ = write!(line, "scan ended at {ended}");
    write_line(&line, text)
}

/// Writes the name and the version of the build into `text`, as much as fits, with no 0 after it, and returns its
/// length in bytes.
pub fn build_text(text: &mut [u8]) -> usize
    ensures some { 0 < length text.old → 0 < result }
    ensures few { result ≤ length text.new }
    ensures most { result ≤ 96 }
    ensures kept { drop result text.new ≡ drop result text.old }
{
    let mut line = Cursor::new([0; LONG_SPACE]);
    let version = VERSION.trim_end();
    let _ = write!(line, "jri {version}");
    write_line(&line, text)
}
