//! Files that arrive in parts: the lines that are returned meanwhile, and the missing lines at the end.

ghost use Rattle.std.specs.Prelude.{◌<◌};

use crate::case::Case;
use crate::differences::Differences;
use crate::runs::compare_outcome;
use crate::scans::report_of;
use jr_arrival::{Finished, PartialFile};
use jr_base::Memory;
use jr_head::Refusal;
use jr_rows::{paint_scan_lines, shape_of};
use jr_scan::Scan;
use jri_engine::{Fault, Report};
use std::alloc::Global;
use test_files::error::NotationError;

/// A file of more bytes does not come in small parts.
const LONG: usize = 1024;

/// The number of bytes that arrive at once, and the maximum number of lines that are returned at once.
#[derive(Clone, Copy)]
struct Pace {
    part: usize,
    lines: u32,
}

/// Returns the size of a line of the image in bytes, and its height; 0 until the header has arrived.
fn size_of(partial_file: &PartialFile) -> (usize, u32) {
    match partial_file.head() {
        Some(head) => (shape_of(head).line, head.height()),
        None => (0, 0),
    }
}

/// Appends the next lines that are final, at most those for which `space` has space. Returns whether
/// there are any.
fn take_next(
    alloc: Global,
    partial_file: &mut PartialFile,
    line: usize,
    space: &mut [u8],
    shown: &mut Vec<u8>,
) -> Result<bool, Refusal> {
    let count = partial_file.next_lines(alloc, space)?;
    let length = usize::saturating_mul(count as usize, line).min(space.len());
    shown.extend_from_slice(&space[..length])?;
    Ok(count > 0)
}

/// Appends the lines that the bytes so far make final, at most the given number at once.
fn take_lines(
    alloc: Global,
    partial_file: &mut PartialFile,
    most: u32,
    shown: &mut Vec<u8>,
) -> Result<(), Refusal> {
    partial_file.begin(alloc)?;
    let (line, height) = size_of(partial_file);
    let mut space = vec![in alloc; 0; usize::saturating_mul(most.min(height) as usize, line)]?;
    for _ in 0..height {
        if !take_next(alloc, partial_file, line, space.as_mut_slice(), shown)? {
            break;
        }
    }
    Ok(())
}

/// Pushes a file in parts, and appends the lines as they become final.
fn push_parts(
    alloc: Global,
    partial_file: &mut PartialFile,
    bytes: &[u8],
    pace: Pace,
    shown: &mut Vec<u8>,
) -> Result<(), Refusal>
    requires { 0 < pace.part }
{
    for more in bytes.chunks(pace.part) {
        if partial_file.push(more).is_err() {
            return Err(Refusal::Memory);
        }
        take_lines(alloc, partial_file, pace.lines, shown)?;
    }
    Ok(())
}

/// Appends the lines of a scan's image, starting at one.
fn write_missing(
    alloc: Global,
    scan: &Scan,
    first: u32,
    shown: &mut Vec<u8>,
) -> Result<(), Memory> {
    let head = scan.head();
    let count = head.height().saturating_sub(first);
    let mut pixels = vec![in alloc; 0; count as usize * shape_of(head).line]?;
    if count > 0 {
        paint_scan_lines(alloc, scan, first, count, pixels.as_mut_slice())?;
    }
    Ok(shown.extend_from_slice(pixels.as_slice())?)
}

/// Appends the lines that are missing when no further byte comes.
fn finish(
    alloc: Global,
    partial_file: PartialFile,
    shown: &mut Vec<u8>,
) -> Result<Report, Refusal> {
    let lines = partial_file.lines();
    let Finished { scan, counts } = partial_file.finish(alloc)?;
    match write_missing(alloc, &scan, lines, shown) {
        Ok(()) => Ok(report_of(&scan, counts)),
        Err(_) => Err(Refusal::Memory),
    }
}

/// Lets a file arrive, and appends all lines of its image.
fn arrive(alloc: Global, bytes: &[u8], pace: Pace, shown: &mut Vec<u8>) -> Result<Report, Refusal>
    requires { 0 < pace.part }
{
    let mut partial_file = PartialFile::new(alloc);
    match push_parts(alloc, &mut partial_file, bytes, pace, shown) {
        Ok(()) => finish(alloc, partial_file, shown),
        Err(refusal) => Err(refusal),
    }
}

fn check_arrival(case: &Case<'_>, pace: Pace, path: &str, out: &mut Differences)
    requires { 0 < pace.part }
{
    let mut shown = Vec::new(case.alloc);
    let outcome = match arrive(case.alloc, case.bytes, pace, &mut shown) {
        Ok(report) => Ok(report),
        Err(Refusal::Memory) => return out.fail(NotationError::Memory),
        Err(refusal) => Err(Fault::Refused(refusal)),
    };
    compare_outcome(case, path, shown.as_slice(), outcome, out);
}

/// Lets a case's file arrive in parts of several sizes.
pub(crate) fn check_arrivals(case: &Case<'_>, out: &mut Differences) {
    if case.bytes.len() <= LONG {
        check_arrival(case, Pace { part: 1, lines: 8 }, "parts of 1 byte", out);
        check_arrival(case, Pace { part: 7, lines: 3 }, "parts of 7 bytes", out);
    }
    let part = 4099;
    check_arrival(case, Pace { part, lines: 1 }, "parts of 4099 bytes", out);
    let (part, lines) = (usize::MAX, u32::MAX);
    check_arrival(case, Pace { part, lines }, "one part", out);
}
