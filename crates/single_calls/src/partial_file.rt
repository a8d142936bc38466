//! An example of a file that arrives: standard input is read in parts, and after each part the lines of the image that
//! the bytes so far determine are written. A reader of the output sees the image grow while the file still arrives.

ghost use Rattle.std.specs.Prelude.{◌≤◌};

use jr_arrival::{Finished, PartialFile};
use jr_base::Memory;
use jr_head::Head;
use jr_paint::{HEADER_SPACE, write_header};
use jr_picture::Counts;
use jr_rows::{paint_scan_lines, shape_of};
use jr_scan::Scan;
use jr_segments::Refusal;
use std::alloc::{AllocError, Global};
use std::io::{Error, Read, Write};
use std::mem::replace;

/// The maximum number of bytes that may be read at once.
const MAX_PART: usize = 1 << 30;

/// More lines than an image has.
const MAX_LINES: u32 = 65_536;

/// The reason why there is no image, or no whole one.
#[derive(Clone, Copy)]
enum Failure {
    Stream,
    /// The file is refused, or allocation fails.
    Refused(Refusal),
}

impl From<Error> for Failure {
    fn from(_failed: Error) -> Self {
        Failure::Stream
    }
}

impl From<AllocError> for Failure {
    fn from(_refused: AllocError) -> Self {
        Failure::Refused(Refusal::Memory)
    }
}

impl From<Memory> for Failure {
    fn from(_refused: Memory) -> Self {
        Failure::Refused(Refusal::Memory)
    }
}

impl From<Refusal> for Failure {
    fn from(refusal: Refusal) -> Self {
        Failure::Refused(refusal)
    }
}

/// Returns the size of that number of lines in bytes, and no more than fit.
fn bytes_of(head: &Head, lines: u32, space: usize) -> usize
    ensures { result ≤ space }
{
    (lines as usize)
        .saturating_mul(shape_of(head).line)
        .min(space)
}

/// Allocates `pixels` for the lines of a row of MCUs and for the header, and writes the header.
fn write_file_header<W: Write>(
    alloc: Global,
    head: &Head,
    pixels: &mut Vec<u8>,
    out: &mut W,
) -> Result<(), Failure> {
    let shape = shape_of(head);
    let lines = (shape.deep as usize).saturating_mul(shape.line);
    drop(replace(pixels, vec![in alloc; 0; lines.max(HEADER_SPACE)]?));
    let filled = write_header(head, pixels.as_mut_slice());
    Ok(out.write_all(&pixels[..filled])?)
}

/// Writes the header if it has come and is not written yet. `pixels` is empty until then.
fn begin<W: Write>(
    alloc: Global,
    partial_file: &mut PartialFile,
    pixels: &mut Vec<u8>,
    out: &mut W,
) -> Result<(), Failure> {
    partial_file.begin(alloc)?;
    match partial_file.head() {
        Some(head) if pixels.is_empty() => write_file_header(alloc, head, pixels, out),
        _ => Ok(()),
    }
}

/// Writes the next lines that are final, and returns whether there are any.
fn write_next<W: Write>(
    alloc: Global,
    partial_file: &mut PartialFile,
    pixels: &mut [u8],
    out: &mut W,
) -> Result<bool, Failure> {
    let lines = partial_file.next_lines(alloc, pixels)?;
    match partial_file.head() {
        Some(head) if lines > 0 => {
            let end = bytes_of(head, lines, pixels.len());
            out.write_all(&pixels[..end])?;
            Ok(true)
        }
        _ => Ok(false),
    }
}

/// Writes the lines that are final so far. `pixels` has space for them once there is a header.
fn write_settled<W: Write>(
    alloc: Global,
    partial_file: &mut PartialFile,
    pixels: &mut [u8],
    out: &mut W,
) -> Result<(), Failure> {
    if pixels.is_empty() {
        return Ok(());
    }
    for _ in 0..MAX_LINES {
        if !write_next(alloc, partial_file, pixels, out)? {
            break;
        }
    }
    Ok(out.flush()?)
}

/// Returns the lines starting at one: those that no further byte has made final.
fn rest_of(alloc: Global, scan: &Scan, first: u32) -> Result<Vec<u8>, Memory> {
    let head = scan.head();
    let left = head.height().saturating_sub(first);
    let mut pixels = vec![in alloc; 0; left as usize * shape_of(head).line]?;
    if left > 0 {
        paint_scan_lines(alloc, scan, first, left, pixels.as_mut_slice())?;
    }
    Ok(pixels)
}

/// Reads a file that arrives in parts of at most `part` bytes, and writes the lines that they make final.
fn take_all<I: Read, W: Write>(
    alloc: Global,
    part: usize,
    input: &mut I,
    partial_file: &mut PartialFile,
    pixels: &mut Vec<u8>,
    out: &mut W,
) -> Result<(), Failure> {
    let mut bytes = vec![in alloc; 0; part]?;
    for _ in 0..u64::MAX {
        let count = input.read(bytes.as_mut_slice())?;
        if count == 0 {
            break;
        }
        partial_file.push(&bytes[..count])?;
        begin(alloc, partial_file, pixels, out)?;
        write_settled(alloc, partial_file, pixels.as_mut_slice(), out)?;
    }
    Ok(())
}

/// Writes what is missing of a finished file's image, of which the given number of lines is written.
/// `pixels` is empty if the header is missing also.
fn write_missing<W: Write>(
    alloc: Global,
    scan: &Scan,
    lines: u32,
    pixels: &mut Vec<u8>,
    out: &mut W,
) -> Result<(), Failure> {
    if pixels.is_empty() {
        write_file_header(alloc, scan.head(), pixels, out)?;
    }
    let rest = rest_of(alloc, scan, lines)?;
    Ok(out.write_all(rest.as_slice())?)
}

/// Writes what is missing when no further byte comes.
fn finish<W: Write>(
    alloc: Global,
    partial_file: PartialFile,
    pixels: &mut Vec<u8>,
    out: &mut W,
) -> Result<Counts, Failure> {
    let lines = partial_file.lines();
    let Finished { scan, counts } = partial_file.finish(alloc)?;
    write_missing(alloc, &scan, lines, pixels, out)?;
    Ok(counts)
}

/// Writes the image of a file that arrives in parts of at most `part` bytes. Returns how many of its restart
/// intervals are sound and damaged.
fn show<I: Read, W: Write>(
    alloc: Global,
    part: usize,
    input: &mut I,
    out: &mut W,
) -> Result<Counts, Failure> {
    let mut partial_file = PartialFile::new(alloc);
    let mut pixels = Vec::new(alloc);
    match take_all(alloc, part, input, &mut partial_file, &mut pixels, out) {
        Ok(()) => finish(alloc, partial_file, &mut pixels, out),
        Err(failure) => Err(failure),
    }
}

/// Reports the numbers of sound and damaged restart intervals, and returns the exit status.
fn report<E: Write>(errors: &mut E, counts: &Counts) -> u8 {
    let (sound, damaged) = (counts.sound, counts.damaged);
    let _ = writeln!(errors, "intervals sound {sound} damaged {damaged}");
    if damaged > 0 { 3 } else { 0 }
}

/// Reports why there is no image, or no whole one, and returns the exit status.
fn report_outcome<E: Write>(errors: &mut E, failure: Failure) -> u8 {
    let _ = match failure {
        Failure::Stream => writeln!(errors, "a stream failed"),
        Failure::Refused(Refusal::Memory) => writeln!(errors, "out of memory"),
        Failure::Refused(refusal) => writeln!(errors, "refused {}: {refusal}", refusal.number()),
    };
    match failure {
        Failure::Stream | Failure::Refused(Refusal::Memory) => 1,
        Failure::Refused(_) => 2,
    }
}

/// Writes the image of standard input, read in parts of at most the given number of bytes, and reports
/// on standard error. Returns the exit status: 0, 3 if an interval is damaged, 1 if a stream or memory failed, 2 for a
/// refused file or another argument.
pub(crate) fn show_input(rt: &HostRuntime, word: &str) -> u8 {
    let (mut out, mut errors) = (rt.stdout(), rt.stderr());
    let part = match word.parse::<usize>() {
        Ok(part) if part > 0 && part <= MAX_PART => part,
        _ => return 2,
    };
    match show(rt.alloc(), part, &mut rt.stdin(), &mut out) {
        Ok(counts) => report(&mut errors, &counts),
        Err(failure) => report_outcome(&mut errors, failure),
    }
}
