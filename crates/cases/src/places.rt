//! Rows of MCUs from positions: one after the other, all at once, while the file comes, each from its own position, and
//! from windows of the file.

ghost use Rattle.std.specs.Prelude.{◌<◌, ◌≤◌};

use crate::buffers::write_refusal;
use crate::case::Case;
use crate::differences::Differences;
use jri_memory::status::{NOT_IN_WINDOW, OK};
use jri_memory::{
    FileBytes, RowPlace, RowsReport, decode_file_rows, decode_window_rows, skip_file_rows,
};
use std::alloc::{AllocError, Global};

/// A file of more bytes does not come in small parts.
pub(crate) const LONG: usize = 1024;

/// The top of an image.
const TOP: RowPlace = RowPlace {
    at: 0,
    bit: 0,
    row: 0,
    interval: 0,
    mcu: 0,
    predictions: [0; 3],
    state: 0,
};

/// The position after the rows that are decoded, their first line, and what the last call reported.
#[derive(Clone, Copy)]
struct Reading {
    alloc: Global,
    place: RowPlace,
    first_line: u32,
    report: RowsReport,
    /// The size of a line in bytes.
    line: usize,
}

impl Reading {
    fn at_top(case: &Case<'_>) -> Reading {
        Reading {
            alloc: case.alloc,
            place: TOP,
            first_line: 0,
            report: RowsReport::empty(),
            line: case.line(),
        }
    }

    /// Returns the offset of the next line in an image of the given size in bytes.
    fn offset(&self, size: usize) -> usize
        ensures { result ≤ size }
    {
        usize::saturating_mul(self.first_line as usize, self.line).min(size)
    }

    /// Notes a call's report, and returns whether the call has succeeded.
    fn step(&mut self, answer: u32, place: RowPlace, report: RowsReport) -> bool {
        self.place = place;
        self.report = report;
        if answer == OK && report.lines > 0 {
            self.first_line = report.first_line.saturating_add(report.lines);
        }
        answer == OK
    }

    /// Decodes at most the given number of rows to their lines in `pixels`, of the whole image, and returns whether the call
    /// succeeds.
    fn decode(&mut self, bytes: &[u8], more: u32, rows: u32, pixels: &mut [u8]) -> bool {
        let (mut place, mut report) = (self.place, RowsReport::empty());
        let from = self.offset(pixels.len());
        let (alloc, rest) = (self.alloc, &mut pixels[from..]);
        let answer = decode_file_rows(alloc, bytes, more, &mut place, rows, rest, &mut report);
        self.step(answer, place, report)
    }

    /// Decodes the rows that a window makes final to their lines in `pixels`, and returns the call's status.
    fn decode_window(&mut self, header: &[u8], window: FileBytes<'_>, pixels: &mut [u8]) -> u32 {
        let (mut place, mut report) = (self.place, RowsReport::empty());
        let from = self.offset(pixels.len());
        let (alloc, rest) = (self.alloc, &mut pixels[from..]);
        let (rows, all) = (u32::MAX, &mut report);
        let answer = decode_window_rows(alloc, header, window, &mut place, rows, rest, all);
        self.step(answer, place, report);
        answer
    }
}

/// Decodes rows into `pixels`, at most the given number a call, until no row is left.
fn by_rows(case: &Case<'_>, rows: u32, pixels: &mut [u8]) -> Reading {
    let mut reading = Reading::at_top(case);
    for _ in 0..=pixels.len() {
        if !reading.decode(case.bytes, 0, rows, pixels) {
            break;
        }
    }
    reading
}

/// Decodes the rows that are final each time that the given number of bytes has come, and the others at the end.
fn in_parts(case: &Case<'_>, part: usize, pixels: &mut [u8])
    requires { 0 < part }
{
    let bytes = case.bytes;
    let mut reading = Reading::at_top(case);
    let mut length: usize = 0;
    for more in bytes.chunks(part) {
        length = length.saturating_add(more.len()).min(bytes.len());
        reading.decode(&bytes[..length], 1, u32::MAX, pixels);
    }
    reading.decode(bytes, 0, u32::MAX, pixels);
}

/// Returns the bytes of a file starting at an offset, at most the given number.
fn window_of(bytes: &[u8], at: u64, size: usize) -> FileBytes<'_> {
    let from = at.min(bytes.len() as u64) as usize;
    let window = &bytes[from..];
    let size = size.min(window.len());
    FileBytes {
        from: from as u64,
        bytes: &window[..size],
        are_all: size == window.len(),
    }
}

/// Decodes the rows from windows that begin at their positions: of `size` bytes, or twice as many as the last one if
/// that has made no row final.
fn in_windows(case: &Case<'_>, size: usize, pixels: &mut [u8]) {
    let bytes = case.bytes;
    let mut reading = Reading::at_top(case);
    let mut header: &[u8] = &[];
    let mut length = size;
    for _ in 0..=bytes.len() {
        let window = window_of(bytes, reading.place.at, length);
        if reading.place.at == 0 {
            header = window.bytes;
        }
        if reading.decode_window(header, window, pixels) != OK {
            return;
        }
        length = if reading.report.rows > 0 {
            size
        } else {
            usize::saturating_mul(length, 2)
        };
    }
}

/// Compares the results of windows that do not have the position: one that begins after the file's end, and one that
/// ends before the scan header's.
fn compare_outside(case: &Case<'_>, pixels: &mut [u8], out: &mut Differences) {
    for from in [u64::MAX, 0] {
        let window = FileBytes {
            from,
            bytes: &[],
            are_all: true,
        };
        let answer = Reading::at_top(case).decode_window(case.bytes, window, pixels);
        out.compare_numbers(
            "rows of another window",
            u64::from(NOT_IN_WINDOW),
            u64::from(answer),
        );
    }
}

/// Appends the readings that stand before each row.
fn write_index(entries: &mut Vec<Reading>, case: &Case<'_>) -> Result<(), AllocError> {
    let mut next = TOP;
    for _ in 0..case.header.height {
        let mut entry = Reading::at_top(case);
        entry.place = next;
        if skip_file_rows(case.alloc, case.bytes, 0, &mut next, 1, &mut entry.report) != OK {
            break;
        }
        entry.first_line = entry.report.first_line;
        if entries.push(entry).is_err() {
            return Err(AllocError);
        }
    }
    Ok(())
}

/// Decodes each row from its own position, the last row first.
fn by_index(case: &Case<'_>, pixels: &mut [u8], out: &mut Differences) {
    let mut entries = Vec::new(case.alloc);
    out.note(write_index(&mut entries, case));
    for entry in entries.iter().rev() {
        let mut reading = *entry;
        reading.decode(case.bytes, 0, 1, pixels);
    }
}

/// Compares an image with a case's, and clears it.
fn compare_pixels(case: &Case<'_>, path: &str, pixels: &mut [u8], out: &mut Differences) {
    out.compare_bytes(path, case.samples(), pixels);
    pixels.fill(7);
}

/// Compares the refusal that a call reports.
fn compare_refusal(case: &Case<'_>, report: &RowsReport, out: &mut Differences) {
    let mut found = String::new(case.alloc);
    out.note(write_refusal(&mut found, report.refusal, report.detail));
    out.compare_texts("rows", case.report, found.as_str());
}

/// Decodes the rows of a case's file in several ways; `pixels` has space for its image.
fn check_ways(case: &Case<'_>, pixels: &mut [u8], out: &mut Differences) {
    let reading = by_rows(case, 1, pixels);
    if case.is_refused() {
        return compare_refusal(case, &reading.report, out);
    }
    compare_pixels(case, "row by row", pixels, out);
    by_rows(case, u32::MAX, pixels);
    compare_pixels(case, "all rows", pixels, out);
    let part = if case.bytes.len() <= LONG { 1 } else { 4099 };
    in_parts(case, part, pixels);
    compare_pixels(case, "rows as they come", pixels, out);
    by_index(case, pixels, out);
    compare_pixels(case, "rows by index", pixels, out);
    in_windows(case, 16, pixels);
    compare_pixels(case, "rows in windows", pixels, out);
    compare_outside(case, pixels, out);
}

/// Decodes the rows of a case's file from positions.
pub(crate) fn check_places(case: &Case<'_>, out: &mut Differences) {
    let mut pixels = out.bytes(7, case.samples().len());
    check_ways(case, pixels.as_mut_slice(), out);
}
