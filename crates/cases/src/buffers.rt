//! The calls of the C library that decode a whole file into buffers, check it, or read its header.

use crate::case::Case;
use crate::differences::Differences;
use crate::row::part;
use crate::texts::{after_first, is_doubt};
use jri_memory::status::{BUFFER_TOO_SMALL, OK};
use jri_memory::{
    DecodeReport, Header, check_marks, decode_file, end_text, read_header, refusal_text,
};
use std::alloc::{AllocError, Global};
use std::num::ParseIntError;
use test_files::error::NotationError;

/// What is in a buffer before a call.
const BEFORE: u8 = 7;

/// Returns what a file's header says.
pub(crate) fn header_of(alloc: Global, bytes: &[u8]) -> Header {
    let mut header = Header::empty();
    let _answer = read_header(alloc, bytes, 0, &mut header);
    header
}

/// Appends the line of a refusal.
pub(crate) fn write_refusal(text: &mut String, number: u32, detail: u64) -> Result<(), AllocError> {
    let mut bytes = [0; 64];
    let length = refusal_text(number, detail, &mut bytes);
    let words = str::from_utf8(&bytes[..length]).unwrap_or("no text");
    writeln!(text, "refused {number}: {words}")
}

/// Appends the lines of a report.
fn write_report(text: &mut String, report: &DecodeReport) -> Result<(), AllocError> {
    if report.refusal != 0 {
        return write_refusal(text, report.refusal, report.detail);
    }
    let mut bytes = [0; 96];
    let length = end_text(report, &mut bytes);
    let ended = str::from_utf8(&bytes[..length]).unwrap_or("no text");
    let (intervals, sound, damaged) = (report.intervals, report.sound, report.damaged);
    let blank = report.blank;
    writeln!(
        text,
        "intervals {intervals} sound {sound} damaged {damaged} blank {blank}\n{ended}"
    )
}

/// Compares what a call returns.
pub(crate) fn compare_call(
    case: &Case<'_>,
    path: &str,
    pixels: &[u8],
    report: &DecodeReport,
    answer: u32,
    out: &mut Differences,
) {
    let mut lines = String::new(case.alloc);
    out.note(write_report(&mut lines, report));
    case.compare(path, pixels, lines.as_str(), answer, out);
}

/// Returns the first and the last interval that a line of a map is of.
fn intervals_of(line: &str) -> Result<(usize, usize), ParseIntError> {
    let words = part(line, ',', 0);
    let first = part(words, ' ', 1).parse::<usize>()?;
    match part(words, ' ', 3) {
        "" => Ok((first, first)),
        last => Ok((first, last.parse::<usize>()?)),
    }
}

/// Marks the intervals of a line of a map as damaged, if they are not doubtful.
fn mark_line(marks: &mut [u8], line: &str) -> Result<(), NotationError> {
    if is_doubt(line) {
        return Ok(());
    }
    let (first, last) = intervals_of(line)?;
    match marks.get_mut(first..=last) {
        Some(damaged) => damaged.fill(2),
        None => return Err(NotationError::Malformed),
    }
    Ok(())
}

/// Marks the damaged intervals of a map, whose lines are separated by `/`.
fn mark_map(marks: &mut [u8], map: &str) -> Result<(), NotationError> {
    if !map.is_empty() {
        for line in map.split(" / ") {
            mark_line(marks, line)?;
        }
    }
    Ok(())
}

/// Decodes a file into buffers that just fit.
fn check_decoding(case: &Case<'_>, marks: &[u8], out: &mut Differences) {
    let mut pixels = out.bytes(BEFORE, case.samples().len());
    let mut found = out.bytes(BEFORE, marks.len());
    let mut report = DecodeReport::empty();
    let (alloc, bytes) = (case.alloc, case.bytes);
    let answer = decode_file(alloc, bytes, 0, &mut pixels, &mut found, &mut report);
    out.compare_bytes("decode, marks", marks, found.as_slice());
    compare_call(case, "decode", pixels.as_slice(), &report, answer, out);
}

/// Reads a file's intervals, without an image.
fn check_marks_of(case: &Case<'_>, marks: &[u8], out: &mut Differences) {
    let mut found = out.bytes(BEFORE, marks.len());
    let mut report = DecodeReport::empty();
    let answer = check_marks(case.alloc, case.bytes, 0, &mut found, &mut report);
    out.compare_bytes("marks", marks, found.as_slice());
    compare_call(case, "check of marks", case.samples(), &report, answer, out);
}

/// Decodes a file into a buffer that lacks a byte, which stays unchanged.
fn check_small_buffer(case: &Case<'_>, out: &mut Differences) {
    let size = case.samples().len().saturating_sub(1);
    let mut pixels = out.bytes(BEFORE, size);
    let wanted = out.bytes(BEFORE, size);
    let mut report = DecodeReport::empty();
    let answer = decode_file(case.alloc, case.bytes, 0, &mut pixels, &mut [], &mut report);
    out.compare_bytes("bytes kept", wanted.as_slice(), pixels.as_slice());
    out.compare_numbers("no room", u64::from(BUFFER_TOO_SMALL), u64::from(answer));
}

/// Compares the size of the image with what the header says.
fn check_header(case: &Case<'_>, out: &mut Differences) {
    let (width, height) = (case.header.width, case.header.height);
    let mut header = String::new(case.alloc);
    let magic = case.header.components / 2 + 5;
    out.note(write!(header, "P{magic}\n{width} {height}\n255\n"));
    let front = &case.picture[..header.len().min(case.picture.len())];
    out.compare_bytes("header", header.as_bytes(), front);
    let size = case.picture.len().saturating_sub(header.len());
    out.compare_numbers("pixels", size as u64, case.header.pixels);
    let mut partial = Header::empty();
    let answer = read_header(case.alloc, case.bytes, 1, &mut partial);
    let is_same = answer == OK && partial == case.header;
    out.compare_numbers("header, more may come", 1, u64::from(is_same));
}

/// Compares the size in the frame header of a refused file with that of the row, unless it is cut to several lengths.
fn check_size(case: &Case<'_>, out: &mut Differences) {
    if case.row.cut.is_some() {
        return;
    }
    let (width, height, components) = case.row.size;
    let found = &case.header;
    out.compare_numbers("width", u64::from(width), u64::from(found.width));
    out.compare_numbers("height", u64::from(height), u64::from(found.height));
    out.compare_numbers(
        "components",
        u64::from(components),
        u64::from(found.components),
    );
}

/// Decodes a case's file, checks it, and reads its header.
pub(crate) fn check_buffers(case: &Case<'_>, out: &mut Differences) {
    let mut marks = out.bytes(1, case.header.intervals as usize);
    if let Err(error) = mark_map(marks.as_mut_slice(), after_first(case.row.damaged)) {
        return out.fail(error);
    }
    check_decoding(case, marks.as_slice(), out);
    check_marks_of(case, marks.as_slice(), out);
    if !case.is_refused() {
        check_header(case, out);
        check_small_buffer(case, out);
    } else {
        check_size(case, out);
    }
}
