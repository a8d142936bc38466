//! The calls of the C library that decode some lines, and that decode onto a canvas.

use crate::buffers::compare_call;
use crate::case::Case;
use crate::differences::Differences;
use jri_memory::{CanvasShape, DecodeReport, decode_canvas, decode_lines};
use std::alloc::AllocError;

/// The number of lines that are decoded at once.
const LINES: u32 = 3;

/// The number of lines that are decoded alone is about so great.
const CALLS: u32 = 16;

/// The number of bytes by which a line of a canvas is longer than one of the image.
const SPARE: usize = 5;

/// Returns the bytes of the given number of lines starting at one.
fn lines_at<'a>(samples: &'a [u8], line: usize, first: u32, count: u32) -> &'a [u8] {
    let from = usize::saturating_mul(first as usize, line).min(samples.len());
    let rest = &samples[from..];
    let length = usize::saturating_mul(count as usize, line).min(rest.len());
    &rest[..length]
}

/// Decodes lines that start at one.
fn check_lines_at(case: &Case<'_>, first: u32, out: &mut Differences) {
    let (line, height) = (case.line(), case.header.height);
    let count = LINES.min(height.saturating_sub(first));
    let mut pixels = out.bytes(7, usize::saturating_mul(count as usize, line));
    let mut report = DecodeReport::empty();
    let (alloc, bytes) = (case.alloc, case.bytes);
    let _answer = decode_lines(alloc, bytes, 0, first, count, &mut pixels, &mut report);
    let wanted = lines_at(case.samples(), line, first, count);
    out.compare_bytes("some lines", wanted, pixels.as_slice());
}

/// Decodes lines that start at several lines of the image.
fn check_some_lines(case: &Case<'_>, out: &mut Differences) {
    let height = case.header.height;
    let step = height.div_ceil(CALLS).max(1);
    for first in (0..height).step_by(step as usize) {
        check_lines_at(case, first, out);
    }
}

/// Decodes all lines, which has the report of the whole image.
fn check_all_lines(case: &Case<'_>, out: &mut Differences) {
    let (alloc, bytes, height) = (case.alloc, case.bytes, case.header.height);
    let mut pixels = out.bytes(7, case.samples().len());
    let mut report = DecodeReport::empty();
    let answer = decode_lines(alloc, bytes, 0, 0, height, &mut pixels, &mut report);
    compare_call(case, "all lines", pixels.as_slice(), &report, answer, out);
}

/// Appends the lines of a canvas, without what is between them.
fn write_without_spare(lines: &mut Vec<u8>, canvas: &[u8], line: usize) -> Result<(), AllocError> {
    for part in canvas.chunks(line.saturating_add(SPARE).max(1)) {
        lines.extend_from_slice(&part[..line.min(part.len())])?;
    }
    Ok(())
}

/// Decodes onto a canvas in the image's own layout.
fn check_canvas(case: &Case<'_>, out: &mut Differences) {
    let (alloc, line, bytes) = (case.alloc, case.line(), case.bytes);
    let stride = line.saturating_add(SPARE);
    let mut canvas = out.bytes(7, stride.saturating_mul(case.header.height as usize));
    let mut report = DecodeReport::empty();
    let shape = CanvasShape { stride, layout: 0 };
    let answer = decode_canvas(alloc, bytes, 0, &mut canvas, shape, &mut [], &mut report);
    let mut found = Vec::new(alloc);
    out.note(write_without_spare(&mut found, canvas.as_slice(), line));
    compare_call(case, "canvas", found.as_slice(), &report, answer, out);
}

/// Decodes lines of a case's file, and decodes it onto a canvas.
pub(crate) fn check_lines_of(case: &Case<'_>, out: &mut Differences) {
    check_some_lines(case, out);
    check_all_lines(case, out);
    check_canvas(case, out);
}
