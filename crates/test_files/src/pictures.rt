//! Images in a short notation.
//!
//! `P5 16 8 : 8*136 8*128` is the header of a PGM of 16 columns and 8 lines, each of them 8 times 136 and 8 times 128.
//! Different lines are separated by `/`; `8x` before one writes it eight times. The samples of a colour are joined by
//! commas: `16*229,77,128`.

use crate::draft::Draft;
use crate::error::NotationError;
use std::alloc::{AllocError, Global};

/// Appends the bytes of a pixel, as `229,77,128`.
fn write_pixel(draft: &mut Draft, pixel: &str) {
    for sample in pixel.split(',') {
        let value = draft.number(sample, 10);
        draft.push((value % 256) as u8);
    }
}

/// Appends a number of times the bytes of a pixel, as `16*229,77,128`.
fn write_run(draft: &mut Draft, word: &str) {
    match word.split_once('*') {
        Some((times, pixel)) => {
            for _ in 0..draft.number(times, 10) {
                write_pixel(draft, pixel);
            }
        }
        None => draft.reject(),
    }
}

fn write_line(draft: &mut Draft, line: &str) {
    for word in line.split_whitespace() {
        write_run(draft, word);
    }
}

/// Writes a line, as often as `8x` before it says, otherwise the given number of times.
fn write_lines(draft: &mut Draft, line: &str, times: u32) {
    let (times, line) = match line.split_once('x') {
        Some((digits, line)) => (draft.number(digits.trim(), 10), line),
        None => (times, line),
    };
    for _ in 0..times {
        write_line(draft, line);
    }
}

/// Returns the first lines of an image's Netpbm text.
pub fn header(alloc: Global, magic: &str, width: u32, height: u32) -> Result<String, AllocError> {
    format!(in alloc; "{magic}\n{width} {height}\n255\n")
}

/// Appends the first lines of an image, as `P5 16 8`, and returns the number of its lines.
fn write_header(draft: &mut Draft, size: &str) -> u32 {
    let Some((magic, size)) = size.split_once(' ') else {
        draft.reject();
        return 0;
    };
    for text in [magic, "\n", size, "\n255\n"] {
        draft.append(text.as_bytes());
    }
    match size.split_once(' ') {
        Some((_, height)) => draft.number(height, 10),
        None => 0,
    }
}

/// Returns the Netpbm text of an image in the notation above.
pub fn picture(alloc: Global, words: &str) -> Result<Vec<u8>, NotationError> {
    let Some((size, lines)) = words.trim().split_once(" : ") else {
        return Err(NotationError::Malformed);
    };
    let mut draft = Draft::new(alloc);
    let height = write_header(&mut draft, size);
    let times = if lines.contains('/') { 1 } else { height };
    for line in lines.split('/') {
        write_lines(&mut draft, line, times);
    }
    draft.finish()
}
