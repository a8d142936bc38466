//! Files cut at each length and changed at each byte: each is refused and nothing is written, or its image has the size
//! that its header says.

use crate::buffers::header_of;
use crate::differences::Differences;
use crate::runs::written;
use jri_engine::Fault;
use jri_memory::Header;
use std::sync::Wait;
use std::thread::Threads;
use test_files::error::NotationError;
use test_files::files::{front, with_byte};
use test_files::pictures::header;

/// Returns whether an image has the first lines and the size that a header says.
fn is_of_header(text: &[u8], read: &Header, out: &mut Differences) -> bool {
    let magic = if read.components == 1 { "P5" } else { "P6" };
    let Ok(first_lines) = header(out.alloc, magic, read.width, read.height) else {
        out.fail(NotationError::Memory);
        return false;
    };
    let size = first_lines.len().saturating_add(read.pixels as usize);
    text.starts_with(first_lines.as_bytes()) && text.len() == size
}

/// Checks a changed file: its outcome agrees with its header.
fn check_one<R: Threads + Wait + Sync>(rt: &R, bytes: &[u8], at: usize, out: &mut Differences) {
    let (text, outcome) = written(rt, out.alloc, bytes, None);
    let read = header_of(out.alloc, bytes);
    let is_right = match outcome {
        Ok(_) => read.refusal == 0 && is_of_header(text.as_slice(), &read, out),
        Err(Fault::Refused(refusal)) => {
            u32::from(refusal.number()) == read.refusal && text.is_empty()
        }
        Err(_) => false,
    };
    if !is_right {
        out.add(
            "changed or cut at byte",
            at,
            ": its outcome is not that of its header",
        );
    }
}

/// Checks a file changed at a byte to a value.
fn check_changed<R: Threads + Wait + Sync>(
    rt: &R,
    whole: &[u8],
    at: usize,
    value: u8,
    out: &mut Differences,
) {
    match with_byte(out.alloc, whole, at, value) {
        Ok(bytes) => check_one(rt, bytes.as_slice(), at, out),
        Err(error) => out.fail(error),
    }
}

/// Checks a file cut at each length, and changed at each byte to FF and to 00.
pub(crate) fn check_sweep<R: Threads + Wait + Sync>(rt: &R, whole: &[u8], out: &mut Differences) {
    for at in 0..whole.len() {
        check_one(rt, front(whole, at), at, out);
        check_changed(rt, whole, at, 0xFF, out);
        check_changed(rt, whole, at, 0x00, out);
    }
}
