//! Copies that are read under the header of another copy.

ghost use Rattle.std.specs.Prelude.{◌≡◌, ◌<◌, IfOk, length};
ghost use Rattle.jr_head.specs.Heads.{HeadOf};

use crate::breaks::number_of;
use crate::reading::{CopyError, refused};
use jr_head::{Head, read_head};
use jr_mend::under_header;
use jr_segments::Refusal;
use jri_machine::{Row, write_row};
use std::alloc::{AllocError, Global};
use std::mem::replace;

/// A copy that is read under the header of another one. Copies are counted from 0.
#[derive(Clone, Copy)]
pub(crate) struct Borrowed {
    pub(crate) copy: usize,
    /// The copy whose header it gets.
    pub(crate) from: usize,
}

/// Of a copy that is read under another header.
const BORROWED: Row = Row {
    labels: &[
        ("copy ", "{\"copy\":"),
        (": read under the header of copy ", ",\"from\":"),
    ],
    end: ("\n", "}"),
};

/// Appends both copies, as a line or as an object.
pub(crate) fn write_borrowed(
    line: &mut String,
    found: Borrowed,
    is_json: bool,
) -> Result<(), AllocError> {
    let numbers = [number_of(found.copy), number_of(found.from)];
    write_row(line, BORROWED, &numbers, is_json)
}

/// A copy with an accepted header, taken from the others.
#[derive(Drop)]
struct Lender {
    copy: usize,
    head: Head,
    file: Vec<u8>,
}

/// Takes the first copy with an accepted header; an empty one stays in its position. The error is that of the first
/// copy, unless memory ran out.
fn take_lender(alloc: Global, files: &mut [Vec<u8>]) -> Result<Lender, (usize, CopyError)>
    ensures within { IfOk result (λ l. l.copy < length files.new) }
    ensures long { length files.new ≡ length files.old }
    ensures head { IfOk result (λ l. HeadOf l.file.items l.head) }
{
    let mut first = Refusal::NotJpeg;
    for copy in 0..files.len() {
        let file = replace(&mut files[copy], Vec::new(alloc));
        match read_head(alloc, &file) {
            Ok(head) => return Ok(Lender { copy, head, file }),
            Err(Refusal::Memory) => return Err((copy, CopyError::Memory)),
            Err(refusal) => {
                if copy == 0 {
                    first = refusal;
                }
            }
        }
        files[copy] = file;
    }
    Err((0, refused(first)))
}

/// Returns whether a file has this header.
fn has_header(alloc: Global, head: &Head, file: &[u8]) -> Result<bool, CopyError> {
    match read_head(alloc, file) {
        Ok(own) => Ok(own.is_same(head)),
        Err(Refusal::Memory) => Err(CopyError::Memory),
        Err(_) => Ok(false),
    }
}

/// Returns a file under the header of the lender, unless it has that header.
fn under_lender(alloc: Global, lender: &Lender, file: &[u8]) -> Result<Option<Vec<u8>>, CopyError>
    requires { HeadOf lender.now.file.items lender.now.head }
{
    if has_header(alloc, &lender.head, file)? {
        return Ok(None);
    }
    match under_header(alloc, &lender.head, &lender.file, file) {
        Ok(file) => Ok(Some(file)),
        Err(_) => Err(CopyError::Memory),
    }
}

/// Reads each copy with another header than the first accepted one, or with none, under that header. Returns these
/// copies. The error has the number of a copy.
pub(crate) fn borrow_headers(
    alloc: Global,
    files: &mut [Vec<u8>],
) -> Result<Vec<Borrowed>, (usize, CopyError)>
    ensures { length files.new ≡ length files.old }
{
    let lender = take_lender(alloc, files)?;
    let from = lender.copy;
    let mut borrowed = Vec::new(alloc);
    for copy in 0..files.len() {
        if copy == from {
            continue;
        }
        match under_lender(alloc, &lender, &files[copy]) {
            Ok(None) => {}
            Ok(Some(file)) => {
                files[copy] = file;
                if borrowed.push(Borrowed { copy, from }).is_err() {
                    return Err((copy, CopyError::Memory));
                }
            }
            Err(error) => return Err((copy, error)),
        }
    }
    files[from] = lender.file;
    Ok(borrowed)
}
