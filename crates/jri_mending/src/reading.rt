//! The copies that are read.

ghost use Rattle.std.specs.Prelude.{◌≡◌, ◌<◌, ◌≤◌, IfOk, length};

use crate::breaks::CopyBreak;
use jr_cut::Break;
use jr_head::read_head;
use jr_mend::{FileCopy, ResyncFault, is_in_step, resynchronised};
use jr_segments::Refusal;
use jri_machine::{Devices, ReadError, read_bytes};
use std::alloc::Global;
use std::fmt;
use std::fmt::{Display, Formatter};
use std::io::{Error, ErrorKind};

/// The reason why a copy is not there.
#[derive(Clone, Copy)]
pub(crate) enum CopyError {
    /// It cannot be opened or read.
    Unread(Error),
    /// Its entry in a directory cannot be read.
    Unlisted(ReadError),
    /// It is refused.
    Refused(Refusal),
    /// It has another header than the first copy.
    OtherHead,
    /// The mended file would be too long.
    TooLong,
    /// Memory ran out.
    Memory,
}

impl CopyError {
    /// Returns the exit status: 2 for a copy of another file, 3 for one that is not read, 4 for the mended file and memory.
    pub(crate) fn status(&self) -> u8
        ensures { result ≤ 4 }
    {
        match self {
            CopyError::Unread(_) | CopyError::Unlisted(_) | CopyError::Refused(_) => 3,
            CopyError::OtherHead => 2,
            CopyError::TooLong | CopyError::Memory => 4,
        }
    }
}

impl Display for CopyError {
    fn fmt<W: fmt::Write>(&self, f: &mut Formatter<W>) -> fmt::Result {
        match self {
            CopyError::Unread(error) => write!(f, "cannot be read: {error}"),
            CopyError::Refused(refusal) => {
                let number = refusal.number();
                write!(f, "refused {number}: {refusal}")
            }
            CopyError::Unlisted(error) => write!(f, "cannot be read: {}", error.text()),
            CopyError::OtherHead => f.write_str("its header is not that of the first copy"),
            CopyError::TooLong => f.write_str("the mended file would be too long"),
            CopyError::Memory => f.write_str("out of memory"),
        }
    }
}

/// Returns why an input could not be read.
fn unread(error: Error) -> CopyError {
    if error.kind() == ErrorKind::OutOfMemory {
        return CopyError::Memory;
    }
    CopyError::Unread(error)
}

/// Reads the bytes of the file of this name, and at most one more than a file may have.
fn read_file<D: Devices>(alloc: Global, devices: &D, name: &str) -> Result<Vec<u8>, CopyError> {
    let size = devices.size(Some(name)).unwrap_or(0);
    let bytes = match devices.open(name) {
        Ok(file) => read_bytes(alloc, file, size),
        Err(error) => Err(error),
    };
    bytes.map_err(unread)
}

/// Returns why a file is no copy.
pub(crate) fn refused(refusal: Refusal) -> CopyError {
    match refusal {
        Refusal::Memory => CopyError::Memory,
        _ => CopyError::Refused(refusal),
    }
}

/// Appends the breaks of a copy.
fn append_breaks(
    breaks: &mut Vec<CopyBreak>,
    copy: usize,
    found: &[Break],
) -> Result<(), CopyError> {
    for found in found {
        let found = CopyBreak {
            copy,
            found: *found,
        };
        if breaks.push(found).is_err() {
            return Err(CopyError::Memory);
        }
    }
    Ok(())
}

/// Returns a file with its restart markers in step, unless they are, and appends its breaks.
pub(crate) fn in_step(
    alloc: Global,
    file: &[u8],
    copy: usize,
    breaks: &mut Vec<CopyBreak>,
) -> Result<Option<Vec<u8>>, CopyError> {
    let head = match read_head(alloc, file) {
        Ok(head) => head,
        Err(refusal) => return Err(refused(refusal)),
    };
    if is_in_step(&head, file) {
        return Ok(None);
    }
    match resynchronised(alloc, &head, file) {
        Ok(resynced) => {
            append_breaks(breaks, copy, &resynced.breaks)?;
            Ok(Some(resynced.file))
        }
        Err(ResyncFault::Memory) => Err(CopyError::Memory),
        Err(ResyncFault::TooLong) => Err(CopyError::Refused(Refusal::TooLong)),
    }
}

/// Reads the files. The error has the number of the file that is not there.
pub(crate) fn read_files<D: Devices>(
    alloc: Global,
    devices: &D,
    names: &[String],
) -> Result<Vec<Vec<u8>>, (usize, CopyError)>
    ensures { IfOk result (λ files. length files.items ≡ length names.now) }
{
    let mut files = Vec::new(alloc);
    for k in 0..names.len() {
        match read_file(alloc, devices, names[k].as_str()) {
            Ok(file) => {
                if files.push(file).is_err() {
                    return Err((k, CopyError::Memory));
                }
            }
            Err(error) => return Err((k, error)),
        }
    }
    Ok(files)
}

/// Resynchronises the files that are not in step, and appends their breaks. Returns for each file what it becomes if it is
/// out of step. The error has the number of a file.
pub(crate) fn resync_files(
    alloc: Global,
    files: &[Vec<u8>],
    breaks: &mut Vec<CopyBreak>,
) -> Result<Vec<Option<Vec<u8>>>, (usize, CopyError)> {
    let mut resynced = Vec::new(alloc);
    for k in 0..files.len() {
        match in_step(alloc, &files[k], k, breaks) {
            Ok(file) => {
                if resynced.push(file).is_err() {
                    return Err((k, CopyError::Memory));
                }
            }
            Err(error) => return Err((k, error)),
        }
    }
    Ok(resynced)
}

/// Returns what a file has become, the file itself if it is in step.
fn file_at<'a>(files: &'a [Vec<u8>], resynced: &'a [Option<Vec<u8>>], k: usize) -> &'a [u8]
    requires { k < length files.now }
{
    match resynced.get(k) {
        Some(Some(file)) => file.as_slice(),
        _ => files[k].as_slice(),
    }
}

/// Reads the headers of the copies, and cuts their scans. The error has the number of the copy that is refused.
pub(crate) fn copies_of<'a>(
    alloc: Global,
    files: &'a [Vec<u8>],
    resynced: &'a [Option<Vec<u8>>],
) -> Result<Vec<FileCopy<'a>>, (usize, CopyError)>
    ensures { IfOk result (λ copies. length copies.items ≡ length files.now) }
{
    let mut copies = Vec::new(alloc);
    for k in 0..files.len() {
        match FileCopy::of(alloc, file_at(files, resynced, k)) {
            Ok(copy) => {
                if copies.push(copy).is_err() {
                    return Err((k, CopyError::Memory));
                }
            }
            Err(refusal) => return Err((k, refused(refusal))),
        }
    }
    Ok(copies)
}
