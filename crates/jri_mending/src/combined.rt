//! The copy that is combined of all copies.

use crate::reading::{CopyError, copies_of, in_step};
use jr_mend::{ByteRun, CombineError, Combined, MAX_COPIES, combine};
use jri_machine::{Row, write_row};
use std::alloc::{AllocError, Global};

/// A copy that is combined of the copies, which have one length.
#[derive(Drop)]
pub(crate) struct CombinedCopy {
    pub(crate) file: Vec<u8>,
    /// The bytes that are chosen among those of the copies, by their offsets in each of them.
    pub(crate) runs: Vec<ByteRun>,
}

/// Combines the files, and resynchronises the combined copy if it is out of step. Returns `None` if they have no one length
/// and header, or do not differ. The error has the number of a file.
pub(crate) fn combined_of(
    alloc: Global,
    files: &[Vec<u8>],
    is_resync: bool,
) -> Result<Option<CombinedCopy>, (usize, CopyError)> {
    let copies = copies_of(alloc, files, &[])?;
    if copies.len() < 2 || copies.len() >= MAX_COPIES {
        return Ok(None);
    }
    let combined = match combine(alloc, &copies) {
        Ok(combined) => combined,
        Err(CombineError::Memory) => return Err((0, CopyError::Memory)),
        Err(_) => return Ok(None),
    };
    if combined.runs.is_empty() {
        return Ok(None);
    }
    let Combined { file, runs } = combined;
    let file = if is_resync {
        let mut breaks = Vec::new(alloc);
        match in_step(alloc, &file, 0, &mut breaks) {
            Ok(Some(resynced)) => resynced,
            Ok(None) => file,
            Err(CopyError::Memory) => return Err((0, CopyError::Memory)),
            Err(_) => return Ok(None),
        }
    } else {
        file
    };
    Ok(Some(CombinedCopy { file, runs }))
}

/// Of bytes of the combined copy, in a line.
const BYTES: Row = Row {
    labels: &[
        ("combined copy: bytes ", "{\"first_byte\":"),
        (" to ", ",\"last_byte\":"),
        (" from copy ", ",\"copy\":"),
    ],
    end: ("\n", "}"),
};

/// Of one byte.
const BYTE: Row = Row {
    labels: &[
        ("combined copy: byte ", "{\"first_byte\":"),
        ("", ",\"last_byte\":"),
        (" from copy ", ",\"copy\":"),
    ],
    end: ("\n", "}"),
};

/// Appends bytes of the combined copy and their copy, as a line or as an object.
pub(crate) fn write_bytes(
    line: &mut String,
    run: ByteRun,
    is_json: bool,
) -> Result<(), AllocError> {
    let (first, last) = (run.start as u64, (run.end as u64).saturating_sub(1));
    let row = if first == last { BYTE } else { BYTES };
    let copy = u64::from(run.copy).saturating_add(1);
    write_row(line, row, &[first, last, copy], is_json)
}

/// Returns the bytes of the run of this number and of those that follow it without a gap, from the same copy, and the number of
/// the run after them.
pub(crate) fn joined_at(runs: &[ByteRun], first: usize) -> Option<(ByteRun, usize)> {
    if first >= runs.len() {
        return None;
    }
    let mut bytes = runs[first];
    let mut next = first.saturating_add(1);
    for k in next..runs.len() {
        let run = runs[k];
        if run.start != bytes.end || run.copy != bytes.copy {
            break;
        }
        bytes.end = run.end;
        next = k.saturating_add(1);
    }
    Some((bytes, next))
}
