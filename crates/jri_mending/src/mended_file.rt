//! The mended file, of the copies and the one that is combined of them.

ghost use Rattle.std.specs.Prelude.{◌<◌, ◌≤◌, length};
ghost use Rattle.jr_mend.specs.declared.choice.TheConstants.{MAX_COPIES};

use crate::asking::MendRequest;
use crate::combined::{CombinedCopy, combined_of};
use crate::preparing::Prepared;
use crate::reading::{CopyError, copies_of};
use crate::report::{is_first_sound, report_of};
use jr_mend::{ByteRun, Choice, FileCopy, MAX_COPIES, MendError, Mended, mend};
use std::alloc::Global;

/// A mended file, and what it is of.
#[derive(Drop)]
pub(crate) struct MendedFile {
    pub(crate) mended: Mended,
    /// The number of copies, without the combined one.
    pub(crate) copies: usize,
    /// The bytes of the combined copy that are chosen among those of the copies; none if no interval is from it.
    pub(crate) runs: Vec<ByteRun>,
}

impl MendedFile {
    /// Returns whether an interval is damaged in all copies.
    pub(crate) fn is_damaged(&self) -> bool {
        report_of(self.mended.choices.as_slice()).damaged > 0
    }
}

/// Returns why copies are not mended, with the number of a copy.
fn unmended(error: MendError) -> (usize, CopyError) {
    match error {
        MendError::Memory => (0, CopyError::Memory),
        MendError::TooLong => (0, CopyError::TooLong),
        MendError::OtherHead(copy) => (copy as usize, CopyError::OtherHead),
    }
}

/// Mends copies. The error has the number of a copy.
pub(crate) fn mend_copies(
    alloc: Global,
    copies: &[FileCopy],
) -> Result<MendedFile, (usize, CopyError)>
    requires some { 0 < length copies.now }
    requires few { length copies.now ≤ MAX_COPIES }
{
    match mend(alloc, copies) {
        Ok(mended) => Ok(MendedFile {
            mended,
            copies: copies.len(),
            runs: Vec::new(alloc),
        }),
        Err(error) => Err(unmended(error)),
    }
}

/// Returns whether the mended file is written. If all of the first copy is sound, and it is read as it is, that copy is.
pub(crate) fn is_changed(outcome: &MendedFile, prepared: &Prepared) -> bool {
    !is_first_sound(outcome.mended.choices.as_slice()) || prepared.changes_first()
}

/// Returns whether an interval is from a copy after these.
fn has_combined(choices: &[Choice], copies: usize) -> bool {
    for choice in choices {
        if choice.copy as usize >= copies {
            return true;
        }
    }
    false
}

/// Mends copies and the one that is combined of them, which comes last. The error has the number of a copy.
pub(crate) fn mend_with<'a>(
    alloc: Global,
    mut copies: Vec<FileCopy<'a>>,
    combined: &'a CombinedCopy,
) -> Result<MendedFile, (usize, CopyError)>
    requires some { 0 < length copies.items }
    requires few { length copies.items < MAX_COPIES }
{
    let count = copies.len();
    let Ok(copy) = FileCopy::of(alloc, &combined.file) else {
        return Err((count, CopyError::Memory));
    };
    let Ok(()) = copies.push(copy) else {
        return Err((count, CopyError::Memory));
    };
    let mended = match mend(alloc, &copies) {
        Ok(mended) => mended,
        Err(error) => return Err(unmended(error)),
    };
    let mut runs = Vec::new(alloc);
    if has_combined(mended.choices.as_slice(), count)
        && runs.extend_from_slice(&combined.runs).is_err()
    {
        return Err((count, CopyError::Memory));
    }
    Ok(MendedFile {
        mended,
        copies: count,
        runs,
    })
}

/// Mends files. If an interval is damaged in all copies they are also combined to one further copy. The error has the
/// number of a file.
pub(crate) fn mended_of(
    alloc: Global,
    asked: &MendRequest,
    files: &[Vec<u8>],
    prepared: &Prepared,
) -> Result<MendedFile, (usize, CopyError)>
    requires some { 0 < length files.now }
    requires few { length files.now ≤ MAX_COPIES }
{
    let copies = copies_of(alloc, files, &prepared.resynced)?;
    let outcome = mend_copies(alloc, &copies)?;
    if !outcome.is_damaged() || files.len() >= MAX_COPIES {
        return Ok(outcome);
    }
    match combined_of(alloc, files, asked.is_resync)? {
        Some(combined) => mend_with(alloc, copies, &combined),
        None => Ok(outcome),
    }
}
