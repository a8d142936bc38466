//! Markers of copies that are out of step, in lines and objects.

use jr_cut::Break;
use jri_machine::{BREAK, write_row};
use std::alloc::AllocError;

/// A marker of a copy that is out of step.
#[derive(Clone, Copy)]
pub(crate) struct CopyBreak {
    /// The number of the copy, from 0.
    pub(crate) copy: usize,
    pub(crate) found: Break,
}

/// Returns the number of a copy or a directory in a line, where they are counted from 1.
pub(crate) fn number_of(copy: usize) -> u64 {
    (copy as u64).saturating_add(1)
}

/// Appends a break, as a line or as an object.
pub(crate) fn write_break(
    line: &mut String,
    found: CopyBreak,
    is_json: bool,
) -> Result<(), AllocError> {
    let (copy, found) = (number_of(found.copy), found.found);
    if !is_json {
        return writeln!(line, "copy {copy}: {found}");
    }
    write!(line, "{{\"copy\":{copy}")?;
    let (code, due) = (u64::from(found.code), u64::from(found.due));
    let numbers = [found.at, code, due, u64::from(found.skipped)];
    write_row(line, BREAK, &numbers, is_json)
}
