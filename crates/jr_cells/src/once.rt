//! Cells that are set once, whatever they hold, and the notes that a thread takes of them.

ghost use Rattle.std.specs.Prelude.{◌≡◌, ◌<◌, map, length, replicate, None, IfOk, IfErr, IfSome, IfNone};
ghost use Rattle.once_cell.specs.Once.{cell_name};
ghost use Rattle.jr_cells.specs.Notes.{names_of, known_of, KnowAt, KnowNothingAt, KeepAll, KeepOthers, NotesAgree};

use jr_base::Memory;
use once_cell::race::{Note, OnceBox};
use std::alloc::Global;

/// Returns `count` empty cells.
pub(crate) fn empty_cells<T: Drop>(alloc: Global, count: u32) -> Result<Vec<OnceBox<T>>, Memory>
    ensures { IfOk result (λ v. length v.items ≡ count) }
{
    let mut cells = Vec::with_capacity(alloc, count as usize)?;
    for _ in 0..count {
        cells.push(OnceBox::new(alloc))?;
    }
    Ok(cells)
}

/// Notes of these cells that know nothing.
pub(crate) fn fresh_notes<T: Drop>(
    alloc: Global,
    cells: &[OnceBox<T>],
) -> Result<Vec<Note<T>>, Memory>
    ensures cells { IfOk result (λ v. names_of v.items ≡ map cell_name cells.now) }
    ensures nothing { IfOk result (λ v. known_of v.items ≡ replicate (length cells.now) None) }
{
    let mut notes = Vec::with_capacity(alloc, cells.len())?;
    for cell in cells {
        notes.push(cell.note())?;
    }
    Ok(notes)
}

/// Sets the cell at an index. On `Err` the cell is full or allocation failed, and the value is returned.
pub(crate) fn set_cell<T: Drop>(
    alloc: Global,
    cells: &[OnceBox<T>],
    at: usize,
    value: T,
    notes: &mut Vec<Note<T>>,
) -> Result<(), T>
    requires cell { at < length cells.now }
    requires notes { names_of notes.old.items ≡ map cell_name cells.now }
    ensures cells { names_of notes.new.items ≡ names_of notes.old.items }
    ensures later { KeepAll notes.old.items notes.new.items }
    ensures ok { IfOk result (λ _. KnowAt notes.new.items at value) }
    ensures err { IfErr result (λ back. back ≡ value) }
{
    let boxed = match Box::new(alloc, value) {
        Ok(boxed) => boxed,
        Err(refused) => return Err(refused.value),
    };
    match cells[at].set_as(boxed, &mut notes[at]) {
        Ok(()) => Ok(()),
        Err(back) => Err(Box::into_inner(back)),
    }
}

/// Returns what a cell holds, or `None` while it is empty.
pub(crate) fn get_cell<'a, T: Drop>(
    cells: &'a [OnceBox<T>],
    at: usize,
    notes: &mut Vec<Note<T>>,
) -> Option<&'a T>
    requires cell { at < length cells.now }
    requires notes { names_of notes.old.items ≡ map cell_name cells.now }
    ensures cells { names_of notes.new.items ≡ names_of notes.old.items }
    ensures later { KeepAll notes.old.items notes.new.items }
    ensures others { KeepOthers at notes.old.items notes.new.items }
    ensures some { IfSome result (λ x. KnowAt notes.new.items at x.now) }
    ensures none { IfNone result ((known_of notes.new.items ≡ known_of notes.old.items) × KnowNothingAt notes.old.items at) }
{
    cells[at].get_as(&mut notes[at])
}

/// Notes of the same cells agree on what both know. Neither are changed.
pub(crate) fn compare_notes<T: Drop>(one: &mut Vec<Note<T>>, two: &mut Vec<Note<T>>)
    requires { names_of one.old.items ≡ names_of two.old.items }
    ensures same { (one.new.items ≡ one.old.items) × (two.new.items ≡ two.old.items) }
    ensures agree { NotesAgree one.old.items two.old.items }
{
    for i in 0..one.len() {
        let other = two[i].again();
        one[i].compare(other);
    }
}
