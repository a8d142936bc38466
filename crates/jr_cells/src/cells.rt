//! A cell for each interval's piece, and what a thread has seen of them.

ghost use Rattle.std.specs.Prelude.{◌≡◌, ℕ, ◌<◌, length, replicate, None, Some, IfOk, IfErr, IfSome, IfNone};
ghost use Rattle.std.specs.Arc.{arc_value};
ghost use Rattle.jr_piece.specs.Outcome.{IsOutcome};
ghost use Rattle.jr_cells.specs.Sights.{Knows, KnowsNothing, KnowsAll, Agree};

use crate::once::{compare_notes, empty_cells, fresh_notes, get_cell, set_cell};
use jr_base::Memory;
use jr_piece::Piece;
use once_cell::race::{Note, OnceBox};
use std::alloc::Global;
use std::marker::Model;
use std::sync::Arc;

/// A cell for the piece of each interval. Each is empty until a piece is published in it (`hang`), and then holds that
/// piece for good.
///
/// Threads publish and look through a shared `&Cells`, and none waits for another.
#[derive(Drop)]
pub struct Cells {
    cells: Vec<OnceBox<Arc<Piece>>>,
    alloc: Global,
}

impl Model for Cells {
    ghost use Rattle.std.specs.Prelude.{ℕ, List, map, length, ◌<◌, ◌^◌};
    ghost use Rattle.once_cell.specs.Once.{cell_name};

    ghost Value = { List ℕ };

    ghost view = { λ c. map cell_name c.cells.items };

    ghost invariant = { λ c. length c.cells.items < 2 ^ 32 };
}

/// A record of what one thread has seen of some cells. It has no bytes: it is what a proof knows of each cell.
#[derive(Drop)]
pub struct Sight {
    notes: Vec<Note<Arc<Piece>>>,
}

impl Model for Sight {
    ghost use Rattle.jr_cells.specs.SightValue.{SightValue};
    ghost use Rattle.jr_cells.specs.Notes.{names_of};
    ghost use Rattle.jr_cells.specs.Sights.{pieces_of};

    ghost Value = { SightValue };

    ghost view = { λ s. record { cells = names_of s.notes.items; pieces = pieces_of s.notes.items } };
}

impl Cells {
    /// Cells for n intervals, all empty. `Err` if allocation fails.
    pub fn open(alloc: Global, n: u32) -> Result<Cells, Memory>
        ensures { IfOk result (λ c. length c ≡ n) }
    {
        let cells = empty_cells(alloc, n)?;
        Ok(Cells { cells, alloc })
    }

    /// Returns the number of cells.
    pub fn count(&self) -> u32
        ensures { result ≡ length self.now }
    {
        self.cells.len() as u32
    }

    /// Returns a sight of these cells that knows nothing. `Err` if allocation fails.
    pub fn sight(&self) -> Result<Sight, Memory>
        ensures cells { IfOk result (λ s. s.cells ≡ self.now) }
        ensures nothing { IfOk result (λ s. s.pieces ≡ replicate (length self.now) None) }
    {
        let notes = fresh_notes(self.alloc, self.cells.as_slice())?;
        Ok(Sight { notes })
    }

    /// Publishes the piece of interval i in its cell. On `Err` the cell is full or allocation failed, and the piece is
    /// returned.
    pub fn hang(&self, i: u32, piece: Arc<Piece>, sight: &mut Sight) -> Result<(), Arc<Piece>>
        requires cell { i < length self.now }
        requires sight { sight.old.cells ≡ self.now }
        requires number { (arc_value piece).interval.number ≡ i }
        ensures cells { sight.new.cells ≡ sight.old.cells }
        ensures later { KnowsAll sight.old sight.new }
        ensures ok { IfOk result (λ _. Knows sight.new i (arc_value piece)) }
        ensures err { IfErr result (λ back. back ≡ piece) }
    {
        let cells = self.cells.as_slice();
        set_cell(self.alloc, cells, i as usize, piece, &mut sight.notes)
    }

    /// Returns the piece in cell i, `None` while the cell is empty. A thread that saw a piece in a cell finds it there
    /// ever after.
    pub fn look<'a>(&'a self, i: u32, sight: &mut Sight) -> Option<&'a Piece>
        requires cell { i < length self.now }
        requires sight { sight.old.cells ≡ self.now }
        ensures cells { sight.new.cells ≡ sight.old.cells }
        ensures later { KnowsAll sight.old sight.new }
        ensures some { IfSome result (λ p. (p.now.interval.number ≡ i) × Knows sight.new i p.now) }
        ensures outcome { IfSome result (λ p. IsOutcome p.now) }
        ensures none { IfNone result ((sight.new ≡ sight.old) × KnowsNothing sight.old i) }
    {
        let piece: &Piece = get_cell(self.cells.as_slice(), i as usize, &mut sight.notes)?;
        piece.assert_invariant();
        if piece.number() != i {
            return None;
        }
        Some(piece)
    }

    /// Two sights of these cells agree on each cell of which both know the piece. Neither is changed.
    pub fn agree(&self, one: &mut Sight, two: &mut Sight)
        requires { (one.old.cells ≡ self.now) × (two.old.cells ≡ self.now) }
        ensures same { (one.new ≡ one.old) × (two.new ≡ two.old) }
        ensures agree { Agree one.old two.old }
    {
        compare_notes(&mut one.notes, &mut two.notes);
    }
}
