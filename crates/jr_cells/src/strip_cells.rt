//! Cells for the strips of one interval, and what a thread has seen of them.

ghost use Rattle.std.specs.Prelude.{◌≡◌, ℕ, ℤ, List, ◌*◌, ◌<◌, ◌≤◌, length, replicate, None, Some, IfOk, IfErr, IfSome, IfNone};
ghost use Rattle.std.specs.Arc.{arc_value};
ghost use Rattle.jr_head.specs.Geometry.{order_of};
ghost use Rattle.jr_scan.specs.Mcus.{Front};
ghost use Rattle.jr_piece.specs.Strips.{IsStrip};
ghost use Rattle.jr_cells.specs.StripSights.{KnowsStrip, KnowsNoStrip, KnowsAllStrips, AgreeOnStrips};

use crate::once::{compare_notes, empty_cells, fresh_notes, get_cell, set_cell};
use jr_base::Memory;
use jr_piece::Strip;
use jr_scan::Interval;
use once_cell::race::{Note, OnceBox};
use std::alloc::Global;
use std::marker::Model;
use std::sync::Arc;

/// Cells for the strips of one interval, one for each `each` MCUs from its first. Each is empty until a strip is
/// published in it, and holds that strip ever after.
///
/// Threads publish and look through a shared `&StripCells`, and none ever waits for another.
#[derive(Drop)]
pub struct StripCells {
    number: u32,
    each: u32,
    cells: Vec<OnceBox<Arc<Strip>>>,
    alloc: Global,
}

impl Model for StripCells {
    ghost use Rattle.std.specs.Prelude.{ℕ, map, length, ◌*◌, ◌<◌, ◌^◌};
    ghost use Rattle.once_cell.specs.Once.{cell_name};
    ghost use Rattle.jr_cells.specs.StripCellsValue.{StripCellsValue};

    ghost Value = { StripCellsValue };

    ghost view = { λ c. record { number = c.number; each = c.each; cells = map cell_name c.cells.items } };

    ghost invariant = { λ c. (0 < c.each) × (length c.cells.items < 2 ^ 32) × ((place : ℕ) → place < length c.cells.items → place * c.each < 2 ^ 32) };
}

/// A record of what one thread has seen of an interval's strips. It has no bytes: it is what a proof knows of each
/// cell.
#[derive(Drop)]
pub struct StripSight {
    number: u32,
    each: u32,
    notes: Vec<Note<Arc<Strip>>>,
}

impl Model for StripSight {
    ghost use Rattle.jr_cells.specs.Notes.{names_of};
    ghost use Rattle.jr_cells.specs.StripCellsValue.{StripCellsValue, StripSightValue};
    ghost use Rattle.jr_cells.specs.StripSights.{strips_of};

    ghost Value = { StripSightValue };

    ghost view = { λ s. record { cells = record { number = s.number; each = s.each; cells = names_of s.notes.items }; strips = strips_of s.number s.each s.notes.items } };
}

impl StripCells {
    /// Allocates empty cells for the strips of an interval, of `each` MCUs each. They are as many as hold the MCUs that
    /// the interval's data can code, so a header that claims more uses no memory. `Err` if allocation fails.
    pub fn open(alloc: Global, interval: &Interval, each: u32) -> Result<StripCells, Memory>
        requires { 0 < each }
        ensures number { IfOk result (λ c. c.number ≡ interval.now.number) }
        ensures each { IfOk result (λ c. c.each ≡ each) }
        ensures enough { IfOk result (λ c. (k : ℕ) (zs : List (List ℤ)) → Front interval.now k zs → k ≤ length c.cells * each) }
        ensures within { IfOk result (λ c. (place : ℕ) → place < length c.cells → place * each < interval.now.mcus) }
        ensures few { IfOk result (λ c. length c.cells * length (order_of interval.now.head) ≤ 4 * length interval.now.bytes) }
    {
        let cells = empty_cells(alloc, interval.most_mcus().div_ceil(each))?;
        Ok(StripCells {
            number: interval.number(),
            each,
            cells,
            alloc,
        })
    }

    /// Returns the number of the interval.
    pub fn number(&self) -> u32
        ensures { result ≡ self.now.number }
    {
        self.number
    }

    /// Returns the number of MCUs of each strip but the last.
    pub fn each(&self) -> u32
        ensures value { result ≡ self.now.each }
        ensures some { 0 < result }
    {
        self.each
    }

    /// Returns the number of cells.
    pub fn count(&self) -> u32
        ensures { result ≡ length self.now.cells }
    {
        self.cells.len() as u32
    }

    /// Returns a sight of these cells that knows nothing. `Err` if allocation fails.
    pub fn sight(&self) -> Result<StripSight, Memory>
        ensures cells { IfOk result (λ s. s.cells ≡ self.now) }
        ensures nothing { IfOk result (λ s. s.strips ≡ replicate (length self.now.cells) None) }
    {
        let notes = fresh_notes(self.alloc, self.cells.as_slice())?;
        Ok(StripSight {
            number: self.number,
            each: self.each,
            notes,
        })
    }

    /// Publishes the strip that begins with MCU `place * each` in the cell of this index. On `Err` the cell is full or
    /// allocation failed, and the strip is returned.
    pub fn hang(
        &self,
        place: u32,
        strip: Arc<Strip>,
        sight: &mut StripSight,
    ) -> Result<(), Arc<Strip>>
        requires cell { place < length self.now.cells }
        requires sight { sight.old.cells ≡ self.now }
        requires number { (arc_value strip).interval.number ≡ self.now.number }
        requires first { (arc_value strip).first ≡ place * self.now.each }
        ensures cells { sight.new.cells ≡ sight.old.cells }
        ensures later { KnowsAllStrips sight.old sight.new }
        ensures ok { IfOk result (λ _. KnowsStrip sight.new place (arc_value strip)) }
        ensures err { IfErr result (λ back. back ≡ strip) }
    {
        let cells = self.cells.as_slice();
        set_cell(self.alloc, cells, place as usize, strip, &mut sight.notes)
    }

    /// Returns the strip in the cell of this index, `None` while the cell is empty. A thread that saw a strip in a cell
    /// finds it there ever after, and by `strip_is_final` each piece of its interval shows the strip's samples at its
    /// MCUs.
    pub fn look<'a>(&'a self, place: u32, sight: &mut StripSight) -> Option<&'a Strip>
        requires cell { place < length self.now.cells }
        requires sight { sight.old.cells ≡ self.now }
        ensures cells { sight.new.cells ≡ sight.old.cells }
        ensures later { KnowsAllStrips sight.old sight.new }
        ensures some { IfSome result (λ s. KnowsStrip sight.new place s.now) }
        ensures number { IfSome result (λ s. s.now.interval.number ≡ self.now.number) }
        ensures first { IfSome result (λ s. s.now.first ≡ place * self.now.each) }
        ensures strip { IfSome result (λ s. IsStrip s.now) }
        ensures none { IfNone result ((sight.new ≡ sight.old) × KnowsNoStrip sight.old place) }
    {
        let cells = self.cells.as_slice();
        let strip: &Strip = get_cell(cells, place as usize, &mut sight.notes)?;
        strip.assert_invariant();
        if strip.number() != self.number || strip.first() != place * self.each {
            return None;
        }
        Some(strip)
    }

    /// Two sights of these cells agree on each cell of which both know the strip. Neither is changed.
    pub fn agree(&self, one: &mut StripSight, two: &mut StripSight)
        requires { (one.old.cells ≡ self.now) × (two.old.cells ≡ self.now) }
        ensures same { (one.new ≡ one.old) × (two.new ≡ two.old) }
        ensures agree { AgreeOnStrips one.old two.old }
    {
        compare_notes(&mut one.notes, &mut two.notes);
    }
}
