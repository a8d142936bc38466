//! The right to read the scan, which one thread holds.

ghost use Rattle.std.specs.Prelude.{◌≡◌, Some};
ghost use Rattle.jr_scan.specs.Speculations.{AreSpeculationsOf};
ghost use Rattle.jr_scan.specs.ScanValue.{interval_of};
ghost use Rattle.jr_rows.specs.Rows.{AreRowsOf};

use crate::paint_space::PaintSpace;
use crate::row_buffer::{CodedRow, Painted, RowBuffer};
use jr_picture::Gate;
use jr_rows::{IntervalSpeculations, Rows, announce, intervals_of_row, shape_of};
use jr_scan::{FirstIntervals, Speculations};
use jr_work::OneScan;
use std::alloc::Global;
use std::marker::{Model, PhantomData};

/// The remaining rows of a scan, which one thread at a time reads, and the speculative reads that it uses.
#[derive(Drop)]
pub(crate) struct Baton<S: OneScan> {
    rows: Rows,
    speculations: IntervalSpeculations,
    of: PhantomData<S>,
}

impl<S: OneScan> Model for Baton<S> {
    ghost use Rattle.std.specs.Prelude.{ℕ};
    ghost use Rattle.jr_crew.specs.Crew.{HaveNext};

    ghost Value = { ℕ };

    ghost view = { λ b. b.rows.row };

    ghost invariant = { λ b. HaveNext S.part b.rows b.speculations };
}

/// Returns these rows, if one is left.
fn baton_over<S: OneScan>(part: &FirstIntervals<'_>, rows: Rows) -> Option<Baton<S>>
    requires part { S.part ≡ Some part.now }
    requires rows { AreRowsOf part.now rows }
{
    if rows.row() >= shape_of(part.scan().head()).down {
        drop(rows);
        return None;
    }
    Some(Baton {
        rows,
        speculations: IntervalSpeculations::none(),
        of: PhantomData,
    })
}

impl<S: OneScan> Baton<S> {
    /// Returns all rows of the scan.
    pub(crate) fn of(part: &FirstIntervals<'_>) -> Option<Baton<S>>
        requires { S.part ≡ Some part.now }
    {
        baton_over(part, Rows::of(part))
    }

    /// Returns the rows after the next one, which can be read before it if rows are whole intervals.
    pub(crate) fn after(&self, part: &FirstIntervals<'_>) -> Option<Baton<S>>
        requires { S.part ≡ Some part.now }
    {
        let head = part.scan().head();
        let Some(intervals) = intervals_of_row(head) else {
            return None;
        };
        let down = shape_of(head).down;
        let row = self.rows.row() + 1;
        if row >= down {
            return None;
        }
        baton_over(part, Rows::from(part, row, intervals))
    }

    /// Returns where the next row starts: the number of its interval, and the bit.
    pub(crate) fn next_start(&self, part: &FirstIntervals<'_>) -> (u32, u64)
        requires { S.part ≡ Some part.now }
    {
        self.rows.next_start(part)
    }

    /// Returns the same rows, with these speculative reads.
    pub(crate) fn with_speculations(
        self,
        part: &FirstIntervals<'_>,
        number: u32,
        speculations: Speculations,
    ) -> Baton<S>
        requires part { S.part ≡ Some part.now }
        requires speculations { AreSpeculationsOf (interval_of part.now.scan number) speculations }
    {
        Baton {
            rows: self.rows,
            speculations: IntervalSpeculations::of(number, speculations),
            of: PhantomData,
        }
    }

    /// Reports the intervals that begin in the next row to the gate, and skips the row. Returns the rows starting at
    /// that row, and those after it.
    pub(crate) fn skip<G: Gate>(
        self,
        part: &FirstIntervals<'_>,
        gate: &G,
    ) -> (Baton<S>, Option<Baton<S>>)
        requires { S.part ≡ Some part.now }
    {
        let mut rows = self.rows;
        announce(part.scan(), part.limit(), rows.row(), gate);
        rows.skip(part, Some(&self.speculations));
        let after = baton_over(part, rows);
        (self, after)
    }

    /// Decodes and paints the next row, whose intervals were reported to the gate.
    pub(crate) fn finish(
        self,
        part: &FirstIntervals<'_>,
        buffer: RowBuffer<S>,
        space: &mut PaintSpace<S>,
    ) -> Painted<S>
        requires { S.part ≡ Some part.now }
    {
        let mut rows = self.rows;
        let painted = buffer.decode(part, &mut rows, Some(&self.speculations), space);
        drop(rows);
        painted
    }

    /// Reports to the gate the intervals that begin in the next row.
    pub(crate) fn announce<G: Gate>(&self, part: &FirstIntervals<'_>, gate: &G)
        requires { S.part ≡ Some part.now }
    {
        announce(part.scan(), part.limit(), self.rows.row(), gate);
    }

    /// Reads the next row, whose intervals were reported to the gate; if memory for its blocks
    /// cannot be allocated, paints it. Returns it with those after it.
    pub(crate) fn read(
        self,
        alloc: Global,
        part: &FirstIntervals<'_>,
        buffer: RowBuffer<S>,
        space: &mut PaintSpace<S>,
    ) -> (Result<CodedRow<S>, Painted<S>>, Option<Baton<S>>)
        requires { S.part ≡ Some part.now }
    {
        let mut rows = self.rows;
        let read = buffer.read(alloc, part, &mut rows, Some(&self.speculations), space);
        (read, baton_over(part, rows))
    }
}
