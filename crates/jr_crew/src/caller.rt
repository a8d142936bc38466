//! The thread that writes what the others paint.

ghost use Rattle.std.specs.Prelude.{◌≡◌};

use crate::crew::Crew;
use crate::paint_space::PaintSpace;
use jr_picture::Gate;
use jr_rows::{Marked, RowPainter, shape_of};
use jr_work::OneScan;
use jr_work::tuning::MAX_TASKS;
use std::marker::Model;
use std::sync::Wait;

/// The calling thread: it takes row after row from a crew, and reads and paints if the row that comes next is not
/// painted yet.
#[derive(Drop)]
pub(crate) struct Caller<'a, 'b, R: Wait, G: Gate, S: OneScan> {
    crew: &'b Crew<'a, S>,
    rt: &'b R,
    gate: &'b G,
    row: u32,
    space: PaintSpace<S>,
}

impl<'a, 'b, R: Wait, G: Gate, S: OneScan> Model for Caller<'a, 'b, R, G, S> {
    ghost use Rattle.std.specs.Prelude.{◌≡◌, Some};
    ghost use Rattle.jr_rows.specs.RowsValue.{RowsValue};

    ghost Value = { RowsValue };

    ghost view = { λ c. record { scan = c.crew.now.scan; limit = c.crew.now.limit; row = c.row } };

    ghost invariant = { λ c. S.part ≡ Some c.crew.now };
}

impl<'a, 'b, R: Wait, G: Gate, S: OneScan> Caller<'a, 'b, R, G, S> {
    /// Returns a caller that has written nothing yet.
    pub(crate) fn of(
        crew: &'b Crew<'a, S>,
        rt: &'b R,
        gate: &'b G,
        space: PaintSpace<S>,
    ) -> Caller<'a, 'b, R, G, S>
        ensures { result ≡ record { scan = crew.now.scan; limit = crew.now.limit; row = 0 } }
    {
        // By its contract the part is the one that the type knows of.
        let _part = crew.part();
        Caller {
            crew,
            rt,
            gate,
            row: 0,
            space,
        }
    }

    /// Reads and paints until the row that is written next is painted, or only other threads can finish it.
    fn help(&mut self)
        ensures { self.new ≡ self.old }
    {
        let (crew, rt, gate, row) = (self.crew, self.rt, self.gate, self.row);
        let space = &mut self.space;
        for _ in 0..MAX_TASKS {
            let Some(task) = crew.task_before(rt, row) else {
                return;
            };
            crew.run(rt, gate, task, space);
        }
    }
}

impl<R: Wait, G: Gate, S: OneScan> RowPainter for Caller<'_, '_, R, G, S> {
    ghost at = { λ c. c };

    fn paint(&mut self, pixels: &mut Vec<u8>, from: usize, to: usize) -> Marked {
        self.help();
        let (crew, rt) = (self.crew, self.rt);
        // By its contract a row's number fits.
        let _rows = shape_of(crew.part().scan().head()).down;
        let painted = crew.painted(rt, self.row);
        let (marked, buffer) = painted.store_into(crew.part(), pixels, from, to);
        crew.give_back(rt, buffer);
        self.row += 1;
        marked
    }
}
