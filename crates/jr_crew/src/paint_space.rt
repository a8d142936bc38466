//! Memory that a thread decodes and paints rows by.

ghost use Rattle.std.specs.Prelude.{◌≡◌, Some};

use jr_base::Memory;
use jr_rows::SampleRow;
use jr_scan::FirstIntervals;
use jr_work::OneScan;
use std::alloc::Global;
use std::marker::{Model, PhantomData};

/// Memory for the samples of a row of MCUs of the scan, and for painting its lines. Each thread has its own, for rows
/// that it reads at once and for rows that were read before.
#[derive(Drop)]
pub struct PaintSpace<S: OneScan> {
    pub(crate) work: SampleRow,
    of: PhantomData<S>,
}

impl<S: OneScan> Model for PaintSpace<S> {
    ghost use Rattle.jr_crew.specs.RowBuffer.{HasSamples};
    ghost use Rattle.jr_rows.specs.RowsValue.{SampleRowValue};

    ghost Value = { SampleRowValue };

    ghost view = { λ r. r.work };

    ghost invariant = { λ r. HasSamples S.part r.work };
}

impl<S: OneScan> PaintSpace<S> {
    /// Allocates what painting needs.
    pub fn open(alloc: Global, part: &FirstIntervals<'_>) -> Result<PaintSpace<S>, Memory>
        requires { S.part ≡ Some part.now }
    {
        let head = part.scan().head();
        let Ok(work) = SampleRow::open(alloc, head) else {
            return Err(Memory);
        };
        Ok(PaintSpace {
            work,
            of: PhantomData,
        })
    }
}
