//! Rows of MCUs as work that threads share: row buffers, and painted rows.

ghost use Rattle.std.specs.Prelude.{◌≡◌, ◌<◌, Some, IsTrue, length};
ghost use Rattle.jr_crew.specs.Crew.{HasRow};

use crate::baton::Baton;
use crate::row_buffer::{CodedRow, Painted, RowBuffer};
use jr_base::Memory;
use jr_scan::FirstIntervals;
use jr_work::{OneScan, SpeculationQueue, Work};
use std::alloc::Global;
use std::collections::VecDeque;
use std::mem::replace;

/// A row in progress with its own buffer, so that it never waits for a later row.
#[derive(Drop)]
pub(crate) struct BegunRow<S: OneScan> {
    pub(crate) baton: Baton<S>,
    pub(crate) buffer: RowBuffer<S>,
}

/// A row that waits for a free thread.
#[derive(Drop)]
pub(crate) enum UnfinishedRow<S: OneScan> {
    /// It was skipped, and is to be decoded and painted.
    Skipped(BegunRow<S>),
    /// It was read, and is to be painted.
    Coded(CodedRow<S>),
}

/// What the threads of a crew share in addition to their queue.
#[derive(Drop)]
pub(crate) struct RowWork<S: OneScan> {
    /// Those with memory for a row's blocks come last.
    free: VecDeque<RowBuffer<S>>,
    /// Number of row buffers that no thread allocates yet.
    lacking: u32,
    /// Painted rows. The slot of a row is its number modulo the number of slots, which is that of the row buffers.
    painted: Vec<Option<Painted<S>>>,
    /// The row that is written next.
    next: u32,
    ghost some: { 0 < length painted.items },
}

impl<S: OneScan> RowWork<S> {
    /// Allocates memory to work with `count` row buffers. Helper threads allocate `lacking` of them.
    pub(crate) fn open(
        alloc: Global,
        count: u32,
        lacking: u32,
        painted: Vec<Option<Painted<S>>>,
    ) -> Result<RowWork<S>, Memory>
        requires { 0 < length painted.items }
    {
        let mut free = VecDeque::new(alloc);
        if free.reserve_exact(count as usize).is_err() {
            drop(free);
            drop(painted);
            return Err(Memory);
        }
        Ok(RowWork {
            free,
            lacking,
            painted,
            next: 0,
        })
    }

    /// Returns whether a thread is to allocate a row buffer.
    pub(crate) fn lacks_buffer(&mut self) -> bool {
        let is_lacking = self.lacking > 0;
        self.lacking = self.lacking.saturating_sub(1);
        is_lacking
    }

    /// Notes which row is written next.
    pub(crate) fn set_next(&mut self, row: u32)
        ensures { self.new.painted ≡ self.old.painted }
    {
        self.next = row;
    }

    /// Returns whether a row is painted.
    pub(crate) fn has(&self, row: u32) -> bool
        ensures { IsTrue result → HasRow self.now.painted.items row }
    {
        let slot = row as usize % self.painted.len();
        match &self.painted[slot] {
            Some(painted) => painted.row() == row,
            None => false,
        }
    }

    /// Keeps a painted row. Returns whether it is the one that is written next.
    pub(crate) fn store_painted(&mut self, painted: Painted<S>) -> bool {
        let row = painted.row();
        let slot = row as usize % self.painted.len();
        drop(replace(&mut self.painted[slot], Some(painted)));
        self.next == row
    }

    /// Takes this painted row, which must be there.
    pub(crate) fn take(&mut self, row: u32) -> Painted<S>
        requires { HasRow self.old.painted.items row }
        ensures { result.row ≡ row }
    {
        let slot = row as usize % self.painted.len();
        self.painted[slot].take().unwrap()
    }

    /// Keeps a row buffer, to be used again. It fits, since it came from here.
    pub(crate) fn give_back(&mut self, buffer: RowBuffer<S>) {
        let kept = if buffer.has_blocks() {
            self.free.push_back(buffer)
        } else {
            self.free.push_front(buffer)
        };
        drop(kept);
    }
}

impl<S: OneScan> Work<S> for RowWork<S> {
    type Reader = Baton<S>;

    type Begun = BegunRow<S>;

    type Unfinished = UnfinishedRow<S>;

    type Spare = RowBuffer<S>;

    fn has_space(&self, _unfinished: usize) -> bool {
        !self.free.is_empty()
    }

    fn position(&self, part: &FirstIntervals<'_>, baton: &Baton<S>) -> (u32, u64) {
        baton.next_start(part)
    }

    /// Takes a row buffer with memory for blocks, if there is one, unless the row is skipped.
    fn begin(
        &mut self,
        part: &FirstIntervals<'_>,
        baton: Baton<S>,
        speculations: &SpeculationQueue<S>,
        skips: bool,
    ) -> Option<(BegunRow<S>, Option<Baton<S>>)> {
        let free = if skips {
            self.free.pop_front()
        } else {
            self.free.pop_back()
        };
        let Some(buffer) = free else {
            drop(baton);
            return None;
        };
        let after = baton.after(part);
        let number = speculations.number();
        let baton = baton.with_speculations(part, number, speculations.for_next(part, number));
        Some((BegunRow { baton, buffer }, after))
    }

    fn spare(&mut self) -> Option<RowBuffer<S>> {
        self.free.pop_front()
    }
}
