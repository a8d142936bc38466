//! Threads that decode and paint rows of MCUs of one scan, while one of them writes.

ghost use Rattle.std.specs.Prelude.{◌≡◌, ◌*◌, ◌≤◌, Some, length, IfOk};
ghost use Rattle.jr_head.specs.Geometry.{vertical_max};
ghost use Rattle.jr_paint.specs.Lines.{line_size};
ghost use Rattle.jr_paint.specs.declared.header.TheConstants.{HEADER_SPACE};

use crate::baton::Baton;
use crate::paint_space::PaintSpace;
use crate::row_buffer::{Painted, RowBuffer};
use crate::row_work::{BegunRow, RowWork, UnfinishedRow};
use jr_base::Memory;
use jr_picture::Gate;
use jr_rows::{intervals_of_row, space_for};
use jr_scan::FirstIntervals;
use jr_work::tuning::{ROW_BUFFERS_OF_WORKER, TASKS_BEFORE_ROW_BUFFER};
use jr_work::{OneScan, SharedWork, Task, WorkQueue};
use std::alloc::Global;
use std::marker::Model;
use std::sync::Wait;

/// What the threads share.
///
/// No row begins before the calling thread has all memory that it needs. A row is begun with a `RowBuffer`, so at most
/// as many rows are in progress. Each thread allocates its row buffers as it starts; one allocates its blocks when a row
/// first waits in it to be painted.
///
/// If rows are whole intervals, each thread decodes and paints rows by itself. Otherwise one thread at a time has the
/// reader. If speculative reads that others have made ahead of it cover the next row, it skips the row. The row then
/// waits, with a copy of the reader at its start and its row buffer, for a free thread, which decodes and paints it
/// some MCUs at a time. If none covers it, the thread reads the row, and its blocks wait in the row buffer for a free
/// thread that paints them. Painted rows wait for their turn to be written.
#[derive(Drop)]
pub(crate) struct Crew<'a, S: OneScan> {
    alloc: Global,
    part: FirstIntervals<'a>,
    /// The calling thread waits for a task, or for the row that is written next.
    shared: SharedWork<S, RowWork<S>>,
}

impl<'a, S: OneScan> Model for Crew<'a, S> {
    ghost use Rattle.std.specs.Prelude.{◌≡◌, Some};
    ghost use Rattle.jr_scan.specs.FirstIntervalsValue.{FirstIntervalsValue};

    ghost Value = { FirstIntervalsValue };

    ghost view = { λ c. c.part };

    ghost invariant = { λ c. S.part ≡ Some c.part };
}

impl<'a, S: OneScan> Crew<'a, S> {
    /// Returns a crew that has done nothing yet.
    pub(crate) fn of(
        alloc: Global,
        part: FirstIntervals<'a>,
        queue: WorkQueue<S, RowWork<S>>,
    ) -> Crew<'a, S>
        requires { S.part ≡ Some part }
        ensures { result ≡ part.entry }
    {
        Crew {
            alloc,
            part,
            shared: SharedWork::of(queue),
        }
    }

    /// Allocates `buffers` row buffers, and what the calling thread works with: memory for painting, and bytes for the
    /// lines of a row of MCUs and for the header. Then the first row may begin.
    pub(crate) fn begin<R: Wait>(
        &self,
        rt: &R,
        buffers: u32,
    ) -> Result<(PaintSpace<S>, Vec<u8>), Memory>
        ensures lines { IfOk result (λ r. 8 * vertical_max self.now.scan.head * line_size self.now.scan.head ≤ length r.1.items) }
        ensures header { IfOk result (λ r. HEADER_SPACE ≤ length r.1.items) }
    {
        for _ in 0..buffers {
            let Ok(buffer) = RowBuffer::open(self.alloc, &self.part) else {
                return Err(Memory);
            };
            self.give_back(rt, buffer);
        }
        let head = self.part.scan().head();
        let Ok(pixels) = vec![in self.alloc; 0; space_for(head)] else {
            return Err(Memory);
        };
        let Ok(space) = PaintSpace::open(self.alloc, &self.part) else {
            return Err(Memory);
        };
        self.shared.start(rt, &self.part, Baton::of(&self.part));
        Ok((space, pixels))
    }

    /// Returns the part of the scan that is decoded.
    pub(crate) fn part(&self) -> &FirstIntervals<'a>
        ensures value { result.now ≡ self.now }
        ensures known { S.part ≡ Some self.now }
    {
        &self.part
    }

    /// Waits for a task and returns it. `None` if nothing is left to do.
    pub(crate) fn task<R: Wait>(&self, rt: &R) -> Option<Task<S, RowWork<S>>> {
        self.shared.task(rt, &self.part)
    }

    /// Waits until the calling thread has something to do or this row is painted, and returns what to do. `None` if the
    /// row is painted or nothing is left.
    pub(crate) fn task_before<R: Wait>(&self, rt: &R, row: u32) -> Option<Task<S, RowWork<S>>> {
        let part = &self.part;
        let mut queue = self.shared.queue.lock(rt);
        queue.is_awaited = true;
        queue.work.set_next(row);
        let mut queue = self.shared.for_caller.wait_while(
            rt,
            queue,
            |queue| !queue.work.has(row) && queue.has_no_task(part),
        );
        queue.is_awaited = false;
        if queue.work.has(row) {
            None
        } else {
            queue.task(part)
        }
    }

    /// Keeps a painted row, and wakes the calling thread if it is the one that is written next.
    fn store_painted<R: Wait>(&self, rt: &R, painted: Painted<S>) {
        let mut queue = self.shared.queue.lock(rt);
        if queue.work.store_painted(painted) {
            self.shared.wake_caller(&queue);
        }
    }

    /// Reads a row, and paints it if rows are whole intervals or memory for its blocks cannot be
    /// allocated; otherwise it waits for a free thread.
    fn read<R: Wait, G: Gate>(
        &self,
        rt: &R,
        gate: &G,
        row: BegunRow<S>,
        space: &mut PaintSpace<S>,
    ) {
        let part = &self.part;
        row.baton.announce(part, gate);
        if intervals_of_row(part.scan().head()).is_some() {
            if row.baton.after(part).is_none() {
                self.shared.store(rt, part, None, None);
            }
            return self.finish(rt, UnfinishedRow::Skipped(row), space);
        }
        let BegunRow { baton, buffer } = row;
        let (read, after) = baton.read(self.alloc, part, buffer, space);
        match read {
            Ok(coded) => self
                .shared
                .store(rt, part, Some(UnfinishedRow::Coded(coded)), after),
            Err(painted) => {
                self.shared.store(rt, part, None, after);
                self.store_painted(rt, painted);
            }
        }
    }

    /// Paints a row; if it was skipped, whose intervals were reported to the gate, reads it first.
    fn finish<R: Wait>(&self, rt: &R, row: UnfinishedRow<S>, space: &mut PaintSpace<S>) {
        let painted = match row {
            UnfinishedRow::Skipped(row) => row.baton.finish(&self.part, row.buffer, space),
            UnfinishedRow::Coded(coded) => coded.paint(&self.part, space),
        };
        self.store_painted(rt, painted);
    }

    /// Skips a row, which then waits for a free thread.
    fn skip<R: Wait, G: Gate>(&self, rt: &R, gate: &G, row: BegunRow<S>) {
        let BegunRow { baton, buffer } = row;
        let (baton, after) = baton.skip(&self.part, gate);
        let skipped = UnfinishedRow::Skipped(BegunRow { baton, buffer });
        self.shared.store(rt, &self.part, Some(skipped), after);
    }

    /// Performs a task.
    pub(crate) fn run<R: Wait, G: Gate>(
        &self,
        rt: &R,
        gate: &G,
        task: Task<S, RowWork<S>>,
        space: &mut PaintSpace<S>,
    ) {
        match task {
            Task::Begin(row, true) => self.skip(rt, gate, row),
            Task::Begin(row, false) => self.read(rt, gate, row, space),
            Task::Finish(row) => self.finish(rt, row, space),
            Task::Assist(assist) => self.shared.assist(rt, self.alloc, &self.part, assist),
        }
    }

    /// Performs tasks while one is ready, at most `TASKS_BEFORE_ROW_BUFFER`.
    fn do_ready<R: Wait, G: Gate>(&self, rt: &R, gate: &G, space: &mut PaintSpace<S>) {
        for _ in 0..TASKS_BEFORE_ROW_BUFFER {
            let task = self.shared.queue.lock(rt).task(&self.part);
            let Some(task) = task else {
                return;
            };
            self.run(rt, gate, task, space);
        }
    }

    /// Allocates what a helping thread works with, and row buffers if some are lacking. Before each
    /// row buffer it performs tasks that are ready, so that speculative reads begin early.
    pub(crate) fn prepare<R: Wait, G: Gate>(
        &self,
        rt: &R,
        gate: &G,
    ) -> Result<PaintSpace<S>, Memory> {
        let Ok(mut space) = PaintSpace::open(self.alloc, &self.part) else {
            return Err(Memory);
        };
        for _ in 0..ROW_BUFFERS_OF_WORKER {
            self.do_ready(rt, gate, &mut space);
            let is_lacking = self.shared.queue.lock(rt).work.lacks_buffer();
            if is_lacking && let Ok(buffer) = RowBuffer::open(self.alloc, &self.part) {
                self.give_back(rt, buffer);
            }
        }
        Ok(space)
    }

    /// Waits until a row is painted, and returns it.
    pub(crate) fn painted<R: Wait>(&self, rt: &R, row: u32) -> Painted<S>
        ensures { result.row ≡ row }
    {
        let mut queue = self.shared.queue.lock(rt);
        queue.is_awaited = true;
        queue.work.set_next(row);
        let mut queue = self
            .shared
            .for_caller
            .wait_while(rt, queue, |queue| !queue.work.has(row));
        queue.is_awaited = false;
        queue.work.take(row)
    }

    /// Returns a row buffer to the queue, so that another row can be read.
    pub(crate) fn give_back<R: Wait>(&self, rt: &R, buffer: RowBuffer<S>) {
        self.shared.queue.lock(rt).work.give_back(buffer);
        self.shared.wake(rt, &self.part);
    }

    /// Ends the work.
    pub(crate) fn end<R: Wait>(&self, rt: &R) {
        self.shared.end(rt);
    }
}
