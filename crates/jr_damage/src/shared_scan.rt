//! A scan that one thread reads while others read ahead speculatively.

ghost use Rattle.std.specs.Prelude.{◌≡◌, Some};
ghost use Rattle.jr_scan.specs.Speculations.{AreSpeculationsOf};
ghost use Rattle.jr_scan.specs.ScanValue.{interval_of};

use jr_scan::{FirstIntervals, Scan, Speculations};
use jr_work::tuning::MAX_TASKS;
use jr_work::{Assist, OneScan, SharedWork, SpeculationQueue, Task, Work, WorkQueue};
use std::alloc::Global;
use std::marker::Model;
use std::sync::Wait;

/// Speculative reads alone: the steps stay with the calling thread.
#[derive(Drop)]
pub(crate) struct Checking;

impl<S: OneScan> Work<S> for Checking {
    type Reader = ();

    type Begun = ();

    type Unfinished = ();

    type Spare = ();

    fn has_space(&self, _unfinished: usize) -> bool {
        false
    }

    fn position(&self, _part: &FirstIntervals<'_>, _reader: &()) -> (u32, u64) {
        (0, 0)
    }

    fn begin(
        &mut self,
        _part: &FirstIntervals<'_>,
        _reader: (),
        _speculations: &SpeculationQueue<S>,
        _skips: bool,
    ) -> Option<((), Option<()>)> {
        None
    }

    fn spare(&mut self) -> Option<()> {
        None
    }
}

/// What the threads share that check one scan: one reads it, the others read ahead speculatively, outside of the lock.
/// The reader waits only for a speculative read that a thread is making.
#[derive(Drop)]
pub(crate) struct SharedScan<'a, S: OneScan> {
    alloc: Global,
    part: FirstIntervals<'a>,
    shared: SharedWork<S, Checking>,
}

impl<'a, S: OneScan> Model for SharedScan<'a, S> {
    ghost use Rattle.std.specs.Prelude.{◌≡◌, Some};
    ghost use Rattle.jr_scan.specs.ScanValue.{ScanValue};

    ghost Value = { ScanValue };

    ghost view = { λ s. s.part.scan };

    ghost invariant = { λ s. S.part ≡ Some s.part };
}

impl<'a, S: OneScan> SharedScan<'a, S> {
    /// Returns a shared scan of which nothing is read yet.
    pub(crate) fn of(
        alloc: Global,
        part: FirstIntervals<'a>,
        speculations: SpeculationQueue<S>,
    ) -> SharedScan<'a, S>
        requires { S.part ≡ Some part }
        ensures { result ≡ part.entry.scan }
    {
        SharedScan {
            alloc,
            part,
            shared: SharedWork::of(WorkQueue::of(alloc, speculations, Checking)),
        }
    }

    /// Returns the scan.
    pub(crate) fn scan(&self) -> &'a Scan
        ensures { result.now ≡ self.now }
    {
        self.part.scan()
    }

    /// Makes a speculative read, for which the reader may wait, or brings a buffer for one.
    fn assist<R: Wait>(&self, rt: &R, assist: Assist<S, Checking>) {
        self.shared.assist(rt, self.alloc, &self.part, assist);
        let queue = self.shared.queue.lock(rt);
        self.shared.wake_caller(&queue);
    }

    /// Makes speculative reads until all is read.
    pub(crate) fn work<R: Wait>(&self, rt: &R) {
        for _ in 0..MAX_TASKS {
            let Some(Task::Assist(assist)) = self.shared.task(rt, &self.part) else {
                return;
            };
            self.shared.wake(rt, &self.part);
            self.assist(rt, assist);
        }
    }

    /// Notes that the reader is at this bit of an interval.
    fn reach<R: Wait>(&self, rt: &R, number: u32, bit: u64) {
        let part = &self.part;
        self.shared
            .queue
            .lock(rt)
            .speculations
            .reach(part, number, bit);
        self.shared.wake(rt, part);
    }

    /// Returns another speculative read for the reader to make while it would wait for one that a thread is making.
    /// `None` once it need not wait.
    fn task_meanwhile<R: Wait>(&self, rt: &R) -> Option<Assist<S, Checking>> {
        let part = &self.part;
        let mut queue = self.shared.queue.lock(rt);
        if queue.speculations.makes_next(part)
            && let Some(task) = queue.speculations.take(part)
        {
            return Some(Assist::Speculate(task));
        }
        queue.is_awaited = true;
        let mut queue = self
            .shared
            .for_caller
            .wait_while(rt, queue, |queue| queue.speculations.makes_next(part));
        queue.is_awaited = false;
        None
    }

    /// Waits until no thread makes a speculative read by which a reader at this bit of an interval may continue, and
    /// returns those that are made.
    pub(crate) fn speculations<R: Wait>(&self, rt: &R, number: u32, bit: u64) -> Speculations
        ensures { AreSpeculationsOf (interval_of self.now number) result }
    {
        self.reach(rt, number, bit);
        for _ in 0..MAX_TASKS {
            let Some(assist) = self.task_meanwhile(rt) else {
                break;
            };
            self.assist(rt, assist);
        }
        let queue = self.shared.queue.lock(rt);
        queue.speculations.for_next(&self.part, number)
    }

    /// Notes that all is read.
    pub(crate) fn end<R: Wait>(&self, rt: &R) {
        self.shared.end(rt);
    }
}
