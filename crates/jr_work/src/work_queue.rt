//! The tasks of threads that share work on a scan.

ghost use Rattle.std.specs.Prelude.{◌≡◌, Some, false, true};
ghost use Rattle.std.specs.VecDeque.{deque_len};

use crate::choice::NextTask;
use crate::one_scan::OneScan;
use crate::speculation_queue::SpeculationQueue;
use crate::task::{Assist, Task};
use crate::work::Work;
use jr_base::Memory;
use jr_scan::FirstIntervals;
use std::alloc::Global;
use std::collections::VecDeque;
use std::mem::replace;

/// The steps of shared work that are left to read, those that wait to be finished, speculative reads, and the threads
/// that wait, so that a wake-up is sent only if a thread waits.
#[derive(Drop)]
pub struct WorkQueue<S: OneScan, W: Work<S>> {
    /// `None` before the first step may begin, while a thread reads one, and if none is left to begin.
    reader: Option<W::Reader>,
    /// Whether no step is left to begin.
    is_over: bool,
    /// In their order.
    unfinished: VecDeque<W::Unfinished>,
    pub speculations: SpeculationQueue<S>,
    /// Number of threads that wait for a task.
    pub(crate) waiting: u32,
    /// Whether the calling thread waits for what the others do.
    pub is_awaited: bool,
    pub work: W,
}

impl<S: OneScan, W: Work<S>> WorkQueue<S, W> {
    /// Returns a queue in which no step can begin yet.
    pub fn of(alloc: Global, speculations: SpeculationQueue<S>, work: W) -> WorkQueue<S, W> {
        WorkQueue {
            reader: None,
            is_over: false,
            unfinished: VecDeque::new(alloc),
            speculations,
            waiting: 0,
            is_awaited: false,
            work,
        }
    }

    /// Allocates memory for `count` steps that wait to be finished.
    pub fn reserve(&mut self, count: usize) -> Result<(), Memory> {
        Ok(self.unfinished.reserve_exact(count)?)
    }

    /// Chooses what a thread does next: it skips a step, or reads one, if it can, so that reading continues; otherwise
    /// it finishes one; and it makes a speculative read, or brings a buffer for one, if nothing else is to be done. A
    /// step for which a speculative read is being made waits for it, and for nothing else.
    fn choice(&self, part: &FirstIntervals<'_>) -> NextTask
        ensures wait { result ≡ NextTask.Wait → (deque_len self.now.unfinished ≡ 0) × (self.now.is_over ≡ false) }
        ensures end { result ≡ NextTask.End → (deque_len self.now.unfinished ≡ 0) × (self.now.is_over ≡ true) }
    {
        let can_begin = self.reader.is_some() && self.work.has_space(self.unfinished.len());
        if can_begin && !self.is_over && !self.speculations.makes_next(part) {
            return if self.speculations.has_next(part) {
                NextTask::Skip
            } else {
                NextTask::Read
            };
        }
        if !self.unfinished.is_empty() {
            NextTask::Finish
        } else if self.is_over {
            NextTask::End
        } else if self.speculations.can_speculate(part) || self.speculations.wants_space(part) {
            NextTask::Speculate
        } else {
            NextTask::Wait
        }
    }

    /// Returns whether no step is left to begin.
    pub(crate) fn is_over(&self) -> bool {
        self.is_over
    }

    /// Returns whether a thread has to wait for what others do.
    pub fn has_no_task(&self, part: &FirstIntervals<'_>) -> bool {
        self.choice(part) == NextTask::Wait
    }

    /// Begins the next step.
    fn begin(&mut self, part: &FirstIntervals<'_>, skips: bool) -> Option<W::Begun>
        requires { S.part ≡ Some part.now }
    {
        let Some(reader) = self.reader.take() else {
            return None;
        };
        let begun = self.work.begin(part, reader, &self.speculations, skips);
        let Some((step, reader)) = begun else {
            return None;
        };
        drop(replace(&mut self.reader, reader));
        Some(step)
    }

    /// Takes the next speculative read, or the size of a buffer that the thread is to bring.
    fn speculate(&mut self, part: &FirstIntervals<'_>) -> Option<Task<S, W>> {
        if let Some(speculation) = self.speculations.take(part) {
            return Some(Task::Assist(Assist::Speculate(speculation)));
        }
        let Some(size) = self.speculations.lacks_space() else {
            return None;
        };
        Some(Task::Assist(Assist::Bring(size)))
    }

    /// Takes memory that no thread needs any more: buffers of speculative reads first, since they are larger.
    fn spare(&mut self) -> Option<Task<S, W>> {
        if let Some(slot) = self.speculations.spare() {
            return Some(Task::Assist(Assist::FreeRead(slot)));
        }
        let Some(spare) = self.work.spare() else {
            return None;
        };
        Some(Task::Assist(Assist::Free(spare)))
    }

    /// Returns the next task of a thread. `None` if it has to wait, or nothing is left for it to do.
    pub fn task(&mut self, part: &FirstIntervals<'_>) -> Option<Task<S, W>>
        requires { S.part ≡ Some part.now }
    {
        let choice = self.choice(part);
        match choice {
            NextTask::Read | NextTask::Skip => {
                let skips = choice == NextTask::Skip;
                let Some(step) = self.begin(part, skips) else {
                    return None;
                };
                Some(Task::Begin(step, skips))
            }
            NextTask::Finish => {
                let Some(step) = self.unfinished.pop_front() else {
                    return None;
                };
                Some(Task::Finish(step))
            }
            NextTask::Speculate => self.speculate(part),
            NextTask::End => self.spare(),
            NextTask::Wait => None,
        }
    }

    /// Keeps a step that waits to be finished, if there is one, and the steps after it; `None` if none is left to
    /// begin.
    pub fn store(
        &mut self,
        part: &FirstIntervals<'_>,
        step: Option<W::Unfinished>,
        reader: Option<W::Reader>,
    )
        requires { S.part ≡ Some part.now }
    {
        if let Some(step) = step {
            let kept = self.unfinished.push_back(step);
            self.is_over |= kept.is_err();
            drop(kept);
        }
        let Some(reader) = reader else {
            self.is_over = true;
            return;
        };
        if self.is_over {
            drop(reader);
            return;
        }
        let (number, bit) = self.work.position(part, &reader);
        self.speculations.reach(part, number, bit);
        drop(replace(&mut self.reader, Some(reader)));
    }

    /// Ends the work; only memory is left to free.
    pub fn end(&mut self) {
        self.is_over = true;
        drop(self.reader.take());
        self.unfinished.clear();
    }
}
