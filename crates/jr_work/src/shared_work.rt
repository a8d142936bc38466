//! Work on a scan that threads share under a lock, and the wake-ups of the threads that wait for it.

ghost use Rattle.std.specs.Prelude.{◌≡◌, Some};

use crate::one_scan::OneScan;
use crate::scan_speculation::ScanSpeculation;
use crate::task::{Assist, Task};
use crate::work::Work;
use crate::work_queue::WorkQueue;
use jr_scan::FirstIntervals;
use std::alloc::Global;
use std::sync::{Condvar, Mutex, Wait};

/// What threads share that work on a scan. A thread takes its next task from the queue, and does it outside of the
/// lock.
#[derive(Drop)]
pub struct SharedWork<S: OneScan, W: Work<S>> {
    pub queue: Mutex<WorkQueue<S, W>>,
    /// Signalled when there is a task, or nothing is left to do, if a thread waits.
    has_task: Condvar,
    /// Signalled when there is a task for which no other thread waits, if the calling thread waits.
    pub for_caller: Condvar,
}

impl<S: OneScan, W: Work<S>> SharedWork<S, W> {
    /// Returns the work of this queue, of which nothing is done yet.
    pub fn of(queue: WorkQueue<S, W>) -> SharedWork<S, W> {
        SharedWork {
            queue: Mutex::new(queue),
            has_task: Condvar::new(),
            for_caller: Condvar::new(),
        }
    }

    /// Wakes the calling thread, if it waits.
    pub fn wake_caller(&self, queue: &WorkQueue<S, W>) {
        if queue.is_awaited {
            self.for_caller.notify_one();
        }
    }

    /// Wakes a thread that waits for a task, if there is one: the calling thread only if no other waits. All, if no
    /// step is left to begin.
    pub fn wake<R: Wait>(&self, rt: &R, part: &FirstIntervals<'_>) {
        let queue = self.queue.lock(rt);
        let is_waited_for = queue.waiting > 0 || queue.is_awaited;
        if !is_waited_for || queue.has_no_task(part) {
            return;
        }
        if queue.waiting == 0 {
            self.wake_caller(&queue);
        } else if queue.is_over() {
            self.has_task.notify_all();
        } else {
            self.has_task.notify_one();
        }
    }

    /// Waits for a task and returns it. `None` if nothing is left to do.
    pub fn task<R: Wait>(&self, rt: &R, part: &FirstIntervals<'_>) -> Option<Task<S, W>>
        requires { S.part ≡ Some part.now }
    {
        let mut queue = self.queue.lock(rt);
        queue.waiting = queue.waiting.saturating_add(1);
        let mut queue = self
            .has_task
            .wait_while(rt, queue, |queue| queue.has_no_task(part));
        queue.waiting = queue.waiting.saturating_sub(1);
        queue.task(part)
    }

    /// Makes a speculative read, or brings a buffer for one. If allocation fails there are fewer speculative reads.
    pub fn assist<R: Wait>(
        &self,
        rt: &R,
        alloc: Global,
        part: &FirstIntervals<'_>,
        assist: Assist<S, W>,
    )
        requires { S.part ≡ Some part.now }
    {
        match assist {
            Assist::Speculate(task) => {
                let made = task.make(part);
                self.queue.lock(rt).speculations.store(made);
            }
            Assist::Bring(size) => {
                if let Ok(space) = ScanSpeculation::open(alloc, part, size) {
                    self.queue.lock(rt).speculations.bring(space);
                }
            }
            Assist::FreeRead(slot) => drop(slot),
            Assist::Free(spare) => drop(spare),
        }
        self.wake(rt, part);
    }

    /// Does what `WorkQueue::store` does, and wakes a thread for which there is a task.
    pub fn store<R: Wait>(
        &self,
        rt: &R,
        part: &FirstIntervals<'_>,
        step: Option<W::Unfinished>,
        reader: Option<W::Reader>,
    )
        requires { S.part ≡ Some part.now }
    {
        self.queue.lock(rt).store(part, step, reader);
        self.wake(rt, part);
    }

    /// Lets the first of these steps begin, and wakes all threads.
    pub fn start<R: Wait>(&self, rt: &R, part: &FirstIntervals<'_>, reader: Option<W::Reader>)
        requires { S.part ≡ Some part.now }
    {
        self.queue.lock(rt).store(part, None, reader);
        self.has_task.notify_all();
    }

    /// Ends the work of all threads.
    pub fn end<R: Wait>(&self, rt: &R) {
        self.queue.lock(rt).end();
        self.has_task.notify_all();
    }
}
