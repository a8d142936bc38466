//! One long interval, decoded by several workers.

ghost use Rattle.std.specs.Prelude.{◌≡◌, ◌<◌, Some, IfOk, IfSome, length};
ghost use Rattle.jr_scan.specs.ScanValue.{interval_of};
ghost use Rattle.std.specs.Arc.{arc_value};
ghost use Rattle.jr_wall.specs.Sharing.{IsOneOf};

use crate::gathered::Gathered;
use crate::reading::{IntervalReading, Next, strip_mcus};
use crate::strip_work::{ScanStrip, StripWork};
use jr_base::Memory;
use jr_base::limits::MAX_WORKERS;
use jr_piece::{Piece, Strip};
use jr_scan::{FirstIntervals, Interval};
use jr_work::tuning::{MAX_TASKS, MIN_READERS, MIN_READS, READS_OF_STRIP_WORKER, STEPS_OF_BUFFER};
use jr_work::{BufferSize, OneScan, SharedWork, SpeculationQueue, Task, WorkQueue, windows_of};
use std::alloc::Global;
use std::marker::Model;
use std::sync::{Arc, Wait};

/// An interval that several workers decode, a strip at a time, each by a free worker. One of them reads strip after
/// strip. With three and more, others read ahead speculatively: a strip that these reads cover is skipped, and read
/// from where it starts by the worker that decodes it. So only a worker that has nothing else to do waits for the
/// reader.
#[derive(Drop)]
pub struct Job<S: OneScan> {
    interval: Arc<Interval>,
    shared: SharedWork<S, StripWork<S>>,
}

impl<S: OneScan> Model for Job<S> {
    ghost use Rattle.std.specs.Arc.{arc_value};
    ghost use Rattle.jr_scan.specs.IntervalValue.{IntervalValue};
    ghost use Rattle.jr_wall.specs.Sharing.{IsOneOf};

    ghost Value = { IntervalValue };

    ghost view = { λ j. arc_value j.interval };

    ghost invariant = { λ j. IsOneOf S.part (arc_value j.interval) };
}

/// Opens a queue of speculative reads of interval i of a scan, which is read in steps of `step` MCUs, by `workers`
/// workers, which bring the buffers. It makes none if they are not worth their work, or if allocation fails.
fn open_speculations<S: OneScan>(
    alloc: Global,
    part: &FirstIntervals<'_>,
    i: u32,
    step: u32,
    workers: usize,
) -> SpeculationQueue<S>
    requires { i < length part.now.scan.intervals }
{
    let windows = windows_of(part.scan(), i);
    if workers < MIN_READERS as usize || windows < MIN_READS {
        return SpeculationQueue::none(alloc);
    }
    let most = workers.min(MAX_WORKERS as usize) as u32 * READS_OF_STRIP_WORKER;
    let count = windows.min(u64::from(most)) as u32;
    let size = BufferSize {
        mcus: step.saturating_mul(STEPS_OF_BUFFER),
        keeps_blocks: true,
    };
    let limit = i.saturating_add(1);
    match SpeculationQueue::open(alloc, part, i, limit, count, step, size) {
        Ok(queue) => queue,
        Err(_) => SpeculationQueue::none(alloc),
    }
}

impl<S: OneScan> Job<S> {
    /// Opens a job of interval i of a scan for `workers` workers, of which nothing is done yet. `Err` if allocation
    /// fails.
    pub fn open(
        alloc: Global,
        part: &FirstIntervals<'_>,
        i: u32,
        workers: usize,
    ) -> Result<Job<S>, Memory>
        requires part { S.part ≡ Some part.now }
        requires i { i < length part.now.scan.intervals }
        ensures { IfOk result (λ j. j ≡ interval_of part.now.scan i) }
    {
        let Ok(interval) = part.scan().interval(i) else {
            return Err(Memory);
        };
        let interval = Arc::new(alloc, interval)?;
        let (Ok(read), Ok(kept)) = (Arc::try_clone(&interval), Arc::try_clone(&interval)) else {
            return Err(Memory);
        };
        let reading = IntervalReading::of(read);
        let speculations = open_speculations(alloc, part, i, strip_mcus(&interval), workers);
        let gathered = Gathered::of(alloc, kept);
        let work = StripWork::of(alloc, gathered, workers.saturating_sub(1).max(1));
        let mut queue = WorkQueue::of(alloc, speculations, work);
        queue.store(part, None, Some(reading));
        Ok(Job {
            interval,
            shared: SharedWork::of(queue),
        })
    }

    /// Returns the interval that is decoded.
    pub fn interval(&self) -> &Interval
        ensures { result.now ≡ self.now }
    {
        &self.interval
    }

    /// Reads a strip or skips it; it then waits for a free worker.
    fn read<R: Wait>(
        &self,
        rt: &R,
        alloc: Global,
        part: &FirstIntervals<'_>,
        mut reading: IntervalReading<S>,
    )
        requires { S.part ≡ Some part.now }
    {
        let (step, reader) = match reading.next(alloc) {
            Ok(Next::Strip(strip)) => (Some(ScanStrip::of(strip)), Some(reading)),
            Ok(Next::End(end)) => {
                drop(reading);
                self.shared.queue.lock(rt).work.gathered.close(end);
                (None, None)
            }
            Err(Memory) => {
                drop(reading);
                (None, None)
            }
        };
        self.shared.store(rt, part, step, reader);
    }

    /// Returns the samples of a strip.
    fn transform(&self, alloc: Global, waiting: &ScanStrip<S>) -> Result<Arc<Strip>, Memory>
        ensures interval { IfOk result (λ s. (arc_value s).interval ≡ self.now) }
        ensures own { IfOk result (λ s. IsOneOf S.part (arc_value s).interval) }
    {
        let Ok(strip) = waiting.decode(alloc) else {
            return Err(Memory);
        };
        if strip.number() != self.interval.number() {
            drop(strip);
            return Err(Memory);
        }
        Ok(Arc::new(alloc, strip)?)
    }

    /// Decodes a strip and keeps it.
    fn decode<R: Wait>(
        &self,
        rt: &R,
        alloc: Global,
        waiting: ScanStrip<S>,
    ) -> Result<Arc<Strip>, Memory>
        ensures { IfOk result (λ s. (arc_value s).interval ≡ self.now) }
    {
        let transformed = self.transform(alloc, &waiting);
        let blocks = waiting.into_blocks();
        let Ok(strip) = transformed else {
            return Err(Memory);
        };
        let Ok(same) = Arc::try_clone(&strip) else {
            return Err(Memory);
        };
        self.shared.queue.lock(rt).work.keep(same, blocks)?;
        Ok(strip)
    }

    /// Decodes a strip, as other workers may do at the same time. `None` if nothing is left to do for this one, or if
    /// allocation fails.
    pub fn step<R: Wait>(
        &self,
        rt: &R,
        alloc: Global,
        part: &FirstIntervals<'_>,
    ) -> Option<Arc<Strip>>
        requires { S.part ≡ Some part.now }
        ensures { IfSome result (λ s. (arc_value s).interval ≡ self.now) }
    {
        for _ in 0..MAX_TASKS {
            let Some(task) = self.shared.task(rt, part) else {
                return None;
            };
            match task {
                Task::Begin(reading, _skips) => self.read(rt, alloc, part, reading),
                Task::Assist(assist) => self.shared.assist(rt, alloc, part, assist),
                Task::Finish(waiting) => {
                    let strip = self.decode(rt, alloc, waiting).ok();
                    if strip.is_none() {
                        self.shared.end(rt);
                    }
                    return strip;
                }
            }
        }
        None
    }

    /// Returns the interval's piece, once all strips are decoded; it is returned once.
    pub fn piece<R: Wait>(&self, rt: &R, alloc: Global, part: &FirstIntervals<'_>) -> Option<Piece>
        requires { S.part ≡ Some part.now }
        ensures { IfSome result (λ p. p.interval ≡ self.now) }
    {
        let (number, strips, end) = self.shared.queue.lock(rt).work.gathered.take(alloc)?;
        if number != self.interval.number() {
            return None;
        }
        let interval = part.scan().interval(number).ok()?;
        Piece::of_strips(interval, strips, end.front, end.is_sound).ok()
    }
}
