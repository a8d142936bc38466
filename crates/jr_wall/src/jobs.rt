//! The long intervals that are being decoded.

ghost use Rattle.std.specs.Prelude.{◌≡◌, ◌<◌, ◌≤◌, length, Some};

use crate::job::Job;
use jr_cells::StripCells;
use jr_scan::FirstIntervals;
use jr_work::OneScan;
use std::alloc::Global;
use std::sync::Arc;

/// How a worker decodes long intervals.
#[derive(Drop)]
pub(crate) enum Jobs<S: OneScan> {
    /// Together with the others: a job for each, by the interval's number.
    Shared(Vec<Option<Arc<Job<S>>>>),
    /// Each that it claims by itself, strip by strip.
    Own,
    /// As short ones are decoded: no caller looks for strips.
    Whole,
}

/// Opens a job of interval i for `workers` workers. `None` if allocation fails.
fn job_of<S: OneScan>(
    alloc: Global,
    part: &FirstIntervals<'_>,
    i: u32,
    workers: usize,
) -> Option<Arc<Job<S>>>
    requires part { S.part ≡ Some part.now }
    requires i { i < length part.now.scan.intervals }
{
    Arc::new(alloc, Job::open(alloc, part, i, workers).ok()?).ok()
}

impl<S: OneScan> Jobs<S> {
    /// Opens jobs for the intervals that have cells of strips, each for `workers` workers.
    pub(crate) fn shared(
        alloc: Global,
        part: &FirstIntervals<'_>,
        strips: &[Option<StripCells>],
        workers: usize,
    ) -> Jobs<S>
        requires part { S.part ≡ Some part.now }
        requires strips { length strips.now ≤ length part.now.scan.intervals }
    {
        // By its contract an interval's number fits into 32 bits.
        let _all = part.scan().intervals();
        let mut jobs = Vec::new(alloc);
        for i in 0..strips.len() {
            let job = match strips[i] {
                Some(_) => job_of(alloc, part, i as u32, workers),
                None => None,
            };
            if jobs.push(job).is_err() {
                break;
            }
        }
        Jobs::Shared(jobs)
    }

    /// One more than the last interval of which a worker can do a part.
    pub(crate) fn count(&self) -> usize {
        match self {
            Jobs::Shared(jobs) => jobs.len(),
            Jobs::Own | Jobs::Whole => 0,
        }
    }

    /// Returns the shared job of interval i, if there is one.
    pub(crate) fn get(&self, i: usize) -> Option<&Job<S>> {
        match self {
            Jobs::Shared(jobs) => jobs.get(i)?.as_deref(),
            Jobs::Own | Jobs::Whole => None,
        }
    }

    /// Returns the job by which a long interval i is decoded that a worker has claimed. `None` if it is decoded as a
    /// whole.
    pub(crate) fn claimed(
        &self,
        alloc: Global,
        part: &FirstIntervals<'_>,
        i: u32,
    ) -> Option<Arc<Job<S>>>
        requires part { S.part ≡ Some part.now }
        requires i { i < length part.now.scan.intervals }
    {
        match self {
            Jobs::Shared(jobs) => Arc::try_clone(jobs.get(i as usize)?.as_ref()?).ok(),
            Jobs::Own => job_of(alloc, part, i, 1),
            Jobs::Whole => None,
        }
    }
}
