//! A large scan, checked by several threads.

ghost use Rattle.std.specs.Prelude.{◌≡◌, Some, length};
ghost use Rattle.jr_damage.specs.Verdicts.{IsVerdictOf};

use crate::damage::step_of;
use crate::shared_scan::SharedScan;
use crate::verdict::{Verdict, check_by, check_scan};
use jr_scan::{FirstIntervals, Scan};
use jr_work::tuning::{
    MAX_COUNTED, MIN_READS_OF_CHECK, READS_OF_CHECKER, STEPS_OF_BUFFER, WAITING_READS_OF_CHECK,
};
use jr_work::{Beside, BufferSize, Help, OneScan, SpeculationQueue, run_beside, windows_of};
use std::alloc::Global;
use std::marker::Brand;
use std::sync::Wait;
use std::thread::Threads;

/// Returns the number of threads, at most `threads`, that are worth starting next to the one that reads.
fn helpers_of(scan: &Scan, threads: u32) -> u32 {
    let mut windows: u64 = 0;
    for i in 0..scan.intervals().min(MAX_COUNTED) {
        windows = windows.saturating_add(windows_of(scan, i));
    }
    if windows < MIN_READS_OF_CHECK {
        return 0;
    }
    (windows / READS_OF_CHECKER).min(u64::from(threads)) as u32
}

/// The calling thread reads the scan, and then ends the others' work.
#[derive(Drop)]
struct ScanReading<'s, 'a, R: Wait, S: OneScan> {
    scan: &'s SharedScan<'a, S>,
    rt: &'s R,
}

impl<'s, 'a, R: Wait, S: OneScan> Beside for ScanReading<'s, 'a, R, S> {
    type Answer = Verdict;

    ghost may = { λ r. Unit };

    ghost returned = { λ r verdict. IsVerdictOf r.scan.now (length r.scan.now.intervals) verdict };

    fn run(self) -> Verdict {
        let verdict = check_by(self.scan, self.rt);
        self.scan.end(self.rt);
        verdict
    }
}

/// The work of the other threads: speculative reads.
#[derive(Drop)]
struct Speculating<'s, 'a, R: Wait, S: OneScan> {
    scan: &'s SharedScan<'a, S>,
    rt: &'s R,
}

impl<'s, 'a, R: Wait, S: OneScan> Help for Speculating<'s, 'a, R, S> {
    fn help(&self) {
        self.scan.work(self.rt);
    }
}

/// `check_scan_by`, with the brand `S` of the scan (see `OneScan`).
fn check_as<R: Threads + Wait + Sync, S: OneScan + Send>(
    rt: &R,
    alloc: Global,
    part: FirstIntervals<'_>,
    helpers: u32,
) -> Verdict
    requires { S.part ≡ Some part }
    ensures { IsVerdictOf part.entry.scan (length part.entry.scan.intervals) result }
{
    let scan = part.scan();
    let space = helpers.saturating_add(WAITING_READS_OF_CHECK);
    let step = step_of(scan.head());
    let size = BufferSize {
        mcus: step.saturating_mul(STEPS_OF_BUFFER),
        keeps_blocks: false,
    };
    let speculations: Result<SpeculationQueue<S>, _> = SpeculationQueue::open(
        alloc,
        &part,
        0,
        part.limit(),
        space,
        step,
        size,
    );
    match speculations {
        Ok(speculations) => {
            let shared = SharedScan::of(alloc, part, speculations);
            let speculating = Speculating { scan: &shared, rt };
            run_beside(rt, helpers, &speculating, ScanReading { scan: &shared, rt })
        }
        Err(_) => check_scan(scan),
    }
}

/// Does what `check_scan` does, with at most `workers` threads if the scan is large: the calling one reads it, the
/// others read ahead speculatively. They allocate for four speculative reads and one more for each of them, each of
/// 32 bytes for each of at most 3072 MCUs: where it starts and ends. If allocation fails they make fewer.
pub fn check_scan_by<R: Threads + Wait + Sync>(
    rt: &R,
    alloc: Global,
    scan: &Scan,
    workers: u32,
) -> Verdict
    ensures { IsVerdictOf scan.now (length scan.now.intervals) result }
{
    let helpers = helpers_of(scan, workers.saturating_sub(1));
    if helpers == 0 {
        return check_scan(scan);
    }
    check_as::<R, Brand>(rt, alloc, FirstIntervals::of(scan, None), helpers)
}
