//! A file with intervals of 129 KB, which are long enough for speculative reads: with each number of workers the image, the
//! report and the damage are those of one worker, and a gate is called once for each interval.

ghost use Rattle.std.specs.Prelude.{◌≤◌};
ghost use Rattle.jr_base.specs.declared.limits.TheConstants.{MAX_WORKERS};

use crate::decoding::outcome_of;
use crate::gates::Calls;
use jr_damage::{check_scan, check_scan_by};
use jr_paint::{Tally, write_netpbm};
use jr_scan::Scan;
use jr_wall::{Gate, Piece, decode_all};
use std::alloc::Global;
use std::sync::atomic::{AtomicU64, Ordering};
use std::sync::{Arc, Wait};
use std::test::Fail;
use std::thread;
use std::thread::Threads;
use std::time::{Clock, Duration};
use test_files::files::file;
use test_files::scans::shared_scan;

/// The file up to its data: 20 rows of 301 MCUs, 1404 MCUs in each interval but the last.
const HEAD: &str = "S Q F:00A0:0968 D A2:00:0A I:057C C";

const MCUS: u32 = 6020;

const RESTART: u32 = 1404;

const INTERVALS: u32 = 5;

/// The first bytes of the MCUs, in turns: the DC difference is 16, 17, 18, -18, -17 or -16, and the first AC code begins.
const FIRST: [u8; 6] = [0xA1, 0xA3, 0xA5, 0x9B, 0x9D, 0x9F];

/// The bytes after it, for two AC coefficients of 512.
const NEXT: [u8; 3] = [0x40, 0x14, 0x01];

/// A first byte that no code begins.
const NO_CODE: u8 = 0xE1;

/// The MCU of the first interval that is damaged, if one is.
const DAMAGED: u32 = 700;

/// Returns the bytes of an MCU, whose last one has the end of the block.
fn mcu_of(first: u8) -> [u8; 94] {
    let mut mcu = [first; 94];
    for k in 0..92usize {
        mcu[k + 1] = NEXT[k % 3];
    }
    mcu[93] = 0;
    mcu
}

/// Appends an MCU, after a restart marker if it is the first of another interval. Returns `false` if there is no memory for it.
fn store_mcu(bytes: &mut Vec<u8>, mcu: u32, first: u8) -> bool {
    if mcu > 0 && mcu % RESTART == 0 {
        let marker = 0xD0 + ((mcu / RESTART).wrapping_sub(1) % 8) as u8;
        if bytes.extend_from_slice(&[0xFF, marker]).is_err() {
            return false;
        }
    }
    bytes.extend_from_slice(&mcu_of(first)).is_ok()
}

/// Returns the file, with one MCU that does not decode if `damaged` is one.
fn long_file(alloc: Global, damaged: Option<u32>) -> Result<Vec<u8>, Fail> {
    let mut bytes = file(alloc, HEAD)?;
    for mcu in 0..MCUS {
        let mut first = FIRST[mcu as usize % FIRST.len()];
        if damaged == Some(mcu) {
            first = NO_CODE;
        }
        if !store_mcu(&mut bytes, mcu, first) {
            return Err(Fail::from("out of memory"));
        }
    }
    bytes.extend_from_slice(&[0xFF, 0xD9])?;
    Ok(bytes)
}

/// Returns the scan of the file.
fn long_scan(alloc: Global, damaged: Option<u32>) -> Result<Arc<Scan>, Fail> {
    let bytes = long_file(alloc, damaged)?;
    shared_scan(alloc, bytes.as_slice())
}

/// Returns the time of a clock in nanoseconds.
fn nanos<R: Clock>(rt: &R) -> u64 {
    match rt.monotonic() {
        Ok(time) => u64::try_from(time.as_nanos()).unwrap_or(u64::MAX),
        Err(_) => 0,
    }
}

/// Holds each interval for some time, in which other workers can make speculative reads.
#[derive(Drop)]
struct Hold<'a, R: Clock> {
    rt: &'a R,
    millis: u64,
    calls: Calls,
    /// When the last hold ended.
    released: AtomicU64,
    /// The shortest time from the end of a hold to the next interval.
    shortest: AtomicU64,
}

impl<'a, R: Clock> Hold<'a, R> {
    fn new(rt: &'a R, millis: u64) -> Hold<'a, R> {
        Hold {
            rt,
            millis,
            calls: Calls::new(),
            released: AtomicU64::new(0),
            shortest: AtomicU64::new(u64::MAX),
        }
    }
}

impl<R: Clock> Gate for Hold<'_, R> {
    fn pass(&self, number: u32) {
        let since = nanos(self.rt).saturating_sub(self.released.load(Ordering::SeqCst));
        if number > 1 && since < self.shortest.load(Ordering::SeqCst) {
            self.shortest.store(since, Ordering::SeqCst);
        }
        self.calls.pass(number);
        if self.millis > 0 {
            thread::sleep(self.rt, Duration::from_millis(self.millis));
        }
        self.released.store(nanos(self.rt), Ordering::SeqCst);
    }

    fn made(&self, piece: &Piece) {
        self.calls.made(piece);
    }
}

/// The image of a run, the number of its sound and damaged intervals, and the shortest time from the end of a hold to the next
/// interval.
#[derive(Drop)]
struct Run {
    image: Vec<u8>,
    sound: u32,
    damaged: u32,
    shortest: u64,
}

impl Run {
    /// Returns whether both have the same image and the same counts.
    fn is_same(&self, other: &Run) -> bool {
        self.sound == other.sound && self.damaged == other.damaged && self.image == other.image
    }
}

/// Runs with a gate that holds each interval.
fn run_by<R: Threads + Wait + Clock + Sync + AllocGlobal>(
    rt: &R,
    bytes: &[u8],
    workers: u32,
    millis: u64,
) -> Result<Run, Fail>
    requires some { 1 ≤ workers }
    requires few { workers ≤ MAX_WORKERS }
{
    let gate = Hold::new(rt, millis);
    let (outcome, out) = outcome_of(rt, bytes, Vec::new(rt.alloc()), workers, None, &gate);
    let Ok(report) = outcome else {
        return Err(Fail::from("a run that failed"));
    };
    if !gate.calls.are_first(INTERVALS, 0) {
        return Err(Fail::from("calls of the gate"));
    }
    Ok(Run {
        image: out.into_inner(),
        sound: report.sound,
        damaged: report.damaged,
        shortest: gate.shortest.load(Ordering::SeqCst),
    })
}

/// Runs often and compares each run with `alone`, until one has skipped an interval's rows in less than half of `read`,
/// the time in which they are read. Returns whether one has.
fn has_taken_over<R: Threads + Wait + Clock + Sync + AllocGlobal>(
    rt: &R,
    bytes: &[u8],
    workers: u32,
    alone: &Run,
    read: u64,
) -> Result<bool, Fail>
    requires some { 1 ≤ workers }
    requires few { workers ≤ MAX_WORKERS }
{
    for _ in 0..MAX_RUNS {
        let run = run_by(rt, bytes, workers, MILLIS)?;
        if !run.is_same(alone) {
            return Err(Fail::from("another image"));
        }
        if run.shortest < read / 2 {
            return Ok(true);
        }
    }
    Ok(false)
}

/// Returns the shortest time in which two workers, of which each reads its rows in turn, read the rows between two intervals.
fn time_to_read<R: Threads + Wait + Clock + Sync + AllocGlobal>(
    rt: &R,
    bytes: &[u8],
) -> Result<u64, Fail> {
    let mut read = u64::MAX;
    for _ in 0..3 {
        read = run_by(rt, bytes, 2, MILLIS)?.shortest.min(read);
    }
    Ok(read)
}

/// The time for which a gate holds an interval, in milliseconds.
const MILLIS: u64 = 5;

const MAX_RUNS: u32 = 40;

/// With two workers each row is read in turn, so that the rows between two intervals take the time to read them. With more a
/// held interval lets the others read ahead, and then the rows are skipped in a part of that time. If no three threads
/// run at a time the test requires nothing of the time.
#[test]
fn rows_are_taken_over_from_speculative_reads(rt: HostRuntime) -> Result<(), Fail> {
    let is_small = thread::available_parallelism(&rt).map_or(true, |count| count.get() < 3);
    for damaged in [None, Some(DAMAGED)] {
        let bytes = long_file(rt.alloc(), damaged)?;
        let alone = run_by(&rt, bytes.as_slice(), 1, 0)?;
        let read = time_to_read(&rt, bytes.as_slice())?;
        for workers in [3, 4, 8] {
            let is_taken = has_taken_over(&rt, bytes.as_slice(), workers, &alone, read)?;
            if !is_taken && !is_small {
                return Err(Fail::from(workers));
            }
        }
    }
    Ok(())
}

/// Decodes the first intervals onto a board, and returns its text.
fn decoded_by<R: Threads + Wait + Clock + Sync + AllocGlobal>(
    rt: &R,
    scan: &Arc<Scan>,
    workers: u32,
    first: u32,
) -> Result<Vec<u8>, Fail>
    requires some { 1 ≤ workers }
    requires few { workers ≤ MAX_WORKERS }
{
    let gate = Hold::new(rt, 0);
    let shared = Arc::try_clone(scan)?;
    let board = decode_all(rt, rt.alloc(), shared, workers, Some(first), &gate)?;
    let mut out = Tally::of(Vec::new(rt.alloc()));
    if !gate.calls.are_first(first, first) || write_netpbm(&board, &mut out).is_err() {
        return Err(Fail::from("calls of the gate, or no memory"));
    }
    Ok(out.into_inner())
}

/// The number of times that each decoding is made: a wake-up that is lost is not lost each time.
const TIMES: u32 = 10;

#[test]
fn boards_are_those_of_one_worker(rt: HostRuntime) -> Result<(), Fail> {
    let scan = long_scan(rt.alloc(), Some(DAMAGED))?;
    for first in [1, INTERVALS] {
        let alone = decoded_by(&rt, &scan, 1, first)?;
        for turn in 0..3 * TIMES {
            let workers = WORKERS[turn as usize % WORKERS.len()].clamp(1, 64);
            if decoded_by(&rt, &scan, workers, first)? != alone {
                return Err(Fail::from(workers));
            }
        }
    }
    Ok(())
}

/// Numbers of workers with which a decoding has the result of one.
const WORKERS: [u32; 3] = [3, 4, 8];

/// Returns whether each check of a scan has the result of one that calls no other worker, with such a number of damaged intervals.
fn is_checked<R: Threads + Wait + Sync>(rt: &R, alloc: Global, scan: &Scan, damaged: u32) -> bool {
    let alone = check_scan(scan);
    let mut is_same = alone.damaged == damaged;
    for _ in 0..TIMES {
        for workers in [1, 3, 4, 8] {
            is_same = is_same && check_scan_by(rt, alloc, scan, workers) == alone;
        }
    }
    is_same
}

#[test]
fn damage_is_that_of_one_worker(rt: HostRuntime) -> Result<(), Fail> {
    for (damaged, count) in [(None, 0), (Some(DAMAGED), 1)] {
        let scan = long_scan(rt.alloc(), damaged)?;
        if !is_checked(&rt, rt.alloc(), &scan, count) {
            return Err(Fail::from(count));
        }
    }
    Ok(())
}
