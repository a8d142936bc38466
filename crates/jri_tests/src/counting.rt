//! The number of workers, found by a gate that counts those inside it.

ghost use Rattle.std.specs.Prelude.{◌≤◌};
ghost use Rattle.jr_base.specs.declared.limits.TheConstants.{MAX_WORKERS};

use crate::decoding::outcome_of;
use jr_wall::{Gate, Piece, decode_all};
use std::sync::Wait;
use std::sync::atomic::{AtomicU32, Ordering};
use std::test::Fail;
use std::thread;
use std::thread::Threads;
use test_files::files::{TEN, file};
use test_files::scans::scan;
use test_files::waiting::has_come;

/// The number of times that a call looks whether one more worker comes than it waits for.
const MORE_TURNS: u32 = 10_000;

/// Holds each call until that number of calls are inside at once, and then a while longer.
#[derive(Drop)]
struct Crowd {
    number: u32,
    inside: AtomicU32,
    /// The greatest number that was inside at once.
    greatest: AtomicU32,
    calls: AtomicU32,
    /// Calls that used up their turns.
    late: AtomicU32,
}

impl Crowd {
    fn of(number: u32) -> Crowd {
        Crowd {
            number,
            inside: AtomicU32::new(0),
            greatest: AtomicU32::new(0),
            calls: AtomicU32::new(0),
            late: AtomicU32::new(0),
        }
    }

    /// Notes the number of calls inside. There are at most 64 workers, and each turn that fails has seen a greater
    /// number.
    fn note(&self, number: u32) {
        for _turn in 0..64u32 {
            let greatest = self.greatest.load(Ordering::SeqCst);
            if number <= greatest {
                return;
            }
            let _ = self
                .greatest
                .compare_exchange(greatest, number, Ordering::SeqCst, Ordering::SeqCst);
        }
    }

    /// Waits a while for one more than that number.
    fn await_more(&self) {
        for _turn in 0..MORE_TURNS {
            if self.greatest.load(Ordering::SeqCst) > self.number {
                return;
            }
            thread::yield_now();
        }
    }

    /// Returns whether exactly that number came, for the ten intervals.
    fn is_exact(&self) -> bool {
        self.greatest.load(Ordering::SeqCst) == self.number
            && self.calls.load(Ordering::SeqCst) == 10
            && self.late.load(Ordering::SeqCst) == 0
    }
}

impl Gate for Crowd {
    fn pass(&self, _number: u32) {
        self.calls.fetch_add(1, Ordering::SeqCst);
        let before = self.inside.fetch_add(1, Ordering::SeqCst);
        self.note(before.saturating_add(1));
        let is_late = self.late.load(Ordering::SeqCst) > 0;
        if is_late || !has_come(&self.greatest, self.number) {
            self.late.fetch_add(1, Ordering::SeqCst);
        } else {
            self.await_more();
        }
        self.inside.fetch_sub(1, Ordering::SeqCst);
    }

    fn made(&self, _piece: &Piece) {}
}

/// Returns whether a run goes well, and exactly that number of workers come.
fn runs_by<R: Threads + Wait + Sync + AllocGlobal>(rt: &R, workers: u32) -> Result<bool, Fail>
    requires some { 1 ≤ workers }
    requires few { workers ≤ MAX_WORKERS }
{
    let gate = Crowd::of(workers);
    let bytes = file(rt.alloc(), TEN)?;
    let out = Vec::new(rt.alloc());
    let (outcome, _out) = outcome_of(rt, bytes.as_slice(), out, workers, None, &gate);
    Ok(outcome.is_ok() && gate.is_exact())
}

/// Returns the same of `decode_all`.
fn decodes_by<R: Threads + Wait + Sync + AllocGlobal>(rt: &R, workers: u32) -> Result<bool, Fail>
    requires some { 1 ≤ workers }
    requires few { workers ≤ MAX_WORKERS }
{
    let gate = Crowd::of(workers);
    let scan = scan(rt.alloc(), TEN)?;
    let board = decode_all(rt, rt.alloc(), scan, workers, None, &gate);
    Ok(board.is_ok_and(|board| board.sound() == 10) && gate.is_exact())
}

/// The number of workers is the one that is given to `run` and `decode_all`.
#[test]
fn counts_workers(rt: HostRuntime) -> Result<(), Fail> {
    for workers in [1, 2, 4] {
        if !runs_by(&rt, workers)? || !decodes_by(&rt, workers)? {
            return Err(Fail::from(workers));
        }
    }
    Ok(())
}
