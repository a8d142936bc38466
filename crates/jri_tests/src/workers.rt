//! Several workers at work on one image, of which one waits for another: at a gate, or at its first write.

ghost use Rattle.std.specs.Prelude.{◌≤◌};
ghost use Rattle.jr_base.specs.declared.limits.TheConstants.{MAX_WORKERS};

use crate::decoding::outcome_of;
use jr_crew::write_scan_by;
use jr_paint::Tally;
use jr_scan::Scan;
use jr_wall::{Gate, Piece};
use std::alloc::Global;
use std::io::{Result as IoResult, Write};
use std::sync::atomic::{AtomicU32, Ordering};
use std::sync::{Arc, Wait};
use std::test::Fail;
use std::thread::Threads;
use test_files::files::file;
use test_files::scans::scan;
use test_files::waiting::has_come;

/// Holds the calls for intervals 0 and 1 until both have come: one worker that does all by itself comes to the second only after the
/// first. If pieces are made it also holds these.
#[derive(Drop)]
struct Meeting {
    passed: AtomicU32,
    made: AtomicU32,
    /// Calls that waited in vain, and damaged pieces.
    wrong: AtomicU32,
}

impl Meeting {
    fn new() -> Meeting {
        Meeting {
            passed: AtomicU32::new(0),
            made: AtomicU32::new(0),
            wrong: AtomicU32::new(0),
        }
    }

    /// Waits for the other one of two calls.
    fn hold(&self, calls: &AtomicU32, number: u32) {
        if number > 1 {
            return;
        }
        calls.fetch_add(1, Ordering::SeqCst);
        if !has_come(calls, 2) {
            self.wrong.fetch_add(1, Ordering::SeqCst);
        }
    }

    /// Returns whether both intervals have passed, in time, and this number of pieces.
    fn is_met(&self, pieces: u32) -> bool {
        self.passed.load(Ordering::SeqCst) == 2
            && self.made.load(Ordering::SeqCst) == pieces
            && self.wrong.load(Ordering::SeqCst) == 0
    }
}

impl Gate for Meeting {
    fn pass(&self, number: u32) {
        self.hold(&self.passed, number);
    }

    fn made(&self, piece: &Piece) {
        if !piece.is_sound() {
            self.wrong.fetch_add(1, Ordering::SeqCst);
        }
        self.hold(&self.made, piece.number());
    }
}

/// Returns whether the workers of a run meet, at their pieces also if there are any.
fn meet<R: Threads + Wait + Sync + AllocGlobal>(
    rt: &R,
    words: &str,
    workers: u32,
    pieces: u32,
) -> Result<bool, Fail>
    requires some { 1 ≤ workers }
    requires few { workers ≤ MAX_WORKERS }
{
    let bytes = file(rt.alloc(), words)?;
    let gate = Meeting::new();
    let out = Vec::new(rt.alloc());
    let (outcome, _out) = outcome_of(rt, bytes.as_slice(), out, workers, None, &gate);
    Ok(outcome.is_ok() && gate.is_met(pieces))
}

/// 129 rows of eight MCUs, each an interval: more than a small image has.
const ROWS: &str = "S Q F:0408:0040 D A I:0008 C 63 FF D0 63 E";

/// Files, and the number of workers and of pieces of a run in which they meet.
const MEETINGS: [(&str, u32, u32); 3] = [("GI 63 FF D0 63 E", 2, 2), (ROWS, 2, 0), (ROWS, 8, 0)];

#[test]
fn workers_decode_intervals_at_once(rt: HostRuntime) -> Result<(), Fail> {
    for (words, workers, pieces) in &MEETINGS {
        if !meet(&rt, words, (*workers).clamp(1, 64), *pieces)? {
            return Err(Fail::from(*words));
        }
    }
    let scan = scan(rt.alloc(), ROWS)?;
    let gate = Meeting::new();
    let mut out = Tally::of(Vec::new(rt.alloc()));
    let outcome = write_scan_by(&rt, rt.alloc(), &scan, 2, None, &gate, &mut out);
    assert!(rt; outcome.is_ok() && gate.is_met(0));
    Ok(())
}

/// The number of intervals that have passed.
#[derive(Drop)]
struct Reached {
    passed: AtomicU32,
}

impl Gate for Reached {
    fn pass(&self, _number: u32) {
        self.passed.fetch_add(1, Ordering::SeqCst);
    }

    fn made(&self, _piece: &Piece) {}
}

/// Holds its first write until a number of intervals have passed, or in vain.
#[derive(Drop)]
struct Held<'g> {
    gate: &'g Reached,
    awaited: u32,
    /// The number of those that had passed then.
    seen: Option<u32>,
}

impl<'g> Write for Held<'g> {
    fn write(&mut self, bytes: &[u8]) -> IoResult<usize> {
        if self.seen.is_none() {
            let _ = has_come(&self.gate.passed, self.awaited);
            self.seen = Some(self.gate.passed.load(Ordering::SeqCst));
        }
        Ok(bytes.len())
    }

    fn flush(&mut self) -> IoResult<()> {
        Ok(())
    }
}

/// 256 rows of 128 MCUs, of which an interval has one and a half.
const LONG_ROWS: &str = "S Q F:0800:0400 D A I:00C0 C 63 FF D0 63 E";

/// Returns the number of intervals that have passed when the first write ends, which waits for a number of them; 0 if none is made.
fn seen<R: Threads + Wait + Sync>(
    rt: &R,
    alloc: Global,
    scan: &Arc<Scan>,
    workers: u32,
    awaited: u32,
) -> u32
    requires some { 1 ≤ workers }
    requires few { workers ≤ MAX_WORKERS }
{
    let gate = Reached {
        passed: AtomicU32::new(0),
    };
    let mut out = Tally::of(Held {
        gate: &gate,
        awaited,
        seen: None,
    });
    match write_scan_by(rt, alloc, scan, workers, None, &gate, &mut out) {
        Ok(_) => out.into_inner().seen.unwrap_or(0),
        Err(_) => 0,
    }
}

#[test]
fn others_read_on_while_the_first_lines_are_written(rt: HostRuntime) -> Result<(), Fail> {
    let scan = scan(rt.alloc(), LONG_ROWS)?;
    let alone = seen(&rt, rt.alloc(), &scan, 1, 0);
    if alone == 0 {
        return Err(Fail::from("one worker writes nothing"));
    }
    for (workers, more) in [(2, 1), (3, 1), (8, 4)] {
        let awaited = alone.wrapping_add(more);
        if seen(&rt, rt.alloc(), &scan, workers, awaited) < awaited {
            return Err(Fail::from(workers));
        }
    }
    Ok(())
}
