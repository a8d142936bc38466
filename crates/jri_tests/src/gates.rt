//! A gate is called for each interval that is decoded, once, by one worker in order, and for each piece that is made.

use crate::decoding::outcome_of;
use jr_crew::write_scan_by;
use jr_paint::Tally;
use jr_rows::write_scan;
use jr_scan::Scan;
use jr_wall::{Gate, Piece, decode_all};
use std::alloc::Global;
use std::sync::atomic::{AtomicU32, Ordering};
use std::sync::{Arc, Wait};
use std::test::Fail;
use std::thread::Threads;
use test_files::files::{COLOURED, LONG, MIXED, TEN, file};
use test_files::scans::scan;

/// The calls of a gate.
#[derive(Drop)]
pub(crate) struct Calls {
    passed: AtomicU32,
    /// A bit for each of the first 32 intervals that have passed.
    numbers: AtomicU32,
    /// The number of intervals that passed out of their order.
    unordered: AtomicU32,
    /// The number of pieces, and of their MCUs.
    pieces: AtomicU32,
    mcus: AtomicU32,
}

impl Calls {
    pub(crate) fn new() -> Calls {
        Calls {
            passed: AtomicU32::new(0),
            numbers: AtomicU32::new(0),
            unordered: AtomicU32::new(0),
            pieces: AtomicU32::new(0),
            mcus: AtomicU32::new(0),
        }
    }

    /// Returns the number of intervals that passed, of pieces, and of their MCUs.
    fn counts(&self) -> [u32; 3] {
        [
            self.passed.load(Ordering::SeqCst),
            self.pieces.load(Ordering::SeqCst),
            self.mcus.load(Ordering::SeqCst),
        ]
    }

    /// Returns whether just the first intervals passed, once, and this number of pieces was made.
    pub(crate) fn are_first(&self, number: u32, pieces: u32) -> bool {
        let all = 1_u32.wrapping_shl(number).wrapping_sub(1);
        self.passed.load(Ordering::SeqCst) == number
            && self.numbers.load(Ordering::SeqCst) == all
            && self.pieces.load(Ordering::SeqCst) == pieces
    }

    /// Returns whether the first intervals passed in their order, and no piece was made.
    fn are_in_order(&self, number: u32) -> bool {
        self.are_first(number, 0) && self.unordered.load(Ordering::SeqCst) == 0
    }
}

impl Gate for Calls {
    fn pass(&self, number: u32) {
        if self.passed.fetch_add(1, Ordering::SeqCst) != number {
            self.unordered.fetch_add(1, Ordering::SeqCst);
        }
        self.numbers
            .fetch_or(1_u32.wrapping_shl(number), Ordering::SeqCst);
    }

    fn made(&self, piece: &Piece) {
        self.pieces.fetch_add(1, Ordering::SeqCst);
        self.mcus.fetch_add(piece.front(), Ordering::SeqCst);
    }
}

/// Returns whether the first intervals pass a gate of `write_scan`, in their order, and one of `write_scan_by` with three workers.
fn pass_scan<R: Threads + Wait + Sync>(
    rt: &R,
    alloc: Global,
    scan: &Arc<Scan>,
    first: Option<u32>,
    passed: u32,
) -> bool {
    let (alone, several) = (Calls::new(), Calls::new());
    let mut out = Tally::of(Vec::new(alloc));
    write_scan(alloc, scan, first, &alone, &mut out).is_ok()
        && write_scan_by(rt, alloc, scan, 3, first, &several, &mut out).is_ok()
        && alone.are_in_order(passed)
        && several.are_first(passed, 0)
}

/// Returns the calls of `run`, with one worker or two.
fn calls_of_run<R: Threads + Wait + Sync + AllocGlobal>(
    rt: &R,
    words: &str,
    is_alone: bool,
    first: Option<u32>,
) -> Result<Calls, Fail> {
    let calls = Calls::new();
    let bytes = file(rt.alloc(), words)?;
    let out = Vec::new(rt.alloc());
    let workers = if is_alone { 1 } else { 2 };
    let (outcome, _out) = outcome_of(rt, bytes.as_slice(), out, workers, first, &calls);
    if outcome.is_err() {
        return Err(Fail::from("a run that failed"));
    }
    Ok(calls)
}

/// Files, the number of first intervals that are decoded, and the number of those that pass.
const PASSING: [(&str, Option<u32>, u32); 11] = [
    (TEN, None, 10),
    (TEN, Some(0), 0),
    (TEN, Some(1), 1),
    (TEN, Some(4), 4),
    (TEN, Some(4_294_967_295), 10),
    (MIXED, None, 10),
    (MIXED, Some(7), 7),
    (COLOURED, None, 2),
    (COLOURED, Some(1), 1),
    ("G 63 E", None, 1),
    ("G 63 E", Some(0), 0),
];

#[test]
fn reports_a_gate_each_of_the_first_intervals_once(rt: HostRuntime) -> Result<(), Fail> {
    for (words, first, passed) in &PASSING {
        let scan = scan(rt.alloc(), words)?;
        let calls = calls_of_run(&rt, words, true, *first)?;
        if !calls.are_in_order(*passed) || !pass_scan(&rt, rt.alloc(), &scan, *first, *passed) {
            return Err(Fail::from(*words));
        }
    }
    Ok(())
}

/// Images of 1024 MCUs, one below the other, each an interval; of one more; and of 129 rows of eight. Two workers
/// decode the small one into pieces; a larger one they do not, however narrow it is and whatever its header claims.
const PIECES: [(&str, u32, u32); 3] = [
    ("S Q F:2000:0008 D A I C 63 E", 1024, 1024),
    ("S Q F:2008:0008 D A I C 63 E", 1025, 0),
    ("S Q F:0408:0040 D A I C 63 E", 1032, 0),
];

#[test]
fn makes_pieces_of_small_pictures_alone(rt: HostRuntime) -> Result<(), Fail> {
    for (words, passed, pieces) in &PIECES {
        let calls = calls_of_run(&rt, words, false, None)?;
        let [passing, made, _] = calls.counts();
        if passing != *passed || made != *pieces {
            return Err(Fail::from(*words));
        }
    }
    Ok(())
}

/// An interval that all workers share, strip by strip, passes once, and has one piece.
#[test]
fn reports_a_gate_a_long_interval_once(rt: HostRuntime) -> Result<(), Fail> {
    for workers in [1, 2, 4] {
        let calls = Calls::new();
        let scan = scan(rt.alloc(), LONG)?;
        let board = decode_all(&rt, rt.alloc(), scan, workers, None, &calls);
        if !board.is_ok_and(|board| board.sound() == 1) || calls.counts() != [1, 1, 1056] {
            return Err(Fail::from(workers));
        }
    }
    Ok(())
}
