//! The results of workers for damaged intervals: marks, pieces in cells, and calls of the gate.

use crate::wall::shown::{are_in_cells, has_marks, open};
use jr_scan::Scan;
use jr_wall::{Decoding, Gate, Piece};
use std::sync::atomic::{AtomicU32, Ordering};
use std::sync::{Arc, Wait};
use std::test::Fail;
use std::thread::Threads;
use test_files::files::MIXED;
use test_files::scans::scan;

/// The calls for intervals, each a bit: that one is to be decoded, and that its piece is made, sound or damaged.
#[derive(Drop)]
struct Notes {
    passed: AtomicU32,
    sound: AtomicU32,
    damaged: AtomicU32,
    /// Calls for an interval that is not there, that has been called for, or whose piece is made too early.
    wrong: AtomicU32,
}

impl Notes {
    fn new() -> Notes {
        Notes {
            passed: AtomicU32::new(0),
            sound: AtomicU32::new(0),
            damaged: AtomicU32::new(0),
            wrong: AtomicU32::new(0),
        }
    }

    /// Adds a call for an interval, which may have had none, and notes whether it may come.
    fn note(&self, calls: &AtomicU32, number: u32, may_come: bool) {
        let bit = 1u32.wrapping_shl(number);
        let before = calls.fetch_or(bit, Ordering::SeqCst) & bit;
        if !may_come || before > 0 || number > 9 {
            self.wrong.fetch_add(1, Ordering::SeqCst);
        }
    }

    /// Returns whether there was one call of each kind for the intervals with these letters, as those of marks, and none for others.
    fn are(&self, letters: &str) -> bool {
        let (sound, damaged) = (bits_of(letters, b's'), bits_of(letters, b'd'));
        self.passed.load(Ordering::SeqCst) == sound | damaged
            && self.sound.load(Ordering::SeqCst) == sound
            && self.damaged.load(Ordering::SeqCst) == damaged
            && self.wrong.load(Ordering::SeqCst) == 0
    }
}

/// Returns a bit for each place of a letter.
fn bits_of(letters: &str, letter: u8) -> u32 {
    let (mut bits, mut bit) = (0u32, 1u32);
    for found in letters.as_bytes() {
        if *found == letter {
            bits |= bit;
        }
        bit = bit.wrapping_mul(2);
    }
    bits
}

impl Gate for Notes {
    fn pass(&self, number: u32) {
        self.note(&self.passed, number, true);
    }

    fn made(&self, piece: &Piece) {
        let calls = if piece.is_sound() {
            &self.sound
        } else {
            &self.damaged
        };
        let bit = 1u32.wrapping_shl(piece.number());
        let has_passed = self.passed.load(Ordering::SeqCst) & bit > 0;
        self.note(calls, piece.number(), has_passed);
    }
}

/// Returns whether the board and the gate have these letters, and the cells those of the first intervals.
fn are_left<R: Wait>(
    rt: &R,
    scan: &Scan,
    decoding: &Decoding,
    gate: &Notes,
    letters: &str,
) -> bool {
    gate.are(letters)
        && are_in_cells(decoding.cells(), letters.trim_end_matches('-'))
        && has_marks(scan, &decoding.board().lock(rt), letters)
}

/// Returns whether two workers that decode the first intervals of a scan leave these letters.
fn leaves<R: Threads + Wait + Sync + AllocGlobal>(
    rt: &R,
    scan: &Arc<Scan>,
    first: u32,
    letters: &str,
) -> Result<bool, Fail> {
    let gate = Notes::new();
    let (decoding, seats) = open(rt.alloc(), scan, 2, Some(first))?;
    decoding.run(rt, seats, &gate, |_| {});
    Ok(are_left(rt, scan, &decoding, &gate, letters))
}

/// Files, the number of their first intervals, and the marks that these get.
const MARKS: [(&str, u32, &str); 6] = [
    ("GI 63 FF D0 E0 E", 2, "sd"),
    ("GI E0 FF D0 63 E", 2, "ds"),
    ("GI E0 FF D0 E0 E", 2, "dd"),
    ("GI E0 FF D0 63 E", 1, "d-"),
    (MIXED, 10, "sdsddsdsds"),
    (MIXED, 7, "sdsddsd---"),
];

#[test]
fn marks_intervals(rt: HostRuntime) -> Result<(), Fail> {
    for (words, first, letters) in &MARKS {
        let scan = scan(rt.alloc(), words)?;
        if !leaves(&rt, &scan, *first, letters)? {
            return Err(Fail::from(*words));
        }
    }
    Ok(())
}
