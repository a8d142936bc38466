//! The reports to a screen while workers decode.

use jr_paint::{Samples, Tally, write_netpbm};
use jr_scan::Scan;
use jr_view::{Screen, View, watch};
use jr_wall::{Gate, Piece, Strip, decode_alone};
use std::alloc::Global;
use std::sync::atomic::{AtomicU32, Ordering};
use std::sync::{Arc, Wait};
use std::test::Fail;
use std::thread::Threads;
use std::time::Clock;
use test_files::files::{LONG, MIXED, TEN, TWO_LONG};
use test_files::scans::scan;
use test_files::waiting::has_come;

/// Returns the text of an image; `None` if there is no memory for it.
fn text_of<S: Samples>(alloc: Global, picture: &S) -> Option<Vec<u8>> {
    let mut text = Tally::of(Vec::new(alloc));
    if write_netpbm(picture, &mut text).is_err() {
        return None;
    }
    Some(text.into_inner())
}

/// Returns whether a view shows what a board of all intervals does, and all rows of MCUs.
fn shows_all(alloc: Global, view: &View, scan: &Arc<Scan>) -> bool {
    let Ok(board) = decode_alone(alloc, scan, None) else {
        return false;
    };
    let Some(text) = text_of(alloc, &board) else {
        return false;
    };
    view.rows() == view.mcu_rows() && text_of(alloc, view).is_some_and(|shown| shown == text)
}

/// What was reported to a screen, for a gate that waits for it.
#[derive(Drop)]
struct Counts {
    mcus: AtomicU32,
    asked: AtomicU32,
    claims: AtomicU32,
    /// The number of times that a gate has waited in vain.
    vain: AtomicU32,
}

impl Counts {
    fn new() -> Counts {
        Counts {
            mcus: AtomicU32::new(0),
            asked: AtomicU32::new(0),
            claims: AtomicU32::new(0),
            vain: AtomicU32::new(0),
        }
    }

    fn of(counter: &AtomicU32) -> u32 {
        counter.load(Ordering::SeqCst)
    }

    /// Waits until a counter has reached a number.
    fn wait_for(&self, counter: &AtomicU32, number: u32) {
        if !has_come(counter, number) {
            self.vain.fetch_add(1, Ordering::SeqCst);
        }
    }
}

/// A view of what is reported to it.
#[derive(Drop)]
struct Reports<'a> {
    view: View,
    counts: &'a Counts,
    pieces: u32,
    /// Whether a strip was shown after the piece of the one interval.
    is_late: bool,
    /// Whether it reports at the first look that it is done.
    is_lazy: bool,
}

impl Reports<'_> {
    /// Returns whether each piece was reported, with all that was awaited, and it was asked at least twice.
    fn is_right(&self, pieces: u32, awaited: &Awaited) -> bool {
        let asked = Counts::of(&self.counts.asked);
        let is_held = awaited.mcus > 0;
        self.pieces == pieces
            && self.view.has_seen(0)
            && (asked == 2 || asked > 2 && !self.is_lazy)
            && (!is_held || Counts::of(&self.counts.mcus) == awaited.mcus && !self.is_late)
            && Counts::of(&self.counts.vain) == 0
    }
}

impl<'a> Screen for Reports<'a> {
    fn show_strip(&mut self, strip: &Strip) {
        self.view.show_strip(strip);
        self.is_late = self.is_late || self.pieces > 0;
        self.counts.mcus.fetch_add(strip.mcus(), Ordering::SeqCst);
    }

    fn show_piece(&mut self, piece: &Piece) {
        self.view.show_piece(piece);
        self.pieces = self.pieces.saturating_add(1);
    }

    fn is_done(&mut self) -> bool {
        self.counts.asked.fetch_add(1, Ordering::SeqCst);
        self.is_lazy || self.view.is_whole()
    }
}

/// What a gate waits for: the number of intervals that are claimed before one is decoded, and the number of MCUs whose strips
/// are reported to the screen, and of times that it is asked, before a piece is shown.
#[derive(Clone, Copy)]
struct Awaited {
    claims: u32,
    mcus: u32,
    asked: u32,
}

const NOTHING: Awaited = Awaited {
    claims: 0,
    mcus: 0,
    asked: 0,
};

#[derive(Drop)]
struct Held<'a> {
    counts: &'a Counts,
    awaited: Awaited,
}

impl<'a> Gate for Held<'a> {
    fn pass(&self, _number: u32) {
        self.counts.claims.fetch_add(1, Ordering::SeqCst);
        self.counts
            .wait_for(&self.counts.claims, self.awaited.claims);
    }

    fn made(&self, _piece: &Piece) {
        self.counts.wait_for(&self.counts.mcus, self.awaited.mcus);
        self.counts.wait_for(&self.counts.asked, self.awaited.asked);
    }
}

/// Watches a file, and returns whether each piece was reported to the screen, it shows all, and it was asked at least twice.
fn is_reported<R: Threads + Wait + Clock + Sync + AllocGlobal>(
    rt: &R,
    words: &str,
    is_lazy: bool,
    awaited: &Awaited,
) -> Result<bool, Fail> {
    let scan = scan(rt.alloc(), words)?;
    let counts = Counts::new();
    let gate = Held {
        counts: &counts,
        awaited: *awaited,
    };
    let mut reported = Reports {
        view: View::of(rt.alloc(), &scan)?,
        counts: &counts,
        pieces: 0,
        is_late: false,
        is_lazy,
    };
    let decoding = watch(
        rt,
        rt.alloc(),
        Arc::try_clone(&scan)?,
        2,
        &gate,
        &mut reported,
    )?;
    Ok(
        decoding.finish().is_ok_and(|board| board.blank() == 0)
            && reported.is_right(scan.intervals(), awaited)
            && shows_all(rt.alloc(), &reported.view, &scan),
    )
}

const TWICE: Awaited = Awaited {
    claims: 0,
    mcus: 0,
    asked: 1,
};

const STRIPS: Awaited = Awaited {
    claims: 0,
    mcus: 1056,
    asked: 1,
};

const TWO_WORKERS: Awaited = Awaited {
    claims: 2,
    mcus: 0,
    asked: 0,
};

/// Files, whether the screen is done at its first look, and what a gate waits for.
const FILES: [(&str, bool, Awaited); 9] = [
    (TEN, false, NOTHING),
    (MIXED, false, NOTHING),
    (LONG, false, NOTHING),
    (TWO_LONG, false, NOTHING),
    (TEN, true, NOTHING),
    (LONG, true, NOTHING),
    (LONG, false, STRIPS),
    (TEN, false, TWICE),
    (MIXED, false, TWO_WORKERS),
];

#[test]
fn reports_of_each_piece_and_of_what_is_there_while_workers_are_held(
    rt: HostRuntime,
) -> Result<(), Fail> {
    for (words, is_lazy, awaited) in &FILES {
        if !is_reported(&rt, words, *is_lazy, awaited)? {
            return Err(Fail::from(*words));
        }
    }
    Ok(())
}
