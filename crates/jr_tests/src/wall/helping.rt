//! A worker that has nothing left to claim helps with another's long interval.

use crate::wall::shown::open;
use jr_wall::{Decoding, Gate, Piece};
use std::sync::atomic::{AtomicU32, Ordering};
use std::test::Fail;
use std::thread;
use test_files::files::TWO_LONG;
use test_files::scans::scan;
use test_files::waiting::has_come;

/// The maximum number of times that a viewer looks.
const TURNS: u32 = 10_000_000;

/// Holds the worker that has claimed interval 0, before it decodes any of it, until a strip of that interval is seen: which
/// another worker must have made.
#[derive(Drop)]
struct Held {
    seen: AtomicU32,
    vain: AtomicU32,
}

impl Held {
    /// Looks for the first strip of interval 0 until it is there; returns whether it came.
    fn watch(&self, decoding: &Decoding) -> bool {
        let Some(strips) = decoding.strips(0) else {
            return false;
        };
        let Ok(mut sight) = strips.sight() else {
            return false;
        };
        for _turn in 0..TURNS {
            if strips.count() > 0 && strips.look(0, &mut sight).is_some() {
                self.seen.fetch_add(1, Ordering::SeqCst);
                return true;
            }
            thread::yield_now();
        }
        false
    }
}

impl Gate for Held {
    fn pass(&self, number: u32) {
        if number == 0 && !has_come(&self.seen, 1) {
            self.vain.fetch_add(1, Ordering::SeqCst);
        }
    }

    fn made(&self, _piece: &Piece) {}
}

#[test]
fn others_decode_strips_of_a_worker_that_is_held(rt: HostRuntime) -> Result<(), Fail> {
    let scan = scan(rt.alloc(), TWO_LONG)?;
    for workers in [2, 3, 8] {
        let gate = Held {
            seen: AtomicU32::new(0),
            vain: AtomicU32::new(0),
        };
        let (decoding, seats) = open(rt.alloc(), &scan, workers, None)?;
        let is_seen = decoding.run(&rt, seats, &gate, |decoding| gate.watch(decoding));
        let is_sound = decoding.finish().is_ok_and(|board| board.sound() == 2);
        if !is_seen || !is_sound || gate.vain.load(Ordering::SeqCst) > 0 {
            return Err(Fail::from(workers));
        }
    }
    Ok(())
}
