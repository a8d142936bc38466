//! The strips of long intervals that workers make.

ghost use Rattle.std.specs.Prelude.{◌≡◌, ◌≤◌};

use crate::wall::shown::open;
use jr_scan::Scan;
use jr_wall::{Decoding, OpenGate, Seat, StripCells};
use std::sync::{Arc, Wait};
use std::test::Fail;
use std::thread;
use std::thread::Threads;
use test_files::files::{LONG, LONG_COLOURED, TEN, TWO_LONG};
use test_files::scans::scan;

/// One interval of 1056 MCUs, with the data of 720.
const CUT: &str = "S Q F:0108:0100 D A C 30*618618618618618618596596596596596596 E";

/// Three components and 1080 MCUs of six data units, with the data of 600.
const COLOURED_CUT: &str = "S Q F3:01E0:0240:22 D:00:03:06 A \
    C3 60*6000C06000C06000C06000C06000C05800B05800B05800B05800B05800B0 E";

/// Returns the number of MCUs that a viewer finds in the strips of an interval; 0 if it has none.
fn mcus_of(decoding: &Decoding, number: u32) -> u32 {
    match decoding.strips(number) {
        Some(strips) => mcus_in(strips),
        None => 0,
    }
}

/// Returns the number of MCUs that a viewer finds in strips.
fn mcus_in(strips: &StripCells) -> u32 {
    let Ok(mut sight) = strips.sight() else {
        return 0;
    };
    let mut found = 0u32;
    for place in 0..strips.count() {
        if let Some(strip) = strips.look(place, &mut sight) {
            found = found.saturating_add(strip.mcus());
        }
    }
    found
}

/// States that two threads of the caller's own work at the seats of a decoding.
fn work_twice<R: Threads + Wait + Sync>(rt: &R, decoding: &Decoding, mut one: Seat, mut two: Seat)
    requires { (one.desk ≡ decoding.now.desk) × (two.desk ≡ decoding.now.desk) }
{
    thread::join(
        rt,
        move ||
            requires { one.desk ≡ decoding.now.desk }
        { decoding.work(rt, &mut one, &OpenGate) },
        move ||
            requires { two.desk ≡ decoding.now.desk }
        { decoding.work(rt, &mut two, &OpenGate) },
    );
}

/// Files of one long interval, whole and cut, and the number of MCUs of its strips: those of its longest prefix.
const STRIPS: [(&str, u32); 4] = [
    (LONG, 1056),
    (LONG_COLOURED, 1080),
    (CUT, 720),
    (COLOURED_CUT, 600),
];

/// Returns whether workers leave these MCUs in the strips of a scan's one interval.
fn leave<R: Threads + Wait + Sync + AllocGlobal>(
    rt: &R,
    scan: &Arc<Scan>,
    workers: u32,
    mcus: u32,
) -> Result<bool, Fail>
    requires some { 1 ≤ workers }
    requires few { workers ≤ 64 }
{
    let (decoding, seats) = open(rt.alloc(), scan, workers, None)?;
    decoding.run(rt, seats, &OpenGate, |_| {});
    Ok(mcus_of(&decoding, 0) == mcus)
}

#[test]
fn workers_leave_strips(rt: HostRuntime) -> Result<(), Fail> {
    for (words, mcus) in &STRIPS {
        let scan = scan(rt.alloc(), words)?;
        for workers in [1, 2, 4] {
            if !leave(&rt, &scan, workers, *mcus)? {
                return Err(Fail::from(*words));
            }
        }
    }
    Ok(())
}

#[test]
fn own_threads_fill_the_cells_of_strips(rt: HostRuntime) -> Result<(), Fail> {
    let (decoding, mut seats) = Decoding::open(rt.alloc(), scan(rt.alloc(), TWO_LONG)?, 2, None)?;
    let (Some(two), Some(one)) = (seats.pop(), seats.pop()) else {
        return Err(Fail::from("two seats"));
    };
    work_twice(&rt, &decoding, one, two);
    let is_filled = mcus_of(&decoding, 0) == 1056 && mcus_of(&decoding, 1) == 1056;
    let board = decoding.finish();
    assert!(rt; is_filled && board.is_ok_and(|board| board.sound() == 2));
    Ok(())
}

#[test]
fn a_short_interval_has_no_strips(rt: HostRuntime) -> Result<(), Fail> {
    let (decoding, _seats) = Decoding::open(rt.alloc(), scan(rt.alloc(), TEN)?, 1, None)?;
    for number in 0..11 {
        if decoding.strips(number).is_some() {
            return Err(Fail::from(number));
        }
    }
    Ok(())
}
