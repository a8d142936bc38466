//! What glances at a board see while and after workers fill it.

use crate::wall::shown::{are_in_cells, glimpse, look, open};
use jr_scan::Scan;
use jr_wall::{Board, Glimpse, Mark, OpenGate, decode_all};
use std::sync::{Mutex, Wait};
use std::test::Fail;
use std::thread;
use test_files::files::{MIXED, TEN};
use test_files::scans::scan;

/// Returns whether a glance sees 136 in a sound interval, 0 in a blank one, and ten marks.
fn is_as_seen(seen: &Glimpse) -> bool {
    let value = match seen.mark {
        Mark::Sound => 136,
        Mark::Blank => 0,
        Mark::Damaged => return false,
    };
    seen.sample == value && seen.damaged == 0 && seen.sound.saturating_add(seen.blank) == 10
}

/// Glances a hundred times, and returns whether each sees what the marks say, with no mark fewer than before.
fn view<R: Wait>(rt: &R, scan: &Scan, board: &Mutex<Board>) -> bool {
    let mut before = 0;
    for turn in 0..100u32 {
        let Some(seen) = glimpse(rt, board, scan, 0, turn % 10 * 8, 0) else {
            return false;
        };
        if !is_as_seen(&seen) || seen.sound < before {
            return false;
        }
        before = seen.sound;
        thread::yield_now();
    }
    true
}

#[test]
fn sees_marks_grow_beside_two_workers(rt: HostRuntime) -> Result<(), Fail> {
    let scan = scan(rt.alloc(), TEN)?;
    let (decoding, seats) = open(rt.alloc(), &scan, 2, None)?;
    let is_right = decoding.run(&rt, seats, &OpenGate, |decoding| {
        view(&rt, &scan, decoding.board())
    });
    let is_kept = is_right
        && view(&rt, &scan, decoding.board())
        && are_in_cells(decoding.cells(), "ssssssssss");
    let board = decoding.finish();
    assert!(rt; is_kept && board.is_ok_and(|board| board.sound() == 10));
    Ok(())
}

/// Returns whether glances see nothing of a scan's board with another scan of the same size, but what it shows with an equal one.
fn sees_equal<R: Wait>(rt: &R, board: Board, other: &Scan, equal: &Scan) -> bool {
    let looked = look(&board, 0, 0, 0);
    let board = Mutex::new(board);
    match glimpse(rt, &board, equal, 0, 0, 0) {
        Some(seen) => {
            seen.mark == Mark::Sound
                && seen.sample == 136
                && seen.sound == 10
                && looked == Some(seen)
                && glimpse(rt, &board, other, 0, 0, 0).is_none()
        }
        None => false,
    }
}

#[test]
fn sees_nothing_of_another_scan(rt: HostRuntime) -> Result<(), Fail> {
    let (equal, other) = (scan(rt.alloc(), TEN)?, scan(rt.alloc(), MIXED)?);
    let board = decode_all(&rt, rt.alloc(), scan(rt.alloc(), TEN)?, 2, None, &OpenGate)?;
    assert!(rt; sees_equal(&rt, board, &other, &equal));
    Ok(())
}
