//! Pieces of scans, and what boards and cells show of them.

ghost use Rattle.std.specs.Prelude.{◌≡◌, ◌<◌, ◌≤◌, All, IfOk, IsTrue};
ghost use Rattle.jr_head.specs.Geometry.{components_of};
ghost use Rattle.jr_paint.specs.Geometry.{samples_across, samples_down};

use jr_head::Head;
use jr_paint::Samples;
use jr_scan::Scan;
use jr_wall::{Board, Cells, Decoding, Glimpse, Mark, Piece, Seat, glance};
use std::alloc::Global;
use std::sync::{Arc, Mutex, Wait};
use std::test::Fail;

/// Returns the piece of an interval; `None` if there is no such interval, or no memory for it.
pub(crate) fn piece(alloc: Global, scan: &Scan, number: u32) -> Option<Arc<Piece>> {
    if number >= scan.intervals() {
        return None;
    }
    let Ok(interval) = scan.interval(number) else {
        return None;
    };
    match Piece::make(alloc, interval) {
        Ok(piece) => Arc::new(alloc, piece).ok(),
        Err(_) => None,
    }
}

/// Returns a decoding of a scan's first intervals, or of all, and its seats for the given number of workers.
pub(crate) fn open(
    alloc: Global,
    scan: &Arc<Scan>,
    workers: u32,
    first: Option<u32>,
) -> Result<(Decoding, Vec<Seat>), Fail>
    requires some { 1 ≤ workers }
    requires few { workers ≤ 64 }
    ensures { IfOk result (λ r. All (λ s. s.desk ≡ r.0.desk) r.1.items) }
{
    let shared = Arc::try_clone(scan)?;
    Ok(Decoding::open(alloc, shared, workers, first)?)
}

/// Returns whether a board of this scan has these marks: a letter for each interval.
pub(crate) fn has_marks(scan: &Scan, board: &Board, letters: &str) -> bool {
    if !board.is_of(scan) || scan.intervals() as usize != letters.len() {
        return false;
    }
    for i in 0..scan.intervals() {
        let letter = match board.mark(i) {
            Mark::Blank => b'-',
            Mark::Sound => b's',
            Mark::Damaged => b'd',
        };
        if letters.as_bytes().get(i as usize) != Some(&letter) {
            return false;
        }
    }
    true
}

/// Returns whether a new sight finds these pieces in cells: a letter for each, as those of marks.
pub(crate) fn are_in_cells(cells: &Cells, letters: &str) -> bool {
    let Ok(mut sight) = cells.sight() else {
        return false;
    };
    for i in 0..cells.count() {
        let letter = match cells.look(i, &mut sight) {
            None => b'-',
            Some(piece) if piece.number() != i => b'?',
            Some(piece) if piece.is_sound() => b's',
            Some(_) => b'd',
        };
        if letters.as_bytes().get(i as usize) != Some(&letter) {
            return false;
        }
    }
    cells.count() as usize == letters.len()
}

/// Returns whether component c has a sample in column x and line y.
fn has_sample(head: &Head, c: u32, x: u32, y: u32) -> bool
    ensures component { IsTrue result → c < components_of head.now }
    ensures column { IsTrue result → x < samples_across head.now c }
    ensures line { IsTrue result → y < samples_down head.now c }
{
    if c >= head.components() {
        return false;
    }
    let across = (head.width() * head.horizontal(c)).div_ceil(head.horizontal_max());
    let down = (head.height() * head.vertical(c)).div_ceil(head.vertical_max());
    x < across && y < down
}

/// Returns a look at the sample of component c in column x and line y; `None` outside the image.
pub(crate) fn look(board: &Board, c: u32, x: u32, y: u32) -> Option<Glimpse> {
    if has_sample(board.head(), c, x, y) {
        Some(board.look(c, x, y))
    } else {
        None
    }
}

/// Returns a glance at the sample of component c in column x and line y; `None` outside the image.
pub(crate) fn glimpse<R: Wait>(
    rt: &R,
    board: &Mutex<Board>,
    scan: &Scan,
    c: u32,
    x: u32,
    y: u32,
) -> Option<Glimpse> {
    if has_sample(scan.head(), c, x, y) {
        glance(rt, board, scan, c, x, y)
    } else {
        None
    }
}
