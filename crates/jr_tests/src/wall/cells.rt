//! Threads that publish pieces in cells (`hang`), and viewers that look.

ghost use Rattle.std.specs.Prelude.{◌≡◌};

use crate::wall::shown::piece;
use crate::wall::views::{Contents, View, contents_now, contents_of, is_kept, watch_twice};
use jr_cells::{Cells, Sight};
use jr_piece::Piece;
use std::alloc::Global;
use std::sync::Arc;
use std::test::Fail;
use std::thread;
use std::thread::Threads;
use test_files::scans::scan;

/// Ten restart intervals, each of one grey data unit.
const RISING: &str =
    "GW 43 FF D0 4B FF D1 53 FF D2 5B FF D3 63 FF D4 6B FF D5 73 FF D6 7B FF D7 1F FF D0 A0 E";

/// Its greys, by djpeg.
const RISING_GREYS: [u8; 10] = [114, 116, 118, 120, 136, 138, 140, 142, 128, 160];

/// The same values in the other order: no interval has the samples of the same interval above.
const FALLING: &str =
    "GW A0 FF D0 1F FF D1 7B FF D2 73 FF D3 6B FF D4 63 FF D5 5B FF D6 53 FF D7 4B FF D0 43 E";

const FALLING_GREYS: [u8; 10] = [160, 128, 142, 140, 138, 136, 120, 118, 116, 114];

/// Returns the pieces of a file, in the order of their numbers.
fn pieces_of(alloc: Global, words: &str) -> Result<Vec<Arc<Piece>>, Fail> {
    let scan = scan(alloc, words)?;
    let mut pieces = Vec::new(alloc);
    for i in 0..scan.intervals() {
        let Some(piece) = piece(alloc, &scan, i) else {
            return Err(Fail::from("out of memory"));
        };
        if pieces.push(piece).is_err() {
            return Err(Fail::from("out of memory"));
        }
    }
    Ok(pieces)
}

/// Publishes a piece in the cell of its number.
fn hang(cells: &Cells, piece: Arc<Piece>, sight: &mut Sight) -> Result<(), Arc<Piece>>
    requires { sight.old.cells ≡ cells.now }
    ensures { sight.new.cells ≡ sight.old.cells }
{
    let number = piece.number();
    if number >= cells.count() {
        return Err(piece);
    }
    cells.hang(number, piece, sight)
}

/// Publishes these pieces by a sight of its own, and returns the number of those that found their cells empty.
fn hang_all(cells: &Cells, pieces: Vec<Arc<Piece>>) -> u32 {
    let Ok(mut sight) = cells.sight() else {
        return 0;
    };
    let mut count = 0u32;
    for piece in pieces {
        if hang(cells, piece, &mut sight).is_ok() {
            count = count.saturating_add(1);
        }
    }
    count
}

/// States that two threads publish pieces, and this returns the number of those that found their cells empty.
fn hang_twice<R: Threads + Sync>(
    rt: &R,
    cells: &Cells,
    one: Vec<Arc<Piece>>,
    two: Vec<Arc<Piece>>,
) -> u32 {
    let (first, second) = thread::join(
        rt,
        move || hang_all(cells, one),
        move || hang_all(cells, two),
    );
    first.saturating_add(second)
}

/// Returns whether each cell contains a piece of one of the two files.
fn is_full(contents: &Contents) -> bool {
    let (rising, falling) = (contents_of(&RISING_GREYS), contents_of(&FALLING_GREYS));
    let mut is_full = true;
    for i in 0..10usize {
        is_full = is_full && (contents[i] == rising[i] || contents[i] == falling[i]);
    }
    is_full
}

#[test]
fn pieces_of_another_thread_are_found(rt: HostRuntime) -> Result<(), Fail> {
    let cells = Cells::open(rt.alloc(), 10)?;
    let pieces = pieces_of(rt.alloc(), RISING)?;
    let shared = &cells;
    let (count, ()) = thread::join(&rt, move || hang_all(shared, pieces), || ());
    let contents = contents_now(&cells);
    assert!(rt; count == 10 && contents.is_ok_and(|found| found == contents_of(&RISING_GREYS)));
    Ok(())
}

/// Returns whether two viewers saw what the cells contain at last, which is a piece of one of the two files in each.
fn saw_last(cells: &Cells, one: &View, two: &View) -> bool {
    match contents_now(cells) {
        Ok(last) => is_full(&last) && is_kept(one, &last) && is_kept(two, &last),
        Err(_) => false,
    }
}

/// Two threads publish pieces of the same numbers, while two viewers look. Returns whether the viewers saw what there is.
fn hang_and_watch<R: Threads + Sync>(
    rt: &R,
    cells: &Cells,
    rising: Vec<Arc<Piece>>,
    falling: Vec<Arc<Piece>>,
) -> bool {
    let ((one, two), count) = thread::join(
        rt,
        || watch_twice(rt, cells),
        move || hang_twice(rt, cells, rising, falling),
    );
    let Ok(mut one) = one else {
        return false;
    };
    let Ok(mut two) = two else {
        return false;
    };
    let is_right = count == 10 && saw_last(cells, &one, &two);
    cells.agree(&mut one.sight, &mut two.sight);
    is_right
}

#[test]
fn viewers_agree_while_two_threads_hang(rt: HostRuntime) -> Result<(), Fail> {
    for turn in 0..20u32 {
        let cells = Cells::open(rt.alloc(), 10)?;
        let rising = pieces_of(rt.alloc(), RISING)?;
        let mut falling = pieces_of(rt.alloc(), FALLING)?;
        falling.reverse();
        if !hang_and_watch(&rt, &cells, rising, falling) {
            return Err(Fail::from(turn));
        }
    }
    Ok(())
}
