//! The threads that fill a board.

ghost use Rattle.std.specs.Prelude.{◌≡◌, ◌<◌, ◌≤◌, ℕ, ◌++◌, List, length, true, IfOk, IfSome};
ghost use Rattle.std.specs.Arc.{arc_value};
ghost use Rattle.jr_base.specs.declared.limits.TheConstants.{MAX_WORKERS};
ghost use Rattle.jr_scan.specs.FirstIntervalsValue.{least};
ghost use Rattle.jr_wall.specs.Decoded.{IsDecoded};

use crate::board::Board;
use crate::decoding::Decoding;
use crate::sweeping::sweep;
use jr_base::Memory;
use jr_cells::{Cells, Desk, Seat, Sight};
use jr_picture::Gate;
use jr_piece::Piece;
use jr_scan::Scan;
use std::alloc::Global;
use std::sync::{Arc, Mutex, Wait};
use std::thread::Threads;

/// Claims intervals until the seat has ended. For each it passes the gate, makes the piece, shows it to the gate,
/// publishes it in its cell (`hang`), and posts it under the lock. An interval for whose piece allocation fails stays
/// blank; a piece that cannot be published is still posted.
pub fn work<R: Wait, G: Gate>(
    rt: &R,
    alloc: Global,
    scan: &Scan,
    desk: &Desk,
    seat: &mut Seat,
    board: &Mutex<Board>,
    cells: &Cells,
    gate: &G,
)
    requires seat { seat.old.desk ≡ desk.now }
    requires limit { desk.now.limit ≤ length scan.now.intervals }
    requires cells { desk.now.limit ≤ length cells.now }
    ensures ended { seat.new.ended ≡ true }
    ensures desk { seat.new.desk ≡ seat.old.desk }
    ensures place { seat.new.place ≡ seat.old.place }
    ensures drawn { (rest : List ℕ) × (seat.new.drawn ≡ seat.old.drawn ++ rest) }
{
    let mut sight = cells.sight().ok();
    while let Some(number) = desk.claim(seat) {
        gate.pass(number);
        if let Some(piece) = make_piece(alloc, scan, number, gate) {
            hang(cells, &piece, &mut sight);
            let _ = board.lock(rt).post(piece);
        }
    }
}

/// Returns the piece of an interval, which the gate has seen; `None` if allocation fails.
pub(crate) fn make_piece<G: Gate>(
    alloc: Global,
    scan: &Scan,
    number: u32,
    gate: &G,
) -> Option<Arc<Piece>>
    requires { number < length scan.now.intervals }
{
    let interval = scan.interval(number).ok()?;
    let piece = Piece::make(alloc, interval).ok()?;
    gate.made(&piece);
    Arc::new(alloc, piece).ok()
}

/// Publishes a piece in the cell of its number (`hang`), if there are a cell and a sight to do it with.
pub(crate) fn hang(cells: &Cells, piece: &Arc<Piece>, sight: &mut Option<Sight>)
    requires { IfSome sight.old (λ s. s.cells ≡ cells.now) }
    ensures { IfSome sight.new (λ s. s.cells ≡ cells.now) }
{
    let number = piece.number();
    let Some(sight) = sight else {
        return;
    };
    if number < cells.count()
        && let Ok(piece) = Arc::try_clone(piece)
    {
        let _ = cells.hang(number, piece, sight);
    }
}

/// Decodes the first intervals of a scan, or all, with `workers` workers (1 to 64): each of them is marked on the board
/// that is returned, and no other.
pub fn decode_all<R: Threads + Wait + Sync, G: Gate + Sync>(
    rt: &R,
    alloc: Global,
    scan: Arc<Scan>,
    workers: u32,
    first: Option<u32>,
    gate: &G,
) -> Result<Board, Memory>
    requires some { 1 ≤ workers }
    requires few { workers ≤ MAX_WORKERS }
    ensures { IfOk result (λ b. IsDecoded (arc_value scan) (least first (length (arc_value scan).intervals)) b) }
{
    let (decoding, seats) = Decoding::open(alloc, scan, workers, first)?;
    decoding.run_here(rt, seats, gate);
    decoding.finish()
}

/// Decodes the first intervals of a scan, or all, in the calling thread, without a lock: each of them is marked on the
/// board that comes back, and no other.
pub fn decode_alone(alloc: Global, scan: &Arc<Scan>, first: Option<u32>) -> Result<Board, Memory>
    ensures { IfOk result (λ b. IsDecoded (arc_value scan.now) (least first (length (arc_value scan.now).intervals)) b) }
{
    let all = scan.intervals();
    let n = match first {
        Some(first) => first.min(all),
        None => all,
    };
    let board = Board::new(alloc, Arc::try_clone(scan)?)?;
    sweep(alloc, scan, board, n)
}
