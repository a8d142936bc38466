//! What is left to decode when the workers have ended.

ghost use Rattle.std.specs.Prelude.{◌≡◌, ◌≢◌, ◌<◌, ◌≤◌, ℕ, length, IsTrue, IfOk, OnOk};
ghost use Rattle.std.specs.Arc.{arc_value};
ghost use Rattle.jr_picture.specs.declared.mark.Mark.TheVariants.{Blank};
ghost use Rattle.jr_scan.specs.ScanValue.{IsSameScan};
ghost use Rattle.jr_picture.specs.DecodedScan.{mark_at};
ghost use Rattle.jr_wall.specs.Decoded.{IsDecoded};

use crate::board::Board;
use jr_base::Memory;
use jr_picture::Mark;
use jr_piece::Piece;
use jr_scan::Scan;
use std::alloc::Global;
use std::sync::Arc;

/// Returns whether a board is one of this scan, with no mark starting at interval n.
fn is_left(board: &Board, scan: &Scan, n: u32) -> bool
    ensures { IsTrue result → IsSameScan board.now.scan scan.now × ((i : ℕ) → n ≤ i → mark_at board.now i ≡ Blank) }
{
    if !board.is_of(scan) {
        return false;
    }
    board.assert_invariant();
    for i in n..scan.intervals() {
        if board.mark(i) != Mark::Blank {
            return false;
        }
    }
    true
}

/// Returns the board that the workers left, or an empty one if theirs is of another scan or has marks starting at n.
pub(crate) fn usable(alloc: Global, board: Board, scan: &Arc<Scan>, n: u32) -> Result<Board, Memory>
    ensures scan { IfOk result (λ b. IsSameScan b.scan (arc_value scan.now)) }
    ensures blank { IfOk result (λ b. (i : ℕ) → n ≤ i → mark_at b i ≡ Blank) }
{
    if is_left(&board, scan, n) {
        return Ok(board);
    }
    Board::new(alloc, Arc::try_clone(scan)?)
}

/// Decodes one interval that is blank.
fn decode_one(alloc: Global, scan: &Scan, board: &mut Board, i: u32) -> Result<(), Memory>
    requires scan { IsSameScan board.old.scan scan.now }
    requires i { i < length scan.now.intervals }
    requires blank { mark_at board.old i ≡ Blank }
    ensures scan { OnOk result (board.new.scan ≡ board.old.scan) }
    ensures marked { OnOk result (mark_at board.new i ≢ Blank) }
    ensures places { OnOk result (length board.new.pieces ≡ length board.old.pieces) }
    ensures others { OnOk result ((k : ℕ) → k ≢ i → mark_at board.new k ≡ mark_at board.old k) }
{
    board.assert_invariant();
    let interval = scan.interval(i)?;
    let Ok(piece) = Piece::make(alloc, interval) else {
        return Err(Memory);
    };
    let piece = Arc::new(alloc, piece)?;
    match board.post(piece) {
        Ok(()) => Ok(()),
        Err(_) => unreachable!(),
    }
}

/// Decodes what is still blank below n.
pub(crate) fn sweep(alloc: Global, scan: &Scan, mut board: Board, n: u32) -> Result<Board, Memory>
    requires scan { IsSameScan board.scan scan.now }
    requires n { n ≤ length scan.now.intervals }
    requires blank { (i : ℕ) → n ≤ i → mark_at board i ≡ Blank }
    ensures { IfOk result (λ b. IsDecoded scan.now n b) }
{
    board.assert_invariant();
    for i in 0..n {
        if board.mark(i) == Mark::Blank {
            decode_one(alloc, scan, &mut board, i)?;
        }
    }
    Ok(board)
}
