//! Calls that cut a scan, and that make and fill boards and cells.

ghost use Rattle.std.specs.Prelude.{◌≡◌, ◌<◌, IfSome, length};

use crate::caller::Caller;
use jr_head::read_head;
use jr_scan::{Scan, ScanEnd};
use jr_wall::{Board, Cells, Decoding, Desk, Mark, Piece, Sight};
use std::sync::Arc;

/// Returns whether a cell contains the piece of its number.
fn sees(cells: &Cells, number: u32, sight: &mut Sight) -> bool
    requires { sight.old.cells ≡ cells.now }
    ensures { sight.new.cells ≡ sight.old.cells }
{
    number < cells.count() && cells.look(number, sight).is_some()
}

impl<'a> Caller<'a> {
    ghost use Rattle.std.specs.Arc.{arc_value};

    pub(crate) fn piece(&self, number: u32) -> Option<Arc<Piece>>
        ensures { IfSome result (λ piece. (arc_value piece).interval.number ≡ number) }
    {
        let Ok(piece) = Piece::make(self.alloc, self.interval(number)?) else {
            return None;
        };
        Arc::new(self.alloc, piece).ok()
    }

    /// Returns whether a board accepts this piece, and no other is there.
    fn can_post(&self, piece: Arc<Piece>) -> bool {
        let Ok(shared) = Arc::try_clone(&self.scan) else {
            return false;
        };
        match Board::new(self.alloc, shared) {
            Ok(mut board) => board.post(piece).is_ok(),
            Err(_) => false,
        }
    }

    /// Publishes the second piece. If it is refused, the sight still knows the first one, and the refused
    /// one can be posted.
    fn hang_second(&mut self, cells: &Cells, sight: &mut Sight) -> Option<bool>
        requires two { 1 < length cells.now }
        requires sight { sight.old.cells ≡ cells.now }
    {
        let second = self.piece(1)?;
        self.begin();
        let answer = cells.hang(1, second, sight);
        self.end();
        let seen = (sees(cells, 0, sight), sees(cells, 1, sight));
        match answer {
            Ok(()) => Some(seen == (true, true)),
            Err(back) => {
                let is_kept = self.can_post(back) && seen == (true, false);
                (!is_kept).then_some(false)
            }
        }
    }

    pub(crate) fn hang(&mut self) -> Option<bool> {
        let cells = self.cells()?;
        let Ok(mut sight) = cells.sight() else {
            return None;
        };
        if !sees(&cells, 0, &mut sight) {
            return Some(false);
        }
        self.hang_second(&cells, &mut sight)
    }

    /// Returns whether a scan is that of the file.
    fn is_cut(&self, again: &Scan) -> bool {
        again.is_same(&self.scan) && again.ended() == ScanEnd::EndOfImage
    }

    pub(crate) fn cut(&mut self) -> Option<bool> {
        let (alloc, file) = (self.alloc, self.file);
        let head = read_head(alloc, file).ok()?;
        self.begin();
        let answer = Scan::cut(alloc, head, file);
        self.end();
        match answer {
            Ok(again) => Some(self.is_cut(&again)),
            Err(_) => None,
        }
    }

    pub(crate) fn cut_in_place(&mut self) -> Option<bool> {
        let alloc = self.alloc;
        let head = read_head(alloc, self.file).ok()?;
        let bytes = self.file.to_vec(alloc).ok()?;
        self.begin();
        let answer = Scan::cut_in_place(alloc, head, bytes);
        self.end();
        match answer {
            Ok(again) => Some(self.is_cut(&again)),
            Err(_) => None,
        }
    }

    /// Returns whether a board is of the file's scan and has its number of blank intervals.
    fn is_board(&self, board: &Board, blank: u32) -> bool {
        board.is_of(&self.scan) && board.blank() == blank
    }

    pub(crate) fn open_board(&mut self) -> Option<bool> {
        let Ok(shared) = Arc::try_clone(&self.scan) else {
            return None;
        };
        self.begin();
        let answer = Board::new(self.alloc, shared);
        self.end();
        match answer {
            Ok(board) => Some(self.is_board(&board, 2)),
            Err(_) => None,
        }
    }

    pub(crate) fn open_desk(&mut self) -> Option<bool> {
        self.begin();
        let answer = Desk::open(self.alloc, 2, 3);
        self.end();
        let Ok((desk, mut seats)) = answer else {
            return None;
        };
        let counts = (desk.limit(), seats.len());
        match seats.pop() {
            Some(mut seat) => Some(counts == (2, 3) && desk.claim(&mut seat) == Some(0)),
            None => Some(false),
        }
    }

    pub(crate) fn open_cells(&mut self) -> Option<bool> {
        self.begin();
        let answer = Cells::open(self.alloc, 2);
        self.end();
        match answer {
            Ok(cells) => Some(cells.count() == 2),
            Err(_) => None,
        }
    }

    pub(crate) fn open_decoding(&mut self) -> Option<bool> {
        let Ok(shared) = Arc::try_clone(&self.scan) else {
            return None;
        };
        self.begin();
        let answer = Decoding::open(self.alloc, shared, 3, Some(1));
        self.end();
        let Ok((decoding, seats)) = answer else {
            return None;
        };
        let is_of = decoding.scan().is_same(&self.scan);
        Some(is_of && seats.len() == 3 && decoding.cells().count() == 1)
    }

    /// Returns a decoding of the first interval, which is not begun.
    fn decoding(&self) -> Option<Decoding> {
        let Ok(shared) = Arc::try_clone(&self.scan) else {
            return None;
        };
        match Decoding::open(self.alloc, shared, 1, Some(1)) {
            Ok((decoding, _)) => Some(decoding),
            Err(_) => None,
        }
    }

    pub(crate) fn finish_decoding(&mut self) -> Option<bool> {
        let decoding = self.decoding()?;
        self.begin();
        let answer = decoding.finish();
        self.end();
        match answer {
            Ok(board) => Some(self.is_board(&board, 1) && board.mark(0) == Mark::Sound),
            Err(_) => None,
        }
    }

    /// Returns two cells, of which the first has a piece.
    fn cells(&self) -> Option<Cells>
        ensures { IfSome result (λ cells. length cells ≡ 2) }
    {
        let piece = self.piece(0)?;
        let Ok(cells) = Cells::open(self.alloc, 2) else {
            return None;
        };
        let Ok(mut sight) = cells.sight() else {
            return None;
        };
        match cells.hang(0, piece, &mut sight) {
            Ok(()) => Some(cells),
            Err(_) => None,
        }
    }

    pub(crate) fn open_sight(&mut self) -> Option<bool> {
        let cells = self.cells()?;
        self.begin();
        let answer = cells.sight();
        self.end();
        match answer {
            Ok(mut sight) => { Some(sees(&cells, 0, &mut sight) && !sees(&cells, 1, &mut sight)) }
            Err(_) => None,
        }
    }
}
