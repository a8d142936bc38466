//! Calls that read an interval of the file: the first is sound, and the second is damaged after five MCUs.

use crate::caller::Caller;
use jr_wall::Piece;

impl<'a> Caller<'a> {
    pub(crate) fn read(&mut self, number: u32) -> Option<bool> {
        let interval = self.interval(number)?;
        self.begin();
        let answer = interval.read(self.alloc);
        self.end();
        match answer {
            Ok(blocks) => Some(blocks.is_some() == (number == 0)),
            Err(_) => None,
        }
    }

    /// Makes a piece. Of the interval that a refused piece returns, another one can be made.
    pub(crate) fn make_piece(&mut self, number: u32) -> Option<bool> {
        let interval = self.interval(number)?;
        self.begin();
        let answer = Piece::make(self.alloc, interval);
        self.end();
        match answer {
            Ok(piece) => Some(piece.is_sound() == (number == 0)),
            Err(back) => Piece::make(self.alloc, back).is_err().then_some(false),
        }
    }
}
