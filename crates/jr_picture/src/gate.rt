//! What workers call between intervals.

use jr_piece::Piece;

/// What a worker calls between its steps, holding no lock.
pub trait Gate {
    /// Called between claiming interval `number` and decoding it.
    fn pass(&self, number: u32);

    /// Called with the piece of an interval once it is made, before it is posted.
    fn made(&self, piece: &Piece);

    /// Returns whether a call may wait for that of another interval.
    fn may_hold(&self) -> bool {
        true
    }
}

/// A gate that does nothing.
pub struct OpenGate;

impl Gate for OpenGate {
    fn pass(&self, _number: u32) {}

    fn made(&self, _piece: &Piece) {}

    fn may_hold(&self) -> bool {
        false
    }
}
