//! A screen on which a decoding is shown.

ghost use Rattle.jr_view.specs.Reported.{Notice, Asked, PieceOf, StripOf};

use jr_piece::{Piece, Strip};

/// A receiver of what a decoding makes visible.
pub trait Screen {
    ghost use Rattle.jr_view.specs.Reported.{Notice};

    // How it changes by what is reported to it.
    ghost becomes: { Self → Notice → Self → Type 0 } = { λ _ _ _. Unit {0} };

    /// Shows a strip of a long interval, which can be seen after this call.
    fn show_strip(&mut self, strip: &Strip)
        ensures { becomes self.old (StripOf strip.now) self.new };

    /// Shows a piece, which can be seen after this call; of a long interval it comes after its strips.
    fn show_piece(&mut self, piece: &Piece)
        ensures { becomes self.old (PieceOf piece.now) self.new };

    /// Called after each look. Returns whether nothing is left to show.
    fn is_done(&mut self) -> bool
        ensures { becomes self.old Asked self.new };
}
