//! What a view is shown: the data units of a strip or of a piece.

ghost use Rattle.std.specs.Prelude.{◌≡◌, ℕ, ◌+◌, ◌<◌, ◌^◌, length, slice_get, slice_index_or};
ghost use Rattle.std.specs.Option.{option_copied};
ghost use Rattle.jr_piece.specs.Units.{grey_unit};
ghost use Rattle.jr_view.specs.Views.{units_shown};

use jr_piece::{Piece, Strip};

/// The sample of what is not visible: mid-grey.
pub(crate) const GREY: u8 = 128;

/// Whose data units are shown.
#[derive(Clone, Copy)]
pub(crate) enum Shown<'a> {
    /// Those of a strip.
    OfStrip(&'a Strip),
    /// Those of a piece.
    OfPiece(&'a Piece),
}

impl Shown<'_> {
    /// Data unit k; none past the last.
    fn block(&self, k: u32) -> Option<&[u8; 64]>
        ensures { option_copied result ≡ slice_get (units_shown self.now) k }
    {
        match self {
            Shown::OfStrip(strip) => strip.block(k),
            Shown::OfPiece(piece) => piece.block(k),
        }
    }

    /// Returns data unit k; grey if there is none.
    fn unit(&self, k: u32) -> [u8; 64]
        ensures { result ≡ slice_index_or (units_shown self.now) k grey_unit }
    {
        match self.block(k) {
            Some(samples) => *samples,
            None => [GREY; 64],
        }
    }

    /// Copies the data units starting at this one, as many as fit.
    pub(crate) fn store(&self, from: u32, out: &mut [[u8; 64]])
        requires { from + length out.old < 2 ^ 32 }
        ensures { (k : ℕ) → k < length out.new → slice_index_or out.new k grey_unit ≡ slice_index_or (units_shown self.now) (from + k) grey_unit }
    {
        for k in 0..out.len() {
            out[k] = self.unit(from + k as u32);
        }
    }
}
