//! What is shown of an interval that is not decoded.

ghost use Rattle.std.specs.Prelude.{◌≡◌};
ghost use Rattle.jr_picture.specs.Headline.{blank_of};

use jr_head::Kind;

/// Returns the sample of component c if its interval is not decoded: black.
pub fn blank_sample(kind: Kind, c: u32) -> u8
    ensures { result ≡ blank_of kind c }
{
    match kind {
        Kind::Grey | Kind::Rgb => 0,
        Kind::Ycc => { if c == 0 { 0 } else { 128 } }
    }
}
