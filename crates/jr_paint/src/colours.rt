//! Colours in fixed point (JFIF 1.02, "Conversion to and from RGB"), a pixel at a time.

ghost use Rattle.std.specs.Prelude.{◌≡◌, ℕ, ◌^◌, pos, ◌+ℤ◌, ℤ};
ghost use Rattle.jr_segments.specs.declared.kind.Kind.TheVariants.{Ycc};
ghost use Rattle.jr_paint.specs.Colours.{colour_of, floor_div, byte_of, off, shade, IsWithin, ColoursAreNear};

use jr_head::Kind;

/// Returns a weighted sum over 65536, rounded.
fn rounded(weighted: i32) -> i32
    requires { IsWithin (2 ^ 30) weighted }
    ensures value { result ≡ floor_div (weighted +ℤ pos 32768) 65536 }
    ensures small { IsWithin (2 ^ 15) result }
{
    (weighted + 32768) >> 16
}

/// Returns the nearest number from 0 to 255.
fn nearest_byte(value: i32) -> u8
    requires { IsWithin (2 ^ 20) value }
    ensures { result ≡ byte_of value }
{
    value.clamp(0, 255) as u8
}

/// One colour of luminance y, of which the rest is a weighted sum.
fn channel(y: u8, weighted: i32) -> u8
    requires { IsWithin (2 ^ 30) weighted }
    ensures { result ≡ shade y weighted }
{
    nearest_byte(i32::from(y) + rounded(weighted))
}

/// Returns the difference of a sample of chrominance from the middle.
fn off_of(c: u8) -> i32
    ensures value { result ≡ off c }
    ensures small { IsWithin 128 result }
{
    i32::from(c) - 128
}

/// Returns the colour of a pixel of luminance y and chrominance cb and cr.
pub(crate) fn mixed(y: u8, cb: u8, cr: u8) -> [u8; 3]
    ensures { result ≡ colour_of Ycc y cb cr }
{
    let b = off_of(cb);
    let r = off_of(cr);
    let red = channel(y, 91881 * r);
    let green = channel(y, -22554 * b - 46802 * r);
    let blue = channel(y, 116130 * b);
    [red, green, blue]
}

/// Returns the colour of a pixel of these three values.
pub fn colour(kind: Kind, a: u8, b: u8, c: u8) -> [u8; 3]
    ensures { result ≡ colour_of kind a b c }
{
    match kind {
        Kind::Grey => [a, a, a],
        Kind::Rgb => [a, b, c],
        Kind::Ycc => mixed(a, b, c),
    }
}

/// States how near each colour is to that of JFIF's formulas.
pub fn colours_are_near()
    ensures { ColoursAreNear }
{}
