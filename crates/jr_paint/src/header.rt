//! The Netpbm header: the magic number, width, height and the greatest value.

ghost use Rattle.std.specs.Prelude.{◌≡◌, ◌+◌, ◌≤◌, ◌++◌, length, take, decimal};
ghost use Rattle.jr_paint.specs.declared.header.TheConstants.{HEADER_SPACE};
ghost use Rattle.jr_paint.specs.Text.{header_of, magic_of};

use itoa::Buffer;
use jr_head::{Head, Kind};

/// The longest header has fewer bytes.
pub const HEADER_SPACE: usize = 32;

fn magic(kind: Kind) -> &'static [u8]
    ensures value { result.now ≡ magic_of kind }
    ensures short { length result.now ≡ 3 }
{
    match kind {
        Kind::Grey => b"P5\n",
        _ => b"P6\n",
    }
}

/// Writes `part` into `bytes` after the first `at`, and returns where it ends.
fn store(part: &[u8], bytes: &mut [u8], at: usize) -> usize
    requires { at + length part.now ≤ length bytes.old }
    ensures end { result ≡ at + length part.now }
    ensures front { take result bytes.new ≡ take at bytes.old ++ part.now }
{
    let end = at + part.len();
    bytes[at..end].copy_from_slice(part);
    end
}

/// Writes a number in decimal into `bytes` after the first `at`, and returns where it ends.
fn write_number(number: u32, bytes: &mut [u8], at: usize) -> usize
    requires { at + 10 ≤ length bytes.old }
    ensures end { result ≤ at + 10 }
    ensures front { take result bytes.new ≡ take at bytes.old ++ decimal number }
{
    let mut digits = Buffer::new();
    store(digits.format(number).as_bytes(), bytes, at)
}

/// Writes the text before the pixels at the start of `bytes`, and returns its length.
pub fn write_header(head: &Head, bytes: &mut [u8]) -> usize
    requires { HEADER_SPACE ≤ length bytes.old }
    ensures end { result ≤ HEADER_SPACE }
    ensures front { take result bytes.new ≡ header_of head.now }
{
    let at = store(magic(head.kind()), bytes, 0);
    let at = write_number(head.width(), bytes, at);
    let at = store(b" ", bytes, at);
    let at = write_number(head.height(), bytes, at);
    store(b"\n255\n", bytes, at)
}
