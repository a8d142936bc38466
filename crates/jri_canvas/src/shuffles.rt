//! Sixteen bytes at a time: pixels laid out by shuffles, as far as whole vectors go.

ghost use Rattle.std.specs.Prelude.{◌≡◌, ◌*◌, ◌≤◌, length, take};
ghost use Rattle.jri_canvas.specs.Layouts.{coloured};
ghost use Rattle.jri_canvas.specs.declared.layout.Order.TheVariants as order;
ghost use Rattle.jri_canvas.specs.declared.layout.Pixels.TheVariants as pixels;

use std::simd::prelude::*;

/// Blue, green and red of five pixels, and a byte to be written over.
#[inline(always)]
fn turned(bytes: u8x16) -> u8x16
    ensures { take 15 result ≡ coloured order.Bgr pixels.Colour bytes 5 }
{
    bytes.swizzle([2, 1, 0, 5, 4, 3, 8, 7, 6, 11, 10, 9, 14, 13, 12, 15])
}

/// Red, green and blue of four pixels, and 255.
#[inline(always)]
fn with_fourth(bytes: u8x16) -> u8x16
    ensures { result ≡ coloured order.Rgbx pixels.Colour bytes 4 }
{
    bytes.shuffle(
        Simd::splat(255),
        [0, 1, 2, 16, 3, 4, 5, 16, 6, 7, 8, 16, 9, 10, 11, 16],
    )
}

/// Blue, green and red of four pixels, and 255.
#[inline(always)]
fn turned_with_fourth(bytes: u8x16) -> u8x16
    ensures { result ≡ coloured order.Bgrx pixels.Colour bytes 4 }
{
    bytes.shuffle(
        Simd::splat(255),
        [2, 1, 0, 16, 5, 4, 3, 16, 8, 7, 6, 16, 11, 10, 9, 16],
    )
}

/// Each byte of grey three times, and 255.
#[inline(always)]
fn spread_with_fourth(bytes: u8x16) -> u8x64
    ensures { result ≡ coloured order.Rgbx pixels.Grey bytes 16 }
{
    bytes.shuffle(
        Simd::splat(255),
        [
            0, 0, 0, 16, 1, 1, 1, 16, 2, 2, 2, 16, 3, 3, 3, 16, 4, 4, 4, 16, 5, 5, 5, 16, 6, 6, 6,
            16, 7, 7, 7, 16, 8, 8, 8, 16, 9, 9, 9, 16, 10, 10, 10, 16, 11, 11, 11, 16, 12, 12, 12,
            16, 13, 13, 13, 16, 14, 14, 14, 16, 15, 15, 15, 16,
        ],
    )
}

/// Lays out blue, green and red of the first pixels, five at a time. Returns their number.
pub(crate) fn turn_by_fives(line: &[u8], width: usize, out: &mut [u8]) -> usize
    requires line { length line.now ≡ 3 * width }
    requires space { length out.old ≡ 3 * width }
    ensures few { result ≤ width }
    ensures front { take (3 * result) out.new ≡ coloured order.Bgr pixels.Colour line.now result }
{
    // A vector reads and writes a byte past its five pixels.
    let count = width.saturating_sub(1) / 5;
    for n in 0..count {
        let bytes = u8x16::from_slice(&line[15 * n..]);
        turned(bytes).copy_to_slice(&mut out[15 * n..]);
    }
    5 * count
}

/// Lays out red, green, blue and 255 of the first pixels, four at a time. Returns their number.
pub(crate) fn copy_by_fours(line: &[u8], width: usize, out: &mut [u8]) -> usize
    requires line { length line.now ≡ 3 * width }
    requires space { length out.old ≡ 4 * width }
    ensures few { result ≤ width }
    ensures front { take (4 * result) out.new ≡ coloured order.Rgbx pixels.Colour line.now result }
{
    // A vector reads four bytes past its four pixels.
    let count = width.saturating_sub(2) / 4;
    for n in 0..count {
        let bytes = u8x16::from_slice(&line[12 * n..]);
        with_fourth(bytes).copy_to_slice(&mut out[16 * n..]);
    }
    4 * count
}

/// Lays out blue, green, red and 255 of the first pixels, four at a time. Returns their number.
pub(crate) fn turn_by_fours(line: &[u8], width: usize, out: &mut [u8]) -> usize
    requires line { length line.now ≡ 3 * width }
    requires space { length out.old ≡ 4 * width }
    ensures few { result ≤ width }
    ensures front { take (4 * result) out.new ≡ coloured order.Bgrx pixels.Colour line.now result }
{
    // A vector reads four bytes past its four pixels.
    let count = width.saturating_sub(2) / 4;
    for n in 0..count {
        let bytes = u8x16::from_slice(&line[12 * n..]);
        turned_with_fourth(bytes).copy_to_slice(&mut out[16 * n..]);
    }
    4 * count
}

/// Lays out the first bytes of grey three times each, and 255, sixteen at a time. Returns their number.
pub(crate) fn spread_by_sixteens(line: &[u8], out: &mut [u8]) -> usize
    requires { length out.old ≡ 4 * length line.now }
    ensures few { result ≤ length line.now }
    ensures front { take (4 * result) out.new ≡ coloured order.Rgbx pixels.Grey line.now result }
{
    let count = line.len() / 16;
    for n in 0..count {
        let bytes = u8x16::from_slice(&line[16 * n..]);
        spread_with_fourth(bytes).copy_to_slice(&mut out[64 * n..]);
    }
    16 * count
}
