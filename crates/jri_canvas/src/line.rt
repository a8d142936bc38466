//! A line laid out.

ghost use Rattle.std.specs.Prelude.{◌≡◌, ◌*◌, ◌≤◌, length, take};
ghost use Rattle.jri_canvas.specs.Layouts.{coloured, laid_pixels, laid_size, sample_count};
ghost use Rattle.jri_canvas.specs.declared.layout.Order.TheVariants as order;
ghost use Rattle.jri_canvas.specs.declared.layout.Pixels.TheVariants as pixels;

use crate::layout::{Layout, Order, Pixels};
use crate::shuffles::{copy_by_fours, spread_by_sixteens, turn_by_fives, turn_by_fours};

/// Each byte of grey three times.
fn spread_to_three(line: &[u8], out: &mut [u8])
    requires { length out.old ≡ 3 * length line.now }
    ensures rgb { out.new ≡ coloured order.Rgb pixels.Grey line.now (length line.now) }
    ensures bgr { out.new ≡ coloured order.Bgr pixels.Grey line.now (length line.now) }
{
    for x in 0..line.len() {
        let grey = line[x];
        out[3 * x] = grey;
        out[3 * x + 1] = grey;
        out[3 * x + 2] = grey;
    }
}

/// Writes each byte of grey after those that are done three times, and 255.
fn spread_rest_to_four(line: &[u8], done: usize, out: &mut [u8])
    requires space { length out.old ≡ 4 * length line.now }
    requires few { done ≤ length line.now }
    requires front { take (4 * done) out.old ≡ coloured order.Rgbx pixels.Grey line.now done }
    ensures { out.new ≡ coloured order.Rgbx pixels.Grey line.now (length line.now) }
{
    for x in done..line.len() {
        let grey = line[x];
        out[4 * x] = grey;
        out[4 * x + 1] = grey;
        out[4 * x + 2] = grey;
        out[4 * x + 3] = 255;
    }
}

/// Each byte of grey three times, and 255.
fn spread_to_four(line: &[u8], out: &mut [u8])
    requires { length out.old ≡ 4 * length line.now }
    ensures rgbx { out.new ≡ coloured order.Rgbx pixels.Grey line.now (length line.now) }
    ensures bgrx { out.new ≡ coloured order.Bgrx pixels.Grey line.now (length line.now) }
{
    let done = spread_by_sixteens(line, out);
    spread_rest_to_four(line, done, out);
}

/// Red, green and blue of each pixel.
fn copy_three(line: &[u8], width: usize, out: &mut [u8])
    requires line { length line.now ≡ 3 * width }
    requires space { length out.old ≡ 3 * width }
    ensures { out.new ≡ coloured order.Rgb pixels.Colour line.now width }
{
    out.copy_from_slice(line);
}

/// Writes blue, green and red of the pixels after those that are done.
fn turn_rest(line: &[u8], done: usize, width: usize, out: &mut [u8])
    requires line { length line.now ≡ 3 * width }
    requires space { length out.old ≡ 3 * width }
    requires few { done ≤ width }
    requires front { take (3 * done) out.old ≡ coloured order.Bgr pixels.Colour line.now done }
    ensures { out.new ≡ coloured order.Bgr pixels.Colour line.now width }
{
    for x in done..width {
        out[3 * x] = line[3 * x + 2];
        out[3 * x + 1] = line[3 * x + 1];
        out[3 * x + 2] = line[3 * x];
    }
}

/// Blue, green and red of each pixel.
fn turn_three(line: &[u8], width: usize, out: &mut [u8])
    requires line { length line.now ≡ 3 * width }
    requires space { length out.old ≡ 3 * width }
    ensures { out.new ≡ coloured order.Bgr pixels.Colour line.now width }
{
    let done = turn_by_fives(line, width, out);
    turn_rest(line, done, width, out);
}

/// Writes red, green and blue of the pixels after those that are done, and 255.
fn copy_rest_to_four(line: &[u8], done: usize, width: usize, out: &mut [u8])
    requires line { length line.now ≡ 3 * width }
    requires space { length out.old ≡ 4 * width }
    requires few { done ≤ width }
    requires front { take (4 * done) out.old ≡ coloured order.Rgbx pixels.Colour line.now done }
    ensures { out.new ≡ coloured order.Rgbx pixels.Colour line.now width }
{
    for x in done..width {
        out[4 * x] = line[3 * x];
        out[4 * x + 1] = line[3 * x + 1];
        out[4 * x + 2] = line[3 * x + 2];
        out[4 * x + 3] = 255;
    }
}

/// Red, green and blue of each pixel, and 255.
fn copy_to_four(line: &[u8], width: usize, out: &mut [u8])
    requires line { length line.now ≡ 3 * width }
    requires space { length out.old ≡ 4 * width }
    ensures { out.new ≡ coloured order.Rgbx pixels.Colour line.now width }
{
    let done = copy_by_fours(line, width, out);
    copy_rest_to_four(line, done, width, out);
}

/// Writes blue, green and red of the pixels after those that are done, and 255.
fn turn_rest_to_four(line: &[u8], done: usize, width: usize, out: &mut [u8])
    requires line { length line.now ≡ 3 * width }
    requires space { length out.old ≡ 4 * width }
    requires few { done ≤ width }
    requires front { take (4 * done) out.old ≡ coloured order.Bgrx pixels.Colour line.now done }
    ensures { out.new ≡ coloured order.Bgrx pixels.Colour line.now width }
{
    for x in done..width {
        out[4 * x] = line[3 * x + 2];
        out[4 * x + 1] = line[3 * x + 1];
        out[4 * x + 2] = line[3 * x];
        out[4 * x + 3] = 255;
    }
}

/// Blue, green and red of each pixel, and 255.
fn turn_to_four(line: &[u8], width: usize, out: &mut [u8])
    requires line { length line.now ≡ 3 * width }
    requires space { length out.old ≡ 4 * width }
    ensures { out.new ≡ coloured order.Bgrx pixels.Colour line.now width }
{
    let done = turn_by_fours(line, width, out);
    turn_rest_to_four(line, done, width, out);
}

/// Lays out a line of `width` pixels.
pub fn lay_line(line: &[u8], width: usize, pixels: Pixels, layout: Layout, out: &mut [u8])
    requires line { length line.now ≡ sample_count pixels * width }
    requires space { length out.old ≡ laid_size layout pixels * width }
    ensures { out.new ≡ laid_pixels layout pixels line.now width }
{
    match (layout, pixels) {
        (Layout::Plain, _) => out.copy_from_slice(line),
        (Layout::Coloured(Order::Rgb), Pixels::Colour) => copy_three(line, width, out),
        (Layout::Coloured(Order::Bgr), Pixels::Colour) => turn_three(line, width, out),
        (Layout::Coloured(Order::Rgbx), Pixels::Colour) => copy_to_four(line, width, out),
        (Layout::Coloured(Order::Bgrx), Pixels::Colour) => turn_to_four(line, width, out),
        (Layout::Coloured(Order::Rgb | Order::Bgr), Pixels::Grey) => spread_to_three(line, out),
        (Layout::Coloured(Order::Rgbx | Order::Bgrx), Pixels::Grey) => spread_to_four(line, out),
    }
}
