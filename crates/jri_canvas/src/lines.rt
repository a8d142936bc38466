//! Lines laid out, each at its stride.

ghost use Rattle.std.specs.Prelude.{◌≡◌, ◌+◌, ◌-◌, ◌*◌, ◌^◌, ◌<◌, ◌≤◌, length, take, drop, true, false};
ghost use Rattle.jri_canvas.specs.Layouts.{HavePlaces, LieOn, laid_line, laid_line_size, laid_size, line_in, plain_line_size, sample_count};

use crate::layout::{Layout, Pixels};
use crate::line::lay_line;

/// The form of the lines of a canvas.
#[derive(Clone, Copy)]
pub struct CanvasLines {
    /// Number of pixels of a line.
    pub width: u32,
    /// The pixels before they are laid out.
    pub pixels: Pixels,
    /// How they are laid out.
    pub layout: Layout,
    /// Number of bytes from the start of a line to that of the next.
    pub stride: usize,
}

impl CanvasLines {
    /// Returns the size of a line in bytes before it is laid out.
    pub fn bytes_before(&self) -> usize
        ensures value { result ≡ sample_count self.now.pixels * self.now.width }
        ensures short { result ≤ 3 * self.now.width }
    {
        self.pixels.bytes() * self.width as usize
    }

    /// Returns the size of a line on the canvas in bytes.
    pub fn bytes(&self) -> usize
        ensures value { result ≡ laid_size self.now.layout self.now.pixels * self.now.width }
        ensures short { result ≤ 4 * self.now.width }
        ensures wide { self.now.width ≤ result }
    {
        self.layout.bytes(self.pixels) * self.width as usize
    }
}

/// Returns whether `count` lines fit on a canvas of `space` bytes.
pub fn have_places(form: &CanvasLines, count: usize, space: usize) -> bool
    requires { 0 < form.now.stride }
    ensures there { result ≡ true → HavePlaces form.now 0 count space }
    ensures not_there { result ≡ false → HavePlaces form.now 0 count space → ⊥ }
{
    let size = form.bytes();
    count == 0 || size <= space && count - 1 <= (space - size) / form.stride
}

/// Lays out a line as the one of this number.
fn lay_at(line: &[u8], form: &CanvasLines, number: usize, canvas: &mut [u8])
    requires line { length line.now ≡ plain_line_size form.now }
    requires place { number * form.now.stride + laid_line_size form.now ≤ length canvas.old }
    ensures { LieOn form.now number (number + 1) (λ _. laid_line form.now line.now) canvas.old canvas.new }
{
    let size = form.bytes();
    let at = number * form.stride;
    lay_line(
        line,
        form.width as usize,
        form.pixels,
        form.layout,
        &mut canvas[at..at + size],
    );
}

/// Lays out `count` consecutive lines as lines `first` and the next of a canvas, each at its number times the stride.
pub fn lay_lines(lines: &[u8], form: &CanvasLines, first: u32, count: usize, canvas: &mut [u8])
    requires few { count ≤ length lines.now }
    requires lines { length lines.now ≡ count * plain_line_size form.now }
    requires stride { laid_line_size form.now ≤ form.now.stride }
    requires places { HavePlaces form.now first (first + count) (length canvas.old) }
    ensures { LieOn form.now first (first + count) (λ k. laid_line form.now (line_in (plain_line_size form.now) lines.now (k - first))) canvas.old canvas.new }
{
    let line = form.bytes_before();
    for k in 0..count {
        let from = k * line;
        lay_at(&lines[from..from + line], form, first as usize + k, canvas);
    }
}
