//! Lines laid out on a canvas of the caller's.

ghost use Rattle.std.specs.Prelude.{◌≡◌, ◌≢◌, ℕ, ◌*◌, ◌<◌, ◌≤◌, IfSome, None, length};
ghost use Rattle.jri_canvas.specs.Layouts.{sample_count};
ghost use Rattle.jri_memory.specs.Canvases.{HasForm, LacksLayout, LacksLinesToLay, LacksSpaceToLay, LaysOut};

use crate::status::{BUFFER_TOO_SMALL, NO_LAYOUT, OK};
use jri_canvas::{CanvasLines, Layout, Pixels, have_places, lay_lines};

/// Returns the pixels of `components` components.
pub(crate) fn pixels_of(components: u32) -> Option<Pixels>
    ensures some { IfSome result (λ p. sample_count p ≡ components) }
    ensures not_grey { result ≡ None → components ≢ 1 }
    ensures not_colour { result ≡ None → components ≢ 3 }
{
    match components {
        1 => Some(Pixels::Grey),
        3 => Some(Pixels::Colour),
        _ => None,
    }
}

/// Returns the form of the lines of a canvas, if none reaches into the next.
pub(crate) fn form_of(width: u32, pixels: Pixels, stride: usize, layout: u32) -> Option<CanvasLines>
    ensures form { IfSome result (λ c. HasForm width (sample_count pixels) stride layout c) }
    ensures pixels { IfSome result (λ c. c.pixels ≡ pixels) }
    ensures stride { IfSome result (λ c. width ≤ c.stride) }
    ensures none { result ≡ None → LacksLayout width (sample_count pixels) stride layout }
{
    let form = CanvasLines {
        width,
        pixels,
        layout: Layout::of_number(layout)?,
        stride,
    };
    if stride < form.bytes() {
        return None;
    }
    Some(form)
}

/// Returns the number of whole lines that `bytes` bytes are.
fn whole_lines(bytes: usize, line: usize) -> Option<usize>
    ensures whole { IfSome result (λ n. bytes ≡ n * line) }
    ensures few { IfSome result (λ n. n ≤ bytes) }
    ensures some { IfSome result (λ _. 0 < line) }
    ensures none { result ≡ None → (n : ℕ) → 0 < line → bytes ≢ n * line }
{
    if bytes.checked_rem(line)? != 0 {
        return None;
    }
    Some(bytes / line)
}

/// Lays out consecutive lines, line k starting at byte `k * stride` of the canvas. Returns 0. With 4 if the canvas is
/// too small, and 6 if there are no such lines or no such layout, it is unchanged.
pub fn lay_out(
    lines: &[u8],
    width: u32,
    components: u32,
    canvas: &mut [u8],
    stride: usize,
    layout: u32,
) -> u32
    ensures done { result ≡ 0 → LaysOut lines.now width components stride layout canvas.old canvas.new }
    ensures space { result ≡ 4 → LacksSpaceToLay lines.now width components stride layout (length canvas.old) }
    ensures layout { result ≡ 6 → LacksLinesToLay lines.now width components stride layout }
    ensures canvas { result ≢ 0 → canvas.new ≡ canvas.old }
    ensures few { result ≢ 0 → result ≢ 4 → result ≡ 6 }
{
    let Some(pixels) = pixels_of(components) else {
        return NO_LAYOUT;
    };
    let Some(form) = form_of(width, pixels, stride, layout) else {
        return NO_LAYOUT;
    };
    let Some(count) = whole_lines(lines.len(), form.bytes_before()) else {
        return NO_LAYOUT;
    };
    if !have_places(&form, count, canvas.len()) {
        return BUFFER_TOO_SMALL;
    }
    lay_lines(lines, &form, 0, count, canvas);
    OK
}
