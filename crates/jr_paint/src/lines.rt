//! The pixels of a line, and of two that use the same samples of chrominance.

ghost use Rattle.std.specs.Prelude.{◌≡◌, ◌+◌, ◌*◌, ◌<◌, ◌≤◌, length};
ghost use Rattle.jr_head.specs.Geometry.{IsValid, component_count};
ghost use Rattle.jr_paint.specs.Lines.{IsStretched, line_of, two_lines_of, next_lines_of, line_space, line_size};
ghost use Rattle.jr_segments.specs.declared.kind.Kind.TheVariants.{Grey};
ghost use Rattle.jr_paint.specs.Shades.{HalvesChroma, SharesChroma};

use crate::halves::{convert_one, convert_two};
use crate::pixels::mix;
use crate::samples::Samples;
use crate::upsampling::{halves_chroma, read_halves, shares_chroma, upsample};
use jr_head::{Head, Kind};

/// Returns the number of bytes that painting a line, or two at once, needs: four lines of those samples that are not
/// used in place.
pub fn line_space(head: &Head) -> usize
    ensures value { result ≡ line_space head.now }
    ensures few { result < 262144 }
{
    head.assert_invariant();
    4 * head.width() as usize
}

/// The pixels of line y, in grey.
fn fill_grey<S: Samples>(samples: &S, y: u32, space: &mut [u8], pixels: &mut [u8])
    requires kind { (S.head_of samples.now).kind ≡ Grey }
    requires down { y < (S.head_of samples.now).height }
    requires space { line_space (S.head_of samples.now) ≤ length space.old }
    requires pixels { length pixels.old ≡ (S.head_of samples.now).width }
    ensures { pixels.new ≡ line_of (S.head_of samples.now) (S.shown samples.now) y }
{
    let width = samples.head().width() as usize;
    let (grey, near) = space.split_at_mut(width);
    pixels.copy_from_slice(upsample(samples, 0, y, near, grey));
}

/// The pixels of line y, in colours.
fn fill_colours<S: Samples>(samples: &S, y: u32, space: &mut [u8], pixels: &mut [u8])
    requires kind { component_count (S.head_of samples.now).kind ≡ 3 }
    requires down { y < (S.head_of samples.now).height }
    requires space { line_space (S.head_of samples.now) ≤ length space.old }
    requires pixels { length pixels.old ≡ 3 * (S.head_of samples.now).width }
    ensures { pixels.new ≡ line_of (S.head_of samples.now) (S.shown samples.now) y }
{
    let head = samples.head();
    let width = head.width() as usize;
    let (first, space) = space.split_at_mut(width);
    let (second, space) = space.split_at_mut(width);
    let (third, near) = space.split_at_mut(width);
    let first = upsample(samples, 0, y, near, first);
    let second = upsample(samples, 1, y, near, second);
    let third = upsample(samples, 2, y, near, third);
    mix(head.kind(), first, second, third, pixels);
}

/// Fills the pixels of line y if a sample of chrominance serves two of them.
fn fill_halved<S: Samples>(samples: &S, y: u32, space: &mut [u8], pixels: &mut [u8])
    requires halves { HalvesChroma (S.head_of samples.now) }
    requires down { y < (S.head_of samples.now).height }
    requires space { line_space (S.head_of samples.now) ≤ length space.old }
    requires pixels { length pixels.old ≡ 3 * (S.head_of samples.now).width }
    ensures { pixels.new ≡ line_of (S.head_of samples.now) (S.shown samples.now) y }
{
    let head = samples.head();
    let width = head.width() as usize;
    let (luma, space) = space.split_at_mut(width);
    let (cb, space) = space.split_at_mut(width);
    let (cr, near) = space.split_at_mut(width);
    let luma = upsample(samples, 0, y, near, luma);
    let (cb, cr) = read_halves(samples, y, cb, cr);
    convert_one(luma, cb, cr, pixels);
}

/// The pixels of line y and of the next, which use the same samples of chrominance.
fn fill_two<S: Samples>(samples: &S, y: u32, space: &mut [u8], pixels: &mut [u8])
    requires shares { SharesChroma (S.head_of samples.now) y }
    requires space { line_space (S.head_of samples.now) ≤ length space.old }
    requires pixels { length pixels.old ≡ 6 * (S.head_of samples.now).width }
    ensures { pixels.new ≡ two_lines_of (S.head_of samples.now) (S.shown samples.now) y }
{
    let head = samples.head();
    let width = head.width() as usize;
    let (luma, space) = space.split_at_mut(width);
    let (next_luma, space) = space.split_at_mut(width);
    let (cb, cr) = space.split_at_mut(width);
    // The space for chrominance served the luminance of both lines before.
    let luma = upsample(samples, 0, y, cb, luma);
    let next_luma = upsample(samples, 0, y + 1, cr, next_luma);
    let (cb, cr) = read_halves(samples, y, cb, cr);
    let (upper, lower) = pixels.split_at_mut(3 * width);
    convert_two(luma, next_luma, cb, cr, upper, lower);
}

/// Returns the number of lines that are painted at once starting at line y: two if both use the same samples of
/// chrominance.
pub(crate) fn lines_at_once(head: &Head, y: u32) -> u32
    requires valid { IsValid head.now }
    requires down { y < head.now.height }
    ensures some { 0 < result }
    ensures few { result ≤ 2 }
    ensures inside { y + result ≤ head.now.height }
    ensures shared { result ≡ 2 → SharesChroma head.now y }
{
    if shares_chroma(head, y) { 2 } else { 1 }
}

/// Fills the pixels of `count` lines starting at line y: of one, or of two that use the same samples of chrominance.
pub(crate) fn fill_lines<S: Samples>(
    samples: &S,
    y: u32,
    count: u32,
    space: &mut [u8],
    pixels: &mut [u8],
)
    requires some { 0 < count }
    requires few { count ≤ 2 }
    requires down { y + count ≤ (S.head_of samples.now).height }
    requires shared { count ≡ 2 → SharesChroma (S.head_of samples.now) y }
    requires space { line_space (S.head_of samples.now) ≤ length space.old }
    requires pixels { length pixels.old ≡ count * line_size (S.head_of samples.now) }
    ensures { pixels.new ≡ next_lines_of (S.head_of samples.now) (S.shown samples.now) y count }
{
    if count == 2 {
        return fill_two(samples, y, space, pixels);
    }
    match samples.head().kind() {
        Kind::Grey => fill_grey(samples, y, space, pixels),
        Kind::Ycc if halves_chroma(samples.head()) => fill_halved(samples, y, space, pixels),
        Kind::Rgb | Kind::Ycc => fill_colours(samples, y, space, pixels),
    }
}

/// Returns the size of a line of pixels in bytes.
pub fn bytes_of_line(head: &Head) -> usize
    ensures value { result ≡ line_size head.now }
    ensures few { result ≤ 3 * head.now.width }
{
    let width = head.width() as usize;
    match head.kind() {
        Kind::Grey => width,
        Kind::Rgb | Kind::Ycc => 3 * width,
    }
}

/// Returns the size in bytes of `lines` lines, of `all`.
pub fn bytes_to(lines: u32, all: u32, line: usize) -> usize
    requires within { lines ≤ all }
    requires few { all < 65536 }
    requires short { line ≤ 196605 }
    ensures value { result ≡ lines * line }
    ensures within { result ≤ all * line }
{
    lines as usize * line
}

/// Paints the pixels of `count` lines starting at line y, a line after the other, of one byte or three each. Samples
/// that cannot be used in place are copied into `space`; its content does not matter.
pub fn paint_lines<S: Samples>(samples: &S, y: u32, count: u32, space: &mut [u8], pixels: &mut [u8])
    requires down { y + count ≤ (S.head_of samples.now).height }
    requires space { line_space (S.head_of samples.now) ≤ length space.old }
    requires pixels { length pixels.old ≡ count * line_size (S.head_of samples.now) }
    ensures { pixels.new ≡ next_lines_of (S.head_of samples.now) (S.shown samples.now) y count }
{
    let line = bytes_of_line(samples.head());
    let mut painted = 0;
    let mut filled = 0;
    'lines: while painted < count {
        let more = lines_at_once(samples.head(), y + painted).min(count - painted);
        let end = bytes_to(painted + more, count, line);
        fill_lines(samples, y + painted, more, space, &mut pixels[filled..end]);
        filled = end;
        painted += more;
    }
}
