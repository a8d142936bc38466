//! Lines of pixels combined from their luminance and chrominance, a sample for two pixels of a line: one line, or
//! two that share their chrominance.

ghost use Rattle.std.specs.Prelude.{◌≡◌, ℕ, ◌+◌, ◌*◌, ◌/◌, ◌<◌, ◌≤◌, IfSome, length, slice_index, take};
ghost use Rattle.std.specs.Simd.Lanes.{put_chunk};
ghost use Rattle.jr_paint.specs.Lines.{halved_colours_of};
ghost use Rattle.jr_paint.specs.Shades.{red_over_of, green_over_of, blue_over_of, IsRaised};

use crate::colours::mixed;
use crate::lanes::{load, paint, raised_blue, raised_green, raised_red};
use std::simd::prelude::*;

/// Returns what red, green and blue have over luminance by sixteen samples of chrominance starting at sample i, raised.
#[inline(always)]
fn raised(cb: &[u8], cr: &[u8], i: usize) -> (u16x16, u16x16, u16x16)
    requires first { i + 16 ≤ length cb.now }
    requires second { i + 16 ≤ length cr.now }
    ensures red { (k : ℕ) → k < 16 → IsRaised (slice_index result.0 k) (red_over_of (slice_index cr.now (i + k))) }
    ensures green { (k : ℕ) → k < 16 → IsRaised (slice_index result.1 k) (green_over_of (slice_index cb.now (i + k)) (slice_index cr.now (i + k))) }
    ensures blue { (k : ℕ) → k < 16 → IsRaised (slice_index result.2 k) (blue_over_of (slice_index cb.now (i + k))) }
{
    let blue_chroma = load(cb, i);
    let red_chroma = load(cr, i);
    (
        raised_red(red_chroma),
        raised_green(blue_chroma, red_chroma),
        raised_blue(blue_chroma),
    )
}

/// Converts 32 pixels, starting at pixel 2 i.
#[inline(always)]
fn convert_block_of_one(luma: &[u8], cb: &[u8], cr: &[u8], i: usize, out: &mut [u8])
    requires line { 2 * i + 32 ≤ length luma.now }
    requires second { i + 16 ≤ length cb.now }
    requires third { i + 16 ≤ length cr.now }
    requires space { 6 * i + 96 ≤ length out.old }
    ensures { out.new ≡ put_chunk (6 * i) out.old (halved_colours_of luma.now cb.now cr.now (2 * i) 32) }
{
    let (red, green, blue) = raised(cb, cr, i);
    paint(luma, 2 * i, (red, red), (green, green), (blue, blue), out);
}

/// Converts 32 pixels of two lines, starting at pixel 2 i, of one luminance each and the chrominance that they share.
#[inline(always)]
fn convert_block(
    luma: &[u8],
    next_luma: &[u8],
    cb: &[u8],
    cr: &[u8],
    i: usize,
    first: &mut [u8],
    second: &mut [u8],
)
    requires line { 2 * i + 32 ≤ length luma.now }
    requires next { 2 * i + 32 ≤ length next_luma.now }
    requires second { i + 16 ≤ length cb.now }
    requires third { i + 16 ≤ length cr.now }
    requires space { 6 * i + 96 ≤ length first.old }
    requires more_space { 6 * i + 96 ≤ length second.old }
    ensures line { first.new ≡ put_chunk (6 * i) first.old (halved_colours_of luma.now cb.now cr.now (2 * i) 32) }
    ensures next { second.new ≡ put_chunk (6 * i) second.old (halved_colours_of next_luma.now cb.now cr.now (2 * i) 32) }
{
    let (red, green, blue) = raised(cb, cr, i);
    let (red, green, blue) = ((red, red), (green, green), (blue, blue));
    paint(luma, 2 * i, red, green, blue, first);
    paint(next_luma, 2 * i, red, green, blue, second);
}

/// Returns, if the last of `count` pixels, which whole blocks of 32 leave, are the end of a block, half of that block's
/// first pixel.
fn last_block(count: usize) -> Option<usize>
    ensures inside { IfSome result (λ i. 2 * i + 32 ≤ count) }
    ensures late { IfSome result (λ i. 2 * i ≤ 32 * (count / 32)) }
    ensures whole { IfSome result (λ i. count ≤ 2 * i + 33) }
{
    if count >= 32 && count % 32 > 1 {
        return Some((count - 32) / 2);
    }
    None
}

/// Converts the first pixels, in blocks of 32, of which the last may begin within the one before. Returns the number of
/// pixels.
fn convert_whole_blocks_of_one(luma: &[u8], cb: &[u8], cr: &[u8], out: &mut [u8]) -> usize
    requires enough { length luma.now ≤ 2 * length cb.now }
    requires third { length cr.now ≡ length cb.now }
    requires space { length out.old ≡ 3 * length luma.now }
    ensures few { result ≤ length luma.now }
    ensures front { take (3 * result) out.new ≡ halved_colours_of luma.now cb.now cr.now 0 result }
{
    let whole = luma.len() / 32;
    for n in 0..whole {
        convert_block_of_one(luma, cb, cr, 16 * n, out);
    }
    if let Some(start) = last_block(luma.len()) {
        convert_block_of_one(luma, cb, cr, start, out);
        return 2 * start + 32;
    }
    32 * whole
}

/// Converts the first pixels of two lines, in blocks of 32, of which the last may begin within the one before. Returns
/// the number of pixels of a line.
fn convert_whole_blocks(
    luma: &[u8],
    next_luma: &[u8],
    cb: &[u8],
    cr: &[u8],
    first: &mut [u8],
    second: &mut [u8],
) -> usize
    requires next { length next_luma.now ≡ length luma.now }
    requires enough { length luma.now ≤ 2 * length cb.now }
    requires third { length cr.now ≡ length cb.now }
    requires space { length first.old ≡ 3 * length luma.now }
    requires more_space { length second.old ≡ 3 * length luma.now }
    ensures few { result ≤ length luma.now }
    ensures line { take (3 * result) first.new ≡ halved_colours_of luma.now cb.now cr.now 0 result }
    ensures next { take (3 * result) second.new ≡ halved_colours_of next_luma.now cb.now cr.now 0 result }
{
    let whole = luma.len() / 32;
    for n in 0..whole {
        convert_block(luma, next_luma, cb, cr, 16 * n, first, second);
    }
    if let Some(start) = last_block(luma.len()) {
        convert_block(luma, next_luma, cb, cr, start, first, second);
        return 2 * start + 32;
    }
    32 * whole
}

/// Converts the pixels after those that are done.
fn convert_rest(luma: &[u8], cb: &[u8], cr: &[u8], done: usize, out: &mut [u8])
    requires few { done ≤ length luma.now }
    requires enough { length luma.now ≤ 2 * length cb.now }
    requires third { length cr.now ≡ length cb.now }
    requires space { length out.old ≡ 3 * length luma.now }
    requires front { take (3 * done) out.old ≡ halved_colours_of luma.now cb.now cr.now 0 done }
    ensures { out.new ≡ halved_colours_of luma.now cb.now cr.now 0 (length luma.now) }
{
    for i in done..luma.len() {
        let [red, green, blue] = mixed(luma[i], cb[i / 2], cr[i / 2]);
        out[3 * i] = red;
        out[3 * i + 1] = green;
        out[3 * i + 2] = blue;
    }
}

/// The colours of a line.
pub(crate) fn convert_one(luma: &[u8], cb: &[u8], cr: &[u8], out: &mut [u8])
    requires enough { length luma.now ≤ 2 * length cb.now }
    requires third { length cr.now ≡ length cb.now }
    requires space { length out.old ≡ 3 * length luma.now }
    ensures { out.new ≡ halved_colours_of luma.now cb.now cr.now 0 (length luma.now) }
{
    let done = convert_whole_blocks_of_one(luma, cb, cr, out);
    convert_rest(luma, cb, cr, done, out);
}

/// The colours of two lines, of one luminance each and the chrominance that they share.
pub(crate) fn convert_two(
    luma: &[u8],
    next_luma: &[u8],
    cb: &[u8],
    cr: &[u8],
    first: &mut [u8],
    second: &mut [u8],
)
    requires next { length next_luma.now ≡ length luma.now }
    requires enough { length luma.now ≤ 2 * length cb.now }
    requires third { length cr.now ≡ length cb.now }
    requires space { length first.old ≡ 3 * length luma.now }
    requires more_space { length second.old ≡ 3 * length luma.now }
    ensures line { first.new ≡ halved_colours_of luma.now cb.now cr.now 0 (length luma.now) }
    ensures next { second.new ≡ halved_colours_of next_luma.now cb.now cr.now 0 (length luma.now) }
{
    let done = convert_whole_blocks(luma, next_luma, cb, cr, first, second);
    convert_rest(luma, cb, cr, done, first);
    convert_rest(next_luma, cb, cr, done, second);
}
