//! Lines of values, a line for each component, combined to pixels of three bytes.

ghost use Rattle.std.specs.Prelude.{◌≡◌, ◌+◌, ◌*◌, ◌≤◌, length, take};
ghost use Rattle.std.specs.Simd.Lanes.{put_chunk};
ghost use Rattle.jr_segments.specs.declared.kind.Kind.TheVariants.{Rgb, Ycc};
ghost use Rattle.jr_head.specs.Geometry.{component_count};
ghost use Rattle.jr_paint.specs.Lines.{colours_of};

use crate::colours::mixed;
use crate::lanes::{load_by_turns, paint, raised_blue, raised_green, raised_red};
use jr_head::Kind;

/// Converts 32 pixels of luminance and chrominance, starting at pixel i.
#[inline(always)]
fn convert_block(luma: &[u8], cb: &[u8], cr: &[u8], i: usize, out: &mut [u8])
    requires first { i + 32 ≤ length luma.now }
    requires second { i + 32 ≤ length cb.now }
    requires third { i + 32 ≤ length cr.now }
    requires space { 3 * i + 96 ≤ length out.old }
    ensures { out.new ≡ put_chunk (3 * i) out.old (colours_of Ycc luma.now cb.now cr.now i 32) }
{
    let b = load_by_turns(cb, i);
    let r = load_by_turns(cr, i);
    let red = (raised_red(r.0), raised_red(r.1));
    let green = (raised_green(b.0, r.0), raised_green(b.1, r.1));
    let blue = (raised_blue(b.0), raised_blue(b.1));
    paint(luma, i, red, green, blue, out);
}

/// Converts the first pixels, in blocks of 32, of which the last may begin within the one before. Returns the number of
/// pixels.
fn convert_whole_blocks(luma: &[u8], cb: &[u8], cr: &[u8], out: &mut [u8]) -> usize
    requires second { length cb.now ≡ length luma.now }
    requires third { length cr.now ≡ length luma.now }
    requires space { length out.old ≡ 3 * length luma.now }
    ensures few { result ≤ length luma.now }
    ensures front { take (3 * result) out.new ≡ colours_of Ycc luma.now cb.now cr.now 0 result }
{
    let count = luma.len();
    let whole = count / 32;
    for n in 0..whole {
        convert_block(luma, cb, cr, 32 * n, out);
    }
    if whole > 0 && count % 32 > 0 {
        convert_block(luma, cb, cr, count - 32, out);
        return count;
    }
    32 * whole
}

/// The colours of luminance and chrominance.
fn convert(luma: &[u8], cb: &[u8], cr: &[u8], out: &mut [u8])
    requires second { length cb.now ≡ length luma.now }
    requires third { length cr.now ≡ length luma.now }
    requires space { length out.old ≡ 3 * length luma.now }
    ensures { out.new ≡ colours_of Ycc luma.now cb.now cr.now 0 (length luma.now) }
{
    let done = convert_whole_blocks(luma, cb, cr, out);
    for i in done..luma.len() {
        let [red, green, blue] = mixed(luma[i], cb[i], cr[i]);
        out[3 * i] = red;
        out[3 * i + 1] = green;
        out[3 * i + 2] = blue;
    }
}

/// The pixels of lines of red, green and blue.
fn interleave(red: &[u8], green: &[u8], blue: &[u8], out: &mut [u8])
    requires second { length green.now ≡ length red.now }
    requires third { length blue.now ≡ length red.now }
    requires space { length out.old ≡ 3 * length red.now }
    ensures { out.new ≡ colours_of Rgb red.now green.now blue.now 0 (length red.now) }
{
    for i in 0..red.len() {
        out[3 * i] = red[i];
        out[3 * i + 1] = green[i];
        out[3 * i + 2] = blue[i];
    }
}

/// The colours of these values, one after the other.
pub(crate) fn mix(kind: Kind, first: &[u8], second: &[u8], third: &[u8], out: &mut [u8])
    requires kind { component_count kind ≡ 3 }
    requires second { length second.now ≡ length first.now }
    requires third { length third.now ≡ length first.now }
    requires space { length out.old ≡ 3 * length first.now }
    ensures { out.new ≡ colours_of kind first.now second.now third.now 0 (length first.now) }
{
    if kind == Kind::Ycc {
        convert(first, second, third, out);
    } else {
        interleave(first, second, third, out);
    }
}
