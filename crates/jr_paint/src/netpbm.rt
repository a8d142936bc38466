//! An image's Netpbm text: PGM for grey images, PPM for the others.

ghost use Rattle.std.specs.Prelude.{◌≡◌, ◌+◌, ◌*◌, ◌≤◌, ◌++◌, is_err, false, OnOk, OnErr, IfOk, length, take};
ghost use Rattle.jr_base.specs.Tally.{Writes, WritesBeginning, has_failed};
ghost use Rattle.jr_paint.specs.Lines.{line_space, line_size};
ghost use Rattle.jr_paint.specs.Text.{header_of, text_of};
ghost use Rattle.jr_paint.specs.Written.{IsSent, WritesUpTo};
ghost use Rattle.jr_paint.specs.declared.netpbm.TheConstants.{BATCH, TWO_WIDEST, WIDEST_SPACE};

use crate::header::write_header;
use crate::lines::{bytes_of_line, fill_lines, lines_at_once};
use crate::samples::Samples;
use jr_base::{Tally, WriteFault, write_all};
use std::io::Write;

/// Number of pixels that a line of most images does not exceed.
const NARROW: usize = 4096;

/// Size in bytes of the buffer for painting lines of 4096 pixels.
const NARROW_SPACE: usize = 16_384;

/// Maximum number of bytes of a write, unless two lines have more: six lines of 4096 pixels. So a write has enough
/// bytes that its own cost is small compared with theirs, and few enough for a cache.
pub const BATCH: usize = 73_728;

/// Size in bytes of the buffer for painting lines of 65,535 pixels, the maximum.
const WIDEST_SPACE: usize = 262_140;

/// Size in bytes of two lines of 65,535 pixels.
const TWO_WIDEST: usize = 393_210;

/// Writes what `pixels` has up to `filled` if fewer than `more` bytes are left after it. Returns where the bytes end
/// that are not written yet.
pub fn make_space<W: Write>(
    pixels: &[u8],
    filled: usize,
    more: usize,
    out: &mut Tally<W>,
) -> Result<usize, WriteFault>
    requires unfailed { has_failed out.old ≡ false }
    requires filled { filled ≤ length pixels.now }
    requires fits { more ≤ length pixels.now }
    ensures ok { IfOk result (λ held. WritesUpTo W.contents out.old out.new (take filled pixels.now) (take held pixels.now)) }
    ensures space { IfOk result (λ held. held + more ≤ length pixels.now) }
    ensures err { OnErr result (WritesBeginning W.contents out.old out.new (take filled pixels.now)) }
    ensures failed { has_failed out.new ≡ is_err result }
{
    if pixels.len() - filled >= more {
        return Ok(filled);
    }
    write_all(out, &pixels[..filled])?;
    Ok(0)
}

/// Writes the image's text, as much at once as fits into `pixels`, which has the header up to `filled`.
fn write_lines<S: Samples, W: Write>(
    samples: &S,
    space: &mut [u8],
    pixels: &mut [u8],
    filled: usize,
    out: &mut Tally<W>,
) -> Result<(), WriteFault>
    requires unfailed { has_failed out.old ≡ false }
    requires space { line_space (S.head_of samples.now) ≤ length space.old }
    requires pixels { 2 * line_size (S.head_of samples.now) ≤ length pixels.old }
    requires inside { filled ≤ length pixels.old }
    requires header { take filled pixels.old ≡ header_of (S.head_of samples.now) }
    ensures { IsSent W.contents out.old out.new result (text_of (S.head_of samples.now) (S.shown samples.now)) }
{
    let line = bytes_of_line(samples.head());
    let height = samples.head().height();
    let mut filled = filled;
    let mut y = 0;
    'lines: while y < height {
        let count = lines_at_once(samples.head(), y);
        let size = count as usize * line;
        filled = make_space(pixels, filled, size, out)?;
        let end = filled + size;
        fill_lines(samples, y, count, space, &mut pixels[filled..end]);
        filled = end;
        y += count;
    }
    write_all(out, &pixels[..filled])
}

/// Writes the text of an image for whose painting `SPACE` bytes suffice, of which up to `BYTES` go out by one write. A
/// function of its own, so that only a wide image uses the stack for two of its lines.
#[inline(never)]
fn write_text<S: Samples, W: Write, const SPACE: usize, const BYTES: usize>(
    samples: &S,
    out: &mut Tally<W>,
) -> Result<(), WriteFault>
    requires unfailed { has_failed out.old ≡ false }
    requires space { line_space (S.head_of samples.now) ≤ SPACE }
    requires stack { SPACE ≤ WIDEST_SPACE }
    requires bytes { 2 * line_size (S.head_of samples.now) ≤ BYTES }
    requires batch { BATCH ≤ BYTES }
    requires more_stack { BYTES ≤ TWO_WIDEST }
    ensures { IsSent W.contents out.old out.new result (text_of (S.head_of samples.now) (S.shown samples.now)) }
{
    let most = BATCH.max(2 * bytes_of_line(samples.head()));
    let mut space = [0; SPACE];
    let mut bytes = [0; BYTES];
    let pixels = &mut bytes[..most];
    let filled = write_header(samples.head(), pixels);
    write_lines(samples, &mut space, pixels, filled, out)
}

/// Writes the image's text: `Ok` if all of it was written, a fault if the writer failed after a beginning of it. It
/// allocates nothing, and continues after a short write.
pub fn write_netpbm<S: Samples, W: Write>(samples: &S, out: &mut Tally<W>) -> Result<(), WriteFault>
    requires { has_failed out.old ≡ false }
    ensures ok { OnOk result (Writes W.contents out.old out.new (text_of (S.head_of samples.now) (S.shown samples.now))) }
    ensures err { OnErr result (WritesBeginning W.contents out.old out.new (text_of (S.head_of samples.now) (S.shown samples.now))) }
    ensures failed { has_failed out.new ≡ is_err result }
{
    if samples.head().width() as usize <= NARROW {
        write_text::<S, W, NARROW_SPACE, BATCH>(samples, out)
    } else {
        write_text::<S, W, WIDEST_SPACE, TWO_WIDEST>(samples, out)
    }
}
