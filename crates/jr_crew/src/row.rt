//! A row of MCUs: the memory for its blocks, and its lines, painted with a thread's own memory.

ghost use Rattle.std.specs.Prelude.{◌≡◌, ◌*◌, ◌<◌, ◌≤◌, length, take, IfOk, IfSome};
ghost use Rattle.jr_head.specs.Geometry.{blocks_of, mcus_across, mcus_down, vertical_max};
ghost use Rattle.jr_paint.specs.Lines.{line_size};
ghost use Rattle.jr_picture.specs.DecodedScan.{DecodedScan};
ghost use Rattle.jr_rows.specs.Bands.{ShowsMcus};
ghost use Rattle.jr_rows.specs.Groups.{units_in};
ghost use Rattle.jr_rows.specs.Rows.{AreRead, DecodesFirst, HasSampleSpace, ShowsLines, line_count};

use jr_base::{Coefficients, Memory};
use jr_head::Head;
use jr_rows::{SampleRow, lines_of, shape_of};
use jr_scan::FirstIntervals;
use std::alloc::Global;

/// Returns the memory that is kept for the blocks of a row of an image with this header; allocates it if none is.
pub(crate) fn open_blocks(
    alloc: Global,
    head: &Head,
    kept: Option<Vec<Coefficients>>,
) -> Result<Vec<Coefficients>, Memory>
    requires { IfSome kept (λ b. length b.items ≡ mcus_across head.now * blocks_of head.now) }
    ensures { IfOk result (λ b. length b.items ≡ mcus_across head.now * blocks_of head.now) }
{
    if let Some(blocks) = kept {
        return Ok(blocks);
    }
    let count = shape_of(head).across as usize * head.order().len();
    Ok(vec![in alloc; Coefficients::zeros(); count]?)
}

/// Paints the row whose samples `work` has, at the beginning of `pixels`.
pub(crate) fn paint_decoded(
    work: &mut SampleRow,
    part: &FirstIntervals<'_>,
    row: u32,
    pixels: &mut [u8],
)
    requires row { row < mcus_down part.now.scan.head }
    requires space { HasSampleSpace part.now.scan.head work.old }
    requires units { (b : DecodedScan) → DecodesFirst part.now.scan part.now.limit b → ShowsMcus b (row * mcus_across part.now.scan.head) (units_in part.now.scan.head work.old.lines.groups) }
    requires pixels { 8 * vertical_max part.now.scan.head * line_size part.now.scan.head ≤ length pixels.old }
    ensures space { HasSampleSpace part.now.scan.head work.new }
    ensures lines { ShowsLines part.now.scan part.now.limit row (take (line_count part.now.scan.head row * line_size part.now.scan.head) pixels.new) }
{
    let head = part.scan().head();
    let (_y, count) = lines_of(head, row);
    let size = count as usize * shape_of(head).line;
    work.paint_row(head, row, &mut pixels[..size]);
}

/// Transforms and paints the row whose blocks are read, at the beginning of `pixels`.
pub(crate) fn paint_read(
    work: &mut SampleRow,
    part: &FirstIntervals<'_>,
    row: u32,
    blocks: &[Coefficients],
    pixels: &mut [u8],
)
    requires row { row < mcus_down part.now.scan.head }
    requires space { HasSampleSpace part.now.scan.head work.old }
    requires long { length blocks.now ≡ mcus_across part.now.scan.head * blocks_of part.now.scan.head }
    requires read { AreRead part.now.scan part.now.limit row blocks.now }
    requires pixels { 8 * vertical_max part.now.scan.head * line_size part.now.scan.head ≤ length pixels.old }
    ensures space { HasSampleSpace part.now.scan.head work.new }
    ensures lines { ShowsLines part.now.scan part.now.limit row (take (line_count part.now.scan.head row * line_size part.now.scan.head) pixels.new) }
{
    work.transform(part.scan(), part.limit(), row, blocks);
    paint_decoded(work, part, row, pixels);
}
