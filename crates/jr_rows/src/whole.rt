//! All of a scan's image, decoded and painted into a buffer, a row of MCUs after the other.

ghost use Rattle.std.specs.Prelude.{◌≡◌, ◌*◌, ◌<◌, IfOk, IfErr, length};
ghost use Rattle.jr_paint.specs.Lines.{line_size};
ghost use Rattle.jr_rows.specs.Whole.{PaintsWhole};

use crate::SampleRow;
use crate::lines::paint_between;
use crate::writing::counts_of;
use jr_base::Memory;
use jr_picture::Counts;
use jr_scan::Scan;
use std::alloc::Global;

/// Decodes a scan and paints its image, a line after the other, of one byte or three a pixel. Unless `marks` is empty,
/// the marks of the intervals are stored there, a byte each: 1 if it is sound, and 2 if it is damaged. Returns the
/// numbers of both.
///
/// It allocates for a row of MCUs, and not for the image; nothing is painted or stored before it has that.
pub fn paint_scan(
    alloc: Global,
    scan: &Scan,
    pixels: &mut [u8],
    marks: &mut [u8],
) -> Result<Counts, Memory>
    requires space { length pixels.old ≡ scan.now.head.height * line_size scan.now.head }
    requires places { 0 < length marks.old → length marks.old ≡ length scan.now.intervals }
    ensures painted { IfOk result (λ c. PaintsWhole scan.now pixels.new marks.old marks.new c) }
    ensures pixels { IfErr result (λ _. pixels.new ≡ pixels.old) }
    ensures marks { IfErr result (λ _. marks.new ≡ marks.old) }
{
    let mut work = SampleRow::open(alloc, scan.head())?;
    // By its contract an image has an MCU.
    let _some = scan.head().mcus();
    let all = scan.intervals();
    let height = scan.head().height();
    let marked = paint_between(scan, &mut work, 0, height, pixels, marks);
    Ok(counts_of(scan, all, marked))
}
