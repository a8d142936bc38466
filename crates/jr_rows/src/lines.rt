//! Some lines of a scan's image, decoded and painted without the others.

ghost use Rattle.std.specs.Prelude.{◌≡◌, ℕ, ◌+◌, ◌-◌, ◌*◌, ◌<◌, ◌≤◌, max, min, IfOk, IfErr, length};
ghost use Rattle.jr_head.specs.Geometry.{mcus_down, vertical_max};
ghost use Rattle.jr_paint.specs.Lines.{line_size, next_lines_of};
ghost use Rattle.jr_picture.specs.DecodedScan.{DecodedScan};
ghost use Rattle.jr_picture.specs.Samples.{samples_of};
ghost use Rattle.jr_rows.specs.MarkBytes.{HasMarkSpace, StoresBetween};
ghost use Rattle.jr_rows.specs.Rows.{DecodesFirst, HasSampleSpace};
ghost use Rattle.jr_rows.specs.SomeLines.{CountsBetween, PaintsLines, row_after, row_with};

use crate::{Marked, Rows, SampleRow, shape_of};
use jr_base::Memory;
use jr_head::Head;
use jr_paint::bytes_to;
use jr_scan::{FirstIntervals, Scan};
use std::alloc::Global;

/// Returns the row of MCUs that has line `first`, and the one after that of the last line before `end`.
fn rows_of(head: &Head, first: u32, end: u32) -> (u32, u32)
    requires some { first < end }
    requires inside { end ≤ head.now.height }
    ensures first { result.0 ≡ row_with head.now first }
    ensures after { result.1 ≡ row_after head.now end }
    ensures some { result.0 < result.1 }
    ensures few { result.1 ≤ mcus_down head.now }
    ensures starts { result.0 * (8 * vertical_max head.now) ≤ first }
    ensures reaches { first < (result.0 + 1) * (8 * vertical_max head.now) }
    ensures ends { end ≤ result.1 * (8 * vertical_max head.now) }
    ensures last { (row : ℕ) → row < result.1 → row * (8 * vertical_max head.now) < end }
{
    let deep = shape_of(head).deep;
    (first / deep, end.div_ceil(deep))
}

/// Returns those of lines `first` to `end` that a row of MCUs has: the first one, and their number.
fn lines_in(head: &Head, row: u32, first: u32, end: u32) -> (u32, u32)
    requires row { row < mcus_down head.now }
    requires starts { row * (8 * vertical_max head.now) < end }
    requires reaches { first < (row + 1) * (8 * vertical_max head.now) }
    requires some { first < end }
    requires inside { end ≤ head.now.height }
    ensures first { result.0 ≡ max first (row * (8 * vertical_max head.now)) }
    ensures end { result.0 + result.1 ≡ min end ((row + 1) * (8 * vertical_max head.now)) }
{
    let deep = shape_of(head).deep;
    let y = first.max(row * deep);
    (y, end.min(row * deep + deep) - y)
}

/// Paints lines `first` to `end` of a scan's image, and stores the marks of the intervals that end in their rows of
/// MCUs if these are asked for.
pub(crate) fn paint_between(
    scan: &Scan,
    work: &mut SampleRow,
    first: u32,
    end: u32,
    pixels: &mut [u8],
    marks: &mut [u8],
) -> Marked
    requires some { first < end }
    requires inside { end ≤ scan.now.head.height }
    requires space { HasSampleSpace scan.now.head work.old }
    requires pixels { length pixels.old ≡ (end - first) * line_size scan.now.head }
    requires places { HasMarkSpace scan.now marks.old }
    ensures lines { (b : DecodedScan) → DecodesFirst scan.now (length scan.now.intervals) b → pixels.new ≡ next_lines_of scan.now.head (samples_of b) first (end - first) }
    ensures counts { CountsBetween scan.now (row_with scan.now.head first) (row_after scan.now.head end) result }
    ensures stores { StoresBetween scan.now (row_with scan.now.head first) (row_after scan.now.head end) marks.old marks.new }
{
    let head = scan.head();
    // By its contract a scan has the number of intervals that its header says.
    let _intervals = scan.intervals();
    let line = shape_of(head).line;
    let (row, after) = rows_of(head, first, end);
    let part = FirstIntervals::of(scan, None);
    let mut rows = Rows::at(&part, row);
    let mut marked = Marked::none();
    'rows: while rows.row() < after {
        let row = rows.row();
        let (y, count) = lines_in(head, row, first, end);
        let more = rows.decode(&part, None, work, marks);
        marked = marked.with(more);
        let from = bytes_to(y - first, end - first, line);
        let to = bytes_to(y - first + count, end - first, line);
        work.paint_some(head, y, count, &mut pixels[from..to]);
    }
    marked
}

/// Decodes as much of a scan as `count` lines of its image starting at line `first` need, and paints them, a line after
/// the other, of one byte or three a pixel. Returns the marks of the intervals that end in the rows of MCUs of these
/// lines.
///
/// It allocates for a row of MCUs, and not for the image. Of what lies before these rows only the interval that reaches
/// into them is read.
pub fn paint_scan_lines(
    alloc: Global,
    scan: &Scan,
    first: u32,
    count: u32,
    pixels: &mut [u8],
) -> Result<Marked, Memory>
    requires some { 0 < count }
    requires inside { first + count ≤ scan.now.head.height }
    requires space { length pixels.old ≡ count * line_size scan.now.head }
    ensures painted { IfOk result (PaintsLines scan.now first count pixels.new) }
    ensures memory { IfErr result (λ _. pixels.new ≡ pixels.old) }
{
    let mut work = SampleRow::open(alloc, scan.head())?;
    let marked = paint_between(scan, &mut work, first, first + count, pixels, &mut []);
    Ok(marked)
}
