//! Rows of MCUs starting at a position, decoded and painted, or skipped.

ghost use Rattle.std.specs.Prelude.{ℕ, List, ◌≡◌, ◌+◌, ◌-◌, ◌*◌, ◌/◌, ◌<◌, ◌≤◌, min, length, take, drop, true, IfOk, IfErr};
ghost use Rattle.jr_head.specs.Geometry.{mcus_across, mcus_down};
ghost use Rattle.jr_paint.specs.Lines.{line_size};
ghost use Rattle.jr_arrival.specs.Shown.{AreLines, LeavesRowAt};
ghost use Rattle.jr_rows.specs.Rows.{line_count};
ghost use Rattle.jr_scan.specs.ScanValue.{ScanValue};
ghost use Rattle.jr_arrival.specs.Meaning.{IsPlaceIn, MayBe};
ghost use Rattle.jr_arrival.specs.Parts.{part_of};
ghost use Rattle.jr_arrival.specs.Places.{IsPlaceOf, lines_above, lines_between, rows_to_give, rows_with_space};

use crate::file_bytes::FileBytes;
use crate::file_source::FileSource;
use crate::mcu_sink::SkippedMcus;
use crate::place::RowPlace;
use crate::row_walk::walk_row;
use jr_base::Memory;
use jr_head::Head;
use jr_rows::{SampleRow, shape_of};
use std::alloc::Global;

/// Returns the number of lines of the image before a row of MCUs.
pub fn lines_before(head: &Head, row: u32) -> u32
    ensures value { result ≡ lines_above head.now row }
    ensures few { result ≤ head.now.height }
{
    head.assert_invariant();
    let shape = shape_of(head);
    (row.min(shape.down) * shape.deep).min(head.height())
}

/// Returns the number of lines of the image in the rows of MCUs from `from` to before `to`.
pub fn lines_between(head: &Head, from: u32, to: u32) -> u32
    requires { from ≤ to }
    ensures value { result ≡ lines_between head.now from to }
    ensures few { result ≤ head.now.height }
{
    lines_before(head, to) - lines_before(head, from)
}

/// Returns the number of rows of MCUs starting at `row` that fit with their lines into `bytes` bytes.
pub fn rows_with_space(head: &Head, row: u32, bytes: usize) -> u32
    requires { row ≤ mcus_down head.now }
    ensures value { result ≡ rows_with_space head.now row bytes }
    ensures few { row + result ≤ mcus_down head.now }
    ensures fits { lines_between head.now row (row + result) * line_size head.now ≤ bytes }
{
    head.assert_invariant();
    let shape = shape_of(head);
    let lines = bytes / shape.line;
    let left = head.height() - lines_before(head, row);
    if lines >= left as usize {
        return shape.down - row;
    }
    lines as u32 / shape.deep
}

/// Returns the row of MCUs after `rows` further ones starting at `row`, or after as many as are left and as fit with
/// their lines into `bytes` bytes.
fn end_of_rows(head: &Head, row: u32, rows: u32, bytes: usize) -> u32
    requires { row ≤ mcus_down head.now }
    ensures value { result ≡ row + rows_to_give head.now row rows bytes }
    ensures few { result ≤ mcus_down head.now }
    ensures small { result < 65536 }
    ensures fits { (to : ℕ) → to ≤ result → lines_between head.now row to * line_size head.now ≤ bytes }
{
    head.assert_invariant();
    let _few = shape_of(head);
    row + rows.min(rows_with_space(head, row, bytes))
}

/// Returns where the lines of a row of MCUs are in `space` bytes, into which they fit, if those of row `first` are the
/// first.
fn span_of_row(head: &Head, first: u32, row: u32, space: usize) -> (usize, usize)
    requires order { first ≤ row }
    requires row { row < mcus_down head.now }
    requires space { lines_between head.now first (row + 1) * line_size head.now ≤ space }
    ensures from { result.0 ≡ lines_between head.now first row * line_size head.now }
    ensures to { result.1 ≡ lines_between head.now first (row + 1) * line_size head.now }
    ensures count { result.1 ≡ result.0 + line_count head.now row * line_size head.now }
    ensures within { result.1 ≤ space }
{
    head.assert_invariant();
    let line = shape_of(head).line;
    let from = lines_between(head, first, row) as usize * line;
    let to = lines_between(head, first, row + 1) as usize * line;
    (from, to)
}

/// Decodes the next rows of MCUs starting at a position, at most `rows`, as many as fit with their lines and are final,
/// into the start of `pixels`, and returns the position after them. If the position is one of a file that the bytes may
/// be (all of them, or the first ones), the lines are those of its image, and so is the position after. It allocates a
/// window and one row of MCUs before it writes the first pixel.
pub fn decode_rows(
    alloc: Global,
    head: &Head,
    file: FileBytes<'_>,
    place: &RowPlace,
    rows: u32,
    pixels: &mut [u8],
) -> Result<RowPlace, Memory>
    requires lies { IsPlaceOf head.now place.now }
    ensures lies { IfOk result (IsPlaceOf head.now) }
    ensures on { IfOk result (λ p. place.now.row ≤ p.row) }
    ensures few { IfOk result (λ p. p.row ≤ place.now.row + rows_to_give head.now place.now.row rows (length pixels.old)) }
    ensures all { file.entry.are_all ≡ true → IfOk result (λ p. p.row ≡ place.now.row + rows_to_give head.now place.now.row rows (length pixels.old)) }
    ensures most { IfOk result (λ p. p.row < place.now.row + rows_to_give head.now place.now.row rows (length pixels.old) → LeavesRowAt (part_of file.entry) head.now place.now p.row) }
    ensures none { IfOk result (λ p. p.row ≡ place.now.row → p ≡ place.now) }
    ensures place { (whole : List ℕ) (t : ScanValue) → MayBe (part_of file.entry) head.now whole t → IsPlaceIn (part_of file.entry) whole t place.now → IfOk result (IsPlaceIn (part_of file.entry) whole t) }
    ensures lines { IfOk result (λ p. AreLines (part_of file.entry) head.now place.now (lines_above head.now place.now.row) (lines_between head.now place.now.row p.row)
        (take (lines_between head.now place.now.row p.row * line_size head.now) pixels.new)) }
    ensures kept { IfOk result (λ p. drop (lines_between head.now place.now.row p.row * line_size head.now) pixels.new ≡ drop (lines_between head.now place.now.row p.row * line_size head.now) pixels.old) }
    ensures long { length pixels.new ≡ length pixels.old }
    ensures memory { IfErr result (λ _. pixels.new ≡ pixels.old) }
{
    head.assert_invariant();
    let mut samples = SampleRow::open(alloc, head)?;
    let mut source = FileSource::open(alloc, head, file, place)?;
    let end = end_of_rows(head, place.row, rows, pixels.len());
    let across = shape_of(head).across;
    let mut next = *place;
    'rows: while next.row < end {
        if walk_row(&mut source, head, &mut samples, next.row, 0) < across {
            return Ok(next);
        }
        let (from, to) = span_of_row(head, place.row, next.row, pixels.len());
        samples.paint_row(head, next.row, &mut pixels[from..to]);
        next = source.row_place(next.row + 1);
    }
    Ok(next)
}

/// Skips the next rows of MCUs starting at a position, at most `rows` and as many as are final, by reading their bits
/// alone, and returns the position after them: valid in every file for which the given position is. It allocates a
/// window.
pub fn skip_rows(
    alloc: Global,
    head: &Head,
    file: FileBytes<'_>,
    place: &RowPlace,
    rows: u32,
) -> Result<RowPlace, Memory>
    requires lies { IsPlaceOf head.now place.now }
    ensures lies { IfOk result (IsPlaceOf head.now) }
    ensures on { IfOk result (λ p. place.now.row ≤ p.row) }
    ensures few { IfOk result (λ p. p.row ≤ place.now.row + min rows (mcus_down head.now - place.now.row)) }
    ensures all { file.entry.are_all ≡ true → IfOk result (λ p. p.row ≡ place.now.row + min rows (mcus_down head.now - place.now.row)) }
    ensures most { IfOk result (λ p. p.row < place.now.row + min rows (mcus_down head.now - place.now.row) → LeavesRowAt (part_of file.entry) head.now place.now p.row) }
    ensures none { IfOk result (λ p. p.row ≡ place.now.row → p ≡ place.now) }
    ensures place { (whole : List ℕ) (t : ScanValue) → MayBe (part_of file.entry) head.now whole t → IsPlaceIn (part_of file.entry) whole t place.now → IfOk result (IsPlaceIn (part_of file.entry) whole t) }
{
    let mut source = FileSource::open(alloc, head, file, place)?;
    let shape = shape_of(head);
    let most = rows.min(shape.down - place.row);
    let mut skipped = SkippedMcus {
        across: shape.across,
    };
    let mut next = *place;
    'rows: while next.row < place.row + most {
        if walk_row(&mut source, head, &mut skipped, next.row, 0) < shape.across {
            return Ok(next);
        }
        next = source.row_place(next.row + 1);
    }
    Ok(next)
}
