//! Memory for a row of MCUs of a scan: empty, read, or painted.

ghost use Rattle.std.specs.Prelude.{◌≡◌, ◌+◌, ◌-◌, ◌*◌, ◌<◌, ◌≤◌, Some, length, take, drop, IfErr, IfOk, IfSome};
ghost use Rattle.jr_head.specs.Geometry.{mcus_down, vertical_max};
ghost use Rattle.jr_paint.specs.Lines.{line_size};
ghost use Rattle.jr_rows.specs.Cursors.{AreSpeculationsIn};
ghost use Rattle.jr_rows.specs.Rows.{AreRowsOf, CountsRow, HasSampleSpace, ShowsLines, line_count};

use crate::paint_space::PaintSpace;
use crate::row::{open_blocks, paint_decoded, paint_read};
use jr_base::{Coefficients, Memory};
use jr_rows::{IntervalSpeculations, Marked, Rows, SampleRow, bytes_of_row};
use jr_scan::FirstIntervals;
use jr_work::OneScan;
use std::alloc::Global;
use std::marker::{Model, PhantomData};
use std::mem;

/// Decodes the next row and paints it at the beginning of `pixels`. Returns the marks of the intervals that end in it.
fn decode_first(
    work: &mut SampleRow,
    part: &FirstIntervals<'_>,
    rows: &mut Rows,
    speculations: Option<&IntervalSpeculations>,
    pixels: &mut [u8],
) -> Marked
    requires rows { AreRowsOf part.now rows.old }
    requires same { IfSome speculations (λ g. AreSpeculationsIn part.now.scan g.now) }
    requires row { rows.old.row < mcus_down part.now.scan.head }
    requires space { HasSampleSpace part.now.scan.head work.old }
    requires pixels { 8 * vertical_max part.now.scan.head * line_size part.now.scan.head ≤ length pixels.old }
    ensures rows { AreRowsOf part.now rows.new }
    ensures row { rows.new.row ≡ rows.old.row + 1 }
    ensures space { HasSampleSpace part.now.scan.head work.new }
    ensures lines { ShowsLines part.now.scan part.now.limit rows.old.row (take (line_count part.now.scan.head rows.old.row * line_size part.now.scan.head) pixels.new) }
    ensures counts { CountsRow part.now.scan part.now.limit rows.old.row result }
{
    let row = rows.row();
    let marked = rows.decode(part, speculations, work, &mut []);
    paint_decoded(work, part, row, pixels);
    marked
}

/// Memory for the lines of a row of MCUs of the scan, and for its blocks, if a row has been read by it.
#[derive(Drop)]
pub struct RowBuffer<S: OneScan> {
    blocks: Option<Vec<Coefficients>>,
    pixels: Vec<u8>,
    of: PhantomData<S>,
}

impl<S: OneScan> Model for RowBuffer<S> {
    ghost use Rattle.std.specs.Prelude.{ℕ, List, IfSome};
    ghost use Rattle.jr_crew.specs.RowBuffer.{HasBlockSpace, HasPixelSpace};

    ghost Value = { List ℕ };

    ghost view = { λ b. b.pixels.items };

    ghost invariant = { λ b. IfSome b.blocks (λ v. HasBlockSpace S.part v.items) × HasPixelSpace S.part b.pixels.items };
}

impl<S: OneScan> RowBuffer<S> {
    /// Returns an empty row buffer.
    pub fn open(alloc: Global, part: &FirstIntervals<'_>) -> Result<RowBuffer<S>, Memory>
        requires { S.part ≡ Some part.now }
    {
        let Ok(pixels) = vec![in alloc; 0; bytes_of_row(part.scan().head())] else {
            return Err(Memory);
        };
        Ok(RowBuffer {
            blocks: None,
            pixels,
            of: PhantomData,
        })
    }

    /// Returns whether it has memory for a row's blocks.
    pub fn has_blocks(&self) -> bool {
        self.blocks.is_some()
    }

    /// Decodes the next row of the scan, some MCUs at a time, and paints it.
    pub fn decode(
        self,
        part: &FirstIntervals<'_>,
        rows: &mut Rows,
        speculations: Option<&IntervalSpeculations>,
        space: &mut PaintSpace<S>,
    ) -> Painted<S>
        requires part { S.part ≡ Some part.now }
        requires rows { AreRowsOf part.now rows.old }
        requires same { IfSome speculations (λ g. AreSpeculationsIn part.now.scan g.now) }
        requires row { rows.old.row < mcus_down part.now.scan.head }
        ensures row { result.row ≡ rows.old.row }
        ensures rows { AreRowsOf part.now rows.new }
    {
        let row = rows.row();
        let mut pixels = self.pixels;
        let marked = decode_first(&mut space.work, part, rows, speculations, &mut pixels);
        Painted {
            row,
            marked,
            blocks: self.blocks,
            pixels,
            of: PhantomData,
        }
    }

    /// Reads the next row of the scan; if memory for its blocks cannot be allocated, decodes and
    /// paints it.
    pub fn read(
        self,
        alloc: Global,
        part: &FirstIntervals<'_>,
        rows: &mut Rows,
        speculations: Option<&IntervalSpeculations>,
        space: &mut PaintSpace<S>,
    ) -> Result<CodedRow<S>, Painted<S>>
        requires part { S.part ≡ Some part.now }
        requires rows { AreRowsOf part.now rows.old }
        requires same { IfSome speculations (λ g. AreSpeculationsIn part.now.scan g.now) }
        requires row { rows.old.row < mcus_down part.now.scan.head }
        ensures row { IfOk result (λ c. c.row ≡ rows.old.row) }
        ensures painted { IfErr result (λ p. p.row ≡ rows.old.row) }
        ensures rows { AreRowsOf part.now rows.new }
    {
        let pixels = self.pixels;
        let of = PhantomData;
        let Ok(mut blocks) = open_blocks(alloc, part.scan().head(), self.blocks) else {
            let buffer = RowBuffer {
                blocks: None,
                pixels,
                of,
            };
            return Err(buffer.decode(part, rows, speculations, space));
        };
        let row = rows.row();
        let marked = rows.read(part, speculations, &mut blocks);
        Ok(CodedRow {
            row,
            marked,
            blocks,
            pixels,
            of,
        })
    }
}

/// A row of MCUs of the scan, read and not yet painted, and the marks of the intervals that end in it.
#[derive(Drop)]
pub struct CodedRow<S: OneScan> {
    row: u32,
    marked: Marked,
    blocks: Vec<Coefficients>,
    /// The space for its lines.
    pixels: Vec<u8>,
    of: PhantomData<S>,
}

impl<S: OneScan> Model for CodedRow<S> {
    ghost use Rattle.jr_crew.specs.RowValues.{CodedRowValue};
    ghost use Rattle.jr_crew.specs.RowBuffer.{HasBlockSpace, HasPixelSpace, IsRead};

    ghost Value = { CodedRowValue };

    ghost view = { λ c. record { row = c.row; marked = c.marked; blocks = c.blocks.items } };

    ghost invariant = { λ c. HasBlockSpace S.part c.blocks.items × HasPixelSpace S.part c.pixels.items × IsRead S.part (record { row = c.row; marked = c.marked; blocks = c.blocks.items }) };
}

impl<S: OneScan> CodedRow<S> {
    /// Transforms and paints the row.
    pub fn paint(self, part: &FirstIntervals<'_>, space: &mut PaintSpace<S>) -> Painted<S>
        requires { S.part ≡ Some part.now }
        ensures { result.row ≡ self.row }
    {
        let (blocks, mut pixels) = (self.blocks, self.pixels);
        paint_read(&mut space.work, part, self.row, &blocks, &mut pixels);
        Painted {
            row: self.row,
            marked: self.marked,
            blocks: Some(blocks),
            pixels,
            of: PhantomData,
        }
    }
}

/// The lines of a row of MCUs of the scan, and the marks of the intervals that end in it.
#[derive(Drop)]
pub struct Painted<S: OneScan> {
    row: u32,
    marked: Marked,
    blocks: Option<Vec<Coefficients>>,
    /// The lines, and the space that they leave.
    pixels: Vec<u8>,
    of: PhantomData<S>,
}

impl<S: OneScan> Model for Painted<S> {
    ghost use Rattle.std.specs.Prelude.{IfSome};
    ghost use Rattle.jr_crew.specs.RowValues.{PaintedValue};
    ghost use Rattle.jr_crew.specs.RowBuffer.{HasBlockSpace, HasPixelSpace, IsPainted};

    ghost Value = { PaintedValue };

    ghost view = { λ p. record { row = p.row; marked = p.marked; pixels = p.pixels.items } };

    ghost invariant = { λ p. IfSome p.blocks (λ v. HasBlockSpace S.part v.items) × HasPixelSpace S.part p.pixels.items × IsPainted S.part (record { row = p.row; marked = p.marked; pixels = p.pixels.items }) };
}

impl<S: OneScan> Painted<S> {
    /// Returns the row's number.
    pub fn row(&self) -> u32
        ensures { result ≡ self.now.row }
    {
        self.row
    }

    /// Copies the lines, which fit into the slice.
    fn copy_to(&self, part: &FirstIntervals<'_>, pixels: &mut [u8])
        requires part { S.part ≡ Some part.now }
        requires space { length pixels.old ≡ line_count part.now.scan.head self.now.row * line_size part.now.scan.head }
        ensures lines { ShowsLines part.now.scan part.now.limit self.now.row pixels.new }
    {
        pixels.copy_from_slice(&self.pixels[..pixels.len()]);
    }

    /// Returns the row buffer, to be used again.
    fn into_buffer(self) -> RowBuffer<S> {
        RowBuffer {
            blocks: self.blocks,
            pixels: self.pixels,
            of: PhantomData,
        }
    }

    /// Writes the lines between two byte offsets, which have exactly that space. If these are all bytes from the start,
    /// it exchanges the buffers instead of copying. Returns the marks of the intervals that end in the row, and the
    /// row buffer, to be used again.
    pub fn store_into(
        self,
        part: &FirstIntervals<'_>,
        pixels: &mut Vec<u8>,
        from: usize,
        to: usize,
    ) -> (Marked, RowBuffer<S>)
        requires part { S.part ≡ Some part.now }
        requires space { to ≡ from + line_count part.now.scan.head self.row * line_size part.now.scan.head }
        requires within { to ≤ length pixels.old.items }
        ensures long { length pixels.new.items ≡ length pixels.old.items }
        ensures kept { take from pixels.new.items ≡ take from pixels.old.items }
        ensures lines { ShowsLines part.now.scan part.now.limit self.row (take (to - from) (drop from pixels.new.items)) }
        ensures counts { CountsRow part.now.scan part.now.limit self.row result.0 }
    {
        let marked = self.marked;
        if from > 0 || self.pixels.len() != pixels.len() {
            self.copy_to(part, &mut pixels[from..to]);
            return (marked, self.into_buffer());
        }
        let mut lines = self.pixels;
        mem::swap(&mut lines, pixels);
        let buffer = RowBuffer {
            blocks: self.blocks,
            pixels: lines,
            of: PhantomData,
        };
        (marked, buffer)
    }
}
