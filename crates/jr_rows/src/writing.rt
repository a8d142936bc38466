//! A scan's image, decoded, painted and written in one pass, a row of MCUs after the other.

ghost use Rattle.std.specs.Prelude.{◌≡◌, ◌+◌, ◌*◌, ◌<◌, ◌≤◌, ◌^◌, length, is_err, true, false, IfOk, OnOk};
ghost use Rattle.jr_base.specs.Tally.{has_failed};
ghost use Rattle.jr_head.specs.Geometry.{vertical_max};
ghost use Rattle.jr_scan.specs.ScanValue.{intervals_of};
ghost use Rattle.jr_scan.specs.FirstIntervalsValue.{least};
ghost use Rattle.jr_paint.specs.Lines.{line_size};
ghost use Rattle.jr_paint.specs.declared.header.TheConstants.{HEADER_SPACE};
ghost use Rattle.jr_rows.specs.Rows.{CountsRows, HasSampleSpace};
ghost use Rattle.jr_picture.specs.Writing.{WritesPicture, BeginsPicture};
ghost use Rattle.jr_rows.specs.Stream.{SendsPicture, HasCounts};

use crate::announcing::announce;
use crate::painter::RowPainter;
use crate::{Marked, Rows, SampleRow, lines_of, shape_of, space_for};
use jr_base::{Tally, WriteFault, write_all};
use jr_head::Head;
use jr_paint::{make_space, write_header};
use jr_picture::{Counts, Gate, PictureError};
use jr_scan::{FirstIntervals, Scan};
use std::alloc::Global;
use std::io::Write;
use std::marker::Model;

/// Writes an image, row after row from the painter; the lines of a row fit into `pixels`. Returns the marks of its
/// intervals.
pub fn write_rows<W: Write, P: RowPainter>(
    head: &Head,
    painter: &mut P,
    pixels: &mut Vec<u8>,
    out: &mut Tally<W>,
) -> Result<Marked, WriteFault>
    requires head { head.now ≡ (P.at painter.old).scan.head }
    requires start { (P.at painter.old).row ≡ 0 }
    requires few { (P.at painter.old).limit ≤ intervals_of (P.at painter.old).scan.head }
    requires intervals { intervals_of head.now < 2 ^ 32 }
    requires unfailed { has_failed out.old ≡ false }
    requires pixels { 8 * vertical_max head.now * line_size head.now ≤ length pixels.old.items }
    requires header { HEADER_SPACE ≤ length pixels.old.items }
    ensures counts { IfOk result (CountsRows (P.at painter.old).scan (P.at painter.old).limit) }
    ensures failed { has_failed out.new ≡ is_err result }
    ensures sent { SendsPicture W.contents out.old out.new result (P.at painter.old).scan (P.at painter.old).limit }
{
    head.assert_invariant();
    let shape = shape_of(head);
    let mut filled = write_header(head, pixels);
    let mut marked = Marked::none();
    let mut row = 0;
    'rows: while row < shape.down {
        let (_y, count) = lines_of(head, row);
        let size = count as usize * shape.line;
        filled = make_space(pixels, filled, size, out)?;
        let end = filled + size;
        let more = painter.paint(pixels, filled, end);
        marked = marked.with(more);
        filled = end;
        row += 1;
    }
    write_all(out, &pixels[..filled])?;
    Ok(marked)
}

/// Returns the numbers of sound, damaged and blank intervals.
pub fn counts_of(scan: &Scan, limit: u32, marked: Marked) -> Counts
    requires few { limit ≤ length scan.now.intervals }
    requires counts { CountsRows scan.now limit marked }
    ensures { HasCounts scan.now limit result }
{
    // By its contract an image has an MCU.
    let _some = scan.head().mcus();
    let Marked { sound, damaged } = marked;
    Counts {
        sound,
        damaged,
        blank: scan.intervals() - sound - damaged,
    }
}

/// A painter that decodes and paints row after row in the calling thread.
#[derive(Drop)]
struct Alone<'a, G: Gate> {
    part: FirstIntervals<'a>,
    rows: Rows,
    work: SampleRow,
    gate: &'a G,
}

impl<'a, G: Gate> Model for Alone<'a, G> {
    ghost use Rattle.jr_rows.specs.Rows.{AreRowsOf, HasSampleSpace};
    ghost use Rattle.jr_rows.specs.RowsValue.{RowsValue};

    ghost Value = { RowsValue };

    ghost view = { λ a. record { scan = a.part.scan; limit = a.part.limit; row = a.rows.row } };

    ghost invariant = { λ a. AreRowsOf a.part a.rows × HasSampleSpace a.part.scan.head a.work };
}

impl<'a, G: Gate> Alone<'a, G> {
    /// Returns a painter that has painted nothing yet of the part of a scan that is decoded.
    fn of(part: FirstIntervals<'a>, work: SampleRow, gate: &'a G) -> Alone<'a, G>
        requires space { HasSampleSpace part.scan.head work }
        ensures { result ≡ record { scan = part.entry.scan; limit = part.entry.limit; row = 0 } }
    {
        let rows = Rows::of(&part);
        Alone {
            part,
            rows,
            work,
            gate,
        }
    }
}

impl<G: Gate> RowPainter for Alone<'_, G> {
    ghost at = { λ a. a };

    fn paint(&mut self, pixels: &mut Vec<u8>, from: usize, to: usize) -> Marked {
        let row = self.rows.row();
        announce(self.part.scan(), self.part.limit(), row, self.gate);
        let marked = self.rows.decode(&self.part, None, &mut self.work, &mut []);
        let head = self.part.scan().head();
        self.work.paint_row(head, row, &mut pixels[from..to]);
        marked
    }
}

/// Decodes the first intervals of a scan, or all, and writes its image, a row of MCUs after the other, in the calling
/// thread. It allocates all memory that it needs before it writes the first byte: for two rows of MCUs, and none for
/// the image. Each interval that is decoded is reported to the gate; no piece is made.
pub fn write_scan<W: Write, G: Gate>(
    alloc: Global,
    scan: &Scan,
    first: Option<u32>,
    gate: &G,
    out: &mut Tally<W>,
) -> Result<Counts, PictureError>
    requires { has_failed out.old ≡ false }
    ensures painted { IfOk result (λ c. WritesPicture W.contents out.old out.new scan.now (least first (length scan.now.intervals)) c) }
    ensures begun { result ≡ Err PictureError.Write → BeginsPicture W.contents out.old out.new scan.now (least first (length scan.now.intervals)) }
    ensures memory { result ≡ Err PictureError.Memory → out.new ≡ out.old }
    ensures written { OnOk result (has_failed out.new ≡ false) }
    ensures write { result ≡ Err PictureError.Write → has_failed out.new ≡ true }
{
    let Ok(work) = SampleRow::open(alloc, scan.head()) else {
        return Err(PictureError::Memory);
    };
    let Ok(mut pixels) = vec![in alloc; 0; space_for(scan.head())] else {
        return Err(PictureError::Memory);
    };
    let part = FirstIntervals::of(scan, first);
    let limit = part.limit();
    // By its contract a scan has the number of intervals that its header says.
    let _all = scan.intervals();
    let mut painter = Alone::of(part, work, gate);
    match write_rows(scan.head(), &mut painter, &mut pixels, out) {
        Ok(marked) => Ok(counts_of(scan, limit, marked)),
        Err(_) => Err(PictureError::Write),
    }
}
