//! The rows of MCUs of a scan in their order, each as its blocks or as its samples.

ghost use Rattle.std.specs.Prelude.{◌≡◌, ◌+◌, ◌*◌, ◌<◌, length, IfSome};
ghost use Rattle.jr_head.specs.Geometry.{blocks_of, mcus_across, mcus_down};
ghost use Rattle.jr_picture.specs.DecodedScan.{DecodedScan};
ghost use Rattle.jr_rows.specs.Bands.{ShowsMcus};
ghost use Rattle.jr_rows.specs.Cursors.{AreSpeculationsIn};
ghost use Rattle.jr_rows.specs.Groups.{units_in};
ghost use Rattle.jr_rows.specs.MarkBytes.{HasMarkSpace, StoresRow};
ghost use Rattle.jr_rows.specs.Rows.{AreRead, AreRowsOf, CountsRow, DecodesFirst, HasSampleSpace};

use crate::interval_speculations::IntervalSpeculations;
use crate::intervals::{read_mcus, skip_mcus};
use crate::marked::Marked;
use crate::sample_row::SampleRow;
use crate::shape::{coded_of_row, mcus_at_once, shape_of, units_to};
use jr_base::Coefficients;
use jr_piece::transform_blocks;
use jr_scan::{Cursor, FirstIntervals};

/// The rows of MCUs of a scan starting at one of them. Each call takes the scan and the part of it that is decoded.
#[derive(Clone, Copy)]
pub struct Rows {
    /// The row that comes next.
    row: u32,
    /// Start of its first decoded MCU.
    cursor: Cursor,
}

impl Rows {
    /// Returns all rows.
    pub fn of(part: &FirstIntervals<'_>) -> Rows
        ensures rows { AreRowsOf part.now result }
        ensures row { result.row ≡ 0 }
    {
        // By its contract a scan has an interval.
        let _some = part.scan().intervals();
        Rows {
            row: 0,
            cursor: Cursor::at_start(0),
        }
    }

    /// Returns the rows starting at this one, if a row has this number of whole intervals.
    pub fn from(part: &FirstIntervals<'_>, row: u32, intervals: u32) -> Rows
        requires row { row < mcus_down part.now.scan.head }
        requires whole { intervals * part.now.scan.head.restart ≡ mcus_across part.now.scan.head }
        ensures rows { AreRowsOf part.now result }
        ensures row { result.row ≡ row }
    {
        let scan = part.scan();
        // By their contracts an image has an MCU, and a scan the number of intervals that its header says.
        let _some = (scan.head().mcus(), scan.intervals());
        let number = (row * intervals).min(part.limit());
        Rows {
            row,
            cursor: Cursor::at_start(number),
        }
    }

    /// Returns the rows starting at this one, if all intervals are decoded. It skips what lies before it in its
    /// interval.
    pub fn at(part: &FirstIntervals<'_>, row: u32) -> Rows
        requires all { part.now.limit ≡ length part.now.scan.intervals }
        requires row { row < mcus_down part.now.scan.head }
        ensures rows { AreRowsOf part.now result }
        ensures row { result.row ≡ row }
    {
        let scan = part.scan();
        // By their contracts an image has an MCU, and a scan the number of intervals that its header says.
        let _some = (scan.head().mcus(), scan.intervals());
        let across = shape_of(scan.head()).across;
        let (number, before) = scan.head().interval_with(row * across);
        let mut cursor = Cursor::at_start(number);
        skip_mcus(&mut cursor, scan, None, before);
        Rows { row, cursor }
    }

    /// Returns where the next row starts: the number of its interval, and the bit.
    pub fn next_start(&self, part: &FirstIntervals<'_>) -> (u32, u64)
        requires { AreRowsOf part.now self.now }
    {
        // By its contract a scan has the number of intervals that its header says.
        let _most = part.scan().intervals();
        let mcus = part.scan().head().mcus_in(self.cursor.number);
        self.cursor.next_start(mcus)
    }

    /// Returns the number of the row that comes next.
    pub fn row(&self) -> u32
        ensures { result ≡ self.now.row }
    {
        self.row
    }

    /// Skips the next row.
    pub fn skip(&mut self, part: &FirstIntervals<'_>, speculations: Option<&IntervalSpeculations>)
        requires rows { AreRowsOf part.now self.old }
        requires same { IfSome speculations (λ g. AreSpeculationsIn part.now.scan g.now) }
        requires row { self.old.row < mcus_down part.now.scan.head }
        ensures rows { AreRowsOf part.now self.new }
        ensures row { self.new.row ≡ self.old.row + 1 }
    {
        let scan = part.scan();
        // By their contracts an image has an MCU, and few enough rows that their numbers fit.
        let _counts = (scan.head().mcus(), shape_of(scan.head()));
        let coded = coded_of_row(scan, part.limit(), self.row);
        skip_mcus(&mut self.cursor, scan, speculations, coded);
        self.row += 1;
    }

    /// Reads the blocks of the next row, of which `blocks` keeps those of the decoded MCUs as its first. Returns the marks of the
    /// intervals that end in it.
    pub fn read(
        &mut self,
        part: &FirstIntervals<'_>,
        speculations: Option<&IntervalSpeculations>,
        blocks: &mut [Coefficients],
    ) -> Marked
        requires rows { AreRowsOf part.now self.old }
        requires same { IfSome speculations (λ g. AreSpeculationsIn part.now.scan g.now) }
        requires row { self.old.row < mcus_down part.now.scan.head }
        requires space { length blocks.old ≡ mcus_across part.now.scan.head * blocks_of part.now.scan.head }
        ensures rows { AreRowsOf part.now self.new }
        ensures row { self.new.row ≡ self.old.row + 1 }
        ensures read { AreRead part.now.scan part.now.limit self.old.row blocks.new }
        ensures counts { CountsRow part.now.scan part.now.limit self.old.row result }
    {
        let head = part.scan().head();
        let coded = coded_of_row(part.scan(), part.limit(), self.row);
        let end = units_to(coded, shape_of(head).across, head.order().len());
        let blocks = &mut blocks[..end];
        let marked = read_mcus(&mut self.cursor, part, speculations, coded, blocks, &mut []);
        self.row += 1;
        marked
    }

    /// Decodes the next row: its samples, black in MCUs that are not decoded. Returns the marks of the intervals that
    /// end in it, and also stores these in `marks`. Some MCUs at a time are read and transformed.
    pub fn decode(
        &mut self,
        part: &FirstIntervals<'_>,
        speculations: Option<&IntervalSpeculations>,
        work: &mut SampleRow,
        marks: &mut [u8],
    ) -> Marked
        requires rows { AreRowsOf part.now self.old }
        requires same { IfSome speculations (λ g. AreSpeculationsIn part.now.scan g.now) }
        requires row { self.old.row < mcus_down part.now.scan.head }
        requires space { HasSampleSpace part.now.scan.head work.old }
        requires places { HasMarkSpace part.now.scan marks.old }
        ensures rows { AreRowsOf part.now self.new }
        ensures row { self.new.row ≡ self.old.row + 1 }
        ensures space { HasSampleSpace part.now.scan.head work.new }
        ensures units { (b : DecodedScan) → DecodesFirst part.now.scan part.now.limit b → ShowsMcus b (self.old.row * mcus_across part.now.scan.head) (units_in part.now.scan.head work.new.lines.groups) }
        ensures counts { CountsRow part.now.scan part.now.limit self.old.row result }
        ensures stores { StoresRow part.now.scan part.now.limit self.old.row marks.old marks.new }
    {
        let head = part.scan().head();
        let per_mcu = head.order().len();
        // By their contracts there are few rows, and the counts of all intervals fit.
        let _counts = (shape_of(head), part.scan().intervals());
        let coded = coded_of_row(part.scan(), part.limit(), self.row);
        let at_once = mcus_at_once(head);
        let (blocks, lines) = (work.blocks.as_mut_slice(), &mut work.lines);
        let mut done = 0;
        let mut marked = Marked::none();
        'parts: while done < coded {
            let some = at_once.min(coded - done);
            let near = &mut blocks[..units_to(some, at_once, per_mcu)];
            let more = read_mcus(&mut self.cursor, part, speculations, some, near, marks);
            transform_blocks(head, done, near, lines);
            marked = marked.with(more);
            done += some;
        }
        lines.fill_blank(head, coded);
        self.row += 1;
        marked
    }
}
