//! The row of MCUs that comes next of a scan whose file is still arriving.

ghost use Rattle.std.specs.Prelude.{◌≡◌, ◌+◌, ◌-◌, ◌*◌, ◌/◌, ◌<◌, ◌≤◌, min, true, false, length, take, IfOk};
ghost use Rattle.jr_head.specs.Geometry.{mcus_across};
ghost use Rattle.jr_paint.specs.Lines.{line_size};
ghost use Rattle.jr_rows.specs.Rows.{CountsMarks, first_line, line_count};
ghost use Rattle.jr_arrival.specs.PartialRows.{AreFinalLines, Begins, HasNoMore, IsPartialRow};

use crate::partial_source::{PartialSource, is_sound, partial_marks};
use crate::row_walk::walk_row;
use jr_base::Memory;
use jr_head::Head;
use jr_paint::bytes_to;
use jr_rows::{Marked, SampleRow, lines_of, shape_of};
use jr_scan::{Cursor, PartialScan};
use std::alloc::Global;
use std::marker::Model;

/// Returns the number of lines of an image starting at `first` that fit into `bytes` bytes.
fn lines_with_space(head: &Head, first: u32, bytes: usize) -> u32
    ensures value { result ≡ min (bytes / line_size head.now) (head.now.height - first) }
    ensures fits { result * line_size head.now ≤ bytes }
{
    head.assert_invariant();
    let left = head.height().saturating_sub(first);
    (bytes / shape_of(head).line).min(left as usize) as u32
}

/// The row of MCUs that comes next, decoded as far as its data are there, and the number of lines that were returned.
#[derive(Drop)]
pub(crate) struct PartialRow {
    samples: SampleRow,
    row: u32,
    /// Number of its MCUs that are decoded.
    done: u32,
    /// Start of the next MCU; without a position no further one of its interval becomes whole.
    cursor: Cursor,
    lines: u32,
    /// The marks of the intervals before the one that is read.
    marked: Marked,
}

impl Model for PartialRow {
    ghost use Rattle.jr_arrival.specs.PartialRows.{PartialRowValue};

    ghost Value = { PartialRowValue };

    ghost view = { λ r. record { row = r.row; done = r.done; cursor = r.cursor; samples = r.samples; lines = r.lines; marked = r.marked } };
}

impl PartialRow {
    /// Returns the first row of an image with this header.
    pub(crate) fn open(alloc: Global, head: &Head) -> Result<PartialRow, Memory>
        ensures { IfOk result (Begins head.now) }
    {
        Ok(PartialRow {
            samples: SampleRow::open(alloc, head)?,
            row: 0,
            done: 0,
            cursor: Cursor::at_start(0),
            lines: 0,
            marked: Marked::none(),
        })
    }

    /// Returns the number of lines of the image that were returned.
    pub(crate) fn lines(&self) -> u32
        ensures { result ≡ self.now.lines }
    {
        self.lines
    }

    /// Returns the marks of all intervals, if nothing more comes.
    pub(crate) fn marks(&self, scan: &PartialScan) -> Marked
        requires { IsPartialRow scan.now self.now }
        ensures { CountsMarks scan.now.scan (length scan.now.scan.intervals) 0 (length scan.now.scan.intervals) result }
    {
        let mut marked = partial_marks(scan, self.cursor, self.marked);
        let all = scan.intervals();
        for i in self.cursor.number + 1..all {
            let is_sound = is_sound(scan, Cursor::at_start(i));
            marked = marked.with(Marked::one(is_sound));
        }
        marked
    }

    /// Decodes the MCUs of the row that are there, and returns whether it is whole then.
    fn decode(&mut self, scan: &PartialScan) -> bool
        requires partial_row { IsPartialRow scan.now self.old }
        ensures partial_row { IsPartialRow scan.now self.new }
        ensures row { self.new.row ≡ self.old.row }
        ensures lines { self.new.lines ≡ self.old.lines }
        ensures whole { result ≡ true → self.new.done ≡ mcus_across scan.now.scan.head }
        ensures none { result ≡ false → HasNoMore scan.now self.new.cursor × (self.new.done < mcus_across scan.now.scan.head) }
    {
        // By its contract the numbers of all intervals fit.
        let _most = scan.intervals();
        let head = scan.head();
        let across = shape_of(head).across;
        let mut source = PartialSource {
            scan,
            cursor: self.cursor,
            marked: self.marked,
        };
        let more = walk_row(&mut source, head, &mut self.samples, self.row, self.done);
        self.done += more;
        self.cursor = source.cursor;
        self.marked = source.marked;
        self.done == across
    }

    /// Notes that `count` lines of the row, which is whole, were returned, and moves to the next row after the last
    /// one.
    fn pass_lines(&mut self, scan: &PartialScan, count: u32)
        requires partial_row { IsPartialRow scan.now self.old }
        requires whole { self.old.done ≡ mcus_across scan.now.scan.head }
        requires inside { self.old.lines + count ≤ first_line scan.now.scan.head self.old.row + line_count scan.now.scan.head self.old.row }
        ensures partial_row { IsPartialRow scan.now self.new }
        ensures lines { self.new.lines ≡ self.old.lines + count }
    {
        // By its contract the numbers of the rows fit.
        let _few = shape_of(scan.head());
        let (first, all) = lines_of(scan.head(), self.row);
        self.lines += count;
        if self.lines < first + all || self.lines == scan.head().height() {
            return;
        }
        self.row += 1;
        self.done = 0;
    }

    /// Returns the number of lines of the row that were not returned yet.
    fn lines_left(&self, scan: &PartialScan) -> u32
        requires { IsPartialRow scan.now self.now }
        ensures { self.now.lines + result ≡ first_line scan.now.scan.head self.now.row + line_count scan.now.scan.head self.now.row }
    {
        let (first, count) = lines_of(scan.head(), self.row);
        first + count - self.lines
    }

    /// Paints the next lines of the row, which is whole.
    fn paint(&mut self, scan: &PartialScan, count: u32, pixels: &mut [u8])
        requires partial_row { IsPartialRow scan.now self.old }
        requires whole { self.old.done ≡ mcus_across scan.now.scan.head }
        requires inside { self.old.lines + count ≤ first_line scan.now.scan.head self.old.row + line_count scan.now.scan.head self.old.row }
        requires space { length pixels.old ≡ count * line_size scan.now.scan.head }
        ensures partial_row { IsPartialRow scan.now self.new }
        ensures lines { self.new.lines ≡ self.old.lines + count }
        ensures painted { AreFinalLines scan.now self.old.lines count pixels.new }
    {
        let head = scan.head();
        // By its contract the row's lines are the image's.
        let _lines = lines_of(head, self.row);
        self.samples.paint_some(head, self.lines, count, pixels);
        self.pass_lines(scan, count);
    }

    /// Copies the next final lines into `pixels`, as many as fit, a line after the other, and returns their number.
    pub(crate) fn give(&mut self, scan: &PartialScan, pixels: &mut [u8]) -> u32
        requires partial_row { IsPartialRow scan.now self.old }
        ensures partial_row { IsPartialRow scan.now self.new }
        ensures lines { self.new.lines ≡ self.old.lines + result }
        ensures given { AreFinalLines scan.now self.old.lines result (take (result * line_size scan.now.scan.head) pixels.new) }
        ensures few { result ≤ min (length pixels.old / line_size scan.now.scan.head) (scan.now.scan.head.height - self.old.lines) }
        ensures all { result < min (length pixels.old / line_size scan.now.scan.head) (scan.now.scan.head.height - self.old.lines)
            → HasNoMore scan.now self.new.cursor × (self.new.done < mcus_across scan.now.scan.head) }
        ensures long { length pixels.new ≡ length pixels.old }
    {
        let line = shape_of(scan.head()).line;
        let space = lines_with_space(scan.head(), self.lines, pixels.len());
        let mut given = 0;
        'lines: while given < space {
            if !self.decode(scan) {
                return given;
            }
            let some = self.lines_left(scan).min(space - given);
            let from = bytes_to(given, space, line);
            let to = bytes_to(given + some, space, line);
            self.paint(scan, some, &mut pixels[from..to]);
            given += some;
        }
        given
    }
}
