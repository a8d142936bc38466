//! A source of the rows of MCUs of an image, one after the other.

ghost use Rattle.std.specs.Prelude.{◌≡◌, ◌+◌, ◌-◌, ◌*◌, ◌<◌, ◌≤◌, length, take, drop};
ghost use Rattle.jr_head.specs.Geometry.{mcus_down};
ghost use Rattle.jr_paint.specs.Lines.{line_size};
ghost use Rattle.jr_rows.specs.RowsValue.{RowsValue};
ghost use Rattle.jr_rows.specs.Rows.{CountsRow, ShowsLines, line_count};

use crate::Marked;

/// A source of the lines of an image's rows of MCUs, in their order.
pub trait RowPainter {
    ghost at: { Self → RowsValue };

    /// Paints the next row, from one byte of `pixels` up to another: exactly the space of its lines. What lies before
    /// them stays; an equally long buffer may replace all. Returns the marks of the intervals that end in the row.
    fn paint(&mut self, pixels: &mut Vec<u8>, from: usize, to: usize) -> Marked
        requires row { (at self.old).row < mcus_down (at self.old).scan.head }
        requires space { to ≡ from + line_count (at self.old).scan.head (at self.old).row * line_size (at self.old).scan.head }
        requires within { to ≤ length pixels.old.items }
        ensures moved { at self.new ≡ record (at self.old) { row = (at self.old).row + 1 } }
        ensures long { length pixels.new.items ≡ length pixels.old.items }
        ensures kept { take from pixels.new.items ≡ take from pixels.old.items }
        ensures lines { ShowsLines (at self.old).scan (at self.old).limit (at self.old).row (take (to - from) (drop from pixels.new.items)) }
        ensures counts { CountsRow (at self.old).scan (at self.old).limit (at self.old).row result };
}
