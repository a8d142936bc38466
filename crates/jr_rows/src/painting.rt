//! The lines of pixels of a row of MCUs, painted from its lines of samples.

ghost use Rattle.std.specs.Prelude.{◌≡◌, ◌*◌, ◌<◌, ◌≤◌, length};
ghost use Rattle.jr_head.specs.Geometry.{mcus_down};
ghost use Rattle.jr_paint.specs.Lines.{line_space, line_size};
ghost use Rattle.jr_rows.specs.RowLines.{HasLines};
ghost use Rattle.jr_rows.specs.Rows.{PaintsRowLines, line_count};

use crate::band::Band;
use crate::row_lines::RowLines;
use crate::shape::lines_of;
use jr_head::Head;
use jr_paint::paint_lines;

/// Paints the lines of a row of MCUs with these samples; `space` is scratch space for those that are repeated first.
pub(crate) fn paint_row(
    head: &Head,
    samples: &RowLines,
    row: u32,
    space: &mut [u8],
    pixels: &mut [u8],
)
    requires lines { line_space head.now ≤ length space.old }
    requires row { row < mcus_down head.now }
    requires space { HasLines head.now samples.now }
    requires pixels { length pixels.old ≡ line_count head.now row * line_size head.now }
    ensures { PaintsRowLines head.now row samples.now.groups pixels.new }
{
    let (y, count) = lines_of(head, row);
    let band = Band::of(head, samples);
    paint_lines(&band, y, count, space, pixels);
}
