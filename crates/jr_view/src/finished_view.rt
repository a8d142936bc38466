//! The image of a file that has come.

ghost use Rattle.std.specs.Prelude.{◌≡◌, ℕ, ◌-◌, ◌*◌, ◌≤◌, List, length, take, drop, IfOk};
ghost use Rattle.jr_paint.specs.Lines.{line_size, next_lines_of};
ghost use Rattle.jr_picture.specs.declared.mark.Mark.{Mark};
ghost use Rattle.jr_picture.specs.Headline.{ShowsFirst};

use jr_base::Memory;
use jr_picture::Counts;
use jr_rows::{paint_scan_lines, shape_of};
use jr_scan::Scan;
use std::alloc::Global;

/// A file that has come: its scan, the numbers of its sound and damaged restart intervals, and the lines of its image,
/// one after the other, of one byte or three a pixel.
#[derive(Drop)]
pub struct FinishedView {
    pub scan: Scan,
    pub counts: Counts,
    pub pixels: Vec<u8>,
}

/// Paints the lines starting at one of them; those before it stay.
pub(crate) fn paint_rest(
    alloc: Global,
    scan: &Scan,
    first: u32,
    pixels: &mut [u8],
) -> Result<(), Memory>
    requires few { first ≤ scan.now.head.height }
    requires size { length pixels.old ≡ scan.now.head.height * line_size scan.now.head }
    ensures before { take (first * line_size scan.now.head) pixels.new ≡ take (first * line_size scan.now.head) pixels.old }
    ensures rest { IfOk result (λ _. (marks : List Mark) (f : ℕ → ℕ → ℕ → ℕ) → ShowsFirst scan.now (length scan.now.intervals) marks f → drop (first * line_size scan.now.head) pixels.new ≡ next_lines_of scan.now.head f first (scan.now.head.height - first)) }
{
    let head = scan.head();
    let left = head.height() - first;
    if left == 0 {
        return Ok(());
    }
    let from = first as usize * shape_of(head).line;
    paint_scan_lines(alloc, scan, first, left, &mut pixels[from..])?;
    Ok(())
}
