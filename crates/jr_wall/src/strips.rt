//! The cells of the strips of long intervals.

ghost use Rattle.std.specs.Prelude.{◌≡◌, ◌<◌, ◌≤◌, length, IfOk, IfSome};
ghost use Rattle.jr_wall.specs.DecodingValue.{AreNumbered};

use crate::reading::strip_mcus;
use jr_base::Memory;
use jr_cells::{StripCells, StripSight};
use jr_piece::Strip;
use jr_scan::Scan;
use std::alloc::Global;
use std::sync::Arc;

/// Minimum number of MCUs that the data of an interval can code if it is decoded strip by strip: four strips.
const LONG_MCUS: u32 = 1024;

/// Returns whether intervals of the scan can be long: all but the last one have equally many MCUs.
fn may_be_long(scan: &Scan) -> bool {
    let restart = u32::from(scan.head().restart());
    restart == 0 || restart >= LONG_MCUS
}

/// Cells for the strips of interval i, if that is long.
fn cells_of(alloc: Global, scan: &Scan, i: u32) -> Result<Option<StripCells>, Memory>
    requires { i < length scan.now.intervals }
    ensures { IfOk result (λ o. IfSome o (λ c. c.number ≡ i)) }
{
    let interval = scan.interval(i)?;
    if interval.most_mcus() < LONG_MCUS {
        return Ok(None);
    }
    let each = strip_mcus(&interval);
    Ok(Some(StripCells::open(alloc, &interval, each)?))
}

/// Cells for the strips of the long ones of the first intervals, by the interval's number.
pub(crate) fn open_strips(
    alloc: Global,
    scan: &Scan,
    limit: u32,
) -> Result<Vec<Option<StripCells>>, Memory>
    requires { limit ≤ length scan.now.intervals }
    ensures few { IfOk result (λ v. length v.items ≤ limit) }
    ensures numbers { IfOk result (λ v. AreNumbered v.items) }
{
    let count = if may_be_long(scan) { limit } else { 0 };
    let mut strips = Vec::with_capacity(alloc, count as usize)?;
    for i in 0..count {
        strips.push(cells_of(alloc, scan, i)?)?;
    }
    Ok(strips)
}

/// Publishes a strip in the cell of its position (`hang`), if there are a cell and a sight to do it with.
pub(crate) fn hang_strip(cells: &StripCells, strip: Arc<Strip>, sight: &mut Option<StripSight>)
    requires { IfSome sight.old (λ s. s.cells ≡ cells.now) }
    ensures { IfSome sight.new (λ s. s.cells ≡ cells.now) }
{
    let Some(sight) = sight else {
        return;
    };
    let each = cells.each();
    let place = strip.first().checked_div(each).unwrap_or(0);
    let is_of_place = place.checked_mul(each) == Some(strip.first());
    if strip.number() == cells.number() && is_of_place && place < cells.count() {
        let _ = cells.hang(place, strip, sight);
    }
}
