//! What is reported to a gate about the intervals of a row of MCUs.

ghost use Rattle.std.specs.Prelude.{◌<◌};
ghost use Rattle.jr_head.specs.Geometry.{mcus_down};

use crate::shape_of;
use jr_head::Head;
use jr_picture::Gate;
use jr_scan::Scan;

/// Returns the number of intervals that begin before an MCU.
fn begun_before(head: &Head, mcu: u32) -> u32 {
    match u32::from(head.restart()) {
        0 => mcu.min(1),
        restart => mcu.div_ceil(restart),
    }
}

/// Reports to the gate each interval that begins in this row and is one of the first `limit`, before it is decoded.
pub fn announce<G: Gate>(scan: &Scan, limit: u32, row: u32, gate: &G)
    requires { row < mcus_down scan.now.head }
{
    let head = scan.head();
    let across = shape_of(head).across;
    // By its contract an image has few enough MCUs that their numbers fit.
    let _all = head.mcus();
    let first = begun_before(head, row * across);
    let end = begun_before(head, row * across + across).min(limit);
    for number in first..end {
        gate.pass(number);
    }
}
