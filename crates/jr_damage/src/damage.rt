//! Whether an interval has a decoding.

ghost use Rattle.std.specs.Prelude.{◌<◌, length, IfSome, OnSome, IfNone};
ghost use Rattle.jr_scan.specs.Mcus.{HasNoDecoding, HasDecoding, HasLongestFront};
ghost use Rattle.jr_scan.specs.ScanValue.{interval_of};
ghost use Rattle.jr_scan.specs.Cursors.{IsPlaceAfter};

use crate::shared_scan::SharedScan;
use jr_head::Head;
use jr_scan::{Cursor, IntervalRef};
use jr_work::OneScan;
use jr_work::tuning::UNITS_OF_CHECK_STEP;
use std::sync::Wait;

/// Returns the number of MCUs that a reader with speculative reads skips at a step.
pub(crate) fn step_of(head: &Head) -> u32
    ensures { 0 < result }
{
    (UNITS_OF_CHECK_STEP / (head.order().len() as u32).max(1)).max(1)
}

/// Returns a cursor past all whole MCUs of interval i, by the speculative reads that other threads make.
fn skip_all_by<R: Wait, S: OneScan>(scan: &SharedScan<'_, S>, rt: &R, i: u32) -> Cursor
    requires { i < length scan.now.intervals }
    ensures at { IsPlaceAfter (interval_of scan.now i) result.mcu result.place }
    ensures longest { HasLongestFront (interval_of scan.now i) result.mcu }
{
    let interval = scan.scan().interval_ref(i);
    let step = step_of(interval.head());
    let mut cursor = Cursor::at_start(i);
    for _ in 0..interval.mcus() {
        let Some(place) = cursor.place else {
            return cursor;
        };
        let speculations = scan.speculations(rt, i, place.bit);
        let whole = cursor.take(interval.fork(), Some(&speculations), step, false, &mut []);
        if whole < step {
            return cursor;
        }
    }
    cursor
}

/// Returns `None` if an interval has a decoding, otherwise the number of its whole MCUs, by a cursor past all of them.
fn front_at(cursor: &Cursor, interval: &IntervalRef<'_>) -> Option<u32>
    requires at { IsPlaceAfter interval.now cursor.now.mcu cursor.now.place }
    requires longest { HasLongestFront interval.now cursor.now.mcu }
    ensures sound { IfNone result (HasDecoding interval.now) }
    ensures damaged { OnSome result (HasNoDecoding interval.now) }
    ensures front { IfSome result (λ mcus. HasLongestFront interval.now mcus) }
{
    if cursor.mcu == interval.mcus() && cursor.is_sound(interval) {
        None
    } else {
        Some(cursor.mcu)
    }
}

/// Returns `None` if the interval has a decoding (T.81, Annex F), otherwise the number of its first MCUs that can be
/// decoded.
///
/// It reads the interval's bits once, keeps no coefficient and allocates nothing.
pub fn damaged_front(interval: IntervalRef<'_>) -> Option<u32>
    ensures sound { IfNone result (HasDecoding interval.entry) }
    ensures damaged { OnSome result (HasNoDecoding interval.entry) }
    ensures front { IfSome result (λ mcus. HasLongestFront interval.entry mcus) }
{
    let mut cursor = Cursor::at_start(interval.number());
    let _whole = cursor.take(interval.fork(), None, interval.mcus(), false, &mut []);
    front_at(&cursor, &interval)
}

/// Does what `damaged_front` does for interval i of a scan, by the speculative reads that other threads make.
pub(crate) fn damaged_front_by<R: Wait, S: OneScan>(
    scan: &SharedScan<'_, S>,
    rt: &R,
    i: u32,
) -> Option<u32>
    requires { i < length scan.now.intervals }
    ensures sound { IfNone result (HasDecoding (interval_of scan.now i)) }
    ensures damaged { OnSome result (HasNoDecoding (interval_of scan.now i)) }
{
    let cursor = skip_all_by(scan, rt, i);
    front_at(&cursor, &scan.scan().interval_ref(i))
}
