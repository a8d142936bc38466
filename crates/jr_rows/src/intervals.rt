//! A cursor goes over the intervals of a scan, one after the other.

ghost use Rattle.std.specs.Prelude.{◌≡◌, ◌+◌, ◌*◌, ◌<◌, ◌≤◌, length, IfSome};
ghost use Rattle.jr_head.specs.Geometry.{blocks_of, mcus_of};
ghost use Rattle.jr_scan.specs.ScanValue.{interval_of, intervals_of, mcus_in};
ghost use Rattle.jr_rows.specs.Cursors.{AreSpeculationsIn, IsCursorOf, mcus_to};
ghost use Rattle.jr_rows.specs.MarkBytes.{HasMarkSpace, StoresMarks, StoresMcus};
ghost use Rattle.jr_rows.specs.Rows.{CountsMarks, CountsMcus, ReturnsMcus, intervals_before, mcus_before};

use crate::interval_speculations::{IntervalSpeculations, of_interval};
use crate::mark_bytes::write_mark;
use crate::marked::Marked;
use crate::shape::units_to;
use jr_base::Coefficients;
use jr_scan::{Cursor, FirstIntervals, IntervalRef, Scan};

/// Moves to the next interval if this one is read to its end. Returns the number of its MCUs that are left.
fn ready(cursor: &mut Cursor, scan: &Scan) -> u32
    requires lies { IsCursorOf scan.now cursor.old }
    requires more { mcus_to scan.now.head cursor.old < mcus_of scan.now.head }
    ensures lies { IsCursorOf scan.now cursor.new }
    ensures some { 0 < result }
    ensures left { cursor.new.mcu + result ≡ mcus_in scan.now.head cursor.new.number }
    ensures number { cursor.new.number < intervals_of scan.now.head }
    ensures to { mcus_to scan.now.head cursor.new ≡ mcus_to scan.now.head cursor.old }
{
    // By contract the number of a scan's intervals is that of its header, and an image has an MCU.
    let _counts = (scan.intervals(), scan.head().mcus());
    let left = scan.head().mcus_in(cursor.number) - cursor.mcu;
    if left > 0 {
        return left;
    }
    *cursor = Cursor::at_start(cursor.number + 1);
    scan.head().mcus_in(cursor.number)
}

/// Returns the mark of the interval if it is read to its end, and stores it in `marks` if these are asked for.
fn mark_ended(
    cursor: &Cursor,
    part: &FirstIntervals<'_>,
    interval: &IntervalRef<'_>,
    marks: &mut [u8],
) -> Marked
    requires interval { interval.now ≡ interval_of part.now.scan cursor.now.number }
    requires lies { IsCursorOf part.now.scan cursor.now }
    requires decoded { cursor.now.number < part.now.limit }
    requires some { 0 < cursor.now.mcu }
    requires places { HasMarkSpace part.now.scan marks.old }
    ensures counts { CountsMarks part.now.scan part.now.limit cursor.now.number (intervals_before part.now.scan.head (mcus_to part.now.scan.head cursor.now)) result }
    ensures stores { StoresMarks part.now.scan part.now.limit cursor.now.number (intervals_before part.now.scan.head (mcus_to part.now.scan.head cursor.now)) marks.old marks.new }
{
    // By contract the number of a scan's intervals is that of its header, and an image has an MCU.
    let _counts = (part.scan().intervals(), part.scan().head().mcus());
    if cursor.mcu < interval.mcus() {
        return Marked::none();
    }
    let is_sound = cursor.is_sound(interval);
    write_mark(is_sound, cursor.number, marks);
    Marked::one(is_sound)
}

/// Reads the blocks of the next MCUs. Returns the marks of the intervals that end with them, and also stores these
/// in `marks`.
pub(crate) fn read_mcus(
    cursor: &mut Cursor,
    part: &FirstIntervals<'_>,
    speculations: Option<&IntervalSpeculations>,
    mcus: u32,
    blocks: &mut [Coefficients],
    marks: &mut [u8],
) -> Marked
    requires lies { IsCursorOf part.now.scan cursor.old }
    requires same { IfSome speculations (λ g. AreSpeculationsIn part.now.scan g.now) }
    requires few { mcus_to part.now.scan.head cursor.old + mcus ≤ mcus_before part.now.scan.head part.now.limit }
    requires space { length blocks.old ≡ mcus * blocks_of part.now.scan.head }
    requires places { HasMarkSpace part.now.scan marks.old }
    ensures lies { IsCursorOf part.now.scan cursor.new }
    ensures moved { mcus_to part.now.scan.head cursor.new ≡ mcus_to part.now.scan.head cursor.old + mcus }
    ensures returned { ReturnsMcus part.now.scan part.now.limit (mcus_to part.now.scan.head cursor.old) mcus blocks.new }
    ensures counts { CountsMcus part.now.scan part.now.limit (mcus_to part.now.scan.head cursor.old) (mcus_to part.now.scan.head cursor.new) result }
    ensures stores { StoresMcus part.now.scan part.now.limit (mcus_to part.now.scan.head cursor.old) (mcus_to part.now.scan.head cursor.new) marks.old marks.new }
{
    let scan = part.scan();
    let per_mcu = scan.head().order().len();
    // By its contract the counts of all intervals fit.
    let _most = scan.intervals();
    let mut done = 0;
    let mut marked = Marked::none();
    'intervals: while done < mcus {
        let some = ready(cursor, scan).min(mcus - done);
        let from = units_to(done, mcus, per_mcu);
        let end = units_to(done + some, mcus, per_mcu);
        let own = of_interval(speculations, cursor.number);
        let interval = scan.interval_ref(cursor.number);
        cursor.read(interval.fork(), own, some, &mut blocks[from..end]);
        let more = mark_ended(cursor, part, &interval, marks);
        marked = marked.with(more);
        done += some;
    }
    marked
}

/// Skips the next MCUs.
pub(crate) fn skip_mcus(
    cursor: &mut Cursor,
    scan: &Scan,
    speculations: Option<&IntervalSpeculations>,
    mcus: u32,
)
    requires lies { IsCursorOf scan.now cursor.old }
    requires same { IfSome speculations (λ g. AreSpeculationsIn scan.now g.now) }
    requires few { mcus_to scan.now.head cursor.old + mcus ≤ mcus_of scan.now.head }
    ensures lies { IsCursorOf scan.now cursor.new }
    ensures moved { mcus_to scan.now.head cursor.new ≡ mcus_to scan.now.head cursor.old + mcus }
{
    let mut left = mcus;
    'mcus: while left > 0 {
        let some = ready(cursor, scan).min(left);
        let own = of_interval(speculations, cursor.number);
        let interval = scan.interval_ref(cursor.number);
        cursor.skip(interval, own, some);
        left -= some;
    }
}
