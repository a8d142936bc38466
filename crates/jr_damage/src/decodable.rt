//! Up to where in its file a damaged interval can be decoded.

ghost use Rattle.jr_cut.specs.Coded.{IsSpelledAt};
ghost use Rattle.jr_scan.specs.Mcus.{HasLongestFront};
ghost use Rattle.jr_damage.specs.Fronts.{IsDecodableEnd};

use crate::offsets::offset_of;
use jr_cut::CodedSpan;
use jr_scan::{Cursor, IntervalRef};

/// Returns the offset in the file of the byte in which the first MCU of an interval begins that cannot be decoded, or the end of
/// its segment if no bit is left. The interval's segment is at `span`, and its first `mcus` MCUs are those that can be decoded.
/// It reads their bits once, and allocates nothing.
pub fn decodable_end(file: &[u8], span: CodedSpan, interval: IntervalRef<'_>, mcus: u32) -> usize
    requires { IsSpelledAt file.now span interval.bytes }
    ensures { HasLongestFront interval.entry mcus → IsDecodableEnd interval.entry file.now span result }
{
    let number = interval.number();
    // A cursor always has a position past the last MCU of an interval whose MCUs are all whole.
    let front = IntervalRef::of(interval.head(), interval.bytes(), number, mcus);
    let mut cursor = Cursor::at_start(number);
    let _whole = cursor.take(front, None, mcus, false, &mut []);
    let Some(place) = cursor.place else {
        return span.end;
    };
    offset_of(file, span, (place.bit / 8) as usize)
}
