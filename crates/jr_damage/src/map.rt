//! The position of a damaged interval in the image and in the file.

ghost use Rattle.std.specs.Prelude.{◌<◌, IfSome, IfNone};
ghost use Rattle.jr_scan.specs.ScanValue.{intervals_of};
ghost use Rattle.jr_scan.specs.Mcus.{HasDecoding};
ghost use Rattle.jr_damage.specs.Map.{AreBytesOf, IsDamageOf};

use crate::damage::damaged_front;
use crate::lines::{Lines, McuRange, lines_of, mcus_of};
use jr_cut::CodedSpan;
use jr_scan::IntervalRef;

/// An interval that has no decoding.
#[derive(Clone, Copy)]
pub struct DamagedInterval {
    /// Its number in the scan, from 0.
    pub number: u32,
    pub mcus: McuRange,
    /// The number of its first MCUs that can be decoded.
    pub decodable: u32,
    /// The lines of the image that its MCUs cover.
    pub lines: Lines,
    /// Its bytes in the file; `None` if it has none.
    pub bytes: Option<CodedSpan>,
}

/// Returns the bytes of a segment, if it has some.
fn bytes_of(span: CodedSpan) -> Option<CodedSpan>
    ensures { AreBytesOf span result }
{
    if span.start < span.end {
        Some(span)
    } else {
        None
    }
}

/// Returns what is damaged of an interval, whose segment is at `span`, or `None` if it has a decoding. Allocates nothing.
pub fn damaged_interval(interval: IntervalRef<'_>, span: CodedSpan) -> Option<DamagedInterval>
    requires { interval.number < intervals_of interval.head }
    ensures sound { IfNone result (HasDecoding interval.entry) }
    ensures damaged { IfSome result (λ d. IsDamageOf interval.entry span d) }
{
    let number = interval.number();
    let head = interval.head();
    let decodable = damaged_front(interval)?;
    Some(DamagedInterval {
        number,
        mcus: mcus_of(head, number),
        decodable,
        lines: lines_of(head, number),
        bytes: bytes_of(span),
    })
}
