//! MCUs that can be decoded, but have values that no image of 8-bit samples has.

ghost use Rattle.std.specs.Prelude.{◌≡◌, ◌↔◌, ◌<◌, ◌≤◌, ◌*◌, length, IsTrue, IfSome, IfNone};
ghost use Rattle.jr_head.specs.Geometry.{order_of};
ghost use Rattle.jr_cut.specs.Coded.{IsSpelledAt};
ghost use Rattle.jr_scan.specs.ScanValue.{intervals_of, mcus_in};
ghost use Rattle.jr_damage.specs.Doubtful.{HasDoubtful, HasNoDoubtful, IsDoubtOf, IsDoubtful, IsDoubtfulMcu, IsFirstDoubtful};

use crate::lines::mcus_of;
use crate::offsets::offset_of;
use jr_base::{Coefficients, Quantisers};
use jr_cut::CodedSpan;
use jr_head::Head;
use jr_scan::{IntervalRef, MAX_UNITS, McuReader};
use std::array;

/// The greatest coefficient of 64 samples from -128 to 127: their norm.
const MAX_COEFFICIENT: u32 = 1024;

/// The first MCU of an interval with a value that no image of 8-bit samples has.
#[derive(Clone, Copy)]
pub struct DoubtfulMcu {
    /// The number of its interval in the scan, from 0.
    pub interval: u32,
    /// Its number in the scan, from 0.
    pub mcu: u32,
    /// The bytes of the file that have its bits.
    pub bytes: CodedSpan,
}

/// An MCU by its number in its interval, and its bits in the interval's data.
#[derive(Clone, Copy)]
struct McuBits {
    number: u32,
    from: u64,
    to: u64,
}

/// Returns whether no image of 8-bit samples has this quantised value.
#[inline(always)]
fn is_doubtful(value: i16, step: u16) -> bool
    ensures { IsTrue result ↔ IsDoubtful value step }
{
    value.unsigned_abs() as u32 * step as u32 > MAX_COEFFICIENT + step as u32
}

/// Returns whether one of 64 values is doubtful, each by its own step. It has no early end, so that it is done by vectors.
fn are_doubtful(values: &[i16; 64], steps: &[u16; 64]) -> bool
    ensures { IsTrue result ↔ HasDoubtful steps.now values.now }
{
    let mut found = false;
    for n in 0..64 {
        found |= is_doubtful(values[n], steps[n]);
    }
    found
}

/// Returns whether a data unit has a doubtful value. Both are taken in natural order.
fn has_doubtful(unit: &Coefficients, quantisers: &Quantisers) -> bool
    ensures { IsTrue result ↔ HasDoubtful quantisers.now unit.now }
{
    are_doubtful(unit.natural(), quantisers.factors())
}

/// Returns whether an MCU has a doubtful value, by its data units.
pub fn is_doubtful_mcu(head: &Head, units: &[Coefficients]) -> bool
    requires { length units.now ≡ length (order_of head.now) }
    ensures { IsTrue result ↔ IsDoubtfulMcu head.now units.now }
{
    let order = head.order();
    for u in 0..order.len() {
        if has_doubtful(&units[u], head.quantisers(order[u] as u32)) {
            return true;
        }
    }
    false
}

/// Reads the MCUs of an interval up to the first that is doubtful, and returns this.
fn find_doubtful(interval: IntervalRef<'_>) -> Option<McuBits>
    ensures none { IfNone result (HasNoDoubtful interval.entry) }
    ensures some { IfSome result (λ m. IsFirstDoubtful interval.entry m) }
    ensures number { IfSome result (λ m. m.number < interval.entry.mcus) }
    ensures within { IfSome result (λ m. (m.from ≤ 8 * length interval.entry.bytes) × (m.to ≤ 8 * length interval.entry.bytes)) }
{
    let head = interval.head();
    let mcus = interval.mcus();
    let per_mcu = head.order().len();
    let mut units: [Coefficients; MAX_UNITS] = array::from_fn(|_| Coefficients::zeros());
    let mut reader = McuReader::over(interval);
    for number in 0..mcus {
        let from = reader.place().bit;
        if reader.read(&mut units[..per_mcu]) == 0 {
            return None;
        }
        if is_doubtful_mcu(head, &units[..per_mcu]) {
            let to = reader.place().bit;
            return Some(McuBits { number, from, to });
        }
    }
    None
}

/// Returns the first MCU of an interval's decodable prefix that has a value that no image of 8-bit samples has; `None` if none has.
/// The interval's segment is at `span`. It reads the interval's bits once, and allocates nothing.
pub fn first_doubtful(
    file: &[u8],
    span: CodedSpan,
    interval: IntervalRef<'_>,
) -> Option<DoubtfulMcu>
    requires there { interval.number < intervals_of interval.head }
    requires mcus { interval.mcus ≡ mcus_in interval.head interval.number }
    requires spelled { IsSpelledAt file.now span interval.bytes }
    ensures none { IfNone result (HasNoDoubtful interval.entry) }
    ensures some { IfSome result (λ d. IsDoubtOf interval.entry file.now span d) }
{
    let number = interval.number();
    let first = mcus_of(interval.head(), number).first;
    let bits = find_doubtful(interval)?;
    Some(DoubtfulMcu {
        interval: number,
        mcu: first + bits.number,
        bytes: CodedSpan {
            start: offset_of(file, span, (bits.from / 8) as usize),
            end: offset_of(file, span, ((bits.to + 7) / 8) as usize),
        },
    })
}
