//! A position in a scan at which MCUs are read, up to the first that cannot be decoded.

ghost use Rattle.std.specs.Prelude.{◌*◌, ◌<◌, ◌≤◌, IfSome, length};
ghost use Rattle.std.specs.List.{All};
ghost use Rattle.std.specs.Vec.{vec_capacity};
ghost use Rattle.jr_base.specs.declared.limits.TheConstants.{MAX_FILE_BYTES};
ghost use Rattle.jr_mcu.specs.Block.{IsInDcRange};
ghost use Rattle.jr_scan.specs.ScanValue.{intervals_of};

use crate::markers::{first_marker, is_restart};
use jr_base::Coefficients;
use jr_base::marker::{EOI, RST0};
use jr_cut::{segment_length, spelled_length, unstuff_segment};
use jr_damage::is_doubtful_mcu;
use jr_head::Head;
use jr_scan::{IntervalRef, MAX_UNITS, McuReader, Place};
use std::array;

/// Maximum number of bytes of an MCU: 10 data units of 1665 bits, each byte of them stuffed.
const MAX_MCU_BYTES: usize = 4164;

/// A position between two MCUs of a scan.
#[derive(Clone, Copy)]
pub(crate) struct ScanPosition {
    /// Offset in the file of the byte in which the next MCU begins.
    pub at: usize,
    /// The bit of this byte, and the predictions.
    pub place: Place,
    /// The number of the interval.
    pub number: u32,
    /// The number of MCUs of the interval that are left.
    pub left: u32,
    /// Whether nothing is known of the MCUs up to the next restart marker.
    pub is_lost: bool,
    /// Whether EOI is before it, after the last interval.
    pub is_after_image: bool,
}

/// MCUs that are read of the bytes of an interval.
#[derive(Clone, Copy)]
struct ReadMcus {
    /// Their number.
    mcus: u32,
    /// Where the next MCU begins.
    place: Place,
    /// The bit at which the first doubtful one begins.
    doubtful: Option<u64>,
}

/// How far bytes decode.
#[derive(Clone, Copy)]
pub(crate) struct Reach {
    /// Offset of the byte in which the first MCU begins that cannot be decoded.
    pub end: usize,
    /// Offset of the byte in which the first MCU begins that is doubtful or cannot be decoded.
    pub clean_end: usize,
}

/// Reads the MCUs of an interval starting at a position in it.
fn read_mcus(interval: IntervalRef<'_>, from: Place) -> ReadMcus
    requires within { from.bit ≤ 8 * length interval.bytes }
    requires in_range { All IsInDcRange from.predictions }
    ensures in_range { All IsInDcRange result.place.predictions }
    ensures few { result.mcus ≤ interval.entry.mcus }
{
    let head = interval.head();
    let mcus = interval.mcus();
    let per_mcu = head.order().len();
    let mut units: [Coefficients; MAX_UNITS] = array::from_fn(|_| Coefficients::zeros());
    let mut reader = McuReader::at(interval, from, mcus);
    let mut doubtful = None;
    for _ in 0..mcus {
        let bit = reader.place().bit;
        if reader.read(&mut units[..per_mcu]) == 0 {
            break;
        }
        if doubtful.is_none() && is_doubtful_mcu(head, &units[..per_mcu]) {
            doubtful = Some(bit);
        }
    }
    ReadMcus {
        mcus: reader.mcus().min(mcus),
        place: reader.place(),
        doubtful,
    }
}

/// Bytes of an interval that are read.
#[derive(Clone, Copy)]
struct ReadBytes {
    /// The position after the MCUs.
    position: ScanPosition,
    /// Offset of the marker after the bytes, or of their end.
    marker_at: usize,
    /// Offset of the byte in which the first doubtful MCU begins.
    doubtful_at: Option<usize>,
    /// Whether no MCU is left, and fewer than eight bits.
    is_whole: bool,
}

impl ScanPosition {
    /// Returns the start of interval `number`, whose bytes begin at an offset.
    pub(crate) fn at_start(head: &Head, number: u32, at: usize) -> ScanPosition
        requires { number < intervals_of head.now }
        ensures in_range { All IsInDcRange result.place.predictions }
    {
        ScanPosition {
            at,
            place: Place::start(),
            number,
            left: head.mcus_in(number),
            is_lost: false,
            is_after_image: false,
        }
    }

    /// Returns the position after a marker that ends at an offset: a restart marker begins the next interval of its number.
    fn after_marker(self, head: &Head, code: u8, at: usize) -> ScanPosition
        requires { All IsInDcRange self.place.predictions }
        ensures { All IsInDcRange result.place.predictions }
    {
        if is_restart(code) {
            let ahead = (code.saturating_sub(RST0) as u32 + 8 - self.number % 8) % 8 + 1;
            let number = self.number.saturating_add(ahead).min(head.intervals() - 1);
            return ScanPosition::at_start(head, number, at);
        }
        let is_last = self.number.saturating_add(1) >= head.intervals();
        ScanPosition {
            at,
            is_lost: true,
            is_after_image: self.is_after_image || code == EOI && is_last,
            ..self
        }
    }

    /// Returns the position after the last marker in the bytes up to an offset, this one if there is none.
    fn after_markers(self, head: &Head, file: &[u8], to: usize) -> ScanPosition
        requires within { to ≤ length file.now }
        requires in_range { All IsInDcRange self.place.predictions }
        ensures in_range { All IsInDcRange result.place.predictions }
    {
        let mut position = self;
        for _ in 0..to {
            let from = position.at.min(to);
            let Some(marker) = first_marker(&file[from..to]) else {
                break;
            };
            position = position.after_marker(head, marker.code, from + marker.before + 2);
        }
        position
    }

    /// Reads the MCUs in the bytes up to a marker, or to an offset.
    fn read(self, head: &Head, file: &[u8], to: usize, buffer: &mut Vec<u8>) -> ReadBytes
        requires within { to ≤ length file.now }
        requires short { length file.now ≤ MAX_FILE_BYTES }
        requires in_range { All IsInDcRange self.place.predictions }
        requires capacity { length file.now < vec_capacity buffer.old }
        ensures in_range { All IsInDcRange result.position.place.predictions }
        ensures within { result.marker_at ≤ to }
        ensures capacity { vec_capacity buffer.old ≤ vec_capacity buffer.new }
    {
        let from = self.at.min(to);
        let length = segment_length(&file[from..to]);
        let coded = &file[from..from + length];
        let found = unstuff_segment(coded, buffer);
        let bits = 8 * found as u64;
        let place = Place {
            bit: self.place.bit.min(bits),
            predictions: self.place.predictions,
        };
        let interval = IntervalRef::of(head, &buffer[..found], self.number, self.left);
        let read = read_mcus(interval, place);
        let left = self.left - read.mcus;
        ReadBytes {
            position: ScanPosition {
                at: from + spelled_length(coded, (read.place.bit / 8) as usize),
                place: Place {
                    bit: read.place.bit % 8,
                    predictions: read.place.predictions,
                },
                left,
                ..self
            },
            marker_at: from + length,
            doubtful_at: read
                .doubtful
                .map(|bit| from + spelled_length(coded, (bit / 8) as usize)),
            is_whole: left == 0 && bits.saturating_sub(read.place.bit) < 8,
        }
    }

    /// Returns the position between the last MCU that ends before an offset and the next one.
    pub(crate) fn advanced(
        self,
        head: &Head,
        file: &[u8],
        to: usize,
        buffer: &mut Vec<u8>,
    ) -> ScanPosition
        requires within { to ≤ length file.now }
        requires short { length file.now ≤ MAX_FILE_BYTES }
        requires in_range { All IsInDcRange self.place.predictions }
        requires capacity { length file.now < vec_capacity buffer.old }
        ensures in_range { All IsInDcRange result.place.predictions }
        ensures capacity { length file.now < vec_capacity buffer.new }
    {
        let position = self.after_markers(head, file, to);
        let read = if position.is_lost {
            position
        } else {
            position.read(head, file, to, buffer).position
        };
        if read.is_lost || read.at.saturating_add(MAX_MCU_BYTES) < to {
            return ScanPosition {
                at: to,
                is_lost: true,
                ..read
            };
        }
        read
    }

    /// Returns how far the bytes decode starting at this position. Decoding continues after each restart marker that is due.
    pub(crate) fn reach(self, head: &Head, bytes: &[u8], buffer: &mut Vec<u8>) -> Reach
        requires short { length bytes.now ≤ MAX_FILE_BYTES }
        requires in_range { All IsInDcRange self.place.predictions }
        requires capacity { length bytes.now < vec_capacity buffer.old }
        ensures capacity { vec_capacity buffer.old ≤ vec_capacity buffer.new }
    {
        let to = bytes.len();
        let mut position = self;
        let mut clean_end = None;
        for _ in 0..to {
            if position.is_lost {
                break;
            }
            let read = position.read(head, bytes, to, buffer);
            clean_end = clean_end.or(read.doubtful_at);
            position = read.position;
            let Some(next) = read.next(head, bytes, to) else {
                break;
            };
            position = next;
        }
        let end = if position.is_after_image {
            to
        } else {
            position.at
        };
        Reach {
            end,
            clean_end: clean_end.unwrap_or(end),
        }
    }
}

impl ReadBytes {
    /// Returns the position after the marker that is due after a whole interval: a restart marker, or EOI after the last.
    fn next(&self, head: &Head, file: &[u8], to: usize) -> Option<ScanPosition>
        requires within { to ≤ length file.now }
        requires at { self.now.marker_at ≤ to }
        requires in_range { All IsInDcRange self.now.position.place.predictions }
        ensures { IfSome result (λ s. All IsInDcRange s.place.predictions) }
    {
        if !self.is_whole {
            return None;
        }
        let marker = first_marker(&file[self.marker_at..to])?;
        let is_last = self.position.number.saturating_add(1) >= head.intervals();
        let due = if is_last {
            EOI
        } else {
            RST0 + (self.position.number % 8) as u8
        };
        if marker.code != due {
            return None;
        }
        let at = self.marker_at + marker.before + 2;
        Some(self.position.after_marker(head, marker.code, at))
    }
}
