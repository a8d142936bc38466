//! What ends a scan.

use std::fmt;
use std::fmt::{Display, Formatter};

/// What follows the last data of a scan. Offsets are those in the file of the marker's first FF byte.
#[derive(Clone, Copy, PartialEq, Eq)]
pub enum ScanEnd {
    /// EOI.
    EndOfImage,
    /// Another marker, by its code and offset.
    OtherMarker(u8, u64),
    /// A restart marker of another number than the next, counted modulo 8.
    OutOfStep { found: u8, expected: u8, at: u64 },
    /// A restart marker after the last interval.
    ExtraRestart(u64),
    /// The end of the file, which FF bytes may precede.
    EndOfFile,
}

impl Display for ScanEnd {
    /// Writes the name of the marker, and its offset unless it is EOI.
    fn fmt<W: fmt::Write>(&self, f: &mut Formatter<W>) -> fmt::Result {
        match *self {
            ScanEnd::EndOfImage => f.write_str("EOI"),
            ScanEnd::OtherMarker(code, at) => write!(f, "marker {code:02X}, byte {at}"),
            ScanEnd::OutOfStep {
                found,
                expected,
                at,
            } => write!(f, "RST{found} where RST{expected} was due, byte {at}"),
            ScanEnd::ExtraRestart(at) => {
                write!(f, "a restart marker past the last interval, byte {at}")
            }
            ScanEnd::EndOfFile => f.write_str("the end of the file"),
        }
    }
}
