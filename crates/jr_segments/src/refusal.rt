//! Why a file is refused.

ghost use Rattle.std.specs.Prelude.{◌≡◌};
ghost use Rattle.jr_segments.specs.declared.refusal.Refusal.TheVariants.{Memory};

use jr_base::marker::{DAC, DHP};
use std::alloc::{AllocError, AllocFailed};
use thiserror::Error;

/// Why a file is refused: the first test that fails. Offsets are those in the file, in bytes.
#[derive(Clone, Copy, Debug, PartialEq, Eq, Error)]
pub enum Refusal {
    /// The file does not begin with SOI (T.81, B.2.1).
    #[error("not a JPEG file")]
    NotJpeg,
    /// The file ends within a marker or a segment, or before the scan.
    #[error("the file ends early")]
    EndsEarly,
    /// No marker is at this offset (B.1.1.2).
    #[error("expected a marker at byte {0}")]
    ExpectedMarker(u64),
    /// A marker of this code may not occur before the scan.
    #[error("unexpected marker {0:02X}")]
    UnexpectedMarker(u8),
    /// A frame of this marker is not decoded: progressive, lossless, hierarchical or arithmetic.
    #[error("frame {0:02X} is not baseline")]
    NotBaseline(u8),
    /// A segment of this marker has a length that does not fit its payload (B.1.1.4).
    #[error("bad length of segment {0:02X}")]
    BadLength(u8),
    /// Pq is over 1 or Tq over 3 (B.2.4.1), or a baseline frame uses elements of two bytes.
    #[error("bad quantisation table")]
    BadQuantTable,
    /// Tc is over 1 or Th over 3 (B.2.4.2), or the codes are more than 256 or do not fit into a tree.
    #[error("bad code table")]
    BadCodeTable,
    /// There are two frame headers.
    #[error("a second frame")]
    SecondFrame,
    /// P is not 8 (B.2.2).
    #[error("samples are not of 8 bits")]
    BadPrecision,
    /// X or Y is 0. A number of lines that follows the scan (DNL) is not read.
    #[error("width or height is 0")]
    BadSize,
    /// X times Y is over 268,435,456, a limit of this decoder.
    #[error("too many pixels")]
    TooManyPixels,
    /// Nf is not 1 or 3, two identifiers are equal, or a Tqi is over 3 (B.2.2).
    #[error("bad components")]
    BadComponents,
    /// A sampling factor is not from 1 to 4 or doesn't divide the greatest, or an MCU has more than ten data units.
    #[error("bad sampling factors")]
    BadSampling,
    /// The scan is not that of all coefficients of all components in the frame's order (B.2.3).
    #[error("bad scan header")]
    BadScanHeader,
    /// SOS comes before any frame header.
    #[error("a scan before any frame")]
    NoFrame,
    /// A component uses a table that is not defined.
    #[error("a table is missing")]
    MissingTable,
    /// The file is longer than 1,073,741,824 bytes, a limit of this decoder.
    #[error("the file is too long")]
    TooLong,
    /// Allocation failed; this says nothing of the file.
    #[error("out of memory")]
    Memory,
}

impl Refusal {
    ghost use Rattle.jr_segments.specs.Refusal.{detail_of, may_be_valid, number_of};

    /// Returns the number of the refusal, from 1 to 19, which the program prints.
    pub fn number(&self) -> u8
        ensures { result ≡ number_of self.now }
    {
        match self {
            Refusal::NotJpeg => 1,
            Refusal::EndsEarly => 2,
            Refusal::ExpectedMarker(_) => 3,
            Refusal::UnexpectedMarker(_) => 4,
            Refusal::NotBaseline(_) => 5,
            Refusal::BadLength(_) => 6,
            Refusal::BadQuantTable => 7,
            Refusal::BadCodeTable => 8,
            Refusal::SecondFrame => 9,
            Refusal::BadPrecision => 10,
            Refusal::BadSize => 11,
            Refusal::TooManyPixels => 12,
            Refusal::BadComponents => 13,
            Refusal::BadSampling => 14,
            Refusal::BadScanHeader => 15,
            Refusal::NoFrame => 16,
            Refusal::MissingTable => 17,
            Refusal::TooLong => 18,
            Refusal::Memory => 19,
        }
    }

    /// Returns the refusal's detail: the offset of a missing marker, or a marker's code.
    pub fn detail(&self) -> Option<u64>
        ensures { result ≡ detail_of self.now }
    {
        match self {
            Refusal::ExpectedMarker(at) => Some(*at),
            Refusal::UnexpectedMarker(code)
            | Refusal::NotBaseline(code)
            | Refusal::BadLength(code) => Some(u64::from(*code)),
            _ => None,
        }
    }

    /// Returns whether a valid file may have this refusal, since it is of a kind that is not decoded.
    /// Damage to a frame or scan header can have the same refusal.
    pub fn is_unsupported(&self) -> bool
        ensures { result ≡ may_be_valid self.now }
    {
        match self {
            Refusal::UnexpectedMarker(code) => *code == DAC || *code == DHP,
            Refusal::NotBaseline(_)
            | Refusal::BadPrecision
            | Refusal::BadSize
            | Refusal::TooManyPixels
            | Refusal::BadComponents
            | Refusal::BadSampling
            | Refusal::BadScanHeader
            | Refusal::MissingTable
            | Refusal::TooLong => true,
            _ => false,
        }
    }
}

impl From<AllocError> for Refusal {
    ghost from_gives = { λ _ e. e ≡ Memory };

    fn from(_e: AllocError) -> Refusal {
        Refusal::Memory
    }
}

impl<T: Drop> From<AllocFailed<T>> for Refusal {
    ghost from_gives = { λ _ e. e ≡ Memory };

    fn from(_e: AllocFailed<T>) -> Refusal {
        Refusal::Memory
    }
}
