//! The codes of markers (T.81, B.1.1.3 and table B.1), and the bytes before a code.

ghost use Rattle.std.specs.Prelude.{◌≡◌, ◌≢◌, ◌<◌, ◌≤◌, length, take, replicate, slice_index};
ghost use Rattle.jr_base.specs.Fill.{fill_count};

/// Each marker begins with this byte; more of them before its code are fill bytes (B.1.1.2).
pub const PREFIX: u8 = 0xFF;

/// Start of frame 0: baseline DCT.
pub const SOF0: u8 = 0xC0;

/// Start of frame 1: extended sequential DCT with Huffman coding.
pub const SOF1: u8 = 0xC1;

/// Start of frame 2: progressive DCT. This one and the others up to SOF15 are not decoded.
pub const SOF2: u8 = 0xC2;

pub const SOF3: u8 = 0xC3;

/// Define Huffman tables.
pub const DHT: u8 = 0xC4;

pub const SOF5: u8 = 0xC5;

pub const SOF6: u8 = 0xC6;

pub const SOF7: u8 = 0xC7;

pub const SOF9: u8 = 0xC9;

pub const SOF10: u8 = 0xCA;

pub const SOF11: u8 = 0xCB;

/// Define arithmetic coding conditioning.
pub const DAC: u8 = 0xCC;

pub const SOF13: u8 = 0xCD;

pub const SOF14: u8 = 0xCE;

pub const SOF15: u8 = 0xCF;

/// Restart 0. The codes up to RST7 follow each other.
pub const RST0: u8 = 0xD0;

pub const RST7: u8 = 0xD7;

/// Start of image.
pub const SOI: u8 = 0xD8;

/// End of image.
pub const EOI: u8 = 0xD9;

/// Start of scan.
pub const SOS: u8 = 0xDA;

/// Define quantisation tables.
pub const DQT: u8 = 0xDB;

/// Define restart interval.
pub const DRI: u8 = 0xDD;

/// Define hierarchical progression.
pub const DHP: u8 = 0xDE;

/// Application data 0, where JFIF has its mark.
pub const APP0: u8 = 0xE0;

/// Application data 14, where Adobe has its mark.
pub const APP14: u8 = 0xEE;

pub const APP15: u8 = 0xEF;

/// Comment.
pub const COM: u8 = 0xFE;

/// Returns the number of FF bytes at the start: before a code, those of its marker (T.81, B.1.1.2).
pub fn fill_count(bytes: &[u8]) -> usize
    ensures value { result ≡ fill_count bytes.now }
    ensures within { result ≤ length bytes.now }
    ensures full { take result bytes.now ≡ replicate result PREFIX }
    ensures next { result < length bytes.now → slice_index bytes.now result ≢ PREFIX }
{
    bytes.iter().take_while(|byte| **byte == PREFIX).count()
}
