//! What is known of an interval.

/// How far an interval of a scan is decoded.
#[derive(Clone, Copy, PartialEq, Eq)]
pub enum Mark {
    /// No piece is posted.
    Blank,
    /// The interval has a decoding, whose samples are shown.
    Sound,
    /// The interval has no decoding; its longest decodable prefix of whole MCUs is shown, then grey.
    Damaged,
}
