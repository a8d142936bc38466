//! The markers that may occur before the scan (T.81, B.1.1.3 and table B.1).

/// A marker that may occur before the scan.
#[derive(Clone, Copy, PartialEq, Eq)]
pub enum Marker {
    /// Start of frame 0: baseline DCT.
    Sof0,
    /// Start of frame 1: extended sequential DCT with Huffman tables.
    Sof1,
    /// Define Huffman tables.
    Dht,
    /// Define quantisation tables.
    Dqt,
    /// Define restart interval.
    Dri,
    /// Start of scan.
    Sos,
    /// Application data, by its number from 0 to 15.
    App(u8),
    /// Comment.
    Com,
}
