//! The limits of this decoder.

/// The most bytes of a file: 1 GiB, a limit of this decoder.
pub const MAX_FILE_BYTES: usize = 1_073_741_824;

/// Maximum number of pixels of an image, a limit of this decoder.
pub const MAX_PIXELS: u32 = 268_435_456;

/// The most MCUs across or down: each covers eight pixels or more of at most 65535 (T.81, A.2.4 and B.2.2).
pub const MAX_MCUS_ACROSS: u32 = 8192;

/// Maximum number of MCUs of an image.
pub const MAX_MCUS: u32 = MAX_MCUS_ACROSS * MAX_MCUS_ACROSS;

/// The most workers that decode one file at once, a limit of this decoder.
pub const MAX_WORKERS: u32 = 64;
