//! Why an image is not written.

/// The reason why an image is not written whole.
#[derive(Clone, Copy, PartialEq, Eq)]
pub enum PictureError {
    /// Allocation failed; nothing is written.
    Memory,
    /// The writer failed after a beginning of the image.
    Write,
}
