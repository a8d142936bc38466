//! The errors of texts in the notations.

use std::alloc::{AllocError, AllocFailed};
use std::num::ParseIntError;

/// The reason why a text is not a file and not an image in these notations.
#[derive(Clone, Copy, Debug, PartialEq, Eq)]
pub enum NotationError {
    /// It is not of the notation.
    Malformed,
    /// Allocation failed.
    Memory,
}

impl From<AllocError> for NotationError {
    fn from(_refused: AllocError) -> Self {
        NotationError::Memory
    }
}

impl From<ParseIntError> for NotationError {
    fn from(_wrong: ParseIntError) -> Self {
        NotationError::Malformed
    }
}

impl<T: Drop> From<AllocFailed<T>> for NotationError {
    fn from(_refused: AllocFailed<T>) -> Self {
        NotationError::Memory
    }
}
