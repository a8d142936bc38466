//! The failure of an allocation.

use std::alloc::{AllocError, AllocFailed};
use thiserror::Error;

/// Allocation failed.
#[derive(Clone, Copy, Debug, Drop, PartialEq, Eq, Error)]
#[error("out of memory")]
pub struct Memory;

impl From<AllocError> for Memory {
    fn from(_refused: AllocError) -> Memory {
        Memory
    }
}

impl<T: Drop> From<AllocFailed<T>> for Memory {
    fn from(_refused: AllocFailed<T>) -> Memory {
        Memory
    }
}
