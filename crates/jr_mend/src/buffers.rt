//! Buffers for the data of an interval.

ghost use Rattle.std.specs.Prelude.{◌<◌, ◌≤◌, ◌^◌, All, IfOk, length};
ghost use Rattle.std.specs.Vec.{vec_capacity};

use crate::file_copy::FileCopy;
use jr_base::Memory;
use std::alloc::Global;

/// Buffers for the data of an interval in two copies.
#[derive(Drop)]
pub(crate) struct DataBuffers {
    pub(crate) chosen: Vec<u8>,
    pub(crate) next: Vec<u8>,
}

/// Returns the length of the longest copy in bytes.
fn longest_of(copies: &[FileCopy]) -> usize
    ensures longest { All (λ c. length c.file ≤ result) copies.now }
    ensures few { result < 2 ^ 63 }
{
    let mut longest: usize = 0;
    for k in 0..copies.len() {
        longest = longest.max(copies[k].file().len());
    }
    longest
}

impl DataBuffers {
    /// Allocates buffers for any interval of the copies. Each uses the pages that the longest interval needs.
    pub(crate) fn of(alloc: Global, copies: &[FileCopy]) -> Result<DataBuffers, Memory>
        ensures chosen { IfOk result (λ b. All (λ c. length c.file < vec_capacity b.chosen) copies.now) }
        ensures next { IfOk result (λ b. All (λ c. length c.file < vec_capacity b.next) copies.now) }
    {
        let capacity = longest_of(copies) + 1;
        Ok(DataBuffers {
            chosen: Vec::with_capacity(alloc, capacity)?,
            next: Vec::with_capacity(alloc, capacity)?,
        })
    }
}
