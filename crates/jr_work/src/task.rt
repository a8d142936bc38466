//! What a thread does next.

use crate::one_scan::OneScan;
use crate::scan_speculation::BufferSize;
use crate::speculation_slot::SpeculationSlot;
use crate::speculation_task::SpeculationTask;
use crate::work::Work;

/// The next task of a thread.
#[derive(Drop)]
pub enum Task<S: OneScan, W: Work<S>> {
    /// Reads a step; if `true`, skips it, so that another thread can read it while the steps after it are skipped.
    Begin(W::Begun, bool),
    /// Finishes a step that was skipped or read.
    Finish(W::Unfinished),
    /// Makes a speculative read or a buffer, which all threads use.
    Assist(Assist<S, W>),
}

/// What a thread does that has no step to read or to finish.
#[derive(Drop)]
pub enum Assist<S: OneScan, W: Work<S>> {
    /// Makes a speculative read.
    Speculate(SpeculationTask<S>),
    /// Brings a buffer for a speculative read.
    Bring(BufferSize),
    /// Frees the buffer of a speculative read.
    FreeRead(SpeculationSlot<S>),
    /// Frees other memory.
    Free(W::Spare),
}
