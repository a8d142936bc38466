//! The kinds of task.

/// The kind of task that a thread can do next.
#[derive(Clone, Copy, PartialEq, Eq)]
pub(crate) enum NextTask {
    /// Reads the next step.
    Read,
    /// Skips the next step, which speculative reads cover.
    Skip,
    /// Finishes a step that was skipped or read.
    Finish,
    /// Makes a speculative read, or brings a buffer for one.
    Speculate,
    /// Waits for what others do, for three reasons together:
    /// - No step waits to be finished.
    /// - No step can begin: another thread has the reader, or it may not start yet; or the next step lacks memory; or
    ///   another thread makes a speculative read for it.
    /// - No speculative read can begin: all buffers are in use, or no bits are left to read ahead.
    Wait,
    /// Frees memory that no thread needs any more, and leaves.
    End,
}
