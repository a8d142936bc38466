//! The sources of files' bytes.

ghost use Rattle.std.specs.Prelude.{◌≡◌, ℕ, List, [], IfOk, IfErr, IfSome};

use crate::state_record::Stamp;
use jr_cut::Break;
use jri_machine::{Entry, ReadError};
use std::alloc::Global;

/// The bytes of a file that are checked.
#[derive(Drop)]
pub struct CheckedBytes {
    pub bytes: Vec<u8>,
    /// The markers that were out of step, if the file was resynchronised.
    pub breaks: Vec<Break>,
}

impl CheckedBytes {
    /// Returns bytes that are checked as they were read.
    pub(crate) fn unchanged(alloc: Global, bytes: Vec<u8>) -> CheckedBytes
        ensures bytes { result.bytes.items ≡ bytes.items }
        ensures breaks { result.breaks.items ≡ [] }
    {
        CheckedBytes {
            bytes,
            breaks: Vec::new(alloc),
        }
    }
}

/// The source of files.
pub trait Directory {
    ghost use Rattle.jri_machine.specs.declared.entries.ReadError.{ReadError};
    ghost use Rattle.jri_archive.specs.declared.state_record.Stamp.{Stamp};

    // The bytes that a file of that name may have.
    ghost holds: { Self → List ℕ → List ℕ → Type 0 } = { λ _ _ _. Unit {0} };

    // Why a file of that name may not be read.
    ghost fails: { Self → List ℕ → ReadError → Type 0 } = { λ _ _ _. Unit {0} };

    // The size and time that a file of that name may have.
    ghost stamps: { Self → List ℕ → Stamp → Type 0 } = { λ _ _ _. Unit {0} };

    /// Returns the bytes of the file of that name, or one more than a file may have.
    fn read(&self, alloc: Global, name: &str) -> Result<Vec<u8>, ReadError>
        ensures bytes { IfOk result (λ bytes. holds self.now name.now bytes.items) }
        ensures error { IfErr result (fails self.now name.now) };

    /// Returns the bytes of the file of that name that are checked.
    fn read_for_check(&self, alloc: Global, name: &str) -> Result<CheckedBytes, ReadError>
        ensures bytes { IfOk result (λ r. holds self.now name.now r.bytes.items) }
        ensures error { IfErr result (fails self.now name.now) }
    {
        match self.read(alloc, name) {
            Ok(bytes) => Ok(CheckedBytes::unchanged(alloc, bytes)),
            Err(error) => Err(error),
        }
    }

    /// Returns the size and time of the regular file of that name; `None` if it is not one, or if they are not known.
    fn stamp(&self, _name: &str) -> Option<Stamp>
        ensures { IfSome result (stamps self.now _name.now) }
    {
        None
    }

    /// Returns the files and directories in the directory of that name, in any order, and no links; `None` if it is not a
    /// directory. An entry whose name is not UTF-8 is `Unread` for that reason.
    fn entries(&self, alloc: Global, name: &str) -> Result<Option<Vec<Entry>>, ReadError>;
}
