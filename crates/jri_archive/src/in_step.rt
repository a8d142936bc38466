//! Files that are resynchronised before they are checked.

ghost use Rattle.std.specs.Prelude.{◌≡◌, ◌≢◌, IfErr, IfOk};
ghost use Rattle.jr_segments.specs.declared.refusal.Refusal.TheVariants as refusals;
ghost use Rattle.jr_head.specs.Heads.{HeadOf};
ghost use Rattle.jri_archive.specs.InStep.{IsInStepError, IsInStepOf};

use crate::reading::{CheckedBytes, Directory};
use crate::state_record::Stamp;
use jr_head::{Head, read_head};
use jr_mend::{ResyncFault, is_in_step, resynchronised};
use jr_segments::Refusal;
use jri_machine::{Entry, ReadError};
use std::alloc::Global;

/// A directory whose files are resynchronised before they are checked, if that is asked for.
#[derive(Drop)]
pub struct InStepDirectory<F> {
    pub directory: F,
    pub is_resync: bool,
}

/// Returns a file that has this header with its restart markers in step. A file that has them so is returned unchanged.
fn write_in_step(alloc: Global, head: &Head, file: Vec<u8>) -> Result<CheckedBytes, ReadError>
    requires { HeadOf file.items head.now }
    ensures bytes { IfOk result (λ r. IsInStepOf file.items r.bytes.items r.breaks.items) }
    ensures error { IfErr result (IsInStepError file.items) }
{
    if is_in_step(head, &file) {
        return Ok(CheckedBytes::unchanged(alloc, file));
    }
    match resynchronised(alloc, head, &file) {
        Ok(resynced) => Ok(CheckedBytes {
            bytes: resynced.file,
            breaks: resynced.breaks,
        }),
        Err(ResyncFault::Memory) => Err(ReadError::Memory),
        Err(ResyncFault::TooLong) => Err(ReadError::TooLong),
    }
}

/// Returns a refused file unchanged.
fn left(alloc: Global, refusal: Refusal, file: Vec<u8>) -> Result<CheckedBytes, ReadError>
    ensures bytes { IfOk result (λ r. (refusal ≢ refusals.Memory) × (r.bytes.items ≡ file.items)) }
    ensures error { IfErr result (λ e. e ≡ ReadError.Memory) }
{
    match refusal {
        Refusal::Memory => Err(ReadError::Memory),
        _ => Ok(CheckedBytes::unchanged(alloc, file)),
    }
}

/// Returns a file with its restart markers in step; a refused one unchanged.
fn in_step(alloc: Global, file: Vec<u8>) -> Result<CheckedBytes, ReadError>
    ensures bytes { IfOk result (λ r. IsInStepOf file.items r.bytes.items r.breaks.items) }
    ensures error { IfErr result (IsInStepError file.items) }
{
    match read_head(alloc, &file) {
        Ok(head) => write_in_step(alloc, &head, file),
        Err(refusal) => left(alloc, refusal, file),
    }
}

impl<F: Directory> Directory for InStepDirectory<F> {
    ghost use Rattle.jri_archive.specs.InStep.{FailsInStep, HoldsInStep};

    ghost holds = { λ s name bytes. HoldsInStep (F.holds s.directory) s.is_resync name bytes };

    ghost fails = { λ s name e. FailsInStep (F.holds s.directory) (F.fails s.directory) s.is_resync name e };

    ghost stamps = { λ s name stamp. F.stamps s.directory name stamp };

    fn read(&self, alloc: Global, name: &str) -> Result<Vec<u8>, ReadError> {
        match self.read_for_check(alloc, name) {
            Ok(file) => Ok(file.bytes),
            Err(error) => Err(error),
        }
    }

    fn read_for_check(&self, alloc: Global, name: &str) -> Result<CheckedBytes, ReadError> {
        let bytes = match self.directory.read(alloc, name) {
            Ok(bytes) => bytes,
            Err(error) => return Err(error),
        };
        if self.is_resync {
            return in_step(alloc, bytes);
        }
        Ok(CheckedBytes::unchanged(alloc, bytes))
    }

    fn stamp(&self, name: &str) -> Option<Stamp> {
        self.directory.stamp(name)
    }

    fn entries(&self, alloc: Global, name: &str) -> Result<Option<Vec<Entry>>, ReadError> {
        self.directory.entries(alloc, name)
    }
}
