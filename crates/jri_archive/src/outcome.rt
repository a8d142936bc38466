//! The verdict of one file.

ghost use Rattle.std.specs.Prelude.{◌≡◌, ◌≢◌, ℕ, List, length, IfOk, IfErr, IfSome};
ghost use Rattle.jr_head.specs.Heads.{RefusalOf};
ghost use Rattle.jr_segments.specs.declared.refusal.Refusal.TheVariants as refusal;
ghost use Rattle.jr_damage.specs.Verdicts.{IsFileScan};
ghost use Rattle.jri_archive.specs.Outcomes.{IsOutcomeOf, plain_outcome, state_of};

use crate::checking::{Checked, check_file};
use crate::counts::FileState;
use crate::state_record::RecordedState;
use jr_segments::Refusal;
use jri_machine::ReadError;
use std::alloc::Global;
use std::sync::Wait;
use std::thread::Threads;

/// What the check of a file came to.
#[derive(Drop)]
pub enum Outcome {
    /// Its scan was read.
    Checked(Checked),
    /// It is refused, or allocation failed.
    Refused(Refusal),
    /// It cannot be opened or read.
    Unread(ReadError),
    /// It was found in a directory and may be a file of any kind, since its name is neither UTF-8 nor that of a JPEG file.
    Skipped,
    /// Its size and time are those of its record, so it is not read. This is what its check came to.
    Unchanged(RecordedState),
    /// Its bytes are not those of its record, though its size and time are. Its scan was read.
    Changed(Checked),
    /// Its bytes are not those of its record, though its size and time are. It is refused.
    ChangedRefused(Refusal),
}

/// Checks a file, or returns why its bytes are not there. A large file is checked with `workers` threads.
pub fn outcome_of<R: Threads + Wait + Sync>(
    rt: &R,
    alloc: Global,
    file: Result<Vec<u8>, ReadError>,
    workers: u32,
) -> Outcome
    ensures bytes { IfOk file (λ bytes. IsOutcomeOf bytes.items result) }
    ensures error { IfErr file (λ error. result ≡ Outcome.Unread error) }
{
    match file {
        Ok(bytes) => match check_file(rt, alloc, bytes, workers) {
            Ok(checked) => Outcome::Checked(checked),
            Err(fault) => Outcome::Refused(fault),
        },
        Err(error) => Outcome::Unread(error),
    }
}

impl Outcome {
    /// Returns the state of the file.
    pub fn state(&self) -> FileState
        ensures { result ≡ state_of self.now }
    {
        match self {
            Outcome::Checked(checked) if checked.verdict.damaged == 0 => FileState::Sound,
            Outcome::Checked(_) => FileState::Damaged,
            Outcome::Refused(Refusal::Memory) | Outcome::Unread(ReadError::Memory) =>
                FileState::OutOfMemory,
            Outcome::Refused(refusal) if refusal.is_unsupported() => FileState::Unsupported,
            Outcome::Refused(_) => FileState::Refused,
            Outcome::Skipped => FileState::Skipped,
            Outcome::Unread(_) => FileState::Unread,
            Outcome::Unchanged(was) => was.file_state(),
            Outcome::Changed(_) | Outcome::ChangedRefused(_) => FileState::Changed,
        }
    }

    /// Returns the check of a file whose bytes are not those of its record. If memory ran out, its verdict is unchanged.
    pub(crate) fn changed(self) -> Outcome
        ensures same { (file : List ℕ) → IsOutcomeOf file self → IsOutcomeOf file (plain_outcome result) }
        ensures checked { (c : Checked) → self ≡ Outcome.Checked c → result ≡ Outcome.Changed c }
        ensures refused { (f : Refusal) → f ≢ refusal.Memory → self ≡ Outcome.Refused f → result ≡ Outcome.ChangedRefused f }
    {
        match self {
            Outcome::Checked(checked) => Outcome::Changed(checked),
            Outcome::Refused(Refusal::Memory) => Outcome::Refused(Refusal::Memory),
            Outcome::Refused(refusal) => Outcome::ChangedRefused(refusal),
            other => other,
        }
    }

    /// Returns what was read of the file's scan.
    pub(crate) fn checked(&self) -> Option<&Checked>
        ensures { (file : List ℕ) → IsOutcomeOf file (plain_outcome self.now) → IfSome result (λ c. IsFileScan file c.now.scan) }
    {
        match self {
            Outcome::Checked(checked) | Outcome::Changed(checked) => Some(checked),
            _ => None,
        }
    }

    /// Returns why the file is refused; `None` also if memory ran out.
    pub(crate) fn refusal(&self) -> Option<&Refusal> {
        match self {
            Outcome::Refused(Refusal::Memory) => None,
            Outcome::Refused(refusal) | Outcome::ChangedRefused(refusal) => Some(refusal),
            _ => None,
        }
    }
}
