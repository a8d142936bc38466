//! The verdict of one file by its bytes and its record.

ghost use Rattle.std.specs.Prelude.{◌≡◌, ◌≢◌, ◌⊎◌, ◌↔◌, ℕ, List, Some, None, Ok, IsTrue, IfOk, IfErr, IfSome};
ghost use Rattle.jr_segments.specs.declared.refusal.Refusal.TheVariants as refusal;
ghost use Rattle.jri_archive.specs.Outcomes.{IsOutcomeOf, plain_outcome, state_of};
ghost use Rattle.jri_archive.specs.Records.{file_state};
ghost use Rattle.jri_archive.specs.Reporting.{IsOtherSeal, IsSealed};

use crate::checking::Checked;
use crate::file_queue::CheckedFile;
use crate::outcome::{Outcome, outcome_of};
use crate::source::Seal;
use crate::state_record::{FileRecord, RecordedState};
use jr_cut::Break;
use jr_segments::Refusal;
use jri_machine::ReadError;
use std::alloc::{AllocError, Global};
use std::sync::Wait;
use std::thread::Threads;

/// Returns a copy of a file's bytes if `has_map` is set; otherwise none.
fn kept_bytes(
    alloc: Global,
    file: &Result<Vec<u8>, ReadError>,
    has_map: bool,
) -> Result<Option<Vec<u8>>, AllocError>
    ensures kept { IfOk result (λ o. IfSome o (λ kept. IfOk file.now (λ b. kept.items ≡ b.items))) }
    ensures none { IfErr file.now (λ _. result ≡ Ok None) }
{
    match file {
        Ok(bytes) if has_map => Ok(Some(bytes.as_slice().to_vec(alloc)?)),
        _ => Ok(None),
    }
}

/// Checks a file. Its bytes are kept if `has_map` is set, which doubles the memory.
pub(crate) fn checked_file<R: Threads + Wait + Sync>(
    rt: &R,
    alloc: Global,
    file: Result<Vec<u8>, ReadError>,
    breaks: Option<Vec<Break>>,
    has_map: bool,
    workers: u32,
) -> CheckedFile
    ensures map { IfSome result.bytes (λ b. IsOutcomeOf b.items result.outcome) }
    ensures bytes { IfOk file (λ b. IsOutcomeOf b.items result.outcome) }
    ensures error { IfErr file (λ e. result.outcome ≡ Outcome.Unread e) }
{
    let (bytes, outcome) = match kept_bytes(alloc, &file, has_map) {
        Ok(bytes) => (bytes, outcome_of(rt, alloc, file, workers)),
        Err(_) => (None, Outcome::Refused(Refusal::Memory)),
    };
    CheckedFile {
        outcome,
        bytes,
        breaks,
        entry: None,
        is_new: false,
    }
}

/// Returns a file that is not read.
pub(crate) fn unread(outcome: Outcome) -> CheckedFile
    ensures outcome { result.outcome ≡ outcome }
    ensures bytes { result.bytes ≡ None }
    ensures entry { result.entry ≡ None }
{
    CheckedFile {
        outcome,
        bytes: None,
        breaks: None,
        entry: None,
        is_new: false,
    }
}

/// Returns the record of a file; `None` if its state is not recorded.
fn record_of(seal: &Seal, outcome: &Outcome) -> Option<FileRecord>
    ensures hash { IfSome result (λ r. r.hash ≡ seal.now.hash) }
    ensures stamp { IfSome result (λ r. r.stamp ≡ seal.now.stamp) }
    ensures state { IfSome result (λ r. file_state r.state ≡ state_of outcome.now) }
{
    let state = RecordedState::of(outcome.state())?;
    Some(FileRecord {
        hash: seal.hash,
        stamp: seal.stamp,
        state,
    })
}

/// Returns whether a record has the hash of these bytes.
fn has_hash(known: &FileRecord, seal: &Seal) -> bool
    ensures { IsTrue result ↔ (known.now.hash ≡ seal.now.hash) }
{
    let (a, b) = (known.hash, seal.hash);
    a.as_slice() == b.as_slice()
}

/// Returns whether a record, if there is one, has the hash of other bytes than these.
fn is_other(seal: &Seal, record: &Option<FileRecord>) -> bool
    ensures { IsTrue result ↔ IsOtherSeal (Some seal.now) record.now }
{
    match record {
        Some(record) => !has_hash(record, seal),
        None => false,
    }
}

/// Returns the check of a file by its record, which has its size and time if it is `known`: a file without such a record gets one,
/// and a file whose record has other bytes is changed. A file that gets a record is a new version if `older` has other bytes.
pub(crate) fn judged(
    checked: CheckedFile,
    seal: Option<Seal>,
    known: Option<FileRecord>,
    older: Option<FileRecord>,
) -> CheckedFile
    ensures same { (file : List ℕ) → IsOutcomeOf file checked.outcome → IsOutcomeOf file (plain_outcome result.outcome) }
    ensures bytes { result.bytes ≡ checked.bytes }
    ensures entry { IfSome result.entry (λ r. IsSealed seal r × (file_state r.state ≡ state_of result.outcome) × (result.outcome ≡ checked.outcome)) }
    ensures changed { (result.outcome ≡ checked.outcome) ⊎ IsOtherSeal seal known }
    ensures reported { IsOtherSeal seal known → (c : Checked) → checked.outcome ≡ Outcome.Checked c → result.outcome ≡ Outcome.Changed c }
    ensures new { IsTrue result.is_new → IsOtherSeal seal older }
    ensures found { known ≡ None → IsOtherSeal seal older → IfSome result.entry (λ _. IsTrue result.is_new) }
    ensures refused { IsOtherSeal seal known → (f : Refusal) → f ≢ refusal.Memory → checked.outcome ≡ Outcome.Refused f → result.outcome ≡ Outcome.ChangedRefused f }
{
    let CheckedFile {
        outcome,
        bytes,
        breaks,
        ..
    } = checked;
    let Some(seal) = seal else {
        return CheckedFile {
            outcome,
            bytes,
            breaks,
            entry: None,
            is_new: false,
        };
    };
    match known {
        None => {
            let entry = record_of(&seal, &outcome);
            let is_new = entry.is_some() && is_other(&seal, &older);
            CheckedFile {
                outcome,
                bytes,
                breaks,
                entry,
                is_new,
            }
        }
        Some(known) if has_hash(&known, &seal) => CheckedFile {
            outcome,
            bytes,
            breaks,
            entry: None,
            is_new: false,
        },
        Some(_) => CheckedFile {
            outcome: outcome.changed(),
            bytes,
            breaks,
            entry: None,
            is_new: false,
        },
    }
}
