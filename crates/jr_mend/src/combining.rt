//! A file that is combined of copies of it, by how far the bytes in which they differ decode.

ghost use Rattle.std.specs.Prelude.{◌≡◌, ◌≢◌, ◌<◌, ◌≤◌, ◌⊎◌, ◌++◌, ◌∷◌, ◌+◌, [], ℕ, List, All, IfErr, IfNone, IfOk, IfSome, length, slice_index_or};
ghost use Rattle.std.specs.Vec.{vec_capacity};
ghost use Rattle.jr_base.specs.declared.limits.TheConstants.{MAX_FILE_BYTES};
ghost use Rattle.jr_mcu.specs.Block.{IsInDcRange};
ghost use Rattle.jr_mend.specs.Combined.{AreBetween, AreBytesByRuns, IsCombineErrorOf, IsCombined};
ghost use Rattle.jr_mend.specs.Copies.{CopyValue};
ghost use Rattle.jr_mend.specs.declared.byte_runs.ByteRun.{ByteRun};
ghost use Rattle.jr_mend.specs.declared.choice.TheConstants.{MAX_COPIES};

use crate::byte_runs::{ByteRun, Difference, next_difference};
use crate::choice::MAX_COPIES;
use crate::file_copy::FileCopy;
use crate::mending::other_head;
use crate::scan_position::{Reach, ScanPosition};
use jr_base::Memory;
use jr_head::Head;
use std::alloc::Global;

/// Maximum number of runs. Copies that differ in more are combined in the first ones.
pub const MAX_RUNS: usize = 1024;

/// Number of bytes after a run that are decoded to judge a version of it.
pub const FAR_BYTES: usize = 4096;

/// A file that is combined of copies of it.
#[derive(Drop)]
pub struct Combined {
    pub file: Vec<u8>,
    /// The bytes that are chosen among those of the copies, in order. All others are the first copy's.
    pub runs: Vec<ByteRun>,
}

/// Why copies are not combined.
#[derive(Clone, Copy, Debug, PartialEq, Eq)]
pub enum CombineError {
    /// Memory ran out.
    Memory,
    /// The copy of this number has another header than the first.
    OtherHead(u32),
    /// The copy of this number has another length than the first.
    OtherLength(u32),
}

/// Returns the number of the first copy with another length than this one.
fn other_length(copies: &[FileCopy], long: usize) -> Option<u32>
    requires few { length copies.now ≤ MAX_COPIES }
    ensures alike { IfNone result (All (λ c. length c.file ≡ long) copies.now) }
    ensures other { IfSome result (λ k. (k < length copies.now) × ((c : CopyValue) → length (slice_index_or copies.now k c).file ≢ long)) }
{
    for k in 0..copies.len() {
        if copies[k].file().len() != long {
            return Some(k as u32);
        }
    }
    None
}

/// Writes the bytes of a copy in which copies differ.
fn write_version(file: &mut [u8], copy: &[u8], found: Difference)
    requires order { found.start ≤ found.end }
    requires file { found.end ≤ length file.old }
    requires copy { found.end ≤ length copy.now }
    ensures long { length file.new ≡ length file.old }
    ensures inside { (p : ℕ) → found.start ≤ p → p < found.end → slice_index_or file.new p 0 ≡ slice_index_or copy.now p 0 }
    ensures outside { (p : ℕ) → (p < found.start) ⊎ (found.end ≤ p) → slice_index_or file.new p 0 ≡ slice_index_or file.old p 0 }
{
    for at in found.start..found.end {
        file[at] = copy[at];
    }
}

/// Returns whether two copies have the same bytes where copies differ.
fn has_same(one: &[u8], other: &[u8], found: Difference) -> bool
    requires order { found.start ≤ found.end }
    requires one { found.end ≤ length one.now }
    requires other { found.end ≤ length other.now }
{
    one[found.start..found.end] == other[found.start..found.end]
}

/// Returns whether these bytes are one byte that is repeated, as a sector that could not be read often is.
fn is_repeated(bytes: &[u8]) -> bool {
    for k in 1..bytes.len() {
        if bytes[k] != bytes[k - 1] {
            return false;
        }
    }
    bytes.len() > 1
}

/// Returns the number of copies that have the bytes of one, none if they are one byte that is repeated.
fn votes_for(copies: &[FileCopy], number: usize, found: Difference) -> usize
    requires number { number < length copies.now }
    requires order { found.start ≤ found.end }
    requires long { All (λ c. found.end ≤ length c.file) copies.now }
{
    let file = copies[number].file();
    if is_repeated(&file[found.start..found.end]) {
        return 0;
    }
    let mut votes: usize = 0;
    for k in 0..copies.len() {
        if has_same(copies[k].file(), file, found) {
            votes = votes.saturating_add(1);
        }
    }
    votes
}

/// Returns whether a copy before one has the same bytes.
fn is_known(copies: &[FileCopy], number: usize, found: Difference) -> bool
    requires number { number < length copies.now }
    requires order { found.start ≤ found.end }
    requires long { All (λ c. found.end ≤ length c.file) copies.now }
{
    let file = copies[number].file();
    for k in 0..number {
        if has_same(copies[k].file(), file, found) {
            return true;
        }
    }
    false
}

/// How good a version is: by how far it decodes up to the end of the bytes that differ, how far without a doubtful value,
/// how many copies have it, and how far it decodes after them, first without a doubtful value.
#[derive(Clone, Copy)]
struct Rank {
    numbers: [usize; 5],
}

impl Rank {
    fn of(reach: Reach, end: usize, votes: usize) -> Rank {
        Rank {
            numbers: [
                reach.end.min(end),
                reach.clean_end.min(end),
                votes,
                reach.clean_end,
                reach.end,
            ],
        }
    }

    /// Returns whether it is better than another one.
    fn is_above(&self, other: &Rank) -> bool {
        for k in 0..5 {
            if self.numbers[k] != other.numbers[k] {
                return self.numbers[k] > other.numbers[k];
            }
        }
        false
    }
}

/// Buffers to try a version in.
#[derive(Drop)]
struct TrialBuffers {
    /// The bytes that are decoded.
    bytes: Vec<u8>,
    /// What they spell.
    data: Vec<u8>,
}

/// Writes bytes of the file and then bytes of a copy. On `Err`, part of them may be written.
fn write_trial(bytes: &mut Vec<u8>, before: &[u8], version: &[u8]) -> Result<(), Memory>
    ensures { IfOk result (λ _. length bytes.new.items ≡ length before.now + length version.now) }
{
    bytes.clear();
    bytes.extend_from_slice(before)?;
    bytes.extend_from_slice(version)?;
    Ok(())
}

/// Tries each version of the bytes in which copies differ, with the bytes that its copy has after them, and returns the number
/// of the first copy with the best one.
fn best_version(
    head: &Head,
    copies: &[FileCopy],
    file: &[u8],
    found: Difference,
    position: ScanPosition,
    buffers: &mut TrialBuffers,
) -> Result<u32, Memory>
    requires some { 0 < length copies.now }
    requires few { length copies.now ≤ MAX_COPIES }
    requires order { found.start ≤ found.end }
    requires within { found.end ≤ length file.now }
    requires long { All (λ c. length file.now ≤ length c.file) copies.now }
    requires short { length file.now ≤ MAX_FILE_BYTES }
    requires in_range { All IsInDcRange position.place.predictions }
    requires capacity { length file.now < vec_capacity buffers.old.data }
    ensures copy { IfOk result (λ k. k < length copies.now) }
    ensures capacity { length file.now < vec_capacity buffers.new.data }
{
    let from = position.at.min(found.start);
    let to = found.end.saturating_add(FAR_BYTES).min(file.len());
    let before = &file[from..found.start];
    let position = ScanPosition {
        at: position.at.saturating_sub(from),
        ..position
    };
    let mut best = 0;
    let mut rank = Rank { numbers: [0; 5] };
    for k in 0..copies.len() {
        if is_known(copies, k, found) {
            continue;
        }
        let version = &copies[k].file()[found.start..to];
        write_trial(&mut buffers.bytes, before, version)?;
        let reach = position.reach(head, &buffers.bytes, &mut buffers.data);
        let next = Rank::of(reach, found.end - from, votes_for(copies, k, found));
        if next.is_above(&rank) {
            best = k;
            rank = next;
        }
    }
    Ok(best as u32)
}

/// Writes a copy's version of the bytes in which copies differ.
fn settle(copies: &[FileCopy], file: &mut [u8], found: Difference, copy: u32) -> ByteRun
    requires copy { copy < length copies.now }
    requires order { found.start < found.end }
    requires within { found.end ≤ length file.old }
    requires long { All (λ c. found.end ≤ length c.file) copies.now }
    ensures start { result.start ≡ found.start }
    ensures end { result.end ≡ found.end }
    ensures long { length file.new ≡ length file.old }
    ensures bytes { (from to : ℕ) (runs : List ByteRun) → AreBetween from to runs → to ≤ found.start → AreBytesByRuns copies.now runs file.old → AreBytesByRuns copies.now (runs ++ result ∷ []) file.new }
{
    write_version(file, copies[copy as usize].file(), found);
    ByteRun {
        start: found.start,
        end: found.end,
        copy,
    }
}

/// Goes through the bytes in which copies differ, from the start of the scan up to EOI, and chooses a version of each. The
/// file is the first copy.
fn choose_runs(
    alloc: Global,
    head: &Head,
    copies: &[FileCopy],
    file: &mut [u8],
) -> Result<Vec<ByteRun>, Memory>
    requires some { 0 < length copies.now }
    requires few { length copies.now ≤ MAX_COPIES }
    requires scan { head.now.scan_at ≤ length file.old }
    requires long { All (λ c. length file.old ≤ length c.file) copies.now }
    requires short { length file.old ≤ MAX_FILE_BYTES }
    requires first { AreBytesByRuns copies.now [] file.old }
    ensures long { length file.new ≡ length file.old }
    ensures runs { IfOk result (λ runs. AreBetween head.now.scan_at (length file.old) runs.items) }
    ensures bytes { IfOk result (λ runs. AreBytesByRuns copies.now runs.items file.new) }
{
    let size = file.len();
    let mut buffers = TrialBuffers {
        bytes: Vec::new(alloc),
        data: Vec::with_capacity(alloc, size + 1)?,
    };
    let mut runs = Vec::new(alloc);
    let mut at = head.scan_at() as usize;
    // A header has at least one interval.
    let _some = head.intervals();
    let mut position = ScanPosition::at_start(head, 0, at);
    for _ in 0..MAX_RUNS {
        let Some(found) = next_difference(copies, at, size) else {
            break;
        };
        position = position.advanced(head, file, found.start, &mut buffers.data);
        if position.is_after_image {
            break;
        }
        let copy = best_version(head, copies, file, found, position, &mut buffers)?;
        runs.push(settle(copies, file, found, copy))?;
        at = found.end;
    }
    Ok(runs)
}

/// Combines copies of one length into one file. Where copies differ, it has the bytes with which the scan decodes furthest.
/// It tries at most `MAX_RUNS` versions of each copy, and decodes each up to `FAR_BYTES` bytes after its run. It allocates
/// the file, the runs, and buffers for the bytes and the data of an interval.
///
/// # Errors
///
/// The first copy with another header or length; `Memory` if allocation fails.
pub fn combine(alloc: Global, copies: &[FileCopy]) -> Result<Combined, CombineError>
    requires some { 0 < length copies.now }
    requires few { length copies.now ≤ MAX_COPIES }
    ensures combined { IfOk result (λ c. IsCombined copies.now c.runs.items c.file.items) }
    ensures error { IfErr result (IsCombineErrorOf copies.now) }
{
    if let Some(copy) = other_head(copies) {
        return Err(CombineError::OtherHead(copy));
    }
    let first = &copies[0];
    if let Some(copy) = other_length(copies, first.file().len()) {
        return Err(CombineError::OtherLength(copy));
    }
    let Ok(mut file) = first.file().to_vec(alloc) else {
        return Err(CombineError::Memory);
    };
    let Ok(runs) = choose_runs(alloc, first.head(), copies, &mut file) else {
        return Err(CombineError::Memory);
    };
    Ok(Combined { file, runs })
}
