//! A file whose intervals are taken from copies of it.

ghost use Rattle.std.specs.Prelude.{◌≡◌, ◌<◌, ◌≤◌, ◌++◌, ℕ, List, All, IfErr, IfNone, IfOk, IfSome, length, slice_index_or, slice_range};
ghost use Rattle.std.specs.List.{AllZip};
ghost use Rattle.std.specs.Vec.{vec_capacity};
ghost use Rattle.jr_base.specs.declared.limits.TheConstants.{MAX_FILE_BYTES};
ghost use Rattle.jr_damage.specs.Coded.{IsSegmentOf};
ghost use Rattle.jr_scan.specs.ScanValue.{intervals_of};
ghost use Rattle.jr_mend.specs.Copies.{HasOtherHead};
ghost use Rattle.jr_mend.specs.Mended.{AreTaken, HasChosen, IsErrorOf, IsMended, IsTaken};
ghost use Rattle.jr_mend.specs.Splice.{joined_intervals, marker_before};

use crate::buffers::DataBuffers;
use crate::choice::{Choice, MAX_COPIES, choose};
use crate::file_copy::FileCopy;
use crate::positions::{advance, starts_of};
use crate::splice::{write_header, write_image_end, write_interval};
use jr_base::Memory;
use jr_base::limits::MAX_FILE_BYTES;
use jr_cut::{CodedSpan, FileSegment};
use std::alloc::Global;

/// A mended file, and the choice for each of its intervals.
#[derive(Drop)]
pub struct Mended {
    pub file: Vec<u8>,
    pub choices: Vec<Choice>,
}

/// Why copies are not mended.
#[derive(Clone, Copy, Debug, PartialEq, Eq)]
pub enum MendError {
    /// Memory ran out.
    Memory,
    /// The copy of this number has another header than the first: it is no copy of the same file.
    OtherHead(u32),
    /// The mended file would be longer than a file may be.
    TooLong,
}

/// Returns the number of the first copy with another header than the first copy.
pub(crate) fn other_head(copies: &[FileCopy]) -> Option<u32>
    requires some { 0 < length copies.now }
    requires few { length copies.now ≤ MAX_COPIES }
    ensures alike { IfNone result (All (λ c. c.scan.head ≡ (slice_index_or copies.now 0 c).scan.head) copies.now) }
    ensures other { IfSome result (HasOtherHead copies.now) }
{
    let first = copies[0].head();
    for k in 0..copies.len() {
        if !copies[k].head().is_same(first) {
            return Some(k as u32);
        }
    }
    None
}

/// Appends the bytes of interval i in a copy, in which they are at `span`. On `Err`, part of them may be appended.
fn write_from(bytes: &mut Vec<u8>, copy: &FileCopy, span: CodedSpan, i: u32) -> Result<(), Memory>
    requires { IsSegmentOf copy.now.file copy.now.scan i span }
    ensures { IfOk result (λ _. bytes.new.items ≡ bytes.old.items ++ (marker_before i ++ slice_range copy.now.file span.start span.end)) }
{
    write_interval(bytes, i, &copy.file()[span.start..span.end])?;
    Ok(())
}

/// Chooses among the copies of interval i, and appends its bytes in the chosen one. On `Err`, part of them may be appended.
fn write_chosen(
    bytes: &mut Vec<u8>,
    copies: &[FileCopy],
    segments: &[FileSegment],
    i: u32,
    buffers: &mut DataBuffers,
) -> Result<Choice, Memory>
    requires some { 0 < length copies.now }
    requires few { length copies.now ≤ MAX_COPIES }
    requires there { All (λ c. i < intervals_of c.scan.head) copies.now }
    requires at { AllZip (λ c s. IsSegmentOf c.file c.scan i s.bytes) copies.now segments.now }
    requires chosen { All (λ c. length c.file < vec_capacity buffers.old.chosen) copies.now }
    requires next { All (λ c. length c.file < vec_capacity buffers.old.next) copies.now }
    ensures written { IfOk result (λ c. (raw : List ℕ) × IsTaken copies.now i c raw × (bytes.new.items ≡ bytes.old.items ++ (marker_before i ++ raw))) }
    ensures chosen { All (λ c. length c.file < vec_capacity buffers.new.chosen) copies.now }
    ensures next { All (λ c. length c.file < vec_capacity buffers.new.next) copies.now }
{
    let choice = choose(copies, segments, i, buffers);
    let number = choice.copy as usize;
    write_from(bytes, &copies[number], segments[number].bytes, i)?;
    Ok(choice)
}

/// Appends the bytes of the first `count` intervals, each after its restart marker, and returns the choices. On `Err`, part of
/// them may be appended.
fn write_all(
    alloc: Global,
    bytes: &mut Vec<u8>,
    copies: &[FileCopy],
    count: u32,
) -> Result<Vec<Choice>, Memory>
    requires some { 0 < length copies.now }
    requires few { length copies.now ≤ MAX_COPIES }
    requires there { All (λ c. count ≤ intervals_of c.scan.head) copies.now }
    ensures { IfOk result (λ choices. (raws : List (List ℕ)) × AreTaken copies.now choices.items raws × (length raws ≡ count) × (bytes.new.items ≡ bytes.old.items ++ joined_intervals 0 raws)) }
{
    let mut segments = starts_of(alloc, copies)?;
    let mut buffers = DataBuffers::of(alloc, copies)?;
    let mut choices = Vec::new(alloc);
    for i in 0..count {
        advance(copies, segments.as_mut_slice(), i);
        let choice = write_chosen(bytes, copies, segments.as_slice(), i, &mut buffers)?;
        choices.push(choice)?;
    }
    Ok(choices)
}

/// Writes a file with the header of the first copy, in which each interval is the chosen version of it. It allocates the
/// file, the choices, a position for each copy, and two buffers for the data of one interval.
///
/// # Errors
///
/// The first copy with another header; a file that is too long; `Memory` if allocation fails.
pub fn mend(alloc: Global, copies: &[FileCopy]) -> Result<Mended, MendError>
    requires some { 0 < length copies.now }
    requires few { length copies.now ≤ MAX_COPIES }
    ensures mended { IfOk result (λ m. IsMended copies.now m.choices.items m.file.items) }
    ensures scan { IfOk result (λ m. HasChosen copies.now m.choices.items m.file.items) }
    ensures small { IfOk result (λ m. length m.file.items ≤ MAX_FILE_BYTES) }
    ensures error { IfErr result (IsErrorOf copies.now) }
{
    if let Some(copy) = other_head(copies) {
        return Err(MendError::OtherHead(copy));
    }
    let first = &copies[0];
    let head = first.head();
    let count = head.intervals();
    let Ok(mut file) = write_header(alloc, head, first.file()) else {
        return Err(MendError::Memory);
    };
    let Ok(choices) = write_all(alloc, &mut file, copies, count) else {
        return Err(MendError::Memory);
    };
    let Ok(()) = write_image_end(&mut file) else {
        return Err(MendError::Memory);
    };
    if file.len() > MAX_FILE_BYTES {
        return Err(MendError::TooLong);
    }
    Ok(Mended { file, choices })
}
