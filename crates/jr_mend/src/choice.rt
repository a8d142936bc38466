//! Which of several copies an interval is taken from.

ghost use Rattle.std.specs.Prelude.{◌≡◌, ◌↔◌, ◌+◌, ◌<◌, ◌≤◌, ℕ, List, [], ◌∷◌, ◌++◌, All, IsTrue, length, take};
ghost use Rattle.std.specs.List.{AllZip};
ghost use Rattle.std.specs.Vec.{vec_capacity};
ghost use Rattle.jr_cut.specs.Coded.{IsSpelledAt};
ghost use Rattle.jr_damage.specs.Coded.{IsSegmentOf};
ghost use Rattle.jr_scan.specs.IntervalValue.{IntervalValue};
ghost use Rattle.jr_scan.specs.ScanValue.{interval_of, intervals_of};
ghost use Rattle.jr_mend.specs.Choice.{IsChoiceOf};
ghost use Rattle.jr_mend.specs.Copies.{versions_of};

use crate::buffers::DataBuffers;
use crate::file_copy::FileCopy;
use jr_cut::{CodedSpan, FileSegment};
use jr_damage::damaged_front;
use jr_scan::IntervalRef;

/// Maximum number of copies of a file.
pub const MAX_COPIES: usize = 64;

/// The copy from which an interval is taken: the first in which it has a decoding, otherwise the first of those with the
/// longest decodable prefix.
#[derive(Clone, Copy, Debug, PartialEq, Eq)]
pub struct Choice {
    /// The number of the copy, from 0.
    pub copy: u32,
    /// `None` if the interval is sound in this copy, otherwise the number of its first MCUs that can be decoded.
    pub front: Option<u32>,
    /// Whether two copies in which the interval is sound have different data.
    pub differs: bool,
}

/// Returns whether both have the same data.
fn has_same_data(one: &[u8], other: &[u8]) -> bool
    ensures { IsTrue result ↔ (one.now ≡ other.now) }
{
    one == other
}

/// Returns the choice among some copies and one more, by the choice among those. `chosen` is the interval in the copy
/// that was chosen.
fn with_version(
    before: Choice,
    chosen: IntervalRef<'_>,
    number: u32,
    next: IntervalRef<'_>,
) -> Choice
    ensures { (versions : List IntervalValue) → IsChoiceOf versions chosen.entry before → length versions ≡ number → (v : IntervalValue) × IsChoiceOf (versions ++ next.entry ∷ []) v result }
{
    let is_same = has_same_data(chosen.bytes(), next.bytes());
    match (before.front, damaged_front(next)) {
        (None, None) if is_same => before,
        (None, None) => Choice {
            copy: before.copy,
            front: None,
            differs: true,
        },
        (None, Some(_)) => before,
        (Some(_), None) => Choice {
            copy: number,
            front: None,
            differs: false,
        },
        (Some(most), Some(mcus)) if most < mcus => Choice {
            copy: number,
            front: Some(mcus),
            differs: false,
        },
        (Some(_), Some(_)) => before,
    }
}

/// Returns the choice among one copy of interval i, in which its segment is at `span`.
fn first_choice(copy: &FileCopy, span: CodedSpan, i: u32, buffer: &mut Vec<u8>) -> Choice
    requires there { i < intervals_of copy.now.scan.head }
    requires at { IsSegmentOf copy.now.file copy.now.scan i span }
    requires capacity { length copy.now.file < vec_capacity buffer.old }
    ensures choice { (v : IntervalValue) × IsChoiceOf (interval_of copy.now.scan i ∷ []) v result }
    ensures capacity { vec_capacity buffer.old ≤ vec_capacity buffer.new }
{
    let found = copy.unstuff(span, buffer);
    Choice {
        copy: 0,
        front: damaged_front(copy.interval(&buffer[..found], i)),
        differs: false,
    }
}

/// Returns whether two copies have one header and equal bytes at these spans.
fn has_same_bytes(one: &FileCopy, its: CodedSpan, other: &FileCopy, span: CodedSpan) -> bool
    requires one { (bytes : List ℕ) × IsSpelledAt one.now.file its bytes }
    requires other { (bytes : List ℕ) × IsSpelledAt other.now.file span bytes }
    ensures { IsTrue result → (i : ℕ) → IsSegmentOf one.now.file one.now.scan i its → IsSegmentOf other.now.file other.now.scan i span → interval_of one.now.scan i ≡ interval_of other.now.scan i }
{
    let its_bytes = &one.file()[its.start..its.end];
    has_same_data(its_bytes, &other.file()[span.start..span.end])
        && one.head().is_same(other.head())
}

/// Returns the choice among the first copies of interval i and the copy of this number, by the choice among the first. If
/// its bytes are those of the chosen one they are not decoded again.
fn with_copy(
    before: Choice,
    copies: &[FileCopy],
    segments: &[FileSegment],
    number: u32,
    i: u32,
    buffers: &mut DataBuffers,
) -> Choice
    requires before { (v : IntervalValue) × IsChoiceOf (versions_of (take number copies.now) i) v before }
    requires number { number < length copies.now }
    requires there { All (λ c. i < intervals_of c.scan.head) copies.now }
    requires at { AllZip (λ c s. IsSegmentOf c.file c.scan i s.bytes) copies.now segments.now }
    requires chosen { All (λ c. length c.file < vec_capacity buffers.old.chosen) copies.now }
    requires next { All (λ c. length c.file < vec_capacity buffers.old.next) copies.now }
    ensures choice { (v : IntervalValue) × IsChoiceOf (versions_of (take (number + 1) copies.now) i) v result }
    ensures chosen { vec_capacity buffers.old.chosen ≤ vec_capacity buffers.new.chosen }
    ensures next { vec_capacity buffers.old.next ≤ vec_capacity buffers.new.next }
{
    let copy = before.copy as usize;
    let last = number as usize;
    let (chosen, next) = (&copies[copy], &copies[last]);
    let (its, span) = (segments[copy].bytes, segments[last].bytes);
    if has_same_bytes(chosen, its, next, span) {
        return before;
    }
    let found = chosen.unstuff(its, &mut buffers.chosen);
    let found_next = next.unstuff(span, &mut buffers.next);
    with_version(
        before,
        chosen.interval(&buffers.chosen[..found], i),
        number,
        next.interval(&buffers.next[..found_next], i),
    )
}

/// Chooses among the copies of interval i, whose segments these are.
pub(crate) fn choose(
    copies: &[FileCopy],
    segments: &[FileSegment],
    i: u32,
    buffers: &mut DataBuffers,
) -> Choice
    requires some { 0 < length copies.now }
    requires few { length copies.now ≤ MAX_COPIES }
    requires there { All (λ c. i < intervals_of c.scan.head) copies.now }
    requires at { AllZip (λ c s. IsSegmentOf c.file c.scan i s.bytes) copies.now segments.now }
    requires chosen { All (λ c. length c.file < vec_capacity buffers.old.chosen) copies.now }
    requires next { All (λ c. length c.file < vec_capacity buffers.old.next) copies.now }
    ensures choice { (v : IntervalValue) × IsChoiceOf (versions_of copies.now i) v result }
    ensures within { result.copy < length copies.now }
    ensures chosen { All (λ c. length c.file < vec_capacity buffers.new.chosen) copies.now }
    ensures next { All (λ c. length c.file < vec_capacity buffers.new.next) copies.now }
{
    let mut choice = first_choice(&copies[0], segments[0].bytes, i, &mut buffers.chosen);
    for number in 1..copies.len() {
        choice = with_copy(choice, copies, segments, number as u32, i, buffers);
    }
    choice
}
