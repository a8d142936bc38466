//! The segments of an interval in each of several copies.

ghost use Rattle.std.specs.Prelude.{◌+◌, ◌<◌, All, IfOk};
ghost use Rattle.std.specs.List.{AllZip};
ghost use Rattle.jr_damage.specs.Coded.{IsNextAt, IsSegmentOf};
ghost use Rattle.jr_scan.specs.ScanValue.{intervals_of};

use crate::file_copy::FileCopy;
use jr_base::Memory;
use jr_cut::{CodedSpan, FileSegment, segment_at};
use std::alloc::Global;

/// Returns the segment before interval 0 of a copy: it has no bytes.
fn start_of(copy: &FileCopy) -> FileSegment
    ensures { IsNextAt copy.now.file copy.now.scan 0 result.next }
{
    let at = copy.head().scan_at() as usize;
    FileSegment {
        bytes: CodedSpan { start: at, end: at },
        next: at,
    }
}

/// Returns the segments before interval 0.
pub(crate) fn starts_of(alloc: Global, copies: &[FileCopy]) -> Result<Vec<FileSegment>, Memory>
    ensures { IfOk result (λ segments. AllZip (λ c s. IsNextAt c.file c.scan 0 s.next) copies.now segments.items) }
{
    let mut segments = Vec::new(alloc);
    for k in 0..copies.len() {
        segments.push(start_of(&copies[k]))?;
    }
    Ok(segments)
}

/// Returns the segment of interval i in a copy, which begins at `at`.
fn segment_in(copy: &FileCopy, at: usize, i: u32) -> FileSegment
    requires there { i < intervals_of copy.now.scan.head }
    requires at { IsNextAt copy.now.file copy.now.scan i at }
    ensures segment { IsSegmentOf copy.now.file copy.now.scan i result.bytes }
    ensures next { IsNextAt copy.now.file copy.now.scan (i + 1) result.next }
{
    let count = copy.head().intervals();
    segment_at(copy.file(), at, i, count)
}

/// Moves from the segments before interval i to its segments.
pub(crate) fn advance(copies: &[FileCopy], segments: &mut [FileSegment], i: u32)
    requires there { All (λ c. i < intervals_of c.scan.head) copies.now }
    requires at { AllZip (λ c s. IsNextAt c.file c.scan i s.next) copies.now segments.old }
    ensures segments { AllZip (λ c s. IsSegmentOf c.file c.scan i s.bytes) copies.now segments.new }
    ensures next { AllZip (λ c s. IsNextAt c.file c.scan (i + 1) s.next) copies.now segments.new }
{
    for k in 0..copies.len() {
        segments[k] = segment_in(&copies[k], segments[k].next, i);
    }
}
