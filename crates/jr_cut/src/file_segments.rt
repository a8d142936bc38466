//! The positions of the coded bytes of a scan's segments in its file.

ghost use Rattle.std.specs.Prelude.{◌≡◌, ◌<◌, ◌≤◌, ◌+◌, ◌-◌, ◌⊎◌, ℕ, List, length, drop, take};
ghost use Rattle.std.specs.Vec.{vec_capacity};
ghost use Rattle.jr_cut.specs.declared.scan_end.ScanEnd.{ScanEnd};
ghost use Rattle.jr_cut.specs.Coded.{EndsAfter, GoesOnAfter, IsNextSegment, IsSegment, IsSpelledAt};
ghost use Rattle.jr_cut.specs.Cut.{IsStop};

use crate::front::segment_length;
use crate::into_buffer::unstuff_segment;
use crate::stop::{Stop, stop_at};
use jr_base::marker::fill_count;

/// The bytes of a file from one offset up to another: those that code an interval, with their stuffing and without the
/// markers before and after them.
#[derive(Clone, Copy)]
pub struct CodedSpan {
    pub start: usize,
    pub end: usize,
}

/// The bytes that code an interval, and where those of the next one begin.
#[derive(Clone, Copy)]
pub struct FileSegment {
    pub bytes: CodedSpan,
    /// Offset after the restart marker that is due, or the length of the file if the scan ends before it.
    pub next: usize,
}

/// Returns where the segment after segment k begins, which ends at offset `end`.
fn next_at(file: &[u8], end: usize, k: u32, intervals: u32) -> usize
    requires there { end ≤ length file.now }
    requires few { k < intervals }
    requires stop { IsStop (drop end file.now) }
    ensures order { end ≤ result }
    ensures within { result ≤ length file.now }
    ensures next { GoesOnAfter file.now intervals k end result ⊎ EndsAfter file.now intervals k end result }
{
    let tail = &file[end..];
    let fill = fill_count(tail);
    match stop_at(tail, fill, end as u64, k, intervals) {
        Stop::Restart(marker) => end + marker,
        Stop::End(_) => file.len(),
    }
}

/// Returns the segment of interval k, which begins at offset `at` of the file. Reads its bytes and the marker after them
/// alone.
pub fn segment_at(file: &[u8], at: usize, k: u32, intervals: u32) -> FileSegment
    requires there { at ≤ length file.now }
    requires few { k < intervals }
    ensures start { result.bytes.start ≡ at }
    ensures spelled { (bytes : List ℕ) × IsSpelledAt file.now result.bytes bytes }
    ensures order { result.bytes.end ≤ result.next }
    ensures within { result.next ≤ length file.now }
    ensures bytes { (n : ℕ) (datas : List (List ℕ)) (ended : ScanEnd) → n ≡ intervals
        → IsNextSegment file.now n datas ended k at → IsSegment file.now n datas ended k result.bytes }
    ensures next { (n : ℕ) (datas : List (List ℕ)) (ended : ScanEnd) → n ≡ intervals
        → IsNextSegment file.now n datas ended k at → IsNextSegment file.now n datas ended (k + 1) result.next }
{
    let end = at + segment_length(&file[at..]);
    FileSegment {
        bytes: CodedSpan { start: at, end },
        next: next_at(file, end, k, intervals),
    }
}

/// Writes the data of the segment at `span` into the first bytes of `buffer`, whose capacity suffices, and returns their
/// number.
pub fn unstuff_at(file: &[u8], span: CodedSpan, buffer: &mut Vec<u8>) -> usize
    requires spelled { (bytes : List ℕ) × IsSpelledAt file.now span bytes }
    requires capacity { length file.now - span.start < vec_capacity buffer.old }
    ensures data { (bytes : List ℕ) → IsSpelledAt file.now span bytes → take result buffer.new.items ≡ bytes }
    ensures few { result ≤ length file.now }
    ensures within { result ≤ length buffer.new.items }
    ensures capacity { vec_capacity buffer.old ≤ vec_capacity buffer.new }
{
    unstuff_segment(&file[span.start..span.end], buffer)
}
