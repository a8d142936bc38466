//! The segments of a scan that the bytes so far of its file make final (T.81, B.1.1.5): each of a file that has arrived;
//! otherwise those that a marker follows.

ghost use Rattle.std.specs.Prelude.{◌≡◌, ◌≢◌, ◌<◌, ◌≤◌, ◌-◌, ◌⊎◌, ℕ, List, length, drop, min, replicate, true, false, IfSome, IfNone};
ghost use Rattle.jr_base.specs.declared.limits.TheConstants.{MAX_FILE_BYTES};
ghost use Rattle.jr_base.specs.declared.marker.TheConstants.{PREFIX};
ghost use Rattle.jr_cut.specs.declared.scan_end.ScanEnd.TheVariants.{EndOfFile};
ghost use Rattle.jr_cut.specs.Coded.{EndsAfter, GoesOnAfter, IsSpelledAt};
ghost use Rattle.jr_cut.specs.Cut.{IsStop};
ghost use Rattle.jr_damage.specs.Coded.{IsNextAt};
ghost use Rattle.jr_scan.specs.ScanValue.{ScanValue, intervals_of};
ghost use Rattle.jri_memory.specs.FinalSegments.{HasNoMarkerFrom, IsFileOf, IsFinalSegment, end_of};

use jr_arrival::FileBytes;
use jr_base::limits::MAX_FILE_BYTES;
use jr_base::marker::fill_count;
use jr_cut::{CodedSpan, FileSegment, ScanEnd, Stop, segment_length, stop_at};

/// Returns the offset that no byte of the file has: its length, or the maximum length if more of it may come.
pub(crate) fn end_of(file: FileBytes<'_>) -> usize
    ensures { result ≡ end_of file.entry.are_all file.entry.bytes.now }
{
    if file.are_all {
        file.bytes.len()
    } else {
        MAX_FILE_BYTES
    }
}

/// Returns whether what ends the scan of the bytes so far ends that of each file that begins with them.
fn is_final(ended: ScanEnd, are_all: bool) -> bool
    ensures ends { result ≡ true → (are_all ≡ true) ⊎ (ended ≢ EndOfFile) }
    ensures more { result ≡ false → are_all ≡ false }
    ensures waits { result ≡ false → ended ≡ EndOfFile }
{
    match ended {
        ScanEnd::EndOfFile => are_all,
        ScanEnd::EndOfImage
        | ScanEnd::OtherMarker(..)
        | ScanEnd::OutOfStep { .. }
        | ScanEnd::ExtraRestart(..) => true,
    }
}

/// Returns where the segment after segment k begins, which ends at offset `end`: at the end of the file if the scan
/// ends there. Returns `None` if bytes that may come decide it.
fn next_at(file: FileBytes<'_>, end: usize, k: u32, intervals: u32) -> Option<usize>
    requires there { end ≤ length file.bytes.now }
    requires small { length file.bytes.now ≤ MAX_FILE_BYTES }
    requires few { k < intervals }
    requires stop { IsStop (drop end file.bytes.now) }
    ensures order { IfSome result (λ next. end ≤ next) }
    ensures within { IfSome result (λ next. next ≤ end_of file.entry.are_all file.entry.bytes.now) }
    ensures next { IfSome result (λ next. (whole : List ℕ) → IsFileOf file.entry.bytes.now file.entry.are_all whole
        → GoesOnAfter whole intervals k end (min next (length whole)) ⊎ EndsAfter whole intervals k end (min next (length whole))) }
    ensures more { IfNone result (file.entry.are_all ≡ false) }
    ensures waits { IfNone result ((fill : ℕ) × (drop end file.entry.bytes.now ≡ replicate fill PREFIX)) }
{
    let tail = &file.bytes[end..];
    let fill = fill_count(tail);
    match stop_at(tail, fill, end as u64, k, intervals) {
        Stop::Restart(marker) => Some(end + marker),
        Stop::End(ended) if is_final(ended, file.are_all) => Some(end_of(file)),
        Stop::End(_) => None,
    }
}

/// Returns the segment of interval k, which begins at offset `at` of the file, and where the next one begins: at the end
/// of the file if the scan ends before it. Returns `None` if bytes that may come could change it.
pub(crate) fn final_segment(
    file: FileBytes<'_>,
    at: usize,
    k: u32,
    intervals: u32,
) -> Option<FileSegment>
    requires small { length file.bytes.now ≤ MAX_FILE_BYTES }
    requires few { k < intervals }
    ensures spelled { IfSome result (λ g. (found : List ℕ) × IsSpelledAt file.entry.bytes.now g.bytes found) }
    ensures start { IfSome result (λ g. length file.entry.bytes.now - g.bytes.start ≤ length file.entry.bytes.now - at) }
    ensures order { IfSome result (λ g. at ≤ end_of file.entry.are_all file.entry.bytes.now → at ≤ g.next) }
    ensures within { IfSome result (λ g. g.next ≤ end_of file.entry.are_all file.entry.bytes.now) }
    ensures is { IfSome result (λ g. (whole : List ℕ) (s : ScanValue) → IsFileOf file.entry.bytes.now file.entry.are_all whole → intervals ≡ intervals_of s.head
        → IsNextAt whole s k (min at (length whole)) → IsFinalSegment file.entry.bytes.now whole s k g) }
    ensures more { IfNone result (file.entry.are_all ≡ false) }
    ensures waits { IfNone result (HasNoMarkerFrom file.entry.bytes.now at) }
{
    let (all, length) = (end_of(file), file.bytes.len());
    if at >= all {
        let bytes = CodedSpan {
            start: length,
            end: length,
        };
        return Some(FileSegment { bytes, next: all });
    }
    if at > length {
        return None;
    }
    let end = at + segment_length(&file.bytes[at..]);
    let next = next_at(file, end, k, intervals)?;
    let bytes = CodedSpan { start: at, end };
    Some(FileSegment { bytes, next })
}
