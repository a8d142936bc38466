//! The damaged intervals of a file in memory, or of the bytes of it that have arrived: their lines, and where their bytes are.

ghost use Rattle.std.specs.Prelude.{◌≡◌, ◌≢◌, ℕ, ◌+◌, ◌-◌, ◌<◌, ◌≤◌, ◌^◌, ◌⊎◌, List, length, drop, max, min, slice_index_or, [], false, IfOk, IfErr, IfSome, IfNone};
ghost use Rattle.std.specs.Vec.{vec_capacity};
ghost use Rattle.jr_arrival.specs.Arrival.{CanBecome};
ghost use Rattle.jr_arrival.specs.Settled.{WantsMore};
ghost use Rattle.jr_base.specs.declared.limits.TheConstants.{MAX_FILE_BYTES};
ghost use Rattle.jr_cut.specs.Coded.{IsSpelledAt};
ghost use Rattle.jr_damage.specs.Coded.{IsNextAt, IsSegmentOf};
ghost use Rattle.jr_damage.specs.Map.{IsDamageOf};
ghost use Rattle.jr_head.specs.Heads.{HeadOf};
ghost use Rattle.jr_head.specs.Intervals.{intervals_of};
ghost use Rattle.jr_scan.specs.Mcus.{HasDecoding};
ghost use Rattle.jr_scan.specs.ScanValue.{ScanValue, interval_of};
ghost use Rattle.jr_segments.specs.declared.refusal.Refusal.TheVariants as refusal;
ghost use Rattle.jri_memory.specs.Calls.{ReportsFault, detail_number};
ghost use Rattle.jri_memory.specs.Damages.{AreDamages, ListsInEach, IsDamageEntry, ReportsNoDamage};
ghost use Rattle.jri_memory.specs.FinalSegments.{HasNoMarkerFrom, IsFileOf, IsFinalSegment, end_of};
ghost use Rattle.jri_memory.specs.Rows.{IsPartialFault, are_all};
ghost use Rattle.jr_segments.specs.Refusal.{number_of};

use crate::file_head::head_of;
use crate::final_segment::{end_of, final_segment};
use crate::status::{DAMAGED, NEED_MORE, SOUND};
use crate::{detail, status_of};
use jr_arrival::FileBytes;
use jr_cut::{CodedSpan, FileSegment, unstuff_at};
use jr_damage::{DamagedInterval, damaged_interval};
use jr_head::Head;
use jr_scan::IntervalRef;
use jr_segments::Refusal;
use std::alloc::Global;

/// An interval that has no decoding, as numbers.
#[repr(C)]
#[derive(Clone, Copy, PartialEq, Eq)]
pub struct Damage {
    /// Its number in the scan, from 0.
    pub interval: u32,
    /// The first of its MCUs, by its number in the scan, and the number of its MCUs.
    pub first_mcu: u32,
    pub mcus: u32,
    /// Number of its first MCUs that can be decoded.
    pub decodable: u32,
    /// The first and the last line of the image that its MCUs cover.
    pub first_line: u32,
    pub last_line: u32,
    /// Its bytes in the file, starting at this offset and ending before that one; both 0 if it has none.
    pub start: u64,
    pub end: u64,
}

/// The report of a list of damaged intervals.
#[repr(C)]
#[derive(Clone, Copy, PartialEq, Eq)]
pub struct DamageReport {
    /// The number of entries.
    pub count: u32,
    /// The interval after those that were examined: the number of all if none is left.
    pub next: u32,
    /// Offset of that interval's first byte. If the scan ends before it: the length of the file, or the maximum length if
    /// more of it may come.
    pub next_at: u64,
    /// The number of the refusal and its detail; 0 if there is none.
    pub refusal: u32,
    pub detail: u64,
}

impl DamageReport {
    /// Returns the report whose numbers are all 0.
    const fn empty() -> DamageReport
        ensures nothing { ReportsNoDamage result }
        ensures no_refusal { (result.refusal ≡ 0) × (result.detail ≡ 0) }
    {
        DamageReport {
            count: 0,
            next: 0,
            next_at: 0,
            refusal: 0,
            detail: 0,
        }
    }

    /// Returns the report of a refusal.
    fn refused(refusal: Refusal) -> DamageReport
        ensures nothing { ReportsNoDamage result }
        ensures number { result.refusal ≡ number_of refusal }
        ensures detail { result.detail ≡ detail_number refusal }
    {
        DamageReport {
            refusal: u32::from(refusal.number()),
            detail: detail(refusal),
            ..DamageReport::empty()
        }
    }
}

impl Damage {
    /// Returns a damaged interval as numbers.
    fn of(damaged: &DamagedInterval) -> Damage
        ensures { IsDamageEntry damaged.now result }
    {
        let (start, end) = match damaged.bytes {
            Some(span) => (span.start as u64, span.end as u64),
            None => (0, 0),
        };
        Damage {
            interval: damaged.number,
            first_mcu: damaged.mcus.first,
            mcus: damaged.mcus.count,
            decodable: damaged.decodable,
            first_line: damaged.lines.first,
            last_line: damaged.lines.last,
            start,
            end,
        }
    }
}

/// How far a list has come: the number of its entries, the interval that is next, and the offset at which its bytes begin.
#[derive(Clone, Copy)]
struct ListPosition {
    pub count: u32,
    pub next: u32,
    pub at: usize,
}

/// Returns what is damaged of interval i, whose segment is at `span`. The segment's data are written into `buffer`, whose capacity
/// suffices.
fn examine(
    head: &Head,
    file: &[u8],
    span: CodedSpan,
    i: u32,
    buffer: &mut Vec<u8>,
) -> Option<DamagedInterval>
    requires there { i < intervals_of head.now }
    requires small { length file.now < 2 ^ 61 }
    requires spelled { (bytes : List ℕ) × IsSpelledAt file.now span bytes }
    requires capacity { length file.now - span.start < vec_capacity buffer.old }
    ensures sound { (s : ScanValue) → s.head ≡ head.now → IsSpelledAt file.now span (slice_index_or s.intervals i []) → IfNone result (HasDecoding (interval_of s i)) }
    ensures damaged { (s : ScanValue) → s.head ≡ head.now → IsSpelledAt file.now span (slice_index_or s.intervals i []) → IfSome result (λ d. IsDamageOf (interval_of s i) span d) }
    ensures capacity { vec_capacity buffer.old ≤ vec_capacity buffer.new }
{
    let found = unstuff_at(file, span, buffer);
    let interval = IntervalRef::of(head, &buffer[..found], i, head.mcus_in(i));
    damaged_interval(interval, span)
}

/// Writes what is damaged of interval i, if it is, after the first entries of a list, and returns their number then.
fn store(damaged: Option<DamagedInterval>, damages: &mut [Damage], count: u32) -> u32
    requires space { count < length damages.old }
    requires few { count + 1 < 2 ^ 32 }
    ensures long { length damages.new ≡ length damages.old }
    ensures more { count ≤ result }
    ensures one { result ≤ count + 1 }
    ensures listed { (file : List ℕ) (s : ScanValue) (span : CodedSpan) (first i : ℕ) → IfNone damaged (HasDecoding (interval_of s i)) → IfSome damaged (λ d. IsDamageOf (interval_of s i) span d) → IsSegmentOf file s i span
        → AreDamages file s first i count damages.old → AreDamages file s first (i + 1) result damages.new }
    ensures after { drop result damages.new ≡ drop result damages.old }
{
    match damaged {
        Some(damaged) => {
            damages[count as usize] = Damage::of(&damaged);
            count + 1
        }
        None => count,
    }
}

/// Examines the next interval, whose segment this is, and lists it if it is damaged.
fn list_one(
    head: &Head,
    file: &[u8],
    segment: FileSegment,
    before: ListPosition,
    buffer: &mut Vec<u8>,
    damages: &mut [Damage],
) -> ListPosition
    requires there { before.next < intervals_of head.now }
    requires small { length file.now < 2 ^ 61 }
    requires spelled { (bytes : List ℕ) × IsSpelledAt file.now segment.bytes bytes }
    requires space { before.count < length damages.old }
    requires few { before.count ≤ before.next }
    requires capacity { length file.now - segment.bytes.start < vec_capacity buffer.old }
    ensures next { result.next ≡ before.next + 1 }
    ensures at { result.at ≡ segment.next }
    ensures long { length damages.new ≡ length damages.old }
    ensures more { before.count ≤ result.count }
    ensures one { result.count ≤ before.count + 1 }
    ensures listed { (whole : List ℕ) (s : ScanValue) (first : ℕ) → s.head ≡ head.now → IsFinalSegment file.now whole s before.next segment
        → AreDamages whole s first before.next before.count damages.old → AreDamages whole s first (before.next + 1) result.count damages.new }
    ensures after { drop result.count damages.new ≡ drop result.count damages.old }
    ensures capacity { vec_capacity buffer.old ≤ vec_capacity buffer.new }
{
    // By its contract the numbers of all intervals fit.
    let _all = head.intervals();
    let damaged = examine(head, file, segment.bytes, before.next, buffer);
    ListPosition {
        count: store(damaged, damages, before.count),
        next: before.next + 1,
        at: segment.next,
    }
}

/// Lists the damaged intervals starting at a position, at most `damages.len()`, as far as the bytes make them final.
fn list(
    head: &Head,
    file: FileBytes<'_>,
    from: ListPosition,
    buffer: &mut Vec<u8>,
    damages: &mut [Damage],
) -> ListPosition
    requires none { from.count ≡ 0 }
    requires there { from.next ≤ intervals_of head.now }
    requires at { from.at ≤ end_of file.are_all file.bytes.now }
    requires small { length file.bytes.now ≤ MAX_FILE_BYTES }
    requires capacity { length file.bytes.now - from.at < vec_capacity buffer.old }
    ensures listed { (whole : List ℕ) (s : ScanValue) → IsFileOf file.entry.bytes.now file.entry.are_all whole → s.head ≡ head.now
        → IsNextAt whole s from.next (min from.at (length whole)) → AreDamages whole s from.next result.next result.count damages.new }
    ensures position { (whole : List ℕ) (s : ScanValue) → IsFileOf file.entry.bytes.now file.entry.are_all whole → s.head ≡ head.now
        → IsNextAt whole s from.next (min from.at (length whole)) → IsNextAt whole s result.next (min result.at (length whole)) }
    ensures within { result.next ≤ intervals_of head.now }
    ensures at { from.at ≤ result.at }
    ensures offset { result.at ≤ end_of file.entry.are_all file.entry.bytes.now }
    ensures stops { result.next < intervals_of head.now → (result.count ≡ length damages.old) ⊎ ((file.entry.are_all ≡ false) × HasNoMarkerFrom file.entry.bytes.now result.at) }
    ensures long { length damages.new ≡ length damages.old }
    ensures after { drop result.count damages.new ≡ drop result.count damages.old }
{
    let all = head.intervals();
    let mut progress = from;
    'intervals: while progress.next < all && (progress.count as usize) < damages.len() {
        let Some(segment) = final_segment(file, progress.at, progress.next, all) else {
            return progress;
        };
        progress = list_one(head, file.bytes, segment, progress, buffer, damages);
    }
    progress
}

/// Returns where a list starts: at the end of the file if the offset is past it.
fn start_of(head: &Head, file: FileBytes<'_>, first: u32, first_at: u64) -> ListPosition
    requires small { length file.bytes.now ≤ MAX_FILE_BYTES }
    ensures none { result.count ≡ 0 }
    ensures next { result.next ≡ min first (intervals_of head.now) }
    ensures at { result.at ≡ min (max first_at head.now.scan_at) (end_of file.entry.are_all file.entry.bytes.now) }
{
    let at = first_at.max(head.scan_at());
    ListPosition {
        count: 0,
        next: first.min(head.intervals()),
        at: at.min(end_of(file) as u64) as usize,
    }
}

/// Lists the damaged intervals of a file with this header starting at a position, at most `damages.len()`, as far as the
/// bytes make them final. Reads the bytes of the intervals examined.
fn list_from(
    alloc: Global,
    head: &Head,
    file: &[u8],
    more: u32,
    first: u32,
    first_at: u64,
    damages: &mut [Damage],
) -> Result<DamageReport, Refusal>
    requires { HeadOf file.now head.now }
    ensures listed { IfOk result (ListsInEach file.now (are_all more) first first_at damages.old damages.new) }
    ensures memory { IfErr result (λ f. f ≡ refusal.Memory) }
    ensures kept { IfErr result (λ _. damages.new ≡ damages.old) }
{
    let bytes = FileBytes {
        from: 0,
        bytes: file,
        are_all: more == 0,
    };
    // By its contract there is an interval.
    let _some = head.intervals();
    let from = start_of(head, bytes, first, first_at);
    // No segment is longer than what is left of the bytes. The pages that none of those examined needs are not touched.
    let Ok(mut buffer) = Vec::with_capacity(alloc, file.len().saturating_sub(from.at) + 1) else {
        return Err(Refusal::Memory);
    };
    let listed = list(head, bytes, from, &mut buffer, damages);
    Ok(DamageReport {
        count: listed.count,
        next: listed.next,
        next_at: listed.at as u64,
        ..DamageReport::empty()
    })
}

/// Lists the damaged intervals of a file starting at a position, or returns `None` if more bytes may come and are wanted
/// for its header.
fn list_of_file(
    alloc: Global,
    file: &[u8],
    more: u32,
    first: u32,
    first_at: u64,
    damages: &mut [Damage],
) -> Result<Option<DamageReport>, Refusal>
    ensures listed { IfOk result (λ o. IfSome o (ListsInEach file.now (are_all more) first first_at damages.old damages.new)) }
    ensures wanted { IfOk result (λ o. IfNone o (WantsMore file.now)) }
    ensures more { IfOk result (λ o. IfNone o (are_all more ≡ false)) }
    ensures refused { IfErr result (λ f. f ≢ refusal.Memory → IsPartialFault file.now (are_all more) f) }
    ensures kept { IfErr result (λ _. damages.new ≡ damages.old) }
    ensures kept_for_more { IfOk result (λ o. IfNone o (damages.new ≡ damages.old)) }
{
    let bytes = FileBytes {
        from: 0,
        bytes: file,
        are_all: more == 0,
    };
    match head_of(alloc, bytes)? {
        Some(head) => {
            let listed = list_from(alloc, &head, file, more, first, first_at, damages)?;
            Ok(Some(listed))
        }
        None => Ok(None),
    }
}

/// Lists the damaged intervals of a file starting at interval `first`, whose bytes begin at offset `first_at`, in their
/// order, at most `damages.len()`. If more of the file may come (`more` is not 0), it lists those that the bytes make
/// final, which a marker follows. 0 and 0 are the first interval. Returns 3, or 0 if none is listed, and `next` and
/// `next_at` of the report say where to continue; what is listed is damage of every file that begins with these bytes.
/// With 1 if allocation fails, 2 if the file is refused, and 7 if more bytes are wanted for its header, `damages` is
/// unchanged.
pub fn list_damages(
    alloc: Global,
    file: &[u8],
    more: u32,
    first: u32,
    first_at: u64,
    damages: &mut [Damage],
    report: &mut DamageReport,
) -> u32
    ensures none_left { result ≡ 0 → ListsInEach file.now (are_all more) first first_at damages.old damages.new report.new }
    ensures some_listed { result ≡ 3 → ListsInEach file.now (are_all more) first first_at damages.old damages.new report.new }
    ensures none { result ≡ 0 → report.new.count ≡ 0 }
    ensures some { result ≡ 3 → 0 < report.new.count }
    ensures refused { result ≡ 2 → ReportsFault file.now report.new.refusal report.new.detail }
    ensures refused_for_good { result ≡ 2 → are_all more ≡ false → (whole : List ℕ) → CanBecome file.now whole → ReportsFault whole report.new.refusal report.new.detail }
    ensures memory { result ≡ 1 → report.new.refusal ≡ 19 }
    ensures wanted { result ≡ 7 → WantsMore file.now }
    ensures partial { result ≡ 7 → are_all more ≡ false }
    ensures no_refusal { result ≡ 7 → (report.new.refusal ≡ 0) × (report.new.detail ≡ 0) }
    ensures nothing { result ≢ 0 → result ≢ 3 → ReportsNoDamage report.new }
    ensures kept { result ≢ 0 → result ≢ 3 → damages.new ≡ damages.old }
    ensures few { result ≢ 7 → result ≤ 3 }
{
    match list_of_file(alloc, file, more, first, first_at, damages) {
        Ok(Some(listed)) => {
            *report = listed;
            if listed.count == 0 { SOUND } else { DAMAGED }
        }
        Ok(None) => {
            *report = DamageReport::empty();
            NEED_MORE
        }
        Err(refusal) => {
            *report = DamageReport::refused(refusal);
            status_of(refusal)
        }
    }
}
