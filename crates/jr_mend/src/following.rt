//! What follows the bytes of an interval in a scan that may be damaged.

ghost use Rattle.std.specs.Prelude.{◌≡◌, ◌≢◌, ℕ, ◌+◌, ◌<◌, ◌≤◌, IfErr, IfOk, List, length, replicate, slice_index_or, take};
ghost use Rattle.jr_base.specs.declared.limits.TheConstants.{MAX_FILE_BYTES};
ghost use Rattle.jr_base.specs.declared.marker.TheConstants.{EOI, PREFIX};
ghost use Rattle.jr_cut.specs.Cut.{HasMarker, IsStop};
ghost use Rattle.jr_mend.specs.Markers.{most_missing, scan_markers};
ghost use Rattle.jr_mend.specs.Reading.{IsOutlook, Meets};
ghost use Rattle.jr_mend.specs.Resync.{EndsResync, IsMeaning};

use crate::markers::{is_continued, is_restart};
use crate::outlook::Outlook;
use jr_base::marker::{EOI, RST0, RST7, fill_count};
use jr_cut::ScanEnd;

/// A marker after the bytes of an interval.
#[derive(Clone, Copy)]
pub(crate) struct FoundMarker {
    pub code: u8,
    /// The number of its bytes, with fill.
    pub length: usize,
    /// The number of restart markers that are missing before it; `None` if it is passed over.
    pub missing: Option<u32>,
}

/// Returns how many restart markers are missing before a marker after interval k, which is not the last, if at most
/// `limit` are; `None` if it is passed over.
fn missing_before(code: u8, k: u32, intervals: u32, limit: u64) -> Option<u32>
    requires further { k + 1 < intervals }
    requires not_stuffing { code ≢ 0 }
    requires not_fill { code ≢ PREFIX }
    requires not_end { code ≢ EOI }
    ensures { IsMeaning intervals k limit code result }
{
    if code < RST0 || code > RST7 {
        return None;
    }
    let ahead = (((code - RST0) as u32 + 8 - k % 8) % 8) as u64;
    if ahead == 0 {
        return Some(0);
    }
    if ahead > limit {
        return None;
    }
    let missing = ahead + (limit - ahead) / 8 * 8;
    if missing >= (intervals - k - 1) as u64 {
        return None;
    }
    Some(missing as u32)
}

/// Returns how many restart markers are missing before the marker at the start of `tail`, whose code is after `fill` bytes;
/// `None` if it is passed over.
fn missing_in(
    tail: &[u8],
    fill: usize,
    k: u32,
    intervals: u32,
    since: usize,
    outlook: Outlook,
) -> Option<u32>
    requires further { k + 1 < intervals }
    requires within { fill < length tail.now }
    requires full { take fill tail.now ≡ replicate fill PREFIX }
    requires stop { IsStop tail.now }
    requires not_fill { slice_index_or tail.now fill 0 ≢ PREFIX }
    requires not_end { slice_index_or tail.now fill 0 ≢ EOI }
    requires few { since ≤ MAX_FILE_BYTES }
    requires known { IsOutlook intervals (scan_markers intervals tail.now) outlook }
    ensures { IsMeaning intervals k (most_missing intervals outlook.size since k (scan_markers intervals tail.now)) (slice_index_or tail.now fill 0) result }
{
    let code = tail[fill];
    if !is_restart(code) || (code - RST0) as u32 == k % 8 {
        return missing_before(code, k, intervals, 0);
    }
    let limit = outlook.most_missing(&tail[fill + 1..], code, k, intervals, since);
    missing_before(code, k, intervals, limit)
}

/// Returns what a marker after the last interval ends the scan with.
fn end_after_last(code: u8, at: u64) -> ScanEnd
    requires not_stuffing { code ≢ 0 }
    requires not_fill { code ≢ PREFIX }
    ensures { (n k : ℕ) (tail : List ℕ) → k + 1 ≡ n → HasMarker tail code → EndsResync n k at tail result }
{
    if code == EOI {
        return ScanEnd::EndOfImage;
    }
    if code >= RST0 && code <= RST7 {
        return ScanEnd::ExtraRestart(at);
    }
    ScanEnd::OtherMarker(code, at)
}

/// Returns the marker after which the scan continues, or as `Err` what ends it, after interval k, at an offset of the file. The
/// marker of interval k is `since` bytes before it.
pub(crate) fn following_at(
    tail: &[u8],
    at: u64,
    k: u32,
    intervals: u32,
    since: usize,
    outlook: Outlook,
) -> Result<FoundMarker, ScanEnd>
    requires few { k < intervals }
    requires stop { IsStop tail.now }
    requires short { since ≤ MAX_FILE_BYTES }
    requires known { IsOutlook intervals (scan_markers intervals tail.now) outlook }
    ensures marker { IfOk result (λ m. Meets intervals outlook.size since k tail.now m) }
    ensures end { IfErr result (λ end. EndsResync intervals k at tail.now end) }
{
    let fill = fill_count(tail);
    if fill == tail.len() {
        return Err(ScanEnd::EndOfFile);
    }
    let code = tail[fill];
    if k + 1 == intervals {
        return Err(end_after_last(code, at));
    }
    if code != EOI {
        return Ok(FoundMarker {
            code,
            length: fill + 1,
            missing: missing_in(tail, fill, k, intervals, since, outlook),
        });
    }
    if !is_continued(tail, intervals) {
        return Err(ScanEnd::EndOfImage);
    }
    Ok(FoundMarker {
        code,
        length: fill + 1,
        missing: None,
    })
}
