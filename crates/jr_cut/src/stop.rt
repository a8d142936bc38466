//! What follows a segment.

ghost use Rattle.std.specs.Prelude.{◌≡◌, ◌≢◌, ℕ, ◌+◌, ◌%◌, ◌<◌, ◌≤◌, List, length, take, replicate, slice_index, IfSome, IfNone};
ghost use Rattle.jr_base.specs.declared.marker.TheConstants.{PREFIX, RST0};
ghost use Rattle.jr_cut.specs.Cut.{HasMarker, IsEnding, IsStop};
ghost use Rattle.jr_cut.specs.PartialSegments.{IsStopOf};

use crate::scan_end::ScanEnd;
use jr_base::marker::{EOI, RST0, RST7};

/// The meaning of the bytes after a segment.
#[derive(Clone, Copy)]
pub enum Stop {
    /// The next segment follows a restart marker of that many bytes.
    Restart(usize),
    /// The scan ends there, so far as bytes have come.
    End(ScanEnd),
}

/// Returns what a marker after segment k means: that the scan ends there, or, with `None`, that the next segment
/// follows.
fn end_at(code: u8, at: u64, k: u32, intervals: u32) -> Option<ScanEnd>
    requires few { k < intervals }
    requires not_stuffing { code ≢ 0 }
    requires not_fill { code ≢ PREFIX }
    ensures ended { IfSome result (λ end. (tail : List ℕ) → HasMarker tail code → IsEnding intervals k at tail end) }
    ensures number { IfNone result (code ≡ RST0 + k % 8) }
    ensures more { IfNone result (k + 1 < intervals) }
{
    if code == EOI {
        return Some(ScanEnd::EndOfImage);
    }
    if code < RST0 || code > RST7 {
        return Some(ScanEnd::OtherMarker(code, at));
    }
    if k + 1 == intervals {
        return Some(ScanEnd::ExtraRestart(at));
    }
    let found = code - RST0;
    let expected = (k % 8) as u8;
    if found != expected {
        return Some(ScanEnd::OutOfStep {
            found,
            expected,
            at,
        });
    }
    None
}

/// Returns what follows segment k, at an offset of the file: `fill` FF bytes, and further ones.
pub fn stop_at(tail: &[u8], fill: usize, at: u64, k: u32, intervals: u32) -> Stop
    requires few { k < intervals }
    requires stop { IsStop tail.now }
    requires within { fill ≤ length tail.now }
    requires full { take fill tail.now ≡ replicate fill PREFIX }
    requires next { fill < length tail.now → slice_index tail.now fill ≢ PREFIX }
    ensures { IsStopOf intervals k at tail.now result }
{
    if fill == tail.len() {
        return Stop::End(ScanEnd::EndOfFile);
    }
    match end_at(tail[fill], at, k, intervals) {
        Some(ended) => Stop::End(ended),
        None => Stop::Restart(fill + 1),
    }
}
