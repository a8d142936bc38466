//! The markers of a scan that may be damaged, one after the other.

ghost use Rattle.std.specs.Prelude.{◌≡◌, ◌+◌, ◌≤◌, ◌∷◌, [], ◌↔◌, drop, length, IfSome, IfNone, IsTrue, nat_lt, not};
ghost use Rattle.jr_mend.specs.Markers.{continues, count_up, goes_on, is_next, is_over, is_restart, markers_in, restarts, scan_markers};

use jr_base::marker::{EOI, RST0, RST7, SOI, fill_count};
use jr_cut::segment_length;

/// TEM (T.81, table B.1), as which an EOI is read after which the scan continues.
pub const TEM: u8 = 0x01;

/// Maximum number of other markers between such an EOI and three restart markers that count up. A sector of 512 random bytes
/// has two markers on average.
pub const MAX_STRAY: u32 = 8;

/// A marker of a scan.
#[derive(Clone, Copy)]
pub(crate) struct ScanMarker {
    /// The number of bytes between the marker before it and its last FF.
    pub before: usize,
    pub code: u8,
}

/// Returns whether a code is that of a restart marker.
pub(crate) fn is_restart(code: u8) -> bool
    ensures { result ≡ is_restart code }
{
    RST0 <= code && code <= RST7
}

/// Returns the first marker in bytes.
pub(crate) fn first_marker(bytes: &[u8]) -> Option<ScanMarker>
    ensures within { IfSome result (λ m. m.before + 2 ≤ length bytes.now) }
    ensures first { IfSome result (λ m. markers_in 0 bytes.now ≡ m ∷ markers_in 0 (drop (m.before + 2) bytes.now)) }
    ensures none { IfNone result (markers_in 0 bytes.now ≡ []) }
{
    let at = segment_length(bytes);
    let fill = fill_count(&bytes[at..]);
    if at + fill >= bytes.len() {
        return None;
    }
    Some(ScanMarker {
        before: at + fill - 1,
        code: bytes[at + fill],
    })
}

/// Returns whether the second code is that of the restart marker after the first.
fn is_next(code: u8, next: u8) -> bool
    ensures { result ≡ is_next code next }
{
    is_restart(code) && next == RST0 + (code - RST0 + 1) % 8
}

/// Returns whether the first three markers in bytes are restart markers that count up.
#[tactic(auto, unfolding(crate::specs::Markers::count_up))]
fn count_up(bytes: &[u8]) -> bool
    ensures { result ≡ count_up (markers_in 0 bytes.now) }
{
    let Some(first) = first_marker(bytes) else {
        return false;
    };
    let (_, rest) = bytes.split_at(first.before + 2);
    let Some(second) = first_marker(rest) else {
        return false;
    };
    let (_, rest) = rest.split_at(second.before + 2);
    let Some(third) = first_marker(rest) else {
        return false;
    };
    is_next(first.code, second.code) && is_next(second.code, third.code)
}

/// Returns whether such markers come in the bytes after an EOI.
#[tactic(auto, unfolding(crate::specs::Markers::continues))]
fn continues(bytes: &[u8]) -> bool
    ensures { result ≡ continues MAX_STRAY (markers_in 0 bytes.now) }
{
    let mut at: usize = 0;
    let mut others = MAX_STRAY;
    'markers: loop {
        let Some(found) = first_marker(&bytes[at..]) else {
            return false;
        };
        if count_up(&bytes[at..]) {
            return true;
        }
        if others == 0 || found.code == SOI || found.code == EOI {
            return false;
        }
        others -= 1;
        at += found.before + 2;
    }
}

/// Returns whether bytes have fewer restart markers before EOI than a scan has intervals.
fn has_few_restarts(bytes: &[u8], intervals: u32) -> bool
    ensures { result ≡ nat_lt (restarts (markers_in 0 bytes.now)) intervals }
{
    let mut at: usize = 0;
    let mut left = intervals;
    'markers: loop {
        if left == 0 {
            return false;
        }
        let Some(found) = first_marker(&bytes[at..]) else {
            return true;
        };
        if found.code == EOI {
            return true;
        }
        if is_restart(found.code) {
            left -= 1;
        }
        at += found.before + 2;
    }
}

/// Returns whether a scan of the given number of intervals continues in the bytes after an EOI.
fn goes_on(bytes: &[u8], intervals: u32) -> bool
    ensures { result ≡ goes_on intervals (markers_in 0 bytes.now) }
{
    continues(bytes) && has_few_restarts(bytes, intervals)
}

/// Returns whether the first marker in bytes is an EOI after which the scan continues.
pub(crate) fn is_continued(bytes: &[u8], intervals: u32) -> bool
    ensures { result ≡ not (is_over intervals (markers_in 0 bytes.now)) }
{
    match first_marker(bytes) {
        Some(found) if found.code == EOI => goes_on(&bytes[found.before + 2..], intervals),
        _ => false,
    }
}

/// Returns the first marker in bytes of a scan of the given number of intervals, as it is read.
pub(crate) fn next_marker(bytes: &[u8], intervals: u32) -> Option<ScanMarker>
    ensures within { IfSome result (λ m. m.before + 2 ≤ length bytes.now) }
    ensures first { IfSome result (λ m. scan_markers intervals bytes.now ≡ m ∷ scan_markers intervals (drop (m.before + 2) bytes.now)) }
    ensures none { IfNone result (scan_markers intervals bytes.now ≡ []) }
{
    let found = first_marker(bytes)?;
    if found.code == EOI && goes_on(&bytes[found.before + 2..], intervals) {
        return Some(ScanMarker {
            before: found.before,
            code: TEM,
        });
    }
    Some(found)
}
