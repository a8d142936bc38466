//! What the markers ahead in a damaged scan say of an interval.

ghost use Rattle.std.specs.Prelude.{◌≡◌, ◌≢◌, ◌+◌, ◌<◌, ◌≤◌, ◌∷◌, ℕ, List, length};
ghost use Rattle.jr_base.specs.declared.limits.TheConstants.{MAX_FILE_BYTES};
ghost use Rattle.jr_base.specs.declared.marker.TheConstants.{EOI, RST0, RST7};
ghost use Rattle.jr_mend.specs.declared.markers.ScanMarker.{ScanMarker};
ghost use Rattle.jr_mend.specs.Markers.{counted_back, has_end, held, is_back, is_restart, is_run, most_missing, restarts, scan_bytes, scan_markers};
ghost use Rattle.jr_mend.specs.Reading.{IsOutlook};

use crate::markers::{is_restart, next_marker};
use jr_base::marker::{EOI, RST0};

/// The maximum number of restart markers missing before one that others follow in step, beyond the number of intervals that
/// the bytes before it hold on average.
pub const MAX_EARLY: u64 = 3;

/// The size of a sector in bytes: the markers in a sector of another file are in step over fewer bytes.
pub const SURE_BYTES: usize = 512;

/// The bytes and the restart markers of a scan up to EOI.
#[derive(Clone, Copy)]
pub(crate) struct ScanCounts {
    /// The number of bytes.
    pub size: usize,
    /// The number of restart markers.
    pub restarts: usize,
    /// Whether there is EOI.
    pub is_ended: bool,
}

/// Counts the bytes and the restart markers of a scan up to EOI.
pub(crate) fn counts_of(bytes: &[u8], intervals: u32) -> ScanCounts
    ensures size { result.size ≡ scan_bytes (scan_markers intervals bytes.now) }
    ensures restarts { result.restarts ≡ restarts (scan_markers intervals bytes.now) }
    ensures end { result.is_ended ≡ has_end (scan_markers intervals bytes.now) }
    ensures few { result.restarts ≤ length bytes.now }
{
    let mut size: usize = 0;
    let mut restarts: usize = 0;
    'markers: loop {
        let Some(found) = next_marker(&bytes[size..], intervals) else {
            return ScanCounts {
                size,
                restarts,
                is_ended: false,
            };
        };
        size += found.before + 2;
        if found.code == EOI {
            return ScanCounts {
                size,
                restarts,
                is_ended: true,
            };
        }
        if is_restart(found.code) {
            restarts += 1;
        }
    }
}

/// Returns whether a code is that of the marker before the last `left` intervals.
fn is_back(intervals: u32, left: usize, code: u8) -> bool
    ensures { result ≡ is_back intervals left code }
{
    left < intervals as usize
        && code as usize == RST0 as usize + (intervals as usize - left - 1) % 8
}

/// Returns the number of restart markers before EOI, of the given number in all, from the last one back, that are those
/// before the last intervals.
pub(crate) fn counted_back(bytes: &[u8], intervals: u32, all: usize) -> usize
    requires { all ≡ restarts (scan_markers intervals bytes.now) }
    ensures { result ≡ counted_back intervals (scan_markers intervals bytes.now) }
{
    let mut at: usize = 0;
    let mut left = all;
    let mut run: usize = 0;
    'markers: loop {
        let Some(found) = next_marker(&bytes[at..], intervals) else {
            return run;
        };
        if found.code == EOI {
            return run;
        }
        at += found.before + 2;
        if is_restart(found.code) {
            run = if is_back(intervals, left, found.code) {
                run + 1
            } else {
                0
            };
            left -= 1;
        }
    }
}

/// Returns whether the restart markers in bytes, the first of which has this number modulo 8, are in step over `SURE_BYTES`.
pub(crate) fn is_run(bytes: &[u8], intervals: u32, number: u8) -> bool
    ensures { result ≡ is_run number SURE_BYTES (scan_markers intervals bytes.now) }
{
    let mut at: usize = 0;
    let mut due = number as usize;
    'markers: loop {
        let Some(found) = next_marker(&bytes[at..], intervals) else {
            return false;
        };
        if found.code == EOI {
            return false;
        }
        at += found.before + 2;
        if !is_restart(found.code) {
            continue;
        }
        if found.code as usize != RST0 as usize + due % 8 {
            return false;
        }
        if at >= SURE_BYTES {
            return true;
        }
        due += 1;
    }
}

/// Returns the number of intervals that bytes of a scan of `size` bytes hold on average, to the nearest.
pub(crate) fn held(intervals: u32, size: usize, bytes: usize) -> u64
    requires { bytes ≤ MAX_FILE_BYTES }
    ensures { result ≡ held intervals size bytes }
{
    let twice = 2 * (bytes as u64 * u64::from(intervals)) / (size as u64).max(1);
    (twice + 1) / 2
}

/// What is known of the markers ahead in a scan.
#[derive(Clone, Copy)]
pub(crate) struct Outlook {
    /// The number of the scan's bytes, up to EOI.
    pub size: usize,
    /// The number of restart markers ahead, up to EOI.
    pub left: usize,
    /// The number of restart markers, from the last one back, that are those before the last intervals.
    pub back: usize,
    /// Whether there is EOI.
    pub is_ended: bool,
}

impl Outlook {
    /// Reads the markers of a scan up to EOI, twice.
    pub(crate) fn of(bytes: &[u8], intervals: u32) -> Outlook
        ensures size { result.size ≡ scan_bytes (scan_markers intervals bytes.now) }
        ensures is { IsOutlook intervals (scan_markers intervals bytes.now) result }
    {
        let counts = counts_of(bytes, intervals);
        Outlook {
            size: counts.size,
            left: counts.restarts,
            back: counted_back(bytes, intervals, counts.restarts),
            is_ended: counts.is_ended,
        }
    }

    /// Returns what is known after a marker.
    pub(crate) fn after(self, code: u8) -> Outlook
        ensures size { result.size ≡ self.size }
        ensures is { (n : ℕ) (m : ScanMarker) (ms : List ScanMarker) → is_restart m.code ≡ is_restart code → m.code ≢ EOI → IsOutlook n (m ∷ ms) self → IsOutlook n ms result }
    {
        let mut after = self;
        if is_restart(code) {
            after.left = self.left.saturating_sub(1);
        }
        after
    }

    /// Returns the maximum number of segments missing before a restart marker with this code after interval k, whose marker
    /// is `since` bytes before it. `after` are the bytes after the marker.
    pub(crate) fn most_missing(
        self,
        after: &[u8],
        code: u8,
        k: u32,
        intervals: u32,
        since: usize,
    ) -> u64
        requires low { RST0 ≤ code }
        requires high { code ≤ RST7 }
        requires few { since ≤ MAX_FILE_BYTES }
        ensures { (m : ScanMarker) → m.code ≡ code → IsOutlook intervals (m ∷ scan_markers intervals after.now) self → result ≡ most_missing intervals self.size since k (m ∷ scan_markers intervals after.now) }
    {
        if 2 * intervals as usize > self.size {
            return 0;
        }
        if self.is_ended && self.left <= self.back {
            return (intervals as u64)
                .saturating_sub(self.left as u64)
                .saturating_sub(k as u64 + 1);
        }
        let early = if is_run(after, intervals, code - RST0 + 1) {
            MAX_EARLY
        } else {
            0
        };
        held(intervals, self.size, since).saturating_sub(1) + early
    }
}
