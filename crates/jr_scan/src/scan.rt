//! A scan, cut into its restart intervals.

ghost use Rattle.std.specs.Prelude.{◌≡◌, ◌↔◌, ◌<◌, ◌≤◌, ◌^◌, ℕ, List, length, drop, map, IsTrue, IfOk, slice_index_or, []};
ghost use Rattle.std.specs.List.{All};

use crate::interval::Interval;
use crate::interval_ref::IntervalRef;
use jr_base::Memory;
use jr_cut::{CodedSegments, ScanEnd, Span, Unstuffing, cut};
use jr_head::Head;
use std::alloc::Global;
use std::marker::Model;
use std::sync::Arc;

/// A scan: its header, and the data of its restart intervals.
#[derive(Drop)]
pub struct Scan {
    head: Arc<Head>,
    unstuffed: Arc<Vec<u8>>,
    spans: Vec<Span>,
    intervals: u32,
    ended: ScanEnd,
}

impl Model for Scan {
    ghost use Rattle.std.specs.Prelude.{◌≡◌, ◌<◌, ◌≤◌, ◌^◌, ◌-◌, ◌++◌, [], length, map, replicate};
    ghost use Rattle.std.specs.List.{All};
    ghost use Rattle.std.specs.Arc.{arc_value};
    ghost use Rattle.jr_scan.specs.ScanValue.{ScanValue, intervals_of};
    ghost use Rattle.jr_cut.specs.Spans.{segment_data, IsSpanOf};

    ghost Value = { ScanValue };

    ghost view = { λ s. record { head = arc_value s.head; intervals = map (segment_data (arc_value s.unstuffed).items) s.spans.items ++ replicate (s.intervals - length s.spans.items) []; ended = s.ended } };

    ghost invariant = { λ s. All (IsSpanOf (arc_value s.unstuffed).items) s.spans.items × (length s.spans.items ≤ s.intervals) × (s.intervals ≡ intervals_of (arc_value s.head)) × (0 < s.intervals) × (length (arc_value s.unstuffed).items < 2 ^ 61) };
}

impl Scan {
    ghost use Rattle.jr_head.specs.Geometry.{IsValid};
    ghost use Rattle.jr_cut.specs.Spans.{segment_data, IsSpanOf};
    ghost use Rattle.jr_scan.specs.ScanValue.{intervals_of, interval_of, scan_of_segments, IsScanOf, IsSameScan, HasInterval};

    /// Cuts the scan of a file with this header. If the scan starts past the end of the file it has no bytes.
    pub fn cut(alloc: Global, head: Head, bytes: &[u8]) -> Result<Scan, Memory>
        requires { length bytes.now < 2 ^ 61 }
        ensures head { IfOk result (λ s. s.head ≡ head) }
        ensures cut { IfOk result (λ s. IsScanOf bytes.now s) }
    {
        let scan = Unstuffing::copy_of(alloc, bytes, head.scan_at())?;
        Scan::of(alloc, head, scan)
    }

    /// `cut` in the memory of the file's bytes.
    pub fn cut_in_place(alloc: Global, head: Head, bytes: Vec<u8>) -> Result<Scan, Memory>
        requires { length bytes.items < 2 ^ 61 }
        ensures head { IfOk result (λ s. s.head ≡ head) }
        ensures cut { IfOk result (λ s. IsScanOf bytes.items s) }
    {
        let scan = Unstuffing::of(bytes, head.scan_at());
        Scan::of(alloc, head, scan)
    }

    /// Cuts the bytes of a scan, of which none is read.
    fn of(alloc: Global, head: Head, scan: Unstuffing) -> Result<Scan, Memory>
        requires unread { scan.unstuffed ≡ [] }
        requires few { length scan.rest < 2 ^ 61 }
        ensures head { IfOk result (λ s. s.head ≡ head) }
        ensures cut { IfOk result (λ s. (file : List ℕ) → scan.rest ≡ drop head.scan_at file → IsScanOf file s) }
    {
        let segments = cut(alloc, head.intervals(), head.scan_at(), scan)?;
        Scan::of_segments(alloc, head, segments)
    }

    /// Returns the scan with this header that is cut into these segments.
    pub(crate) fn of_segments(
        alloc: Global,
        head: Head,
        segments: CodedSegments,
    ) -> Result<Scan, Memory>
        requires within { All (IsSpanOf segments.unstuffed.items) segments.spans.items }
        requires count { length segments.spans.items ≤ intervals_of head }
        requires few { length segments.unstuffed.items < 2 ^ 61 }
        ensures { IfOk result (λ s. s ≡ scan_of_segments head (map (segment_data segments.unstuffed.items) segments.spans.items) segments.ended) }
    {
        let intervals = head.intervals();
        Ok(Scan {
            head: Arc::new(alloc, head)?,
            unstuffed: Arc::new(alloc, segments.unstuffed)?,
            spans: segments.spans,
            intervals,
            ended: segments.ended,
        })
    }

    /// Returns the header of the file.
    pub fn head(&self) -> &Head
        ensures value { result.now ≡ self.now.head }
        ensures valid { IsValid result.now }
    {
        self.head.assert_invariant();
        &self.head
    }

    /// Returns the number of restart intervals.
    pub fn intervals(&self) -> u32
        ensures value { result ≡ length self.now.intervals }
        ensures count { result ≡ intervals_of self.now.head }
        ensures some { 0 < result }
    {
        self.intervals
    }

    /// Returns what ended the scan.
    pub fn ended(&self) -> ScanEnd
        ensures { result ≡ self.now.ended }
    {
        self.ended
    }

    /// Returns interval i, which shares its data with the scan.
    pub fn interval(&self, i: u32) -> Result<Interval, Memory>
        requires { i < length self.now.intervals }
        ensures { IfOk result (λ v. v ≡ interval_of self.now i) }
    {
        let mut span = Span { start: 0, end: 0 };
        if (i as usize) < self.spans.len() {
            span = self.spans[i as usize];
        }
        let head = Arc::try_clone(&self.head)?;
        let unstuffed = Arc::try_clone(&self.unstuffed)?;
        Ok(Interval::of(head, unstuffed, span, i, self.head.mcus_in(i)))
    }

    /// Returns interval i, borrowed from the scan. It allocates nothing.
    pub fn interval_ref(&self, i: u32) -> IntervalRef<'_>
        requires { i < length self.now.intervals }
        ensures { result ≡ interval_of self.now i }
    {
        IntervalRef::of(&self.head, self.data(i), i, self.head.mcus_in(i))
    }

    /// Returns the data of interval i, without stuffing.
    fn data(&self, i: u32) -> &[u8]
        requires { i < length self.now.intervals }
        ensures bytes { result.now ≡ slice_index_or self.now.intervals i [] }
        ensures few { length result.now < 2 ^ 61 }
    {
        let mut span = Span { start: 0, end: 0 };
        if (i as usize) < self.spans.len() {
            span = self.spans[i as usize];
        }
        &self.unstuffed[span.start..span.end]
    }

    /// Returns whether both have equal headers, and the same data in each interval.
    pub fn is_same(&self, other: &Scan) -> bool
        ensures { IsTrue result ↔ IsSameScan self.now other.now }
    {
        self.head.is_same(&other.head)
            && self.intervals == other.intervals
            && self.has_same_data(other)
    }

    /// Returns whether equally many intervals have the same data.
    fn has_same_data(&self, other: &Scan) -> bool
        requires { length self.now.intervals ≡ length other.now.intervals }
        ensures { IsTrue result ↔ (self.now.intervals ≡ other.now.intervals) }
    {
        for i in 0..self.intervals() {
            if self.data(i) != other.data(i) {
                return false;
            }
        }
        true
    }

    /// Returns whether an interval is this scan's interval of its number.
    pub fn has(&self, interval: &Interval) -> bool
        ensures { IsTrue result ↔ HasInterval self.now interval.now }
    {
        let number = interval.number();
        if number >= self.intervals() || interval.mcus() != self.head.mcus_in(number) {
            return false;
        }
        if interval.bytes() != self.data(number) {
            return false;
        }
        interval.head().is_same(&self.head)
    }
}
