//! How the bytes of a scan fall into intervals.

ghost use Rattle.std.specs.Prelude.{◌≡◌, ◌+◌, ◌<◌, ◌≤◌, ◌^◌, [], length, map, IfOk};
ghost use Rattle.std.specs.List.{All};
ghost use Rattle.jr_cut.specs.Cut.{IsCut};
ghost use Rattle.jr_cut.specs.ImageEnd.{IsImageEndOf};
ghost use Rattle.jr_cut.specs.Spans.{segment_data, IsSpanOf};

use crate::partial_cut::PartialCut;
use crate::scan_end::ScanEnd;
use crate::span::Span;
use crate::unstuff::Unstuffing;
use jr_base::Memory;
use std::alloc::Global;

/// The unstuffed bytes of a scan, where in them each segment between restart markers is, and what ended the scan.
#[derive(Drop)]
pub struct CodedSegments {
    pub unstuffed: Vec<u8>,
    pub spans: Vec<Span>,
    pub ended: ScanEnd,
}

/// Cuts the bytes of a scan, which begins at offset `start` of the file.
pub fn cut(
    alloc: Global,
    intervals: u32,
    start: u64,
    scan: Unstuffing,
) -> Result<CodedSegments, Memory>
    requires some { 0 < intervals }
    requires fits { start + length scan.rest < 2 ^ 64 }
    requires unread { scan.unstuffed ≡ [] }
    ensures cut { IfOk result (λ p. IsCut intervals start scan.rest (map (segment_data p.unstuffed.items) p.spans.items) p.ended) }
    ensures within { IfOk result (λ p. All (IsSpanOf p.unstuffed.items) p.spans.items) }
    ensures few { IfOk result (λ p. length p.unstuffed.items ≤ length scan.rest) }
{
    PartialCut::of(alloc, intervals, start, scan)?.into_segments()
}

/// The segments of a scan, and where the bytes after the end of the image begin.
#[derive(Drop)]
pub struct SegmentsToEnd {
    pub segments: CodedSegments,
    /// Offset in the file of the first byte after the EOI marker that ended the scan; `None` if no EOI did.
    pub image_end: Option<u64>,
}

/// Does what `cut` does, and returns where the bytes after the end of the image begin.
pub fn cut_to_end(
    alloc: Global,
    intervals: u32,
    start: u64,
    scan: Unstuffing,
) -> Result<SegmentsToEnd, Memory>
    requires some { 0 < intervals }
    requires fits { start + length scan.rest < 2 ^ 64 }
    requires unread { scan.unstuffed ≡ [] }
    ensures cut { IfOk result (λ p. IsCut intervals start scan.rest (map (segment_data p.segments.unstuffed.items) p.segments.spans.items) p.segments.ended) }
    ensures within { IfOk result (λ p. All (IsSpanOf p.segments.unstuffed.items) p.segments.spans.items) }
    ensures few { IfOk result (λ p. length p.segments.unstuffed.items ≤ length scan.rest) }
    ensures image_end { IfOk result (λ p. IsImageEndOf intervals start scan.rest p.segments.ended p.image_end) }
{
    let cut = PartialCut::of(alloc, intervals, start, scan)?;
    let image_end = cut.image_end();
    let segments = cut.into_segments()?;
    Ok(SegmentsToEnd {
        segments,
        image_end,
    })
}
