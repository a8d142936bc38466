//! The bytes of a scan that have come so far, cut as far as they go.

ghost use Rattle.std.specs.Prelude.{◌≡◌, ℕ, ◌+◌, ◌<◌, ◌≤◌, ◌^◌, List, [], ◌++◌, length, map, slice_index_or, IfOk, IfErr};
ghost use Rattle.std.specs.List.{All};
ghost use Rattle.jr_cut.specs.PartialCut.{HasCut};
ghost use Rattle.jr_cut.specs.ImageEnd.{HasCutToRest, IsImageEndOf};
ghost use Rattle.jr_cut.specs.Spans.{segment_data, IsSpanOf};

use crate::coded_segments::CodedSegments;
use crate::partial_segments::PartialSegments;
use crate::scan_end::ScanEnd;
use crate::span::Span;
use crate::unstuff::Unstuffing;
use jr_base::Memory;
use jr_base::marker::fill_count;
use std::alloc::Global;
use std::marker::Model;

/// The bytes of a scan that have arrived, cut as far as they go. While no marker has ended the scan its last segment is
/// open: more bytes continue from there, and what was unstuffed stays where it is.
#[derive(Drop)]
pub struct PartialCut {
    segments: PartialSegments,
    ended: ScanEnd,
}

impl Model for PartialCut {
    ghost use Rattle.jr_cut.specs.PartialCut.{PartialCutValue};
    ghost use Rattle.jr_cut.specs.PartialSegments.{AreOpen, cut_of};

    ghost Value = { PartialCutValue };

    ghost view = { λ c. cut_of c.segments c.ended };

    ghost invariant = { λ c. AreOpen c.segments };
}

impl PartialCut {
    /// Cuts the bytes of a scan that have arrived, none of which is read, from an offset of the file.
    pub fn of(
        alloc: Global,
        intervals: u32,
        start: u64,
        scan: Unstuffing,
    ) -> Result<PartialCut, Memory>
        requires some { 0 < intervals }
        requires fits { start + length scan.rest < 2 ^ 64 }
        requires unread { scan.unstuffed ≡ [] }
        ensures intervals { IfOk result (λ c. c.intervals ≡ intervals) }
        ensures cut { IfOk result (λ c. HasCut start scan.rest c) }
        ensures rest { IfOk result (λ c. HasCutToRest start scan.rest c) }
        ensures count { IfOk result (λ c. length c.segments ≤ c.intervals) }
        ensures data { IfOk result (λ c. start + length c.unstuffed ≤ c.at) }
        ensures all { IfOk result (λ c. c.at + length c.rest ≡ start + length scan.rest) }
    {
        let mut segments = PartialSegments {
            bytes: scan,
            spans: Vec::new(alloc),
            begin: 0,
            intervals,
            at: start,
        };
        let ended = segments.read_on()?;
        Ok(PartialCut { segments, ended })
    }

    /// Appends scan bytes; no effect after a marker has ended the scan. On `Err`, none is taken.
    pub fn push(&mut self, more: &[u8]) -> Result<(), Memory>
        requires { self.old.at + length self.old.rest + length more.now < 2 ^ 64 }
        ensures intervals { self.new.intervals ≡ self.old.intervals }
        ensures count { length self.new.segments ≤ self.new.intervals }
        ensures pushed { IfOk result (λ _. (start : ℕ) (bytes : List ℕ) → HasCut start bytes self.old → HasCut start (bytes ++ more.now) self.new) }
        ensures few { self.new.at + length self.new.rest ≤ self.old.at + length self.old.rest + length more.now }
        ensures data { length self.new.unstuffed + self.old.at ≤ length self.old.unstuffed + self.new.at }
        ensures memory { IfErr result (λ _. self.new ≡ self.old) }
    {
        if self.ended != ScanEnd::EndOfFile {
            return Ok(());
        }
        self.segments.take(more)?;
        self.ended = self.segments.read_on()?;
        Ok(())
    }

    /// Returns the maximum number of segments of the scan.
    pub fn intervals(&self) -> u32
        ensures value { result ≡ self.now.intervals }
        ensures some { 0 < result }
    {
        self.segments.intervals
    }

    /// Returns what has ended the scan: the end of the file while no marker has.
    pub fn ended(&self) -> ScanEnd
        ensures { result ≡ self.now.ended }
    {
        self.ended
    }

    /// Returns the offset in the file of the first byte after the EOI marker that has ended the scan; `None` if no EOI has.
    pub(crate) fn image_end(&self) -> Option<u64>
        ensures { (start : ℕ) (bytes : List ℕ) → HasCutToRest start bytes self.now → IsImageEndOf self.now.intervals start bytes self.now.ended result }
    {
        let rest = self.segments.bytes.rest();
        let fill = fill_count(rest);
        if self.ended != ScanEnd::EndOfImage || fill >= rest.len() {
            return None;
        }
        Some(self.segments.at + fill as u64 + 1)
    }

    /// Returns the number of the last segment that has begun, which is open while no marker has ended the scan.
    pub fn last_begun(&self) -> u32
        ensures last { result + 1 ≡ length self.now.segments }
        ensures inside { result < self.now.intervals }
    {
        self.segments.spans.len() as u32
    }

    /// Returns the data of segment i, without stuffing; none if it has not begun.
    pub fn data(&self, i: u32) -> &[u8]
        ensures bytes { result.now ≡ slice_index_or self.now.segments i [] }
        ensures few { length result.now ≤ length self.now.unstuffed }
    {
        let span = self.span(i as usize);
        &self.segments.bytes.data()[span.start..span.end]
    }

    /// Returns where they are in the unstuffed bytes.
    fn span(&self, i: usize) -> Span
        ensures within { IsSpanOf self.now.unstuffed result }
        ensures bytes { segment_data self.now.unstuffed result ≡ slice_index_or self.now.segments i [] }
    {
        let ended = &self.segments.spans;
        if i < ended.len() {
            return ended[i];
        }
        let end = self.segments.bytes.len();
        let start = if i == ended.len() {
            self.segments.begin
        } else {
            end
        };
        Span { start, end }
    }

    /// Returns the segments; nothing more comes.
    pub fn into_segments(self) -> Result<CodedSegments, Memory>
        ensures segments { IfOk result (λ p. map (segment_data p.unstuffed.items) p.spans.items ≡ self.segments) }
        ensures within { IfOk result (λ p. All (IsSpanOf p.unstuffed.items) p.spans.items) }
        ensures unstuffed { IfOk result (λ p. p.unstuffed.items ≡ self.unstuffed) }
        ensures ended { IfOk result (λ p. p.ended ≡ self.ended) }
    {
        let PartialSegments {
            bytes,
            mut spans,
            begin,
            ..
        } = self.segments;
        spans.push(Span {
            start: begin,
            end: bytes.len(),
        })?;
        Ok(CodedSegments {
            unstuffed: bytes.into_data(),
            spans,
            ended: self.ended,
        })
    }
}
