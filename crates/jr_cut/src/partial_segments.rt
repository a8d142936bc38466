//! Segments of a scan that are read as its bytes come.

ghost use Rattle.std.specs.Prelude.{◌≡◌, ℕ, ◌+◌, ◌*◌, ◌<◌, ◌≤◌, ◌^◌, ◌++◌, List, length, IfOk, IfErr, IsOk, OnOk, OnErr};
ghost use Rattle.std.specs.Vec.{vec_capacity};
ghost use Rattle.jr_cut.specs.Cut.{IsStop};
ghost use Rattle.jr_cut.specs.PartialCut.{HasCut};
ghost use Rattle.jr_cut.specs.ImageEnd.{HasCutToRest};
ghost use Rattle.jr_cut.specs.PartialSegments.{AreOpen, BeginsWithRestart, HaveAll, HaveRead, cut_of};

use crate::scan_end::ScanEnd;
use crate::span::Span;
use crate::stop::{Stop, stop_at};
use crate::unstuff::Unstuffing;
use jr_base::Memory;

/// Segments that are being read: those that have ended, and the open one, whose data follow theirs and may continue.
#[derive(Drop)]
pub(crate) struct PartialSegments {
    pub bytes: Unstuffing,
    /// Positions of the data of the segments that have ended.
    pub spans: Vec<Span>,
    /// Start of the data of the open segment.
    pub begin: usize,
    pub intervals: u32,
    /// File offset of the bytes that are not read yet.
    pub at: u64,
}

impl PartialSegments {
    /// Reads further data of the open segment, as far as they have come.
    fn grow(&mut self)
        requires { AreOpen self.old }
        ensures is { AreOpen self.new }
        ensures all { HaveAll self.old self.new }
        ensures spans { self.new.spans ≡ self.old.spans }
        ensures rest { length self.new.bytes.rest ≤ length self.old.bytes.rest }
        ensures stop { IsStop self.new.bytes.rest }
    {
        self.at += self.bytes.unstuff() as u64;
    }

    /// Ends the open segment at a restart marker of that many bytes, and opens the next one.
    fn next(&mut self, marker: usize) -> Result<(), Memory>
        requires is { AreOpen self.old }
        requires few { length self.old.spans.items + 1 < self.old.intervals }
        requires marker { BeginsWithRestart (length self.old.spans.items) self.old.bytes.rest marker }
        ensures is { AreOpen self.new }
        ensures all { IfOk result (λ _. HaveAll self.old self.new) }
        ensures rest { IfOk result (λ _. length self.new.bytes.rest + 2 ≤ length self.old.bytes.rest) }
        ensures one { IfOk result (λ _. length self.new.spans.items ≡ length self.old.spans.items + 1) }
        ensures capacity { vec_capacity self.old.spans ≤ vec_capacity self.new.spans }
        ensures full { OnErr result (vec_capacity self.old.spans ≤ length self.old.spans.items) }
    {
        let end = self.bytes.len();
        self.spans.push(Span {
            start: self.begin,
            end,
        })?;
        self.begin = end;
        self.bytes.skip(marker);
        self.at += marker as u64;
        Ok(())
    }

    /// Reads the bytes that have arrived, up to what ends the scan. Allocates nothing if the spans fit.
    pub(crate) fn read_on(&mut self) -> Result<ScanEnd, Memory>
        requires { AreOpen self.old }
        ensures is { AreOpen self.new }
        ensures all { IfOk result (λ _. HaveAll self.old self.new) }
        ensures cut { IfOk result (λ end. (start : ℕ) (bytes : List ℕ) → HaveRead start bytes self.old → HasCut start bytes (cut_of self.new end)) }
        ensures rest { IfOk result (λ end. (start : ℕ) (bytes : List ℕ) → HaveRead start bytes self.old → HasCutToRest start bytes (cut_of self.new end)) }
        ensures markers { OnErr result (2 * vec_capacity self.old.spans + 1 < 2 * length self.old.spans.items + length self.old.bytes.rest) }
        ensures segments { OnErr result (vec_capacity self.old.spans + 1 < self.old.intervals) }
    {
        'segments: loop {
            self.grow();
            let k = self.spans.len() as u32;
            let fill = self.bytes.fill();
            match stop_at(self.bytes.rest(), fill, self.at, k, self.intervals) {
                Stop::End(ended) => return Ok(ended),
                Stop::Restart(marker) => self.next(marker)?,
            }
        }
    }

    /// Appends bytes, and allocates for what they can be cut into.
    pub(crate) fn take(&mut self, more: &[u8]) -> Result<(), Memory>
        requires is { AreOpen self.old }
        requires fits { self.old.at + length self.old.bytes.rest + length more.now < 2 ^ 64 }
        ensures is { AreOpen self.new }
        ensures taken { IfOk result (λ _. (start : ℕ) (bytes : List ℕ) → HaveRead start bytes self.old → HaveRead start (bytes ++ more.now) self.new) }
        ensures all { IfOk result (λ _. self.new.bytes.rest ≡ self.old.bytes.rest ++ more.now) }
        ensures same { (self.new.intervals ≡ self.old.intervals) × (self.new.at ≡ self.old.at) × (self.new.bytes.unstuffed ≡ self.old.bytes.unstuffed) }
        ensures space { OnOk result (2 * vec_capacity self.new.spans + 1 < 2 * length self.new.spans.items + length self.new.bytes.rest → self.new.intervals ≤ vec_capacity self.new.spans + 1) }
        ensures memory { (end : ScanEnd) → IfErr result (λ _. cut_of self.new end ≡ cut_of self.old end) }
    {
        let markers = (self.bytes.rest().len() + more.len()) / 2;
        let left = self.intervals as usize - self.spans.len() - 1;
        self.spans.reserve(markers.min(left))?;
        self.bytes.extend(more)?;
        Ok(())
    }
}
