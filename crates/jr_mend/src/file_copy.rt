//! A copy of a file.

ghost use Rattle.std.specs.Prelude.{◌≡◌, ◌≢◌, ◌<◌, ◌≤◌, ◌^◌, ℕ, List, [], IfOk, IfErr, length, slice_index_or, take};
ghost use Rattle.std.specs.Vec.{vec_capacity};
ghost use Rattle.jr_segments.specs.declared.refusal.Refusal.TheVariants as refusal;
ghost use Rattle.jr_cut.specs.Coded.{IsSpelledAt};
ghost use Rattle.jr_damage.specs.Coded.{IsSegmentOf};
ghost use Rattle.jr_head.specs.Heads.{RefusalOf};

use jr_cut::{CodedSpan, unstuff_at};
use jr_head::{Head, read_head};
use jr_scan::IntervalRef;
use jr_segments::Refusal;
use std::alloc::Global;
use std::marker::Model;

/// A copy of a JPEG file: its bytes, which it borrows, and its header.
#[derive(Drop)]
pub struct FileCopy<'a> {
    file: &'a [u8],
    head: Head,
}

impl<'a> Model for FileCopy<'a> {
    ghost use Rattle.jr_mend.specs.Copies.{CopyValue, copy_scan};
    ghost use Rattle.jr_damage.specs.Verdicts.{IsFileScan};

    ghost Value = { CopyValue };

    ghost view = { λ c. record { file = c.file.now; scan = copy_scan c.file.now c.head } };

    ghost invariant = { λ c. IsFileScan c.file.now (copy_scan c.file.now c.head) };
}

impl<'a> FileCopy<'a> {
    ghost use Rattle.jr_damage.specs.Verdicts.{IsFileScan};
    ghost use Rattle.jr_scan.specs.ScanValue.{interval_of, intervals_of};

    /// Reads the header of a copy.
    ///
    /// # Errors
    ///
    /// The copy's first fault; `Memory` if allocation fails, which says nothing of the copy.
    pub fn of(alloc: Global, file: &'a [u8]) -> Result<FileCopy<'a>, Refusal>
        ensures file { IfOk result (λ c. c.file ≡ file.now) }
        ensures scan { IfOk result (λ c. IsFileScan c.file c.scan) }
        ensures refused { IfErr result (λ e. e ≢ refusal.Memory → RefusalOf file.now e) }
    {
        let head = read_head(alloc, file)?;
        // A header has at least one interval.
        let _some = head.intervals();
        Ok(FileCopy { file, head })
    }

    /// Returns the bytes of the copy.
    pub fn file(&self) -> &[u8]
        ensures { result.now ≡ self.now.file }
    {
        self.file
    }

    /// Returns the header of the copy.
    pub fn head(&self) -> &Head
        ensures value { result.now ≡ self.now.scan.head }
        ensures is { IsFileScan self.now.file self.now.scan }
    {
        &self.head
    }

    /// Writes the data of the segment at `span` into the first bytes of `buffer`, whose capacity suffices, and returns their number.
    pub(crate) fn unstuff(&self, span: CodedSpan, buffer: &mut Vec<u8>) -> usize
        requires spelled { (bytes : List ℕ) × IsSpelledAt self.now.file span bytes }
        requires capacity { length self.now.file < vec_capacity buffer.old }
        ensures data { (i : ℕ) → IsSegmentOf self.now.file self.now.scan i span → take result buffer.new.items ≡ slice_index_or self.now.scan.intervals i [] }
        ensures few { result < 2 ^ 61 }
        ensures within { result ≤ length buffer.new.items }
        ensures capacity { vec_capacity buffer.old ≤ vec_capacity buffer.new }
    {
        unstuff_at(self.file, span, buffer)
    }

    /// Borrows interval i of the copy, by its data without stuffing.
    pub(crate) fn interval<'b>(&'b self, bytes: &'b [u8], i: u32) -> IntervalRef<'b>
        requires there { i < intervals_of self.now.scan.head }
        requires bytes { bytes.now ≡ slice_index_or self.now.scan.intervals i [] }
        requires few { length bytes.now < 2 ^ 61 }
        ensures { result ≡ interval_of self.now.scan i }
    {
        IntervalRef::of(&self.head, bytes, i, self.head.mcus_in(i))
    }
}
