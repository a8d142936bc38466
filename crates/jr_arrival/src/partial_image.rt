//! A scan whose file is still arriving, and its lines.

ghost use Rattle.std.specs.Prelude.{◌≡◌, ◌≢◌, ◌+◌, ◌-◌, ◌*◌, ◌/◌, ◌<◌, ◌≤◌, ◌++◌, ℕ, List, min, length, take, IfOk, IfErr, IfSome, IfNone};
ghost use Rattle.jr_base.specs.declared.limits.TheConstants.{MAX_FILE_BYTES};
ghost use Rattle.jr_segments.specs.declared.refusal.Refusal.TheVariants as refusal;
ghost use Rattle.jr_head.specs.Geometry.{mcus_across};
ghost use Rattle.jr_head.specs.Heads.{RefusalOf};
ghost use Rattle.jr_paint.specs.Lines.{line_size};
ghost use Rattle.jr_scan.specs.PartialScan.{HasCome};
ghost use Rattle.jr_rows.specs.Stream.{HasCounts};
ghost use Rattle.jr_arrival.specs.Arrival.{IsFinalFault};
ghost use Rattle.jr_arrival.specs.PartialFile.{HasBegun};
ghost use Rattle.jr_arrival.specs.PartialRows.{AreFinalLines, HasNoMore};
ghost use Rattle.jr_arrival.specs.Settled.{ReturnsSettled, WantsMore};

use crate::finished::Finished;
use crate::partial_head::PartialHead;
use crate::partial_row::PartialRow;
use jr_base::Memory;
use jr_head::Head;
use jr_rows::{counts_of, shape_of};
use jr_scan::PartialScan;
use jr_segments::Refusal;
use std::alloc::Global;
use std::marker::Model;

/// A scan whose file is still arriving, the number of bytes of the file that have come, and the row of MCUs that comes next.
#[derive(Drop)]
pub(crate) struct PartialImage {
    scan: PartialScan,
    bytes: usize,
    row: PartialRow,
}

impl Model for PartialImage {
    ghost use Rattle.std.specs.Prelude.{◌≡◌, ◌≤◌, ℕ, List, length};
    ghost use Rattle.jr_base.specs.declared.limits.TheConstants.{MAX_FILE_BYTES};
    ghost use Rattle.jr_scan.specs.PartialScan.{HasCome};
    ghost use Rattle.jr_arrival.specs.PartialRows.{IsPartialRow};
    ghost use Rattle.jr_arrival.specs.PartialFile.{PartialImageValue};

    ghost Value = { PartialImageValue };

    ghost view = { λ c. record { partial_scan = c.scan; bytes = c.bytes; row = c.row } };

    ghost invariant = { λ c. IsPartialRow c.scan c.row × (c.bytes ≤ MAX_FILE_BYTES) × ((bytes : List ℕ) × HasCome c.scan bytes × (length bytes ≡ c.bytes)) };
}

impl PartialImage {
    /// Returns the scan of the bytes so far of a file, of which nothing is read yet. It copies them.
    pub(crate) fn open(alloc: Global, head: Head, bytes: &[u8]) -> Result<PartialImage, Memory>
        requires starts { head.scan_at ≤ length bytes.now }
        requires small { length bytes.now ≤ MAX_FILE_BYTES }
        ensures begun { IfOk result (λ c. HasCome c.partial_scan bytes.now × (c.partial_scan.scan.head ≡ head) × (c.row.lines ≡ 0) × (c.bytes ≡ length bytes.now)) }
    {
        let row = PartialRow::open(alloc, &head)?;
        let mut kept = Vec::new(alloc);
        kept.extend_from_slice(bytes)?;
        let scan = PartialScan::of(alloc, head, kept)?;
        // By their contracts there is an interval, and the header is valid.
        let _some = scan.intervals();
        let _valid = scan.head();
        Ok(PartialImage {
            scan,
            bytes: bytes.len(),
            row,
        })
    }

    /// Returns the scan of the bytes so far once they have its header, or `None` if more are needed. It copies them.
    ///
    /// # Errors
    ///
    /// The refusal of every file that the bytes can become. `Memory` if allocation fails; it says nothing about the
    /// bytes.
    pub(crate) fn of(
        alloc: Global,
        so_far: &mut PartialHead,
    ) -> Result<Option<PartialImage>, Refusal>
        ensures begun { IfOk result (λ o. IfSome o (λ c. HasBegun c so_far.old × (c.row.lines ≡ 0))) }
        ensures wanted { IfOk result (λ o. IfNone o (WantsMore so_far.old)) }
        ensures refusal { IfErr result (λ f. f ≢ refusal.Memory → RefusalOf so_far.old f) }
        ensures stays { IfErr result (IsFinalFault so_far.old) }
        ensures kept { so_far.new ≡ so_far.old }
    {
        let Some(head) = so_far.read(alloc)? else {
            return Ok(None);
        };
        let Ok(partial_image) = PartialImage::open(alloc, head, so_far.bytes()) else {
            return Err(Refusal::Memory);
        };
        Ok(Some(partial_image))
    }

    /// Appends bytes of the file. On `Err`, none is taken.
    pub(crate) fn push(&mut self, more: &[u8]) -> Result<(), Memory>
        requires few { self.old.bytes + length more.now ≤ MAX_FILE_BYTES }
        ensures pushed { IfOk result (λ _. (bytes : List ℕ) → HasCome self.old.partial_scan bytes → HasCome self.new.partial_scan (bytes ++ more.now)) }
        ensures head { IfOk result (λ _. self.new.partial_scan.scan.head ≡ self.old.partial_scan.scan.head) }
        ensures count { IfOk result (λ _. self.new.bytes ≡ self.old.bytes + length more.now) }
        ensures row { IfOk result (λ _. self.new.row ≡ self.old.row) }
        ensures memory { IfErr result (λ _. self.new ≡ self.old) }
    {
        // By its contract the header is valid.
        let _valid = self.scan.head();
        self.scan.push(more)?;
        self.bytes += more.len();
        Ok(())
    }

    /// Returns the header of the file.
    pub(crate) fn head(&self) -> &Head
        ensures { result.now ≡ self.now.partial_scan.scan.head }
    {
        self.scan.head()
    }

    /// Returns the number of bytes that have come.
    pub(crate) fn bytes(&self) -> usize
        ensures value { result ≡ self.now.bytes }
        ensures few { result ≤ MAX_FILE_BYTES }
    {
        self.bytes
    }

    /// Returns the number of lines that were returned.
    pub(crate) fn lines(&self) -> u32
        ensures { result ≡ self.now.row.lines }
    {
        self.row.lines()
    }

    /// Copies the next final lines into `pixels`, as many as fit, and returns their number.
    pub(crate) fn give(&mut self, pixels: &mut [u8]) -> u32
        ensures scan { self.new.partial_scan ≡ self.old.partial_scan }
        ensures bytes { self.new.bytes ≡ self.old.bytes }
        ensures lines { self.new.row.lines ≡ self.old.row.lines + result }
        ensures settled { (bytes : List ℕ) → HasCome self.old.partial_scan bytes → ReturnsSettled bytes self.old.partial_scan.scan self.old.row.lines result (length pixels.old) }
        ensures given { AreFinalLines self.old.partial_scan self.old.row.lines result (take (result * line_size self.old.partial_scan.scan.head) pixels.new) }
        ensures long { length pixels.new ≡ length pixels.old }
    {
        // By their contracts one of the intervals is the last that has begun, and the header is valid.
        let _last = self.scan.last_begun();
        let _most = self.scan.intervals();
        let _across = shape_of(self.scan.head());
        self.row.give(&self.scan, pixels)
    }

    /// Ends the scan. Returns it, and the numbers of its sound and damaged intervals. It skips the MCUs that are left.
    pub(crate) fn finish(self, alloc: Global) -> Result<Finished, Memory>
        ensures scan { IfOk result (λ r. r.scan ≡ self.partial_scan.scan) }
        ensures counts { IfOk result (λ r. HasCounts self.partial_scan.scan (length self.partial_scan.scan.intervals) r.counts) }
    {
        let PartialImage { scan, row, .. } = self;
        // By its contract an image has an MCU.
        let _some = scan.head().mcus();
        let marked = row.marks(&scan);
        let scan = scan.into_scan(alloc)?;
        let counts = counts_of(&scan, scan.intervals(), marked);
        Ok(Finished { scan, counts })
    }
}
