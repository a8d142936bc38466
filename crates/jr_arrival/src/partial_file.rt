//! A file that is still arriving.

ghost use Rattle.std.specs.Prelude.{◌≡◌, ◌≢◌, ◌+◌, ◌-◌, ◌*◌, ◌/◌, ◌^◌, ◌<◌, ◌≤◌, ◌++◌, ℕ, List, [], None, min, length, take, IfOk, IfErr, IfSome, IfNone};
ghost use Rattle.jr_base.specs.declared.limits.TheConstants.{MAX_FILE_BYTES};
ghost use Rattle.jr_head.specs.Heads.{HeadOf, RefusalOf};
ghost use Rattle.jr_segments.specs.declared.refusal.Refusal.TheVariants as refusal;
ghost use Rattle.jr_rows.specs.Stream.{HasCounts};
ghost use Rattle.jr_arrival.specs.Arrival.{IsFinalFault};
ghost use Rattle.jr_arrival.specs.PartialFile.{ReturnsFinalLines, HasBegun, HoldsBytes, IsPartialFile, given_of};
ghost use Rattle.jr_arrival.specs.LongerFile.{HasScan};
ghost use Rattle.jr_arrival.specs.Settled.{ReturnsNext, WantsMore};

use crate::finished::Finished;
use crate::partial_head::PartialHead;
use crate::partial_image::PartialImage;
use jr_base::Memory;
use jr_base::limits::MAX_FILE_BYTES;
use jr_head::{Head, read_head};
use jr_segments::Refusal;
use std::alloc::Global;
use std::marker::Model;

/// A file that is still arriving. Its bytes are pushed as they come, in any splitting, and the lines of its image are
/// returned as soon as the bytes so far make them final, each once and in their order.
///
/// Each byte is read once: each look continues in the header at the first segment that was not whole, and then in the
/// scan from where the last look ended. It uses memory for the data of the scan and for a row of MCUs.
#[derive(Drop)]
pub struct PartialFile {
    /// Empty once the scan has begun.
    head: PartialHead,
    partial_image: Option<PartialImage>,
    /// Number of bytes that have arrived, including those past the maximum, which are not kept.
    count: u64,
}

impl Model for PartialFile {
    ghost use Rattle.std.specs.Prelude.{◌≤◌, length, IfSome};
    ghost use Rattle.jr_arrival.specs.PartialFile.{PartialFileValue};

    ghost Value = { PartialFileValue };

    ghost view = { λ a. record { bytes = a.head; partial_image = a.partial_image; count = a.count } };

    ghost invariant = { λ a. IfSome a.partial_image (λ c. c.bytes ≤ a.count) × (length a.head ≤ a.count) };
}

/// Appends bytes of the file to those that are kept or cut.
fn hold(
    head: &mut PartialHead,
    partial_image: &mut Option<PartialImage>,
    more: &[u8],
) -> Result<(), Memory>
    requires few { IfSome partial_image.old (λ c. c.bytes + length more.now ≤ MAX_FILE_BYTES) }
    ensures held { IfOk result (λ _. (so_far : List ℕ) → length (so_far ++ more.now) ≤ MAX_FILE_BYTES → HoldsBytes head.old partial_image.old so_far → HoldsBytes head.new partial_image.new (so_far ++ more.now)) }
    ensures lines { given_of partial_image.new ≡ given_of partial_image.old }
    ensures count { (n : ℕ) → IfSome partial_image.old (λ c. c.bytes ≤ n) → IfSome partial_image.new (λ c. c.bytes ≤ n + length more.now) }
    ensures long { length head.new ≤ length head.old + length more.now }
    ensures bytes { IfErr result (λ _. head.new ≡ head.old) }
    ensures memory { IfErr result (λ _. partial_image.new ≡ partial_image.old) }
{
    match partial_image {
        Some(scan) => scan.push(more)?,
        None => head.push(more)?,
    }
    Ok(())
}

/// Returns the number of the next lines of a scan that are copied into `pixels`, 0 if it has not begun.
fn give(partial_image: &mut Option<PartialImage>, pixels: &mut [u8]) -> u32
    ensures lines { given_of partial_image.new ≡ given_of partial_image.old + result }
    ensures bytes { (n : ℕ) → IfSome partial_image.old (λ c. c.bytes ≤ n) → IfSome partial_image.new (λ c. c.bytes ≤ n) }
    ensures holds { (kept so_far : List ℕ) → HoldsBytes kept partial_image.old so_far → HoldsBytes kept partial_image.new so_far }
    ensures none { partial_image.old ≡ None → result ≡ 0 }
    ensures given { IfSome partial_image.old (λ c. ReturnsFinalLines c (given_of partial_image.old) result pixels.new) }
{
    match partial_image {
        Some(scan) => scan.give(pixels),
        None => 0,
    }
}

/// Returns the scan of a file that has arrived whole: the scan in progress, or a new one from a copy of the bytes kept.
fn begun(
    alloc: Global,
    kept: &[u8],
    partial_image: Option<PartialImage>,
) -> Result<PartialImage, Refusal>
    requires { length kept.now ≤ MAX_FILE_BYTES }
    ensures begun { IfOk result (λ c. (bytes : List ℕ) → HoldsBytes kept.now partial_image bytes → HasBegun c bytes) }
    ensures refusal { IfErr result (λ f. f ≢ refusal.Memory → (bytes : List ℕ) → HoldsBytes kept.now partial_image bytes → RefusalOf bytes f) }
{
    if let Some(partial_image) = partial_image {
        return Ok(partial_image);
    }
    let head = match read_head(alloc, kept) {
        Ok(head) => head,
        Err(refusal) => return Err(refusal),
    };
    let Ok(partial_image) = PartialImage::open(alloc, head, kept) else {
        return Err(Refusal::Memory);
    };
    Ok(partial_image)
}

impl PartialFile {
    /// Returns a file of which nothing has arrived yet.
    pub fn new(alloc: Global) -> PartialFile
        ensures partial_file { IsPartialFile result [] }
        ensures lines { given_of result.partial_image ≡ 0 }
    {
        PartialFile {
            head: PartialHead::new(alloc),
            partial_image: None,
            count: 0,
        }
    }

    /// Appends bytes of the file. On `Err`, none is taken.
    pub fn push(&mut self, more: &[u8]) -> Result<(), Memory>
        ensures pushed { IfOk result (λ _. (bytes : List ℕ) → IsPartialFile self.old bytes → IsPartialFile self.new (bytes ++ more.now)) }
        ensures lines { given_of self.new.partial_image ≡ given_of self.old.partial_image }
        ensures memory { IfErr result (λ _. self.new ≡ self.old) }
    {
        let count = self.count.saturating_add(more.len() as u64);
        if count <= MAX_FILE_BYTES as u64 {
            hold(&mut self.head, &mut self.partial_image, more)?;
        }
        self.count = count;
        Ok(())
    }

    /// Returns the number of bytes that have come.
    pub fn bytes(&self) -> u64
        ensures { (bytes : List ℕ) → IsPartialFile self.now bytes → result ≡ min (length bytes) (2 ^ 64 - 1) }
    {
        self.count
    }

    /// Returns the number of lines that were returned.
    pub fn lines(&self) -> u32
        ensures { result ≡ given_of self.now.partial_image }
    {
        match &self.partial_image {
            Some(partial_image) => partial_image.lines(),
            None => 0,
        }
    }

    /// Reads the header of the file once it is there: that of every file that the bytes so far can become.
    ///
    /// # Errors
    ///
    /// The refusal of every such file. `Memory` if allocation fails; it says nothing about the bytes.
    pub fn begin(&mut self, alloc: Global) -> Result<(), Refusal>
        ensures partial_file { (bytes : List ℕ) → IsPartialFile self.old bytes → IsPartialFile self.new bytes }
        ensures lines { given_of self.new.partial_image ≡ given_of self.old.partial_image }
        ensures small { IfOk result (λ _. (bytes : List ℕ) → IsPartialFile self.old bytes → length bytes ≤ MAX_FILE_BYTES) }
        ensures wanted { IfOk result (λ _. self.new.partial_image ≡ None → (bytes : List ℕ) → IsPartialFile self.old bytes → WantsMore bytes) }
        ensures refusal { IfErr result (λ f. f ≢ refusal.Memory → (bytes : List ℕ) → IsPartialFile self.old bytes → RefusalOf bytes f) }
        ensures stays { IfErr result (λ f. (bytes : List ℕ) → IsPartialFile self.old bytes → IsFinalFault bytes f) }
        ensures kept { IfErr result (λ _. self.new ≡ self.old) }
    {
        if self.count > MAX_FILE_BYTES as u64 {
            return Err(Refusal::TooLong);
        }
        if self.partial_image.is_some() {
            return Ok(());
        }
        let Some(partial_image) = PartialImage::of(alloc, &mut self.head)? else {
            return Ok(());
        };
        self.partial_image = Some(partial_image);
        self.head = PartialHead::new(alloc);
        Ok(())
    }

    /// Returns the header of every file that the bytes so far can become, once it is read.
    pub fn head(&self) -> Option<&Head>
        ensures head { IfSome result (λ h. (bytes : List ℕ) → IsPartialFile self.now bytes → length bytes ≤ MAX_FILE_BYTES → HeadOf bytes h.now) }
        ensures none { IfNone result (self.now.partial_image ≡ None) }
    {
        match &self.partial_image {
            Some(partial_image) => Some(partial_image.head()),
            None => None,
        }
    }

    /// Copies the next lines that the bytes so far make final into `pixels`, as many as fit, a line after the other, of
    /// one byte or three a pixel. Returns their number. Each is a line of every file that the bytes can become.
    ///
    /// # Errors
    ///
    /// The refusal of every file that the bytes can become. `Memory` if allocation fails; then no line is copied.
    pub fn next_lines(&mut self, alloc: Global, pixels: &mut [u8]) -> Result<u32, Refusal>
        ensures given { IfOk result (λ n. (bytes : List ℕ) → IsPartialFile self.old bytes → ReturnsNext bytes (given_of self.old.partial_image) n pixels.new) }
        ensures lines { IfOk result (λ n. given_of self.new.partial_image ≡ given_of self.old.partial_image + n) }
        ensures partial_file { (bytes : List ℕ) → IsPartialFile self.old bytes → IsPartialFile self.new bytes }
        ensures refusal { IfErr result (λ f. f ≢ refusal.Memory → (bytes : List ℕ) → IsPartialFile self.old bytes → RefusalOf bytes f) }
        ensures stays { IfErr result (λ f. (bytes : List ℕ) → IsPartialFile self.old bytes → IsFinalFault bytes f) }
        ensures kept { IfErr result (λ _. self.new ≡ self.old) }
    {
        match self.begin(alloc) {
            Ok(()) => Ok(give(&mut self.partial_image, pixels)),
            Err(refusal) => Err(refusal),
        }
    }

    /// Ends the file. Returns its scan, of whose image lines starting at `lines` are missing, and the numbers of its
    /// sound and damaged restart intervals. It skips the MCUs of lines that were not returned.
    ///
    /// # Errors
    ///
    /// The file's refusal. `Memory` if allocation fails.
    pub fn finish(self, alloc: Global) -> Result<Finished, Refusal>
        ensures scan { IfOk result (λ r. (bytes : List ℕ) → IsPartialFile self bytes → HasScan bytes r.scan) }
        ensures counts { IfOk result (λ r. HasCounts r.scan (length r.scan.intervals) r.counts) }
        ensures refusal { IfErr result (λ f. f ≢ refusal.Memory → (bytes : List ℕ) → IsPartialFile self bytes → RefusalOf bytes f) }
    {
        let PartialFile {
            head,
            partial_image,
            count,
        } = self;
        if count > MAX_FILE_BYTES as u64 {
            return Err(Refusal::TooLong);
        }
        let partial_image = match begun(alloc, head.bytes(), partial_image) {
            Ok(partial_image) => partial_image,
            Err(refusal) => return Err(refusal),
        };
        let Ok(finished) = partial_image.finish(alloc) else {
            return Err(Refusal::Memory);
        };
        Ok(finished)
    }
}
