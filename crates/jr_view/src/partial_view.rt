//! What can be seen of an image whose file is still arriving.

ghost use Rattle.std.specs.Prelude.{◌≡◌, ◌≢◌, ℕ, ◌+◌, ◌*◌, ◌<◌, ◌≤◌, ◌++◌, List, [], length, take, drop, replicate, IfOk, IfErr, IfSome, IfNone};
ghost use Rattle.jr_base.specs.declared.limits.TheConstants.{MAX_FILE_BYTES};
ghost use Rattle.jr_head.specs.Heads.{HeadOf, RefusalOf};
ghost use Rattle.jr_paint.specs.Lines.{line_size};
ghost use Rattle.jr_segments.specs.declared.refusal.Refusal.TheVariants as refusal;
ghost use Rattle.jr_rows.specs.Stream.{HasCounts};
ghost use Rattle.jr_arrival.specs.Arrival.{IsFinalFault};
ghost use Rattle.jr_arrival.specs.PartialFile.{IsPartialFile, given_of};
ghost use Rattle.jr_arrival.specs.LongerFile.{HasScan};
ghost use Rattle.jr_arrival.specs.Settled.{WantsMore};
ghost use Rattle.jr_view.specs.PartialViews.{AreSettled, AreScanLines, IsSeen, KeepsLines, lines_shown, view_of};

use crate::finished_view::{FinishedView, paint_rest};
use crate::shown::GREY;
use jr_arrival::{Finished, PartialFile};
use jr_base::Memory;
use jr_head::Head;
use jr_rows::shape_of;
use jr_segments::Refusal;
use std::alloc::Global;
use std::marker::Model;

/// What can be seen of an image whose file is still arriving: the lines that its bytes so far make final, which every
/// file shows that they can become, and mid-grey after them. What was shown is never taken back.
///
/// It uses memory for the data of the scan, for a row of MCUs, and, once the header is there, for all lines of the
/// image.
#[derive(Drop)]
pub struct PartialView {
    partial_file: PartialFile,
    /// All lines of the image, one after the other; empty before the header is there.
    pixels: Vec<u8>,
    /// Space for the lines of a row of MCUs, which are painted there before they are shown.
    row: Vec<u8>,
}

impl Model for PartialView {
    ghost use Rattle.std.specs.Prelude.{List, ℕ, length};
    ghost use Rattle.jr_view.specs.PartialViews.{PartialViewValue, IsSeen};

    ghost Value = { PartialViewValue };

    ghost view = { λ v. record { partial_file = v.partial_file; pixels = v.pixels.items; space = length v.row.items } };

    ghost invariant = { λ v. (bytes : List ℕ) × IsSeen (record { partial_file = v.partial_file; pixels = v.pixels.items; space = length v.row.items }) bytes };
}

/// Returns all lines of an image with this header, mid-grey.
fn grey_lines(alloc: Global, head: &Head) -> Result<Vec<u8>, Memory>
    ensures grey { IfOk result (λ p. p.items ≡ replicate (head.now.height * line_size head.now) 128) }
    ensures some { IfOk result (λ p. p.items ≢ []) }
{
    head.assert_invariant();
    let size = head.height() as usize * shape_of(head).line;
    Ok(vec![in alloc; GREY; size]?)
}

/// Returns the lines of an image with this header: those that are there, or grey ones.
fn lines_or_grey(alloc: Global, head: &Head, lines: Vec<u8>) -> Result<Vec<u8>, Memory>
    ensures there { IfOk result (λ p. lines.items ≢ [] → p.items ≡ lines.items) }
    ensures none { IfOk result (λ p. lines.items ≡ [] → length p.items ≡ head.now.height * line_size head.now) }
{
    if lines.is_empty() {
        return grey_lines(alloc, head);
    }
    Ok(lines)
}

/// Allocates space for the lines of a row of MCUs of an image with this header.
fn row_space(alloc: Global, head: &Head) -> Result<Vec<u8>, Memory>
    ensures { IfOk result (λ r. line_size head.now ≤ length r.items) }
{
    let shape = shape_of(head);
    Ok(vec![in alloc; 0; shape.deep as usize * shape.line]?)
}

/// Copies `count` lines of `line` bytes after the first ones of an image.
fn write_lines(pixels: &mut [u8], first: u32, lines: &[u8], count: u32, line: usize)
    requires short { line ≤ 196605 }
    requires inside { (first + count) * line ≤ length pixels.old }
    requires there { count * line ≤ length lines.now }
    ensures before { take (first * line) pixels.new ≡ take (first * line) pixels.old }
    ensures store { take ((first + count) * line) pixels.new ≡ take (first * line) pixels.old ++ take (count * line) lines.now }
    ensures after { drop ((first + count) * line) pixels.new ≡ drop ((first + count) * line) pixels.old }
{
    let from = first as usize * line;
    let size = count as usize * line;
    pixels[from..from + size].copy_from_slice(&lines[..size]);
}

/// Reads the header of a file once it is there, and allocates the lines of its image, all grey.
fn open(
    alloc: Global,
    partial_file: &mut PartialFile,
    row: &mut Vec<u8>,
    pixels: &mut Vec<u8>,
) -> Result<(), Refusal>
    ensures seen { (bytes : List ℕ) → IsSeen (view_of partial_file.old pixels.old.items row.old.items) bytes → IsSeen (view_of partial_file.new pixels.new.items row.new.items) bytes }
    ensures lines { given_of partial_file.new.partial_image ≡ given_of partial_file.old.partial_image }
    ensures kept { pixels.old.items ≢ [] → pixels.new ≡ pixels.old }
    ensures wanted { IfOk result (λ _. pixels.new.items ≡ [] → (bytes : List ℕ) → IsPartialFile partial_file.old bytes → WantsMore bytes) }
    ensures refusal { IfErr result (λ f. f ≢ refusal.Memory → (bytes : List ℕ) → IsPartialFile partial_file.old bytes → RefusalOf bytes f) }
    ensures stays { IfErr result (λ f. (bytes : List ℕ) → IsPartialFile partial_file.old bytes → IsFinalFault bytes f) }
{
    match partial_file.begin(alloc) {
        Ok(()) => {}
        Err(refusal) => return Err(refusal),
    }
    if !pixels.is_empty() {
        return Ok(());
    }
    let Some(head) = partial_file.head() else {
        return Ok(());
    };
    let Ok(next) = row_space(alloc, head) else {
        return Err(Refusal::Memory);
    };
    let Ok(lines) = grey_lines(alloc, head) else {
        return Err(Refusal::Memory);
    };
    *row = next;
    *pixels = lines;
    Ok(())
}

/// Shows the next lines that are final, as many as fit into `row`, after those of `pixels` that are shown, and returns
/// their number.
fn show_next(
    alloc: Global,
    partial_file: &mut PartialFile,
    row: &mut [u8],
    pixels: &mut [u8],
) -> Result<u32, Refusal>
    requires some { pixels.old ≢ [] }
    requires seen { (bytes : List ℕ) × IsSeen (view_of partial_file.old pixels.old row.old) bytes }
    ensures seen { (bytes : List ℕ) → IsSeen (view_of partial_file.old pixels.old row.old) bytes → IsSeen (view_of partial_file.new pixels.new row.new) bytes }
    ensures lines { IfOk result (λ n. given_of partial_file.new.partial_image ≡ given_of partial_file.old.partial_image + n) }
    ensures kept { KeepsLines (view_of partial_file.old pixels.old row.old) (view_of partial_file.new pixels.new row.new) }
    ensures settled { IfOk result (λ n. n ≡ 0 → (bytes : List ℕ) → IsSeen (view_of partial_file.old pixels.old row.old) bytes → AreSettled bytes (given_of partial_file.new.partial_image)) }
    ensures refusal { IfErr result (λ f. f ≢ refusal.Memory → (bytes : List ℕ) → IsPartialFile partial_file.old bytes → RefusalOf bytes f) }
    ensures stays { IfErr result (λ f. (bytes : List ℕ) → IsPartialFile partial_file.old bytes → IsFinalFault bytes f) }
    ensures unchanged { IfErr result (λ _. partial_file.new ≡ partial_file.old) }
{
    let first = partial_file.lines();
    let count = match partial_file.next_lines(alloc, row) {
        Ok(count) => count,
        Err(refusal) => return Err(refusal),
    };
    if count == 0 {
        return Ok(0);
    }
    let Some(head) = partial_file.head() else {
        unreachable!()
    };
    write_lines(pixels, first, row, count, shape_of(head).line);
    Ok(count)
}

/// Shows all lines that are final.
fn show_all(
    alloc: Global,
    partial_file: &mut PartialFile,
    row: &mut [u8],
    pixels: &mut [u8],
) -> Result<(), Refusal>
    requires some { pixels.old ≢ [] }
    requires seen { (bytes : List ℕ) × IsSeen (view_of partial_file.old pixels.old row.old) bytes }
    ensures seen { (bytes : List ℕ) → IsSeen (view_of partial_file.old pixels.old row.old) bytes → IsSeen (view_of partial_file.new pixels.new row.new) bytes }
    ensures lines { given_of partial_file.old.partial_image ≤ given_of partial_file.new.partial_image }
    ensures kept { KeepsLines (view_of partial_file.old pixels.old row.old) (view_of partial_file.new pixels.new row.new) }
    ensures settled { IfOk result (λ _. (bytes : List ℕ) → IsSeen (view_of partial_file.old pixels.old row.old) bytes → AreSettled bytes (given_of partial_file.new.partial_image)) }
    ensures refusal { IfErr result (λ f. f ≢ refusal.Memory → (bytes : List ℕ) → IsSeen (view_of partial_file.old pixels.old row.old) bytes → RefusalOf bytes f) }
    ensures stays { IfErr result (λ f. (bytes : List ℕ) → IsSeen (view_of partial_file.old pixels.old row.old) bytes → IsFinalFault bytes f) }
{
    'rows: loop {
        // By its contract the number of the lines fits.
        let _lines = partial_file.lines();
        let count = match show_next(alloc, partial_file, row, pixels) {
            Ok(count) => count,
            Err(refusal) => return Err(refusal),
        };
        if count == 0 {
            return Ok(());
        }
    }
}

/// Shows all lines that are final, once there is a header.
fn show_settled(
    alloc: Global,
    partial_file: &mut PartialFile,
    row: &mut Vec<u8>,
    pixels: &mut Vec<u8>,
) -> Result<(), Refusal>
    requires seen { (bytes : List ℕ) × IsSeen (view_of partial_file.old pixels.old.items row.old.items) bytes }
    ensures seen { (bytes : List ℕ) → IsSeen (view_of partial_file.old pixels.old.items row.old.items) bytes → IsSeen (view_of partial_file.new pixels.new.items row.new.items) bytes }
    ensures lines { given_of partial_file.old.partial_image ≤ given_of partial_file.new.partial_image }
    ensures kept { KeepsLines (view_of partial_file.old pixels.old.items row.old.items) (view_of partial_file.new pixels.new.items row.new.items) }
    ensures settled { IfOk result (λ _. (bytes : List ℕ) → IsSeen (view_of partial_file.old pixels.old.items row.old.items) bytes → AreSettled bytes (given_of partial_file.new.partial_image)) }
    ensures wanted { IfOk result (λ _. pixels.new.items ≡ [] → (bytes : List ℕ) → IsSeen (view_of partial_file.old pixels.old.items row.old.items) bytes → WantsMore bytes) }
    ensures refusal { IfErr result (λ f. f ≢ refusal.Memory → (bytes : List ℕ) → IsSeen (view_of partial_file.old pixels.old.items row.old.items) bytes → RefusalOf bytes f) }
    ensures stays { IfErr result (λ f. (bytes : List ℕ) → IsSeen (view_of partial_file.old pixels.old.items row.old.items) bytes → IsFinalFault bytes f) }
{
    match open(alloc, partial_file, row, pixels) {
        Ok(()) => {}
        Err(refusal) => return Err(refusal),
    }
    if pixels.is_empty() {
        return Ok(());
    }
    match show_all(
        alloc,
        partial_file,
        row.as_mut_slice(),
        pixels.as_mut_slice(),
    ) {
        Ok(()) => Ok(()),
        Err(refusal) => Err(refusal),
    }
}

impl PartialView {
    /// Returns a view of a file of which nothing has come yet.
    pub fn new(alloc: Global) -> PartialView
        ensures { IsSeen result [] }
    {
        PartialView {
            partial_file: PartialFile::new(alloc),
            pixels: Vec::new(alloc),
            row: Vec::new(alloc),
        }
    }

    /// Appends bytes of the file; `show` shows the lines that they make final. On `Err`, none is taken.
    pub fn push(&mut self, more: &[u8]) -> Result<(), Memory>
        ensures seen { IfOk result (λ _. (bytes : List ℕ) → IsSeen self.old bytes → IsSeen self.new (bytes ++ more.now)) }
        ensures lines { lines_shown self.new ≡ lines_shown self.old }
        ensures pixels { self.new.pixels ≡ self.old.pixels }
        ensures memory { IfErr result (λ _. self.new ≡ self.old) }
    {
        self.partial_file.push(more)?;
        Ok(())
    }

    /// Returns the header of every file that the bytes so far can become, once it is read.
    pub fn head(&self) -> Option<&Head>
        ensures head { IfSome result (λ h. (bytes : List ℕ) → IsSeen self.now bytes → length bytes ≤ MAX_FILE_BYTES → HeadOf bytes h.now) }
        ensures none { IfNone result (lines_shown self.now ≡ 0) }
    {
        self.partial_file.head()
    }

    /// Returns the number of lines that are shown.
    pub fn lines(&self) -> u32
        ensures { result ≡ lines_shown self.now }
    {
        self.partial_file.lines()
    }

    /// Returns the lines of the image, one after the other, of one byte or three a pixel: those that are shown, and
    /// mid-grey. Empty before there is a header.
    pub fn pixels(&self) -> &[u8]
        ensures { result.now ≡ self.now.pixels }
    {
        &self.pixels
    }

    /// Shows the lines that the bytes so far make final.
    ///
    /// # Errors
    ///
    /// The refusal of every file that the bytes can become. `Memory` if allocation fails; then it may be called again.
    pub fn show(&mut self, alloc: Global) -> Result<(), Refusal>
        ensures seen { (bytes : List ℕ) → IsSeen self.old bytes → IsSeen self.new bytes }
        ensures lines { lines_shown self.old ≤ lines_shown self.new }
        ensures kept { KeepsLines self.old self.new }
        ensures settled { IfOk result (λ _. (bytes : List ℕ) → IsSeen self.old bytes → AreSettled bytes (lines_shown self.new)) }
        ensures wanted { IfOk result (λ _. self.new.pixels ≡ [] → (bytes : List ℕ) → IsSeen self.old bytes → WantsMore bytes) }
        ensures refusal { IfErr result (λ f. f ≢ refusal.Memory → (bytes : List ℕ) → IsSeen self.old bytes → RefusalOf bytes f) }
        ensures stays { IfErr result (λ f. (bytes : List ℕ) → IsSeen self.old bytes → IsFinalFault bytes f) }
    {
        show_settled(
            alloc,
            &mut self.partial_file,
            &mut self.row,
            &mut self.pixels,
        )
    }

    /// Ends the file. Decodes the missing lines, and returns the image of the file with its scan and the numbers of its
    /// sound and damaged restart intervals.
    ///
    /// # Errors
    ///
    /// The file's refusal. `Memory` if allocation fails.
    pub fn finish(self, alloc: Global) -> Result<FinishedView, Refusal>
        ensures scan { IfOk result (λ r. (bytes : List ℕ) → IsSeen self bytes → HasScan bytes r.scan) }
        ensures counts { IfOk result (λ r. HasCounts r.scan (length r.scan.intervals) r.counts) }
        ensures picture { IfOk result (λ r. AreScanLines r.scan r.pixels.items) }
        ensures refusal { IfErr result (λ f. f ≢ refusal.Memory → (bytes : List ℕ) → IsSeen self bytes → RefusalOf bytes f) }
    {
        let PartialView {
            partial_file,
            pixels,
            ..
        } = self;
        let first = partial_file.lines();
        let Finished { scan, counts } = match partial_file.finish(alloc) {
            Ok(finished) => finished,
            Err(refusal) => return Err(refusal),
        };
        let Ok(mut pixels) = lines_or_grey(alloc, scan.head(), pixels) else {
            return Err(Refusal::Memory);
        };
        let Ok(()) = paint_rest(alloc, &scan, first, pixels.as_mut_slice()) else {
            return Err(Refusal::Memory);
        };
        Ok(FinishedView {
            scan,
            counts,
            pixels,
        })
    }
}
