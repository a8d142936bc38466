//! From the bytes of a file to its image on a canvas of the caller's.

ghost use Rattle.std.specs.Prelude.{◌≡◌, ◌≢◌, ◌+◌, ◌*◌, ◌<◌, ◌≤◌, length, IfOk, IfErr, IfSome, None};
ghost use Rattle.jr_segments.specs.declared.refusal.Refusal.TheVariants as refusal;
ghost use Rattle.jr_head.specs.Heads.{RefusalOf};
ghost use Rattle.jr_head.specs.Geometry.{components_of, mcus_across, mcus_down, vertical_max};
ghost use Rattle.jr_paint.specs.Lines as paint;
ghost use Rattle.jr_picture.specs.DecodedScan.{DecodedScan};
ghost use Rattle.jr_picture.specs.Samples.{samples_of};
ghost use Rattle.jr_rows.specs.Bands.{ShowsMcus, samples_in};
ghost use Rattle.jr_rows.specs.Groups.{units_in};
ghost use Rattle.jr_rows.specs.MarkBytes.{HasMarkSpace, StoresBetween};
ghost use Rattle.jr_rows.specs.Rows.{CountsRows, DecodesFirst, HasSampleSpace, first_line, line_count};
ghost use Rattle.jri_canvas.specs.Layouts.{HavePlaces, LieOn, laid_line, laid_line_size, plain_line_size, sample_count};
ghost use Rattle.jri_memory.specs.Canvases.{DecodesCanvas, LacksCanvas, LacksLayoutOf, LaysScan};
ghost use Rattle.jri_memory.specs.Resyncs.{IsTooLongRead, OfRead};

use crate::decode::DecodeError;
use crate::file_scan::scan_of;
use crate::laying::form_of;
use crate::report::DecodeReport;
use crate::space::{asked_for, lacks_space};
use jr_base::Memory;
use jr_head::{Head, Kind};
use jr_picture::Counts;
use jr_rows::{Marked, Rows, SampleRow, bytes_of_row, counts_of, lines_of, shape_of};
use jr_scan::{FirstIntervals, Scan};
use jr_segments::Refusal;
use jri_canvas::{CanvasLines, Pixels, have_places, lay_lines};
use std::alloc::Global;

/// The layout of lines on a canvas.
#[derive(Clone, Copy)]
pub struct CanvasShape {
    /// The distance between the starts of two lines in bytes.
    pub stride: usize,
    /// The number of the layout.
    pub layout: u32,
}

/// Paints `count` lines starting at line y of the row of MCUs that is decoded into `lines`, and lays them out.
fn lay_some(
    head: &Head,
    work: &mut SampleRow,
    y: u32,
    count: u32,
    lines: &mut [u8],
    form: &CanvasLines,
    canvas: &mut [u8],
)
    requires space { HasSampleSpace head.now work.old }
    requires inside { y + count ≤ head.now.height }
    requires lines { length lines.old ≡ count * paint.line_size head.now }
    requires line { plain_line_size form.now ≡ paint.line_size head.now }
    requires some { 0 < plain_line_size form.now }
    requires stride { laid_line_size form.now ≤ form.now.stride }
    requires places { HavePlaces form.now 0 head.now.height (length canvas.old) }
    ensures space { HasSampleSpace head.now work.new }
    ensures lie { LieOn form.now y (y + count) (λ k. laid_line form.now (paint.line_of head.now (samples_in (record { head = head.now; groups = work.old.lines.groups })) k)) canvas.old canvas.new }
{
    work.paint_some(head, y, count, lines);
    lay_lines(lines, form, y, count as usize, canvas);
}

/// Paints the lines of the row of MCUs that is decoded, and lays them out.
fn lay_row(
    head: &Head,
    work: &mut SampleRow,
    row: u32,
    lines: &mut [u8],
    form: &CanvasLines,
    canvas: &mut [u8],
)
    requires row { row < mcus_down head.now }
    requires space { HasSampleSpace head.now work.old }
    requires lines { 8 * vertical_max head.now * paint.line_size head.now ≤ length lines.old }
    requires line { plain_line_size form.now ≡ paint.line_size head.now }
    requires some { 0 < plain_line_size form.now }
    requires stride { laid_line_size form.now ≤ form.now.stride }
    requires places { HavePlaces form.now 0 head.now.height (length canvas.old) }
    ensures long { length lines.new ≡ length lines.old }
    ensures space { HasSampleSpace head.now work.new }
    ensures lie { (b : DecodedScan) → b.scan.head ≡ head.now → ShowsMcus b (row * mcus_across head.now) (units_in head.now work.old.lines.groups)
        → LieOn form.now (first_line head.now row) (first_line head.now row + line_count head.now row) (λ k. laid_line form.now (paint.line_of head.now (samples_of b) k)) canvas.old canvas.new }
{
    head.assert_invariant();
    let (y, count) = lines_of(head, row);
    let size = count as usize * form.bytes_before();
    lay_some(head, work, y, count, &mut lines[..size], form, canvas);
}

/// Decodes a scan, lays out the lines of its image, and stores its marks if these are asked for.
fn lay_rows(
    scan: &Scan,
    work: &mut SampleRow,
    lines: &mut [u8],
    form: &CanvasLines,
    canvas: &mut [u8],
    marks: &mut [u8],
) -> Marked
    requires space { HasSampleSpace scan.now.head work.old }
    requires lines { 8 * vertical_max scan.now.head * paint.line_size scan.now.head ≤ length lines.old }
    requires line { plain_line_size form.now ≡ paint.line_size scan.now.head }
    requires some { 0 < plain_line_size form.now }
    requires stride { laid_line_size form.now ≤ form.now.stride }
    requires places { HavePlaces form.now 0 scan.now.head.height (length canvas.old) }
    requires marks { HasMarkSpace scan.now marks.old }
    ensures lie { (b : DecodedScan) → DecodesFirst scan.now (length scan.now.intervals) b → LieOn form.now 0 scan.now.head.height (λ k. laid_line form.now (paint.line_of scan.now.head (samples_of b) k)) canvas.old canvas.new }
    ensures counts { CountsRows scan.now (length scan.now.intervals) result }
    ensures stores { StoresBetween scan.now 0 (mcus_down scan.now.head) marks.old marks.new }
{
    let head = scan.head();
    // By their contracts an image has an MCU, and a scan the number of intervals that its header says.
    let _some = (head.mcus(), scan.intervals());
    let down = shape_of(head).down;
    let part = FirstIntervals::of(scan, None);
    let mut rows = Rows::of(&part);
    let mut marked = Marked::none();
    'rows: while rows.row() < down {
        let row = rows.row();
        let more = rows.decode(&part, None, work, marks);
        marked = marked.with(more);
        lay_row(head, work, row, lines, form, canvas);
    }
    marked
}

/// Decodes a scan and lays out its image. It allocates a row of MCUs and its lines; nothing is written before it has
/// them.
fn lay_scan(
    alloc: Global,
    scan: &Scan,
    form: &CanvasLines,
    canvas: &mut [u8],
    marks: &mut [u8],
) -> Result<Counts, Memory>
    requires line { plain_line_size form.now ≡ paint.line_size scan.now.head }
    requires some { 0 < plain_line_size form.now }
    requires stride { laid_line_size form.now ≤ form.now.stride }
    requires places { HavePlaces form.now 0 scan.now.head.height (length canvas.old) }
    requires marks { HasMarkSpace scan.now marks.old }
    ensures laid { IfOk result (LaysScan scan.now form.now canvas.old canvas.new marks.old marks.new) }
    ensures canvas { IfErr result (λ _. canvas.new ≡ canvas.old) }
    ensures marks { IfErr result (λ _. marks.new ≡ marks.old) }
{
    let mut work = SampleRow::open(alloc, scan.head())?;
    let mut lines = vec![in alloc; 0; bytes_of_row(scan.head())]?;
    // By its contract an image has an MCU.
    let _some = scan.head().mcus();
    let all = scan.intervals();
    let marked = lay_rows(scan, &mut work, &mut lines, form, canvas, marks);
    Ok(counts_of(scan, all, marked))
}

/// Returns the pixels of an image.
fn pixels_in(head: &Head) -> Pixels
    ensures components { sample_count result ≡ components_of head.now }
    ensures line { sample_count result * head.now.width ≡ paint.line_size head.now }
{
    // By its contract a header has the number of components that its kind says.
    let _components = head.components();
    match head.kind() {
        Kind::Grey => Pixels::Grey,
        Kind::Rgb => Pixels::Colour,
        Kind::Ycc => Pixels::Colour,
    }
}

/// Decodes a file, resynchronised unless `resync` is 0, onto a canvas, and stores its marks at the start of `marks`
/// unless that is empty. `None` if there is no such layout, or a line is longer than the stride; then, and on `Err`,
/// nothing is written.
pub(crate) fn decode_on(
    alloc: Global,
    file: &[u8],
    resync: u32,
    shape: CanvasShape,
    canvas: &mut [u8],
    marks: &mut [u8],
) -> Result<Option<DecodeReport>, DecodeError>
    ensures decoded { IfOk result (λ o. IfSome o (λ r. OfRead file.now resync (λ read. DecodesCanvas read shape.stride shape.layout canvas.old canvas.new marks.old marks.new r))) }
    ensures none { result ≡ Ok None → canvas.new ≡ canvas.old }
    ensures no_marks { result ≡ Ok None → marks.new ≡ marks.old }
    ensures refused { IfErr result (λ e. (f : Refusal) → e ≡ DecodeError.Refused f → f ≢ refusal.Memory → RefusalOf file.now f) }
    ensures layout { result ≡ Ok None → LacksLayoutOf file.now shape.stride shape.layout }
    ensures space { result ≡ Err DecodeError.BufferTooSmall → LacksCanvas file.now shape.stride shape.layout (length canvas.old) (length marks.old) }
    ensures long { result ≡ Err DecodeError.TooLong → IsTooLongRead file.now resync }
    ensures canvas { IfErr result (λ _. canvas.new ≡ canvas.old) }
    ensures marks { IfErr result (λ _. marks.new ≡ marks.old) }
{
    let scan = scan_of(alloc, file, resync)?;
    let head = scan.head();
    let Some(form) = form_of(head.width(), pixels_in(head), shape.stride, shape.layout) else {
        return Ok(None);
    };
    let count = scan.intervals();
    if !have_places(&form, head.height() as usize, canvas.len()) {
        return Err(DecodeError::BufferTooSmall);
    }
    if lacks_space(marks, count) {
        return Err(DecodeError::BufferTooSmall);
    }
    let asked = asked_for(marks, count);
    let Ok(counts) = lay_scan(alloc, &scan, &form, canvas, &mut marks[..asked]) else {
        return Err(DecodeError::Refused(Refusal::Memory));
    };
    Ok(Some(DecodeReport::of(&scan, counts)))
}
