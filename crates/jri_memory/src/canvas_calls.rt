//! The call that decodes onto a canvas.

ghost use Rattle.std.specs.Prelude.{◌≡◌, ◌≢◌, ◌<◌, ◌≤◌, length};
ghost use Rattle.jri_memory.specs.Calls.{ReportsFault, ReportsNoPicture, ReportsNoRefusal};
ghost use Rattle.jri_memory.specs.Canvases.{DecodesCanvas, LacksCanvas, LacksLayoutOf};
ghost use Rattle.jri_memory.specs.Resyncs.{IsTooLongRead, OfRead};

use crate::answers::{report_decoded, report_undone};
use crate::canvas::{CanvasShape, decode_on};
use crate::report::DecodeReport;
use crate::status::NO_LAYOUT;
use std::alloc::Global;

/// Decodes a file, resynchronised unless `resync` is 0, onto a canvas, line k starting at byte `k * stride`, in the layout
/// of this number, and its marks into the start of `marks` unless that is empty. Returns 0, or 3 if an interval is
/// damaged. With 1 if allocation fails, 2 if the file is refused, 4 if a buffer is too small, 6 if there is no such layout
/// or a line is longer than the stride, and 8 if the resynchronised file would be too long, both are unchanged.
pub fn decode_canvas(
    alloc: Global,
    file: &[u8],
    resync: u32,
    canvas: &mut [u8],
    shape: CanvasShape,
    marks: &mut [u8],
    report: &mut DecodeReport,
) -> u32
    ensures sound { result ≡ 0 → OfRead file.now resync (λ read. DecodesCanvas read shape.stride shape.layout canvas.old canvas.new marks.old marks.new report.new) }
    ensures damaged { result ≡ 3 → OfRead file.now resync (λ read. DecodesCanvas read shape.stride shape.layout canvas.old canvas.new marks.old marks.new report.new) }
    ensures undamaged { result ≡ 0 → report.new.damaged ≡ 0 }
    ensures some_damaged { result ≡ 3 → 0 < report.new.damaged }
    ensures refused { result ≡ 2 → ReportsFault file.now report.new.refusal report.new.detail }
    ensures memory { result ≡ 1 → report.new.refusal ≡ 19 }
    ensures space { result ≡ 4 → LacksCanvas file.now shape.stride shape.layout (length canvas.old) (length marks.old) }
    ensures space_alone { result ≡ 4 → ReportsNoRefusal report.new }
    ensures layout { result ≡ 6 → LacksLayoutOf file.now shape.stride shape.layout }
    ensures layout_alone { result ≡ 6 → ReportsNoRefusal report.new }
    ensures long { result ≡ 8 → IsTooLongRead file.now resync }
    ensures long_alone { result ≡ 8 → ReportsNoRefusal report.new }
    ensures no_picture { result ≢ 0 → result ≢ 3 → ReportsNoPicture report.new }
    ensures canvas { result ≢ 0 → result ≢ 3 → canvas.new ≡ canvas.old }
    ensures marks { result ≢ 0 → result ≢ 3 → marks.new ≡ marks.old }
    ensures few { result ≢ 8 → result ≤ 6 }
    ensures no_lines { result ≢ 5 }
{
    match decode_on(alloc, file, resync, shape, canvas, marks) {
        Ok(Some(decoded)) => report_decoded(decoded, report),
        Ok(None) => {
            *report = DecodeReport::empty();
            NO_LAYOUT
        }
        Err(undecoded) => report_undone(undecoded, report),
    }
}
