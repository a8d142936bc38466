//! libjri: the decoder for C. `jri.h` says what each call does for a C caller, and `jri_memory` has what does it.
//!
//! No call starts a thread, waits, or keeps anything: calls on different buffers may run at once.
#![tactic(auto)]

ghost use Rattle.std.specs.Prelude.{◌≡◌, ◌≢◌, ◌<◌, ◌≤◌, ◌⊎◌, ℕ, List, length, drop, false};
ghost use Rattle.jr_arrival.specs.Arrival.{CanBecome};
ghost use Rattle.jr_arrival.specs.Settled.{WantsMore};
ghost use Rattle.jri_memory.specs.Canvases.{DecodesCanvas, LacksCanvas, LacksLayoutOf, LacksLinesToLay, LacksSpaceToLay, LaysOut};
ghost use Rattle.jri_memory.specs.Damages.{ListsInEach, ReportsNoDamage};
ghost use Rattle.jri_memory.specs.Checks.{ChecksFile, LacksMarkSpace};
ghost use Rattle.jri_memory.specs.Mends.{HasOtherHeader, IsTooLongMend, LackCopies, LacksMendSpace, MendsFiles, ReportsCopyFault, ReportsNoMend, files_of};
ghost use Rattle.jri_memory.specs.Resyncs.{IsTooLongFile, IsTooLongRead, LacksResyncSpace, OfRead, ResyncsFile, ReportsNoResync};
ghost use Rattle.jri_memory.specs.Calls.{DecodesFile, DecodesLines, ReportsFault, IsHeaderOf, IsNumberOfSome, LacksLines, LacksSpace, LacksSpaceForLines, ReportsNoHeader, ReportsNoPicture, ReportsNoRefusal, ReportsNoSize, ReportsSize};
ghost use Rattle.jri_memory.specs.Frames.{HasOneSize};
ghost use Rattle.jri_memory.specs.Rows.{ReturnsRows, LacksSpaceForRow, LacksRows, LiesInside, LiesOutside, SkipsRows, ReportsPartialFault, ReportsNoRows, ReportsNothing, are_all, file_part, window_part};

use jr_cut::Break;
use jri_memory::{
    CanvasShape, ChoiceEntry, Damage, DamageReport, DecodeReport, FileBytes, Header, MendReport,
    ResyncReport, RowPlace, RowsReport, build_text, check_marks, decode_canvas, decode_file,
    decode_file_rows, decode_lines, decode_window_rows, end_text, lay_out, list_damages,
    mend_files, read_header, refusal_text, resynchronise_file, skip_file_rows, skip_window_rows,
};
use std::alloc::Global;

/// The version number of these calls: it changes if one of them does.
const VERSION: u32 = 11;

/// The number of these calls.
#[unsafe(no_mangle)]
pub extern "C" fn jri_version() -> u32
    ensures { result ≡ 11 }
{
    VERSION
}

/// Reads a file's header, and decodes nothing; more of the file may come if `more` is not 0. Returns 0 with what the header says, 1 if
/// memory ran out, 2 if the file is refused, and 7 if more bytes are wanted. With 0 the header, and with more to come a refusal, is
/// that of every file that begins with these bytes. With 2 the header has the size in the file's first frame header, if there is one.
#[unsafe(no_mangle)]
pub extern "C" fn jri_read_header(alloc: Global, file: &[u8], more: u32, header: &mut Header) -> u32
    ensures read { result ≡ 0 → IsHeaderOf file.now header.new }
    ensures stays { result ≡ 0 → (whole : List ℕ) → CanBecome file.now whole → IsHeaderOf whole header.new }
    ensures refused { result ≡ 2 → ReportsFault file.now header.new.refusal header.new.detail }
    ensures refused_for_good { result ≡ 2 → are_all more ≡ false → (whole : List ℕ) → CanBecome file.now whole → ReportsFault whole header.new.refusal header.new.detail }
    ensures memory { result ≡ 1 → header.new.refusal ≡ 19 }
    ensures wanted { result ≡ 7 → WantsMore file.now }
    ensures partial { result ≡ 7 → are_all more ≡ false }
    ensures no_refusal { result ≡ 7 → (header.new.refusal ≡ 0) × (header.new.detail ≡ 0) }
    ensures no_header { result ≢ 0 → ReportsNoHeader header.new }
    ensures size { result ≡ 2 → ReportsSize file.now header.new }
    ensures size_stays { result ≡ 2 → ReportsNoSize header.new ⊎ ((whole : List ℕ) → CanBecome file.now whole → HasOneSize whole header.new.width header.new.height header.new.components) }
    ensures no_size { result ≢ 0 → result ≢ 2 → ReportsNoSize header.new }
    ensures few { result ≢ 7 → result ≤ 2 }
{
    read_header(alloc, file, more, header)
}

/// Decodes a file, resynchronised unless `resync` is 0, into the start of `pixels`, and its marks into that of `marks`
/// unless that is empty. Returns 0, or 3 if an interval is damaged. With 1 if allocation fails, 2 if the file is refused,
/// 4 if a buffer is too small, and 8 if the resynchronised file would be too long, both are unchanged.
#[unsafe(no_mangle)]
pub extern "C" fn jri_decode(
    alloc: Global,
    file: &[u8],
    resync: u32,
    pixels: &mut [u8],
    marks: &mut [u8],
    report: &mut DecodeReport,
) -> u32
    ensures sound { result ≡ 0 → OfRead file.now resync (λ read. DecodesFile read pixels.old pixels.new marks.old marks.new report.new) }
    ensures damaged { result ≡ 3 → OfRead file.now resync (λ read. DecodesFile read pixels.old pixels.new marks.old marks.new report.new) }
    ensures undamaged { result ≡ 0 → report.new.damaged ≡ 0 }
    ensures some_damaged { result ≡ 3 → 0 < report.new.damaged }
    ensures refused { result ≡ 2 → ReportsFault file.now report.new.refusal report.new.detail }
    ensures memory { result ≡ 1 → report.new.refusal ≡ 19 }
    ensures space { result ≡ 4 → LacksSpace file.now (length pixels.old) (length marks.old) }
    ensures space_alone { result ≡ 4 → ReportsNoRefusal report.new }
    ensures long { result ≡ 8 → IsTooLongRead file.now resync }
    ensures long_alone { result ≡ 8 → ReportsNoRefusal report.new }
    ensures no_picture { result ≢ 0 → result ≢ 3 → ReportsNoPicture report.new }
    ensures pixels { result ≢ 0 → result ≢ 3 → pixels.new ≡ pixels.old }
    ensures marks { result ≢ 0 → result ≢ 3 → marks.new ≡ marks.old }
    ensures few { result ≢ 8 → result ≤ 4 }
{
    decode_file(alloc, file, resync, pixels, marks, report)
}

/// Decodes `count` lines of the image of a file, resynchronised unless `resync` is 0, starting at line `first` into the
/// start of `pixels`. Returns 0, or 3 if an interval is damaged that ends in the rows of MCUs of these lines. With 1 if
/// allocation fails, 2 if the file is refused, 4 if the buffer is too small, 5 if the image has no such lines, and 8 if
/// the resynchronised file would be too long, it is unchanged.
#[unsafe(no_mangle)]
pub extern "C" fn jri_decode_lines(
    alloc: Global,
    file: &[u8],
    resync: u32,
    first: u32,
    count: u32,
    pixels: &mut [u8],
    report: &mut DecodeReport,
) -> u32
    ensures sound { result ≡ 0 → OfRead file.now resync (λ read. DecodesLines read first count pixels.old pixels.new report.new) }
    ensures damaged { result ≡ 3 → OfRead file.now resync (λ read. DecodesLines read first count pixels.old pixels.new report.new) }
    ensures undamaged { result ≡ 0 → report.new.damaged ≡ 0 }
    ensures some_damaged { result ≡ 3 → 0 < report.new.damaged }
    ensures refused { result ≡ 2 → ReportsFault file.now report.new.refusal report.new.detail }
    ensures memory { result ≡ 1 → report.new.refusal ≡ 19 }
    ensures space { result ≡ 4 → LacksSpaceForLines file.now count (length pixels.old) }
    ensures space_alone { result ≡ 4 → ReportsNoRefusal report.new }
    ensures lines { result ≡ 5 → LacksLines file.now first count }
    ensures lines_alone { result ≡ 5 → ReportsNoRefusal report.new }
    ensures long { result ≡ 8 → IsTooLongRead file.now resync }
    ensures long_alone { result ≡ 8 → ReportsNoRefusal report.new }
    ensures no_picture { result ≢ 0 → result ≢ 3 → ReportsNoPicture report.new }
    ensures pixels { result ≢ 0 → result ≢ 3 → pixels.new ≡ pixels.old }
    ensures few { result ≢ 8 → result ≤ 5 }
{
    decode_lines(alloc, file, resync, first, count, pixels, report)
}

/// Writes the text of a refusal by its numbers into `text`, as much as fits, with no 0 after it, and returns its length
/// in bytes: 0 if no refusal has that number.
#[unsafe(no_mangle)]
pub extern "C" fn jri_refusal_text(number: u32, detail: u64, text: &mut [u8]) -> u64
    ensures some { IsNumberOfSome number → 0 < length text.old → 0 < result }
    ensures none { 0 < result → IsNumberOfSome number }
    ensures few { result ≤ length text.new }
    ensures most { result ≤ 64 }
    ensures kept { drop result text.new ≡ drop result text.old }
{
    refusal_text(number, detail, text) as u64
}

/// Checks a file, resynchronised unless `resync` is 0: reads each restart interval as a decoder does, makes no image, and
/// stores the marks at the start of `marks` unless that is empty. Returns 0, or 3 if an interval is damaged. With 1 if
/// allocation fails, 2 if the file is refused, 4 if `marks` is too small, and 8 if the resynchronised file would be too
/// long, it is unchanged.
#[unsafe(no_mangle)]
pub extern "C" fn jri_check(
    alloc: Global,
    file: &[u8],
    resync: u32,
    marks: &mut [u8],
    report: &mut DecodeReport,
) -> u32
    ensures sound { result ≡ 0 → OfRead file.now resync (λ read. ChecksFile read marks.old marks.new report.new) }
    ensures damaged { result ≡ 3 → OfRead file.now resync (λ read. ChecksFile read marks.old marks.new report.new) }
    ensures undamaged { result ≡ 0 → report.new.damaged ≡ 0 }
    ensures some_damaged { result ≡ 3 → 0 < report.new.damaged }
    ensures refused { result ≡ 2 → ReportsFault file.now report.new.refusal report.new.detail }
    ensures memory { result ≡ 1 → report.new.refusal ≡ 19 }
    ensures space { result ≡ 4 → LacksMarkSpace file.now (length marks.old) }
    ensures space_alone { result ≡ 4 → ReportsNoRefusal report.new }
    ensures long { result ≡ 8 → IsTooLongRead file.now resync }
    ensures long_alone { result ≡ 8 → ReportsNoRefusal report.new }
    ensures unchecked { result ≢ 0 → result ≢ 3 → ReportsNoPicture report.new }
    ensures marks { result ≢ 0 → result ≢ 3 → marks.new ≡ marks.old }
    ensures few { result ≢ 8 → result ≤ 4 }
{
    check_marks(alloc, file, resync, marks, report)
}

/// Decodes the next rows of MCUs of a file's image starting at a position, at most the given number, into the start of
/// `pixels`, and moves the position past them: as many as fit, and, if more of the file may follow (`more` is not 0),
/// as the bytes make final. Returns 0 then. With 1 if allocation fails, 2 if the file is refused, 4 if the next row
/// does not fit, and 5 if the image has no row at the position or none was asked for, pixels and position are
/// unchanged.
#[unsafe(no_mangle)]
pub extern "C" fn jri_decode_rows(
    alloc: Global,
    file: &[u8],
    more: u32,
    place: &mut RowPlace,
    rows: u32,
    pixels: &mut [u8],
    report: &mut RowsReport,
) -> u32
    ensures given { result ≡ 0 → ReturnsRows file.now (file_part file.now more) rows place.old place.new pixels.old pixels.new report.new }
    ensures refused { result ≡ 2 → ReportsPartialFault file.now (are_all more) report.new }
    ensures memory { result ≡ 1 → report.new.refusal ≡ 19 }
    ensures space { result ≡ 4 → LacksSpaceForRow file.now place.old rows (length pixels.old) }
    ensures each_space { LacksSpaceForRow file.now place.old rows (length pixels.old) → result ≢ 1 → result ≡ 4 }
    ensures space_alone { result ≡ 4 → ReportsNothing report.new }
    ensures rows { result ≡ 5 → LacksRows file.now place.old rows }
    ensures each_rows { LacksRows file.now place.old rows → result ≢ 1 → result ≡ 5 }
    ensures rows_alone { result ≡ 5 → ReportsNothing report.new }
    ensures no_rows { result ≢ 0 → ReportsNoRows report.new }
    ensures pixels { result ≢ 0 → pixels.new ≡ pixels.old }
    ensures place { result ≢ 0 → place.new ≡ place.old }
    ensures undamaged { result ≢ 3 }
    ensures few { result ≤ 5 }
{
    decode_file_rows(alloc, file, more, place, rows, pixels, report)
}

/// Skips the next rows of MCUs of a file's image starting at a position, at most the given number, by reading their
/// bits alone, and moves the position past them; if more of the file may follow (`more` is not 0), those that the bytes
/// make final. Returns 0 then. With 1 if allocation fails, 2 if the file is refused, and 5 if the image has no row at
/// the position or none was asked for, the position is unchanged.
#[unsafe(no_mangle)]
pub extern "C" fn jri_skip_rows(
    alloc: Global,
    file: &[u8],
    more: u32,
    place: &mut RowPlace,
    rows: u32,
    report: &mut RowsReport,
) -> u32
    ensures skipped { result ≡ 0 → SkipsRows file.now (file_part file.now more) rows place.old place.new report.new }
    ensures refused { result ≡ 2 → ReportsPartialFault file.now (are_all more) report.new }
    ensures memory { result ≡ 1 → report.new.refusal ≡ 19 }
    ensures rows { result ≡ 5 → LacksRows file.now place.old rows }
    ensures each_rows { LacksRows file.now place.old rows → result ≢ 1 → result ≡ 5 }
    ensures rows_alone { result ≡ 5 → ReportsNothing report.new }
    ensures no_space { result ≢ 4 }
    ensures no_rows { result ≢ 0 → ReportsNoRows report.new }
    ensures place { result ≢ 0 → place.new ≡ place.old }
    ensures undamaged { result ≢ 3 }
    ensures few { result ≤ 5 }
{
    skip_file_rows(alloc, file, more, place, rows, report)
}

/// Decodes rows as `jri_decode_rows` does, from some bytes of the file: those that have its header, and a window that
/// begins at offset `window_at` and has the position. Returns 11, and reads nothing, if the position is before the
/// window's first byte or after its end; then pixels and position are unchanged.
#[unsafe(no_mangle)]
pub extern "C" fn jri_decode_window(
    alloc: Global,
    header: &[u8],
    window: &[u8],
    window_at: u64,
    more: u32,
    place: &mut RowPlace,
    rows: u32,
    pixels: &mut [u8],
    report: &mut RowsReport,
) -> u32
    ensures given { result ≡ 0 → ReturnsRows header.now (window_part window_at window.now more) rows place.old place.new pixels.old pixels.new report.new }
    ensures refused { result ≡ 2 → ReportsPartialFault header.now (are_all more) report.new }
    ensures memory { result ≡ 1 → report.new.refusal ≡ 19 }
    ensures space { result ≡ 4 → LacksSpaceForRow header.now place.old rows (length pixels.old) }
    ensures each_space { LacksSpaceForRow header.now place.old rows (length pixels.old) → result ≢ 1 → result ≢ 11 → result ≡ 4 }
    ensures space_alone { result ≡ 4 → ReportsNothing report.new }
    ensures rows { result ≡ 5 → LacksRows header.now place.old rows }
    ensures each_rows { LacksRows header.now place.old rows → result ≢ 1 → result ≡ 5 }
    ensures rows_alone { result ≡ 5 → ReportsNothing report.new }
    ensures inside { result ≡ 0 → WantsMore header.now ⊎ LiesInside header.now (window_part window_at window.now more) place.old rows }
    ensures outside { result ≡ 11 → LiesOutside header.now (window_part window_at window.now more) place.old rows }
    ensures each_outside { LiesOutside header.now (window_part window_at window.now more) place.old rows → result ≢ 1 → result ≡ 11 }
    ensures outside_alone { result ≡ 11 → ReportsNothing report.new }
    ensures no_rows { result ≢ 0 → ReportsNoRows report.new }
    ensures pixels { result ≢ 0 → pixels.new ≡ pixels.old }
    ensures place { result ≢ 0 → place.new ≡ place.old }
    ensures undamaged { result ≢ 3 }
    ensures few { result ≢ 11 → result ≤ 5 }
{
    let part = FileBytes {
        from: window_at,
        bytes: window,
        are_all: more == 0,
    };
    decode_window_rows(alloc, header, part, place, rows, pixels, report)
}

/// Skips rows as `jri_skip_rows` does, from some bytes of the file: those that have its header, and a window that
/// begins at offset `window_at` and has the position. Returns 11, and reads nothing, if the position is before the
/// window's first byte or after its end; then the position is unchanged.
#[unsafe(no_mangle)]
pub extern "C" fn jri_skip_window(
    alloc: Global,
    header: &[u8],
    window: &[u8],
    window_at: u64,
    more: u32,
    place: &mut RowPlace,
    rows: u32,
    report: &mut RowsReport,
) -> u32
    ensures skipped { result ≡ 0 → SkipsRows header.now (window_part window_at window.now more) rows place.old place.new report.new }
    ensures refused { result ≡ 2 → ReportsPartialFault header.now (are_all more) report.new }
    ensures memory { result ≡ 1 → report.new.refusal ≡ 19 }
    ensures rows { result ≡ 5 → LacksRows header.now place.old rows }
    ensures each_rows { LacksRows header.now place.old rows → result ≢ 1 → result ≡ 5 }
    ensures rows_alone { result ≡ 5 → ReportsNothing report.new }
    ensures inside { result ≡ 0 → WantsMore header.now ⊎ LiesInside header.now (window_part window_at window.now more) place.old rows }
    ensures outside { result ≡ 11 → LiesOutside header.now (window_part window_at window.now more) place.old rows }
    ensures each_outside { LiesOutside header.now (window_part window_at window.now more) place.old rows → result ≢ 1 → result ≡ 11 }
    ensures outside_alone { result ≡ 11 → ReportsNothing report.new }
    ensures no_space { result ≢ 4 }
    ensures no_rows { result ≢ 0 → ReportsNoRows report.new }
    ensures place { result ≢ 0 → place.new ≡ place.old }
    ensures undamaged { result ≢ 3 }
    ensures few { result ≢ 11 → result ≤ 5 }
{
    let part = FileBytes {
        from: window_at,
        bytes: window,
        are_all: more == 0,
    };
    skip_window_rows(alloc, header, part, place, rows, report)
}

/// Lists the damaged intervals of a file starting at interval `first`, whose bytes begin at offset `first_at`, in their
/// order, at most `damages.len()`. If more of the file may come (`more` is not 0), it lists those that the bytes make
/// final, which a marker follows. 0 and 0 are the first interval. Returns 3, or 0 if none is listed, and `next` and
/// `next_at` of the report say where to continue; what is listed is damage of every file that begins with these bytes.
/// With 1 if allocation fails, 2 if the file is refused, and 7 if more bytes are wanted for its header, `damages` is
/// unchanged.
#[unsafe(no_mangle)]
pub extern "C" fn jri_list_damage(
    alloc: Global,
    file: &[u8],
    more: u32,
    first: u32,
    first_at: u64,
    damages: &mut [Damage],
    report: &mut DamageReport,
) -> u32
    ensures none_left { result ≡ 0 → ListsInEach file.now (are_all more) first first_at damages.old damages.new report.new }
    ensures some_listed { result ≡ 3 → ListsInEach file.now (are_all more) first first_at damages.old damages.new report.new }
    ensures none { result ≡ 0 → report.new.count ≡ 0 }
    ensures some { result ≡ 3 → 0 < report.new.count }
    ensures refused { result ≡ 2 → ReportsFault file.now report.new.refusal report.new.detail }
    ensures refused_for_good { result ≡ 2 → are_all more ≡ false → (whole : List ℕ) → CanBecome file.now whole → ReportsFault whole report.new.refusal report.new.detail }
    ensures memory { result ≡ 1 → report.new.refusal ≡ 19 }
    ensures wanted { result ≡ 7 → WantsMore file.now }
    ensures partial { result ≡ 7 → are_all more ≡ false }
    ensures no_refusal { result ≡ 7 → (report.new.refusal ≡ 0) × (report.new.detail ≡ 0) }
    ensures nothing { result ≢ 0 → result ≢ 3 → ReportsNoDamage report.new }
    ensures kept { result ≢ 0 → result ≢ 3 → damages.new ≡ damages.old }
    ensures few { result ≢ 7 → result ≤ 3 }
{
    list_damages(alloc, file, more, first, first_at, damages, report)
}

/// Writes what ended the scan of a report, in the words of `jri`, into `text`, as much as fits, with no 0 after it, and
/// returns its length in bytes: 0 if the report has no end.
#[unsafe(no_mangle)]
pub extern "C" fn jri_end_text(report: &DecodeReport, text: &mut [u8]) -> u64
    ensures some { 1 ≤ report.now.ended → report.now.ended ≤ 5 → 0 < length text.old → 0 < result }
    ensures none { 0 < result → (1 ≤ report.now.ended) × (report.now.ended ≤ 5) }
    ensures few { result ≤ length text.new }
    ensures most { result ≤ 96 }
    ensures kept { drop result text.new ≡ drop result text.old }
{
    end_text(report, text) as u64
}

/// Writes the name and the version of the build into `text`, as much as fits, with no 0 after it, and returns its
/// length in bytes.
#[unsafe(no_mangle)]
pub extern "C" fn jri_build_text(text: &mut [u8]) -> u64
    ensures some { 0 < length text.old → 0 < result }
    ensures few { result ≤ length text.new }
    ensures most { result ≤ 96 }
    ensures kept { drop result text.new ≡ drop result text.old }
{
    build_text(text) as u64
}

/// Decodes a file, resynchronised unless `resync` is 0, onto a canvas, line k starting at byte `k * stride`, in the layout
/// of this number, and its marks into the start of `marks` unless that is empty. Returns 0, or 3 if an interval is
/// damaged. With 1 if allocation fails, 2 if the file is refused, 4 if a buffer is too small, 6 if there is no such layout
/// or a line is longer than the stride, and 8 if the resynchronised file would be too long, both are unchanged.
#[unsafe(no_mangle)]
pub extern "C" fn jri_decode_canvas(
    alloc: Global,
    file: &[u8],
    resync: u32,
    canvas: &mut [u8],
    stride: usize,
    layout: u32,
    marks: &mut [u8],
    report: &mut DecodeReport,
) -> u32
    ensures sound { result ≡ 0 → OfRead file.now resync (λ read. DecodesCanvas read stride layout canvas.old canvas.new marks.old marks.new report.new) }
    ensures damaged { result ≡ 3 → OfRead file.now resync (λ read. DecodesCanvas read stride layout canvas.old canvas.new marks.old marks.new report.new) }
    ensures undamaged { result ≡ 0 → report.new.damaged ≡ 0 }
    ensures some_damaged { result ≡ 3 → 0 < report.new.damaged }
    ensures refused { result ≡ 2 → ReportsFault file.now report.new.refusal report.new.detail }
    ensures memory { result ≡ 1 → report.new.refusal ≡ 19 }
    ensures space { result ≡ 4 → LacksCanvas file.now stride layout (length canvas.old) (length marks.old) }
    ensures space_alone { result ≡ 4 → ReportsNoRefusal report.new }
    ensures layout { result ≡ 6 → LacksLayoutOf file.now stride layout }
    ensures layout_alone { result ≡ 6 → ReportsNoRefusal report.new }
    ensures long { result ≡ 8 → IsTooLongRead file.now resync }
    ensures long_alone { result ≡ 8 → ReportsNoRefusal report.new }
    ensures no_picture { result ≢ 0 → result ≢ 3 → ReportsNoPicture report.new }
    ensures canvas { result ≢ 0 → result ≢ 3 → canvas.new ≡ canvas.old }
    ensures marks { result ≢ 0 → result ≢ 3 → marks.new ≡ marks.old }
    ensures few { result ≢ 8 → result ≤ 6 }
    ensures no_lines { result ≢ 5 }
{
    let shape = CanvasShape { stride, layout };
    decode_canvas(alloc, file, resync, canvas, shape, marks, report)
}

/// Lays out consecutive lines, line k starting at byte `k * stride` of the canvas. Returns 0. With 4 if the canvas is
/// too small, and 6 if there are no such lines or no such layout, it is unchanged.
#[unsafe(no_mangle)]
pub extern "C" fn jri_lay_out(
    lines: &[u8],
    width: u32,
    components: u32,
    canvas: &mut [u8],
    stride: usize,
    layout: u32,
) -> u32
    ensures done { result ≡ 0 → LaysOut lines.now width components stride layout canvas.old canvas.new }
    ensures space { result ≡ 4 → LacksSpaceToLay lines.now width components stride layout (length canvas.old) }
    ensures layout { result ≡ 6 → LacksLinesToLay lines.now width components stride layout }
    ensures canvas { result ≢ 0 → canvas.new ≡ canvas.old }
    ensures few { result ≢ 0 → result ≢ 4 → result ≡ 6 }
{
    lay_out(lines, width, components, canvas, stride, layout)
}

/// Writes a damaged file with its restart markers in step into the start of `out`, and as many of its breaks as fit into
/// that of `breaks`. Returns 0. With 1 if allocation fails, 2 if the file is refused, 4 if `out` is too small, and 8 if
/// the file would be too long, both are unchanged; with 4 the report has its size.
#[unsafe(no_mangle)]
pub extern "C" fn jri_resynchronise(
    alloc: Global,
    file: &[u8],
    out: &mut [u8],
    breaks: &mut [Break],
    report: &mut ResyncReport,
) -> u32
    ensures done { result ≡ 0 → ResyncsFile file.now out.old out.new breaks.old breaks.new report.new }
    ensures refused { result ≡ 2 → ReportsFault file.now report.new.refusal report.new.detail }
    ensures memory { result ≡ 1 → report.new.refusal ≡ 19 }
    ensures space { result ≡ 4 → LacksResyncSpace file.now (length out.old) report.new }
    ensures long { result ≡ 8 → IsTooLongFile file.now }
    ensures long_alone { result ≡ 8 → report.new.refusal ≡ 0 }
    ensures nothing { result ≢ 0 → result ≢ 4 → ReportsNoResync report.new }
    ensures out { result ≢ 0 → out.new ≡ out.old }
    ensures breaks { result ≢ 0 → breaks.new ≡ breaks.old }
    ensures few { result ≢ 0 → result ≢ 1 → result ≢ 2 → result ≢ 4 → result ≡ 8 }
{
    resynchronise_file(alloc, file, out, breaks, report)
}

/// Writes the file that is mended from copies of it into the start of `out`, and as many of the choices of its intervals
/// as fit into that of `choices`. The copies lie one after another in `files`, by their sizes. Returns 0, or 3 if an
/// interval is damaged in all copies. With 1 if allocation fails, 2 if a copy is refused, 4 if `out` is too small, 8 if
/// the file would be too long, 9 if there are no such copies, and 10 if a copy has another header than the first, both
/// are unchanged; with 4 the report has the file's size, with 2 and 10 the copy's number.
#[unsafe(no_mangle)]
pub extern "C" fn jri_mend(
    alloc: Global,
    files: &[u8],
    sizes: &[usize],
    out: &mut [u8],
    choices: &mut [ChoiceEntry],
    report: &mut MendReport,
) -> u32
    ensures sound { result ≡ 0 → MendsFiles (files_of sizes.now files.now) out.old out.new choices.old choices.new report.new }
    ensures damaged { result ≡ 3 → MendsFiles (files_of sizes.now files.now) out.old out.new choices.old choices.new report.new }
    ensures undamaged { result ≡ 0 → report.new.damaged ≡ 0 }
    ensures some_damaged { result ≡ 3 → 0 < report.new.damaged }
    ensures refused { result ≡ 2 → ReportsCopyFault (files_of sizes.now files.now) report.new }
    ensures memory { result ≡ 1 → report.new.refusal ≡ 19 }
    ensures space { result ≡ 4 → LacksMendSpace (files_of sizes.now files.now) (length out.old) report.new }
    ensures long { result ≡ 8 → IsTooLongMend (files_of sizes.now files.now) }
    ensures copies { result ≡ 9 → LackCopies sizes.now files.now }
    ensures header { result ≡ 10 → HasOtherHeader (files_of sizes.now files.now) report.new.copy }
    ensures no_refusal { 8 ≤ result → report.new.refusal ≡ 0 }
    ensures nothing { result ≢ 0 → result ≢ 3 → result ≢ 4 → ReportsNoMend report.new }
    ensures out { result ≢ 0 → result ≢ 3 → out.new ≡ out.old }
    ensures choices { result ≢ 0 → result ≢ 3 → choices.new ≡ choices.old }
    ensures few { 4 < result → (8 ≤ result) × (result ≤ 10) }
{
    mend_files(alloc, files, sizes, out, choices, report)
}
