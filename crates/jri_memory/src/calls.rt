//! The calls: a file's header, its image, some lines of it, and the marks of its intervals alone.

ghost use Rattle.std.specs.Prelude.{◌≡◌, ◌≢◌, ◌<◌, ◌≤◌, ◌⊎◌, ℕ, List, length, false};
ghost use Rattle.jr_arrival.specs.Arrival.{CanBecome};
ghost use Rattle.jr_arrival.specs.Settled.{WantsMore};
ghost use Rattle.jri_memory.specs.Checks.{ChecksFile, LacksMarkSpace};
ghost use Rattle.jri_memory.specs.Calls.{DecodesFile, DecodesLines, ReportsFault, IsHeaderOf, LacksLines, LacksSpace, LacksSpaceForLines, ReportsNoHeader, ReportsNoPicture, ReportsNoRefusal, ReportsNoSize, ReportsSize};
ghost use Rattle.jri_memory.specs.Frames.{HasOneSize};
ghost use Rattle.jri_memory.specs.Resyncs.{IsTooLongRead, OfRead};
ghost use Rattle.jri_memory.specs.Rows.{are_all};

use crate::answers::{report_decoded, report_undone, status_of};
use crate::check::check;
use crate::decode::decode;
use crate::file_head::head_of;
use crate::frame_size::size_of_refused;
use crate::header::Header;
use crate::lines::decode_some;
use crate::report::DecodeReport;
use crate::status::{NEED_MORE, NO_LINES, OK};
use jr_arrival::FileBytes;
use std::alloc::Global;

/// Reads a file's header, and decodes nothing; more of the file may come if `more` is not 0. Returns 0 with what the header says, 1 if
/// memory ran out, 2 if the file is refused, and 7 if more bytes are wanted. With 0 the header, and with more to come a refusal, is
/// that of every file that begins with these bytes. With 2 the header has the size in the file's first frame header, if there is one.
pub fn read_header(alloc: Global, file: &[u8], more: u32, header: &mut Header) -> u32
    ensures read { result ≡ 0 → IsHeaderOf file.now header.new }
    ensures stays { result ≡ 0 → (whole : List ℕ) → CanBecome file.now whole → IsHeaderOf whole header.new }
    ensures refused { result ≡ 2 → ReportsFault file.now header.new.refusal header.new.detail }
    ensures refused_for_good { result ≡ 2 → are_all more ≡ false → (whole : List ℕ) → CanBecome file.now whole → ReportsFault whole header.new.refusal header.new.detail }
    ensures memory { result ≡ 1 → header.new.refusal ≡ 19 }
    ensures wanted { result ≡ 7 → WantsMore file.now }
    ensures partial { result ≡ 7 → are_all more ≡ false }
    ensures no_refusal { result ≡ 7 → (header.new.refusal ≡ 0) × (header.new.detail ≡ 0) }
    ensures no_header { result ≢ 0 → ReportsNoHeader header.new }
    ensures size { result ≡ 2 → ReportsSize file.now header.new }
    ensures size_stays { result ≡ 2 → ReportsNoSize header.new ⊎ ((whole : List ℕ) → CanBecome file.now whole → HasOneSize whole header.new.width header.new.height header.new.components) }
    ensures no_size { result ≢ 0 → result ≢ 2 → ReportsNoSize header.new }
    ensures few { result ≢ 7 → result ≤ 2 }
{
    let bytes = FileBytes {
        from: 0,
        bytes: file,
        are_all: more == 0,
    };
    match head_of(alloc, bytes) {
        Ok(Some(head)) => {
            *header = Header::of(&head);
            OK
        }
        Ok(None) => {
            *header = Header::empty();
            NEED_MORE
        }
        Err(refusal) => {
            *header = Header::refused(refusal, size_of_refused(file, refusal));
            status_of(refusal)
        }
    }
}

/// Decodes a file, resynchronised unless `resync` is 0, into the start of `pixels`, and its marks into that of `marks`
/// unless that is empty. Returns 0, or 3 if an interval is damaged. With 1 if allocation fails, 2 if the file is refused,
/// 4 if a buffer is too small, and 8 if the resynchronised file would be too long, both are unchanged.
pub fn decode_file(
    alloc: Global,
    file: &[u8],
    resync: u32,
    pixels: &mut [u8],
    marks: &mut [u8],
    report: &mut DecodeReport,
) -> u32
    ensures sound { result ≡ 0 → OfRead file.now resync (λ read. DecodesFile read pixels.old pixels.new marks.old marks.new report.new) }
    ensures damaged { result ≡ 3 → OfRead file.now resync (λ read. DecodesFile read pixels.old pixels.new marks.old marks.new report.new) }
    ensures undamaged { result ≡ 0 → report.new.damaged ≡ 0 }
    ensures some_damaged { result ≡ 3 → 0 < report.new.damaged }
    ensures refused { result ≡ 2 → ReportsFault file.now report.new.refusal report.new.detail }
    ensures memory { result ≡ 1 → report.new.refusal ≡ 19 }
    ensures space { result ≡ 4 → LacksSpace file.now (length pixels.old) (length marks.old) }
    ensures space_alone { result ≡ 4 → ReportsNoRefusal report.new }
    ensures long { result ≡ 8 → IsTooLongRead file.now resync }
    ensures long_alone { result ≡ 8 → ReportsNoRefusal report.new }
    ensures no_picture { result ≢ 0 → result ≢ 3 → ReportsNoPicture report.new }
    ensures pixels { result ≢ 0 → result ≢ 3 → pixels.new ≡ pixels.old }
    ensures marks { result ≢ 0 → result ≢ 3 → marks.new ≡ marks.old }
    ensures few { result ≢ 8 → result ≤ 4 }
{
    match decode(alloc, file, resync, pixels, marks) {
        Ok(decoded) => report_decoded(decoded, report),
        Err(undecoded) => report_undone(undecoded, report),
    }
}

/// Decodes `count` lines of the image of a file, resynchronised unless `resync` is 0, starting at line `first` into the
/// start of `pixels`. Returns 0, or 3 if an interval is damaged that ends in the rows of MCUs of these lines. With 1 if
/// allocation fails, 2 if the file is refused, 4 if the buffer is too small, 5 if the image has no such lines, and 8 if
/// the resynchronised file would be too long, it is unchanged.
pub fn decode_lines(
    alloc: Global,
    file: &[u8],
    resync: u32,
    first: u32,
    count: u32,
    pixels: &mut [u8],
    report: &mut DecodeReport,
) -> u32
    ensures sound { result ≡ 0 → OfRead file.now resync (λ read. DecodesLines read first count pixels.old pixels.new report.new) }
    ensures damaged { result ≡ 3 → OfRead file.now resync (λ read. DecodesLines read first count pixels.old pixels.new report.new) }
    ensures undamaged { result ≡ 0 → report.new.damaged ≡ 0 }
    ensures some_damaged { result ≡ 3 → 0 < report.new.damaged }
    ensures refused { result ≡ 2 → ReportsFault file.now report.new.refusal report.new.detail }
    ensures memory { result ≡ 1 → report.new.refusal ≡ 19 }
    ensures space { result ≡ 4 → LacksSpaceForLines file.now count (length pixels.old) }
    ensures space_alone { result ≡ 4 → ReportsNoRefusal report.new }
    ensures lines { result ≡ 5 → LacksLines file.now first count }
    ensures lines_alone { result ≡ 5 → ReportsNoRefusal report.new }
    ensures long { result ≡ 8 → IsTooLongRead file.now resync }
    ensures long_alone { result ≡ 8 → ReportsNoRefusal report.new }
    ensures no_picture { result ≢ 0 → result ≢ 3 → ReportsNoPicture report.new }
    ensures pixels { result ≢ 0 → result ≢ 3 → pixels.new ≡ pixels.old }
    ensures few { result ≢ 8 → result ≤ 5 }
{
    match decode_some(alloc, file, resync, first, count, pixels) {
        Ok(Some(decoded)) => report_decoded(decoded, report),
        Ok(None) => {
            *report = DecodeReport::empty();
            NO_LINES
        }
        Err(undecoded) => report_undone(undecoded, report),
    }
}

/// Checks a file, resynchronised unless `resync` is 0: reads each restart interval as a decoder does, makes no image, and
/// stores the marks at the start of `marks` unless that is empty. Returns 0, or 3 if an interval is damaged. With 1 if
/// allocation fails, 2 if the file is refused, 4 if `marks` is too small, and 8 if the resynchronised file would be too
/// long, it is unchanged.
pub fn check_marks(
    alloc: Global,
    file: &[u8],
    resync: u32,
    marks: &mut [u8],
    report: &mut DecodeReport,
) -> u32
    ensures sound { result ≡ 0 → OfRead file.now resync (λ read. ChecksFile read marks.old marks.new report.new) }
    ensures damaged { result ≡ 3 → OfRead file.now resync (λ read. ChecksFile read marks.old marks.new report.new) }
    ensures undamaged { result ≡ 0 → report.new.damaged ≡ 0 }
    ensures some_damaged { result ≡ 3 → 0 < report.new.damaged }
    ensures refused { result ≡ 2 → ReportsFault file.now report.new.refusal report.new.detail }
    ensures memory { result ≡ 1 → report.new.refusal ≡ 19 }
    ensures space { result ≡ 4 → LacksMarkSpace file.now (length marks.old) }
    ensures space_alone { result ≡ 4 → ReportsNoRefusal report.new }
    ensures long { result ≡ 8 → IsTooLongRead file.now resync }
    ensures long_alone { result ≡ 8 → ReportsNoRefusal report.new }
    ensures unchecked { result ≢ 0 → result ≢ 3 → ReportsNoPicture report.new }
    ensures marks { result ≢ 0 → result ≢ 3 → marks.new ≡ marks.old }
    ensures few { result ≢ 8 → result ≤ 4 }
{
    match check(alloc, file, resync, marks) {
        Ok(checked) => report_decoded(checked, report),
        Err(unchecked) => report_undone(unchecked, report),
    }
}
