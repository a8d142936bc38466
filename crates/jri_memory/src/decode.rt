//! From the bytes of a file to its pixels and marks, in the caller's buffers.

ghost use Rattle.std.specs.Prelude.{◌≡◌, ◌≢◌, length, IfOk, IfErr};
ghost use Rattle.jr_segments.specs.declared.refusal.Refusal.TheVariants as refusal;
ghost use Rattle.jr_head.specs.Heads.{RefusalOf};
ghost use Rattle.jri_memory.specs.Calls.{DecodesFile, LacksSpace};
ghost use Rattle.jri_memory.specs.Resyncs.{IsTooLongRead, OfRead};

use crate::file_scan::scan_of;
use crate::report::DecodeReport;
use crate::space::{asked_for, bytes_of_picture, lacks_space};
use jr_rows::paint_scan;
use jr_segments::Refusal;
use std::alloc::Global;

/// Why nothing is decoded.
#[derive(Clone, Copy)]
pub(crate) enum DecodeError {
    /// The file is refused, or allocation failed.
    Refused(Refusal),
    /// A buffer is too small.
    BufferTooSmall,
    /// The resynchronised file would be longer than a file may be.
    TooLong,
}

/// Decodes a file, resynchronised unless `resync` is 0, into the start of `pixels`, and its marks into that of `marks`
/// unless that is empty. On `Err` nothing is written.
pub(crate) fn decode(
    alloc: Global,
    file: &[u8],
    resync: u32,
    pixels: &mut [u8],
    marks: &mut [u8],
) -> Result<DecodeReport, DecodeError>
    ensures decoded { IfOk result (λ r. OfRead file.now resync (λ read. DecodesFile read pixels.old pixels.new marks.old marks.new r)) }
    ensures refused { IfErr result (λ e. (f : Refusal) → e ≡ DecodeError.Refused f → f ≢ refusal.Memory → RefusalOf file.now f) }
    ensures space { result ≡ Err DecodeError.BufferTooSmall → LacksSpace file.now (length pixels.old) (length marks.old) }
    ensures long { result ≡ Err DecodeError.TooLong → IsTooLongRead file.now resync }
    ensures pixels { IfErr result (λ _. pixels.new ≡ pixels.old) }
    ensures marks { IfErr result (λ _. marks.new ≡ marks.old) }
{
    let scan = scan_of(alloc, file, resync)?;
    let size = bytes_of_picture(scan.head());
    let count = scan.intervals();
    if pixels.len() < size || lacks_space(marks, count) {
        return Err(DecodeError::BufferTooSmall);
    }
    let asked = asked_for(marks, count);
    let Ok(counts) = paint_scan(alloc, &scan, &mut pixels[..size], &mut marks[..asked]) else {
        return Err(DecodeError::Refused(Refusal::Memory));
    };
    Ok(DecodeReport::of(&scan, counts))
}
