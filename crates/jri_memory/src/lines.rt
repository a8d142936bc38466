//! From the bytes of a file to some lines of its image, in the caller's buffer.

ghost use Rattle.std.specs.Prelude.{◌≡◌, ◌≢◌, ◌<◌, ◌≤◌, ◌+◌, length, IfOk, IfErr, IfSome, None, true, false};
ghost use Rattle.jr_segments.specs.declared.refusal.Refusal.TheVariants as refusal;
ghost use Rattle.jr_head.specs.Heads.{RefusalOf};
ghost use Rattle.jri_memory.specs.Calls.{DecodesLines, HasTheseLines, LacksLines, LacksSpaceForLines};
ghost use Rattle.jri_memory.specs.Resyncs.{IsTooLongRead, OfRead};

use crate::decode::DecodeError;
use crate::file_scan::scan_of;
use crate::report::DecodeReport;
use jr_head::Head;
use jr_paint::bytes_of_line;
use jr_picture::Counts;
use jr_rows::paint_scan_lines;
use jr_segments::Refusal;
use std::alloc::Global;

/// Returns whether an image has these lines, at least one.
fn has_lines(head: &Head, first: u32, count: u32) -> bool
    ensures there { result ≡ true → HasTheseLines head.now first count }
    ensures not_there { result ≡ false → HasTheseLines head.now first count → ⊥ }
{
    let height = head.height();
    0 < count && count <= height && first <= height - count
}

/// Decodes `count` lines of a file, resynchronised unless `resync` is 0, starting at `first` into the start of `pixels`.
/// `None` if the image has no such lines; then, and on `Err`, `pixels` are unchanged.
pub(crate) fn decode_some(
    alloc: Global,
    file: &[u8],
    resync: u32,
    first: u32,
    count: u32,
    pixels: &mut [u8],
) -> Result<Option<DecodeReport>, DecodeError>
    ensures decoded { IfOk result (λ o. IfSome o (λ r. OfRead file.now resync (λ read. DecodesLines read first count pixels.old pixels.new r))) }
    ensures none { result ≡ Ok None → pixels.new ≡ pixels.old }
    ensures refused { IfErr result (λ e. (f : Refusal) → e ≡ DecodeError.Refused f → f ≢ refusal.Memory → RefusalOf file.now f) }
    ensures lines { result ≡ Ok None → LacksLines file.now first count }
    ensures space { result ≡ Err DecodeError.BufferTooSmall → LacksSpaceForLines file.now count (length pixels.old) }
    ensures long { result ≡ Err DecodeError.TooLong → IsTooLongRead file.now resync }
    ensures pixels { IfErr result (λ _. pixels.new ≡ pixels.old) }
{
    let scan = scan_of(alloc, file, resync)?;
    let head = scan.head();
    if !has_lines(head, first, count) {
        return Ok(None);
    }
    let size = count as usize * bytes_of_line(head);
    if pixels.len() < size {
        return Err(DecodeError::BufferTooSmall);
    }
    let Ok(marked) = paint_scan_lines(alloc, &scan, first, count, &mut pixels[..size]) else {
        return Err(DecodeError::Refused(Refusal::Memory));
    };
    let counts = Counts {
        sound: marked.sound,
        damaged: marked.damaged,
        blank: 0,
    };
    Ok(Some(DecodeReport::of(&scan, counts)))
}
