//! From the bytes of a file to the marks of its intervals. No image is made.

ghost use Rattle.std.specs.Prelude.{◌≡◌, ◌≢◌, ◌+◌, ◌<◌, ◌++◌, ◌∷◌, [], List, cond, length, IfOk, IfErr};
ghost use Rattle.jr_segments.specs.declared.refusal.Refusal.TheVariants as refusal;
ghost use Rattle.jr_head.specs.Heads.{RefusalOf};
ghost use Rattle.jr_picture.specs.declared.mark.Mark.{Mark};
ghost use Rattle.jr_picture.specs.declared.mark.Mark.TheVariants.{Sound, Damaged};
ghost use Rattle.jr_scan.specs.ScanValue.{interval_of};
ghost use Rattle.jr_rows.specs.MarkBytes.{HasMarkSpace};
ghost use Rattle.jri_memory.specs.Checks.{AreStored, ChecksFile, IsMarkOf, LacksMarkSpace};
ghost use Rattle.jri_memory.specs.Resyncs.{IsTooLongRead, OfRead};

use crate::decode::DecodeError;
use crate::file_scan::scan_of;
use crate::report::DecodeReport;
use crate::space::{asked_for, lacks_space};
use jr_damage::damaged_front;
use jr_picture::Counts;
use jr_rows::{Marked, write_mark};
use jr_scan::Scan;
use jr_segments::Refusal;
use std::alloc::Global;

/// Returns whether interval i has a decoding.
fn is_sound(scan: &Scan, i: u32) -> bool
    requires there { i < length scan.now.intervals }
    ensures { IsMarkOf (interval_of scan.now i) (cond result Sound Damaged) }
{
    match damaged_front(scan.interval_ref(i)) {
        None => true,
        Some(_) => false,
    }
}

/// Reads interval i, and counts and stores its mark after those of the intervals before it.
fn mark_interval(scan: &Scan, i: u32, before: Marked, marks: &mut [u8]) -> Marked
    requires there { i < length scan.now.intervals }
    requires space { HasMarkSpace scan.now marks.old }
    requires few { before.sound + before.damaged ≡ i }
    ensures long { length marks.new ≡ length marks.old }
    ensures store { (ms : List Mark) → AreStored scan.now i before marks.old ms → (m : Mark) × AreStored scan.now (i + 1) result marks.new (ms ++ m ∷ []) }
    ensures few { result.sound + result.damaged ≡ i + 1 }
{
    // By its contract a scan has so few intervals that their numbers fit.
    let _all = scan.intervals();
    let is_sound = is_sound(scan, i);
    write_mark(is_sound, i, marks);
    before.with(Marked::one(is_sound))
}

/// Reads each interval of a scan once, counts their marks, and stores them if they fit.
fn mark_intervals(scan: &Scan, marks: &mut [u8]) -> Marked
    requires space { HasMarkSpace scan.now marks.old }
    ensures store { (ms : List Mark) × AreStored scan.now (length scan.now.intervals) result marks.new ms }
    ensures long { length marks.new ≡ length marks.old }
{
    let mut marked = Marked::none();
    for i in 0..scan.intervals() {
        marked = mark_interval(scan, i, marked, marks);
    }
    marked
}

/// Checks a file, resynchronised unless `resync` is 0, and stores its marks at the start of `marks` unless that is empty.
/// On `Err` nothing is written.
pub(crate) fn check(
    alloc: Global,
    file: &[u8],
    resync: u32,
    marks: &mut [u8],
) -> Result<DecodeReport, DecodeError>
    ensures checked { IfOk result (λ r. OfRead file.now resync (λ read. ChecksFile read marks.old marks.new r)) }
    ensures refused { IfErr result (λ e. (f : Refusal) → e ≡ DecodeError.Refused f → f ≢ refusal.Memory → RefusalOf file.now f) }
    ensures space { result ≡ Err DecodeError.BufferTooSmall → LacksMarkSpace file.now (length marks.old) }
    ensures long { result ≡ Err DecodeError.TooLong → IsTooLongRead file.now resync }
    ensures marks { IfErr result (λ _. marks.new ≡ marks.old) }
{
    let scan = scan_of(alloc, file, resync)?;
    let count = scan.intervals();
    if lacks_space(marks, count) {
        return Err(DecodeError::BufferTooSmall);
    }
    let asked = asked_for(marks, count);
    let marked = mark_intervals(&scan, &mut marks[..asked]);
    let counts = Counts {
        sound: marked.sound,
        damaged: marked.damaged,
        blank: 0,
    };
    Ok(DecodeReport::of(&scan, counts))
}
