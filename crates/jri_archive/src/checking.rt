//! The check of a file.

ghost use Rattle.std.specs.Prelude.{◌≡◌, ◌≢◌, length, IfOk, IfErr};
ghost use Rattle.jr_segments.specs.declared.refusal.Refusal.TheVariants as refusal;
ghost use Rattle.jr_head.specs.Heads.{RefusalOf};
ghost use Rattle.jr_scan.specs.ImageEnd.{IsImageEndIn};
ghost use Rattle.jr_damage.specs.Verdicts.{IsFileScan, IsVerdictOf};
ghost use Rattle.jri_archive.specs.DamagedLines.{AreUndecoded};

use crate::damaged_lines::undecoded_lines;
use jr_damage::{Lines, Verdict, check_scan_by};
use jr_head::read_head;
use jr_scan::{CutScan, Scan};
use jr_segments::Refusal;
use std::alloc::Global;
use std::sync::Wait;
use std::thread::Threads;

/// A file's size and scan, and which of its intervals are damaged.
#[derive(Drop)]
pub struct Checked {
    /// The size of the file in bytes.
    pub size: u64,
    pub scan: Scan,
    /// Offset in the file of the first byte after the EOI marker that ended the scan; `None` if no EOI did.
    pub image_end: Option<u64>,
    pub verdict: Verdict,
    /// The lines of the image from the first MCU without a decoding to the last damaged interval's last line.
    pub lines: Option<Lines>,
}

/// Reads a file's header, cuts its scan in the memory of its bytes, and reads each of its intervals once: a large scan with
/// `workers` threads, of which the calling one is the first.
///
/// # Errors
///
/// The file's first fault; `Memory` if allocation fails, which says nothing of the file.
pub fn check_file<R: Threads + Wait + Sync>(
    rt: &R,
    alloc: Global,
    file: Vec<u8>,
    workers: u32,
) -> Result<Checked, Refusal>
    ensures size { IfOk result (λ c. c.size ≡ length file.items) }
    ensures scan { IfOk result (λ c. IsFileScan file.items c.scan) }
    ensures image_end { IfOk result (λ c. IsImageEndIn file.items c.scan c.image_end) }
    ensures verdict { IfOk result (λ c. IsVerdictOf c.scan (length c.scan.intervals) c.verdict) }
    ensures lines { IfOk result (λ c. AreUndecoded c.scan c.verdict.lines c.lines) }
    ensures refused { IfErr result (λ fault. fault ≢ refusal.Memory → RefusalOf file.items fault) }
{
    let size = file.len() as u64;
    let head = read_head(alloc, &file)?;
    match CutScan::cut_in_place(alloc, head, file) {
        Ok(CutScan { scan, image_end }) => {
            let verdict = check_scan_by(rt, alloc, &scan, workers);
            let lines = undecoded_lines(&scan, &verdict);
            Ok(Checked {
                size,
                scan,
                image_end,
                verdict,
                lines,
            })
        }
        Err(_) => Err(Refusal::Memory),
    }
}
