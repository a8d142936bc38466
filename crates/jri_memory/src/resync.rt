//! A damaged file in memory, written with its restart markers in step.

ghost use Rattle.std.specs.Prelude.{◌≡◌, ◌≢◌, ◌<◌, ◌≤◌, ℕ, List, length, IfOk, IfErr};
ghost use Rattle.jr_cut.specs.declared.breaks.Break.{Break};
ghost use Rattle.jr_segments.specs.Refusal.{number_of};
ghost use Rattle.jri_memory.specs.Calls.{ReportsFault, detail_number, over};
ghost use Rattle.jri_memory.specs.Filling.{listed_over};
ghost use Rattle.jri_memory.specs.Resyncs.{IsResyncError, IsResyncOfFile, IsTooLongFile, LacksResyncSpace, ResyncsFile, ReportsNoResync, ReportsResync};

use crate::filling::{list_breaks, write_over};
use crate::report::DecodeReport;
use crate::status::{BUFFER_TOO_SMALL, OK, TOO_LONG};
use crate::{detail, status_of};
use jr_cut::Break;
use jr_head::read_head;
use jr_mend::{ResyncFault, Resynced, resynchronised};
use jr_segments::Refusal;
use std::alloc::Global;

/// The report of a file that is resynchronised; all numbers are 0 unless stated otherwise.
#[repr(C)]
#[derive(Clone, Copy, PartialEq, Eq)]
pub struct ResyncReport {
    /// What ended the scan of the damaged file, as in the report of a decoding.
    pub ended: u32,
    /// The code of the other marker that ended it.
    pub found: u32,
    /// Always 0, since a restart marker out of step ends no scan that is resynchronised.
    pub due: u32,
    /// The number of the refusal, from 1 to 19; 0 if there is none.
    pub refusal: u32,
    /// Size of the resynchronised file in bytes.
    pub size: u64,
    /// Number of markers that were out of step.
    pub breaks: u64,
    /// The offset in the damaged file of the marker that ended the scan, with 2 and 4.
    pub at: u64,
    /// The refusal's detail: the offset of a missing marker, or a marker's code.
    pub detail: u64,
}

/// Why a file is not resynchronised.
#[derive(Clone, Copy)]
pub(crate) enum ResyncError {
    /// The file is refused, or memory is.
    Refused(Refusal),
    /// It would be longer than a file may be.
    TooLong,
}

impl ResyncReport {
    /// Returns the report whose numbers are all 0.
    const fn empty() -> ResyncReport
        ensures nothing { ReportsNoResync result }
        ensures no_refusal { result.refusal ≡ 0 }
        ensures no_detail { result.detail ≡ 0 }
    {
        ResyncReport {
            ended: 0,
            found: 0,
            due: 0,
            refusal: 0,
            size: 0,
            breaks: 0,
            at: 0,
            detail: 0,
        }
    }

    /// Returns the report of a refusal.
    fn refused(refusal: Refusal) -> ResyncReport
        ensures nothing { ReportsNoResync result }
        ensures number { result.refusal ≡ number_of refusal }
        ensures detail { result.detail ≡ detail_number refusal }
    {
        ResyncReport {
            refusal: u32::from(refusal.number()),
            detail: detail(refusal),
            ..ResyncReport::empty()
        }
    }

    /// Returns the report of a resynchronised file.
    fn of(resynced: &Resynced) -> ResyncReport
        ensures { ReportsResync resynced.now result }
    {
        let end = DecodeReport::ended(resynced.ended);
        ResyncReport {
            ended: end.ended,
            found: end.found,
            due: end.due,
            refusal: 0,
            size: resynced.file.len() as u64,
            breaks: resynced.breaks.len() as u64,
            at: end.at,
            detail: 0,
        }
    }
}

/// Reads a file's header, and resynchronises the file.
fn resync_of_file(alloc: Global, file: &[u8]) -> Result<Resynced, ResyncError>
    ensures resynced { IfOk result (IsResyncOfFile file.now) }
    ensures error { IfErr result (IsResyncError file.now) }
{
    let head = match read_head(alloc, file) {
        Ok(head) => head,
        Err(refusal) => return Err(ResyncError::Refused(refusal)),
    };
    match resynchronised(alloc, &head, file) {
        Ok(resynced) => Ok(resynced),
        Err(ResyncFault::Memory) => Err(ResyncError::Refused(Refusal::Memory)),
        Err(ResyncFault::TooLong) => Err(ResyncError::TooLong),
    }
}

/// Writes a resynchronised file and its breaks, and returns the status. If the file does not fit nothing is written.
fn write_resynced(
    resynced: &Resynced,
    out: &mut [u8],
    breaks: &mut [Break],
    report: &mut ResyncReport,
) -> u32
    ensures reported { ReportsResync resynced.now report.new }
    ensures written { result ≡ 0 → out.new ≡ over resynced.now.file.items out.old }
    ensures listed { result ≡ 0 → breaks.new ≡ listed_over resynced.now.breaks.items breaks.old }
    ensures space { result ≡ 4 → length out.old < report.new.size }
    ensures out { result ≢ 0 → out.new ≡ out.old }
    ensures breaks { result ≢ 0 → breaks.new ≡ breaks.old }
    ensures few { result ≢ 0 → result ≡ 4 }
{
    *report = ResyncReport::of(resynced);
    if out.len() < resynced.file.len() {
        return BUFFER_TOO_SMALL;
    }
    write_over(&resynced.file, out);
    list_breaks(&resynced.breaks, breaks);
    OK
}

/// Reports why a file is not resynchronised, and returns the status.
fn report_resync_error(error: ResyncError, report: &mut ResyncReport) -> u32
    ensures undone { result ≢ 0 }
    ensures fits { result ≢ 4 }
    ensures refused { result ≡ 2 → (file : List ℕ) → IsResyncError file error → ReportsFault file report.new.refusal report.new.detail }
    ensures memory { result ≡ 1 → report.new.refusal ≡ 19 }
    ensures long { result ≡ 8 → (file : List ℕ) → IsResyncError file error → IsTooLongFile file }
    ensures long_alone { result ≡ 8 → report.new.refusal ≡ 0 }
    ensures nothing { ReportsNoResync report.new }
    ensures few { result ≢ 1 → result ≢ 2 → result ≡ 8 }
{
    match error {
        ResyncError::Refused(refusal) => {
            *report = ResyncReport::refused(refusal);
            status_of(refusal)
        }
        ResyncError::TooLong => {
            *report = ResyncReport::empty();
            TOO_LONG
        }
    }
}

/// Writes a damaged file with its restart markers in step into the start of `out`, and as many of its breaks as fit into
/// that of `breaks`. Returns 0. With 1 if allocation fails, 2 if the file is refused, 4 if `out` is too small, and 8 if
/// the file would be too long, both are unchanged; with 4 the report has its size.
pub fn resynchronise_file(
    alloc: Global,
    file: &[u8],
    out: &mut [u8],
    breaks: &mut [Break],
    report: &mut ResyncReport,
) -> u32
    ensures done { result ≡ 0 → ResyncsFile file.now out.old out.new breaks.old breaks.new report.new }
    ensures refused { result ≡ 2 → ReportsFault file.now report.new.refusal report.new.detail }
    ensures memory { result ≡ 1 → report.new.refusal ≡ 19 }
    ensures space { result ≡ 4 → LacksResyncSpace file.now (length out.old) report.new }
    ensures long { result ≡ 8 → IsTooLongFile file.now }
    ensures long_alone { result ≡ 8 → report.new.refusal ≡ 0 }
    ensures nothing { result ≢ 0 → result ≢ 4 → ReportsNoResync report.new }
    ensures out { result ≢ 0 → out.new ≡ out.old }
    ensures breaks { result ≢ 0 → breaks.new ≡ breaks.old }
    ensures few { result ≢ 0 → result ≢ 1 → result ≢ 2 → result ≢ 4 → result ≡ 8 }
{
    match resync_of_file(alloc, file) {
        Ok(resynced) => write_resynced(&resynced, out, breaks, report),
        Err(error) => report_resync_error(error, report),
    }
}
