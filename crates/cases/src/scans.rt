//! Pictures of a scan: written row after row with several workers, also small ones, and kept on a board.

ghost use Rattle.std.specs.Prelude.{◌≤◌};
ghost use Rattle.jr_base.specs.declared.limits.TheConstants.{MAX_WORKERS};

use crate::case::Case;
use crate::differences::Differences;
use crate::runs::compare_written;
use jr_base::Memory;
use jr_crew::write_scan_by;
use jr_paint::{Tally, write_netpbm};
use jr_picture::Counts;
use jr_scan::Scan;
use jr_wall::{Board, OpenGate, decode_all, decode_alone};
use jri_engine::{Fault, Report, scan_of_file};
use std::sync::{Arc, Wait};
use std::thread::Threads;
use test_files::error::NotationError;

/// Returns the report of a scan with these counts.
pub(crate) fn report_of(scan: &Scan, counts: Counts) -> Report {
    Report {
        intervals: scan.intervals(),
        sound: counts.sound,
        damaged: counts.damaged,
        blank: counts.blank,
        ended: scan.ended(),
    }
}

/// Writes the image row after row with this number of workers.
fn check_crew<R: Threads + Wait + Sync>(
    rt: &R,
    case: &Case<'_>,
    scan: &Scan,
    workers: u32,
    path: &str,
    out: &mut Differences,
)
    requires some { 1 ≤ workers }
    requires few { workers ≤ MAX_WORKERS }
{
    let first = case.row.first;
    let mut text = Tally::of(Vec::new(case.alloc));
    let outcome = match write_scan_by(rt, case.alloc, scan, workers, first, &OpenGate, &mut text) {
        Ok(counts) => Ok(report_of(scan, counts)),
        Err(_) => Err(Fault::Memory),
    };
    compare_written(case, path, text.into_inner().as_slice(), outcome, out);
}

/// Writes the image of a board.
fn check_board(
    case: &Case<'_>,
    scan: &Scan,
    board: Result<Board, Memory>,
    path: &str,
    out: &mut Differences,
) {
    let Ok(board) = board else {
        return out.fail(NotationError::Memory);
    };
    let counts = board.headline();
    let mut text = Tally::of(Vec::new(case.alloc));
    let outcome = match write_netpbm(&board, &mut text) {
        Ok(()) => Ok(report_of(scan, counts)),
        Err(_) => Err(Fault::Write),
    };
    compare_written(case, path, text.into_inner().as_slice(), outcome, out);
}

/// Decodes a scan onto a board in the calling thread, and with two workers.
fn check_boards<R: Threads + Wait + Sync>(
    rt: &R,
    case: &Case<'_>,
    scan: &Arc<Scan>,
    out: &mut Differences,
) {
    let (alloc, first) = (case.alloc, case.row.first);
    let board = decode_alone(alloc, scan, first);
    check_board(case, scan, board, "board of one worker", out);
    let Ok(shared) = Arc::try_clone(scan) else {
        return out.fail(NotationError::Memory);
    };
    let board = decode_all(rt, alloc, shared, 2, first, &OpenGate);
    check_board(case, scan, board, "board of two workers", out);
}

/// Writes the images of a case's scan, if its file has one.
pub(crate) fn check_scans<R: Threads + Wait + Sync>(
    rt: &R,
    case: &Case<'_>,
    out: &mut Differences,
) {
    match scan_of_file(case.alloc, case.bytes) {
        Ok(scan) => {
            check_crew(rt, case, &scan, 2, "rows by 2 workers", out);
            check_crew(rt, case, &scan, 5, "rows by 5 workers", out);
            check_boards(rt, case, &scan, out);
        }
        Err(refusal) => compare_written(case, "scan", &[], Err(Fault::Refused(refusal)), out),
    }
}
