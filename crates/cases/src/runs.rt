//! Runs of the program's decoder, with one worker and with several.

ghost use Rattle.std.specs.Prelude.{◌≤◌};
ghost use Rattle.jr_base.specs.declared.limits.TheConstants.{MAX_WORKERS};

use crate::case::Case;
use crate::differences::Differences;
use jr_paint::Tally;
use jr_wall::{Gate, OpenGate, Piece};
use jri_engine::{Fault, Report, finish, run};
use std::alloc::Global;
use std::io::{Read, Result as IoResult};
use std::sync::Wait;
use std::thread::Threads;

/// Compares the samples, the report and the exit status of an outcome.
pub(crate) fn compare_outcome(
    case: &Case<'_>,
    path: &str,
    samples: &[u8],
    outcome: Result<Report, Fault>,
    out: &mut Differences,
) {
    let mut report = Vec::new(case.alloc);
    let mut nothing = Tally::of(Vec::new(case.alloc));
    let status = finish(outcome, &mut nothing, &mut report);
    let found = str::from_utf8(report.as_slice()).unwrap_or("no text");
    case.compare(path, samples, found, u32::from(status), out);
}

/// Compares the text of an image, and its outcome.
pub(crate) fn compare_written(
    case: &Case<'_>,
    path: &str,
    text: &[u8],
    outcome: Result<Report, Fault>,
    out: &mut Differences,
) {
    out.compare_bytes(path, case.picture, text);
    compare_outcome(case, path, case.samples(), outcome, out);
}

/// An input that returns at most `count` bytes a call.
#[derive(Drop)]
struct SlowInput<'a> {
    rest: &'a [u8],
    count: usize,
}

impl Read for SlowInput<'_> {
    fn read(&mut self, buffer: &mut [u8]) -> IoResult<usize> {
        let count = buffer.len().min(self.count).min(self.rest.len());
        let (part, rest) = self.rest.split_at(count);
        buffer[..count].copy_from_slice(part);
        self.rest = rest;
        Ok(count)
    }
}

/// A gate that holds no call, but reports that it may: several workers decode each small image of several intervals.
struct HoldingGate;

impl Gate for HoldingGate {
    fn pass(&self, _number: u32) {}

    fn made(&self, _piece: &Piece) {}
}

/// Returns the image of a file that a number of workers write, and the run's outcome. The input returns at most `count` bytes
/// a call.
fn written_by<R: Threads + Wait + Sync, G: Gate + Sync>(
    rt: &R,
    alloc: Global,
    input: SlowInput<'_>,
    workers: u32,
    first: Option<u32>,
    gate: &G,
) -> (Vec<u8>, Result<Report, Fault>)
    requires some { 1 ≤ workers }
    requires few { workers ≤ MAX_WORKERS }
{
    let mut input = Tally::of(input);
    let mut text = Tally::of(Vec::new(alloc));
    let outcome = run(rt, alloc, &mut input, &mut text, workers, first, gate);
    (text.into_inner(), outcome)
}

/// Returns the image of a file that one worker writes, and the run's outcome.
pub(crate) fn written<R: Threads + Wait + Sync>(
    rt: &R,
    alloc: Global,
    rest: &[u8],
    first: Option<u32>,
) -> (Vec<u8>, Result<Report, Fault>) {
    let count = usize::MAX;
    written_by(rt, alloc, SlowInput { rest, count }, 1, first, &OpenGate)
}

/// Runs a case with this number of workers. The input returns at most `count` bytes a call.
fn check_run<R: Threads + Wait + Sync, G: Gate + Sync>(
    rt: &R,
    case: &Case<'_>,
    workers: u32,
    gate: &G,
    count: usize,
    path: &str,
    out: &mut Differences,
)
    requires some { 1 ≤ workers }
    requires few { workers ≤ MAX_WORKERS }
{
    let (rest, first) = (case.bytes, case.row.first);
    let input = SlowInput { rest, count };
    let (text, outcome) = written_by(rt, case.alloc, input, workers, first, gate);
    compare_written(case, path, text.as_slice(), outcome, out);
}

/// Runs a case with 1, 2, 4 and 64 workers, with gates that may hold a call and with open ones, once with an input that returns
/// some bytes a call.
pub(crate) fn check_runs<R: Threads + Wait + Sync>(rt: &R, case: &Case<'_>, out: &mut Differences) {
    let all = usize::MAX;
    let gate = &HoldingGate;
    check_run(rt, case, 1, gate, all, "run with 1 worker", out);
    check_run(rt, case, 2, gate, 4099, "run with 2 workers", out);
    check_run(rt, case, 4, &OpenGate, all, "run with 4 workers", out);
    check_run(rt, case, 64, gate, all, "run with 64 workers", out);
}
