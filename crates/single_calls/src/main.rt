//! Calls of the library, made by themselves.
//!
//! `single_calls --calls FILE` makes each call that allocates on a file, and reports what came of each. A line on
//! standard error is before each call and one after it, so that a library that is loaded before this program can refuse
//! memory in one call alone, as `tools/refuse-memory` does.
//!
//! `single_calls --speculations FILE ..` reads each file by speculative reads, and reports how many come into step, and how
//! many MCUs are taken over, for `tools/compare-workers`.
//!
//! `single_calls --arriving BYTES < photo.jpg > photo.ppm` writes the image while the file arrives in parts of at most
//! BYTES bytes, and reports on standard error how many restart intervals are sound and damaged, for
//! `tools/check-viewer`.
#![tactic(auto)]

mod caller;
mod intervals;
mod keeping;
mod partial_file;
mod speculations;
mod strips;
mod writing;

use caller::{Caller, scan_of};
use jr_scan::Scan;
use speculations::{report_speculations, speculation_counts};
use std::io::Write;
use std::process::ExitCode;
use std::sync::{Arc, Wait};
use std::thread::Threads;
use std::{env, fs};

/// Reports whether a call is right; `None` if it reports that allocation fails.
fn report_outcome<W: Write>(out: &mut W, name: &str, outcome: Option<bool>) {
    let text = match outcome {
        Some(true) => "right",
        Some(false) => "wrong",
        None => "out of memory",
    };
    let _ = writeln!(out, "{name}: {text}");
}

/// Makes each call on an interval or a scan, and reports what came of it.
fn report_of_scan<W: Write>(out: &mut W, caller: &mut Caller<'_>) {
    report_outcome(out, "Interval::read", caller.read(0));
    report_outcome(out, "Interval::read, damaged", caller.read(1));
    report_outcome(out, "Piece::make", caller.make_piece(0));
    report_outcome(out, "Piece::make, damaged", caller.make_piece(1));
    report_outcome(out, "StripReader::next", caller.read_strip());
    report_outcome(out, "CodedStrip::decode", caller.decode_strip());
    report_outcome(out, "Scan::cut", caller.cut());
    report_outcome(out, "Scan::cut_in_place", caller.cut_in_place());
}

/// Makes each call on a board or on cells, and reports what came of it.
fn report_of_cells<W: Write>(out: &mut W, caller: &mut Caller<'_>) {
    report_outcome(out, "Board::new", caller.open_board());
    report_outcome(out, "Desk::open", caller.open_desk());
    report_outcome(out, "Cells::open", caller.open_cells());
    report_outcome(out, "Cells::sight", caller.open_sight());
    report_outcome(out, "Cells::hang", caller.hang());
    report_outcome(out, "StripCells::open", caller.open_strip_cells());
    report_outcome(out, "StripCells::sight", caller.open_strip_sight());
    report_outcome(out, "StripCells::hang", caller.hang_strip());
}

/// Makes each call that decodes the file, and reports what came of it.
fn report_of_file<R: Threads + Wait + Sync, W: Write>(
    rt: &R,
    out: &mut W,
    caller: &mut Caller<'_>,
) {
    report_outcome(out, "Decoding::open", caller.open_decoding());
    report_outcome(out, "Decoding::finish", caller.finish_decoding());
    report_outcome(out, "write_scan", caller.write());
    report_outcome(out, "write_scan_by", caller.write_by(rt));
    report_outcome(out, "paint_scan_lines", caller.paint_lines());
}

/// What is done with the arguments after one that names it.
#[derive(Clone, Copy)]
enum Task {
    Speculations,
    Calls,
    PartialFile,
}

/// Returns the task that an argument names, if it names one.
fn task_of(word: &str) -> Option<Task> {
    match word {
        "--speculations" => Some(Task::Speculations),
        "--calls" => Some(Task::Calls),
        "--arriving" => Some(Task::PartialFile),
        _ => None,
    }
}

/// Returns the scan of the file of that name, if there is one.
fn scan_at(rt: &HostRuntime, name: &str) -> Option<Arc<Scan>> {
    let file = fs::read(rt, name).ok()?;
    scan_of(rt.alloc(), file.as_slice())
}

/// Reports the use of speculative reads of a file. `None` if there is no such file, or allocation fails.
fn report_speculations_of(rt: &HostRuntime, name: &str) -> Option<()> {
    let scan = scan_at(rt, name)?;
    let counts = speculation_counts(rt.alloc(), &scan)?;
    report_speculations(&mut rt.stdout(), &counts);
    Some(())
}

/// Makes each call on a file, and reports what came of them. `None` if there is no such file.
fn report_calls_on<R: Threads + Wait + Sync>(
    rt: &HostRuntime,
    threads: &R,
    name: &str,
) -> Option<()> {
    let file = fs::read(rt, name).ok()?;
    let mut caller = Caller::of(rt.alloc(), file.as_slice(), rt.stderr())?;
    let mut out = rt.stdout();
    report_of_scan(&mut out, &mut caller);
    report_of_cells(&mut out, &mut caller);
    report_of_file(threads, &mut out, &mut caller);
    Some(())
}

/// Does a task with an argument, and returns the exit status.
fn run<R: Threads + Wait + Sync>(rt: &HostRuntime, threads: &R, task: Task, word: &str) -> u8 {
    let done = match task {
        Task::Speculations => report_speculations_of(rt, word),
        Task::Calls => report_calls_on(rt, threads, word),
        Task::PartialFile => return partial_file::show_input(rt, word),
    };
    if done.is_some() { 0 } else { 1 }
}

fn main(rt: HostRuntime) -> ExitCode {
    let Ok(words) = env::args(&rt) else {
        return ExitCode::from(1);
    };
    let mut task = Task::Calls;
    for word in words.skip(1) {
        if let Some(named) = task_of(word.as_str()) {
            task = named;
            continue;
        }
        let status = run(&rt, &rt, task, word.as_str());
        if status > 0 {
            return ExitCode::from(status);
        }
    }
    ExitCode::SUCCESS
}
