//! An example of a viewer: while workers decode a JPEG file, it looks at what is finished, and never waits for them; and while
//! a file arrives on standard input, it shows what has arrived.
//!
//! `viewer FILE ..` reports for each file how many intervals can be seen; standard output is the same on every
//! schedule. `viewer --frames FILE ..` writes Netpbm images of what can be seen, one each time that more can; a file's
//! last one is finished. `-` is standard input: a file that arrives in parts, as through a pipe that stalls.
#![tactic(auto)]

mod counting;
mod frames;
mod partial_image;

use crate::counting::Counter;
use crate::frames::{Frames, write};
use jr_code::Memory;
use jr_head::read_head;
use jr_paint::Tally;
use jr_scan::Scan;
use jr_view::{View, watch};
use jr_wall::OpenGate;
use std::alloc::Global;
use std::io::Write;
use std::process::ExitCode;
use std::sync::{Arc, Wait};
use std::thread::Threads;
use std::time::Clock;
use std::{env, fs};

/// The number of threads that decode.
const WORKERS: u32 = 4;

/// Returns the scan of the file of that name. If there is none, `Err` is the exit status, and `errors` has the reason.
fn scan_of<E: Write>(rt: &HostRuntime, name: &str, errors: &mut E) -> Result<Scan, u8> {
    let Ok(file) = fs::read(rt, name) else {
        let _ = writeln!(errors, "cannot read the file");
        return Err(1);
    };
    let head = match read_head(rt.alloc(), file.as_slice()) {
        Ok(head) => head,
        Err(refusal) => {
            let _ = writeln!(errors, "refused: {refusal}");
            return Err(2);
        }
    };
    Scan::cut(rt.alloc(), head, file.as_slice()).map_err(|_| 1)
}

/// Decodes a scan, and writes meanwhile images of what can be seen of it.
fn show_frames<R: Threads + Wait + Clock + Sync, W: Write>(
    rt: &R,
    alloc: Global,
    scan: Arc<Scan>,
    out: &mut Tally<W>,
) -> Result<(), Memory> {
    let mut frames = Frames {
        view: View::of(alloc, &scan)?,
        out,
        twentieths: 0,
    };
    let decoding = watch(rt, alloc, scan, WORKERS, &OpenGate, &mut frames)?;
    drop(frames);
    write(&decoding.finish()?, out);
    Ok(())
}

/// Decodes a scan, and reports meanwhile how many of its intervals can be seen.
fn show_counts<R: Threads + Wait + Clock + Sync, W: Write, E: Write>(
    rt: &R,
    alloc: Global,
    scan: Arc<Scan>,
    out: &mut Tally<W>,
    errors: &mut E,
) -> Result<(), Memory> {
    let mut counter = Counter {
        errors,
        all: scan.intervals(),
        seen: 0,
        damaged: 0,
        reported: 0,
    };
    match watch(rt, alloc, scan, WORKERS, &OpenGate, &mut counter) {
        Ok(_decoding) => {
            counter.report(out);
            Ok(())
        }
        Err(refused) => Err(refused),
    }
}

/// Decodes a scan, and shows meanwhile what can be seen of it.
fn show<R: Threads + Wait + Clock + Sync, W: Write, E: Write>(
    rt: &R,
    alloc: Global,
    scan: Scan,
    has_frames: bool,
    out: &mut Tally<W>,
    errors: &mut E,
) -> Result<(), u8> {
    let Ok(scan) = Arc::new(alloc, scan) else {
        return Err(1);
    };
    let shown = if has_frames {
        show_frames(rt, alloc, scan, out)
    } else {
        show_counts(rt, alloc, scan, out, errors)
    };
    match shown {
        Ok(()) => Ok(()),
        Err(_) => Err(1),
    }
}

/// Shows the file of a name. If that fails `errors` has the reason, and the exit status says so.
fn show_word<R: Threads + Wait + Clock + Sync, W: Write, E: Write>(
    rt: &HostRuntime,
    threads: &R,
    word: &str,
    has_frames: bool,
    out: &mut Tally<W>,
    errors: &mut E,
) -> Result<(), u8> {
    if word == "-" {
        return match partial_image::show(rt.alloc(), &mut rt.stdin(), has_frames, out) {
            Ok(()) => Ok(()),
            Err(failure) => Err(failure.report(errors)),
        };
    }
    match scan_of(rt, word, errors) {
        Ok(scan) => show(threads, rt.alloc(), scan, has_frames, out, errors),
        Err(status) => Err(status),
    }
}

fn main(rt: HostRuntime) -> ExitCode {
    let (mut out, mut errors) = (Tally::of(rt.stdout()), rt.stderr());
    let Ok(words) = env::args(&rt) else {
        return ExitCode::from(1);
    };
    let mut has_frames = false;
    for word in words.skip(1) {
        if word.as_str() == "--frames" {
            has_frames = true;
            continue;
        }
        if let Err(status) = show_word(&rt, &rt, word.as_str(), has_frames, &mut out, &mut errors) {
            return ExitCode::from(status);
        }
        if out.failed() {
            return ExitCode::from(1);
        }
    }
    ExitCode::SUCCESS
}
