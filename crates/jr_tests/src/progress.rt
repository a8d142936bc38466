//! What `jri_check` shows on a terminal of how far it is.

use jri_archive::{Progress, Reported, TerminalProgress};
use std::io::Result as IoResult;
use std::sync::atomic::{AtomicU64, Ordering};
use std::test::Fail;
use std::time::{Clock, Duration};

/// A clock that a test sets, in milliseconds.
#[derive(Drop)]
struct Ticks<'a> {
    now: &'a AtomicU64,
}

impl<'a> Clock for Ticks<'a> {
    fn monotonic(&self) -> IoResult<Duration> {
        Ok(Duration::from_millis(self.now.load(Ordering::SeqCst)))
    }

    fn since_1970(&self) -> IoResult<Duration> {
        self.monotonic()
    }
}

/// A step of a run of 300 files: it shows the numbers of reported and of damaged files, makes way for a line, or ends.
#[derive(Clone, Copy)]
enum Step {
    Show(u64, u64),
    MakeWay,
    End,
}

/// The time, a step, and what is written if lines go to the terminal.
const STEPS: [(u64, Step, &str); 9] = [
    (
        5,
        Step::Show(0, 0),
        "\r\x1B[K0 of 300 files, 0 damaged, 0 files/s",
    ),
    (104, Step::Show(98, 1), ""),
    (
        105,
        Step::Show(99, 2),
        "\r\x1B[K99 of 300 files, 2 damaged, 990 files/s",
    ),
    (150, Step::MakeWay, "\r\x1B[K"),
    (160, Step::MakeWay, ""),
    (204, Step::Show(150, 2), ""),
    (
        2005,
        Step::Show(160, 2),
        "\r\x1B[K160 of 300 files, 2 damaged, 80 files/s",
    ),
    (2006, Step::End, "\r\x1B[K"),
    (2007, Step::End, ""),
];

/// Does a step.
fn take<P: Progress>(progress: &mut P, step: Step) {
    match step {
        Step::Show(files, damaged) => progress.show(Reported {
            files,
            damaged,
            all: Some(300),
        }),
        Step::MakeWay => progress.make_way(),
        Step::End => progress.end(),
    }
}

#[test]
fn shows_ten_texts_a_second(rt: HostRuntime) -> Result<(), Fail> {
    let now = AtomicU64::new(5);
    let mut shown = Vec::new(rt.alloc());
    let mut wanted = Vec::new(rt.alloc());
    let mut progress = TerminalProgress::of(Ticks { now: &now }, Some(&mut shown), true);
    for (time, step, text) in &STEPS {
        now.store(*time, Ordering::SeqCst);
        take(&mut progress, *step);
        if wanted.extend_from_slice(text.as_bytes()).is_err() {
            return Err(Fail::from("out of memory"));
        }
    }
    drop(progress);
    assert!(rt; shown == wanted);
    Ok(())
}
