//! How far a run is, shown on a terminal next to the lines.

use std::io::{Cursor, Result as IoResult, Write};
use std::time::{Clock, Duration, Instant};

/// Minimum number of milliseconds from one text to the next.
const PERIOD: u64 = 100;

/// Number of bytes of the longest text.
const SPACE: usize = 128;

/// The number of files that are reported, of the damaged ones among them, and of all files if it is known.
#[derive(Clone, Copy)]
pub struct Reported {
    pub files: u64,
    pub damaged: u64,
    pub all: Option<u64>,
}

/// Shows how far a run is.
pub trait Progress {
    /// Shows how far the run is. An implementation may leave out what comes soon after the last text.
    fn show(&mut self, reported: Reported);

    /// Makes way for a line that is written next.
    fn make_way(&mut self);

    /// Erases what is shown, at the end of the run.
    fn end(&mut self);
}

/// Shows nothing.
#[derive(Clone, Copy)]
pub struct NoProgress;

impl Progress for NoProgress {
    fn show(&mut self, _reported: Reported) {}

    fn make_way(&mut self) {}

    fn end(&mut self) {}
}

/// A text on a terminal, at most ten times a second: the number of files, of damaged ones, and of files a second.
#[derive(Drop)]
pub struct TerminalProgress<C, E> {
    clock: C,
    /// The terminal; without one nothing is shown.
    terminal: Option<E>,
    /// Whether lines go to a terminal too, where a text is in their way.
    has_lines: bool,
    began: Option<Instant>,
    /// When the last text was written.
    written: Option<Instant>,
    is_shown: bool,
}

/// Returns a length of time in milliseconds.
fn milliseconds(time: Duration) -> u64 {
    u64::try_from(time.as_millis()).unwrap_or(u64::MAX)
}

/// Writes the text over the one before it, `time` milliseconds after the start.
fn write_text<W: Write>(text: &mut W, reported: Reported, time: u64) -> IoResult<()> {
    let Reported {
        files,
        damaged,
        all,
    } = reported;
    write!(text, "\r\x1B[K{files}")?;
    if let Some(all) = all {
        write!(text, " of {all}")?;
    }
    let rate = files.saturating_mul(1000) / time.max(1);
    write!(text, " files, {damaged} damaged, {rate} files/s")
}

impl<C: Clock, E: Write> TerminalProgress<C, E> {
    /// Returns the progress of a run that begins. `has_lines` is whether its lines go to a terminal.
    pub fn of(clock: C, terminal: Option<E>, has_lines: bool) -> TerminalProgress<C, E> {
        let began = Instant::now(&clock).ok();
        TerminalProgress {
            clock,
            terminal,
            has_lines,
            began,
            written: None,
            is_shown: false,
        }
    }

    /// Returns the number of milliseconds since the start if a text is due.
    fn due(&mut self) -> Option<u64> {
        let now = Instant::now(&self.clock).ok()?;
        if let Some(written) = self.written
            && milliseconds(now.duration_since(written)) < PERIOD
        {
            return None;
        }
        self.written = Some(now);
        Some(milliseconds(now.duration_since(self.began?)))
    }

    /// Writes bytes to the terminal. Errors are ignored.
    fn write(&mut self, bytes: &[u8]) {
        if let Some(terminal) = &mut self.terminal {
            let _ = terminal.write_all(bytes);
            let _ = terminal.flush();
        }
    }

    /// Erases the text.
    fn erase(&mut self) {
        if self.is_shown {
            self.write(b"\r\x1B[K");
            self.is_shown = false;
        }
    }
}

impl<C: Clock, E: Write> Progress for TerminalProgress<C, E> {
    fn show(&mut self, reported: Reported) {
        if self.terminal.is_none() {
            return;
        }
        let Some(time) = self.due() else {
            return;
        };
        let mut text = Cursor::new([0; SPACE]);
        let _ = write_text(&mut text, reported, time);
        let size = (text.position() as usize).min(SPACE);
        self.write(&text.get_ref()[..size]);
        self.is_shown = true;
    }

    fn make_way(&mut self) {
        if self.has_lines {
            self.erase();
        }
    }

    fn end(&mut self) {
        self.erase();
    }
}
