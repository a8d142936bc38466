//! Calls that decode and paint the file without a board.

use crate::caller::Caller;
use jr_crew::write_scan_by;
use jr_paint::{Tally, bytes_of_line};
use jr_picture::PictureError;
use jr_rows::{paint_scan_lines, write_scan};
use jr_wall::{Counts, OpenGate};
use std::io::sink;
use std::sync::{Arc, Wait};
use std::thread::Threads;

/// Returns whether an image of a sound interval and a damaged one was written; `None` if allocation failed.
fn judge(outcome: Result<Counts, PictureError>) -> Option<bool> {
    match outcome {
        Ok(counts) => Some((counts.sound, counts.damaged, counts.blank) == (1, 1, 0)),
        Err(PictureError::Memory) => None,
        Err(PictureError::Write) => Some(false),
    }
}

impl<'a> Caller<'a> {
    pub(crate) fn write(&mut self) -> Option<bool> {
        let mut out = Tally::of(sink());
        self.begin();
        let answer = write_scan(self.alloc, &self.scan, None, &OpenGate, &mut out);
        self.end();
        judge(answer)
    }

    /// Writes with three threads. A thread that cannot be started is left out.
    pub(crate) fn write_by<R: Threads + Wait + Sync>(&mut self, rt: &R) -> Option<bool> {
        let mut out = Tally::of(sink());
        self.begin();
        let answer = write_scan_by(rt, self.alloc, &self.scan, 3, None, &OpenGate, &mut out);
        self.end();
        judge(answer)
    }

    pub(crate) fn paint_lines(&mut self) -> Option<bool> {
        let Ok(scan) = Arc::try_clone(&self.scan) else {
            return None;
        };
        let head = scan.head();
        let height = head.height();
        let Ok(mut pixels) = vec![in self.alloc; 7; height as usize * bytes_of_line(head)] else {
            return None;
        };
        self.begin();
        let answer = paint_scan_lines(self.alloc, &scan, 0, height, &mut pixels);
        self.end();
        match answer {
            Ok(marked) => Some((marked.sound, marked.damaged) == (1, 1)),
            Err(_) => None,
        }
    }
}
