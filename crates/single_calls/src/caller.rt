//! What calls are made with.

ghost use Rattle.std.specs.Prelude.{◌≡◌, IfSome};

use jr_head::read_head;
use jr_scan::{Interval, Scan};
use std::alloc::Global;
use std::io::{Stderr, Write};
use std::sync::Arc;

/// A small file and its scan, and where the lines before and after a call are written. A method for each call returns whether
/// it is right, or `None` if it reports that allocation fails.
#[derive(Drop)]
pub(crate) struct Caller<'a> {
    pub alloc: Global,
    pub file: &'a [u8],
    pub scan: Arc<Scan>,
    pub errors: Stderr,
}

/// Returns the scan of a file, if it has one.
pub(crate) fn scan_of(alloc: Global, file: &[u8]) -> Option<Arc<Scan>> {
    let head = read_head(alloc, file).ok()?;
    match Scan::cut(alloc, head, file) {
        Ok(scan) => Arc::new(alloc, scan).ok(),
        Err(_) => None,
    }
}

impl<'a> Caller<'a> {
    pub(crate) fn of(alloc: Global, file: &'a [u8], errors: Stderr) -> Option<Caller<'a>> {
        if file.len() > 1000 {
            return None;
        }
        let scan = scan_of(alloc, file)?;
        Some(Caller {
            alloc,
            file,
            scan,
            errors,
        })
    }

    pub(crate) fn interval(&self, number: u32) -> Option<Interval>
        ensures { IfSome result (λ i. i.number ≡ number) }
    {
        if number >= self.scan.intervals() {
            return None;
        }
        self.scan.interval(number).ok()
    }

    fn write_line(&mut self, line: &[u8]) {
        let _ = self.errors.write_all(line);
    }

    pub(crate) fn begin(&mut self) {
        self.write_line(b"call begins\n");
    }

    pub(crate) fn end(&mut self) {
        self.write_line(b"call ends\n");
    }
}
