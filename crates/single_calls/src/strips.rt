//! Calls that read a strip of the file's second interval, which is damaged after five MCUs, transform it, and publish it.

ghost use Rattle.std.specs.Prelude.{◌≡◌, ◌<◌, IfSome, length};

use crate::caller::Caller;
use jr_wall::{CodedStrip, Strip, StripCells, StripReader, StripSight};
use std::sync::Arc;

/// Returns whether the first cell contains a strip.
fn sees(cells: &StripCells, sight: &mut StripSight) -> bool
    requires { sight.old.cells ≡ cells.now }
    ensures { sight.new.cells ≡ sight.old.cells }
{
    cells.count() > 0 && cells.look(0, sight).is_some()
}

/// Publishes a strip in the first cell, if it belongs there. `Err` returns it.
fn hang(cells: &StripCells, strip: Arc<Strip>, sight: &mut StripSight) -> Result<(), Arc<Strip>>
    requires { sight.old.cells ≡ cells.now }
    ensures { sight.new.cells ≡ sight.old.cells }
{
    if cells.count() == 0 || strip.number() != cells.number() || strip.first() != 0 {
        return Err(strip);
    }
    cells.hang(0, strip, sight)
}

impl<'a> Caller<'a> {
    fn strips(&self) -> Option<StripReader> {
        match Arc::new(self.alloc, self.interval(1)?) {
            Ok(interval) => Some(StripReader::over(interval)),
            Err(_) => None,
        }
    }

    /// Returns the next strip of a reader, which it hasn't decoded.
    fn next_strip(&self, reader: &mut StripReader) -> Option<CodedStrip> {
        match reader.next(self.alloc, 9) {
            Ok(coded) => coded,
            Err(_) => None,
        }
    }

    /// Reads a strip. A reader whose call is refused returns the strip at the next call.
    pub(crate) fn read_strip(&mut self) -> Option<bool> {
        let mut reader = self.strips()?;
        self.begin();
        let answer = reader.next(self.alloc, 9);
        self.end();
        match answer {
            Ok(coded) => Some(coded.is_some()),
            Err(_) => self.next_strip(&mut reader).is_none().then_some(false),
        }
    }

    fn coded_strip(&self) -> Option<CodedStrip> {
        let mut reader = self.strips()?;
        self.next_strip(&mut reader)
    }

    fn strip(&self) -> Option<Arc<Strip>> {
        match self.coded_strip()?.decode(self.alloc) {
            Ok(strip) => Arc::new(self.alloc, strip).ok(),
            Err(_) => None,
        }
    }

    pub(crate) fn decode_strip(&mut self) -> Option<bool> {
        let coded = self.coded_strip()?;
        self.begin();
        let answer = coded.decode(self.alloc);
        self.end();
        match answer {
            Ok(strip) => Some(strip.mcus() == 5),
            Err(_) => None,
        }
    }

    fn strip_cells(&self) -> Option<StripCells> {
        StripCells::open(self.alloc, &self.interval(1)?, 9).ok()
    }

    pub(crate) fn open_strip_cells(&mut self) -> Option<bool> {
        let interval = self.interval(1)?;
        self.begin();
        let answer = StripCells::open(self.alloc, &interval, 9);
        self.end();
        match answer {
            Ok(cells) => Some((cells.number(), cells.each(), cells.count()) == (1, 9, 2)),
            Err(_) => None,
        }
    }

    pub(crate) fn open_strip_sight(&mut self) -> Option<bool> {
        let cells = self.strip_cells()?;
        self.begin();
        let answer = cells.sight();
        self.end();
        answer.is_ok().then_some(true)
    }

    /// Publishes a strip in the first of these cells, which stays empty if that is refused.
    fn hang_into(&mut self, cells: &StripCells, strip: Arc<Strip>) -> Option<bool> {
        let Ok(mut sight) = cells.sight() else {
            return None;
        };
        self.begin();
        let answer = hang(cells, strip, &mut sight);
        self.end();
        let is_seen = sees(cells, &mut sight);
        match answer {
            Ok(()) => Some(is_seen),
            Err(_) => is_seen.then_some(false),
        }
    }

    pub(crate) fn hang_strip(&mut self) -> Option<bool> {
        let strip = self.strip()?;
        let cells = self.strip_cells()?;
        self.hang_into(&cells, strip)
    }
}
