//! Reporting to a screen what can be seen.

ghost use Rattle.std.specs.Prelude.{◌≡◌, ◌<◌, ◌++◌, ◌∷◌, [], ℕ, List, length, true, false, IfOk, OnOk};
ghost use Rattle.jr_scan.specs.ScanValue.{HasInterval, ScanValue};
ghost use Rattle.jr_view.specs.Lookers.{Keeps, Reports, has_reported};
ghost use Rattle.jr_view.specs.Reported.{Notice, PieceOf, StripOf};

use crate::screen::Screen;
use jr_base::Memory;
use jr_cells::{Sight, StripCells};
use jr_piece::{Piece, Strip};
use jr_scan::Scan;
use jr_wall::Decoding;
use std::alloc::Global;

/// Reports to a screen each strip of an interval in their order, and then its piece.
#[derive(Drop)]
pub(crate) struct Looker {
    /// For each interval, whether its piece was reported.
    pieces: Vec<bool>,
    /// Of each interval that may be long, the first MCU with which the next strip may begin.
    strips: Vec<u32>,
}

/// Returns the number of first intervals up to the last long one.
fn count_up_to_long(decoding: &Decoding) -> usize {
    let mut count = 0;
    for i in 0..decoding.scan().intervals() {
        if decoding.strips(i).is_some() {
            count = i as usize + 1;
        }
    }
    count
}

impl Looker {
    /// Returns one that has reported nothing. `Err` if allocation fails.
    pub(crate) fn of(alloc: Global, decoding: &Decoding) -> Result<Looker, Memory>
        ensures nothing { IfOk result (λ l. (scan : ScanValue) → Keeps scan l []) }
        ensures count { IfOk result (λ l. length l.pieces.items ≡ length decoding.now.scan.intervals) }
    {
        let intervals = decoding.scan().intervals() as usize;
        Ok(Looker {
            pieces: vec![in alloc; false; intervals]?,
            strips: vec![in alloc; 0; count_up_to_long(decoding)]?,
        })
    }

    /// Returns whether the piece of interval i was reported.
    fn has_reported(&self, i: u32) -> bool
        ensures { result ≡ has_reported self.now i }
    {
        match self.pieces.get(i as usize) {
            Some(is_reported) => *is_reported,
            None => false,
        }
    }

    /// Notes a strip, unless its interval's piece was reported, or a strip that begins with its first MCU or a later
    /// one. Returns whether it was noted.
    fn note_strip(&mut self, strip: &Strip) -> bool
        ensures new { result ≡ true → (scan : ScanValue) (reported : List Notice) → strip.now.interval.number < length scan.intervals → Keeps scan self.old reported → Keeps scan self.new (reported ++ StripOf strip.now ∷ []) }
        ensures old { result ≡ false → self.new ≡ self.old }
        ensures pieces { self.new.pieces ≡ self.old.pieces }
    {
        strip.assert_invariant();
        let number = strip.number();
        let at = number as usize;
        if at >= self.strips.len() || self.has_reported(number) {
            return false;
        }
        let first = strip.first();
        let Some(next) = first.checked_add(1) else {
            return false;
        };
        if first < self.strips[at] {
            return false;
        }
        self.strips[at] = next;
        true
    }

    /// Notes a piece, unless it was reported. Returns whether it was noted.
    fn note_piece(&mut self, piece: &Piece) -> bool
        ensures new { result ≡ true → (scan : ScanValue) (reported : List Notice) → HasInterval scan piece.now.interval → Keeps scan self.old reported → Keeps scan self.new (reported ++ PieceOf piece.now ∷ []) }
        ensures old { result ≡ false → self.new ≡ self.old }
        ensures count { length self.new.pieces.items ≡ length self.old.pieces.items }
        ensures reported { piece.now.interval.number < length self.old.pieces.items → has_reported self.new piece.now.interval.number ≡ true }
        ensures others { (i : ℕ) → has_reported self.old i ≡ true → has_reported self.new i ≡ true }
    {
        piece.assert_invariant();
        let at = piece.number() as usize;
        if at >= self.pieces.len() || self.pieces[at] {
            return false;
        }
        self.pieces[at] = true;
        true
    }

    /// Reports a strip if it is the next one of its interval.
    fn report_strip<S: Screen>(&mut self, strip: &Strip, screen: &mut S)
        ensures { (scan : ScanValue) → strip.now.interval.number < length scan.intervals → Reports S.becomes scan self.old screen.old self.new screen.new }
    {
        if self.note_strip(strip) {
            screen.show_strip(strip);
        }
    }

    /// Reports a piece unless it was reported.
    fn report_piece<S: Screen>(&mut self, piece: &Piece, screen: &mut S)
        ensures reports { (scan : ScanValue) → HasInterval scan piece.now.interval → Reports S.becomes scan self.old screen.old self.new screen.new }
        ensures reported { piece.now.interval.number < length self.old.pieces.items → has_reported self.new piece.now.interval.number ≡ true }
    {
        if self.note_piece(piece) {
            screen.show_piece(piece);
        }
    }

    /// Returns the index of the next strip of an interval.
    fn next_place(&self, cells: &StripCells) -> u32 {
        match self.strips.get(cells.number() as usize) {
            Some(next) => next.div_ceil(cells.each()),
            None => 0,
        }
    }

    /// Reports the next strips of a long interval, as far as they are there one after the other.
    fn look_at_strips<S: Screen>(&mut self, cells: &StripCells, screen: &mut S)
        ensures { (scan : ScanValue) → cells.now.number < length scan.intervals → Reports S.becomes scan self.old screen.old self.new screen.new }
    {
        let Ok(mut sight) = cells.sight() else {
            return;
        };
        for place in self.next_place(cells)..cells.count() {
            let Some(strip) = cells.look(place, &mut sight) else {
                return;
            };
            self.report_strip(strip, screen);
        }
    }

    /// Reports the next strips of interval i if that is long.
    fn look_for_strips<S: Screen>(&mut self, i: u32, decoding: &Decoding, screen: &mut S)
        requires { i < length decoding.now.scan.intervals }
        ensures { Reports S.becomes decoding.now.scan self.old screen.old self.new screen.new }
    {
        if let Some(cells) = decoding.strips(i) {
            self.look_at_strips(cells, screen);
        }
    }

    /// Reports the piece of interval i if that is there.
    fn look_for_piece<S: Screen>(
        &mut self,
        i: u32,
        decoding: &Decoding,
        sight: &mut Sight,
        screen: &mut S,
    )
        requires cell { i < length decoding.now.cells }
        requires sight { sight.old.cells ≡ decoding.now.cells }
        ensures sight { sight.new.cells ≡ sight.old.cells }
        ensures reports { Reports S.becomes decoding.now.scan self.old screen.old self.new screen.new }
    {
        if let Some(piece) = decoding.cells().look(i, sight)
            && piece.is_for(decoding.scan())
        {
            self.report_piece(piece, screen);
        }
    }

    /// Reports what can be seen of interval i at present.
    fn look_at<S: Screen>(&mut self, i: u32, decoding: &Decoding, sight: &mut Sight, screen: &mut S)
        requires cell { i < length decoding.now.cells }
        requires interval { i < length decoding.now.scan.intervals }
        requires sight { sight.old.cells ≡ decoding.now.cells }
        ensures sight { sight.new.cells ≡ sight.old.cells }
        ensures reports { Reports S.becomes decoding.now.scan self.old screen.old self.new screen.new }
    {
        if self.has_reported(i) {
            return;
        }
        self.look_for_strips(i, decoding, screen);
        self.look_for_piece(i, decoding, sight, screen);
    }

    /// Reports what can be seen at present. Items skipped for lack of memory are reported by a later call.
    pub(crate) fn look<S: Screen>(&mut self, decoding: &Decoding, screen: &mut S)
        ensures { Reports S.becomes decoding.now.scan self.old screen.old self.new screen.new }
    {
        let Ok(mut sight) = decoding.cells().sight() else {
            return;
        };
        let count = decoding.cells().count().min(decoding.scan().intervals());
        for i in 0..count {
            self.look_at(i, decoding, &mut sight, screen);
        }
    }

    /// Reports the piece of interval i, which it decodes itself, unless it was reported.
    fn report_decoded<S: Screen>(
        &mut self,
        alloc: Global,
        scan: &Scan,
        i: u32,
        screen: &mut S,
    ) -> Result<(), Memory>
        requires { i < length scan.now.intervals }
        ensures reports { Reports S.becomes scan.now self.old screen.old self.new screen.new }
        ensures reported { OnOk result (i < length self.old.pieces.items → has_reported self.new i ≡ true) }
    {
        if self.has_reported(i) {
            return Ok(());
        }
        let Ok(piece) = Piece::make(alloc, scan.interval(i)?) else {
            return Err(Memory);
        };
        self.report_piece(&piece, screen);
        Ok(())
    }

    /// Reports the pieces that were not reported: no worker has published them.
    pub(crate) fn report_rest<S: Screen>(
        &mut self,
        alloc: Global,
        scan: &Scan,
        screen: &mut S,
    ) -> Result<(), Memory>
        requires { length self.old.pieces.items ≡ length scan.now.intervals }
        ensures reports { Reports S.becomes scan.now self.old screen.old self.new screen.new }
        ensures all { OnOk result ((i : ℕ) → i < length scan.now.intervals → has_reported self.new i ≡ true) }
    {
        for i in 0..scan.intervals() {
            self.report_decoded(alloc, scan, i, screen)?;
        }
        Ok(())
    }
}
