//! Reports how many intervals can be seen.

use jr_view::Screen;
use jr_wall::{Piece, Strip};
use std::io::Write;

/// The number of all intervals that can be seen, the number of them that are damaged, and the number that was reported
/// last.
#[derive(Drop)]
pub struct Counter<'a, E> {
    pub errors: &'a mut E,
    pub all: u32,
    pub seen: u32,
    pub damaged: u32,
    pub reported: u32,
}

/// Reports how many can be seen, and how many of them are damaged.
pub fn report_of<W: Write>(seen: u32, damaged: u32, out: &mut W) {
    let plural = if seen == 1 { "" } else { "s" };
    let _ = writeln!(
        out,
        "{seen} interval{plural} can be seen, {damaged} of them damaged"
    );
}

impl<E> Counter<'_, E> {
    /// Reports how many can be seen.
    pub fn report<W: Write>(&self, out: &mut W) {
        report_of(self.seen, self.damaged, out);
    }
}

impl<E: Write> Screen for Counter<'_, E> {
    fn show_strip(&mut self, _strip: &Strip) {}

    fn show_piece(&mut self, piece: &Piece) {
        self.seen = self.seen.saturating_add(1);
        self.damaged = self.damaged.saturating_add(u32::from(!piece.is_sound()));
    }

    fn is_done(&mut self) -> bool {
        let (seen, all) = (self.seen, self.all);
        if self.reported < seen {
            self.reported = seen;
            let _ = writeln!(self.errors, "{seen} of {all} intervals");
        }
        seen == all
    }
}
