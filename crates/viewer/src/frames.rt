//! Writes an image each time that a further twentieth of it can be seen.

use jr_paint::{Samples, Tally, write_netpbm};
use jr_view::{Screen, View};
use jr_wall::{Piece, Strip};
use std::io::Write;

/// What can be seen, where its images go, and how many twentieths of the rows of MCUs the last one showed.
#[derive(Drop)]
pub struct Frames<'a, W> {
    pub view: View,
    pub out: &'a mut Tally<W>,
    pub twentieths: u64,
}

/// Writes an image, unless the writer has failed.
pub fn write<S: Samples, W: Write>(picture: &S, out: &mut Tally<W>) {
    if !out.failed() {
        let _ = write_netpbm(picture, out);
        let _ = out.flush();
    }
}

impl<W: Write> Frames<'_, W> {
    /// Writes an image if a further twentieth can be seen. The finished one is not written here.
    fn write_due(&mut self) {
        let twentieths = 20 * u64::from(self.view.rows()) / u64::from(self.view.mcu_rows());
        if self.twentieths < twentieths && twentieths < 20 {
            write(&self.view, self.out);
        }
        self.twentieths = twentieths;
    }
}

impl<W: Write> Screen for Frames<'_, W> {
    fn show_strip(&mut self, strip: &Strip) {
        self.view.show_strip(strip);
        self.write_due();
    }

    fn show_piece(&mut self, piece: &Piece) {
        self.view.show_piece(piece);
        self.write_due();
    }

    fn is_done(&mut self) -> bool {
        self.twentieths == 20 || self.out.failed()
    }
}
