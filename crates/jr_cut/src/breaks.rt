//! The positions at which the restart markers of a scan are out of step.

use jr_base::marker::RST0;
use std::fmt;
use std::fmt::{Display, Formatter};

/// A marker of a scan that is not the one that is due.
#[repr(C)]
#[derive(Clone, Copy)]
pub struct Break {
    /// Offset in the file of the marker's first FF byte.
    pub at: u64,
    pub code: u8,
    /// The number, 0 to 7, of the restart marker that is due.
    pub due: u8,
    /// The number of restart markers that are missing before this one; 0 if it is passed over.
    pub skipped: u32,
}

impl Display for Break {
    /// Writes which marker is where another is due, and how many intervals are lost before it or that it is passed over.
    fn fmt<W: fmt::Write>(&self, f: &mut Formatter<W>) -> fmt::Result {
        let Break {
            at,
            code,
            due,
            skipped,
        } = *self;
        if (RST0..RST0 + 8).contains(&code) {
            let number = code - RST0;
            write!(f, "RST{number}, byte {at}, where RST{due} was due: ")?;
        } else {
            write!(f, "marker {code:02X}, byte {at}, where RST{due} was due: ")?;
        }
        if skipped == 0 {
            f.write_str("passed over")
        } else {
            write!(f, "{skipped} lost")
        }
    }
}
