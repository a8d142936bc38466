//! Text for a line on a terminal.

use std::fmt;
use std::fmt::{Display, Formatter};

/// A text that is written with `?` for characters that would end a line, or move on a terminal.
#[derive(Clone, Copy)]
pub struct Printable<'a>(pub &'a str);

impl Display for Printable<'_> {
    fn fmt<W: fmt::Write>(&self, f: &mut Formatter<W>) -> fmt::Result {
        for c in self.0.chars() {
            f.write_char(if c.is_control() { '?' } else { c })?;
        }
        Ok(())
    }
}
