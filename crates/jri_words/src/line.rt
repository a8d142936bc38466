//! Lines on standard error.

use jr_base::Printable;
use std::fmt;
use std::fmt::{Display, Formatter};
use std::io::{Cursor, Error, Result as IoResult, Write};

/// Size in bytes of the longest line, rounded up: text of 61 letters, a number of 20 digits, a name of 4,095 bytes, a reason of
/// 256 and the line's end.
const LINE_SPACE: usize = 4608;

/// The context of a line, written after its text: nothing, or a name and the system's reason.
#[derive(Clone, Copy)]
pub(crate) struct LineContext<'a> {
    pub(crate) name: Option<&'a str>,
    pub(crate) reason: Option<Error>,
}

impl Display for LineContext<'_> {
    fn fmt<W: fmt::Write>(&self, f: &mut Formatter<W>) -> fmt::Result {
        let Some(name) = self.name else {
            return Ok(());
        };
        let name = Printable(name);
        write!(f, ": {name}")?;
        match self.reason {
            Some(reason) => write!(f, ": {reason}"),
            None => Ok(()),
        }
    }
}

/// Writes a line by one write, so that the lines of several programs on one terminal stay whole. It allocates
/// nothing, since it also reports that memory ran out.
pub(crate) fn write_line<E: Write, T: Display + Drop>(
    errors: &mut E,
    text: T,
    context: LineContext<'_>,
) -> IoResult<()> {
    let mut line = Cursor::new([0; LINE_SPACE]);
    // a longer name is cut
    let _ = write!(line, "{text}{context}");
    let length = (line.position() as usize).min(LINE_SPACE - 1);
    let mut bytes = line.into_inner();
    bytes[length] = b'\n';
    errors.write_all(&bytes[..=length])
}
