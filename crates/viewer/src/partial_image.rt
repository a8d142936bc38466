//! Shows an image while its file arrives on standard input.

use crate::counting::report_of;
use jr_base::Memory;
use jr_head::{Head, Refusal};
use jr_paint::{HEADER_SPACE, Tally, write_header};
use jr_view::{FinishedView, PartialView};
use std::alloc::{AllocError, Global};
use std::io::{Error, Read, Write};

/// The maximum number of bytes that are read at once.
const PART: usize = 65_536;

/// The reason why there is no image.
#[derive(Clone, Copy)]
pub enum Failure {
    Stream,
    Memory,
    Refused(Refusal),
}

impl From<Error> for Failure {
    fn from(_failed: Error) -> Self {
        Failure::Stream
    }
}

impl From<AllocError> for Failure {
    fn from(_refused: AllocError) -> Self {
        Failure::Memory
    }
}

impl From<Memory> for Failure {
    fn from(_refused: Memory) -> Self {
        Failure::Memory
    }
}

impl From<Refusal> for Failure {
    fn from(refusal: Refusal) -> Self {
        match refusal {
            Refusal::Memory => Failure::Memory,
            _ => Failure::Refused(refusal),
        }
    }
}

impl Failure {
    /// Reports the reason, and returns the exit status.
    pub fn report<E: Write>(self, errors: &mut E) -> u8 {
        match self {
            Failure::Stream => {
                let _ = writeln!(errors, "cannot read the file");
                1
            }
            Failure::Memory => 1,
            Failure::Refused(refusal) => {
                let _ = writeln!(errors, "refused: {refusal}");
                2
            }
        }
    }
}

/// Writes an image of these lines, unless the writer has failed.
fn write_lines<W: Write>(head: &Head, lines: &[u8], out: &mut Tally<W>) {
    if out.failed() {
        return;
    }
    let mut header = [0; HEADER_SPACE];
    let end = write_header(head, &mut header);
    let _ = out.write_all(&header[..end]);
    let _ = out.write_all(lines);
    let _ = out.flush();
}

/// Writes an image if a further twentieth of the lines is shown. Returns how many are. The finished one is not written
/// here.
fn write_due<W: Write>(view: &PartialView, shown: u64, out: &mut Tally<W>) -> u64 {
    let Some(head) = view.head() else {
        return shown;
    };
    let twentieths = 20 * u64::from(view.lines()) / u64::from(head.height());
    if shown < twentieths && twentieths < 20 {
        write_lines(head, view.pixels(), out);
    }
    twentieths
}

/// Appends what arrives to `view`, and writes meanwhile images of the lines that are final, if they are requested.
fn take_all<I: Read, W: Write>(
    alloc: Global,
    input: &mut I,
    has_frames: bool,
    view: &mut PartialView,
    out: &mut Tally<W>,
) -> Result<(), Failure> {
    let mut part = vec![in alloc; 0; PART]?;
    let mut shown = 0;
    for _ in 0..u64::MAX {
        let count = input.read(part.as_mut_slice())?;
        if count == 0 || out.failed() {
            break;
        }
        view.push(&part[..count])?;
        if has_frames {
            view.show(alloc)?;
            shown = write_due(view, shown, out);
        }
    }
    Ok(())
}

/// Shows the image when no further byte comes.
fn show_finished<W: Write>(
    alloc: Global,
    view: PartialView,
    has_frames: bool,
    out: &mut Tally<W>,
) -> Result<(), Failure> {
    let FinishedView {
        scan,
        counts,
        pixels,
    } = view.finish(alloc)?;
    if has_frames {
        write_lines(scan.head(), &pixels, out);
    } else {
        let (sound, damaged) = (counts.sound, counts.damaged);
        report_of(sound.saturating_add(damaged), damaged, out);
    }
    Ok(())
}

/// Shows an image while its file arrives; the last one is finished.
pub fn show<I: Read, W: Write>(
    alloc: Global,
    input: &mut I,
    has_frames: bool,
    out: &mut Tally<W>,
) -> Result<(), Failure> {
    let mut view = PartialView::new(alloc);
    match take_all(alloc, input, has_frames, &mut view, out) {
        Ok(()) => show_finished(alloc, view, has_frames, out),
        Err(failure) => Err(failure),
    }
}
