//! The texts of refusals; those that a valid file may have say what is not supported.

use jr_base::marker::{DAC, DHP, SOF0, SOF2, SOF3, SOF9, SOF10, SOF11};
use jr_segments::Refusal;
use std::alloc::AllocError;

/// Returns the verdict of a refused file.
pub(crate) fn refused_word(refusal: &Refusal) -> &'static str {
    if refusal.is_unsupported() {
        "unsupported"
    } else {
        "refused"
    }
}

/// Returns the kind of a frame that is not decoded (T.81, table B.1).
fn frame_text(code: u8) -> &'static str {
    match code {
        SOF2 => "progressive JPEG",
        SOF3 => "lossless JPEG",
        SOF9 => "arithmetic-coded JPEG",
        SOF10 => "arithmetic-coded progressive JPEG",
        SOF11 => "arithmetic-coded lossless JPEG",
        _ => "hierarchical JPEG",
    }
}

/// Returns what a valid file with this refusal has that is not decoded; nothing if the refusal has another text.
fn unsupported_text(refusal: &Refusal) -> &'static str {
    match refusal {
        Refusal::UnexpectedMarker(DAC) => "arithmetic-coded JPEG (DAC) is not supported",
        Refusal::UnexpectedMarker(DHP) => "hierarchical JPEG (DHP) is not supported",
        Refusal::BadPrecision => "samples of other than 8 bits are not supported",
        Refusal::BadSize => "a width or height of 0 (DNL) is not supported",
        Refusal::TooManyPixels => "more than 268,435,456 pixels are not supported",
        Refusal::BadComponents => "only 1 or 3 components are supported",
        Refusal::BadSampling => "these sampling factors are not supported",
        Refusal::BadScanHeader => "only one scan of all components is supported",
        Refusal::MissingTable => "tables that are not in the file are not supported",
        Refusal::TooLong => "more than 1,073,741,824 bytes are not supported",
        _ => "",
    }
}

/// Writes why a file is refused: what is not supported, or the text of the refusal.
pub(crate) fn write_reason(line: &mut String, refusal: &Refusal) -> Result<(), AllocError> {
    if let Refusal::NotBaseline(code) = refusal {
        let (kind, number) = (frame_text(*code), code.saturating_sub(SOF0));
        return write!(line, "{kind} (SOF{number}) is not supported");
    }
    let text = unsupported_text(refusal);
    if text.is_empty() {
        return write!(line, "{refusal}");
    }
    line.push_str(text)
}
