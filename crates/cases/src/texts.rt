//! The texts that follow from a row.

use crate::row::{Row, part};
use std::alloc::AllocError;

/// Appends the lines that a field separates by `/`.
pub(crate) fn write_lines(text: &mut String, field: &str) -> Result<(), AllocError> {
    for line in field.split(" / ") {
        writeln!(text, "{line}")?;
    }
    Ok(())
}

/// Returns the lines of a field after its first, separated by `/`.
pub(crate) fn after_first(field: &str) -> &str {
    match field.split_once(" / ") {
        Some((_first, rest)) => rest,
        None => "",
    }
}

/// Appends the line of a sound file, which has the number of its intervals and the end of its scan, if that is not EOI.
fn write_sound(text: &mut String, name: &str, report: &str) -> Result<(), AllocError> {
    let (intervals, end) = (part(report, ' ', 1), after_first(report));
    let plural = if intervals == "1" { "" } else { "s" };
    write!(text, "{name}: sound, {intervals} interval{plural}")?;
    if end.is_empty() || end == "scan ended at EOI" {
        text.push_str("\n")
    } else {
        writeln!(text, ", {end}")
    }
}

/// Appends the lines of a check with a map: those of the last field, or the one that follows from
/// the report if that field is empty.
pub(crate) fn write_check_lines(text: &mut String, row: &Row<'_>) -> Result<(), AllocError> {
    let (name, report) = (row.name, row.report);
    if row.damaged.is_empty() && row.status != 2 {
        return write_sound(text, name, report);
    }
    let lines = if row.damaged.is_empty() {
        report
    } else {
        row.damaged
    };
    for line in lines.split(" / ") {
        writeln!(text, "{name}: {line}")?;
    }
    Ok(())
}

/// Returns whether a line of a map is that of a doubtful MCU.
pub(crate) fn is_doubt(line: &str) -> bool {
    line.contains(", doubtful: ")
}
