//! The line of the counts, as text or as a JSON object.

use crate::counts::{FileCounts, Findings};
use std::alloc::AllocError;
use std::fmt;
use std::fmt::{Display, Formatter};
use std::io::{Cursor, Result as IoResult, Write};

impl Display for FileCounts {
    /// Omits the counts that are 0, except that of the sound files.
    fn fmt<W: fmt::Write>(&self, f: &mut Formatter<W>) -> fmt::Result {
        write!(f, "{} sound", self.sound)?;
        let others = [
            (self.damaged, "damaged"),
            (self.refused, "refused"),
            (self.unsupported, "unsupported"),
            (self.unread, "cannot be read"),
            (self.out_of_memory, "out of memory"),
            (self.changed, "changed"),
        ];
        for (count, text) in others {
            if count > 0 {
                write!(f, ", {count} {text}")?;
            }
        }
        Ok(())
    }
}

impl Display for Findings {
    /// Writes those that are not 0 after the counts of files.
    fn fmt<W: fmt::Write>(&self, f: &mut Formatter<W>) -> fmt::Result {
        let plural = if self.new_versions == 1 { "" } else { "s" };
        if self.new_versions > 0 {
            write!(f, ", {} new version{plural}", self.new_versions)?;
        }
        for (count, text) in [(self.missing, "missing"), (self.doubtful, "doubtful")] {
            if count > 0 {
                write!(f, ", {count} {text}")?;
            }
        }
        Ok(())
    }
}

/// Appends the members that an object of counts has only if they are not 0, and the line's end.
fn append_others(
    line: &mut String,
    counts: FileCounts,
    findings: Findings,
) -> Result<(), AllocError> {
    let others = [
        ("changed", counts.changed),
        ("new_versions", findings.new_versions),
        ("missing", findings.missing),
        ("doubtful", findings.doubtful),
    ];
    for (key, count) in others {
        if count > 0 {
            write!(line, ",\"{key}\":{count}")?;
        }
    }
    line.push_str("}\n")
}

/// Appends the object of the counts, with the line's end.
fn append_counts_object(
    line: &mut String,
    counts: FileCounts,
    findings: Findings,
) -> Result<(), AllocError> {
    let FileCounts {
        sound,
        damaged,
        refused,
        unsupported,
        unread,
        out_of_memory,
        ..
    } = counts;
    write!(
        line,
        "{{\"sound\":{sound},\"damaged\":{damaged},\"refused\":{refused},\"unsupported\":{unsupported},\"unread\":{unread},\"out_of_memory\":{out_of_memory}"
    )?;
    append_others(line, counts, findings)
}

/// Appends the line of the counts, with its end.
pub fn append_counts_line(
    line: &mut String,
    counts: FileCounts,
    findings: Findings,
) -> Result<(), AllocError> {
    writeln!(line, "{counts}{findings}")
}

/// Appends the line of the counts in one of the forms, with its end.
pub(crate) fn append_counts(
    line: &mut String,
    counts: FileCounts,
    findings: Findings,
    is_json: bool,
) -> Result<(), AllocError> {
    if is_json {
        return append_counts_object(line, counts, findings);
    }
    append_counts_line(line, counts, findings)
}

/// The size of the longest line of counts, rounded up: ten numbers of 20 digits and 125 letters.
const COUNTS_SIZE: usize = 384;

/// Writes the line of the counts by one write. It allocates nothing, since memory may have run out.
pub fn write_counts_line<W: Write>(
    out: &mut W,
    counts: FileCounts,
    findings: Findings,
) -> IoResult<()> {
    let mut line = Cursor::new([0; COUNTS_SIZE]);
    writeln!(line, "{counts}{findings}")?;
    let length = (line.position() as usize).min(COUNTS_SIZE);
    let bytes = line.into_inner();
    out.write_all(&bytes[..length])
}
