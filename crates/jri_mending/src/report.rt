//! What is reported of a mended file.

use crate::breaks::{CopyBreak, write_break};
use crate::combined::{joined_at, write_bytes};
use crate::headers::{Borrowed, write_borrowed};
use crate::mended_file::MendedFile;
use crate::preparing::Prepared;
use crate::runs::{run_at, write_run};
use jr_cut::ScanEnd;
use jr_mend::{ByteRun, Choice};
use jr_picture::Report;
use std::alloc::{AllocError, Global};
use std::io::{Result as IoResult, Write};

/// Returns how many intervals are sound and how many are damaged.
pub(crate) fn report_of(choices: &[Choice]) -> Report {
    let mut sound: u32 = 0;
    let mut damaged: u32 = 0;
    for choice in choices {
        if choice.front.is_some() {
            damaged = damaged.saturating_add(1);
        } else {
            sound = sound.saturating_add(1);
        }
    }
    Report {
        intervals: sound.saturating_add(damaged),
        sound,
        damaged,
        blank: 0,
        ended: ScanEnd::EndOfImage,
    }
}

/// Returns whether each interval is sound in the first copy.
pub(crate) fn is_first_sound(choices: &[Choice]) -> bool {
    for choice in choices {
        if choice.copy != 0 || choice.front.is_some() {
            return false;
        }
    }
    true
}

/// Writes a line by one write, and empties it.
fn write_line<E: Write>(errors: &mut E, line: &mut String) -> IoResult<()> {
    errors.write_all(line.as_bytes())?;
    line.clear();
    Ok(())
}

/// Writes a line for each copy that is read under another header, and for each break.
pub(crate) fn write_prepared<E: Write>(
    alloc: Global,
    errors: &mut E,
    prepared: &Prepared,
) -> IoResult<()> {
    let mut line = String::new(alloc);
    for found in &prepared.borrowed {
        write_borrowed(&mut line, *found, false)?;
        write_line(errors, &mut line)?;
    }
    for found in &prepared.breaks {
        write_break(&mut line, *found, false)?;
        write_line(errors, &mut line)?;
    }
    Ok(())
}

/// Writes a line for the bytes of each run of the combined copy.
fn write_runs<E: Write>(alloc: Global, errors: &mut E, runs: &[ByteRun]) -> IoResult<()> {
    let mut line = String::new(alloc);
    let mut next = 0;
    for _ in 0..runs.len() {
        let Some((bytes, after)) = joined_at(runs, next) else {
            break;
        };
        write_bytes(&mut line, bytes, false)?;
        write_line(errors, &mut line)?;
        next = after;
    }
    Ok(())
}

/// Writes a line for the bytes of each run of the combined copy and for each run of intervals, and one if the first copy is
/// written as it is.
pub(crate) fn write_lines<E: Write>(
    alloc: Global,
    errors: &mut E,
    outcome: &MendedFile,
    is_mended: bool,
) -> IoResult<()> {
    write_runs(alloc, errors, &outcome.runs)?;
    let choices = outcome.mended.choices.as_slice();
    let mut line = String::new(alloc);
    let mut next = 0;
    for _ in 0..choices.len() {
        let Some(run) = run_at(choices, next, outcome.copies) else {
            break;
        };
        write_run(&mut line, run, false)?;
        write_line(errors, &mut line)?;
        next = run.last.saturating_add(1);
    }
    if !is_mended {
        writeln!(errors, "nothing to mend: copy 1 is sound")?;
    }
    Ok(())
}

/// Begins element `index` of a list that is a member of an object.
fn begin_element(line: &mut String, key: &str, index: usize) -> Result<(), AllocError> {
    if index == 0 {
        write!(line, "\"{key}\":[")
    } else {
        line.push(',')
    }
}

/// Ends a list of this length before another member. An empty one is left out.
fn end_list(line: &mut String, length: usize) -> Result<(), AllocError> {
    if length == 0 {
        Ok(())
    } else {
        line.push_str("],")
    }
}

/// Appends the copies that are read under another header, the breaks and the runs of the combined copy as members of an object.
fn write_lists(line: &mut String, prepared: &Prepared, runs: &[ByteRun]) -> Result<(), AllocError> {
    for (index, found) in prepared.borrowed.iter().enumerate() {
        begin_element(line, "headers", index)?;
        write_borrowed(line, *found, true)?;
    }
    end_list(line, prepared.borrowed.len())?;
    for (index, found) in prepared.breaks.iter().enumerate() {
        begin_element(line, "breaks", index)?;
        write_break(line, *found, true)?;
    }
    end_list(line, prepared.breaks.len())?;
    let mut next = 0;
    for _ in 0..runs.len() {
        let Some((bytes, after)) = joined_at(runs, next) else {
            break;
        };
        begin_element(line, "combined", next)?;
        write_bytes(line, bytes, true)?;
        next = after;
    }
    end_list(line, runs.len())
}

/// Returns the report as a JSON object, with the line's end.
pub(crate) fn object_of(
    alloc: Global,
    outcome: &MendedFile,
    prepared: &Prepared,
    is_mended: bool,
) -> Result<String, AllocError> {
    let choices = outcome.mended.choices.as_slice();
    let Report {
        intervals,
        damaged,
        ..
    } = report_of(choices);
    let mut line = String::new(alloc);
    line.push('{')?;
    write_lists(&mut line, prepared, &outcome.runs)?;
    write!(
        line,
        "\"intervals\":{intervals},\"damaged\":{damaged},\"mended\":{is_mended},"
    )?;
    let mut next = 0;
    for _ in 0..choices.len() {
        let Some(run) = run_at(choices, next, outcome.copies) else {
            break;
        };
        begin_element(&mut line, "runs", next)?;
        write_run(&mut line, run, true)?;
        next = run.last.saturating_add(1);
    }
    line.push_str("]}\n")?;
    Ok(line)
}
