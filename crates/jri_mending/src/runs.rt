//! Consecutive intervals that are taken from one copy.

use jr_mend::Choice;
use jri_machine::{Row, write_row};
use std::alloc::AllocError;

/// Consecutive intervals with equal choices.
#[derive(Clone, Copy)]
pub(crate) struct Run {
    pub(crate) first: usize,
    pub(crate) last: usize,
    pub(crate) choice: Choice,
    /// Whether it is the combined copy's.
    pub(crate) is_combined: bool,
}

/// Of several intervals.
const INTERVALS: Row = Row {
    labels: &[
        ("intervals ", "{\"interval\":"),
        (" to ", ",\"last_interval\":"),
    ],
    end: (": ", ""),
};

/// Of one interval.
const INTERVAL: Row = Row {
    labels: &[("interval ", "{\"interval\":"), ("", ",\"last_interval\":")],
    end: (": ", ""),
};

/// Appends from which copy intervals are, and how far they can be decoded if they are damaged in all.
fn write_source(line: &mut String, run: Run) -> Result<(), AllocError> {
    let copy = u64::from(run.choice.copy).saturating_add(1);
    match (run.choice.front, run.is_combined) {
        (Some(mcus), true) => write!(
            line,
            "damaged in all copies, the combined copy decodes {mcus} MCUs"
        )?,
        (Some(mcus), false) => {
            write!(
                line,
                "damaged in all copies, copy {copy} decodes {mcus} MCUs"
            )?;
        }
        (None, true) => line.push_str("combined copy")?,
        (None, false) => write!(line, "copy {copy}")?,
    }
    if run.choice.front.is_none() && run.choice.differs {
        line.push_str(", sound in copies with different data")?;
    }
    line.push('\n')
}

/// Appends the same as members of an object, with its end.
fn write_source_members(line: &mut String, run: Run) -> Result<(), AllocError> {
    if run.is_combined {
        line.push_str(",\"combined\":true")?;
    } else {
        let copy = u64::from(run.choice.copy).saturating_add(1);
        write!(line, ",\"copy\":{copy}")?;
    }
    if let Some(mcus) = run.choice.front {
        return write!(line, ",\"is\":\"damaged\",\"decodable\":{mcus}}}");
    }
    line.push_str(",\"is\":\"sound\"")?;
    if run.choice.differs {
        line.push_str(",\"differs\":true")?;
    }
    line.push('}')
}

/// Appends a run, as a line or as an object.
pub(crate) fn write_run(line: &mut String, run: Run, is_json: bool) -> Result<(), AllocError> {
    let (first, last) = (run.first as u64, run.last as u64);
    let row = if first == last { INTERVAL } else { INTERVALS };
    write_row(line, row, &[first, last], is_json)?;
    if is_json {
        return write_source_members(line, run);
    }
    write_source(line, run)
}

/// Returns the run of intervals that begins with one of them. The copy after the last of these is the combined one.
pub(crate) fn run_at(choices: &[Choice], first: usize, copies: usize) -> Option<Run> {
    if first >= choices.len() {
        return None;
    }
    let choice = choices[first];
    let mut last = first;
    for i in first..choices.len() {
        if choices[i] != choice {
            break;
        }
        last = i;
    }
    Some(Run {
        first,
        last,
        choice,
        is_combined: u64::from(choice.copy) >= copies as u64,
    })
}
