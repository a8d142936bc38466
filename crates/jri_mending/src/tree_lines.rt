//! The lines of the names in several directories, as text or as JSON objects. Copies have the numbers of their directories,
//! from 1.

use crate::breaks::number_of;
use crate::mended_file::MendedFile;
use crate::reading::CopyError;
use crate::report::report_of;
use crate::trees::TreeFile;
use jr_mend::Choice;
use jr_picture::{Fault, Report};
use jri_machine::{ReadError, begin_line, in_form, plural, write_string};
use jri_words::Ending;
use std::alloc::{AllocError, Global};

/// Returns the number of intervals that are taken from a copy.
fn taken_from(choices: &[Choice], copy: usize) -> u32 {
    let mut count: u32 = 0;
    for choice in choices {
        if choice.copy as usize == copy {
            count = count.saturating_add(1);
        }
    }
    count
}

/// Appends the number of intervals from each copy and from the combined one, as text.
fn write_sources(
    line: &mut String,
    file: &TreeFile,
    outcome: &MendedFile,
) -> Result<(), AllocError> {
    let choices = outcome.mended.choices.as_slice();
    for k in 0..file.trees.len() {
        let count = taken_from(choices, k);
        if count > 0 {
            let (tree, s) = (number_of(file.trees[k]), plural(count));
            write!(line, ", {count} interval{s} from copy {tree}")?;
        }
    }
    match taken_from(choices, outcome.copies) {
        0 => Ok(()),
        count => write!(line, ", {count} interval{} combined", plural(count)),
    }
}

/// Appends the number of intervals from each copy and from the combined one, as members.
fn write_source_members(
    line: &mut String,
    file: &TreeFile,
    outcome: &MendedFile,
) -> Result<(), AllocError> {
    let choices = outcome.mended.choices.as_slice();
    let combined = taken_from(choices, outcome.copies);
    line.push_str(",\"from\":[")?;
    for k in 0..file.trees.len() {
        let (tree, count) = (number_of(file.trees[k]), taken_from(choices, k));
        let before = if k == 0 { "" } else { "," };
        write!(line, "{before}{{\"copy\":{tree},\"intervals\":{count}}}")?;
    }
    write!(line, "],\"combined\":{combined}")
}

/// Ends a line by the number of directories that have the name; as text only if not all have it.
fn end_line(
    line: &mut String,
    file: &TreeFile,
    trees: usize,
    is_json: bool,
) -> Result<(), AllocError> {
    let have = file.trees.len();
    if is_json {
        return write!(line, ",\"trees\":{have}}}\n");
    }
    if have < trees {
        write!(line, ", in {have} of {trees} trees")?;
    }
    line.push('\n')
}

/// Appends the line of a mended file.
pub(crate) fn append_mended(
    line: &mut String,
    file: &TreeFile,
    outcome: &MendedFile,
    trees: usize,
    is_json: bool,
) -> Result<(), AllocError> {
    let Report {
        intervals,
        damaged,
        ..
    } = report_of(outcome.mended.choices.as_slice());
    begin_line(line, file.name.as_slice(), is_json)?;
    match (damaged, is_json) {
        (0, false) => {
            line.push_str("mended")?;
            write_sources(line, file, outcome)?;
        }
        (_, false) => {
            let s = plural(intervals);
            write!(
                line,
                "damaged in all copies, {damaged} of {intervals} interval{s}"
            )?;
        }
        (_, true) => {
            let word = if damaged == 0 { "mended" } else { "damaged" };
            write!(
                line,
                ",\"is\":\"{word}\",\"intervals\":{intervals},\"damaged\":{damaged}"
            )?;
            write_source_members(line, file, outcome)?;
        }
    }
    end_line(line, file, trees, is_json)
}

/// Appends the line of a name whose copies are equal.
pub(crate) fn append_equal(
    line: &mut String,
    file: &TreeFile,
    is_copied: bool,
    trees: usize,
    is_json: bool,
) -> Result<(), AllocError> {
    begin_line(line, file.name.as_slice(), is_json)?;
    line.push_str(in_form(("equal", ",\"is\":\"equal\""), is_json))?;
    if is_copied {
        line.push_str(in_form((", copied", ",\"copied\":true"), is_json))?;
    }
    end_line(line, file, trees, is_json)
}

/// Appends the line of a name that the directory of the mended files has.
pub(crate) fn append_there(
    line: &mut String,
    name: &[u8],
    is_json: bool,
) -> Result<(), AllocError> {
    begin_line(line, name, is_json)?;
    line.push_str(in_form(("already there\n", ",\"is\":\"there\"}\n"), is_json))
}

/// Appends the line of a name that is neither UTF-8 nor that of a JPEG file.
pub(crate) fn append_skipped(
    line: &mut String,
    name: &[u8],
    is_json: bool,
) -> Result<(), AllocError> {
    begin_line(line, name, is_json)?;
    line.push_str(in_form(("skipped: ", ",\"is\":\"skipped\",\"why\":\""), is_json))?;
    line.push_str(ReadError::NameIsNoText.text())?;
    line.push_str(in_form(("\n", "\"}\n"), is_json))
}

/// Appends a reason as the last member of an object, with the line's end.
fn end_with_reason(line: &mut String, why: &str) -> Result<(), AllocError> {
    line.push_str(",\"why\":")?;
    write_string(line, why.as_bytes())?;
    line.push_str("}\n")
}

/// Returns the word for an error in an object.
fn word_of(error: &CopyError) -> &'static str {
    match error {
        CopyError::Unread(_) | CopyError::Unlisted(_) => "unread",
        CopyError::Refused(_) => "refused",
        CopyError::OtherHead => "other_header",
        CopyError::TooLong => "unwritten",
        CopyError::Memory => "out of memory",
    }
}

/// Returns the reason of an error, without what it is the reason of.
fn reason_of(alloc: Global, error: &CopyError) -> Result<String, AllocError> {
    match error {
        CopyError::Unread(reason) => format!(in alloc; "{reason}"),
        CopyError::Unlisted(reason) => String::from_str(alloc, reason.text()),
        CopyError::Refused(refusal) => format!(in alloc; "{refusal}"),
        _ => format!(in alloc; "{error}"),
    }
}

/// Appends the line of a name of which a copy has an error, or which is not mended.
pub(crate) fn append_error(
    alloc: Global,
    line: &mut String,
    name: &[u8],
    tree: usize,
    error: CopyError,
    is_json: bool,
) -> Result<(), AllocError> {
    let tree = number_of(tree);
    begin_line(line, name, is_json)?;
    if is_json {
        let word = word_of(&error);
        write!(line, ",\"is\":\"{word}\",\"copy\":{tree}")?;
        if let CopyError::Refused(refusal) = error {
            write!(line, ",\"refusal\":{}", refusal.number())?;
        }
        let why = reason_of(alloc, &error)?;
        return end_with_reason(line, why.as_str());
    }
    match error {
        CopyError::TooLong | CopyError::Memory => write!(line, "{error}\n"),
        _ => write!(line, "copy {tree}: {error}\n"),
    }
}

/// Appends the line of a name whose mended file is not written.
pub(crate) fn append_unwritten(
    alloc: Global,
    line: &mut String,
    name: &[u8],
    ending: &Ending,
    is_json: bool,
) -> Result<(), AllocError> {
    let why = match (ending.outcome, ending.reason) {
        (Err(Fault::Memory), _) => format!(in alloc; "out of memory")?,
        (_, Some(reason)) => format!(in alloc; "{reason}")?,
        _ => format!(in alloc; "writing failed")?,
    };
    begin_line(line, name, is_json)?;
    if is_json {
        line.push_str(",\"is\":\"unwritten\"")?;
        return end_with_reason(line, why.as_str());
    }
    write!(line, "cannot be written: {why}\n")
}
