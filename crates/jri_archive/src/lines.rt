//! The lines of files, as text or as JSON objects.

use crate::checking::Checked;
use crate::counts::FileState;
use crate::outcome::Outcome;
use crate::unsupported::{refused_word, write_reason};
use jr_cut::ScanEnd;
use jr_damage::Lines;
use jr_segments::Refusal;
use jri_machine::{Label, ReadError, begin_line, in_form, plural};
use std::alloc::AllocError;

/// Appends a text after its label, as a JSON string if the line is an object.
fn write_word(
    line: &mut String,
    label: Label,
    word: &str,
    is_json: bool,
) -> Result<(), AllocError> {
    let (before, after) = (in_form(label, is_json), if is_json { "\"" } else { "" });
    write!(line, "{before}{word}{after}")
}

/// Appends the damage of a scan as text.
fn write_damage(line: &mut String, checked: &Checked) -> Result<(), AllocError> {
    let (damaged, intervals) = (checked.verdict.damaged, checked.scan.intervals());
    let s = plural(intervals);
    match checked.lines {
        None => write!(line, "sound, {intervals} interval{s}"),
        Some(Lines { first, last }) => write!(
            line,
            "damaged, {damaged} of {intervals} interval{s}, lines {first} to {last}"
        ),
    }
}

/// Appends the members of a scan; the first has the name `key`.
fn write_members(line: &mut String, key: &str, checked: &Checked) -> Result<(), AllocError> {
    let damaged = checked.verdict.damaged;
    match checked.lines {
        None => write!(line, ",\"{key}\":\"sound\"")?,
        Some(Lines { first, last }) => write!(
            line,
            ",\"{key}\":\"damaged\",\"damaged\":{damaged},\"first_line\":{first},\"last_line\":{last}"
        )?,
    }
    let (intervals, size) = (checked.scan.intervals(), checked.size);
    let head = checked.scan.head();
    let (width, height) = (head.width(), head.height());
    write!(
        line,
        ",\"intervals\":{intervals},\"width\":{width},\"height\":{height},\"bytes\":{size}"
    )
}

/// Appends what ended the scan, if it is not EOI.
fn write_scan_end(line: &mut String, ended: ScanEnd, is_json: bool) -> Result<(), AllocError> {
    if ended == ScanEnd::EndOfImage {
        return Ok(());
    }
    if is_json {
        return write!(line, ",\"end\":\"{ended}\"");
    }
    write!(line, ", scan ended at {ended}")
}

/// Appends the number and the offset of the bytes after the end of the image, if there are some.
fn write_after_end(line: &mut String, checked: &Checked, is_json: bool) -> Result<(), AllocError> {
    let end = checked.image_end.unwrap_or(checked.size);
    match (checked.size.saturating_sub(end), is_json) {
        (0, _) => Ok(()),
        (count, true) => write!(line, ",\"after_end\":{end},\"bytes_after_end\":{count}"),
        (1, false) => write!(line, ", 1 byte after the end of the image, at byte {end}"),
        (count, false) => write!(
            line,
            ", {count} bytes after the end of the image, starting at byte {end}"
        ),
    }
}

/// Appends what the check of a file's scan came to; the first member has the name `key`.
fn write_checked(
    line: &mut String,
    key: &str,
    checked: &Checked,
    is_json: bool,
) -> Result<(), AllocError> {
    if is_json {
        write_members(line, key, checked)?;
    } else {
        write_damage(line, checked)?;
    }
    write_scan_end(line, checked.scan.ended(), is_json)?;
    write_after_end(line, checked, is_json)
}

/// Appends why a file is refused as members; the first has the name `key`.
fn write_refusal_members(
    line: &mut String,
    key: &str,
    refusal: &Refusal,
) -> Result<(), AllocError> {
    let (word, number) = (refused_word(refusal), refusal.number());
    write!(line, ",\"{key}\":\"{word}\",\"refusal\":{number}")?;
    if let Some(detail) = refusal.detail() {
        write!(line, ",\"detail\":{detail}")?;
    }
    line.push_str(",\"why\":\"")?;
    write_reason(line, refusal)?;
    line.push_str("\"")
}

/// Appends why a file is refused, with the refusal's number; the first member has the name `key`.
fn write_refusal(
    line: &mut String,
    key: &str,
    refusal: &Refusal,
    is_json: bool,
) -> Result<(), AllocError> {
    if is_json {
        return write_refusal_members(line, key, refusal);
    }
    let (word, number) = (refused_word(refusal), refusal.number());
    write!(line, "{word} {number}: ")?;
    write_reason(line, refusal)
}

/// Before the check of a file whose bytes are not those of its record.
const CHANGED: Label = ("changed, ", ",\"is\":\"changed\"");

/// Before the check of a file that has other bytes than its record, and another size or time.
const NEW_VERSION: Label = ("new version, ", ",\"new_version\":true");

/// Before the verdict of a file that is not checked.
const OUT_OF_MEMORY: Label = ("", ",\"is\":\"");

const UNCHANGED: Label = ("unchanged, ", ",\"is\":\"unchanged\",\"was\":\"");

const SKIPPED: Label = ("skipped: ", ",\"is\":\"skipped\",\"why\":\"");

const UNREAD: Label = ("cannot be read: ", ",\"is\":\"unread\",\"why\":\"");

/// Returns the verdict of a file that is not checked, after its label.
fn plain_verdict(outcome: &Outcome) -> (Label, &'static str) {
    match outcome {
        Outcome::Unchanged(was) => (UNCHANGED, was.text()),
        Outcome::Skipped => (SKIPPED, ReadError::NameIsNoText.text()),
        Outcome::Unread(ReadError::Memory) => (OUT_OF_MEMORY, ReadError::Memory.text()),
        Outcome::Unread(error) => (UNREAD, error.text()),
        _ => (OUT_OF_MEMORY, ReadError::Memory.text()),
    }
}

/// Appends the verdict of a file.
fn write_outcome(line: &mut String, outcome: &Outcome, is_json: bool) -> Result<(), AllocError> {
    let is_changed = outcome.state() == FileState::Changed;
    let key = if is_changed { "now" } else { "is" };
    if is_changed {
        line.push_str(in_form(CHANGED, is_json))?;
    }
    if let Some(checked) = outcome.checked() {
        return write_checked(line, key, checked, is_json);
    }
    if let Some(refusal) = outcome.refusal() {
        return write_refusal(line, key, refusal, is_json);
    }
    let (label, word) = plain_verdict(outcome);
    write_word(line, label, word, is_json)
}

/// Appends the line of a file, with its end; `is_new` is whether it is a new version. As a JSON object it has `is`: `sound`,
/// `damaged`, `refused`, `unsupported`, `unread`, `skipped`, `unchanged`, `changed` or `out of memory`.
pub(crate) fn append_outcome(
    line: &mut String,
    name: &[u8],
    outcome: &Outcome,
    is_new: bool,
    is_json: bool,
) -> Result<(), AllocError> {
    begin_line(line, name, is_json)?;
    if is_new {
        line.push_str(in_form(NEW_VERSION, is_json))?;
    }
    write_outcome(line, outcome, is_json)?;
    line.push_str(in_form(("\n", "}\n"), is_json))
}

/// Appends the line of a record whose file is gone, with its end.
pub(crate) fn append_missing(
    line: &mut String,
    name: &[u8],
    is_json: bool,
) -> Result<(), AllocError> {
    begin_line(line, name, is_json)?;
    line.push_str(in_form(("missing\n", ",\"is\":\"missing\"}\n"), is_json))
}
