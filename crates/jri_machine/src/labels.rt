//! Numbers with their labels, in lines of text or in JSON objects.

use std::alloc::AllocError;

/// What precedes a value: in a line of text, and in a JSON object.
pub type Label = (&'static str, &'static str);

/// Returns a label in one of the forms.
pub fn in_form(label: Label, is_json: bool) -> &'static str {
    if is_json { label.1 } else { label.0 }
}

/// Returns the end of the word for this number of things.
pub fn plural(count: u32) -> &'static str {
    if count == 1 { "" } else { "s" }
}

/// The labels of numbers, and what follows them. A number whose label is empty is left out.
#[derive(Clone, Copy)]
pub struct Row {
    pub labels: &'static [Label],
    pub end: Label,
}

/// Of a marker that is out of step, as members: its offset and code, the number of the restart marker that was due, and the
/// number of intervals that are lost before it.
pub const BREAK: Row = Row {
    labels: &[
        ("", ",\"byte\":"),
        ("", ",\"marker\":"),
        ("", ",\"due\":"),
        ("", ",\"lost\":"),
    ],
    end: ("", "}"),
};

/// Appends numbers with their labels.
pub fn write_row(
    line: &mut String,
    row: Row,
    numbers: &[u64],
    is_json: bool,
) -> Result<(), AllocError> {
    for (label, number) in row.labels.iter().zip(numbers.iter()) {
        let label = in_form(*label, is_json);
        if !label.is_empty() {
            write!(line, "{label}{number}")?;
        }
    }
    line.push_str(in_form(row.end, is_json))
}
