//! What a file's header says, as a line.

use crate::quality::quality_of;
use jr_head::{Head, Kind};
use jr_picture::Fault;
use jri_machine::{begin_line, plural};
use std::alloc::{AllocError, Global};

/// Returns the name of the components' meaning.
fn kind_name(kind: Kind) -> &'static str {
    match kind {
        Kind::Grey => "grey",
        Kind::Rgb => "RGB",
        Kind::Ycc => "YCbCr",
    }
}

/// Appends the sampling factors of each component (T.81, A.1.1): horizontal, `x`, vertical. `mark` is before and after each,
/// `between` between two.
fn write_sampling(
    line: &mut String,
    head: &Head,
    between: &str,
    mark: &str,
) -> Result<(), AllocError> {
    // By its contract a header has so few components that their numbers are in order.
    head.assert_invariant();
    for c in 0..head.components() {
        let between = if c > 0 { between } else { "" };
        let (horizontal, vertical) = (head.horizontal(c), head.vertical(c));
        write!(line, "{between}{mark}{horizontal}x{vertical}{mark}")?;
    }
    Ok(())
}

/// Appends the quality after its label, if there is one.
fn write_quality(line: &mut String, label: &str, head: &Head) -> Result<(), AllocError> {
    match quality_of(head) {
        Some(quality) => write!(line, "{label}{quality}"),
        None => Ok(()),
    }
}

/// Appends what a header says, after the file's name.
fn write_head(line: &mut String, head: &Head) -> Result<(), AllocError> {
    let (width, height, intervals) = (head.width(), head.height(), head.intervals());
    let (kind, s) = (kind_name(head.kind()), plural(intervals));
    write!(line, "{width} x {height}, {kind}, sampling ")?;
    write_sampling(line, head, " ", "")?;
    write!(line, ", {intervals} interval{s}")?;
    write_quality(line, ", quality ", head)?;
    writeln!(line, ", scan at byte {}", head.scan_at())
}

/// Appends the members of a header, after the file's name.
fn write_members(line: &mut String, head: &Head) -> Result<(), AllocError> {
    let (width, height, kind) = (head.width(), head.height(), kind_name(head.kind()));
    write!(
        line,
        ",\"width\":{width},\"height\":{height},\"kind\":\"{kind}\",\"sampling\":["
    )?;
    write_sampling(line, head, ",", "\"")?;
    let (intervals, restart) = (head.intervals(), head.restart());
    write!(line, "],\"intervals\":{intervals},\"restart\":{restart}")?;
    write_quality(line, ",\"quality\":", head)?;
    writeln!(line, ",\"scan_at\":{}}}", head.scan_at())
}

/// Returns the text of a fault without a refusal.
fn fault_text(fault: Fault) -> &'static str {
    match fault {
        Fault::NoFile => "cannot open the file",
        Fault::Memory => "out of memory",
        Fault::Read | Fault::Write | Fault::Refused(_) => "cannot read the file",
    }
}

/// Appends why a file's header says nothing, after the file's name.
fn write_fault(line: &mut String, fault: Fault, is_json: bool) -> Result<(), AllocError> {
    match (fault, is_json) {
        (Fault::Refused(refusal), false) => {
            writeln!(line, "refused {}: {refusal}", refusal.number())
        }
        (Fault::Refused(refusal), true) => {
            let number = refusal.number();
            writeln!(line, ",\"refusal\":{number},\"why\":\"{refusal}\"}}")
        }
        (fault, false) => writeln!(line, "{}", fault_text(fault)),
        (fault, true) => writeln!(line, ",\"why\":\"{}\"}}", fault_text(fault)),
    }
}

/// Returns the line of a file, or its JSON object: what its header says (T.81, B.2), or why nothing can be said.
pub fn describe(
    alloc: Global,
    name: &str,
    head: &Result<Head, Fault>,
    is_json: bool,
) -> Result<String, AllocError> {
    let mut line = String::new(alloc);
    begin_line(&mut line, name.as_bytes(), is_json)?;
    match head {
        Ok(head) if is_json => write_members(&mut line, head)?,
        Ok(head) => write_head(&mut line, head)?,
        Err(fault) => write_fault(&mut line, *fault, is_json)?,
    }
    Ok(line)
}
