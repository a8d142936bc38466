//! The call of the C library that lists damage.

use crate::case::Case;
use crate::differences::Differences;
use crate::places::LONG;
use crate::texts::{after_first, is_doubt};
use jri_memory::{Damage, DamageReport, list_damages};
use std::alloc::AllocError;
use test_files::error::NotationError;

/// A damage of no interval.
const UNDAMAGED: Damage = Damage {
    interval: u32::MAX,
    first_mcu: 0,
    mcus: 0,
    decodable: 0,
    first_line: 0,
    last_line: 0,
    start: 0,
    end: 0,
};

/// A damaged interval, or consecutive ones without bytes, which share a line.
#[derive(Clone, Copy)]
struct Run {
    first: Damage,
    last: Damage,
}

/// Returns whether two damaged intervals share a line.
fn share_line(one: &Damage, next: &Damage) -> bool {
    let is_next = one.interval.checked_add(1) == Some(next.interval);
    is_next && one.start == one.end && next.start == next.end
}

/// Appends the bytes of a damaged interval, and the number of its MCUs that are decodable.
fn write_bytes(text: &mut String, damage: &Damage) -> Result<(), AllocError> {
    if damage.start == damage.end {
        text.push_str("no bytes")?;
    } else {
        let (start, last) = (damage.start, damage.end.saturating_sub(1));
        write!(text, "bytes {start} to {last}")?;
    }
    let (mcus, decodable) = (damage.mcus, damage.decodable);
    writeln!(text, ", {decodable} of {mcus} MCUs decodable")
}

/// Appends the line of a run, if it has an interval.
fn write_run(text: &mut String, run: &Run) -> Result<(), AllocError> {
    let Run { first, last } = *run;
    if last.mcus == 0 {
        return Ok(());
    }
    let (from, to, top, bottom) = (
        first.interval,
        last.interval,
        first.first_line,
        last.last_line,
    );
    let mcu = first.first_mcu;
    let end = last.first_mcu.saturating_add(last.mcus.saturating_sub(1));
    if from < to {
        return writeln!(
            text,
            "intervals {from} to {to}, MCUs {mcu} to {end}, lines {top} to {bottom}, no bytes"
        );
    }
    write!(
        text,
        "interval {from}, MCUs {mcu} to {end}, lines {top} to {bottom}, "
    )?;
    write_bytes(text, &last)
}

/// Appends the lines of the runs that these intervals end; the last one may continue.
fn write_damages(text: &mut String, run: &mut Run, damages: &[Damage]) -> Result<(), AllocError> {
    for damage in damages {
        if !share_line(&run.last, damage) {
            write_run(text, run)?;
            run.first = *damage;
        }
        run.last = *damage;
    }
    Ok(())
}

/// Appends the lines of the damaged intervals that `bytes` have after those of the report, listed in parts for which
/// `damages` has space.
fn write_further(
    text: &mut String,
    case: &Case<'_>,
    bytes: &[u8],
    more: u32,
    run: &mut Run,
    report: &mut DamageReport,
    damages: &mut [Damage],
) -> Result<(), AllocError> {
    let intervals = case.header.intervals;
    for _ in 0..=intervals {
        let (next, at) = (report.next, report.next_at);
        let _answer = list_damages(case.alloc, bytes, more, next, at, damages, report);
        let count = (report.count as usize).min(damages.len());
        write_damages(text, run, &damages[..count])?;
        if count < damages.len() || report.next >= intervals {
            break;
        }
    }
    Ok(())
}

/// Appends the lines of the damaged intervals: first those that are final each time that the given number of bytes has
/// come, unless that is 0, then the others.
fn write_listed(
    text: &mut String,
    case: &Case<'_>,
    part: usize,
    damages: &mut [Damage],
) -> Result<(), AllocError> {
    let (first, last) = (UNDAMAGED, UNDAMAGED);
    let mut run = Run { first, last };
    let mut report = DamageReport {
        count: 0,
        next: 0,
        next_at: 0,
        refusal: 0,
        detail: 0,
    };
    if part > 0 {
        let mut length: usize = 0;
        for more in case.bytes.chunks(part) {
            length = length.saturating_add(more.len()).min(case.bytes.len());
            let come = &case.bytes[..length];
            write_further(text, case, come, 1, &mut run, &mut report, damages)?;
        }
    }
    write_further(text, case, case.bytes, 0, &mut run, &mut report, damages)?;
    write_run(text, &run)
}

/// Lists the damage in parts of `entries`, and as parts of the file come, unless `part` is 0.
fn check_list(case: &Case<'_>, wanted: &str, entries: u32, part: usize, out: &mut Differences) {
    let Ok(mut damages) = vec![in case.alloc; UNDAMAGED; entries as usize] else {
        return out.fail(NotationError::Memory);
    };
    let mut found = String::new(case.alloc);
    out.note(write_listed(&mut found, case, part, damages.as_mut_slice()));
    out.compare_texts("list of damage", wanted, found.as_str());
}

/// Appends a line of a map, if it is of damaged intervals, as far as calls of the library list them: without the byte up
/// to which an interval can be decoded.
fn write_damaged_line(text: &mut String, line: &str) -> Result<(), AllocError> {
    match line.split_once(" up to byte ") {
        _ if is_doubt(line) => Ok(()),
        Some((listed, _byte)) => writeln!(text, "{listed}"),
        None => writeln!(text, "{line}"),
    }
}

/// Appends the lines of a map's damaged intervals.
fn write_damaged_lines(text: &mut String, map: &str) -> Result<(), AllocError> {
    if !map.is_empty() {
        for line in map.split(" / ") {
            write_damaged_line(text, line)?;
        }
    }
    Ok(())
}

/// Lists the damage by one call, in parts of one and three entries, and while the file comes.
pub(crate) fn check_damage(case: &Case<'_>, out: &mut Differences) {
    let mut wanted = String::new(case.alloc);
    out.note(write_damaged_lines(&mut wanted, after_first(case.row.damaged)));
    for entries in [1, 3, case.header.intervals] {
        check_list(case, wanted.as_str(), entries, 0, out);
    }
    let part = if case.bytes.len() <= LONG { 1 } else { 4099 };
    check_list(case, wanted.as_str(), 2, part, out);
}
