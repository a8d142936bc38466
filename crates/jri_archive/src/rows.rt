//! The lines of a file's intervals and of its markers that are out of step, as text or as JSON objects. Numbers start at 0, and a
//! range has its last one.

ghost use Rattle.std.specs.Prelude.{◌<◌};
ghost use Rattle.jr_scan.specs.ScanValue.{intervals_of};

use crate::damaged_run::DamagedRun;
use jr_cut::{Break, CodedSpan};
use jr_damage::{DoubtfulMcu, McuRange, lines_of, mcus_of};
use jr_head::Head;
use jri_machine::{BREAK, Row, begin_line, write_row};
use std::alloc::AllocError;

/// Of a damaged interval that has bytes.
const DAMAGED: Row = Row {
    labels: &[
        ("interval ", ",\"interval\":"),
        (", MCUs ", ",\"first_mcu\":"),
        (" to ", ",\"last_mcu\":"),
        (", lines ", ",\"first_line\":"),
        (" to ", ",\"last_line\":"),
        (", bytes ", ",\"first_byte\":"),
        (" to ", ",\"last_byte\":"),
        (", ", ",\"decodable\":"),
        (" of ", ""),
        (" MCUs decodable up to byte ", ",\"decodable_to\":"),
    ],
    end: ("\n", "}\n"),
};

/// Of a damaged interval without bytes.
const WITHOUT_BYTES: Row = Row {
    labels: &[
        ("interval ", ",\"interval\":"),
        (", MCUs ", ",\"first_mcu\":"),
        (" to ", ",\"last_mcu\":"),
        (", lines ", ",\"first_line\":"),
        (" to ", ",\"last_line\":"),
        (", no bytes, ", ",\"decodable\":"),
        (" of ", ""),
    ],
    end: (" MCUs decodable\n", "}\n"),
};

/// Of consecutive damaged intervals without bytes.
const EMPTY: Row = Row {
    labels: &[
        ("intervals ", ",\"interval\":"),
        (" to ", ",\"last_interval\":"),
        (", MCUs ", ",\"first_mcu\":"),
        (" to ", ",\"last_mcu\":"),
        (", lines ", ",\"first_line\":"),
        (" to ", ",\"last_line\":"),
    ],
    end: (", no bytes\n", ",\"decodable\":0}\n"),
};

/// Of a sound interval.
const SOUND: Row = Row {
    labels: &[
        ("interval ", ",\"interval\":"),
        (", MCUs ", ",\"first_mcu\":"),
        (" to ", ",\"last_mcu\":"),
        (", lines ", ",\"first_line\":"),
        (" to ", ",\"last_line\":"),
        (", bytes ", ",\"first_byte\":"),
        (" to ", ",\"last_byte\":"),
    ],
    end: (", sound\n", ",\"is\":\"sound\"}\n"),
};

/// Of a doubtful MCU, by its number in the scan.
const DOUBTFUL: Row = Row {
    labels: &[
        ("interval ", ",\"interval\":"),
        (", MCU ", ",\"doubtful\":"),
        (", bytes ", ",\"first_byte\":"),
        (" to ", ",\"last_byte\":"),
    ],
    end: (", doubtful: no 8-bit image has such a value\n", "}\n"),
};

/// Appends a line, with its end.
fn append_row(
    line: &mut String,
    name: &[u8],
    row: Row,
    numbers: &[u64],
    is_json: bool,
) -> Result<(), AllocError> {
    begin_line(line, name, is_json)?;
    write_row(line, row, numbers, is_json)
}

/// Returns the numbers of the first and the last of some MCUs.
fn ends_of(mcus: McuRange) -> (u64, u64) {
    let last = mcus.first.saturating_add(mcus.count.saturating_sub(1));
    (u64::from(mcus.first), u64::from(last))
}

/// Returns the offsets of the first and the last of some bytes.
fn offsets_of(bytes: CodedSpan) -> (u64, u64) {
    (bytes.start as u64, bytes.end.saturating_sub(1) as u64)
}

/// Appends the line of a run of damaged intervals, with its end.
pub(crate) fn append_run(
    line: &mut String,
    name: &[u8],
    run: &DamagedRun,
    is_json: bool,
) -> Result<(), AllocError> {
    let (number, last) = (u64::from(run.first), u64::from(run.last));
    let (decodable, count) = (u64::from(run.decodable), u64::from(run.mcus.count));
    let (from, to) = ends_of(run.mcus);
    let (top, bottom) = (u64::from(run.lines.first), u64::from(run.lines.last));
    if number != last {
        let numbers = [number, last, from, to, top, bottom];
        return append_row(line, name, EMPTY, &numbers, is_json);
    }
    let Some(bytes) = run.bytes else {
        let numbers = [number, from, to, top, bottom, decodable, count];
        return append_row(line, name, WITHOUT_BYTES, &numbers, is_json);
    };
    let ((start, end), stop) = (offsets_of(bytes), run.decodable_to as u64);
    let numbers = [
        number, from, to, top, bottom, start, end, decodable, count, stop,
    ];
    append_row(line, name, DAMAGED, &numbers, is_json)
}

/// Appends the line of a sound interval, with its end.
pub(crate) fn append_sound(
    line: &mut String,
    name: &[u8],
    head: &Head,
    interval: u32,
    bytes: CodedSpan,
    is_json: bool,
) -> Result<(), AllocError>
    requires { interval < intervals_of head.now }
{
    let (from, to) = ends_of(mcus_of(head, interval));
    let lines = lines_of(head, interval);
    let (top, bottom) = (u64::from(lines.first), u64::from(lines.last));
    let (start, end) = offsets_of(bytes);
    let numbers = [u64::from(interval), from, to, top, bottom, start, end];
    append_row(line, name, SOUND, &numbers, is_json)
}

/// Appends the line of a doubtful MCU, with its end.
pub(crate) fn append_doubtful(
    line: &mut String,
    name: &[u8],
    doubtful: &DoubtfulMcu,
    is_json: bool,
) -> Result<(), AllocError> {
    let (interval, mcu) = (u64::from(doubtful.interval), u64::from(doubtful.mcu));
    let (start, end) = offsets_of(doubtful.bytes);
    append_row(line, name, DOUBTFUL, &[interval, mcu, start, end], is_json)
}

/// Appends the line of a marker that was out of step, with its end.
pub(crate) fn append_break(
    line: &mut String,
    name: &[u8],
    found: Break,
    is_json: bool,
) -> Result<(), AllocError> {
    if is_json {
        let (code, due) = (u64::from(found.code), u64::from(found.due));
        let numbers = [found.at, code, due, u64::from(found.skipped)];
        append_row(line, name, BREAK, &numbers, is_json)?;
        return line.push('\n');
    }
    begin_line(line, name, is_json)?;
    writeln!(line, "{found}")
}
