//! The calls that continue from a position: rows of MCUs that are decoded, or skipped.

ghost use Rattle.std.specs.Prelude.{◌≡◌, ◌≢◌, ◌≤◌, ◌⊎◌, length};
ghost use Rattle.jr_segments.specs.declared.refusal.Refusal.TheVariants.{Memory};
ghost use Rattle.jr_arrival.specs.Settled.{WantsMore};
ghost use Rattle.jr_arrival.specs.Parts.{part_of};
ghost use Rattle.jri_memory.specs.Rows.{ReturnsRows, IsRefusedPlace, LacksSpaceForRow, LacksRows, LiesInside, LiesOutside, SkipsRows, ReportsPartialFault, ReportsNoRows, ReportsNothing, are_all, file_part};

use crate::answers::status_of;
use crate::places::{
    PlaceError, RowSource, decode_from, decode_in_window, skip_from, skip_in_window,
};
use crate::rows_report::RowsReport;
use crate::status::{BUFFER_TOO_SMALL, NO_LINES, NOT_IN_WINDOW, OK};
use jr_arrival::{FileBytes, RowPlace};
use std::alloc::Global;

/// Reports why a position is not moved, and returns the status.
fn report_undone(unmoved: PlaceError, report: &mut RowsReport) -> u32
    ensures undone { result ≢ 0 }
    ensures undamaged { result ≢ 3 }
    ensures few { result ≢ 11 → result ≤ 5 }
    ensures refused { result ≡ 2 → IsRefusedPlace unmoved report.new }
    ensures memory { result ≡ 1 → report.new.refusal ≡ 19 }
    ensures by_memory { result ≡ 1 → unmoved ≡ PlaceError.Refused Memory }
    ensures each_memory { unmoved ≡ PlaceError.Refused Memory → result ≡ 1 }
    ensures space { result ≡ 4 → unmoved ≡ PlaceError.BufferTooSmall }
    ensures each_space { unmoved ≡ PlaceError.BufferTooSmall → result ≡ 4 }
    ensures space_alone { result ≡ 4 → ReportsNothing report.new }
    ensures rows { result ≡ 5 → unmoved ≡ PlaceError.NoRows }
    ensures each_rows { unmoved ≡ PlaceError.NoRows → result ≡ 5 }
    ensures rows_alone { result ≡ 5 → ReportsNothing report.new }
    ensures outside { result ≡ 11 → unmoved ≡ PlaceError.NotInWindow }
    ensures each_outside { unmoved ≡ PlaceError.NotInWindow → result ≡ 11 }
    ensures outside_alone { result ≡ 11 → ReportsNothing report.new }
    ensures no_rows { ReportsNoRows report.new }
{
    match unmoved {
        PlaceError::Refused(refusal) => {
            *report = RowsReport::refused(refusal);
            status_of(refusal)
        }
        PlaceError::NoRows => {
            *report = RowsReport::empty();
            NO_LINES
        }
        PlaceError::BufferTooSmall => {
            *report = RowsReport::empty();
            BUFFER_TOO_SMALL
        }
        PlaceError::NotInWindow => {
            *report = RowsReport::empty();
            NOT_IN_WINDOW
        }
    }
}

/// Decodes the next rows of MCUs of a file's image starting at a position, at most `rows`, into the start of `pixels`,
/// and moves the position past them: as many as fit, and, if more of the file may follow (`more` is not 0), as the
/// bytes make final. Returns 0 then. With 1 if allocation fails, 2 if the file is refused, 4 if the next row does not
/// fit, and 5 if the image has no row at the position or none was asked for, pixels and position are unchanged.
pub fn decode_file_rows(
    alloc: Global,
    file: &[u8],
    more: u32,
    place: &mut RowPlace,
    rows: u32,
    pixels: &mut [u8],
    report: &mut RowsReport,
) -> u32
    ensures given { result ≡ 0 → ReturnsRows file.now (file_part file.now more) rows place.old place.new pixels.old pixels.new report.new }
    ensures refused { result ≡ 2 → ReportsPartialFault file.now (are_all more) report.new }
    ensures memory { result ≡ 1 → report.new.refusal ≡ 19 }
    ensures space { result ≡ 4 → LacksSpaceForRow file.now place.old rows (length pixels.old) }
    ensures each_space { LacksSpaceForRow file.now place.old rows (length pixels.old) → result ≢ 1 → result ≡ 4 }
    ensures space_alone { result ≡ 4 → ReportsNothing report.new }
    ensures rows { result ≡ 5 → LacksRows file.now place.old rows }
    ensures each_rows { LacksRows file.now place.old rows → result ≢ 1 → result ≡ 5 }
    ensures rows_alone { result ≡ 5 → ReportsNothing report.new }
    ensures no_rows { result ≢ 0 → ReportsNoRows report.new }
    ensures pixels { result ≢ 0 → pixels.new ≡ pixels.old }
    ensures place { result ≢ 0 → place.new ≡ place.old }
    ensures undamaged { result ≢ 3 }
    ensures few { result ≤ 5 }
{
    let source = RowSource {
        header: file,
        window: FileBytes {
            from: 0,
            bytes: file,
            are_all: more == 0,
        },
    };
    match decode_from(alloc, source, place, rows, pixels) {
        Ok(decoded) => {
            *report = decoded;
            OK
        }
        Err(unmoved) => report_undone(unmoved, report),
    }
}

/// Skips the next rows of MCUs of a file's image starting at a position, at most `rows`, by reading their bits alone,
/// and moves the position past them; if more of the file may follow (`more` is not 0), those that the bytes make final.
/// Returns 0 then. With 1 if allocation fails, 2 if the file is refused, and 5 if the image has no row at the position
/// or none was asked for, the position is unchanged.
pub fn skip_file_rows(
    alloc: Global,
    file: &[u8],
    more: u32,
    place: &mut RowPlace,
    rows: u32,
    report: &mut RowsReport,
) -> u32
    ensures skipped { result ≡ 0 → SkipsRows file.now (file_part file.now more) rows place.old place.new report.new }
    ensures refused { result ≡ 2 → ReportsPartialFault file.now (are_all more) report.new }
    ensures memory { result ≡ 1 → report.new.refusal ≡ 19 }
    ensures rows { result ≡ 5 → LacksRows file.now place.old rows }
    ensures each_rows { LacksRows file.now place.old rows → result ≢ 1 → result ≡ 5 }
    ensures rows_alone { result ≡ 5 → ReportsNothing report.new }
    ensures no_space { result ≢ 4 }
    ensures no_rows { result ≢ 0 → ReportsNoRows report.new }
    ensures place { result ≢ 0 → place.new ≡ place.old }
    ensures undamaged { result ≢ 3 }
    ensures few { result ≤ 5 }
{
    let source = RowSource {
        header: file,
        window: FileBytes {
            from: 0,
            bytes: file,
            are_all: more == 0,
        },
    };
    match skip_from(alloc, source, place, rows) {
        Ok(skipped) => {
            *report = skipped;
            OK
        }
        Err(unmoved) => report_undone(unmoved, report),
    }
}

/// Decodes rows as `decode_file_rows` does, from some bytes of the file: those that have its header, and a window that
/// has the position. Returns 11, and reads nothing, if the position is before the window's first byte or after its end.
pub fn decode_window_rows(
    alloc: Global,
    header: &[u8],
    window: FileBytes<'_>,
    place: &mut RowPlace,
    rows: u32,
    pixels: &mut [u8],
    report: &mut RowsReport,
) -> u32
    ensures given { result ≡ 0 → ReturnsRows header.now (part_of window.entry) rows place.old place.new pixels.old pixels.new report.new }
    ensures refused { result ≡ 2 → ReportsPartialFault header.now window.entry.are_all report.new }
    ensures memory { result ≡ 1 → report.new.refusal ≡ 19 }
    ensures space { result ≡ 4 → LacksSpaceForRow header.now place.old rows (length pixels.old) }
    ensures each_space { LacksSpaceForRow header.now place.old rows (length pixels.old) → result ≢ 1 → result ≢ 11 → result ≡ 4 }
    ensures space_alone { result ≡ 4 → ReportsNothing report.new }
    ensures rows { result ≡ 5 → LacksRows header.now place.old rows }
    ensures each_rows { LacksRows header.now place.old rows → result ≢ 1 → result ≡ 5 }
    ensures rows_alone { result ≡ 5 → ReportsNothing report.new }
    ensures inside { result ≡ 0 → WantsMore header.now ⊎ LiesInside header.now (part_of window.entry) place.old rows }
    ensures outside { result ≡ 11 → LiesOutside header.now (part_of window.entry) place.old rows }
    ensures each_outside { LiesOutside header.now (part_of window.entry) place.old rows → result ≢ 1 → result ≡ 11 }
    ensures outside_alone { result ≡ 11 → ReportsNothing report.new }
    ensures no_rows { result ≢ 0 → ReportsNoRows report.new }
    ensures pixels { result ≢ 0 → pixels.new ≡ pixels.old }
    ensures place { result ≢ 0 → place.new ≡ place.old }
    ensures undamaged { result ≢ 3 }
    ensures few { result ≢ 11 → result ≤ 5 }
{
    let source = RowSource { header, window };
    match decode_in_window(alloc, source, place, rows, pixels) {
        Ok(decoded) => {
            *report = decoded;
            OK
        }
        Err(unmoved) => report_undone(unmoved, report),
    }
}

/// Skips rows as `skip_file_rows` does, from some bytes of the file: those that have its header, and a window that has
/// the position. Returns 11, and reads nothing, if the position is before the window's first byte or after its end.
pub fn skip_window_rows(
    alloc: Global,
    header: &[u8],
    window: FileBytes<'_>,
    place: &mut RowPlace,
    rows: u32,
    report: &mut RowsReport,
) -> u32
    ensures skipped { result ≡ 0 → SkipsRows header.now (part_of window.entry) rows place.old place.new report.new }
    ensures refused { result ≡ 2 → ReportsPartialFault header.now window.entry.are_all report.new }
    ensures memory { result ≡ 1 → report.new.refusal ≡ 19 }
    ensures rows { result ≡ 5 → LacksRows header.now place.old rows }
    ensures each_rows { LacksRows header.now place.old rows → result ≢ 1 → result ≡ 5 }
    ensures rows_alone { result ≡ 5 → ReportsNothing report.new }
    ensures inside { result ≡ 0 → WantsMore header.now ⊎ LiesInside header.now (part_of window.entry) place.old rows }
    ensures outside { result ≡ 11 → LiesOutside header.now (part_of window.entry) place.old rows }
    ensures each_outside { LiesOutside header.now (part_of window.entry) place.old rows → result ≢ 1 → result ≡ 11 }
    ensures outside_alone { result ≡ 11 → ReportsNothing report.new }
    ensures no_space { result ≢ 4 }
    ensures no_rows { result ≢ 0 → ReportsNoRows report.new }
    ensures place { result ≢ 0 → place.new ≡ place.old }
    ensures undamaged { result ≢ 3 }
    ensures few { result ≢ 11 → result ≤ 5 }
{
    let source = RowSource { header, window };
    match skip_in_window(alloc, source, place, rows) {
        Ok(skipped) => {
            *report = skipped;
            OK
        }
        Err(unmoved) => report_undone(unmoved, report),
    }
}
