//! The report of a call that continues from a position.

ghost use Rattle.std.specs.Prelude.{◌≡◌, ◌+◌, ◌≤◌};
ghost use Rattle.jr_segments.specs.Refusal.{number_of};
ghost use Rattle.jr_arrival.specs.Places.{lines_above, lines_between};
ghost use Rattle.jri_memory.specs.Calls.{detail_number};
ghost use Rattle.jri_memory.specs.Rows.{ReportsNoRows, ReportsNothing};

use crate::report::detail;
use jr_arrival::{lines_before, lines_between};
use jr_head::Head;
use jr_segments::Refusal;

/// The report of a call that continues from a position; all numbers are 0 unless stated otherwise.
#[repr(C)]
#[derive(Clone, Copy, PartialEq, Eq)]
pub struct RowsReport {
    /// Number of rows of MCUs that are decoded, or skipped.
    pub rows: u32,
    /// Number of lines of the image that they have.
    pub lines: u32,
    /// The first of these lines of the image, from 0 at the top.
    pub first_line: u32,
    /// The number of the refusal, from 1 to 19; 0 if there is none.
    pub refusal: u32,
    /// The refusal's detail: the offset of a missing marker, or a marker's code.
    pub detail: u64,
}

impl RowsReport {
    /// Returns the report whose numbers are all 0.
    pub const fn empty() -> RowsReport
        ensures { ReportsNothing result }
    {
        RowsReport {
            rows: 0,
            lines: 0,
            first_line: 0,
            refusal: 0,
            detail: 0,
        }
    }

    /// Returns the report of a refusal.
    pub(crate) fn refused(refusal: Refusal) -> RowsReport
        ensures no_rows { ReportsNoRows result }
        ensures number { result.refusal ≡ number_of refusal }
        ensures detail { result.detail ≡ detail_number refusal }
    {
        RowsReport {
            refusal: u32::from(refusal.number()),
            detail: detail(refusal),
            ..RowsReport::empty()
        }
    }

    /// Returns a report of the rows of MCUs from one to before another.
    pub(crate) fn of(head: &Head, from: u32, to: u32) -> RowsReport
        requires { from ≤ to }
        ensures rows { from + result.rows ≡ to }
        ensures lines { result.lines ≡ lines_between head.now from to }
        ensures first { result.first_line ≡ lines_above head.now from }
        ensures refusal { result.refusal ≡ 0 }
        ensures detail { result.detail ≡ 0 }
    {
        RowsReport {
            rows: to - from,
            lines: lines_between(head, from, to),
            first_line: lines_before(head, from),
            ..RowsReport::empty()
        }
    }
}
