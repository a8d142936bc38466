//! The report of a decoding.

ghost use Rattle.std.specs.Prelude.{◌≡◌, length};
ghost use Rattle.jr_segments.specs.Refusal.{number_of};
ghost use Rattle.jri_memory.specs.Calls.{ReportsScanEnd, ReportsNoPicture, ReportsNoRefusal, detail_number};

use jr_cut::ScanEnd;
use jr_picture::Counts;
use jr_scan::Scan;
use jr_segments::Refusal;

/// The report of a decoding; all numbers are 0 unless stated otherwise.
#[repr(C)]
#[derive(Clone, Copy, PartialEq, Eq)]
pub struct DecodeReport {
    /// Number of restart intervals of the scan.
    pub intervals: u32,
    /// Number of those with a decoding.
    pub sound: u32,
    /// Number of those without one.
    pub damaged: u32,
    /// Number of those that are not decoded: 0 if there is an image.
    pub blank: u32,
    /// What ended the scan: 1 EOI, 2 another marker, 3 a restart marker out of step, 4 one past the last interval, 5
    /// the end of the file.
    pub ended: u32,
    /// The code of that other marker, or the number, 0 to 7, of the restart marker out of step.
    pub found: u32,
    /// The number of the restart marker that was due.
    pub due: u32,
    /// The number of the refusal, from 1 to 19; 0 if there is none.
    pub refusal: u32,
    /// The offset in the file of the marker that ended the scan, with 2, 3 and 4.
    pub at: u64,
    /// The refusal's detail: the offset of a missing marker, or a marker's code.
    pub detail: u64,
}

/// Returns a refusal's detail; 0 if it has none.
pub fn detail(refusal: Refusal) -> u64
    ensures { result ≡ detail_number refusal }
{
    refusal.detail().unwrap_or(0)
}

impl DecodeReport {
    /// Returns the report whose numbers are all 0.
    pub const fn empty() -> DecodeReport
        ensures no_picture { ReportsNoPicture result }
        ensures no_fault { ReportsNoRefusal result }
    {
        DecodeReport {
            intervals: 0,
            sound: 0,
            damaged: 0,
            blank: 0,
            ended: 0,
            found: 0,
            due: 0,
            refusal: 0,
            at: 0,
            detail: 0,
        }
    }

    /// Returns the report of a refusal.
    pub(crate) fn refused(refusal: Refusal) -> DecodeReport
        ensures no_picture { ReportsNoPicture result }
        ensures number { result.refusal ≡ number_of refusal }
        ensures detail { result.detail ≡ detail_number refusal }
    {
        DecodeReport {
            refusal: u32::from(refusal.number()),
            detail: detail(refusal),
            ..DecodeReport::empty()
        }
    }

    /// Returns a report of what ended a scan.
    pub(crate) fn ended(end: ScanEnd) -> DecodeReport
        ensures end { ReportsScanEnd end result }
        ensures no_fault { ReportsNoRefusal result }
    {
        let mut report = DecodeReport::empty();
        (report.ended, report.found, report.due, report.at) = match end {
            ScanEnd::EndOfImage => (1, 0, 0, 0),
            ScanEnd::OtherMarker(code, at) => (2, u32::from(code), 0, at),
            ScanEnd::OutOfStep {
                found,
                expected,
                at,
            } => (3, u32::from(found), u32::from(expected), at),
            ScanEnd::ExtraRestart(at) => (4, 0, 0, at),
            ScanEnd::EndOfFile => (5, 0, 0, 0),
        };
        report
    }

    /// Returns the report of a scan with these numbers of sound, damaged and blank intervals.
    pub(crate) fn of(scan: &Scan, counts: Counts) -> DecodeReport
        ensures intervals { result.intervals ≡ length scan.now.intervals }
        ensures sound { result.sound ≡ counts.sound }
        ensures damaged { result.damaged ≡ counts.damaged }
        ensures blank { result.blank ≡ counts.blank }
        ensures end { ReportsScanEnd scan.now.ended result }
        ensures no_fault { ReportsNoRefusal result }
    {
        DecodeReport {
            intervals: scan.intervals(),
            sound: counts.sound,
            damaged: counts.damaged,
            blank: counts.blank,
            ..DecodeReport::ended(scan.ended())
        }
    }
}
