//! What is damaged of a scan.

ghost use Rattle.std.specs.Prelude.{◌≡◌, ◌+◌, ◌^◌, ◌<◌, length, min, max, IfSome, OnSome, IfNone};
ghost use Rattle.jr_scan.specs.Mcus.{HasDecoding, HasNoDecoding};
ghost use Rattle.jr_scan.specs.ScanValue.{interval_of, intervals_of};
ghost use Rattle.jr_damage.specs.Verdicts.{IsVerdictOf};

use crate::damage::{damaged_front, damaged_front_by};
use crate::lines::{Lines, lines_of};
use crate::shared_scan::SharedScan;
use jr_scan::Scan;
use jr_work::OneScan;
use std::sync::Wait;

/// The number of intervals of a scan without a decoding, and the first and last line of the image that they touch.
#[derive(Clone, Copy, PartialEq, Eq)]
pub struct Verdict {
    pub damaged: u32,
    pub lines: Option<Lines>,
}

/// From the first to the last of some lines and others.
fn joined(some: Option<Lines>, others: Lines) -> Lines
    ensures none { IfNone some (result ≡ others) }
    ensures first { IfSome some (λ lines. result.first ≡ min lines.first others.first) }
    ensures last { IfSome some (λ lines. result.last ≡ max lines.last others.last) }
{
    match some {
        None => others,
        Some(lines) => Lines {
            first: lines.first.min(others.first),
            last: lines.last.max(others.last),
        },
    }
}

/// Adds interval i, by how far it can be decoded, to the verdict on the intervals before it.
fn with_front(scan: &Scan, i: u32, front: Option<u32>, before: Verdict) -> Verdict
    requires there { i < length scan.now.intervals }
    requires below { i < intervals_of scan.now.head }
    requires space { i + 1 < 2 ^ 32 }
    requires before { IsVerdictOf scan.now i before }
    requires sound { IfNone front (HasDecoding (interval_of scan.now i)) }
    requires damaged { OnSome front (HasNoDecoding (interval_of scan.now i)) }
    ensures { IsVerdictOf scan.now (i + 1) result }
{
    match front {
        None => before,
        Some(_) => Verdict {
            damaged: before.damaged + 1,
            lines: Some(joined(before.lines, lines_of(scan.head(), i))),
        },
    }
}

/// Reads each interval of a scan once, and returns the number without a decoding (T.81, Annex F). It transforms nothing and
/// allocates nothing.
pub fn check_scan(scan: &Scan) -> Verdict
    ensures { IsVerdictOf scan.now (length scan.now.intervals) result }
{
    let mut verdict = Verdict {
        damaged: 0,
        lines: None,
    };
    for i in 0..scan.intervals() {
        let front = damaged_front(scan.interval_ref(i));
        verdict = with_front(scan, i, front, verdict);
    }
    verdict
}

/// Does what `check_scan` does, by the speculative reads that other threads make of the scan.
pub(crate) fn check_by<R: Wait, S: OneScan>(scan: &SharedScan<'_, S>, rt: &R) -> Verdict
    ensures { IsVerdictOf scan.now (length scan.now.intervals) result }
{
    let mut verdict = Verdict {
        damaged: 0,
        lines: None,
    };
    for i in 0..scan.scan().intervals() {
        let front = damaged_front_by(scan, rt, i);
        verdict = with_front(scan.scan(), i, front, verdict);
    }
    verdict
}
