//! The lines of an image that have no decoding.

ghost use Rattle.std.specs.Prelude.{◌≡◌, ◌≤◌, ◌<◌, length};
ghost use Rattle.jr_base.specs.declared.limits.TheConstants.{MAX_MCUS};
ghost use Rattle.jr_scan.specs.ScanValue.{intervals_of};
ghost use Rattle.jr_damage.specs.Verdicts.{IsHull, IsVerdictOf};
ghost use Rattle.jri_archive.specs.DamagedLines.{AreUndecoded, IsDamagedFrom, top_of, undecoded_mcu};

use jr_damage::{Lines, McuRange, Verdict, damaged_front, lines_of, mcus_of};
use jr_head::Head;
use jr_scan::Scan;

/// Returns the first line of an MCU's row of MCUs (T.81, A.2.3).
fn top_of(head: &Head, mcu: u32) -> u32
    requires { mcu ≤ MAX_MCUS }
    ensures { result ≡ top_of head.now mcu }
{
    mcu / head.mcus_across() * (8 * head.vertical_max())
}

/// Returns the first line of the MCU after an interval's longest prefix of `longest` MCUs; of its last one if the prefix has all.
fn undecoded_top(head: &Head, i: u32, longest: u32) -> u32
    requires { i < intervals_of head.now }
    ensures { result ≡ top_of head.now (undecoded_mcu head.now i longest) }
{
    let McuRange { first, count } = mcus_of(head, i);
    top_of(head, first + longest.min(count - 1))
}

/// Returns the first line without a decoding of an image that has damage, which touches these lines. Intervals above them are not read.
fn damaged_from(scan: &Scan, lines: Lines) -> u32
    requires { IsHull scan.now (length scan.now.intervals) lines }
    ensures { IsDamagedFrom scan.now result }
{
    for i in 0..scan.intervals() {
        if lines_of(scan.head(), i).last >= lines.first
            && let Some(longest) = damaged_front(scan.interval_ref(i))
        {
            return undecoded_top(scan.head(), i, longest);
        }
    }
    lines.first
}

/// Returns the lines from the first MCU without a decoding to the last damaged interval's last line.
pub(crate) fn undecoded_lines(scan: &Scan, verdict: &Verdict) -> Option<Lines>
    requires { IsVerdictOf scan.now (length scan.now.intervals) verdict.now }
    ensures { AreUndecoded scan.now verdict.now.lines result }
{
    let lines = verdict.lines?;
    Some(Lines {
        first: damaged_from(scan, lines),
        last: lines.last,
    })
}
