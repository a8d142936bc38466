//! Damaged intervals that share a line.

ghost use Rattle.std.specs.Prelude.{◌≡◌};

use jr_cut::CodedSpan;
use jr_damage::{DamagedInterval, Lines, McuRange};

/// A damaged interval, or consecutive ones that have no bytes.
#[derive(Clone, Copy)]
pub(crate) struct DamagedRun {
    /// The numbers of the first and the last interval.
    pub(crate) first: u32,
    pub(crate) last: u32,
    pub(crate) mcus: McuRange,
    /// The number of the first MCUs of the first interval that can be decoded.
    pub(crate) decodable: u32,
    pub(crate) lines: Lines,
    pub(crate) bytes: Option<CodedSpan>,
    /// Offset in the file of the byte in which the first MCU of the first interval begins that cannot be decoded.
    pub(crate) decodable_to: usize,
}

impl DamagedRun {
    /// Returns the run of one interval.
    pub(crate) fn of(interval: DamagedInterval, decodable_to: usize) -> DamagedRun
        ensures { result.decodable_to ≡ decodable_to }
    {
        DamagedRun {
            first: interval.number,
            last: interval.number,
            mcus: interval.mcus,
            decodable: interval.decodable,
            lines: interval.lines,
            bytes: interval.bytes,
            decodable_to,
        }
    }

    /// Returns the run with this run of one interval, if that follows it and neither has bytes.
    pub(crate) fn with(self, next: DamagedRun) -> Option<DamagedRun> {
        let is_next = self.last.checked_add(1) == Some(next.first);
        if !is_next || self.bytes.is_some() || next.bytes.is_some() {
            return None;
        }
        let mut run = self;
        let end = next.mcus.first.saturating_add(next.mcus.count);
        run.last = next.last;
        run.mcus.count = end.saturating_sub(run.mcus.first);
        run.lines.last = next.lines.last;
        Some(run)
    }
}
