//! The report of a mended file, and the choice for each of its intervals, as numbers.

ghost use Rattle.std.specs.Prelude.{◌≡◌, ◌≤◌, ◌^◌, ◌<◌, List, length, count_by, map};
ghost use Rattle.jr_mend.specs.declared.choice.Choice.{Choice};
ghost use Rattle.jr_segments.specs.Refusal.{number_of};
ghost use Rattle.jri_memory.specs.Calls.{detail_number};
ghost use Rattle.jri_memory.specs.Filling.{listed_over};
ghost use Rattle.jri_memory.specs.Mends.{ReportsMend, ReportsNoMend, choice_entry, is_damaged_choice};

use crate::detail;
use jr_mend::{Choice, Mended};
use jr_segments::Refusal;

/// The choice of an interval, as numbers.
#[repr(C)]
#[derive(Clone, Copy, PartialEq, Eq)]
pub struct ChoiceEntry {
    /// The number of the copy, from 0.
    pub copy: u32,
    /// Whether the interval is sound in this copy, 1, or damaged in all, 2.
    pub mark: u32,
    /// The number of its first MCUs that can be decoded if it is damaged in all, otherwise 0.
    pub decodable: u32,
    /// Whether two copies in which the interval is sound have different data, 1 or 0.
    pub differs: u32,
}

/// The report of a mended file; all numbers are 0 unless stated otherwise.
#[repr(C)]
#[derive(Clone, Copy, PartialEq, Eq)]
pub struct MendReport {
    /// Number of restart intervals of the scan.
    pub intervals: u32,
    /// Number of those that are damaged in all copies.
    pub damaged: u32,
    /// The number of the copy that is refused or has another header.
    pub copy: u32,
    /// The number of the refusal, from 1 to 19; 0 if there is none.
    pub refusal: u32,
    /// Size of the mended file in bytes.
    pub size: u64,
    /// The refusal's detail: the offset of a missing marker, or a marker's code.
    pub detail: u64,
}

impl ChoiceEntry {
    /// Returns a choice as numbers.
    fn of(choice: Choice) -> ChoiceEntry
        ensures { result ≡ choice_entry choice }
    {
        let (mark, decodable) = match choice.front {
            None => (1, 0),
            Some(mcus) => (2, mcus),
        };
        ChoiceEntry {
            copy: choice.copy,
            mark,
            decodable,
            differs: if choice.differs { 1 } else { 0 },
        }
    }
}

/// Returns the number of intervals that are damaged in all copies.
fn count_damaged(choices: &[Choice]) -> u32
    requires { length choices.now < 2 ^ 32 }
    ensures { result ≡ count_by is_damaged_choice choices.now }
{
    let mut damaged: u32 = 0;
    for k in 0..choices.len() {
        if choices[k].front.is_some() {
            damaged += 1;
        }
    }
    damaged
}

/// Writes the first choices at the start of a list, as many as it has entries.
pub(crate) fn list_choices(chosen: &[Choice], choices: &mut [ChoiceEntry])
    ensures { choices.new ≡ listed_over (map choice_entry chosen.now) choices.old }
{
    let count = chosen.len().min(choices.len());
    for k in 0..count {
        choices[k] = ChoiceEntry::of(chosen[k]);
    }
}

impl MendReport {
    /// Returns the report whose numbers are all 0.
    pub(crate) const fn empty() -> MendReport
        ensures nothing { ReportsNoMend result }
        ensures no_refusal { result.refusal ≡ 0 }
        ensures no_detail { result.detail ≡ 0 }
    {
        MendReport {
            intervals: 0,
            damaged: 0,
            copy: 0,
            refusal: 0,
            size: 0,
            detail: 0,
        }
    }

    /// Returns the report of a refused copy.
    pub(crate) fn refused(copy: u32, refusal: Refusal) -> MendReport
        ensures nothing { ReportsNoMend result }
        ensures copy { result.copy ≡ copy }
        ensures number { result.refusal ≡ number_of refusal }
        ensures detail { result.detail ≡ detail_number refusal }
    {
        MendReport {
            copy,
            refusal: u32::from(refusal.number()),
            detail: detail(refusal),
            ..MendReport::empty()
        }
    }

    /// Returns the report of a copy with another header than the first.
    pub(crate) fn other_header(copy: u32) -> MendReport
        ensures nothing { ReportsNoMend result }
        ensures copy { result.copy ≡ copy }
        ensures no_refusal { result.refusal ≡ 0 }
    {
        MendReport {
            copy,
            ..MendReport::empty()
        }
    }

    /// Returns the report of a mended file.
    pub(crate) fn of(mended: &Mended) -> MendReport
        requires { length mended.now.choices.items < 2 ^ 32 }
        ensures { ReportsMend mended.now.choices.items mended.now.file.items result }
    {
        MendReport {
            intervals: mended.choices.len() as u32,
            damaged: count_damaged(&mended.choices),
            copy: 0,
            refusal: 0,
            size: mended.file.len() as u64,
            detail: 0,
        }
    }
}
