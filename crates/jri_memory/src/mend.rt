//! Copies of a file in memory, mended to one file.

ghost use Rattle.std.specs.Prelude.{◌≡◌, ◌≢◌, ◌<◌, ◌≤◌, ◌^◌, ℕ, List, [], length, map, slice_index_or, IfOk, IfErr};
ghost use Rattle.jr_damage.specs.Verdicts.{IsFileScan};
ghost use Rattle.jr_head.specs.Heads.{RefusalOf};
ghost use Rattle.jr_mend.specs.declared.choice.TheConstants.{MAX_COPIES};
ghost use Rattle.jr_segments.specs.declared.refusal.Refusal.TheVariants as refusal;
ghost use Rattle.jri_memory.specs.Calls.{over};
ghost use Rattle.jri_memory.specs.Filling.{listed_over};
ghost use Rattle.jri_memory.specs.Mends.{AreCopiesOf, HasOtherHeader, IsMendFailure, IsMendOf, IsTooLongMend, LackCopies, LacksMendSpace, MendsFiles, ReportsCopyFault, ReportsMend, ReportsNoMend, choice_entry, files_of};

use crate::filling::write_over;
use crate::mend_report::{ChoiceEntry, MendReport, list_choices};
use crate::status::{
    BUFFER_TOO_SMALL, DAMAGED, NO_COPIES, NO_MEMORY, OTHER_HEADER, REFUSED, SOUND, TOO_LONG,
};
use jr_mend::{FileCopy, MAX_COPIES, MendError, Mended, mend};
use jr_segments::Refusal;
use std::alloc::Global;

/// Why copies are not mended.
#[derive(Clone, Copy)]
pub(crate) enum MendFailure {
    Memory,
    /// There are none, or too many, or they have more bytes than are there.
    NoCopies,
    /// The copy of this number is refused.
    Refused(u32, Refusal),
    /// The copy of this number has another header than the first.
    OtherHeader(u32),
    /// The mended file would be longer than a file may be.
    TooLong,
}

/// Returns why the copy of this number is not there.
fn failure_of_copy(number: u32, fault: Refusal) -> MendFailure
    ensures { (sizes bytes : List ℕ) → number < length (files_of sizes bytes) → (fault ≢ refusal.Memory → RefusalOf (slice_index_or (files_of sizes bytes) number []) fault) → IsMendFailure sizes bytes result }
{
    match fault {
        Refusal::Memory => MendFailure::Memory,
        _ => MendFailure::Refused(number, fault),
    }
}

/// Reads the copy of this number.
fn read_copy(alloc: Global, file: &[u8], number: u32) -> Result<FileCopy<'_>, MendFailure>
    ensures file { IfOk result (λ c. c.file ≡ file.now) }
    ensures scan { IfOk result (λ c. IsFileScan c.file c.scan) }
    ensures failure { IfErr result (λ e. (sizes bytes : List ℕ) → number < length (files_of sizes bytes) → slice_index_or (files_of sizes bytes) number [] ≡ file.now → IsMendFailure sizes bytes e) }
{
    match FileCopy::of(alloc, file) {
        Ok(copy) => Ok(copy),
        Err(fault) => Err(failure_of_copy(number, fault)),
    }
}

/// Reads the copies that lie one after another, by their sizes.
fn read_copies<'a>(
    alloc: Global,
    files: &'a [u8],
    sizes: &[usize],
) -> Result<Vec<FileCopy<'a>>, MendFailure>
    requires few { length sizes.now ≤ MAX_COPIES }
    ensures copies { IfOk result (λ copies. AreCopiesOf (files_of sizes.now files.now) copies.items) }
    ensures count { IfOk result (λ copies. length copies.items ≡ length sizes.now) }
    ensures failure { IfErr result (IsMendFailure sizes.now files.now) }
{
    let mut copies = Vec::new(alloc);
    let mut at: usize = 0;
    for k in 0..sizes.len() {
        let size = sizes[k];
        if files.len() - at < size {
            return Err(MendFailure::NoCopies);
        }
        let copy = read_copy(alloc, &files[at..at + size], k as u32)?;
        let Ok(()) = copies.push(copy) else {
            return Err(MendFailure::Memory);
        };
        at += size;
    }
    Ok(copies)
}

/// Mends a file from copies of it.
fn mend_all(alloc: Global, copies: &[FileCopy]) -> Result<Mended, MendFailure>
    requires some { 0 < length copies.now }
    requires few { length copies.now ≤ MAX_COPIES }
    ensures mended { IfOk result (λ m. (files : List (List ℕ)) → AreCopiesOf files copies.now → IsMendOf files m.choices.items m.file.items) }
    ensures few { IfOk result (λ m. length m.choices.items < 2 ^ 32) }
    ensures failure { IfErr result (λ e. (sizes bytes : List ℕ) → AreCopiesOf (files_of sizes bytes) copies.now → IsMendFailure sizes bytes e) }
{
    // By its contract a header has so few intervals that their number fits.
    let _count = copies[0].head().intervals();
    match mend(alloc, copies) {
        Ok(mended) => Ok(mended),
        Err(MendError::Memory) => Err(MendFailure::Memory),
        Err(MendError::OtherHead(copy)) => Err(MendFailure::OtherHeader(copy)),
        Err(MendError::TooLong) => Err(MendFailure::TooLong),
    }
}

/// Mends a file from copies that lie one after another, by their sizes.
fn mended_of(alloc: Global, files: &[u8], sizes: &[usize]) -> Result<Mended, MendFailure>
    ensures mended { IfOk result (λ m. IsMendOf (files_of sizes.now files.now) m.choices.items m.file.items) }
    ensures few { IfOk result (λ m. length m.choices.items < 2 ^ 32) }
    ensures failure { IfErr result (IsMendFailure sizes.now files.now) }
{
    if sizes.is_empty() || sizes.len() > MAX_COPIES {
        return Err(MendFailure::NoCopies);
    }
    let copies = read_copies(alloc, files, sizes)?;
    mend_all(alloc, &copies)
}

/// Writes a mended file and its choices, and returns the status. If the file does not fit nothing is written.
fn write_mended(
    mended: &Mended,
    out: &mut [u8],
    choices: &mut [ChoiceEntry],
    report: &mut MendReport,
) -> u32
    requires { length mended.now.choices.items < 2 ^ 32 }
    ensures reported { ReportsMend mended.now.choices.items mended.now.file.items report.new }
    ensures written { result ≢ 4 → out.new ≡ over mended.now.file.items out.old }
    ensures listed { result ≢ 4 → choices.new ≡ listed_over (map choice_entry mended.now.choices.items) choices.old }
    ensures undamaged { result ≡ 0 → report.new.damaged ≡ 0 }
    ensures damaged { result ≡ 3 → 0 < report.new.damaged }
    ensures space { result ≡ 4 → length out.old < report.new.size }
    ensures out { result ≡ 4 → out.new ≡ out.old }
    ensures choices { result ≡ 4 → choices.new ≡ choices.old }
    ensures few { result ≢ 0 → result ≢ 3 → result ≡ 4 }
{
    *report = MendReport::of(mended);
    if out.len() < mended.file.len() {
        return BUFFER_TOO_SMALL;
    }
    write_over(&mended.file, out);
    list_choices(&mended.choices, choices);
    if report.damaged == 0 { SOUND } else { DAMAGED }
}

/// Reports why copies are not mended, and returns the status.
fn report_mend_failure(failure: MendFailure, report: &mut MendReport) -> u32
    ensures undone { result ≢ 0 }
    ensures undamaged { result ≢ 3 }
    ensures fits { result ≢ 4 }
    ensures refused { result ≡ 2 → (sizes bytes : List ℕ) → IsMendFailure sizes bytes failure → ReportsCopyFault (files_of sizes bytes) report.new }
    ensures memory { result ≡ 1 → report.new.refusal ≡ 19 }
    ensures long { result ≡ 8 → (sizes bytes : List ℕ) → IsMendFailure sizes bytes failure → IsTooLongMend (files_of sizes bytes) }
    ensures copies { result ≡ 9 → (sizes bytes : List ℕ) → IsMendFailure sizes bytes failure → LackCopies sizes bytes }
    ensures header { result ≡ 10 → (sizes bytes : List ℕ) → IsMendFailure sizes bytes failure → HasOtherHeader (files_of sizes bytes) report.new.copy }
    ensures no_refusal { 8 ≤ result → report.new.refusal ≡ 0 }
    ensures nothing { ReportsNoMend report.new }
    ensures few { 4 < result → (8 ≤ result) × (result ≤ 10) }
{
    match failure {
        MendFailure::Memory => {
            *report = MendReport::refused(0, Refusal::Memory);
            NO_MEMORY
        }
        MendFailure::NoCopies => {
            *report = MendReport::empty();
            NO_COPIES
        }
        MendFailure::Refused(copy, refusal) => {
            *report = MendReport::refused(copy, refusal);
            REFUSED
        }
        MendFailure::OtherHeader(copy) => {
            *report = MendReport::other_header(copy);
            OTHER_HEADER
        }
        MendFailure::TooLong => {
            *report = MendReport::empty();
            TOO_LONG
        }
    }
}

/// Writes the file that is mended from copies of it into the start of `out`, and as many of the choices of its intervals
/// as fit into that of `choices`. The copies lie one after another in `files`, by their sizes. Returns 0, or 3 if an
/// interval is damaged in all copies. With 1 if allocation fails, 2 if a copy is refused, 4 if `out` is too small, 8 if
/// the file would be too long, 9 if there are no such copies, and 10 if a copy has another header than the first, both
/// are unchanged; with 4 the report has the file's size, with 2 and 10 the copy's number.
pub fn mend_files(
    alloc: Global,
    files: &[u8],
    sizes: &[usize],
    out: &mut [u8],
    choices: &mut [ChoiceEntry],
    report: &mut MendReport,
) -> u32
    ensures sound { result ≡ 0 → MendsFiles (files_of sizes.now files.now) out.old out.new choices.old choices.new report.new }
    ensures damaged { result ≡ 3 → MendsFiles (files_of sizes.now files.now) out.old out.new choices.old choices.new report.new }
    ensures undamaged { result ≡ 0 → report.new.damaged ≡ 0 }
    ensures some_damaged { result ≡ 3 → 0 < report.new.damaged }
    ensures refused { result ≡ 2 → ReportsCopyFault (files_of sizes.now files.now) report.new }
    ensures memory { result ≡ 1 → report.new.refusal ≡ 19 }
    ensures space { result ≡ 4 → LacksMendSpace (files_of sizes.now files.now) (length out.old) report.new }
    ensures long { result ≡ 8 → IsTooLongMend (files_of sizes.now files.now) }
    ensures copies { result ≡ 9 → LackCopies sizes.now files.now }
    ensures header { result ≡ 10 → HasOtherHeader (files_of sizes.now files.now) report.new.copy }
    ensures no_refusal { 8 ≤ result → report.new.refusal ≡ 0 }
    ensures nothing { result ≢ 0 → result ≢ 3 → result ≢ 4 → ReportsNoMend report.new }
    ensures out { result ≢ 0 → result ≢ 3 → out.new ≡ out.old }
    ensures choices { result ≢ 0 → result ≢ 3 → choices.new ≡ choices.old }
    ensures few { 4 < result → (8 ≤ result) × (result ≤ 10) }
{
    match mended_of(alloc, files, sizes) {
        Ok(mended) => write_mended(&mended, out, choices, report),
        Err(failure) => report_mend_failure(failure, report),
    }
}
