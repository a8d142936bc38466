//! The queue of files whose lines are due, and the output of these lines.

ghost use Rattle.std.specs.Prelude.{◌≡◌, ℕ, ◌<◌, ◌^◌, not, List, [], Some, None, true, false, length, slice_get, slice_index_or, IfSome};
ghost use Rattle.jri_archive.specs.Outcomes.{IsOutcomeOf, plain_outcome, state_of};
ghost use Rattle.jri_archive.specs.Status.{findings_with};
ghost use Rattle.jri_archive.specs.Reporting.{AreSomeReported, AreReported, is_open};

use crate::answers::LineForm;
use crate::count_lines::append_counts;
use crate::counts::{CheckEnd, CheckReport, FileCounts, FileState, Finding, Findings};
use crate::lines::{append_missing, append_outcome};
use crate::map::{ReportError, write_breaks, write_line, write_map};
use crate::names::NamesError;
use crate::one_check::OneCheck;
use crate::outcome::Outcome;
use crate::progress::{Progress, Reported};
use crate::state_record::FileRecord;
use jr_cut::Break;
use std::alloc::Global;
use std::io::Write;
use std::marker::{Model, PhantomData};

/// What the check of a file came to, and its bytes if a map of the damage needs them.
#[derive(Drop)]
pub(crate) struct CheckedFile {
    pub(crate) outcome: Outcome,
    pub(crate) bytes: Option<Vec<u8>>,
    /// The markers that were out of step, if the file was resynchronised.
    pub(crate) breaks: Option<Vec<Break>>,
    /// What is appended to a state file.
    pub(crate) entry: Option<FileRecord>,
    /// Whether it is verified, and has other bytes than its record, and another size or time.
    pub(crate) is_new: bool,
}

/// The next line that is due, and the output of the lines.
#[derive(Drop)]
pub(crate) struct FileQueue<S: OneCheck, O, P> {
    form: LineForm,
    /// The number of files, if it is known.
    files: Option<u64>,
    /// The number of files that are checked.
    checked: u64,
    /// The number of workers that have no file of their own and help with a large one.
    helping: u32,
    /// The number of files that are reported.
    reported: u64,
    out: O,
    progress: P,
    report: CheckReport,
    _of: PhantomData<S>,
}

impl<S: OneCheck, O, P> Model for FileQueue<S, O, P> {
    ghost use Rattle.jri_archive.specs.Reporting.{IsQueueOf, QueueValue};

    ghost Value = { QueueValue };

    ghost view = { λ q. record { reported = q.reported; files = q.files; report = q.report } };

    ghost invariant = { λ q. IsQueueOf S.names S.may_be (record { reported = q.reported; files = q.files; report = q.report }) };
}

/// Writes the line of a file and, if they are asked for, those of its markers and intervals. If sound files are left out, one that is
/// no new version has only those of its doubtful MCUs. `line` is cleared for each. Returns whether there is a doubtful MCU.
fn write_lines<O: Write>(
    line: &mut String,
    out: &mut O,
    name: &[u8],
    file: &CheckedFile,
    form: LineForm,
) -> Result<bool, ReportError>
    requires { IfSome file.now.bytes (λ b. IsOutcomeOf b.items (plain_outcome file.now.outcome)) }
{
    let mut form = form;
    if form.is_quiet && file.outcome.state() == FileState::Sound && !file.is_new {
        form.has_sound = false;
    } else {
        let made = append_outcome(line, name, &file.outcome, file.is_new, form.is_json);
        write_line(out, made, line.as_str())?;
        if form.has_map
            && let Some(breaks) = &file.breaks
        {
            write_breaks(line, out, name, breaks, form.is_json)?;
        }
    }
    if let Some(bytes) = &file.bytes
        && let Some(checked) = file.outcome.checked()
    {
        return write_map(line, out, name, bytes.as_slice(), checked, form);
    }
    Ok(false)
}

/// Writes the line of the counts.
pub(crate) fn write_counts<O: Write>(
    alloc: Global,
    out: &mut O,
    report: &CheckReport,
    is_json: bool,
) -> Result<(), ReportError> {
    let mut line = String::new(alloc);
    let made = append_counts(&mut line, report.counts, report.findings, is_json);
    write_line(out, made, line.as_str())
}

impl<S: OneCheck, O: Write, P: Progress + Drop> FileQueue<S, O, P> {
    /// Returns a queue of which no file is reported yet. `files` is their number, if it is known.
    pub(crate) fn of(form: LineForm, files: Option<u64>, out: O, progress: P) -> FileQueue<S, O, P>
        requires few { (names : List (List ℕ)) → S.names ≡ Some names → length names < 2 ^ 64 }
        requires all { (names : List (List ℕ)) → S.names ≡ Some names → IfSome files (λ n. n ≡ length names) }
    {
        FileQueue {
            form,
            files,
            checked: 0,
            helping: 0,
            reported: 0,
            out,
            progress,
            report: CheckReport {
                counts: FileCounts::none(),
                findings: Findings::none(),
                end: CheckEnd::AllReported,
            },
            _of: PhantomData,
        }
    }

    /// Returns whether lines can no longer be written.
    pub(crate) fn is_over(&self) -> bool
        ensures { result ≡ not (is_open self.now.report.end) }
    {
        self.report.end.is_last()
    }

    /// Stores the number of files, if it was not known before.
    pub(crate) fn set_files(&mut self, files: u64)
        requires { (names : List (List ℕ)) → S.names ≡ Some names → files ≡ length names }
    {
        if self.files.is_none() {
            self.files = Some(files);
        }
    }

    /// Returns whether the line of a file is due.
    pub(crate) fn is_due(&self, number: u64) -> bool
        ensures { result ≡ true → self.now.reported ≡ number }
    {
        self.reported == number
    }

    /// Returns how many of `workers` workers check a file that a worker begins: if fewer files are left than workers, the
    /// free ones help, an equal number with each file.
    pub(crate) fn share(&mut self, workers: u32) -> u32 {
        let files = self.files.unwrap_or(u64::MAX);
        let left = files.saturating_sub(self.checked).max(1);
        if left >= u64::from(workers) {
            return 1;
        }
        let left = left as u32;
        let free = workers.saturating_sub(left).saturating_sub(self.helping);
        let helping = free.min(workers.div_ceil(left).saturating_sub(1));
        self.helping = self.helping.saturating_add(helping);
        helping.saturating_add(1)
    }

    /// Notes that a file was checked with `workers` workers.
    pub(crate) fn give_back(&mut self, workers: u32) {
        self.helping = self.helping.saturating_sub(workers.saturating_sub(1));
        self.checked = self.checked.saturating_add(1);
    }

    /// Shows how far the run is.
    fn show_progress(&mut self)
        ensures { self.new ≡ self.old }
    {
        let (files, all) = (self.reported, self.files);
        let damaged = self.report.counts.damaged;
        self.progress.show(Reported {
            files,
            damaged,
            all,
        });
    }

    /// Makes way for the lines of a file, unless none is written.
    fn make_way(&mut self, file: &CheckedFile)
        ensures { self.new ≡ self.old }
    {
        let LineForm {
            is_quiet,
            has_map,
            ..
        } = self.form;
        if has_map || !is_quiet || file.is_new || file.outcome.state() != FileState::Sound {
            self.progress.make_way();
        }
    }

    /// Notes why no further file is reported.
    fn end(&mut self, end: CheckEnd)
        ensures reported { self.new.reported ≡ self.old.reported }
        ensures end { is_open self.old.report.end ≡ true → self.new.report.end ≡ end }
    {
        if !self.is_over() {
            self.report.end = end;
        }
    }

    /// Notes that the next name could not be read.
    pub(crate) fn end_names(&mut self, error: NamesError) {
        self.end(match error {
            NamesError::Read => CheckEnd::NamesUnread,
            NamesError::Unended => CheckEnd::NamesUnended,
            NamesError::Memory => CheckEnd::Memory,
        });
    }

    /// Notes that a record cannot be written.
    pub(crate) fn end_records(&mut self, error: ReportError) {
        self.end(match error {
            ReportError::Write => CheckEnd::Unrecorded,
            ReportError::Memory => CheckEnd::Memory,
        });
    }

    /// Returns whether all files are reported. Their number is known once no name is left.
    fn has_reported_all(&self) -> bool
        ensures { result ≡ true → (names : List (List ℕ)) → S.names ≡ Some names → self.now.reported ≡ length names }
    {
        match self.files {
            Some(files) => self.reported == files,
            None => false,
        }
    }

    /// Ends the reports, and returns what the files came to and the output. Allocation failed for a file that was not
    /// reported.
    pub(crate) fn close(self) -> (CheckReport, O)
        ensures reported { result.0.end ≡ CheckEnd.AllReported → (names : List (List ℕ)) → S.names ≡ Some names → AreReported S.may_be names (length names) result.0.counts }
        ensures found { result.0.end ≡ CheckEnd.AllReported → S.names ≡ None → AreSomeReported S.may_be result.0.counts }
    {
        let mut queue = self;
        queue.progress.end();
        if queue.report.end == CheckEnd::AllReported && !queue.has_reported_all() {
            queue.end(CheckEnd::Memory);
        }
        (queue.report, queue.out)
    }

    /// Notes the state of the next file.
    fn note(&mut self, state: FileState)
        requires next { (names : List (List ℕ)) → S.names ≡ Some names → (self.old.reported < length names) × ((o : Outcome) × S.may_be (slice_index_or names self.old.reported []) o × (state ≡ state_of o)) }
        requires found { S.names ≡ None → (name : List ℕ) × (o : Outcome) × S.may_be name o × (state ≡ state_of o) }
    {
        self.report.counts = self.report.counts.with(state);
        self.reported = self.reported.saturating_add(1);
    }

    /// Counts a finding, if it is one.
    fn find(&mut self, is_found: bool, finding: Finding)
        ensures reported { self.new.reported ≡ self.old.reported }
        ensures counts { self.new.report.counts ≡ self.old.report.counts }
        ensures end { self.new.report.end ≡ self.old.report.end }
        ensures found { is_found ≡ true → self.new.report.findings ≡ findings_with self.old.report.findings finding }
        ensures other { is_found ≡ false → self.new.report.findings ≡ self.old.report.findings }
    {
        if is_found {
            self.report.findings = self.report.findings.with(finding);
        }
    }

    /// Notes that a line is not written.
    fn end_line(&mut self, error: &ReportError) {
        self.end(match error {
            ReportError::Write => CheckEnd::Unwritten,
            ReportError::Memory => CheckEnd::Memory,
        });
    }

    /// Writes the line of a record whose file is gone, unless lines can no longer be written.
    pub(crate) fn write_missing(&mut self, alloc: Global, name: &[u8]) {
        if self.is_over() {
            return;
        }
        self.progress.make_way();
        let mut line = String::new(alloc);
        let made = append_missing(&mut line, name, self.form.is_json);
        match write_line(&mut self.out, made, line.as_str()) {
            Ok(()) => self.find(true, Finding::Missing),
            Err(error) => self.end_line(&error),
        }
    }

    /// Skips the next line if lines can no longer be written, so that no worker waits for it.
    fn pass_over(&mut self) {
        if self.is_over() {
            self.reported = self.reported.saturating_add(1);
        }
    }

    /// Writes the lines of the file that is due.
    pub(crate) fn write_due(&mut self, alloc: Global, name: &[u8], file: &CheckedFile)
        requires bytes { IfSome file.now.bytes (λ b. IsOutcomeOf b.items (plain_outcome file.now.outcome)) }
        requires next { (names : List (List ℕ)) → S.names ≡ Some names → (slice_get names self.old.reported ≡ Some name.now) × S.may_be name.now file.now.outcome }
        requires found { S.names ≡ None → S.may_be name.now file.now.outcome }
    {
        let state = file.outcome.state();
        self.make_way(file);
        if !self.is_over() {
            let mut line = String::new(alloc);
            match write_lines(&mut line, &mut self.out, name, file, self.form) {
                Ok(is_doubtful) => {
                    self.note(state);
                    self.find(file.is_new, Finding::NewVersion);
                    self.find(is_doubtful, Finding::Doubtful);
                }
                Err(error) => self.end_line(&error),
            }
        }
        self.pass_over();
        self.show_progress();
    }
}
