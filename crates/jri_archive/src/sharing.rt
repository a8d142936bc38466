//! Many files, checked with several workers and reported in their order.

ghost use Rattle.std.specs.Prelude.{◌≡◌, ◌≤◌, ◌<◌, ◌^◌, ℕ, List, Some, None, Ok, false, length, map, drop, slice_get, IfOk, IfSome, IfNone};
ghost use Rattle.std.specs.Io.Buffered.{reader_remaining};
ghost use Rattle.jri_archive.specs.Names.{IsNamed, IsNoText};
ghost use Rattle.jri_archive.specs.Outcomes.{IsOutcomeOf, plain_outcome};
ghost use Rattle.jri_archive.specs.Reporting.{AllowsEntries, AreChecksOf, AreSomeReported, AreReported, IsCheckOf, IsClaimOf, IsFoundCheckOf, HasRecord, IsRecordOf, given_names};

use crate::answers::CheckRequest;
use crate::counts::{CheckEnd, CheckReport};
use crate::file_queue::{CheckedFile, FileQueue, write_counts};
use crate::judging::{checked_file, judged, unread};
use crate::map::ReportError;
use crate::names::{FileNames, NamesError};
use crate::one_check::OneCheck;
use crate::outcome::Outcome;
use crate::progress::Progress;
use crate::reading::Directory;
use crate::source::{CheckSource, Content};
use jri_machine::{NamedFile, ReadError};
use std::alloc::Global;
use std::io::{BufReader, Read, Write};
use std::marker::{Brand, Model, PhantomData};
use std::sync::{Condvar, Mutex, Wait};
use std::thread;
use std::thread::Threads;

/// The names that no worker has claimed yet.
#[derive(Drop)]
struct NameQueue<S: OneCheck, I: Read + Drop> {
    names: FileNames<I>,
    claimed: u64,
    /// Whether there is no further name.
    is_over: bool,
    /// Why, if it is not that all are claimed.
    error: Option<NamesError>,
    _of: PhantomData<S>,
}

impl<S: OneCheck, I: Read + Drop> Model for NameQueue<S, I> {
    ghost use Rattle.std.specs.Prelude.{ℕ};
    ghost use Rattle.jri_archive.specs.Reporting.{IsNameQueueOf};

    ghost Value = { ℕ };

    ghost view = { λ q. q.claimed };

    ghost invariant = { λ q. IsNameQueueOf S.names q.names q.claimed q.is_over q.error };
}

/// What the workers share.
#[derive(Drop)]
struct Sharing<S: OneCheck, F: Directory, I: Read + Drop, O, P, W> {
    alloc: Global,
    source: CheckSource<F, W>,
    workers: u32,
    has_map: bool,
    names: Mutex<NameQueue<S, I>>,
    desk: Mutex<FileQueue<S, O, P>>,
    /// Signalled when a file is reported.
    has_reported: Condvar,
}

impl<S: OneCheck, F: Directory, I: Read + Drop, O, P, W> Model for Sharing<S, F, I, O, P, W> {
    ghost use Rattle.std.specs.Prelude.{◌≡◌, ℕ, List, None};
    ghost use Rattle.jri_archive.specs.declared.source.CheckSource.{CheckSource};
    ghost use Rattle.jri_archive.specs.Reporting.{AllowsEntries, AreChecksOf, HasRecord};

    ghost Value = { CheckSource F W };

    ghost view = { λ s. s.source };

    ghost invariant = { λ s. AreChecksOf (F.holds s.source.directory) (F.fails s.source.directory) (F.stamps s.source.directory) (HasRecord s.source.state) S.may_be × (S.names ≡ None → AllowsEntries S.may_be) };
}

impl<S: OneCheck, I: Read + Drop> NameQueue<S, I> {
    /// Returns the queue of names of which none is claimed yet.
    fn of(names: FileNames<I>) -> NameQueue<S, I>
        requires { (all : List (List ℕ)) → S.names ≡ Some all → (names ≡ Some all) × (length all < 2 ^ 64) }
    {
        NameQueue {
            names,
            claimed: 0,
            is_over: false,
            error: None,
            _of: PhantomData,
        }
    }

    /// Returns the number of claimed names.
    fn claimed(&self) -> u64
        ensures { result ≡ self.now }
    {
        self.claimed
    }

    /// Returns the number of a file that no worker has claimed, and its name.
    fn claim<F: Directory>(
        &mut self,
        alloc: Global,
        directory: &F,
    ) -> Result<Option<(u64, NamedFile)>, NamesError>
        ensures claim { IfOk result (λ o. IfSome o (λ c. IsClaimOf S.names c.0 c.1)) }
        ensures all { result ≡ Ok None → (all : List (List ℕ)) → S.names ≡ Some all → self.new ≡ length all }
    {
        if self.is_over {
            return match self.error {
                Some(error) => Err(error),
                None => Ok(None),
            };
        }
        match self.names.next(alloc, directory) {
            Ok(Some(file)) => {
                let number = self.claimed;
                self.claimed = self.claimed.saturating_add(1);
                Ok(Some((number, file)))
            }
            Ok(None) => {
                self.is_over = true;
                Ok(None)
            }
            Err(error) => {
                self.is_over = true;
                self.error = Some(error);
                Err(error)
            }
        }
    }
}

impl<
    S: OneCheck + Send,
    F: Directory + Sync,
    I: Read + Send + Drop,
    O: Write + Send + Drop,
    P: Progress + Send + Drop,
    W: Write + Send + Drop,
> Sharing<S, F, I, O, P, W> {
    /// Returns the next name, if there is one, and the number of claimed names then.
    fn next_name<R: Wait>(&self, rt: &R) -> (Result<Option<(u64, NamedFile)>, NamesError>, u64)
        ensures claim { IfOk result.0 (λ o. IfSome o (λ c. IsClaimOf S.names c.0 c.1)) }
        ensures all { result.0 ≡ Ok None → (all : List (List ℕ)) → S.names ≡ Some all → result.1 ≡ length all }
    {
        let mut names = self.names.lock(rt);
        let file = names.claim(self.alloc, &self.source.directory);
        (file, names.claimed())
    }

    /// Returns a file that no worker has claimed; `None` if there is none, or if lines can no longer be written.
    fn claim<R: Wait>(&self, rt: &R) -> Option<(u64, NamedFile)>
        ensures { IfSome result (λ c. IsClaimOf S.names c.0 c.1) }
    {
        if self.desk.lock(rt).is_over() {
            return None;
        }
        let (file, claimed) = self.next_name(rt);
        match file {
            Ok(Some(file)) => return Some(file),
            Ok(None) => self.desk.lock(rt).set_files(claimed),
            Err(error) => self.desk.lock(rt).end_names(error),
        }
        None
    }

    /// Checks a file, with several workers if others have none. A recorded file is read only if it is verified.
    fn check<R: Threads + Wait + Sync>(&self, rt: &R, file: &NamedFile) -> CheckedFile
        ensures map { IfSome result.bytes (λ b. IsOutcomeOf b.items (plain_outcome result.outcome)) }
        ensures outcome { ((x : ReadError) → file.now.error ≡ Some x → IsNoText file.now.name.items x) → file.now.is_skipped ≡ false → S.may_be file.now.name.items result.outcome }
        ensures found { S.names ≡ None → S.may_be file.now.name.items result.outcome }
        ensures entry { IfSome result.entry (λ r. IsRecordOf (F.holds self.now.directory) (F.stamps self.now.directory) file.now.name.items r result.outcome) }
    {
        if file.is_skipped {
            self.desk.lock(rt).give_back(1);
            return unread(Outcome::Skipped);
        }
        let glance = self.source.look(file);
        if let Some(was) = self.source.unchanged(file, &glance) {
            self.desk.lock(rt).give_back(1);
            return unread(Outcome::Unchanged(was));
        }
        let Content {
            bytes,
            seal,
            breaks,
        } = self.source.content(self.alloc, file, &glance);
        let workers = self.desk.lock(rt).share(self.workers);
        let checked = checked_file(rt, self.alloc, bytes, breaks, self.has_map, workers);
        self.desk.lock(rt).give_back(workers);
        let (known, older) = (
            self.source.known(file, &glance),
            self.source.older(file, &glance),
        );
        judged(checked, seal, known, older)
    }

    /// Writes the lines of a file once they are due, and then records it.
    fn report<R: Wait>(&self, rt: &R, number: u64, name: &[u8], file: &CheckedFile)
        requires bytes { IfSome file.now.bytes (λ b. IsOutcomeOf b.items (plain_outcome file.now.outcome)) }
        requires next { (all : List (List ℕ)) → S.names ≡ Some all → (slice_get all number ≡ Some name.now) × S.may_be name.now file.now.outcome }
        requires found { S.names ≡ None → S.may_be name.now file.now.outcome }
        requires entry { IfSome file.now.entry (λ r. IsRecordOf (F.holds self.now.directory) (F.stamps self.now.directory) name.now r file.now.outcome) }
    {
        let desk = self.desk.lock(rt);
        let mut desk = self
            .has_reported
            .wait_while(rt, desk, |desk| !desk.is_due(number));
        // The wait is over, so it is due.
        if desk.is_due(number) {
            desk.write_due(self.alloc, name, file);
            self.record(rt, &mut desk, name, file);
        }
        drop(desk);
        self.has_reported.notify_all();
    }

    /// Records a file that is reported, unless lines can no longer be written.
    fn record<R: Wait>(
        &self,
        rt: &R,
        desk: &mut FileQueue<S, O, P>,
        name: &[u8],
        file: &CheckedFile,
    )
        requires { IfSome file.now.entry (λ r. IsRecordOf (F.holds self.now.directory) (F.stamps self.now.directory) name.now r file.now.outcome) }
    {
        if let Some(entry) = &file.entry
            && !desk.is_over()
            && let Err(error) = self
                .source
                .append(rt, self.alloc, name, entry, &file.outcome)
        {
            desk.end_records(error);
        }
    }

    /// Claims and checks files until none is left, and reports each when its line is due.
    fn work<R: Threads + Wait + Sync>(&self, rt: &R) {
        for _ in 0..u64::MAX {
            let Some((number, file)) = self.claim(rt) else {
                return;
            };
            let checked = self.check(rt, &file);
            self.report(rt, number, file.name.as_slice(), &checked);
        }
    }

    /// Reports the records of files that are gone, after all others.
    fn report_missing<R: Wait>(&self, rt: &R) {
        let names = self.names.lock(rt);
        let missing = self.source.missing(self.alloc, &names.names);
        drop(names);
        let mut desk = self.desk.lock(rt);
        match missing {
            Ok(missing) => {
                for name in &missing {
                    desk.write_missing(self.alloc, name.as_slice());
                }
            }
            Err(_) => desk.end_names(NamesError::Memory),
        }
    }

    /// Starts the other workers, one for each further file at most, and works with them.
    fn run<R: Threads + Wait + Sync>(&self, rt: &R, files: Option<u64>) {
        let workers = u64::from(self.workers).min(files.unwrap_or(u64::MAX));
        thread::scope(thread::scope_env(), rt, |scope| {
            for _ in 1..workers {
                let _ = scope.spawn(move || self.work(rt));
            }
            self.work(rt);
        });
    }
}

/// Writes the counts if they are asked for and lines can still be written, and notes whether that failed.
fn with_counts<O: Write>(
    alloc: Global,
    out: &mut O,
    report: CheckReport,
    has_counts: bool,
    is_json: bool,
) -> CheckReport
    ensures counts { result.counts ≡ report.counts }
    ensures end { result.end ≡ CheckEnd.AllReported → report.end ≡ CheckEnd.AllReported }
{
    if !has_counts || report.end.is_last() {
        return report;
    }
    let end = match write_counts(alloc, out, &report, is_json) {
        Ok(()) => return report,
        Err(ReportError::Write) => CheckEnd::Unwritten,
        Err(ReportError::Memory) => CheckEnd::Memory,
    };
    CheckReport { end, ..report }
}

/// `check_all`, with the brand `S` of the files, by which contracts know the contents of locks.
fn check_as<
    S: OneCheck + Send,
    R: Threads + Wait + Sync,
    F: Directory + Sync + Drop,
    I: Read + Send + Drop,
    O: Write + Send + Drop,
    P: Progress + Send + Drop,
    W: Write + Send + Drop,
>(
    rt: &R,
    alloc: Global,
    source: CheckSource<F, W>,
    asked: CheckRequest,
    list: Option<BufReader<I>>,
    out: O,
    progress: P,
) -> (CheckReport, O)
    requires names { S.names ≡ given_names (reader_remaining I.remaining) list asked.is_recursive asked.names.items }
    requires checks { AreChecksOf (F.holds source.directory) (F.fails source.directory) (F.stamps source.directory) (HasRecord source.state) S.may_be }
    requires entries { S.names ≡ None → AllowsEntries S.may_be }
    ensures reported { result.0.end ≡ CheckEnd.AllReported → (all : List (List ℕ)) → S.names ≡ Some all → AreReported S.may_be all (length all) result.0.counts }
    ensures found { result.0.end ≡ CheckEnd.AllReported → S.names ≡ None → AreSomeReported S.may_be result.0.counts }
{
    let names = FileNames::of(alloc, asked.names, list, asked.is_recursive);
    let files = names.left();
    let (workers, form) = (asked.workers, asked.form);
    let sharing: Sharing<S, F, I, O, P, W> = Sharing {
        alloc,
        source,
        workers,
        has_map: form.has_map,
        names: Mutex::new(NameQueue::of(names)),
        desk: Mutex::new(FileQueue::of(form, files, out, progress)),
        has_reported: Condvar::new(),
    };
    sharing.run(rt, files);
    sharing.report_missing(rt);
    sharing.desk.into_inner().close()
}

/// Checks each file, `workers` at once, and writes a line for each, in their order, each by one write; with `has_map`
/// also one for each damaged interval. `list` has further names, each ended by a NUL byte, and is read as files are
/// checked. `progress` shows how far the run is. With a state file, files whose records are
/// unchanged are not read, unless it is verified; the others are recorded in it once their lines are written.
///
/// For each worker it allocates about the size of the file that it checks, in which its scan is cut; with `has_map` about
/// twice that, its bytes and those of its scan without their stuffing, and 16 bytes more for each restart marker of a file
/// that is reported. If several check one large file, it allocates what `check_scan_by` does. Returns `out`.
pub fn check_all<
    R: Threads + Wait + Sync,
    F: Directory + Sync + Drop,
    I: Read + Send + Drop,
    O: Write + Send + Drop,
    P: Progress + Send + Drop,
    W: Write + Send + Drop,
>(
    rt: &R,
    alloc: Global,
    source: CheckSource<F, W>,
    asked: CheckRequest,
    list: Option<BufReader<I>>,
    out: O,
    progress: P,
) -> (CheckReport, O)
    ensures reported { result.0.end ≡ CheckEnd.AllReported → (all : List (List ℕ)) → given_names (reader_remaining I.remaining) list asked.is_recursive asked.names.items ≡ Some all → AreReported (IsCheckOf (F.holds source.directory) (F.fails source.directory) (F.stamps source.directory) (HasRecord source.state)) all (length all) result.0.counts }
    ensures found { result.0.end ≡ CheckEnd.AllReported → given_names (reader_remaining I.remaining) list asked.is_recursive asked.names.items ≡ None → AreSomeReported (IsFoundCheckOf (F.holds source.directory) (F.fails source.directory) (F.stamps source.directory) (HasRecord source.state)) result.0.counts }
{
    let (form, has_counts) = (asked.form, asked.has_counts);
    let (report, mut out) = check_as::<Brand, R, F, I, O, P, W>(
        rt, alloc, source, asked, list, out, progress,
    );
    let report = with_counts(alloc, &mut out, report, has_counts, form.is_json);
    (report, out)
}
