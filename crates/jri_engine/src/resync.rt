//! From the bytes of a damaged file to the image of that file with its restart markers in step.

ghost use Rattle.std.specs.Prelude.{◌≡◌, ◌≢◌, ◌≤◌, ℕ, List, IfErr, IfOk, OnOk, true, false};
ghost use Rattle.std.specs.Arc.{arc_value};
ghost use Rattle.jr_segments.specs.declared.refusal.Refusal.{Refusal};
ghost use Rattle.jr_base.specs.declared.limits.TheConstants.{MAX_WORKERS};
ghost use Rattle.jr_base.specs.Tally.{has_failed, known_in};
ghost use Rattle.jr_head.specs.HeadValue.{HeadValue};
ghost use Rattle.jr_head.specs.Heads.{HeadOf};
ghost use Rattle.jr_mend.specs.Reading.{IsFileInStep, IsResyncFault};
ghost use Rattle.jri_file.specs.Files.{IsScanOfFile, OfFile};
ghost use Rattle.jri_engine.specs.Resync.{BeginsResynced, HasResyncedScan, IsResyncFaultOf, IsResyncFaultOfInput, PaintsResynced, RefusesResync};

use crate::engine::write_image;
use jr_base::Tally;
use jr_cut::Break;
use jr_head::Head;
use jr_mend::{ResyncFault, Resynced, is_in_step, resynchronised};
use jr_picture::{Fault, Report};
use jr_scan::Scan;
use jr_segments::Refusal;
use jr_wall::Gate;
use jri_file::read_file;
use std::alloc::Global;
use std::io::{Read, Write};
use std::sync::{Arc, Wait};
use std::thread::Threads;

/// The report of a file that is resynchronised, and whose image was written.
#[derive(Drop)]
pub struct ResyncedReport {
    /// The report of the resynchronised file.
    pub report: Report,
    /// The markers that are out of step, in order.
    pub breaks: Vec<Break>,
}

/// The scan of a file that is resynchronised.
#[derive(Drop)]
pub(crate) struct ResyncedScan {
    scan: Arc<Scan>,
    breaks: Vec<Break>,
}

/// Returns the fault of a file that is not resynchronised.
fn fault_of(fault: ResyncFault) -> Fault
    ensures { (file : List ℕ) (h : HeadValue) → HeadOf file h → IsResyncFault file h fault → IsResyncFaultOf file result }
{
    match fault {
        ResyncFault::Memory => Fault::Memory,
        ResyncFault::TooLong => Fault::Refused(Refusal::TooLong),
    }
}

/// Cuts the scan of a file that has this header, for several owners.
fn cut_file(alloc: Global, head: Head, file: Vec<u8>) -> Result<Arc<Scan>, Fault>
    requires { HeadOf file.items head }
    ensures head { IfOk result (λ scan. (arc_value scan).head ≡ head) }
    ensures scan { IfOk result (λ scan. IsScanOfFile file.items (arc_value scan)) }
    ensures fault { IfErr result (λ f. f ≡ Fault.Memory) }
{
    head.assert_invariant();
    let Ok(scan) = Scan::cut_in_place(alloc, head, file) else {
        return Err(Fault::Memory);
    };
    match Arc::new(alloc, scan) {
        Ok(scan) => Ok(scan),
        Err(_) => Err(Fault::Memory),
    }
}

/// Cuts the scan of a resynchronised file that has this header.
fn cut_resynced(alloc: Global, head: Head, resynced: Resynced) -> Result<ResyncedScan, Fault>
    requires { HeadOf resynced.file.items head }
    ensures scan { IfOk result (λ r. IsScanOfFile resynced.file.items (arc_value r.scan)) }
    ensures breaks { IfOk result (λ r. r.breaks.items ≡ resynced.breaks.items) }
    ensures fault { IfErr result (λ f. f ≡ Fault.Memory) }
{
    let Resynced { file, breaks, .. } = resynced;
    match cut_file(alloc, head, file) {
        Ok(scan) => Ok(ResyncedScan { scan, breaks }),
        Err(fault) => Err(fault),
    }
}

/// Cuts the scan of a file that has this header and whose restart markers are in step.
fn cut_in_step(alloc: Global, head: Head, file: Vec<u8>) -> Result<ResyncedScan, Fault>
    requires head { HeadOf file.items head }
    requires in_step { IsFileInStep file.items head }
    ensures scan { IfOk result (λ r. HasResyncedScan file.items (arc_value r.scan) r.breaks.items) }
    ensures fault { IfErr result (λ f. f ≡ Fault.Memory) }
{
    match cut_file(alloc, head, file) {
        Ok(scan) => Ok(ResyncedScan {
            scan,
            breaks: Vec::new(alloc),
        }),
        Err(fault) => Err(fault),
    }
}

/// Resynchronises a file that has this header, and cuts its scan. A file whose restart markers are in step is not written
/// anew.
fn resynced_scan(alloc: Global, head: Head, file: Vec<u8>) -> Result<ResyncedScan, Fault>
    requires { HeadOf file.items head }
    ensures scan { IfOk result (λ r. HasResyncedScan file.items (arc_value r.scan) r.breaks.items) }
    ensures fault { IfErr result (IsResyncFaultOf file.items) }
{
    if is_in_step(&head, &file) {
        return cut_in_step(alloc, head, file);
    }
    match resynchronised(alloc, &head, &file) {
        Ok(resynced) => cut_resynced(alloc, head, resynced),
        Err(fault) => Err(fault_of(fault)),
    }
}

/// Reads the whole input, resynchronises the file, and cuts its scan. Returns the file's fault if it has one.
fn read_resynced<R: Read>(alloc: Global, input: &mut Tally<R>) -> Result<ResyncedScan, Fault>
    requires { has_failed input.old ≡ false }
    ensures scan { IfOk result (λ r. OfFile (known_in R.remaining input.old) (λ file. HasResyncedScan file (arc_value r.scan) r.breaks.items)) }
    ensures fault { IfErr result (IsResyncFaultOfInput (known_in R.remaining input.old)) }
    ensures failed { result ≡ Err Fault.Read → has_failed input.new ≡ true }
    ensures unfailed { result ≢ Err Fault.Read → has_failed input.new ≡ false }
{
    match read_file(alloc, input) {
        Ok((file, head)) => resynced_scan(alloc, head, file),
        Err(fault) => Err(fault),
    }
}

/// Does what `run` does for the file with its restart markers in step, and returns the markers that are out of step. A
/// file that would become too long is refused as `TooLong`.
pub fn run_resynced<T: Threads + Wait + Sync, R: Read, W: Write, G: Gate + Sync>(
    rt: &T,
    alloc: Global,
    input: &mut Tally<R>,
    out: &mut Tally<W>,
    workers: u32,
    first: Option<u32>,
    gate: &G,
) -> Result<ResyncedReport, Fault>
    requires input { has_failed input.old ≡ false }
    requires output { has_failed out.old ≡ false }
    requires some { 1 ≤ workers }
    requires few { workers ≤ MAX_WORKERS }
    ensures painted { IfOk result (λ r. OfFile (known_in R.remaining input.old) (λ file. PaintsResynced file first r (known_in W.contents out.old) (known_in W.contents out.new))) }
    ensures begun { result ≡ Err Fault.Write → OfFile (known_in R.remaining input.old) (λ file. BeginsResynced file first (known_in W.contents out.old) (known_in W.contents out.new)) }
    ensures refused { (f : Refusal) → result ≡ Err (Fault.Refused f) → OfFile (known_in R.remaining input.old) (λ file. RefusesResync file f) }
    ensures read_all { result ≢ Err Fault.Read → has_failed input.new ≡ false }
    ensures written { OnOk result (has_failed out.new ≡ false) }
    ensures read { result ≡ Err Fault.Read → has_failed input.new ≡ true }
    ensures write { result ≡ Err Fault.Write → has_failed out.new ≡ true }
    ensures untouched_read { result ≡ Err Fault.Read → out.new ≡ out.old }
    ensures untouched_refused { (f : Refusal) → result ≡ Err (Fault.Refused f) → out.new ≡ out.old }
    ensures untouched_memory { result ≡ Err Fault.Memory → out.new ≡ out.old }
    ensures opened { result ≢ Err Fault.NoFile }
{
    let resynced = read_resynced(alloc, input)?;
    match write_image(rt, alloc, &resynced.scan, workers, first, gate, out) {
        Ok(report) => Ok(ResyncedReport {
            report,
            breaks: resynced.breaks,
        }),
        Err(fault) => Err(fault),
    }
}
