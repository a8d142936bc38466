//! The scan of a file that is read, cut while its bytes come.

ghost use Rattle.std.specs.Prelude.{◌≡◌, ◌≢◌, ◌≤◌, length, IfOk, IfErr, false, true};
ghost use Rattle.std.specs.Arc.{arc_value};
ghost use Rattle.std.specs.Io.KnownBytes.{prepend_known};
ghost use Rattle.jr_base.specs.declared.limits.TheConstants.{MAX_FILE_BYTES};
ghost use Rattle.jr_base.specs.Tally.{has_failed, known_in};
ghost use Rattle.jr_head.specs.Heads.{HeadOf};
ghost use Rattle.jri_file.specs.Files.{IsFaultOf, IsFaultOfInput, IsScanOfFile, OfFile, fault_by};

use crate::reading::{MAX_FIRST, PART, TOO_MANY, cut_on, read_more};
use crate::scanning::{scan_in_place, share};
use jr_base::Tally;
use jr_base::limits::MAX_FILE_BYTES;
use jr_head::{Head, read_head};
use jr_picture::Fault;
use jr_scan::{PartialScan, Scan};
use jr_segments::Refusal;
use std::alloc::Global;
use std::io::Read;
use std::sync::Arc;

/// Returns the fault of a refused file. Running out of memory is a fault of its own.
pub(crate) fn fault_of(refusal: Refusal) -> Fault
    ensures { result ≡ fault_by refusal }
{
    match refusal {
        Refusal::Memory => Fault::Memory,
        _ => Fault::Refused(refusal),
    }
}

/// Returns the scan of a file that is there whole, or the file's fault.
fn scan_of_bytes(alloc: Global, file: Vec<u8>) -> Result<Arc<Scan>, Fault>
    ensures scan { IfOk result (λ scan. IsScanOfFile file.items (arc_value scan)) }
    ensures fault { IfErr result (IsFaultOf file.items) }
{
    match scan_in_place(alloc, file) {
        Ok(scan) => Ok(scan),
        Err(refusal) => Err(fault_of(refusal)),
    }
}

/// Cuts the scan of a file whose header is in the first bytes, those that are read, while the others are read.
fn cut_while_read<R: Read>(
    alloc: Global,
    input: &mut Tally<R>,
    head: Head,
    first: Vec<u8>,
) -> Result<Arc<Scan>, Fault>
    requires unfailed { has_failed input.old ≡ false }
    requires head { HeadOf first.items head }
    ensures scan { IfOk result (λ scan. OfFile (prepend_known first.items (known_in R.remaining input.old)) (λ file. IsScanOfFile file (arc_value scan))) }
    ensures fault { IfErr result (IsFaultOfInput (prepend_known first.items (known_in R.remaining input.old))) }
    ensures failed { result ≡ Err Fault.Read → has_failed input.new ≡ true }
    ensures unfailed { result ≢ Err Fault.Read → has_failed input.new ≡ false }
{
    head.assert_invariant();
    let before = first.len();
    let Ok(mut scan) = PartialScan::of(alloc, head, first) else {
        return Err(Fault::Memory);
    };
    if cut_on(input, &mut scan, before)? > MAX_FILE_BYTES {
        return Err(Fault::Refused(Refusal::TooLong));
    }
    let Ok(scan) = scan.into_scan(alloc) else {
        return Err(Fault::Memory);
    };
    match share(alloc, scan) {
        Ok(scan) => Ok(scan),
        Err(_) => Err(Fault::Memory),
    }
}

/// Reads the whole input, and returns the scan of the file or its fault. If the first part has the header, the scan is
/// cut while the rest comes.
pub fn read_scan<R: Read>(alloc: Global, input: &mut Tally<R>) -> Result<Arc<Scan>, Fault>
    requires { has_failed input.old ≡ false }
    ensures scan { IfOk result (λ scan. OfFile (known_in R.remaining input.old) (λ file. IsScanOfFile file (arc_value scan))) }
    ensures fault { IfErr result (IsFaultOfInput (known_in R.remaining input.old)) }
    ensures failed { result ≡ Err Fault.Read → has_failed input.new ≡ true }
    ensures unfailed { result ≢ Err Fault.Read → has_failed input.new ≡ false }
{
    let mut bytes = Vec::new(alloc);
    read_more(alloc, input, &mut bytes, PART, MAX_FIRST)?;
    if bytes.len() < PART {
        return scan_of_bytes(alloc, bytes);
    }
    if let Ok(head) = read_head(alloc, &bytes) {
        return cut_while_read(alloc, input, head, bytes);
    }
    read_more(alloc, input, &mut bytes, TOO_MANY, TOO_MANY)?;
    scan_of_bytes(alloc, bytes)
}
