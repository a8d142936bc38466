//! The scan of a file, or of the resynchronised file.

ghost use Rattle.std.specs.Prelude.{◌≡◌, ◌≢◌, IfOk, IfErr};
ghost use Rattle.jr_segments.specs.declared.refusal.Refusal.TheVariants as refusal;
ghost use Rattle.jr_head.specs.Heads.{HeadOf, RefusalOf};
ghost use Rattle.jri_file.specs.Files.{IsScanOfFile};
ghost use Rattle.jri_memory.specs.Resyncs.{IsTooLongFile, IsTooLongRead, OfRead};

use crate::decode::DecodeError;
use jr_head::{Head, read_head};
use jr_mend::{ResyncFault, is_in_step, resynchronised};
use jr_scan::Scan;
use jr_segments::Refusal;
use std::alloc::Global;

/// Cuts the scan of a file with this header.
fn own_scan(alloc: Global, head: Head, file: &[u8]) -> Result<Scan, DecodeError>
    requires { HeadOf file.now head }
    ensures head { IfOk result (λ scan. scan.head ≡ head) }
    ensures scan { IfOk result (λ scan. IsScanOfFile file.now scan) }
    ensures memory { IfErr result (λ e. e ≡ DecodeError.Refused refusal.Memory) }
{
    head.assert_invariant();
    match Scan::cut(alloc, head, file) {
        Ok(scan) => Ok(scan),
        Err(_) => Err(DecodeError::Refused(Refusal::Memory)),
    }
}

/// Resynchronises a file with this header, and cuts its scan in the memory of the new file.
fn resynced_scan(alloc: Global, head: Head, file: &[u8]) -> Result<Scan, DecodeError>
    requires { HeadOf file.now head }
    ensures head { IfOk result (λ scan. scan.head ≡ head) }
    ensures scan { IfOk result (λ scan. OfRead file.now 1 (λ read. IsScanOfFile read scan)) }
    ensures refused { IfErr result (λ e. e ≢ DecodeError.TooLong → e ≡ DecodeError.Refused refusal.Memory) }
    ensures long { result ≡ Err DecodeError.TooLong → IsTooLongFile file.now }
{
    head.assert_invariant();
    let read = match resynchronised(alloc, &head, file) {
        Ok(resynced) => resynced.file,
        Err(ResyncFault::Memory) => return Err(DecodeError::Refused(Refusal::Memory)),
        Err(ResyncFault::TooLong) => return Err(DecodeError::TooLong),
    };
    match Scan::cut_in_place(alloc, head, read) {
        Ok(scan) => Ok(scan),
        Err(_) => Err(DecodeError::Refused(Refusal::Memory)),
    }
}

/// Returns the scan of a file, cut into its intervals, of which none is decoded. If `resync` is not 0 it is that of the
/// resynchronised file; a file whose restart markers are in step is not written anew.
pub(crate) fn scan_of(alloc: Global, file: &[u8], resync: u32) -> Result<Scan, DecodeError>
    ensures head { IfOk result (λ scan. HeadOf file.now scan.head) }
    ensures scan { IfOk result (λ scan. OfRead file.now resync (λ read. IsScanOfFile read scan)) }
    ensures refused { IfErr result (λ e. (f : Refusal) → e ≡ DecodeError.Refused f → f ≢ refusal.Memory → RefusalOf file.now f) }
    ensures long { result ≡ Err DecodeError.TooLong → IsTooLongRead file.now resync }
    ensures space { result ≢ Err DecodeError.BufferTooSmall }
{
    let head = match read_head(alloc, file) {
        Ok(head) => head,
        Err(refusal) => return Err(DecodeError::Refused(refusal)),
    };
    if resync == 0 || is_in_step(&head, file) {
        return own_scan(alloc, head, file);
    }
    resynced_scan(alloc, head, file)
}
