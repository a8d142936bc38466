//! The scan of a file in memory.

ghost use Rattle.std.specs.Prelude.{◌≡◌, ◌≢◌, IfOk, IfErr};
ghost use Rattle.std.specs.Arc.{arc_value};
ghost use Rattle.jr_segments.specs.declared.refusal.Refusal.TheVariants as refusal;
ghost use Rattle.jr_head.specs.Heads.{RefusalOf};
ghost use Rattle.jri_file.specs.Files.{IsScanOfFile};

use jr_head::read_head;
use jr_scan::Scan;
use jr_segments::Refusal;
use std::alloc::Global;
use std::sync::Arc;

/// Returns a scan for several owners.
pub(crate) fn share(alloc: Global, scan: Scan) -> Result<Arc<Scan>, Refusal>
    ensures scan { IfOk result (λ shared. arc_value shared ≡ scan) }
    ensures memory { IfErr result (λ f. f ≡ refusal.Memory) }
{
    match Arc::new(alloc, scan) {
        Ok(scan) => Ok(scan),
        Err(_) => Err(Refusal::Memory),
    }
}

/// Returns the scan of a file, cut into its intervals, of which none is decoded.
///
/// # Errors
///
/// The file's first fault; `Memory` if allocation fails, which says nothing of the file.
pub fn scan_of_file(alloc: Global, file: &[u8]) -> Result<Arc<Scan>, Refusal>
    ensures scan { IfOk result (λ scan. IsScanOfFile file.now (arc_value scan)) }
    ensures refused { IfErr result (λ f. f ≢ refusal.Memory → RefusalOf file.now f) }
{
    let head = read_head(alloc, file)?;
    head.assert_invariant();
    let Ok(scan) = Scan::cut(alloc, head, file) else {
        return Err(Refusal::Memory);
    };
    share(alloc, scan)
}

/// `scan_of_file` in the memory of the file's bytes.
pub(crate) fn scan_in_place(alloc: Global, file: Vec<u8>) -> Result<Arc<Scan>, Refusal>
    ensures scan { IfOk result (λ scan. IsScanOfFile file.items (arc_value scan)) }
    ensures refused { IfErr result (λ f. f ≢ refusal.Memory → RefusalOf file.items f) }
{
    let head = read_head(alloc, &file)?;
    head.assert_invariant();
    let Ok(scan) = Scan::cut_in_place(alloc, head, file) else {
        return Err(Refusal::Memory);
    };
    share(alloc, scan)
}
