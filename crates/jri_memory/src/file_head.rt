//! The header of a file of which all bytes are there, or more may come.

ghost use Rattle.std.specs.Prelude.{◌≡◌, ◌≢◌, false, IfOk, IfErr, IfSome, IfNone};
ghost use Rattle.jr_segments.specs.declared.refusal.Refusal.TheVariants.{Memory};
ghost use Rattle.jr_head.specs.Heads.{HeadOf};
ghost use Rattle.jr_arrival.specs.Settled.{WantsMore};
ghost use Rattle.jri_memory.specs.Rows.{IsPartialFault};

use jr_arrival::{FileBytes, read_partial_head};
use jr_head::{Head, read_head};
use jr_segments::Refusal;
use std::alloc::Global;

/// Returns the header of a file, or `None` if more bytes may come and are wanted for it.
///
/// # Errors
///
/// The file's first fault. If more bytes may come it is that of every file that begins with these. `Memory` if
/// allocation fails.
pub(crate) fn head_of(alloc: Global, file: FileBytes<'_>) -> Result<Option<Head>, Refusal>
    ensures head { IfOk result (λ o. IfSome o (HeadOf file.entry.bytes.now)) }
    ensures wanted { IfOk result (λ o. IfNone o (WantsMore file.entry.bytes.now)) }
    ensures more { IfOk result (λ o. IfNone o (file.entry.are_all ≡ false)) }
    ensures refusal { IfErr result (λ f. f ≢ Memory → IsPartialFault file.entry.bytes.now file.entry.are_all f) }
{
    if !file.are_all {
        return read_partial_head(alloc, file.bytes);
    }
    match read_head(alloc, file.bytes) {
        Ok(head) => Ok(Some(head)),
        Err(refusal) => Err(refusal),
    }
}
