//! The header that the bytes so far of a file begin with.

ghost use Rattle.std.specs.Prelude.{◌≢◌, IfOk, IfErr, IfSome, IfNone};
ghost use Rattle.jr_segments.specs.declared.refusal.Refusal.TheVariants.{Memory};
ghost use Rattle.jr_head.specs.Heads.{HeadOf, RefusalOf};
ghost use Rattle.jr_arrival.specs.Arrival.{IsFinalFault};
ghost use Rattle.jr_arrival.specs.Settled.{WantsMore};

use jr_head::{Head, read_head};
use jr_segments::Refusal;
use std::alloc::Global;

/// Returns the header that was read of these bytes, or `None` if more are needed.
///
/// # Errors
///
/// A refusal that no further bytes change, and `Memory`.
pub(crate) fn head_of(bytes: &[u8], read: Result<Head, Refusal>) -> Result<Option<Head>, Refusal>
    requires head { IfOk read (HeadOf bytes.now) }
    requires refusal { IfErr read (λ f. f ≢ Memory → RefusalOf bytes.now f) }
    ensures head { IfOk result (λ o. IfSome o (HeadOf bytes.now)) }
    ensures wanted { IfOk result (λ o. IfNone o (WantsMore bytes.now)) }
    ensures refusal { IfErr result (λ f. f ≢ Memory → RefusalOf bytes.now f) }
    ensures stays { IfErr result (IsFinalFault bytes.now) }
{
    match read {
        Ok(head) => Ok(Some(head)),
        Err(Refusal::EndsEarly) => Ok(None),
        Err(Refusal::NotJpeg) if bytes.len() < 2 => Ok(None),
        Err(refusal) => Err(refusal),
    }
}

/// Returns the header that the bytes so far begin with, which is that of every file that they can become, or `None` if
/// more are needed.
///
/// # Errors
///
/// The refusal of every such file. `Memory` if allocation fails; it says nothing about the bytes.
pub fn read_partial_head(alloc: Global, bytes: &[u8]) -> Result<Option<Head>, Refusal>
    ensures head { IfOk result (λ o. IfSome o (HeadOf bytes.now)) }
    ensures wanted { IfOk result (λ o. IfNone o (WantsMore bytes.now)) }
    ensures refusal { IfErr result (λ f. f ≢ Memory → RefusalOf bytes.now f) }
    ensures stays { IfErr result (IsFinalFault bytes.now) }
{
    head_of(bytes, read_head(alloc, bytes))
}
