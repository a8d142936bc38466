//! The header of a file that is read.

ghost use Rattle.std.specs.Prelude.{◌≡◌, ◌≢◌, IfOk, IfErr, false, true};
ghost use Rattle.jr_base.specs.Tally.{has_failed, known_in};
ghost use Rattle.jr_head.specs.Heads.{HeadOf};
ghost use Rattle.jri_file.specs.Files.{BeginsWithHead, IsFaultOf, IsHeaderFaultOfInput, OfFile};

use crate::incoming::fault_of;
use crate::reading::{PART, TOO_MANY, read_more};
use jr_base::Tally;
use jr_head::{Head, read_head};
use jr_picture::Fault;
use jr_segments::Refusal;
use std::alloc::Global;
use std::io::Read;

/// Returns the header of a file whose bytes are all there, or its fault.
pub(crate) fn head_of_bytes(alloc: Global, file: &[u8]) -> Result<Head, Fault>
    ensures head { IfOk result (HeadOf file.now) }
    ensures fault { IfErr result (IsFaultOf file.now) }
{
    match read_head(alloc, file) {
        Ok(head) => Ok(head),
        Err(refusal) => Err(fault_of(refusal)),
    }
}

/// Reads the header of a file, or its fault, and of the input no more than twice what that needs, and 64 KB. A fault that
/// more bytes do not change is returned before they are read, so it can stand in place of `TooLong`.
pub fn read_file_head<R: Read>(alloc: Global, input: &mut Tally<R>) -> Result<Head, Fault>
    requires { has_failed input.old ≡ false }
    ensures head { IfOk result (λ head. OfFile (known_in R.remaining input.old) (λ file. BeginsWithHead file head)) }
    ensures fault { IfErr result (IsHeaderFaultOfInput (known_in R.remaining input.old)) }
    ensures failed { result ≡ Err Fault.Read → has_failed input.new ≡ true }
    ensures unfailed { result ≢ Err Fault.Read → has_failed input.new ≡ false }
{
    let mut bytes = Vec::new(alloc);
    let mut enough = PART;
    'parts: loop {
        read_more(alloc, input, &mut bytes, enough, TOO_MANY)?;
        if bytes.len() < enough || enough == TOO_MANY {
            return head_of_bytes(alloc, &bytes);
        }
        match read_head(alloc, &bytes) {
            Ok(head) => return Ok(head),
            Err(refusal) if refusal != Refusal::EndsEarly => return Err(fault_of(refusal)),
            Err(_) => {}
        }
        enough = (2 * enough).min(TOO_MANY);
    }
}
