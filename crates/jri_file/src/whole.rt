//! A file that is read whole, with its header.

ghost use Rattle.std.specs.Prelude.{◌≡◌, ◌≢◌, IfOk, IfErr, false, true};
ghost use Rattle.jr_base.specs.Tally.{has_failed, known_in};
ghost use Rattle.jr_head.specs.Heads.{HeadOf};
ghost use Rattle.jri_file.specs.Files.{IsFaultOfInput, OfFile};

use crate::heading::head_of_bytes;
use crate::reading::{TOO_MANY, read_more};
use jr_base::Tally;
use jr_head::Head;
use jr_picture::Fault;
use std::alloc::Global;
use std::io::Read;

/// Reads the whole input. Returns the bytes of the file and its header, or its fault.
pub fn read_file<R: Read>(alloc: Global, input: &mut Tally<R>) -> Result<(Vec<u8>, Head), Fault>
    requires { has_failed input.old ≡ false }
    ensures file { IfOk result (λ f. OfFile (known_in R.remaining input.old) (λ file. file ≡ f.0.items)) }
    ensures head { IfOk result (λ f. HeadOf f.0.items f.1) }
    ensures fault { IfErr result (IsFaultOfInput (known_in R.remaining input.old)) }
    ensures failed { result ≡ Err Fault.Read → has_failed input.new ≡ true }
    ensures unfailed { result ≢ Err Fault.Read → has_failed input.new ≡ false }
{
    let mut bytes = Vec::new(alloc);
    read_more(alloc, input, &mut bytes, TOO_MANY, TOO_MANY)?;
    match head_of_bytes(alloc, &bytes) {
        Ok(head) => Ok((bytes, head)),
        Err(fault) => Err(fault),
    }
}
