//! Writing that continues after short writes, and ends at the first failure.

ghost use Rattle.std.specs.Prelude.{◌≡◌, is_err, false, OnOk, OnErr};
ghost use Rattle.jr_base.specs.Tally.{Writes, WritesBeginning, has_failed};

use crate::tally::Tally;
use std::io::Write;

/// The writer failed: it returned an error, or took none of at least one byte.
#[derive(Clone, Copy, PartialEq, Eq)]
pub struct WriteFault;

/// Writes all of these bytes, or a beginning of them.
pub fn write_all<W: Write>(out: &mut Tally<W>, bytes: &[u8]) -> Result<(), WriteFault>
    requires { has_failed out.old ≡ false }
    ensures ok { OnOk result (Writes W.contents out.old out.new bytes.now) }
    ensures err { OnErr result (WritesBeginning W.contents out.old out.new bytes.now) }
    ensures failed { has_failed out.new ≡ is_err result }
{
    let mut at = 0;
    'parts: while at < bytes.len() {
        match out.write(&bytes[at..]) {
            Ok(0) => return Err(WriteFault),
            Ok(n) => at += n,
            Err(_) => return Err(WriteFault),
        }
    }
    Ok(())
}
