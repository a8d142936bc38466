//! Restart intervals (T.81, B.2.4.4).

ghost use Rattle.std.specs.Prelude.{◌≡◌, IfOk};
ghost use Rattle.jr_segments.specs.Tests.{Obeys};
ghost use Rattle.jr_segments.specs.Restart.{restart_interval, restart_tests};

use crate::refusal::Refusal;
use byteorder::{BigEndian, ByteOrder};
use jr_base::marker::DRI;

/// Returns Ri, the number of MCUs in a restart interval, 0 if there are no restart markers.
///
/// # Errors
///
/// `BadLength` if the payload does not have two bytes.
#[tactic(auto, unfolding(crate::specs::Restart::restart_tests))]
pub fn read_restart(payload: &[u8]) -> Result<u16, Refusal>
    ensures obeys { Obeys result (restart_tests payload.now) }
    ensures value { IfOk result (λ n. n ≡ restart_interval payload.now) }
{
    if payload.len() != 2 {
        return Err(Refusal::BadLength(DRI));
    }
    Ok(BigEndian::read_u16(payload))
}
