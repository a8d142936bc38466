//! A damaged file as one whose restart markers are in step.

ghost use Rattle.std.specs.Prelude.{◌≡◌, IfOk, IfErr};
ghost use Rattle.jr_head.specs.Heads.{HeadOf};
ghost use Rattle.jr_mend.specs.Reading.{IsResyncFault, IsResynced};

use crate::reading::Reading;
use crate::splice::write_image_end;
use jr_base::Memory;
use jr_base::limits::MAX_FILE_BYTES;
use jr_cut::{Break, ScanEnd};
use jr_head::Head;
use std::alloc::Global;

/// A file that is resynchronised.
#[derive(Drop)]
pub struct Resynced {
    /// The file with its restart markers in step, and EOI at the end of its scan.
    pub file: Vec<u8>,
    /// The markers that were out of step, in order.
    pub breaks: Vec<Break>,
    /// What ended the scan of the damaged file.
    pub ended: ScanEnd,
}

/// The reason why no file is written.
#[derive(Clone, Copy)]
pub enum ResyncFault {
    Memory,
    /// With the markers that are missing the file would be longer than a file may be.
    TooLong,
}

impl From<Memory> for ResyncFault {
    ghost use Rattle.jr_mend.specs.declared.resync.ResyncFault.TheVariants.{Memory};

    ghost from_gives = { λ _ e. e ≡ Memory };

    fn from(_refused: Memory) -> ResyncFault {
        ResyncFault::Memory
    }
}

/// Returns the file with this header as one whose restart markers are in step. An interval that is lost has no bytes.
pub fn resynchronised(alloc: Global, head: &Head, file: &[u8]) -> Result<Resynced, ResyncFault>
    requires { HeadOf file.now head.now }
    ensures resynced { IfOk result (λ r. IsResynced file.now head.now r) }
    ensures fault { IfErr result (λ e. IsResyncFault file.now head.now e) }
{
    let mut reading = Reading::of(alloc, head, file)?;
    let ended = reading.read_on(head, file)?;
    write_image_end(&mut reading.bytes)?;
    if reading.bytes.len() > MAX_FILE_BYTES {
        return Err(ResyncFault::TooLong);
    }
    Ok(Resynced {
        file: reading.bytes,
        breaks: reading.breaks,
        ended,
    })
}
