//! A scan's image, decoded interval by interval, and written once it is whole.

ghost use Rattle.std.specs.Prelude.{◌≡◌, ◌≤◌, length, IfOk, OnOk, false, true};
ghost use Rattle.std.specs.Arc.{arc_value};
ghost use Rattle.jr_base.specs.declared.limits.TheConstants.{MAX_WORKERS};
ghost use Rattle.jr_base.specs.Tally.{has_failed};
ghost use Rattle.jr_scan.specs.FirstIntervalsValue.{least};
ghost use Rattle.jr_picture.specs.Writing.{WritesPicture, BeginsPicture};

use crate::workers::decode_all;
use jr_base::Tally;
use jr_paint::write_netpbm;
use jr_picture::{Counts, Gate, PictureError};
use jr_scan::Scan;
use std::alloc::Global;
use std::io::Write;
use std::sync::{Arc, Wait};
use std::thread::Threads;

/// Decodes the first intervals of a scan, or all, with workers that decode an interval each. Writes the image once it
/// is decoded.
pub fn write_board<T: Threads + Wait + Sync, W: Write, G: Gate + Sync>(
    rt: &T,
    alloc: Global,
    scan: &Arc<Scan>,
    workers: u32,
    first: Option<u32>,
    gate: &G,
    out: &mut Tally<W>,
) -> Result<Counts, PictureError>
    requires output { has_failed out.old ≡ false }
    requires some { 1 ≤ workers }
    requires few { workers ≤ MAX_WORKERS }
    ensures painted { IfOk result (λ c. WritesPicture W.contents out.old out.new (arc_value scan.now) (least first (length (arc_value scan.now).intervals)) c) }
    ensures begun { result ≡ Err PictureError.Write → BeginsPicture W.contents out.old out.new (arc_value scan.now) (least first (length (arc_value scan.now).intervals)) }
    ensures memory { result ≡ Err PictureError.Memory → out.new ≡ out.old }
    ensures written { OnOk result (has_failed out.new ≡ false) }
    ensures write { result ≡ Err PictureError.Write → has_failed out.new ≡ true }
{
    // By its contract a scan's header is valid.
    let _valid = scan.head();
    let Ok(shared) = Arc::try_clone(scan) else {
        return Err(PictureError::Memory);
    };
    let Ok(board) = decode_all(rt, alloc, shared, workers, first, gate) else {
        return Err(PictureError::Memory);
    };
    let counts = board.headline();
    match write_netpbm(&board, out) {
        Ok(()) => Ok(counts),
        Err(_) => Err(PictureError::Write),
    }
}
