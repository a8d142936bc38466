//! A scan, and where the bytes after the end of the image begin.

ghost use Rattle.std.specs.Prelude.{◌≡◌, ◌<◌, ◌^◌, length, IfOk};
ghost use Rattle.jr_scan.specs.ScanValue.{IsScanOf};
ghost use Rattle.jr_scan.specs.ImageEnd.{IsImageEndIn};

use crate::scan::Scan;
use jr_base::Memory;
use jr_cut::{Unstuffing, cut_to_end};
use jr_head::Head;
use std::alloc::Global;

/// A scan that is cut from its file.
#[derive(Drop)]
pub struct CutScan {
    pub scan: Scan,
    /// Offset in the file of the first byte after the EOI marker that ended the scan, which is the file's size if none
    /// follows; `None` if no EOI ended the scan.
    pub image_end: Option<u64>,
}

impl CutScan {
    /// Cuts the scan of a file as `Scan::cut_in_place` does, and finds the end of its image.
    pub fn cut_in_place(alloc: Global, head: Head, bytes: Vec<u8>) -> Result<CutScan, Memory>
        requires { length bytes.items < 2 ^ 61 }
        ensures head { IfOk result (λ c. c.scan.head ≡ head) }
        ensures cut { IfOk result (λ c. IsScanOf bytes.items c.scan) }
        ensures image_end { IfOk result (λ c. IsImageEndIn bytes.items c.scan c.image_end) }
    {
        let at = head.scan_at();
        let scan = Unstuffing::of(bytes, at);
        let cut = cut_to_end(alloc, head.intervals(), at, scan)?;
        let image_end = cut.image_end;
        let scan = Scan::of_segments(alloc, head, cut.segments)?;
        Ok(CutScan { scan, image_end })
    }
}
