//! Whether a file has the restart markers that are due.

ghost use Rattle.std.specs.Prelude.{◌≡◌, ◌<◌, ℕ, List, length, true};
ghost use Rattle.jr_cut.specs.declared.scan_end.ScanEnd.TheVariants.{EndOfImage};
ghost use Rattle.jr_cut.specs.Cut.{IsCut};
ghost use Rattle.jr_head.specs.Heads.{HeadOf};
ghost use Rattle.jr_mend.specs.Reading.{IsFileInStep};

use jr_base::marker::fill_count;
use jr_cut::{ScanEnd, Stop, segment_length, stop_at};
use jr_head::Head;

/// Returns whether the bytes of a scan are `intervals` segments with the restart markers that are due, and EOI.
fn ends_with_image(bytes: &[u8], intervals: u32) -> bool
    requires { 0 < intervals }
    ensures { result ≡ true → (at : ℕ) → (datas : List (List ℕ)) × IsCut intervals at bytes.now datas EndOfImage × (length datas ≡ intervals) }
{
    let mut at = segment_length(bytes);
    let mut k = 0;
    'segments: loop {
        let tail = &bytes[at..];
        match stop_at(tail, fill_count(tail), 0, k, intervals) {
            Stop::End(ScanEnd::EndOfImage) => return k + 1 == intervals,
            Stop::End(_) => return false,
            Stop::Restart(marker) => {
                let start = at + marker;
                at = start + segment_length(&bytes[start..]);
            }
        }
        k += 1;
    }
}

/// Returns whether a file with this header has all its intervals, with the restart markers that are due, and EOI. Once it is
/// resynchronised such a file has its own scan, and no break.
pub fn is_in_step(head: &Head, file: &[u8]) -> bool
    requires { HeadOf file.now head.now }
    ensures { result ≡ true → IsFileInStep file.now head.now }
{
    let start = head.scan_at() as usize;
    ends_with_image(&file[start..], head.intervals())
}
