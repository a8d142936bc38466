//! The positions of an interval's data in its file.

ghost use Rattle.std.specs.Prelude.{◌≤◌, List, ℕ, length, slice_range};
ghost use Rattle.jr_cut.specs.Cut.{IsRaw};
ghost use Rattle.jr_damage.specs.Offsets.{BeginsByte};

use jr_cut::{CodedSpan, spelled_length};

/// Returns the offset in the file at which byte `k` of a segment's data begins; the segment's end if it has `k` bytes.
pub(crate) fn offset_of(file: &[u8], span: CodedSpan, k: usize) -> usize
    requires order { span.start ≤ span.end }
    requires within { span.end ≤ length file.now }
    ensures { (bytes : List ℕ) → IsRaw (slice_range file.now span.start span.end) bytes → k ≤ length bytes → BeginsByte file.now span bytes k result }
{
    span.start + spelled_length(&file[span.start..span.end], k)
}
