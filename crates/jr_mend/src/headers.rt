//! A file that is read under the header of another one.

ghost use Rattle.std.specs.Prelude.{◌≡◌, ◌≤◌, ◌++◌, IfOk, drop, length, take};
ghost use Rattle.jr_base.specs.declared.limits.TheConstants.{MAX_FILE_BYTES};
ghost use Rattle.jr_head.specs.Heads.{HeadOf};

use crate::splice::write_header;
use jr_base::Memory;
use jr_head::Head;
use std::alloc::Global;

/// Returns a file with the header of another one: the other file up to the end of its scan header, then
/// this file starting at that offset. The header is that of the other file.
///
/// A copy of a file whose header is damaged is read so under that of another copy.
pub fn under_header(
    alloc: Global,
    head: &Head,
    other: &[u8],
    file: &[u8],
) -> Result<Vec<u8>, Memory>
    requires { HeadOf other.now head.now }
    ensures bytes { IfOk result (λ v. v.items ≡ take head.now.scan_at other.now ++ drop head.now.scan_at file.now) }
    ensures head { IfOk result (λ v. length v.items ≤ MAX_FILE_BYTES → HeadOf v.items head.now) }
{
    let mut bytes = write_header(alloc, head, other)?;
    let start = (head.scan_at() as usize).min(file.len());
    bytes.extend_from_slice(&file[start..])?;
    Ok(bytes)
}
