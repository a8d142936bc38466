//! Writes the scan of a file of coded intervals, with restart markers between them and EOI at the end.

ghost use Rattle.std.specs.Prelude.{◌≡◌, ◌≤◌, ◌++◌, ◌∷◌, [], ℕ, List, length, take, IfOk};
ghost use Rattle.jr_base.specs.declared.marker.TheConstants.{EOI};
ghost use Rattle.jr_cut.specs.Cut.{marker};
ghost use Rattle.jr_mend.specs.Splice.{coded_intervals, joined_intervals, marker_before};

use jr_base::Memory;
use jr_base::marker::{EOI, PREFIX, RST0};
use jr_head::Head;
use std::alloc::Global;

/// Returns the bytes of a file up to the end of its scan header.
pub fn write_header(alloc: Global, head: &Head, file: &[u8]) -> Result<Vec<u8>, Memory>
    requires { head.now.scan_at ≤ length file.now }
    ensures header { IfOk result (λ v. v.items ≡ take head.now.scan_at file.now) }
    ensures joined_intervals { IfOk result (λ v. v.items ≡ take head.now.scan_at file.now ++ joined_intervals 0 []) }
{
    Ok(file[..head.scan_at() as usize].to_vec(alloc)?)
}

/// Appends the restart marker before interval k, none if it is the first. On `Err`, part of it may be appended.
fn write_marker_before(bytes: &mut Vec<u8>, k: u32) -> Result<(), Memory>
    ensures { IfOk result (λ _. bytes.new.items ≡ bytes.old.items ++ marker_before k) }
{
    if k > 0 {
        let number = ((k - 1) % 8) as u8;
        bytes.extend_from_slice(&[PREFIX, RST0 + number])?;
    }
    Ok(())
}

/// Appends the coded bytes of interval k, after its restart marker if it is not the first. On `Err`, part of them may be
/// appended.
pub fn write_interval(bytes: &mut Vec<u8>, k: u32, raw: &[u8]) -> Result<(), Memory>
    ensures appended { IfOk result (λ _. bytes.new.items ≡ bytes.old.items ++ (marker_before k ++ raw.now)) }
    ensures joined_intervals { IfOk result (λ _. (front : List ℕ) (raws : List (List ℕ)) → length raws ≡ k → bytes.old.items ≡ front ++ joined_intervals 0 raws → bytes.new.items ≡ front ++ joined_intervals 0 (raws ++ raw.now ∷ [])) }
{
    write_marker_before(bytes, k)?;
    bytes.extend_from_slice(raw)?;
    Ok(())
}

/// Appends EOI. On `Err`, part of it may be appended.
pub fn write_image_end(bytes: &mut Vec<u8>) -> Result<(), Memory>
    ensures appended { IfOk result (λ _. bytes.new.items ≡ bytes.old.items ++ marker 0 EOI) }
    ensures whole { IfOk result (λ _. (front : List ℕ) (raws : List (List ℕ)) → bytes.old.items ≡ front ++ joined_intervals 0 raws → bytes.new.items ≡ front ++ coded_intervals raws) }
{
    bytes.extend_from_slice(&[PREFIX, EOI])?;
    Ok(())
}
