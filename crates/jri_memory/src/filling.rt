//! Buffers whose first entries are written.

ghost use Rattle.std.specs.Prelude.{◌≡◌, ◌≤◌, length};
ghost use Rattle.jr_cut.specs.declared.breaks.Break.{Break};
ghost use Rattle.jri_memory.specs.Calls.{over};
ghost use Rattle.jri_memory.specs.Filling.{listed_over};

use jr_cut::Break;

/// Writes bytes at the start of a buffer.
pub(crate) fn write_over(bytes: &[u8], out: &mut [u8])
    requires space { length bytes.now ≤ length out.old }
    ensures { out.new ≡ over bytes.now out.old }
{
    out[..bytes.len()].copy_from_slice(bytes);
}

/// Writes the first breaks at the start of a list, as many as it has entries.
pub(crate) fn list_breaks(found: &[Break], breaks: &mut [Break])
    ensures { breaks.new ≡ listed_over found.now breaks.old }
{
    let count = found.len().min(breaks.len());
    breaks[..count].copy_from_slice(&found[..count]);
}
