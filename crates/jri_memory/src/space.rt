//! The sizes of an image and its marks.

ghost use Rattle.std.specs.Prelude.{◌≡◌, ◌<◌, ◌≤◌, length, true, false};
ghost use Rattle.jri_memory.specs.Calls.{picture_size};

use jr_head::Head;
use jr_paint::bytes_of_line;

/// Returns the size in bytes of the pixels of an image: one for a grey pixel, three for a colour.
pub(crate) fn bytes_of_picture(head: &Head) -> usize
    ensures value { result ≡ picture_size head.now }
{
    head.assert_invariant();
    head.height() as usize * bytes_of_line(head)
}

/// Returns whether marks are asked for and do not fit.
pub(crate) fn lacks_space(marks: &[u8], count: u32) -> bool
    ensures space { result ≡ false → 0 < length marks.now → count ≤ length marks.now }
    ensures less { result ≡ true → (0 < length marks.now) × (length marks.now < count) }
{
    !marks.is_empty() && marks.len() < count as usize
}

/// Returns how many of `count` marks are asked for: none if there is no space at all.
pub(crate) fn asked_for(marks: &[u8], count: u32) -> usize
    ensures all { 0 < length marks.now → result ≡ count }
    ensures none { length marks.now ≡ 0 → result ≡ 0 }
{
    if marks.is_empty() { 0 } else { count as usize }
}
