//! Laws of files, scans and their images.

ghost use Rattle.std.specs.Prelude.{◌≡◌, ◌<◌, ◌≤◌, ℕ, List, length, Option, All};
ghost use Rattle.jr_head.specs.Geometry.{IsValid};
ghost use Rattle.jr_head.specs.Heads.{HeadOf};
ghost use Rattle.jr_paint.specs.Text.{text_of};
ghost use Rattle.jr_scan.specs.ScanValue.{ScanValue};
ghost use Rattle.jr_picture.specs.declared.mark.Mark.{Mark};
ghost use Rattle.jri_file.specs.Files.{HasPicture, HasPictureOf, IsPictureOf};

use jr_head::Head;

/// States that the bytes of a file and the number of its first intervals fix all that a run writes: the scan, the marks
/// and the image's text are one, for every number of workers and every order of their work.
pub fn one_text()
    ensures { (file : List ℕ) (first : Option ℕ) (s t : ScanValue) (k m : List Mark) (f g : ℕ → ℕ → ℕ → ℕ) → All (λ b. b < 256) file
        → IsPictureOf file first s k f → IsPictureOf file first t m g → (s ≡ t) × (k ≡ m) × (text_of s.head f ≡ text_of t.head g) }
{}

/// A scan has an image for each number of its first intervals: whatever their data are, each has a decoding or a longest
/// prefix of whole MCUs.
pub fn each_scan_has_a_picture()
    ensures { (scan : ScanValue) (n : ℕ) → IsValid scan.head → n ≤ length scan.intervals → HasPicture scan n }
{}

/// States that a file with an accepted header has an image for each number of first intervals; by `one_text` its text
/// is the only one.
pub fn each_accepted_file_has_a_picture(head: &Head)
    ensures { (file : List ℕ) (first : Option ℕ) → All (λ b. b < 256) file → HeadOf file head.now → HasPictureOf file first }
{
    head.assert_invariant();
    // Its contract says that there is an interval.
    let _some = head.intervals();
}
