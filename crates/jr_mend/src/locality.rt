//! How far damage and mending reach: each interval has its mark and its samples by its own data alone.

ghost use Rattle.std.specs.Prelude.{◌≡◌, ◌<◌, ℕ, List, slice_get, Some};
ghost use Rattle.jr_damage.specs.Lines.{Touches};
ghost use Rattle.jr_paint.specs.Lines.{line_of};
ghost use Rattle.jr_picture.specs.declared.mark.Mark.{Mark};
ghost use Rattle.jr_picture.specs.Headline.{Holds, ShowsFirst, mark_in};
ghost use Rattle.jr_scan.specs.ScanValue.{ScanValue, interval_of};
ghost use Rattle.jr_mend.specs.declared.choice.Choice.{Choice};
ghost use Rattle.jr_mend.specs.Copies.{CopyValue};
ghost use Rattle.jr_mend.specs.Mended.{HasChosen};

/// States that damage is local: if two files have one header, each interval with the same data in both has one mark and
/// the same samples in their images. A line is the same if each interval that touches it has the same data.
pub fn damage_is_local()
    ensures mark { (s t : ScanValue) (n i : ℕ) (k m : List Mark) (f g : ℕ → ℕ → ℕ → ℕ) → s.head ≡ t.head → ShowsFirst s n k f → ShowsFirst t n m g → (interval_of s i).bytes ≡ (interval_of t i).bytes → mark_in k i ≡ mark_in m i }
    ensures samples { (s t : ScanValue) (n i : ℕ) (k m : List Mark) (f g : ℕ → ℕ → ℕ → ℕ) → s.head ≡ t.head → ShowsFirst s n k f → ShowsFirst t n m g → (interval_of s i).bytes ≡ (interval_of t i).bytes → (c x y : ℕ) → Holds (interval_of s i) c x y → f c x y ≡ g c x y }
    ensures lines { (s t : ScanValue) (n line : ℕ) (k m : List Mark) (f g : ℕ → ℕ → ℕ → ℕ) → s.head ≡ t.head → ShowsFirst s n k f → ShowsFirst t n m g → line < s.head.height → ((i : ℕ) → Touches s.head i line → (interval_of s i).bytes ≡ (interval_of t i).bytes) → line_of s.head f line ≡ line_of t.head g line }
{}

/// States that mending is exact: in the image of a mended file each interval has the mark and the samples that it has in
/// the image of the copy from which it is taken.
pub fn mending_is_exact()
    ensures mark { (copies : List CopyValue) (choices : List Choice) (file : List ℕ) (m : HasChosen copies choices file) (n i : ℕ) (choice : Choice) (copy : CopyValue) (j k : List Mark) (f g : ℕ → ℕ → ℕ → ℕ) → slice_get choices i ≡ Some choice → slice_get copies choice.copy ≡ Some copy → ShowsFirst m.scan n j f → ShowsFirst copy.scan n k g → mark_in j i ≡ mark_in k i }
    ensures samples { (copies : List CopyValue) (choices : List Choice) (file : List ℕ) (m : HasChosen copies choices file) (n i : ℕ) (choice : Choice) (copy : CopyValue) (j k : List Mark) (f g : ℕ → ℕ → ℕ → ℕ) → slice_get choices i ≡ Some choice → slice_get copies choice.copy ≡ Some copy → ShowsFirst m.scan n j f → ShowsFirst copy.scan n k g → (c x y : ℕ) → Holds (interval_of m.scan i) c x y → f c x y ≡ g c x y }
{}
