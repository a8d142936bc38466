//! What holds of every view.

ghost use Rattle.std.specs.Prelude.{◌≡◌, ℕ, List, length};
ghost use Rattle.jr_head.specs.Geometry.{IsValid};
ghost use Rattle.jr_paint.specs.Text.{text_of};
ghost use Rattle.jr_picture.specs.declared.mark.Mark.{Mark};
ghost use Rattle.jr_picture.specs.Headline.{ShowsFirst};
ghost use Rattle.jr_view.specs.Parts.{HasSeenAll, IsPartOfPicture};
ghost use Rattle.jr_view.specs.ViewValue.{ViewValue};
ghost use Rattle.jr_view.specs.Views.{sample_in_view};

/// States that a view that has seen all MCUs shows the whole image, and that its text is that of each such image.
pub fn whole_view_is_picture()
    ensures picture { (v : ViewValue) → IsValid v.scan.head → IsPartOfPicture v → HasSeenAll v → (marks : List Mark) × ShowsFirst v.scan (length v.scan.intervals) marks (sample_in_view v) }
    ensures text { (v : ViewValue) (marks : List Mark) (f : ℕ → ℕ → ℕ → ℕ) → IsPartOfPicture v → HasSeenAll v → ShowsFirst v.scan (length v.scan.intervals) marks f → text_of v.scan.head (sample_in_view v) ≡ text_of v.scan.head f }
{}
