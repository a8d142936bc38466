//! What holds for the lines of each image of a scan.

ghost use Rattle.std.specs.Prelude.{◌≡◌, ℕ, ◌+◌, ◌≤◌, List};
ghost use Rattle.jr_paint.specs.Lines.{next_lines_of};
ghost use Rattle.jr_scan.specs.ScanValue.{ScanValue};
ghost use Rattle.jr_picture.specs.declared.mark.Mark.{Mark};
ghost use Rattle.jr_picture.specs.Headline.{ShowsFirst};

/// States that images of a scan of which the same first intervals are marked have the same lines of pixels.
pub fn lines_are_one()
    ensures { (scan : ScanValue) (n : ℕ) (k m : List Mark) (f g : ℕ → ℕ → ℕ → ℕ) (first count : ℕ) → first + count ≤ scan.head.height
        → ShowsFirst scan n k f → ShowsFirst scan n m g → next_lines_of scan.head f first count ≡ next_lines_of scan.head g first count }
{}
