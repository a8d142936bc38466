//! What holds of every decoding.

ghost use Rattle.std.specs.Prelude.{◌≡◌, ℕ, List};
ghost use Rattle.jr_scan.specs.ScanValue.{ScanValue, interval_of};
ghost use Rattle.jr_picture.specs.declared.mark.Mark.{Mark};
ghost use Rattle.jr_picture.specs.declared.mark.Mark.TheVariants.{Sound};
ghost use Rattle.jr_picture.specs.Exactness.{ShowsFaithfully};
ghost use Rattle.jr_picture.specs.Headline.{HasOnePicture, IsPicture, mark_in};

use jr_idct::samples_are_faithful;

/// States that a scan's first n intervals have one image, for every number of workers and every order of their work:
/// images with just these marked have equal marks and the same text.
pub fn one_picture()
    ensures { (scan : ScanValue) (n : ℕ) → HasOnePicture scan n }
{}

/// States how exact an image is: in a sound interval, each sample whose block has an energy of at most 3400 squared is
/// the value of T.81's ideal transform rounded down or up, then shifted and clamped.
pub fn sound_samples_are_faithful()
    ensures { (scan : ScanValue) (marks : List Mark) (f : ℕ → ℕ → ℕ → ℕ) (i : ℕ) → IsPicture scan marks f → mark_in marks i ≡ Sound → ShowsFaithfully (interval_of scan i) f }
{
    samples_are_faithful();
}
