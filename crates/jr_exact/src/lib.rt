//! How exact the samples of an image are: laws on blocks whose samples are those of an image, or not far from it.
#![tactic(auto)]

ghost use Rattle.std.specs.Prelude.{◌≡◌, ℕ, List};
ghost use Rattle.jr_scan.specs.ScanValue.{ScanValue, interval_of};
ghost use Rattle.jr_picture.specs.declared.mark.Mark.{Mark};
ghost use Rattle.jr_picture.specs.declared.mark.Mark.TheVariants.{Sound};
ghost use Rattle.jr_picture.specs.Headline.{IsPicture, mark_in};
ghost use Rattle.jr_exact.specs.ModerateBlocks.{ModerateBlocksHaveLittleEnergy, ModerateSamplesAreFaithful, ShowsModerateFaithfully};

use jr_idct::{roots_agree, samples_are_faithful};
use jr_picture::sound_samples_are_faithful;

/// States that a block whose ideal values are all from -424 to 424 has an energy of at most 3400 squared.
pub fn moderate_blocks_have_little_energy()
    ensures { ModerateBlocksHaveLittleEnergy }
{
    roots_agree();
}

/// States that each sample of such a block is the ideal one rounded down or up, then shifted and clamped.
pub fn moderate_samples_are_faithful()
    ensures { ModerateSamplesAreFaithful }
{
    moderate_blocks_have_little_energy();
    samples_are_faithful();
}

/// States how exact an image is: in a sound interval, each sample of a block whose ideal samples are all from -296 to 552
/// is the value of T.81's ideal transform rounded down or up, then shifted and clamped.
pub fn sound_moderate_samples_are_faithful()
    ensures { (scan : ScanValue) (marks : List Mark) (f : ℕ → ℕ → ℕ → ℕ) (i : ℕ) → IsPicture scan marks f → mark_in marks i ≡ Sound → ShowsModerateFaithfully (interval_of scan i) f }
{
    moderate_blocks_have_little_energy();
    sound_samples_are_faithful();
}
