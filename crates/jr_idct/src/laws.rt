//! Laws of the definitions.

ghost use Rattle.std.specs.Prelude.{◌≡◌, ℕ, List, pos, replicate};
ghost use Rattle.jr_idct.specs.Ideal.{PlacesAgree, RootsAgree, SamplesAreFaithful, SamplesAreNear, SamplesAreRounded, ValuesAreNear};
ghost use Rattle.jr_idct.specs.Transform.{FloorsAgree, TablesAgree, samples};

/// States that the two zigzag tables undo each other.
pub fn tables_agree()
    ensures { TablesAgree }
{}

/// States that the rounded quotient is the greatest that is not above the exact one, and
/// there is no other.
pub fn floors()
    ensures { FloorsAgree }
{}

/// States that a block of zeros is grey, whatever its quantisers.
pub fn zeros_are_grey()
    ensures { (q : List ℕ) → samples (replicate 64 (pos 0)) q ≡ replicate 64 128 }
{}

/// States that the square root in the definition of the real cosines is one, rounded down.
pub fn roots_agree()
    ensures { RootsAgree }
{}

/// States the first twenty decimal places of the real cosines.
pub fn places_agree()
    ensures { PlacesAgree }
{}

/// States how near values before the level shift are to those of the ideal transform of T.81, A.3.3, with real
/// cosines, by the energy of the block.
pub fn values_are_near()
    ensures { ValuesAreNear }
{}

/// States that samples are as near to the ideal ones.
pub fn samples_are_near()
    ensures { SamplesAreNear }
{
    values_are_near();
}

/// States that samples of a block with an energy of at most 3400 squared are the ideal values rounded down or up, then
/// shifted and clamped.
pub fn samples_are_faithful()
    ensures { SamplesAreFaithful }
{
    values_are_near();
}

/// States that samples of one with at most 7900 squared differ by at most 1 from the ideal values rounded to the
/// nearest, then shifted and clamped.
pub fn samples_are_rounded()
    ensures { SamplesAreRounded }
{
    values_are_near();
}
