//! What holds of every mended file.

ghost use Rattle.std.specs.Prelude.{◌<◌, ◌++◌, ◌∷◌, [], ℕ, List, Contains, length, slice_index_or};
ghost use Rattle.jr_scan.specs.Mcus.{HasDecoding};
ghost use Rattle.jr_scan.specs.ScanValue.{interval_of};
ghost use Rattle.jr_mend.specs.declared.choice.Choice.{Choice};
ghost use Rattle.jr_mend.specs.Copies.{CopyValue};
ghost use Rattle.jr_mend.specs.Mended.{HasChosen};

/// States that an interval of a mended file is sound if it is sound in a copy.
pub fn sound_if_any_is()
    ensures { (copies : List CopyValue) (choices : List Choice) (file : List ℕ) (m : HasChosen copies choices file) (i : ℕ) (c : CopyValue) → i < length choices → Contains copies c → HasDecoding (interval_of c.scan i) → HasDecoding (interval_of m.scan i) }
{}

/// States that an interval that is sound in a copy is taken from one of the copies, and not from a further one that comes after
/// them, as a combined one does.
pub fn sound_copies_come_first()
    ensures { (copies : List CopyValue) (further : CopyValue) (choices : List Choice) (file : List ℕ) (m : HasChosen (copies ++ further ∷ []) choices file) (i : ℕ) (c : CopyValue) (choice : Choice) → i < length choices → Contains copies c → HasDecoding (interval_of c.scan i) → (slice_index_or choices i choice).copy < length copies }
{}
