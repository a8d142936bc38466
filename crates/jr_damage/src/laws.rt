//! What holds of every count.

ghost use Rattle.std.specs.Prelude.{◌≡◌, ℕ};
ghost use Rattle.jr_scan.specs.ScanValue.{ScanValue};
ghost use Rattle.jr_damage.specs.Damage.{CountsDamaged};

/// States that the first n intervals of a scan have one number of damaged ones.
pub fn one_count()
    ensures { (s : ScanValue) (n a b : ℕ) → CountsDamaged s n a → CountsDamaged s n b → a ≡ b }
{}
