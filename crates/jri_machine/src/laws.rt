//! Laws of names.

ghost use Rattle.std.specs.Prelude.{◌≡◌, ℕ, List};
ghost use Rattle.jri_machine.specs.Escapes.{IsEscaped};

/// States that a name comes back from its text: no other name has that text.
pub fn names_come_back()
    ensures { (text a b : List ℕ) → IsEscaped text a → IsEscaped text b → a ≡ b }
{}
