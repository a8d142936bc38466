//! The files that are checked, as a type.

ghost use Rattle.std.specs.Prelude.{ℕ, List, Option, None};
ghost use Rattle.jri_archive.specs.declared.outcome.Outcome.{Outcome};

use std::marker::Brand;

/// The names of the files that are checked, if a proof knows them, and what a check of each may come to. A contract knows
/// what is under a lock by its type alone, so the type says which files these are.
pub(crate) trait OneCheck {
    ghost names: { Option (List (List ℕ)) };

    ghost may_be: { List ℕ → Outcome → Type 0 };
}

impl OneCheck for Brand {
    ghost names = { None };

    ghost may_be = { λ _ _. Unit {0} };
}
