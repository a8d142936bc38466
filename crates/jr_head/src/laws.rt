//! What holds of every file.

ghost use Rattle.std.specs.Prelude.{ℕ, ◌<◌, ◌⊎◌, List, All};
ghost use Rattle.jr_head.specs.Baseline.{BaselineHeadOf};
ghost use Rattle.jr_head.specs.HeadValue.{HeadValue};
ghost use Rattle.jr_head.specs.Heads.{HasOneHead, HasOneFault, HeadOf};

/// States that a file has exactly one header and no fault, or no header and exactly one fault.
pub fn one_head_or_one_fault()
    ensures { (file : List ℕ) → All (λ b. b < 256) file → HasOneHead file ⊎ HasOneFault file }
{}

/// States that a file that a reader of baseline frames alone accepts is accepted, with an equal header.
pub fn baseline_is_accepted()
    ensures { (file : List ℕ) (h : HeadValue) → BaselineHeadOf file h → HeadOf file h }
{}
