//! What holds of every scan and of every interval.

ghost use Rattle.std.specs.Prelude.{◌≡◌, ◌+◌, ◌≤◌, ◌↔◌, ◌⊎◌, ◌*◌, ◌++◌, ℕ, ℤ, List, [], take, length};
ghost use Rattle.jr_head.specs.Geometry.{IsValid, order_of};
ghost use Rattle.jr_scan.specs.declared.place.Place.{Place};
ghost use Rattle.jr_scan.specs.declared.place.RunEnd.TheVariants.{AllRead};
ghost use Rattle.jr_scan.specs.Run.{RunOf, IsRun, IsSoundRun, RunRead, run_from};
ghost use Rattle.jr_cut.specs.Cut.{Cutting};
ghost use Rattle.jr_scan.specs.IntervalValue.{IntervalValue};
ghost use Rattle.jr_scan.specs.Mcus.{Decodes, HasNoDecoding, Front, LongestFront};

/// An interval has at most one decoding.
pub fn one_decoding()
    ensures { (i : IntervalValue) (zs ys : List (List ℤ)) → Decodes i zs → Decodes i ys → zs ≡ ys }
{}

/// States that an interval has at most one prefix of n whole MCUs.
pub fn one_front()
    ensures { (i : IntervalValue) (k : ℕ) (zs ys : List (List ℤ)) → Front i k zs → Front i k ys → zs ≡ ys }
{}

/// States that what a prefix of whole MCUs begins with is a prefix of fewer MCUs.
pub fn shorter_front()
    ensures { (i : IntervalValue) (j k : ℕ) (zs : List (List ℤ)) → j ≤ k → Front i k zs → Front i j (take (j * length (order_of i.head)) zs) }
{}

/// States that no MCUs at all are a prefix of each interval.
pub fn no_front()
    ensures { (i : IntervalValue) → Front i 0 [] }
{}

/// States that each interval has a longest decodable prefix of whole MCUs.
pub fn each_interval_has_a_longest_front()
    ensures { (i : IntervalValue) → (k : ℕ) × (zs : List (List ℤ)) × LongestFront i k zs }
{}

/// States that each interval has a decoding, or has none.
pub fn each_interval_decodes_or_not()
    ensures { (i : IntervalValue) → ((zs : List (List ℤ)) × Decodes i zs) ⊎ HasNoDecoding i }
{}

/// States that at each position of an interval one run of n MCUs starts: its blocks, where it ends and why are fixed.
pub fn one_run()
    ensures { (r : RunOf) (a b : RunRead r) → IsValid r.interval.head → (a.blocks ≡ b.blocks) × (a.to ≡ b.to) × (a.end ≡ b.end) }
{}

/// States that if a run has all its MCUs and another starts at its end, they are one run.
pub fn runs_meet()
    ensures { (i : IntervalValue) (p : Place) (k m : ℕ) (a : RunRead (run_from i p k)) (b : RunRead (run_from i a.to m)) → IsValid i.head
        → a.end ≡ AllRead → IsRun (run_from i p (k + m)) (a.blocks ++ b.blocks) b.to b.end }
{}

/// An interval decodes to the blocks of its whole run, if this has all MCUs and leaves fewer than eight bits.
pub fn decoding_is_whole_run()
    ensures { (i : IntervalValue) (zs : List (List ℤ)) → Decodes i zs ↔ IsSoundRun i zs }
{}
