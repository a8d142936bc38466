//! What holds of every piece and of every strip.

ghost use Rattle.std.specs.Prelude.{◌≡◌, ℕ, ℤ, Bool, List};
ghost use Rattle.jr_scan.specs.Cursors.{AreBlocksFrom};
ghost use Rattle.jr_scan.specs.IntervalValue.{IntervalValue};
ghost use Rattle.jr_scan.specs.Mcus.{ReportsSound, units_before};
ghost use Rattle.jr_piece.specs.PieceValue.{PieceValue};
ghost use Rattle.jr_piece.specs.Outcome.{HasOutcome, IsOutcome};
ghost use Rattle.jr_piece.specs.Units.{CodesUnits};
ghost use Rattle.jr_piece.specs.StripValue.{StripValue};
ghost use Rattle.jr_piece.specs.Strips.{Follows, IsStrip, IsWhole, ShowsStrip, joined, piece_of};

/// States that each interval has an outcome: its one decoding, or none and a longest decodable prefix.
pub fn each_interval_has_an_outcome()
    ensures { (i : IntervalValue) → HasOutcome i }
{}

/// States that T.81 gives one outcome for an interval: pieces of one interval are equal.
pub fn one_outcome()
    ensures { (p q : PieceValue) → p.interval ≡ q.interval → IsOutcome p → IsOutcome q → p ≡ q }
{}

/// States that the blocks of an interval starting at an MCU have the samples of its data units, grey after its longest
/// prefix.
pub fn blocks_have_units()
    ensures { (i : IntervalValue) (first : ℕ) (blocks : List (List ℤ)) (p : PieceValue)
        → AreBlocksFrom i first blocks → IsOutcome p → p.interval ≡ i → CodesUnits p (units_before i first) blocks }
{}

/// States that a strip is final: whatever follows it, a piece of its interval, sound or damaged, shows at least the
/// strip's MCUs, and at their data units exactly its samples.
pub fn strip_is_final()
    ensures { (p : PieceValue) (s : StripValue) → p.interval ≡ s.interval → IsOutcome p → IsStrip s → ShowsStrip p s }
{}

/// Strips of the same MCUs of an interval are equal.
pub fn one_strip()
    ensures { (a b : StripValue) → a.interval ≡ b.interval → a.first ≡ b.first → a.mcus ≡ b.mcus → IsStrip a → IsStrip b → a ≡ b }
{}

/// Strips that follow one another are one strip.
pub fn strips_meet()
    ensures { (a b : StripValue) → Follows a b → IsStrip a → IsStrip b → IsStrip (joined a b) }
{}

/// States that a strip of all whole MCUs that an interval has says its outcome.
pub fn whole_strip_is_outcome()
    ensures { (s : StripValue) (t : Bool) → IsStrip s → IsWhole s → ReportsSound t s.interval → IsOutcome (piece_of t s) }
{}
