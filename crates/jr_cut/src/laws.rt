//! What holds of the bytes of every scan.

ghost use Rattle.std.specs.Prelude.{◌≡◌, ◌<◌, ℕ, List, All};
ghost use Rattle.jr_cut.specs.Cut.{Cutting};

/// A scan's bytes are cut in one way: n intervals, the first byte at an offset of the file.
pub fn one_cut()
    ensures { (n at : ℕ) (bytes : List ℕ) (a b : Cutting n at bytes) → (a.datas ≡ b.datas) × (a.end ≡ b.end) }
{}

/// Bytes can be cut into the segments of n restart intervals, whatever they are, if n is not 0 (T.81, B.1.1.5 and E.1.4).
pub fn each_scan_has_a_cut()
    ensures { (n at : ℕ) (bytes : List ℕ) → 0 < n → All (λ b. b < 256) bytes → Cutting n at bytes }
{}
