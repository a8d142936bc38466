//! The quantisers of a component.

ghost use Rattle.std.specs.Prelude.{◌≡◌, ◌↔◌, ◌*◌, ◌≤◌, ◌==◌, ℕ, List, length, IsTrue};
ghost use Rattle.std.proofs.Common.{rules};
ghost use Rattle.std.specs.Cmp.Lexicographic.{pointwise};
ghost use Rattle.std.specs.Cmp.Rules.{comparing};
ghost use Rattle.jr_base.specs.Blocks.{AreFactors, AreLimits};

use crate::zigzag::place_at;
use std::marker::Model;

/// How large the products of coefficients and quantisers may be that are transformed in vectors of sixteen bits: the first pass
/// makes numbers of sixteen bits of them, as 61214 * 1096 + 1024 is below 32768 * 2048.
pub const MAX_PRODUCT: u16 = 1096;

/// The elements of a quantisation table (T.81, B.2.4.1), in the file's order and in the transform's.
#[derive(Drop)]
pub struct Quantisers {
    /// In zigzag order.
    elements: [u16; 64],
    /// In natural order.
    factors: [u16; 64],
    /// In natural order, how large a coefficient may be whose product is at most `MAX_PRODUCT`.
    limits: [u16; 64],
}

impl Model for Quantisers {
    ghost use Rattle.std.specs.Prelude.{◌≡◌, List, ℕ, length};

    ghost Value = { List ℕ };

    ghost use Rattle.jr_base.specs.Blocks.{AreFactors, AreLimits};

    ghost view = { λ q. q.elements };

    ghost invariant = { λ q. AreFactors q.elements q.factors × AreLimits q.factors q.limits × (length q.elements ≡ 64) × (length q.factors ≡ 64) × (length q.limits ≡ 64) };
}

/// Returns the elements in natural order.
fn factors_of(elements: &[u16; 64]) -> [u16; 64]
    ensures count { length result ≡ 64 }
    ensures factors { AreFactors elements.now result }
{
    let mut factors = [0; 64];
    for n in 0..64 {
        factors[n] = elements[place_at(n)];
    }
    factors
}

/// Returns the maximum of a coefficient whose product with this factor is at most `MAX_PRODUCT`.
fn limit_of(factor: u16) -> u16
    ensures { result * factor ≤ MAX_PRODUCT }
{
    if factor == 0 {
        return u16::MAX;
    }
    MAX_PRODUCT / factor
}

/// Returns the limit of each factor.
fn limits_of(factors: &[u16; 64]) -> [u16; 64]
    ensures count { length result ≡ 64 }
    ensures limits { AreLimits factors.now result }
{
    let mut limits = [0; 64];
    for n in 0..64 {
        limits[n] = limit_of(factors[n]);
    }
    limits
}

impl Quantisers {
    /// Returns the quantisers of a table's elements, which are in zigzag order.
    pub fn of(elements: [u16; 64]) -> Quantisers
        ensures { result ≡ elements }
    {
        let factors = factors_of(&elements);
        let limits = limits_of(&factors);
        Quantisers {
            elements,
            factors,
            limits,
        }
    }

    /// Returns the elements, in zigzag order.
    pub fn elements(&self) -> &[u16; 64]
        ensures { result.now ≡ self.now }
    {
        &self.elements
    }

    /// Returns the elements in natural order, `8 row + column`.
    pub fn factors(&self) -> &[u16; 64]
        ensures count { length result.now ≡ 64 }
        ensures factors { AreFactors self.now result.now }
    {
        &self.factors
    }

    /// In natural order, how large a coefficient may be whose product with its quantiser is at most `MAX_PRODUCT`.
    pub fn limits(&self) -> &[u16; 64]
        ensures count { length result.now ≡ 64 }
        ensures limits { (factors : List ℕ) → AreFactors self.now factors → AreLimits factors result.now }
    {
        &self.limits
    }

    /// Returns whether both have the same elements.
    pub fn is_same(&self, other: &Quantisers) -> bool
        ensures { IsTrue result ↔ (self.now ≡ other.now) }
    {
        self.elements == other.elements
    }
}

impl PartialEq for Quantisers {
    ghost eq = { pointwise ◌==◌ };

    ghost laws = { Prim.search (comparing, rules) };

    fn eq(&self, other: &Quantisers) -> bool {
        self.is_same(other)
    }
}
