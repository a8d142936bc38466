//! The two halves of a pass by butterflies, instead of the matrix (the IJG's slow-but-accurate integer method).

ghost use Rattle.std.specs.Prelude.{◌≡◌, ℕ, ◌^◌, ◌<◌, ◌+ℤ◌, [], ◌∷◌};
ghost use Rattle.std.proofs.Math.IntN.{◌*ℤ◌};
ghost use Rattle.jr_idct.specs.Matrix.{at, even_sum, odd_sum, weight, IsWithin};

use crate::number::Number;

// What numbers are multiplied by, with 13 bits after the point. ck is sqrt(2) * cos(k * pi / 16), so
// that c4 is 1; libjpeg calls each by its value, as FIX_1_175875602 for c3.

/// c4.
const C4: i16 = 8192;
/// c6.
const C6: i16 = 4433;
/// c2 - c6.
const C2_MINUS_C6: i16 = 6270;
/// c2 + c6.
const C2_PLUS_C6: i16 = 15137;
/// c3.
const C3: i16 = 9633;
/// c3 - c5.
const C3_MINUS_C5: i16 = 3196;
/// c3 + c5.
const C3_PLUS_C5: i16 = 16069;
/// c7 - c3.
const C7_MINUS_C3: i16 = -7373;
/// -c1 - c3.
const MINUS_C1_C3: i16 = -20995;
/// c1 + c3 - c5 - c7: what x1 adds to entry 0 in addition to the terms that it shares.
const OWN_OF_X1: i16 = 12299;
/// c1 + c3 + c5 - c7: the same of x3 in entry 1.
const OWN_OF_X3: i16 = 25172;
/// c1 + c3 - c5 + c7: the same of x5 in entry 2.
const OWN_OF_X5: i16 = 16819;
/// -c1 + c3 + c5 - c7: the same of x7 in entry 3.
const OWN_OF_X7: i16 = 2446;

/// Returns what x2 and x6 add to entry 1 (and, with the other sign, to entry 2), and to entry 0 (and entry 3).
#[inline]
fn rotated<T: Number>(x2: T, x6: T) -> (T, T)
    requires x2_small { IsWithin T.reach (T.value x2) }
    requires x6_small { IsWithin T.reach (T.value x6) }
    ensures inner { T.value result.0 ≡ weight 1 2 *ℤ T.value x2 +ℤ weight 1 6 *ℤ T.value x6 }
    ensures outer { T.value result.1 ≡ weight 0 2 *ℤ T.value x2 +ℤ weight 0 6 *ℤ T.value x6 }
{
    let both = x2.plus(x6).times(C6);
    (
        both.minus(x6.times(C2_PLUS_C6)),
        both.plus(x2.times(C2_MINUS_C6)),
    )
}

/// Returns the part of entries 0 to 3 of a pass that numbers 0, 2, 4 and 6 make, before descaling.
#[inline]
pub(crate) fn even_part<T: Number>(x0: T, x2: T, x4: T, x6: T) -> (T, T, T, T)
    requires x0_small { IsWithin T.reach (T.value x0) }
    requires x2_small { IsWithin T.reach (T.value x2) }
    requires x4_small { IsWithin T.reach (T.value x4) }
    requires x6_small { IsWithin T.reach (T.value x6) }
    ensures entry_0 { T.value result.0 ≡ even_sum 0 (T.value x0 ∷ T.value x2 ∷ T.value x4 ∷ T.value x6 ∷ []) }
    ensures entry_1 { T.value result.1 ≡ even_sum 1 (T.value x0 ∷ T.value x2 ∷ T.value x4 ∷ T.value x6 ∷ []) }
    ensures entry_2 { T.value result.2 ≡ even_sum 2 (T.value x0 ∷ T.value x2 ∷ T.value x4 ∷ T.value x6 ∷ []) }
    ensures entry_3 { T.value result.3 ≡ even_sum 3 (T.value x0 ∷ T.value x2 ∷ T.value x4 ∷ T.value x6 ∷ []) }
{
    let (inner, outer) = rotated(x2, x6);
    let sum = x0.plus(x4).times(C4);
    let difference = x0.minus(x4).times(C4);
    let entry_0 = sum.plus(outer);
    let entry_1 = difference.plus(inner);
    let entry_2 = difference.minus(inner);
    let entry_3 = sum.minus(outer);
    (entry_0, entry_1, entry_2, entry_3)
}

/// Returns the terms of the odd part that entries 1 and 3 share, and those that entries 0 and 2 share.
#[inline]
fn shared<T: Number>(x1: T, x3: T, x5: T, x7: T) -> (T, T)
    requires x1_small { IsWithin T.reach (T.value x1) }
    requires x3_small { IsWithin T.reach (T.value x3) }
    requires x5_small { IsWithin T.reach (T.value x5) }
    requires x7_small { IsWithin T.reach (T.value x7) }
    ensures one_three { T.value result.0 ≡ weight 1 1 *ℤ (T.value x5 +ℤ T.value x1) +ℤ weight 1 7 *ℤ (T.value x7 +ℤ T.value x3) }
    ensures zero_two { T.value result.1 ≡ weight 0 5 *ℤ (T.value x5 +ℤ T.value x1) +ℤ weight 0 3 *ℤ (T.value x7 +ℤ T.value x3) }
{
    let z3 = x7.plus(x3);
    let z4 = x5.plus(x1);
    let all = z3.plus(z4).times(C3);
    (
        all.minus(z3.times(C3_PLUS_C5)),
        all.minus(z4.times(C3_MINUS_C5)),
    )
}

/// Returns the part of entries 0 to 3 of a pass that numbers 1, 3, 5 and 7 make, before descaling.
#[inline]
pub(crate) fn odd_part<T: Number>(x1: T, x3: T, x5: T, x7: T) -> (T, T, T, T)
    requires x1_small { IsWithin T.reach (T.value x1) }
    requires x3_small { IsWithin T.reach (T.value x3) }
    requires x5_small { IsWithin T.reach (T.value x5) }
    requires x7_small { IsWithin T.reach (T.value x7) }
    ensures entry_0 { T.value result.0 ≡ odd_sum 0 (T.value x1 ∷ T.value x3 ∷ T.value x5 ∷ T.value x7 ∷ []) }
    ensures entry_1 { T.value result.1 ≡ odd_sum 1 (T.value x1 ∷ T.value x3 ∷ T.value x5 ∷ T.value x7 ∷ []) }
    ensures entry_2 { T.value result.2 ≡ odd_sum 2 (T.value x1 ∷ T.value x3 ∷ T.value x5 ∷ T.value x7 ∷ []) }
    ensures entry_3 { T.value result.3 ≡ odd_sum 3 (T.value x1 ∷ T.value x3 ∷ T.value x5 ∷ T.value x7 ∷ []) }
{
    let z1 = x7.plus(x1).times(C7_MINUS_C3);
    let z2 = x5.plus(x3).times(MINUS_C1_C3);
    let (z3, z4) = shared(x1, x3, x5, x7);
    let own_1 = x1.times(OWN_OF_X1).plus(z1);
    let own_3 = x3.times(OWN_OF_X3).plus(z2);
    let own_5 = x5.times(OWN_OF_X5).plus(z2);
    let own_7 = x7.times(OWN_OF_X7).plus(z1);
    let entry_0 = own_1.plus(z4);
    let entry_1 = own_3.plus(z3);
    let entry_2 = own_5.plus(z4);
    let entry_3 = own_7.plus(z3);
    (entry_0, entry_1, entry_2, entry_3)
}

/// Returns the part of entries 0 to 3 of a pass that numbers 0, 2, 4 and 6 make, before descaling.
///
/// Entry i is the sum of the matrix's weights 0, 2, 4 and 6 of row i, each times its number. Each input must be in
/// -2^40..=2^40.
#[inline]
pub fn even(x: &[i64; 4]) -> [i64; 4]
    requires { (k : ℕ) → k < 4 → IsWithin (2 ^ 40) (at x.now k) }
    ensures sums { (i : ℕ) → i < 4 → at result i ≡ even_sum i x.now }
    ensures small { (i : ℕ) → i < 4 → IsWithin (2 ^ 56) (at result i) }
{
    let (entry_0, entry_1, entry_2, entry_3) = even_part(x[0], x[1], x[2], x[3]);
    [entry_0, entry_1, entry_2, entry_3]
}

/// Returns the part of entries 0 to 3 of a pass that numbers 1, 3, 5 and 7 make, before descaling.
///
/// Entry i is the sum of the matrix's weights 1, 3, 5 and 7 of row i, each times its number. Each input must be in
/// -2^40..=2^40.
#[inline]
pub fn odd(x: &[i64; 4]) -> [i64; 4]
    requires { (k : ℕ) → k < 4 → IsWithin (2 ^ 40) (at x.now k) }
    ensures sums { (i : ℕ) → i < 4 → at result i ≡ odd_sum i x.now }
    ensures small { (i : ℕ) → i < 4 → IsWithin (2 ^ 56) (at result i) }
{
    let (entry_0, entry_1, entry_2, entry_3) = odd_part(x[0], x[1], x[2], x[3]);
    [entry_0, entry_1, entry_2, entry_3]
}
