//! The quality by which libjpeg scales the luminance table of T.81, K.1.

ghost use Rattle.std.specs.Prelude.{◌≡◌, ◌<◌, ◌≤◌, ℕ, IfSome, IfNone, length, slice_index, true, false};
ghost use Rattle.jri_words.specs.Quality.{HasQuality, IsScaled, IsScaledTable, luminance, percent};

use jr_head::Head;

/// The luminance table of K.1, in zigzag order (T.81, A.3.6).
static LUMINANCE: [u8; 64] = [
    16, 11, 12, 14, 12, 10, 16, 14, 13, 14, 18, 17, 16, 19, 24, 40, 26, 24, 22, 22, 24, 49, 35, 37,
    29, 40, 58, 51, 61, 60, 57, 51, 56, 55, 64, 72, 92, 78, 64, 68, 87, 69, 55, 56, 80, 109, 81,
    87, 95, 98, 103, 104, 103, 62, 77, 113, 121, 112, 100, 120, 92, 101, 103, 99,
];

/// The greatest quality.
const MAX_QUALITY: u32 = 100;

/// Returns an element of the luminance table of K.1.
fn luminance_at(k: usize) -> u8
    requires { k < 64 }
    ensures { result ≡ slice_index luminance k }
{
    LUMINANCE[k]
}

/// Returns the percentage by which a quality scales the table.
fn percent_of(quality: u32) -> u32
    requires some { 1 ≤ quality }
    requires few { quality ≤ 100 }
    ensures value { result ≡ percent quality }
    ensures few { result ≤ 5000 }
{
    if quality < 50 {
        5000 / quality
    } else {
        200 - 2 * quality
    }
}

/// Returns whether an element of a file's table is one of K.1 that is scaled, or 255 if that were greater.
fn is_scaled(element: u16, unscaled: u8, percentage: u32) -> bool
    requires { percentage ≤ 5000 }
    ensures yes { result ≡ true → IsScaled percentage unscaled element }
    ensures no { result ≡ false → IsScaled percentage unscaled element → ⊥ }
{
    let scaled = ((u32::from(unscaled) * percentage + 50) / 100).max(1);
    u32::from(element) == scaled || (element == 255 && scaled > 255)
}

/// Returns whether a file's table is that of K.1, scaled.
fn is_scaled_table(table: &[u16; 64], percentage: u32) -> bool
    requires { percentage ≤ 5000 }
    ensures yes { result ≡ true → IsScaledTable percentage table.now }
    ensures no { result ≡ false → IsScaledTable percentage table.now → ⊥ }
{
    for k in 0..64 {
        if !is_scaled(table[k], luminance_at(k), percentage) {
            return false;
        }
    }
    true
}

/// Returns the least quality, 1 to 100, by which libjpeg scales the luminance table of T.81, K.1, to the table of the
/// first component; `None` if there is none.
pub fn quality_of(head: &Head) -> Option<u32>
    ensures some { IfSome result (HasQuality head.now) }
    ensures none { IfNone result ((q : ℕ) → 1 ≤ q → q ≤ 100 → HasQuality head.now q → ⊥) }
    ensures within { IfSome result (λ q. (1 ≤ q) × (q ≤ 100)) }
    ensures least { IfSome result (λ q. (lower : ℕ) → 1 ≤ lower → lower < q → HasQuality head.now lower → ⊥) }
{
    head.assert_invariant();
    let table = head.quantiser(0);
    for lower in 0..MAX_QUALITY {
        let quality = lower + 1;
        if is_scaled_table(table, percent_of(quality)) {
            return Some(quality);
        }
    }
    None
}
