//! The tables of the zigzag order (T.81, A.3.6).

ghost use Rattle.std.specs.Prelude.{◌≡◌, ◌<◌};
ghost use Rattle.jr_base.specs.Zigzag.{natural_index, zigzag_place};

/// The natural index, `8 row + column`, of each zigzag index.
static NATURAL_INDEXES: [u8; 64] = [
    0, 1, 8, 16, 9, 2, 3, 10, 17, 24, 32, 25, 18, 11, 4, 5, 12, 19, 26, 33, 40, 48, 41, 34, 27, 20,
    13, 6, 7, 14, 21, 28, 35, 42, 49, 56, 57, 50, 43, 36, 29, 22, 15, 23, 30, 37, 44, 51, 58, 59,
    52, 45, 38, 31, 39, 46, 53, 60, 61, 54, 47, 55, 62, 63,
];

/// Returns the natural index of a zigzag index.
#[inline(always)]
pub(crate) fn natural_at(index: usize) -> usize
    requires { index < 64 }
    ensures value { result ≡ natural_index index }
    ensures below { result < 64 }
{
    NATURAL_INDEXES[index] as usize
}

/// The zigzag index of each natural index.
static PLACES: [u8; 64] = [
    0, 1, 5, 6, 14, 15, 27, 28, 2, 4, 7, 13, 16, 26, 29, 42, 3, 8, 12, 17, 25, 30, 41, 43, 9, 11,
    18, 24, 31, 40, 44, 53, 10, 19, 23, 32, 39, 45, 52, 54, 20, 22, 33, 38, 46, 51, 55, 60, 21, 34,
    37, 47, 50, 56, 59, 61, 35, 36, 48, 49, 57, 58, 62, 63,
];

/// Returns the zigzag index of natural index n.
pub fn place_at(n: usize) -> usize
    requires { n < 64 }
    ensures value { result ≡ zigzag_place n }
    ensures below { result < 64 }
{
    PLACES[n] as usize
}
