//! The samples of the data units of a piece.

ghost use Rattle.std.specs.Prelude.{◌≡◌, ◌<◌, ◌^◌, slice_get};
ghost use Rattle.std.specs.Option.{option_copied};
ghost use Rattle.jr_piece.specs.Strips.{shared_strips};
ghost use Rattle.jr_piece.specs.DataUnits.{AreEven, units_of_strips};

use crate::strip::Strip;
use std::marker::Model;
use std::sync::Arc;

/// The storage of the samples of data units.
#[derive(Drop)]
enum Held {
    /// One list.
    InList(Vec<[u8; 64]>),
    /// Strips of this number of data units each but the last, which may have fewer.
    InStrips(Vec<Arc<Strip>>, usize),
}

/// The samples of data units that follow one another, each `8 row + column`.
#[derive(Drop)]
pub(crate) struct DataUnits {
    held: Held,
}

impl Model for DataUnits {
    ghost use Rattle.std.specs.Prelude.{ℕ, List};

    ghost Value = { List (List ℕ) };

    ghost use Rattle.jr_piece.specs.DataUnits.{AreFound, units_held};

    ghost view = { λ u. units_held u.held };

    ghost invariant = { λ u. AreFound u.held };
}

/// Returns data unit k of strips of `each` data units but for the last.
fn get_of(strips: &[Arc<Strip>], each: usize, k: usize) -> Option<&[u8; 64]>
    requires few { k < 2 ^ 32 }
    requires some { 0 < each }
    requires even { AreEven each (shared_strips strips.now) }
    ensures { option_copied result ≡ slice_get (units_of_strips (shared_strips strips.now)) k }
{
    match strips.get(k / each) {
        None => None,
        Some(strip) => strip.block((k % each) as u32),
    }
}

impl DataUnits {
    /// Returns the data units of one list.
    pub(crate) fn of_list(units: Vec<[u8; 64]>) -> DataUnits
        ensures { result ≡ units.items }
    {
        DataUnits {
            held: Held::InList(units),
        }
    }

    /// Makes the data units of strips of `each` data units but for the last, which may have fewer.
    pub(crate) fn of_strips(strips: Vec<Arc<Strip>>, each: usize) -> DataUnits
        requires some { 0 < each }
        requires even { AreEven each (shared_strips strips.items) }
        ensures { result ≡ units_of_strips (shared_strips strips.items) }
    {
        DataUnits {
            held: Held::InStrips(strips, each),
        }
    }

    /// Data unit k; none past the last.
    pub(crate) fn get(&self, k: u32) -> Option<&[u8; 64]>
        ensures { option_copied result ≡ slice_get self.now k }
    {
        match &self.held {
            Held::InList(units) => units.get(k as usize),
            Held::InStrips(strips, each) => get_of(strips.as_slice(), *each, k as usize),
        }
    }
}
