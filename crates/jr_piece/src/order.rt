//! Whether strips are all of an interval, in order.

ghost use Rattle.std.specs.Prelude.{◌≡◌, ◌↔◌, ◌<◌, IsTrue};
ghost use Rattle.std.specs.List.{All};
ghost use Rattle.jr_piece.specs.Strips.{AreInOrder, IsStrip, mcus_of_each, shared_strips};

use crate::strip::Strip;
use std::sync::Arc;

/// Returns the number of MCUs of the first strip, 1 if there is none.
pub(crate) fn mcus_of_each(strips: &[Arc<Strip>]) -> u32
    ensures { result ≡ mcus_of_each (shared_strips strips.now) }
{
    match strips.first() {
        None => 1,
        Some(strip) => strip.mcus(),
    }
}

/// Returns whether a strip has these MCUs, one at least.
fn has_mcus(strip: &Strip, first: u32, mcus: u32) -> bool
    ensures { IsTrue result ↔ ((0 < strip.now.mcus) × (strip.now.first ≡ first) × (strip.now.mcus ≡ mcus)) }
{
    strip.mcus() > 0 && strip.first() == first && strip.mcus() == mcus
}

/// Returns whether strips follow one another from MCU 0 to MCU `front`, all but the last of equally many MCUs.
pub(crate) fn are_in_order(strips: &[Arc<Strip>], front: u32) -> bool
    ensures order { IsTrue result ↔ AreInOrder front (shared_strips strips.now) }
    ensures strips { IsTrue result → All IsStrip (shared_strips strips.now) }
{
    let each = mcus_of_each(strips);
    let mut end = 0;
    'strips: for k in 0..strips.len() {
        let strip = &strips[k];
        strip.assert_invariant();
        let mcus = each.min(front - end);
        if !has_mcus(strip, end, mcus) {
            return false;
        }
        end += mcus;
    }
    end == front
}
