//! The samples of blocks, made apart from reading them.

ghost use Rattle.std.specs.Prelude.{◌≡◌, ◌+◌, ◌<◌, ◌≤◌, ◌*◌, ◌^◌, ℕ, [], length, slice_index_or};
ghost use Rattle.jr_head.specs.Geometry.{blocks_of};
ghost use Rattle.jr_piece.specs.Outcome.{unit_of};

use crate::unit_sink::UnitSink;
use jr_base::Coefficients;
use jr_head::Head;
use jr_idct::{transform_one, transform_two};

/// Transforms an MCU, and the next one or a part of it. Blocks j of both share a component, and are transformed side by
/// side.
fn transform_mcus<U: UnitSink>(head: &Head, mcu: usize, blocks: &[Coefficients], units: &mut U)
    requires space { U.has_space head.now units.old }
    requires small { mcu + 1 < 2 ^ 64 }
    requires few { length blocks.now ≤ 2 * blocks_of head.now }
    requires inside { mcu * blocks_of head.now + length blocks.now ≤ length (U.units head.now units.old) }
    ensures space { U.has_space head.now units.new }
    ensures count { length (U.units head.now units.new) ≡ length (U.units head.now units.old) }
    ensures kept { (k : ℕ) → k < mcu * blocks_of head.now → slice_index_or (U.units head.now units.new) k [] ≡ slice_index_or (U.units head.now units.old) k [] }
    ensures here { (k : ℕ) → k < length blocks.now → slice_index_or (U.units head.now units.new) (mcu * blocks_of head.now + k) [] ≡ unit_of head.now blocks.now k }
{
    let order = head.order();
    let count = order.len().min(blocks.len());
    for j in 0..count {
        let quantisers = head.quantisers(u32::from(order[j]));
        if count + j < blocks.len() {
            let (first, second) = transform_two(&blocks[j], &blocks[count + j], quantisers);
            units.store(head, mcu, j, &first);
            units.store(head, mcu + 1, j, &second);
        } else {
            units.store(head, mcu, j, &transform_one(&blocks[j], quantisers));
        }
    }
}

/// Transforms blocks that begin with an MCU: data unit k starting at MCU `first` gets the samples of block k, by the quantisers
/// of its component (T.81, A.3.3, A.3.4 and A.3.6). The MCUs before are kept.
///
/// Any thread may transform what another one has read.
pub fn transform_blocks<U: UnitSink>(
    head: &Head,
    first: u32,
    blocks: &[Coefficients],
    units: &mut U,
)
    requires space { U.has_space head.now units.old }
    requires inside { first * blocks_of head.now + length blocks.now ≤ length (U.units head.now units.old) }
    ensures space { U.has_space head.now units.new }
    ensures count { length (U.units head.now units.new) ≡ length (U.units head.now units.old) }
    ensures kept { (k : ℕ) → k < first * blocks_of head.now → slice_index_or (U.units head.now units.new) k [] ≡ slice_index_or (U.units head.now units.old) k [] }
    ensures here { (k : ℕ) → k < length blocks.now → slice_index_or (U.units head.now units.new) (first * blocks_of head.now + k) [] ≡ unit_of head.now blocks.now k }
{
    let two = 2 * head.order().len();
    let mut mcu = first as usize;
    let mut done = 0;
    'mcus: while done < blocks.len() {
        let end = blocks.len().min(done + two);
        transform_mcus(head, mcu, &blocks[done..end], units);
        mcu += 2;
        done = end;
    }
}
