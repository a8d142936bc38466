//! The position of a sample among the data units of an image (T.81, A.2).

ghost use Rattle.std.specs.Prelude.{◌≡◌, ℕ, ◌+◌, ◌*◌, ◌<◌, ◌≤◌};
ghost use Rattle.jr_base.specs.declared.limits.TheConstants.{MAX_MCUS_ACROSS};
ghost use Rattle.jr_head.specs.Geometry.{IsValid, components_of, horizontal_of, vertical_of, mcus_of, blocks_before, blocks_of};
ghost use Rattle.jr_paint.specs.Geometry.{Place, Where, IsOnlyOne, samples_across, samples_down, place_of, spot_at};

use jr_head::Head;

/// A sample's MCU, its data unit in that MCU, and its row and column in that data unit.
#[derive(Clone, Copy, PartialEq, Eq)]
pub struct Spot {
    /// The MCU's number in reading order, from 0.
    pub mcu: u32,
    /// The data unit's number in the MCU, over all components in frame order.
    pub block: u32,
    /// 0 to 7, from the top.
    pub row: u32,
    /// 0 to 7, from the left.
    pub col: u32,
}

/// States that there is exactly one position for each sample of a component with these sampling factors.
pub fn exactly_one_place()
    ensures { (across down x y : ℕ) → 0 < across → 0 < down → IsOnlyOne (Where across down x y) }
{}

/// Returns the number of the MCU in this line and column, if a line has `columns` MCUs.
fn mcu_number(line: u32, column: u32, columns: u32) -> u32
    requires line { line < 65536 }
    requires column { column < 65536 }
    requires columns { columns ≤ MAX_MCUS_ACROSS }
    ensures { result ≡ line * columns + column }
{
    line * columns + column
}

/// Returns the number of data units of an MCU before those of component c.
fn earlier_blocks(head: &Head, c: u32) -> u32
    requires valid { IsValid head.now }
    requires component { c < components_of head.now }
    ensures value { result ≡ blocks_before head.now c }
    ensures few { result ≤ 10 }
{
    let mut sum = 0;
    for j in 0..c {
        sum += head.horizontal(j) * head.vertical(j);
    }
    sum
}

/// Returns the position of the sample in column x and line y of component c.
pub fn place(head: &Head, c: u32, x: u32, y: u32) -> Spot
    requires component { c < components_of head.now }
    requires column { x < samples_across head.now c }
    requires line { y < samples_down head.now c }
    ensures closed { result ≡ spot_at head.now c (place_of (horizontal_of head.now c) (vertical_of head.now c) x y) }
    ensures lies { Where (horizontal_of head.now c) (vertical_of head.now c) x y (place_of (horizontal_of head.now c) (vertical_of head.now c) x y) }
    ensures mcu { result.mcu < mcus_of head.now }
    ensures block { result.block < blocks_of head.now }
{
    head.assert_invariant();
    let across = head.horizontal(c);
    let down = head.vertical(c);
    let mcu = mcu_number(y / (8 * down), x / (8 * across), head.mcus_across());
    let block = earlier_blocks(head, c) + y % (8 * down) / 8 * across + x % (8 * across) / 8;
    Spot {
        mcu,
        block,
        row: y % 8,
        col: x % 8,
    }
}
