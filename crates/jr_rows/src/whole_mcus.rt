//! Whole MCUs of an interval, decoded after those that a row has: each as soon as its data are there.

ghost use Rattle.std.specs.Prelude.{◌≡◌, ◌+◌, ◌*◌, ◌<◌, ◌≤◌, ◌++◌, ℕ, ℤ, List, [], length, take, slice_index_or};
ghost use Rattle.jr_head.specs.Geometry.{blocks_of, mcus_across};
ghost use Rattle.jr_scan.specs.McuReader.{HasEnded, HasRead};
ghost use Rattle.jr_piece.specs.Units.{grey_unit};
ghost use Rattle.jr_rows.specs.Groups.{units_in};
ghost use Rattle.jr_rows.specs.RowLines.{HasLines, mcus_at_once};
ghost use Rattle.jr_rows.specs.WholeMcus.{DecodesMcus};

use crate::row_lines::RowLines;
use crate::shape::{mcus_at_once, shape_of, units_to};
use jr_base::Coefficients;
use jr_head::Head;
use jr_piece::transform_blocks;
use jr_scan::{McuReader, zero_from};

/// Reads the whole MCUs that follow into blocks, at most `most`. Returns their number.
fn read_whole(
    head: &Head,
    reader: &mut McuReader<'_>,
    most: u32,
    blocks: &mut [Coefficients],
) -> u32
    requires head { reader.old.run.interval.head ≡ head.now }
    requires some { 0 < most }
    requires space { length blocks.old ≡ most * blocks_of head.now }
    ensures run { reader.new.run ≡ reader.old.run }
    ensures mcu { reader.new.mcu ≡ reader.old.mcu + result }
    ensures few { result ≤ most }
    ensures fits { result * blocks_of head.now ≤ length blocks.new }
    ensures read { (zs : List (List ℤ)) → HasRead reader.old zs → HasRead reader.new (zs ++ take (result * blocks_of head.now) blocks.new) }
    ensures none { result ≡ 0 → HasEnded reader.new }
{
    // By its contract an MCU has a data unit.
    let _some = head.order().len();
    reader.read(blocks)
}

/// Decodes the next whole MCUs of a reader after the first `done` of a row: as many as follow, as are left of the row
/// and as fit into `blocks`. Returns their number.
pub(crate) fn decode_whole(
    head: &Head,
    reader: &mut McuReader<'_>,
    done: u32,
    blocks: &mut [Coefficients],
    lines: &mut RowLines,
) -> u32
    requires head { reader.old.run.interval.head ≡ head.now }
    requires within { done < mcus_across head.now }
    requires near { length blocks.old ≡ mcus_at_once head.now * blocks_of head.now }
    requires space { HasLines head.now lines.old }
    ensures space { HasLines head.now lines.new }
    ensures run { reader.new.run ≡ reader.old.run }
    ensures mcu { reader.new.mcu ≡ reader.old.mcu + result }
    ensures few { done + result ≤ mcus_across head.now }
    ensures kept { (k : ℕ) → k < done * blocks_of head.now → slice_index_or (units_in head.now lines.new.groups) k [] ≡ slice_index_or (units_in head.now lines.old.groups) k [] }
    ensures decoded { DecodesMcus reader.old reader.new done result (units_in head.now lines.new.groups) }
    ensures none { result ≡ 0 → HasEnded reader.new }
{
    let per_mcu = head.order().len();
    let at_once = mcus_at_once(head);
    let most = at_once.min(shape_of(head).across - done);
    let space = units_to(most, at_once, per_mcu);
    let whole = read_whole(head, reader, most, &mut blocks[..space]);
    let read = units_to(whole, at_once, per_mcu);
    transform_blocks(head, done, &blocks[..read], lines);
    whole
}

/// Makes MCUs of a row after the first `done` grey: as many as are asked for, and as fit into `blocks`. Returns their
/// number.
pub(crate) fn write_grey(
    head: &Head,
    done: u32,
    mcus: u32,
    blocks: &mut [Coefficients],
    lines: &mut RowLines,
) -> u32
    requires some { 0 < mcus }
    requires within { done + mcus ≤ mcus_across head.now }
    requires near { length blocks.old ≡ mcus_at_once head.now * blocks_of head.now }
    requires space { HasLines head.now lines.old }
    ensures space { HasLines head.now lines.new }
    ensures some { 0 < result }
    ensures few { result ≤ mcus }
    ensures kept { (k : ℕ) → k < done * blocks_of head.now → slice_index_or (units_in head.now lines.new.groups) k [] ≡ slice_index_or (units_in head.now lines.old.groups) k [] }
    ensures grey { (k : ℕ) → k < result * blocks_of head.now → slice_index_or (units_in head.now lines.new.groups) (done * blocks_of head.now + k) [] ≡ grey_unit }
{
    let at_once = mcus_at_once(head);
    let some = at_once.min(mcus);
    let blocks = &mut blocks[..units_to(some, at_once, head.order().len())];
    zero_from(blocks, 0);
    transform_blocks(head, done, blocks, lines);
    some
}
