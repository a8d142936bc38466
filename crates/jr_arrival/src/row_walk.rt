//! A walk over the MCUs of a row, from a source into a sink.

ghost use Rattle.std.specs.Prelude.{◌≡◌, ◌+◌, ◌*◌, ◌<◌, ◌≤◌};
ghost use Rattle.jr_head.specs.Geometry.{mcus_across, mcus_down, mcus_of};
ghost use Rattle.jr_rows.specs.Cursors.{mcus_to};
ghost use Rattle.jr_arrival.specs.Sources.{HasNoneLeft, Walks};

use crate::mcu_sink::McuSink;
use crate::mcu_source::McuSource;
use jr_head::Head;
use jr_rows::shape_of;

/// Makes MCUs of the row grey, of an interval of which no further one is whole, and returns their number.
fn walk_grey<S: McuSource, K: McuSink>(source: &mut S, head: &Head, sink: &mut K, done: u32) -> u32
    requires at { (S.value source.old).is_at head.now }
    requires within { done < mcus_across head.now }
    requires space { K.has_space head.now sink.old }
    requires none { HasNoneLeft head.now (S.value source.old) }
    ensures space { K.has_space head.now sink.new }
    ensures walks { Walks head.now (S.value source.old) (S.value source.new) K.keeps done result (K.groups sink.old) (K.groups sink.new) }
    ensures some { 0 < result }
{
    head.assert_invariant();
    // By its contract an MCU has a data unit.
    let _some = head.order().len();
    let cursor = source.cursor();
    let left = head.mcus_in(cursor.number) - cursor.mcu;
    let some = left.min(shape_of(head).across - done);
    let grey = sink.fill_grey(head, done, some);
    source.pass_grey(grey);
    grey
}

/// Takes some further MCUs of the row, and returns their number, 0 if the next one is not final.
fn walk_some<S: McuSource, K: McuSink>(source: &mut S, head: &Head, sink: &mut K, done: u32) -> u32
    requires at { (S.value source.old).is_at head.now }
    requires within { done < mcus_across head.now }
    requires space { K.has_space head.now sink.old }
    requires more { mcus_to head.now (S.value source.old).cursor < mcus_of head.now }
    ensures space { K.has_space head.now sink.new }
    ensures walks { Walks head.now (S.value source.old) (S.value source.new) K.keeps done result (K.groups sink.old) (K.groups sink.new) }
    ensures waits { result ≡ 0 → (S.value source.new).waits head.now }
{
    if !source.advance(head) {
        return 0;
    }
    let whole = source.take_some(head, sink, done);
    if whole > 0 {
        return whole;
    }
    if !source.give_up(head) {
        return 0;
    }
    walk_grey(source, head, sink, done)
}

/// Takes the MCUs of a row of MCUs after its first `done`, as far as they are final, and returns their number.
pub(crate) fn walk_row<S: McuSource, K: McuSink>(
    source: &mut S,
    head: &Head,
    sink: &mut K,
    row: u32,
    done: u32,
) -> u32
    requires at { (S.value source.old).is_at head.now }
    requires row { row < mcus_down head.now }
    requires within { done ≤ mcus_across head.now }
    requires before { mcus_to head.now (S.value source.old).cursor ≡ row * mcus_across head.now + done }
    requires space { K.has_space head.now sink.old }
    ensures space { K.has_space head.now sink.new }
    ensures walks { Walks head.now (S.value source.old) (S.value source.new) K.keeps done result (K.groups sink.old) (K.groups sink.new) }
    ensures waits { done + result < mcus_across head.now → (S.value source.new).waits head.now }
{
    let across = shape_of(head).across;
    let mut walked = 0;
    'mcus: while walked < across - done {
        let some = walk_some(source, head, sink, done + walked);
        if some == 0 {
            return walked;
        }
        walked += some;
    }
    walked
}
