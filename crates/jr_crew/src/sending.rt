//! What the threads of a crew do: the calling one writes, and the others decode.

ghost use Rattle.std.specs.Prelude.{◌≡◌, ◌*◌, ◌≤◌, length, false, IfSome, IfNone};
ghost use Rattle.jr_base.specs.Tally.{has_failed};
ghost use Rattle.jr_head.specs.Geometry.{vertical_max};
ghost use Rattle.jr_paint.specs.Lines.{line_size};
ghost use Rattle.jr_paint.specs.declared.header.TheConstants.{HEADER_SPACE};
ghost use Rattle.jr_rows.specs.Stream.{IsSentBy};

use crate::caller::Caller;
use crate::crew::Crew;
use crate::paint_space::PaintSpace;
use jr_base::{Tally, WriteFault};
use jr_picture::Gate;
use jr_rows::{Marked, write_rows};
use jr_work::tuning::MAX_TASKS;
use jr_work::{Beside, Help, OneScan};
use std::io::Write;
use std::sync::Wait;

/// Writes what the worker pool paints, in the calling thread, with its memory.
fn send<R: Wait, W: Write, G: Gate, S: OneScan>(
    crew: &Crew<'_, S>,
    rt: &R,
    gate: &G,
    space: PaintSpace<S>,
    pixels: Vec<u8>,
    out: &mut Tally<W>,
) -> Result<Marked, WriteFault>
    requires unfailed { has_failed out.old ≡ false }
    requires pixels { 8 * vertical_max crew.now.scan.head * line_size crew.now.scan.head ≤ length pixels.items }
    requires header { HEADER_SPACE ≤ length pixels.items }
    ensures { IsSentBy W.contents crew.now out.old out.new result }
{
    let scan = crew.part().scan();
    // By their contracts a scan has the number of intervals that its header says, and no more are decoded.
    let _counts = (scan.intervals(), crew.part().limit());
    let mut pixels = pixels;
    let mut caller = Caller::of(crew, rt, gate, space);
    let sent = write_rows(scan.head(), &mut caller, &mut pixels, out);
    drop(caller);
    sent
}

/// What another thread needs to decode and paint rows.
#[derive(Drop)]
pub(crate) struct Helping<'s, 'a, R: Wait, G: Gate, S: OneScan> {
    pub(crate) crew: &'s Crew<'a, S>,
    pub(crate) rt: &'s R,
    pub(crate) gate: &'s G,
}

impl<'s, 'a, R: Wait, G: Gate, S: OneScan> Help for Helping<'s, 'a, R, G, S> {
    /// Allocates memory of its own, then reads and paints rows until none is left. If allocation
    /// fails, the others work without this thread.
    fn help(&self) {
        let (crew, rt, gate) = (self.crew, self.rt, self.gate);
        let Ok(mut space) = crew.prepare(rt, gate) else {
            return;
        };
        for _ in 0..MAX_TASKS {
            let Some(task) = crew.task(rt) else {
                return;
            };
            crew.run(rt, gate, task, &mut space);
        }
    }
}

/// What the calling thread needs to write rows.
#[derive(Drop)]
pub(crate) struct Sending<'s, 'w, 'a, R: Wait, W: Write, G: Gate, S: OneScan> {
    pub(crate) crew: &'s Crew<'a, S>,
    pub(crate) rt: &'s R,
    pub(crate) gate: &'s G,
    /// Number of row buffers that are the calling thread's own.
    pub(crate) buffers: u32,
    pub(crate) out: &'w mut Tally<W>,
}

impl<'s, 'w, 'a, R: Wait, W: Write, G: Gate, S: OneScan> Beside
    for Sending<'s, 'w, 'a, R, W, G, S> {
    /// The result, `None` if allocation failed, and the writer.
    type Answer = (Option<Result<Marked, WriteFault>>, &'w mut Tally<W>);

    ghost may = { λ s. has_failed s.out.now ≡ false };

    ghost returned = { λ s r. IfSome r.0 (IsSentBy W.contents s.crew.now s.out.now r.1.now) × IfNone r.0 (r.1.now ≡ s.out.now) × (r.1.ghost_name ≡ s.out.ghost_name) };

    fn run(self) -> (Option<Result<Marked, WriteFault>>, &'w mut Tally<W>) {
        let Sending {
            crew,
            rt,
            gate,
            buffers,
            out,
        } = self;
        let sent = match crew.begin(rt, buffers) {
            Ok((space, pixels)) => Some(send(crew, rt, gate, space, pixels, out)),
            Err(_) => None,
        };
        crew.end(rt);
        (sent, out)
    }
}
