//! Looks at a decoding again and again while workers run it.

ghost use Rattle.std.specs.Prelude.{◌≡◌, ◌<◌, ◌≤◌, ℕ, true, length, All, IfOk, IsOk, OnOk};
ghost use Rattle.std.specs.Arc.{arc_value};
ghost use Rattle.jr_base.specs.declared.limits.TheConstants.{MAX_WORKERS};
ghost use Rattle.jr_view.specs.Lookers.{Reports, has_reported};
ghost use Rattle.jr_view.specs.Reported.{IsReported};

use crate::looker::Looker;
use crate::screen::Screen;
use jr_base::Memory;
use jr_scan::Scan;
use jr_wall::{Decoding, Gate, Seat};
use jr_work::Beside;
use std::alloc::Global;
use std::sync::atomic::{AtomicBool, Ordering};
use std::sync::{Arc, Wait};
use std::thread;
use std::thread::{Threads, sleep};
use std::time::{Clock, Duration};

/// What the calling thread needs to look while workers run.
#[derive(Drop)]
struct Looking<'s, 'w, R, S: Screen> {
    rt: &'s R,
    decoding: &'s Decoding,
    /// Whether all workers have ended.
    has_ended: &'s AtomicBool,
    looker: Looker,
    screen: &'w mut S,
}

/// Reports what can be seen at present, and returns whether the screen has nothing left to show.
fn look_and_ask<S: Screen>(decoding: &Decoding, looker: &mut Looker, screen: &mut S) -> bool
    ensures { Reports S.becomes decoding.now.scan looker.old screen.old looker.new screen.new }
{
    looker.look(decoding, screen);
    screen.is_done()
}

/// Looks again and again, a thousandth of a second apart, until all workers have ended or the screen has nothing left to
/// show.
fn look_meanwhile<R: Wait + Clock, S: Screen>(
    rt: &R,
    decoding: &Decoding,
    has_ended: &AtomicBool,
    looker: &mut Looker,
    screen: &mut S,
)
    ensures { Reports S.becomes decoding.now.scan looker.old screen.old looker.new screen.new }
{
    for _ in 0..u64::MAX {
        let is_done = look_and_ask(decoding, looker, screen);
        if is_done || has_ended.load(Ordering::SeqCst) {
            return;
        }
        sleep(rt, Duration::from_millis(1));
    }
}

impl<'s, 'w, R: Wait + Clock, S: Screen> Beside for Looking<'s, 'w, R, S> {
    /// What was reported, and the screen.
    type Answer = (Looker, &'w mut S);

    ghost may = { λ l. Unit };

    ghost returned = { λ l r. Reports S.becomes l.decoding.now.scan l.looker l.screen.now r.0 r.1.now × (r.1.ghost_name ≡ l.screen.ghost_name) };

    fn run(self) -> (Looker, &'w mut S) {
        let Looking {
            rt,
            decoding,
            has_ended,
            mut looker,
            screen,
        } = self;
        look_meanwhile(rt, decoding, has_ended, &mut looker, screen);
        (looker, screen)
    }
}

/// Runs a decoding from a thread of its own, which notes when all workers have ended, and `beside` in the calling one
/// meanwhile. If that thread cannot be started no thread works.
fn run_meanwhile<R: Threads + Wait + Sync, G: Gate + Sync, B: Beside + Drop>(
    rt: &R,
    decoding: &Decoding,
    seats: Vec<Seat>,
    gate: &G,
    has_ended: &AtomicBool,
    beside: B,
) -> B::Answer
    requires seats { All (λ s. s.desk ≡ decoding.now.desk) seats.items }
    requires may { B.may beside }
    ensures { B.returned beside result }
{
    thread::scope(
        thread::scope_env(),
        rt,
        |scope| -> B::Answer
            requires { B.may beside × All (λ s. s.desk ≡ decoding.now.desk) seats.items }
            ensures { B.returned beside result }
        {
            let started = scope.spawn(
                move ||
                    requires { All (λ s. s.desk ≡ decoding.now.desk) seats.items }
                {
                    decoding.run(rt, seats, gate, |_| {});
                    has_ended.store(true, Ordering::SeqCst);
                },
            );
            if started.is_err() {
                has_ended.store(true, Ordering::SeqCst);
            }
            beside.run()
        },
    )
}

/// Runs a decoding, and looks meanwhile. Returns what was reported.
fn run_and_look<R: Threads + Wait + Clock + Sync, G: Gate + Sync, S: Screen>(
    rt: &R,
    decoding: &Decoding,
    seats: Vec<Seat>,
    gate: &G,
    looker: Looker,
    screen: &mut S,
) -> Looker
    requires { All (λ s. s.desk ≡ decoding.now.desk) seats.items }
    ensures { Reports S.becomes decoding.now.scan looker screen.old result screen.new }
{
    let has_ended = AtomicBool::new(false);
    let looking = Looking {
        rt,
        decoding,
        has_ended: &has_ended,
        looker,
        screen,
    };
    let (looker, _screen) = run_meanwhile(rt, decoding, seats, gate, &has_ended, looking);
    looker
}

/// Reports what the workers have left, once they have ended.
fn report_last<S: Screen>(
    alloc: Global,
    decoding: &Decoding,
    looker: &mut Looker,
    screen: &mut S,
) -> Result<(), Memory>
    requires { length looker.old.pieces.items ≡ length decoding.now.scan.intervals }
    ensures reports { Reports S.becomes decoding.now.scan looker.old screen.old looker.new screen.new }
    ensures all { OnOk result ((i : ℕ) → i < length decoding.now.scan.intervals → has_reported looker.new i ≡ true) }
{
    looker.look(decoding, screen);
    looker.report_rest(alloc, decoding.scan(), screen)?;
    screen.is_done();
    Ok(())
}

/// Runs a decoding, and reports all of it to a screen.
fn report_all<R: Threads + Wait + Clock + Sync, G: Gate + Sync, S: Screen>(
    rt: &R,
    alloc: Global,
    decoding: &Decoding,
    seats: Vec<Seat>,
    gate: &G,
    screen: &mut S,
) -> Result<(), Memory>
    requires { All (λ s. s.desk ≡ decoding.now.desk) seats.items }
    ensures { IsReported S.becomes decoding.now.scan (IsOk result) screen.old screen.new }
{
    let looker = Looker::of(alloc, decoding)?;
    let mut looker = run_and_look(rt, decoding, seats, gate, looker, screen);
    report_last(alloc, decoding, &mut looker, screen)?;
    Ok(())
}

/// Decodes a scan with `workers` workers (1 to 64), and meanwhile reports to a screen what can be seen. Returns what is
/// decoded, once all workers have ended and each piece was reported to the screen. The gate is asked and informed as
/// `Decoding::run` does.
///
/// The workers run next to one thread more, which waits for them.
///
/// `Err` if allocation fails.
pub fn watch<R: Threads + Wait + Clock + Sync, G: Gate + Sync, S: Screen>(
    rt: &R,
    alloc: Global,
    scan: Arc<Scan>,
    workers: u32,
    gate: &G,
    screen: &mut S,
) -> Result<Decoding, Memory>
    requires some { 1 ≤ workers }
    requires few { workers ≤ MAX_WORKERS }
    ensures scan { IfOk result (λ d. d.scan ≡ arc_value scan) }
    ensures all { IfOk result (λ d. d.desk.limit ≡ length (arc_value scan).intervals) }
    ensures reported { IsReported S.becomes (arc_value scan) (IsOk result) screen.old screen.new }
{
    let (decoding, seats) = Decoding::open(alloc, scan, workers, None)?;
    report_all(rt, alloc, &decoding, seats, gate, screen)?;
    Ok(decoding)
}
