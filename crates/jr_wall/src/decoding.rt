//! One decoding by several workers: what they share, and what is left to do when they have ended.

ghost use Rattle.std.specs.Prelude.{◌≡◌, ◌<◌, ◌≤◌, ◌++◌, ℕ, List, length, map, true, All, Some, IfOk, IfSome};
ghost use Rattle.jr_scan.specs.FirstIntervalsValue.{least};
ghost use Rattle.jr_cells.specs.Values.{fresh};
ghost use Rattle.std.specs.List.{range_with_len};
ghost use Rattle.std.specs.Option.{option_copied};
ghost use Rattle.std.specs.Arc.{arc_value};
ghost use Rattle.std.specs.Fn.{FnOnceReturnsAt};
ghost use Rattle.jr_base.specs.declared.limits.TheConstants.{MAX_WORKERS};
ghost use Rattle.jr_wall.specs.DecodingValue.{strips_at, whole};
ghost use Rattle.jr_wall.specs.Decoded.{IsDecoded};

use crate::board::Board;
use crate::job::Job;
use crate::jobs::Jobs;
use crate::strips::{hang_strip, open_strips};
use crate::sweeping::{sweep, usable};
use crate::workers::{hang, make_piece};
use jr_base::Memory;
use jr_cells::{Cells, Desk, Seat, Sight, StripCells};
use jr_picture::Gate;
use jr_piece::Piece;
use jr_scan::{FirstIntervals, Scan};
use jr_work::OneScan;
use std::alloc::Global;
use std::marker::{Brand, Model};
use std::sync::{Arc, Mutex, Wait};
use std::thread;
use std::thread::Threads;

/// A decoding of a scan's first intervals: the desk that hands them out, the board that keeps the pieces, and the cells
/// that show them, and of long intervals each strip.
///
/// It is opened, run, and finished. Its threads share it: each that has a `&Decoding` may look at the board and into
/// the cells at any moment.
#[derive(Drop)]
pub struct Decoding {
    scan: Arc<Scan>,
    desk: Desk,
    board: Mutex<Board>,
    cells: Cells,
    strips: Vec<Option<StripCells>>,
    alloc: Global,
}

impl Model for Decoding {
    ghost use Rattle.std.specs.Prelude.{◌≤◌, length};
    ghost use Rattle.std.specs.Arc.{arc_value};
    ghost use Rattle.jr_wall.specs.DecodingValue.{DecodingValue, AreNumbered};

    ghost Value = { DecodingValue };

    ghost view = { λ d. record { scan = arc_value d.scan; desk = d.desk; cells = d.cells; strips = d.strips.items } };

    ghost invariant = { λ d. (d.desk.limit ≤ length (arc_value d.scan).intervals) × (d.desk.limit ≤ length d.cells) × (length d.strips.items ≤ length (arc_value d.scan).intervals) × AreNumbered d.strips.items };
}

impl Decoding {
    /// Opens a decoding of a scan's first intervals, or of all, and a seat for each of its workers (1 to 64). `Err` if
    /// allocation fails.
    pub fn open(
        alloc: Global,
        scan: Arc<Scan>,
        workers: u32,
        first: Option<u32>,
    ) -> Result<(Decoding, Vec<Seat>), Memory>
        requires some { 1 ≤ workers }
        requires few { workers ≤ MAX_WORKERS }
        ensures scan { IfOk result (λ r. r.0.scan ≡ arc_value scan) }
        ensures limit { IfOk result (λ r. r.0.desk.limit ≡ least first (length (arc_value scan).intervals)) }
        ensures cells { IfOk result (λ r. length r.0.cells ≡ r.0.desk.limit) }
        ensures seats { IfOk result (λ r. length r.1.items ≡ workers) }
        ensures each { IfOk result (λ r. All (λ s. s.desk ≡ r.0.desk) r.1.items) }
        ensures fresh { IfOk result (λ r. r.1.items ≡ map (fresh r.0.desk) (range_with_len 0 workers)) }
    {
        let all = scan.intervals();
        let limit = match first {
            Some(first) => first.min(all),
            None => all,
        };
        let (desk, seats) = Desk::open(alloc, limit, workers)?;
        let cells = Cells::open(alloc, limit)?;
        let strips = open_strips(alloc, &scan, limit)?;
        let board = Mutex::new(Board::new(alloc, Arc::try_clone(&scan)?)?);
        let decoding = Decoding {
            scan,
            desk,
            board,
            cells,
            strips,
            alloc,
        };
        Ok((decoding, seats))
    }

    /// Returns the scan that is decoded.
    pub fn scan(&self) -> &Scan
        ensures { result.now ≡ self.now.scan }
    {
        &self.scan
    }

    /// Returns the scan as a part that has all intervals.
    fn part(&self) -> FirstIntervals<'_>
        ensures { result ≡ whole self.now.scan }
    {
        FirstIntervals::of(&self.scan, None)
    }

    /// Returns the board that the workers post on.
    pub fn board(&self) -> &Mutex<Board> {
        &self.board
    }

    /// Returns the cells in which the workers publish their pieces.
    pub fn cells(&self) -> &Cells
        ensures { result.now ≡ self.now.cells }
    {
        &self.cells
    }

    /// Returns the cells in which the workers publish the strips of interval i; none if it is decoded as a whole,
    /// being short or without the data.
    pub fn strips(&self, i: u32) -> Option<&StripCells>
        ensures cells { option_copied result ≡ strips_at self.now i }
        ensures number { IfSome result (λ c. c.now.number ≡ i) }
    {
        self.strips.get(i as usize)?.as_ref()
    }

    /// Starts a worker at each seat, calls `beside` in the calling thread meanwhile, and returns its result once all
    /// workers have ended. A worker that cannot be started is left out: `finish` decodes what no worker did.
    ///
    /// Long intervals are shared by all workers, a strip at a time.
    pub fn run<R: Threads + Wait + Sync, G: Gate + Sync, T, F: FnOnce(&Decoding) -> T>(
        &self,
        rt: &R,
        seats: Vec<Seat>,
        gate: &G,
        beside: F,
    ) -> T
        requires seats { All (λ s. s.desk ≡ self.now.desk) seats.items }
        requires beside { F.IsAlwaysCallable beside }
        ensures { FnOnceReturnsAt F.FnOnce beside self.now result }
    {
        run_as::<R, G, T, F, Brand>(self, rt, seats, None, gate, beside)
    }

    /// Starts a worker at each seat but the last one, where the calling thread works: with one seat no thread is started,
    /// and nothing decoded strip by strip.
    pub(crate) fn run_here<R: Threads + Wait + Sync, G: Gate + Sync>(
        &self,
        rt: &R,
        mut seats: Vec<Seat>,
        gate: &G,
    )
        requires { All (λ s. s.desk ≡ self.now.desk) seats.items }
    {
        let own = seats.pop();
        run_as::<R, G, (), _, Brand>(self, rt, seats, own, gate, |_| {});
    }

    /// `run`, with the jobs that the workers share, and a seat for the calling thread.
    fn run_with<
        R: Threads + Wait + Sync,
        G: Gate + Sync,
        T,
        F: FnOnce(&Decoding) -> T,
        S: OneScan + Send,
    >(&self, rt: &R, seats: Vec<Seat>, own: Option<Seat>, gate: &G, jobs: &Jobs<S>, beside: F) -> T
        requires part { S.part ≡ Some (whole self.now.scan) }
        requires seats { All (λ s. s.desk ≡ self.now.desk) seats.items }
        requires own { IfSome own (λ s. s.desk ≡ self.now.desk) }
        requires beside { F.IsAlwaysCallable beside }
        ensures { FnOnceReturnsAt F.FnOnce beside self.now result }
    {
        thread::scope(
            thread::scope_env(),
            rt,
            |scope| -> T
                requires { F.IsAlwaysCallable beside × All (λ s. s.desk ≡ self.now.desk) seats.items × IfSome own (λ s. s.desk ≡ self.now.desk) × (S.part ≡ Some (whole self.now.scan)) }
                ensures { FnOnceReturnsAt F.FnOnce beside self.entry.now result }
            {
                for mut seat in seats {
                    let _ = scope.spawn(
                        move ||
                            requires { (seat.desk ≡ self.now.desk) × (S.part ≡ Some (whole self.now.scan)) }
                        { self.work_with(rt, &mut seat, gate, jobs) },
                    );
                }
                let result = beside(self);
                if let Some(mut seat) = own {
                    self.work_with(rt, &mut seat, gate, jobs);
                }
                result
            },
        )
    }

    /// Works at a seat of its desk until that has ended, as a thread of the caller's own may do. It decodes by itself the
    /// intervals that it claims, long ones strip by strip, and publishes (`hang`) and posts what it has decoded.
    pub fn work<R: Wait, G: Gate>(&self, rt: &R, seat: &mut Seat, gate: &G)
        requires { seat.old.desk ≡ self.now.desk }
        ensures ended { seat.new.ended ≡ true }
        ensures desk { seat.new.desk ≡ seat.old.desk }
        ensures place { seat.new.place ≡ seat.old.place }
        ensures drawn { (rest : List ℕ) × (seat.new.drawn ≡ seat.old.drawn ++ rest) }
    {
        work_as::<R, G, Brand>(self, rt, seat, gate);
    }

    /// Works at a seat of its desk until that has ended, and then helps with the long intervals.
    fn work_with<R: Wait, G: Gate, S: OneScan>(
        &self,
        rt: &R,
        seat: &mut Seat,
        gate: &G,
        jobs: &Jobs<S>,
    )
        requires part { S.part ≡ Some (whole self.now.scan) }
        requires desk { seat.old.desk ≡ self.now.desk }
        ensures ended { seat.new.ended ≡ true }
        ensures desk { seat.new.desk ≡ seat.old.desk }
        ensures place { seat.new.place ≡ seat.old.place }
        ensures drawn { (rest : List ℕ) × (seat.new.drawn ≡ seat.old.drawn ++ rest) }
    {
        let mut sight = self.cells.sight().ok();
        while let Some(number) = self.desk.claim(seat) {
            gate.pass(number);
            if let Some(piece) = self.decode_claimed(rt, number, gate, jobs) {
                self.post(rt, piece, &mut sight);
            }
        }
        self.help(rt, seat.place(), gate, jobs, &mut sight);
    }

    /// Decodes an interval that a worker has claimed, or a part of it.
    fn decode_claimed<R: Wait, G: Gate, S: OneScan>(
        &self,
        rt: &R,
        number: u32,
        gate: &G,
        jobs: &Jobs<S>,
    ) -> Option<Arc<Piece>>
        requires part { S.part ≡ Some (whole self.now.scan) }
        requires number { number < length self.now.scan.intervals }
    {
        if let Some(cells) = self.strips(number)
            && let Some(job) = jobs.claimed(self.alloc, &self.part(), number)
        {
            return self.work_on_job(rt, gate, &job, cells);
        }
        make_piece(self.alloc, &self.scan, number, gate)
    }

    /// Works on what is left of every job, beginning with another one at each seat.
    fn help<R: Wait, G: Gate, S: OneScan>(
        &self,
        rt: &R,
        place: u32,
        gate: &G,
        jobs: &Jobs<S>,
        sight: &mut Option<Sight>,
    )
        requires part { S.part ≡ Some (whole self.now.scan) }
        requires sight { IfSome sight.old (λ s. s.cells ≡ self.now.cells) }
    {
        let count = jobs.count();
        for k in 0..count {
            let number = k.saturating_add(place as usize) % count;
            if let Some(job) = jobs.get(number)
                && let Some(cells) = self.strips(job.interval().number())
                && let Some(piece) = self.work_on_job(rt, gate, job, cells)
            {
                self.post(rt, piece, sight);
            }
        }
    }

    /// Works on a job until nothing of it is left to do. The worker that decodes its last strip gets the piece, which
    /// the gate has seen.
    fn work_on_job<R: Wait, G: Gate, S: OneScan>(
        &self,
        rt: &R,
        gate: &G,
        job: &Job<S>,
        cells: &StripCells,
    ) -> Option<Arc<Piece>>
        requires { S.part ≡ Some (whole self.now.scan) }
    {
        let part = self.part();
        let mut sight = cells.sight().ok();
        for _ in 0..job.interval().mcus() {
            let Some(strip) = job.step(rt, self.alloc, &part) else {
                break;
            };
            hang_strip(cells, strip, &mut sight);
        }
        let piece = job.piece(rt, self.alloc, &part)?;
        gate.made(&piece);
        Arc::new(self.alloc, piece).ok()
    }

    /// Hangs a piece into its cell, and posts it under the lock.
    fn post<R: Wait>(&self, rt: &R, piece: Arc<Piece>, sight: &mut Option<Sight>)
        requires { IfSome sight.old (λ s. s.cells ≡ self.now.cells) }
        ensures { IfSome sight.new (λ s. s.cells ≡ self.now.cells) }
    {
        hang(&self.cells, &piece, sight);
        let _ = self.board.lock(rt).post(piece);
    }

    /// Decodes what is still blank of the first intervals, and returns the board. `Err` if allocation fails.
    pub fn finish(self) -> Result<Board, Memory>
        ensures { IfOk result (λ b. IsDecoded self.scan self.desk.limit b) }
    {
        let Decoding {
            scan,
            desk,
            board,
            cells: _,
            strips: _,
            alloc,
        } = self;
        let n = desk.limit();
        let board = usable(alloc, board.into_inner(), &scan, n)?;
        sweep(alloc, &scan, board, n)
    }
}

/// `run_with`, with the brand `S` of the scan (see `OneScan`).
fn run_as<
    R: Threads + Wait + Sync,
    G: Gate + Sync,
    T,
    F: FnOnce(&Decoding) -> T,
    S: OneScan + Send,
>(decoding: &Decoding, rt: &R, seats: Vec<Seat>, own: Option<Seat>, gate: &G, beside: F) -> T
    requires part { S.part ≡ Some (whole decoding.now.scan) }
    requires seats { All (λ s. s.desk ≡ decoding.now.desk) seats.items }
    requires own { IfSome own (λ s. s.desk ≡ decoding.now.desk) }
    requires beside { F.IsAlwaysCallable beside }
    ensures { FnOnceReturnsAt F.FnOnce beside decoding.now result }
{
    let is_alone = own.is_some() && seats.is_empty();
    let workers = seats.len().saturating_add(usize::from(own.is_some()));
    let jobs: Jobs<S> = if is_alone {
        Jobs::Whole
    } else {
        Jobs::shared(
            decoding.alloc,
            &decoding.part(),
            decoding.strips.as_slice(),
            workers,
        )
    };
    decoding.run_with(rt, seats, own, gate, &jobs, beside)
}

/// `work_with`, with the brand `S` of the scan.
fn work_as<R: Wait, G: Gate, S: OneScan>(decoding: &Decoding, rt: &R, seat: &mut Seat, gate: &G)
    requires part { S.part ≡ Some (whole decoding.now.scan) }
    requires desk { seat.old.desk ≡ decoding.now.desk }
    ensures ended { seat.new.ended ≡ true }
    ensures desk { seat.new.desk ≡ seat.old.desk }
    ensures place { seat.new.place ≡ seat.old.place }
    ensures drawn { (rest : List ℕ) × (seat.new.drawn ≡ seat.old.drawn ++ rest) }
{
    let jobs: Jobs<S> = Jobs::Own;
    decoding.work_with(rt, seat, gate, &jobs);
}
