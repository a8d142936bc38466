//! A scan's image, decoded and painted by several threads, and written in one pass.

ghost use Rattle.std.specs.Prelude.{◌≡◌, ◌<◌, ◌≤◌, Some, IfOk, OnOk, length, true, false};
ghost use Rattle.jr_base.specs.Tally.{has_failed};
ghost use Rattle.jr_base.specs.declared.limits.TheConstants.{MAX_WORKERS};
ghost use Rattle.jr_scan.specs.FirstIntervalsValue.{least};
ghost use Rattle.jr_picture.specs.Writing.{WritesPicture, BeginsPicture};

use crate::crew::Crew;
use crate::crew_size::crew_size;
use crate::row_buffer::Painted;
use crate::row_work::RowWork;
use crate::sending::{Helping, Sending};
use jr_base::{Memory, Tally};
use jr_picture::{Counts, Gate, PictureError};
use jr_rows::{counts_of, intervals_of_row, shape_of, write_scan};
use jr_scan::{FirstIntervals, Scan};
use jr_work::tuning::{
    MAX_COUNTED, MIN_MCUS_OF_BUFFER, MIN_READERS, MIN_READS, READS_OF_ROW_WORKER,
    ROW_BUFFERS_OF_WORKER, SPARE_PART_OF_BUFFER,
};
use jr_work::{BufferSize, OneScan, SpeculationQueue, WorkQueue, run_beside, windows_of};
use std::alloc::Global;
use std::io::Write;
use std::marker::Brand;
use std::sync::Wait;
use std::thread::Threads;

/// Allocates `count` slots for painted rows, at least one.
fn open_slots<S: OneScan>(alloc: Global, count: u32) -> Result<Vec<Option<Painted<S>>>, Memory>
    ensures { IfOk result (λ v. 0 < length v.items) }
{
    let Ok(mut slots) = Vec::with_capacity(alloc, count as usize) else {
        return Err(Memory);
    };
    slots.push(None)?;
    for _ in 1..count {
        slots.push(None)?;
    }
    Ok(slots)
}

/// Returns the maximum number of speculative reads that are kept for `count` row buffers: none if rows are whole intervals,
/// which are read apart, or if there are few threads or few data, and no more than the data of the longest interval
/// have bits for.
fn speculations_of(part: &FirstIntervals<'_>, count: u32) -> u32 {
    let scan = part.scan();
    if intervals_of_row(scan.head()).is_some() || count < MIN_READERS * ROW_BUFFERS_OF_WORKER {
        return 0;
    }
    let mut most: u64 = 0;
    for i in 0..part.limit().min(MAX_COUNTED) {
        most = windows_of(scan, i).max(most);
    }
    if most < MIN_READS {
        return 0;
    }
    let all = (count / ROW_BUFFERS_OF_WORKER).saturating_mul(READS_OF_ROW_WORKER);
    most.min(u64::from(all)) as u32
}

/// Returns the number of MCUs of a buffer for speculative reads: more than a row has, since one has about the bits of a
/// row, or a minimum if that is more.
fn mcus_of_speculation(scan: &Scan) -> u32 {
    // By its contract a scan has an interval.
    let _some = scan.intervals();
    let across = shape_of(scan.head()).across;
    let rows = scan.interval_ref(0).mcus() / across.max(1);
    let most = across + across / SPARE_PART_OF_BUFFER;
    if u64::from(rows) <= windows_of(scan, 0) {
        most
    } else {
        most.max(MIN_MCUS_OF_BUFFER)
    }
}

/// Opens a queue of at most `speculations` speculative reads. A step of the reader is a row of MCUs.
fn open_speculations<S: OneScan>(
    alloc: Global,
    part: &FirstIntervals<'_>,
    speculations: u32,
) -> Result<SpeculationQueue<S>, Memory> {
    let across = shape_of(part.scan().head()).across;
    let size = BufferSize {
        mcus: mcus_of_speculation(part.scan()),
        keeps_blocks: true,
    };
    SpeculationQueue::open(alloc, part, 0, part.limit(), speculations, across, size)
}

/// Opens a queue of `count` row buffers, of which the calling thread brings `own`.
fn open_queue<S: OneScan>(
    alloc: Global,
    part: &FirstIntervals<'_>,
    count: u32,
    own: u32,
) -> Result<WorkQueue<S, RowWork<S>>, Memory> {
    let Ok(painted) = open_slots(alloc, count) else {
        return Err(Memory);
    };
    let Ok(speculations) = open_speculations(alloc, part, speculations_of(part, count)) else {
        return Err(Memory);
    };
    let Ok(work) = RowWork::open(alloc, count, count.saturating_sub(own), painted) else {
        return Err(Memory);
    };
    let mut queue = WorkQueue::of(alloc, speculations, work);
    if queue.reserve(count as usize).is_err() {
        drop(queue);
        return Err(Memory);
    }
    Ok(queue)
}

/// `write_scan_by`, with the brand `S` of the scan (see `OneScan`).
fn write_as<R: Threads + Wait + Sync, W: Write, G: Gate + Sync, S: OneScan + Send>(
    rt: &R,
    alloc: Global,
    part: FirstIntervals<'_>,
    workers: u32,
    gate: &G,
    out: &mut Tally<W>,
) -> Result<Counts, PictureError>
    requires part { S.part ≡ Some part }
    requires unfailed { has_failed out.old ≡ false }
    requires some { 1 ≤ workers }
    requires few { workers ≤ MAX_WORKERS }
    ensures painted { IfOk result (λ c. WritesPicture W.contents out.old out.new part.entry.scan part.entry.limit c) }
    ensures begun { result ≡ Err PictureError.Write → BeginsPicture W.contents out.old out.new part.entry.scan part.entry.limit }
    ensures memory { result ≡ Err PictureError.Memory → out.new ≡ out.old }
    ensures written { OnOk result (has_failed out.new ≡ false) }
    ensures write { result ≡ Err PictureError.Write → has_failed out.new ≡ true }
{
    let (scan, limit) = (part.scan(), part.limit());
    let rows = scan.head().mcus_down();
    let workers = workers.min(rows);
    let buffers = rows.min(ROW_BUFFERS_OF_WORKER * workers);
    let own = buffers.min(ROW_BUFFERS_OF_WORKER);
    let Ok(queue) = open_queue::<S>(alloc, &part, buffers, own) else {
        return Err(PictureError::Memory);
    };
    let crew = &Crew::of(alloc, part, queue);
    let helping = Helping { crew, rt, gate };
    let sending = Sending {
        crew,
        rt,
        gate,
        buffers: own,
        out,
    };
    let (sent, _out) = run_beside(rt, workers - 1, &helping, sending);
    match sent {
        Some(Ok(marked)) => Ok(counts_of(scan, limit, marked)),
        Some(Err(_)) => Err(PictureError::Write),
        None => Err(PictureError::Memory),
    }
}

/// Decodes the first intervals of a scan, or all, with `workers` workers (1 to 64), and writes its image, a row of MCUs
/// after the other. The calling thread is one of them, and writes. No more threads work than there are rows, and than
/// `FREE_BYTES` and `BYTES_PER_DATA_BYTE` for each byte of data suffice for. Each interval that is decoded is reported to
/// the gate; no piece is made.
///
/// The calling thread allocates all memory that it needs before the first row is decoded, and none for the image: for
/// the lines of a row of MCUs and of `ROW_BUFFERS_OF_WORKER` more, and to decode and paint. Each other thread allocates
/// as much as it starts; if that fails, it works with less or not at all. If speculative reads are made, a thread that
/// has nothing else to do brings a buffer for one, `READS_OF_ROW_WORKER` for each thread at most: the blocks of a row's
/// MCUs and of `SPARE_PART_OF_BUFFER`, or of `MIN_MCUS_OF_BUFFER` if a row may have fewer bits than a speculative read. A
/// row that waits to be painted uses memory for its blocks, which stays with its row buffer; if allocation fails, the
/// row is painted before the next one is read. Once the last row has begun, threads that have nothing else to do free
/// what no thread needs any more, and end.
///
/// If a row has whole intervals, each worker decodes and paints its rows by itself. Otherwise one at a time has the
/// reader. With `MIN_READERS` workers and more, if an interval has bits for `MIN_READS` speculative reads, the others
/// read ahead speculatively. A row that these reads cover is skipped; with a copy of the reader at its start the row
/// waits for a free thread, and is decoded and painted some MCUs at a time. A row that none covers is read in turn, and
/// painted by a free thread.
pub fn write_scan_by<R: Threads + Wait + Sync, W: Write, G: Gate + Sync>(
    rt: &R,
    alloc: Global,
    scan: &Scan,
    workers: u32,
    first: Option<u32>,
    gate: &G,
    out: &mut Tally<W>,
) -> Result<Counts, PictureError>
    requires unfailed { has_failed out.old ≡ false }
    requires some { 1 ≤ workers }
    requires few { workers ≤ MAX_WORKERS }
    ensures painted { IfOk result (λ c. WritesPicture W.contents out.old out.new scan.now (least first (length scan.now.intervals)) c) }
    ensures begun { result ≡ Err PictureError.Write → BeginsPicture W.contents out.old out.new scan.now (least first (length scan.now.intervals)) }
    ensures memory { result ≡ Err PictureError.Memory → out.new ≡ out.old }
    ensures written { OnOk result (has_failed out.new ≡ false) }
    ensures write { result ≡ Err PictureError.Write → has_failed out.new ≡ true }
{
    let part = FirstIntervals::of(scan, first);
    let workers = crew_size(&part, workers, ROW_BUFFERS_OF_WORKER);
    if workers == 1 {
        return write_scan(alloc, scan, first, gate, out);
    }
    write_as::<R, W, G, Brand>(rt, alloc, part, workers, gate, out)
}
