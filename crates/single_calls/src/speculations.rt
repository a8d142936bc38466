//! The number of MCUs of a file that speculative reads have, and the number of these reads that come into step with it.

ghost use Rattle.std.specs.Prelude.{◌≡◌, ◌<◌, length};
ghost use Rattle.jr_scan.specs.Speculation.{IsSpeculationOf};

use jr_scan::{McuReader, Scan, Speculation};
use jr_work::windows_of;
use std::alloc::Global;
use std::io::Write;

/// The number of MCUs that fit into a speculative read.
const MAX_MCUS: u32 = 4096;

/// The use of speculative reads if a reader reads all intervals of a file with them, one after the other.
#[derive(Clone, Copy)]
pub(crate) struct SpeculationCounts {
    /// The number of speculative reads that are made.
    speculations: u32,
    /// The number of those of which the reader takes an MCU over.
    in_step: u32,
    /// The number of MCUs that it takes over.
    taken_over: u32,
    /// The number of MCUs that it reads itself.
    read: u32,
}

/// Skips the next MCU, and returns whether a speculative read had it. `None` if no whole one follows.
fn pass(reader: &mut McuReader<'_>, speculation: &Speculation) -> Option<bool>
    requires same { IsSpeculationOf reader.old.run.interval speculation.now }
    ensures run { reader.new.run ≡ reader.old.run }
{
    let bit = reader.place().bit;
    if let Some(at) = speculation.find(bit)
        && reader.skip_speculated(speculation, at, 1) == 1
    {
        return Some(true);
    }
    if reader.skip(1) == 1 {
        Some(false)
    } else {
        None
    }
}

/// Skips the MCUs that start before a bit, with a speculative read.
fn pass_by(
    reader: &mut McuReader<'_>,
    speculation: &Speculation,
    to: u64,
    counts: &mut SpeculationCounts,
)
    requires same { IsSpeculationOf reader.old.run.interval speculation.now }
    ensures run { reader.new.run ≡ reader.old.run }
{
    for _mcu in 0..reader.interval().mcus() {
        if reader.place().bit >= to {
            return;
        }
        match pass(reader, speculation) {
            Some(true) => counts.taken_over = counts.taken_over.saturating_add(1),
            Some(false) => counts.read = counts.read.saturating_add(1),
            None => return,
        }
    }
}

/// Returns the bit at which the k-th of some windows of an interval's bits begins.
fn window_start(bits: u64, k: u64, windows: u64) -> u64 {
    bits.saturating_mul(k) / windows.max(1)
}

/// Reads an interval with speculative reads of all its bits but the first ones. `None` if allocation fails.
fn count_interval(
    alloc: Global,
    scan: &Scan,
    number: u32,
    counts: &mut SpeculationCounts,
) -> Option<()>
    requires { number < length scan.now.intervals }
{
    let windows = windows_of(scan, number);
    let bits = 8 * scan.interval_ref(number).bytes().len() as u64;
    let mut reader = McuReader::over(scan.interval_ref(number));
    let mut speculation = Speculation::open(
        alloc,
        &scan.interval_ref(number),
        MAX_MCUS,
        false,
    ).ok()?;
    pass_by(
        &mut reader,
        &speculation,
        window_start(bits, 1, windows),
        counts,
    );
    for k in 1..windows {
        let from = window_start(bits, k, windows);
        let to = window_start(bits, k + 1, windows);
        speculation.read(&scan.interval_ref(number), from, to);
        let before = counts.taken_over;
        pass_by(&mut reader, &speculation, to, counts);
        counts.speculations = counts.speculations.saturating_add(1);
        if counts.taken_over > before {
            counts.in_step = counts.in_step.saturating_add(1);
        }
    }
    Some(())
}

/// Returns the use of speculative reads of a scan's intervals. `None` if allocation fails.
pub(crate) fn speculation_counts(alloc: Global, scan: &Scan) -> Option<SpeculationCounts> {
    let mut counts = SpeculationCounts {
        speculations: 0,
        in_step: 0,
        taken_over: 0,
        read: 0,
    };
    for number in 0..scan.intervals() {
        count_interval(alloc, scan, number, &mut counts)?;
    }
    Some(counts)
}

/// A line of these counts.
pub(crate) fn report_speculations<W: Write>(out: &mut W, counts: &SpeculationCounts) {
    let SpeculationCounts {
        speculations,
        in_step,
        taken_over,
        read,
    } = counts;
    let _ = writeln!(
        out,
        "speculations {speculations}, in step {in_step}, MCUs taken over {taken_over}, read {read}"
    );
}
