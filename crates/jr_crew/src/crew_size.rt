//! The number of workers for whose row buffers a scan has enough data.

ghost use Rattle.std.specs.Prelude.{◌≤◌};

use jr_head::Head;
use jr_rows::{bytes_of_row, shape_of};
use jr_scan::FirstIntervals;
use jr_work::tuning::{BYTES_PER_DATA_BYTE, FREE_BYTES, MAX_COUNTED};

/// Size in bytes of a data unit's coefficients.
const BLOCK_BYTES: u64 = 128;

/// Size in bytes of a data unit's samples.
const SAMPLE_BYTES: u64 = 64;

/// Returns the approximate size of the data of the intervals to decode, in bytes.
fn data_bytes(part: &FirstIntervals<'_>) -> u64 {
    let counted = part.limit().min(MAX_COUNTED);
    let mut bytes: u64 = 0;
    for i in 0..counted {
        bytes = bytes.saturating_add(part.scan().interval_ref(i).bytes().len() as u64);
    }
    bytes.saturating_mul(u64::from(part.limit() / counted.max(1)))
}

/// Returns the size in bytes of the memory by which one worker decodes and paints: `buffers` row buffers with
/// coefficients and lines, and samples and lines of the row that it paints.
fn bytes_of_worker(head: &Head, buffers: u32) -> u64 {
    let units = u64::from(shape_of(head).across).saturating_mul(head.order().len() as u64);
    let lines = bytes_of_row(head) as u64;
    let buffer = units.saturating_mul(BLOCK_BYTES).saturating_add(lines);
    buffer
        .saturating_mul(u64::from(buffers))
        .saturating_add(units.saturating_mul(SAMPLE_BYTES))
        .saturating_add(lines)
}

/// Returns the number of workers, each with `buffers` row buffers, that the data of a scan justify: 1 to `workers`.
pub(crate) fn crew_size(part: &FirstIntervals<'_>, workers: u32, buffers: u32) -> u32
    requires some { 1 ≤ workers }
    ensures some { 1 ≤ result }
    ensures few { result ≤ workers }
{
    let more = data_bytes(part).saturating_mul(BYTES_PER_DATA_BYTE);
    let all = FREE_BYTES.saturating_add(more);
    let most = all / bytes_of_worker(part.scan().head(), buffers).max(1);
    most.min(u64::from(workers)).max(1) as u32
}
