//! The rows of MCUs of an image, in numbers.

ghost use Rattle.std.specs.Prelude.{max, ◌≡◌, ◌+◌, ◌-◌, ◌*◌, ◌<◌, ◌≤◌, min, Option, Some, OnSome, IfSome};
ghost use Rattle.jr_head.specs.Geometry.{mcus_across, mcus_down, mcus_of, vertical_max};
ghost use Rattle.jr_paint.specs.Lines.{line_size};
ghost use Rattle.jr_paint.specs.declared.header.TheConstants.{HEADER_SPACE};
ghost use Rattle.jr_paint.specs.declared.netpbm.TheConstants.{BATCH};
ghost use Rattle.jr_rows.specs.Rows.{coded_before, coded_in, mcus_before, first_line, line_count};
ghost use Rattle.jr_rows.specs.RowLines.{mcus_at_once};

use jr_head::Head;
use jr_paint::{BATCH, HEADER_SPACE, bytes_of_line, bytes_to};
use jr_scan::Scan;

/// Maximum number of blocks that are read before they are transformed: 8 KB, which stay in the cache.
pub(crate) const BLOCKS_AT_ONCE: usize = 64;

/// The sizes of an image's rows of MCUs.
#[derive(Clone, Copy)]
pub struct Shape {
    /// Number of MCUs of a row.
    pub across: u32,
    /// Number of lines of pixels of a row, unless the image ends in it.
    pub deep: u32,
    /// Number of rows of the image.
    pub down: u32,
    /// Size of a line of pixels in bytes.
    pub line: usize,
}

/// Returns the sizes of the rows of MCUs of an image with this header.
pub fn shape_of(head: &Head) -> Shape
    ensures across { result.across ≡ mcus_across head.now }
    ensures few { result.across < 65536 }
    ensures deep { result.deep ≡ 8 * vertical_max head.now }
    ensures some { 0 < result.deep }
    ensures low { result.deep ≤ 32 }
    ensures down { result.down ≡ mcus_down head.now }
    ensures finite { result.down < 65536 }
    ensures line { result.line ≡ line_size head.now }
    ensures short { result.line ≤ 196605 }
{
    head.assert_invariant();
    Shape {
        across: head.mcus_across(),
        deep: 8 * head.vertical_max(),
        down: head.mcus_down(),
        line: bytes_of_line(head),
    }
}

/// Returns the number of data units of `mcus` MCUs, at most `most` of them.
pub(crate) fn units_to(mcus: u32, most: u32, per_mcu: usize) -> usize
    requires few { mcus ≤ most }
    requires short { per_mcu ≤ 10 }
    ensures value { result ≡ mcus * per_mcu }
    ensures within { result ≤ most * per_mcu }
    ensures rest { result + (most - mcus) * per_mcu ≡ most * per_mcu }
{
    mcus as usize * per_mcu
}

/// Returns the number of MCUs that are read before they are transformed.
pub(crate) fn mcus_at_once(head: &Head) -> u32
    ensures value { result ≡ mcus_at_once head.now }
    ensures some { 0 < result }
    ensures few { result ≤ 64 }
{
    head.assert_invariant();
    (BLOCKS_AT_ONCE / head.order().len()) as u32
}

/// Returns the first line of pixels of a row of MCUs, and the number of its lines.
pub fn lines_of(head: &Head, row: u32) -> (u32, u32)
    requires { row < mcus_down head.now }
    ensures first { result.0 ≡ first_line head.now row }
    ensures count { result.1 ≡ line_count head.now row }
    ensures few { result.1 ≤ 8 * vertical_max head.now }
    ensures inside { result.0 + result.1 ≤ head.now.height }
    ensures before { min (row * (8 * vertical_max head.now)) head.now.height ≡ result.0 }
    ensures next { min ((row + 1) * (8 * vertical_max head.now)) head.now.height ≡ result.0 + result.1 }
{
    let deep = 8 * head.vertical_max();
    let height = head.height();
    let first = row * deep;
    (first, deep.min(height - first))
}

/// Returns the size of the lines of a row of MCUs in bytes.
pub fn bytes_of_row(head: &Head) -> usize
    ensures { result ≡ 8 * vertical_max head.now * line_size head.now }
{
    let shape = shape_of(head);
    shape.deep as usize * shape.line
}

/// Returns the size in bytes of the buffer that an image is written from: that of a write, or of the header and all
/// lines if they need less, but at least that of a row of MCUs.
pub fn space_for(head: &Head) -> usize
    ensures value { result ≡ max (min BATCH (HEADER_SPACE + head.now.height * line_size head.now)) (8 * vertical_max head.now * line_size head.now) }
    ensures lines { 8 * vertical_max head.now * line_size head.now ≤ result }
    ensures header { HEADER_SPACE ≤ result }
{
    let height = head.height();
    let lines = bytes_to(height, height, shape_of(head).line);
    BATCH.min(HEADER_SPACE + lines).max(bytes_of_row(head))
}

/// Returns the number of MCUs of the first n intervals of a scan.
pub(crate) fn mcus_of_first(scan: &Scan, n: u32) -> u32
    ensures value { result ≡ mcus_before scan.now.head n }
    ensures within { result ≤ mcus_of scan.now.head }
{
    if n >= scan.intervals() {
        return scan.head().mcus();
    }
    scan.head().first_mcu(n)
}

/// Returns the number of MCUs of a row that are decoded if the first n intervals are.
pub fn coded_of_row(scan: &Scan, n: u32, row: u32) -> u32
    requires { row < mcus_down scan.now.head }
    ensures value { result ≡ coded_in scan.now.head n row }
    ensures moved { coded_before scan.now.head n row + result ≡ coded_before scan.now.head n (row + 1) }
    ensures inside { coded_before scan.now.head n row + result ≤ mcus_before scan.now.head n }
    ensures few { result ≤ mcus_across scan.now.head }
{
    // By its contract an image has few enough MCUs that their numbers fit.
    let _most = scan.head().mcus();
    let all = mcus_of_first(scan, n);
    let across = shape_of(scan.head()).across;
    let start = row * across;
    (start + across).min(all) - start.min(all)
}

/// Returns the number of intervals of a row of MCUs if rows are whole intervals.
pub fn intervals_of_row(head: &Head) -> Option<u32>
    ensures { IfSome result (λ n. n * head.now.restart ≡ mcus_across head.now) }
{
    let across = shape_of(head).across;
    let restart = u32::from(head.restart());
    let count = across.checked_div(restart)?;
    if count * restart == across {
        Some(count)
    } else {
        None
    }
}
