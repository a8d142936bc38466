//! The MCUs that speculative reads find.

use jr_scan::Speculation;
use std::alloc::Global;
use std::test::Fail;
use test_files::scans::scan;

/// 4096 MCUs of three bits, but for the first, which has six; and 1024 of eighteen.
const GREY: &str = "S Q F:0200:0200 D A C 60 1536*00";

const CUT: &str = "S Q F:0200:0200 D A C 60 1499*00";

const COLOURED: &str = "S Q F3:0200:0200:22 D A C3 2304*00";

/// Files, the bits between which MCUs are read, the most of them, and which of them starts at a bit: in step; never in step; in step
/// starting at the second MCU; no space for all; past the end of the data; none.
const ROWS: [(&str, u64, u64, u32, u64, Option<usize>); 8] = [
    (GREY, 3000, 6000, 2000, 5997, Some(999)),
    (GREY, 3001, 6000, 2000, 3000, None),
    (GREY, 3, 3000, 2000, 6, Some(1)),
    (GREY, 3000, 6000, 10, 3030, None),
    (CUT, 11001, 90000, 4000, 11997, Some(332)),
    (CUT, 90000, 99000, 10, 90000, None),
    (COLOURED, 1800, 18000, 2000, 1818, Some(1)),
    (COLOURED, 1801, 18000, 2000, 1800, None),
];

/// Returns which MCU starts at a bit, of a speculative read from one bit up to another with space for the given number of MCUs.
fn found_at(
    alloc: Global,
    words: &str,
    (from, to): (u64, u64),
    most: u32,
    keeps_blocks: bool,
    bit: u64,
) -> Result<Option<usize>, Fail> {
    let scan = scan(alloc, words)?;
    if scan.intervals() != 1 {
        return Err(Fail::from("not one interval"));
    }
    let interval = scan.interval_ref(0);
    let Ok(mut speculation) = Speculation::open(alloc, &interval, most, keeps_blocks) else {
        return Err(Fail::from("memory"));
    };
    speculation.read(&interval, from, to);
    Ok(speculation.find(bit))
}

#[test]
fn speculative_reads_find_mcus(rt: HostRuntime) -> Result<(), Fail> {
    for (words, from, to, most, bit, found) in &ROWS {
        let alloc = rt.alloc();
        let kept = found_at(alloc, words, (*from, *to), *most, true, *bit)?;
        let skipped = found_at(alloc, words, (*from, *to), *most, false, *bit)?;
        if kept != *found || skipped != *found {
            return Err(Fail::from(*words));
        }
    }
    Ok(())
}
