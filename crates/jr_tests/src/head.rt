//! Headers of millions of segments, the largest header, and the texts of refusals that no small file has.

use jr_head::{Refusal, read_head};
use std::alloc::Global;
use std::test::Fail;
use test_files::files::file;

/// A header whose first part is repeated, the number of its MCUs, and where its scan's data begin.
struct Long {
    part: &'static str,
    times: u32,
    others: &'static str,
    mcus: u32,
    scan_at: u64,
}

/// Code tables that others replace: without codes, with one, with one of each length, and with 255 of sixteen bits. A book of each
/// of these would take longer than a test may. And the largest header.
static LONG: [Long; 5] = [
    Long {
        part: "FF C4 00 13 00 16*00",
        times: 1_000_000,
        others: "Q F D A C",
        mcus: 1,
        scan_at: 21_000_140,
    },
    Long {
        part: "FF C4 00 14 00 01 15*00 00",
        times: 1_000_000,
        others: "Q F D A C",
        mcus: 1,
        scan_at: 22_000_140,
    },
    Long {
        part: "FF C4 00 23 10 16*01 16*00",
        times: 1_000_000,
        others: "Q F D A C",
        mcus: 1,
        scan_at: 37_000_140,
    },
    Long {
        part: "FF C4 01 12 10 15*00 FF 255*00",
        times: 200_000,
        others: "Q F D A C",
        mcus: 1,
        scan_at: 55_200_140,
    },
    Long {
        part: "",
        times: 0,
        others: "Q F:4000:4000 D A C",
        mcus: 4_194_304,
        scan_at: 140,
    },
];

/// Returns whether a header is read so.
fn is_read(alloc: Global, long: &Long) -> Result<bool, Fail> {
    let mut bytes = file(alloc, "S")?;
    let part = file(alloc, long.part)?;
    for _ in 0..long.times {
        if bytes.extend_from_slice(&part).is_err() {
            return Ok(false);
        }
    }
    drop(part);
    let others = file(alloc, long.others)?;
    if bytes.extend_from_slice(&others).is_err() {
        return Ok(false);
    }
    match read_head(alloc, &bytes) {
        Ok(head) => Ok(head.mcus() == long.mcus && head.scan_at() == long.scan_at),
        Err(_) => Ok(false),
    }
}

#[test]
fn accepts_long_and_large_headers(rt: HostRuntime) -> Result<(), Fail> {
    for long in &LONG {
        if !is_read(rt.alloc(), long)? {
            return Err(Fail::from(long.part));
        }
    }
    Ok(())
}

/// Refusals, with their numbers and texts.
const REFUSALS: [(Refusal, &str); 2] = [
    (Refusal::TooLong, "18: the file is too long"),
    (Refusal::Memory, "19: out of memory"),
];

#[test]
fn refusals_have_numbers_and_texts(rt: HostRuntime) -> Result<(), Fail> {
    for (refusal, text) in REFUSALS {
        let line = format!(in rt.alloc(); "{}: {refusal}", refusal.number())?;
        if line.as_str() != text {
            return Err(Fail::from(text));
        }
    }
    Ok(())
}
