//! Files that arrive in parts: the number of lines that are final at each time.

use jr_arrival::PartialFile;
use std::alloc::Global;
use std::test::Fail;
use test_files::files::file;

/// The restart interval of an image of 8 by 24 pixels, the bytes of its scan that have arrived, and the number of its lines that are
/// final then. The codes 00, 01 and 10 have 0, 3 and 11 additional bits, no code begins with 11, and 0 ends a block:
/// 011000 is a block, and so is 000.
const FINAL: [(&str, &str, u32); 33] = [
    ("", "", 0),
    ("", "63", 8),
    ("", "61", 8),
    ("", "61 86", 16),
    ("", "61 86 3F", 24),
    // No bytes mend these bits, but they are too few to say so before the interval's end.
    ("", "E0", 0),
    ("", "E0 FF", 0),
    ("", "E0 FF FF", 0),
    ("", "E0 FF D9", 24),
    ("", "63 FF C4", 24),
    ("", "63 FF D0", 24),
    // FF bytes at the end are part of nothing yet. The third block has eleven ones.
    ("", "02", 16),
    ("", "02 FF", 16),
    ("", "02 FF FF", 16),
    ("", "02 FF FF 00", 16),
    ("", "02 FF FF 00 E0", 24),
    // The maximum number of bits of an MCU, 16,650, which begin with no code: after the block in 63 two ones are left.
    ("", "2081*FF00", 0),
    ("", "2081*FF00 FF", 0),
    ("", "2082*FF00", 24),
    ("", "63 1000*FF00", 8),
    ("", "63 2080*FF00", 8),
    ("", "63 2080*FF00 FF", 8),
    ("", "63 2081*FF00", 24),
    ("I", "2081*FF00", 0),
    ("I", "2082*FF00", 8),
    // A restart marker ends an interval once its code is there, also if no data follow.
    ("I", "E0 FF", 0),
    ("I", "E0 FF FF", 0),
    ("I", "E0 FF D0", 8),
    ("I", "E0 FF FF D0 FF", 8),
    ("I", "E0 FF D0 FF D1", 16),
    ("I", "E0 FF D0 63", 16),
    ("I", "63 FF D0 63", 16),
    // Out of step.
    ("I", "E0 FF D1", 24),
];

/// Returns the number of lines, of 24 at most, that the first bytes of such a file make final.
fn lines_of(alloc: Global, restart: &str, words: &str) -> Result<u32, Fail> {
    let words = format!(in alloc; "S Q F:0018:0008 D:00:03:0B A {restart} C {words}")?;
    let bytes = file(alloc, words.as_str())?;
    let mut partial_file = PartialFile::new(alloc);
    if partial_file.push(bytes.as_slice()).is_err() {
        return Err(Fail::from("out of memory"));
    }
    match partial_file.next_lines(alloc, &mut [0; 192]) {
        Ok(lines) => Ok(lines),
        Err(_) => Err(Fail::from("a file that is refused")),
    }
}

#[test]
fn returns_lines_as_soon_as_they_are_final(rt: HostRuntime) -> Result<(), Fail> {
    for (restart, words, count) in &FINAL {
        if lines_of(rt.alloc(), restart, words)? != *count {
            return Err(Fail::from(*words));
        }
    }
    Ok(())
}
