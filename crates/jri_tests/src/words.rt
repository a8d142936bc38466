//! What the arguments ask for beyond the contract of `asked`: the number of workers and of first intervals, and resynchronisation.

use jri_engine::decode_request;
use std::alloc::Global;
use std::test::Fail;

/// Lines, and what they ask for.
const LINES: [(&str, u32, Option<u32>, bool); 7] = [
    ("", 4, None, false),
    ("--workers 1", 1, None, false),
    ("--workers 64 photo.jpg", 64, None, false),
    ("photo.jpg --workers 2 --resync", 2, None, true),
    ("--first 0", 4, Some(0), false),
    ("--first 4294967295", 4, Some(4_294_967_295), false),
    ("--first 7 --workers 3 --quiet --resync a", 3, Some(7), true),
];

/// Returns the arguments in a line.
fn words_of(alloc: Global, line: &str) -> Result<Vec<String>, Fail> {
    let mut words = Vec::new(alloc);
    for word in line.split_whitespace() {
        words.push(String::from_str(alloc, word)?)?;
    }
    Ok(words)
}

#[test]
fn asks_for_a_decoding(rt: HostRuntime) -> Result<(), Fail> {
    for (line, workers, first, is_resync) in &LINES {
        let words = words_of(rt.alloc(), line)?;
        let is_asked = decode_request(rt.alloc(), &words).is_ok_and(|request| {
            request.asked.workers == *workers
                && request.asked.first == *first
                && request.is_resync == *is_resync
        });
        if !is_asked {
            return Err(Fail::from(*line));
        }
    }
    Ok(())
}
