//! The bytes of a file or a stream.

use jr_base::limits::MAX_FILE_BYTES;
use std::alloc::Global;
use std::io::{ErrorKind, Read, Result as IoResult};

/// The name of standard input and of standard output among arguments.
pub const STREAM: &str = "-";

/// Maximum number of bytes that are read of a file: one more than it may have.
const TOO_MANY: u64 = MAX_FILE_BYTES as u64 + 1;

/// Size of one read of a stream, in bytes.
const PART: usize = 65_536;

/// Reads a file to its end, and at most one byte more than a file may have. With the size that the system reports two reads take
/// it and see its end; with another, or if allocation fails, reads take it part by part.
pub fn read_bytes<R: Read + Drop>(alloc: Global, file: R, size: u64) -> IoResult<Vec<u8>> {
    let mut bytes = Vec::new(alloc);
    let _ = bytes.reserve(size.saturating_add(1).min(TOO_MANY) as usize);
    file.take(TOO_MANY).read_to_end(&mut bytes)?;
    Ok(bytes)
}

/// Reads a stream to its end, or until a file would be too long. Each read has the whole part: a pipe of packets drops what has no
/// space.
fn read_parts<R: Read>(alloc: Global, input: &mut R, part: &mut [u8]) -> IoResult<Vec<u8>> {
    let mut bytes = Vec::new(alloc);
    for _ in 0..u64::MAX {
        match input.read(part) {
            Ok(0) => break,
            Ok(count) => bytes.extend_from_slice(&part[..count])?,
            Err(error) if error.kind() == ErrorKind::Interrupted => {}
            Err(error) => return Err(error),
        }
        if bytes.len() as u64 >= TOO_MANY {
            break;
        }
    }
    Ok(bytes)
}

/// Reads a stream part by part, and at most a part more than a file may have.
pub fn read_stream<R: Read>(alloc: Global, input: &mut R) -> IoResult<Vec<u8>> {
    let mut part = vec![in alloc; 0; PART]?;
    read_parts(alloc, input, part.as_mut_slice())
}
