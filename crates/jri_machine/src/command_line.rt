//! The arguments of a command line, as the system has them.

use std::alloc::{AllocError, Global};
use std::env;
use std::env::FillError;
use std::io::Result as IoResult;
use std::rt::Env;

/// Returns the arguments after the program's name, as text.
pub fn arguments<R: Env + AllocGlobal>(rt: &R) -> IoResult<Vec<String>> {
    let mut words = Vec::new(rt.alloc());
    for word in env::args(rt)?.skip(1) {
        words.push(word)?;
    }
    Ok(words)
}

/// Maximum size of an argument in bytes: more than systems allow.
const LONGEST_WORD: usize = 1 << 24;

/// Size in bytes that suffices for most arguments.
const USUAL_WORD: usize = 4096;

/// Returns an argument by its number; `None` after the last.
fn word<E: Env>(env: &E, alloc: Global, number: usize) -> Result<Option<Vec<u8>>, AllocError> {
    let mut space = USUAL_WORD;
    for _ in 0..usize::BITS {
        let mut bytes = vec![in alloc; 0; space]?;
        match env.arg(number, &mut bytes) {
            Ok(length) => {
                bytes.truncate(length);
                return Ok(Some(bytes));
            }
            Err(FillError::NotPresent) => return Ok(None),
            Err(FillError::TooLong) if space >= LONGEST_WORD => return Err(AllocError),
            Err(FillError::TooLong) => space *= 2,
        }
    }
    Err(AllocError)
}

/// Returns the arguments after the program's name, of any bytes.
pub fn byte_arguments<E: Env>(env: &E, alloc: Global) -> Result<Vec<Vec<u8>>, AllocError> {
    let mut words = Vec::new(alloc);
    for number in 1..usize::MAX {
        match word(env, alloc, number)? {
            Some(word) => words.push(word)?,
            None => break,
        }
    }
    Ok(words)
}
