//! The lines of a state file.

ghost use Rattle.std.specs.Prelude.{◌≤◌, length, IfSome};

use crate::state_record::{FileRecord, RecordedState, Stamp};
use hex::{decode_to_slice, encode_to_slice};
use jri_machine::write_string;
use std::alloc::{AllocError, Global};

/// The size of a line's check value in bytes: a space and eight digits.
const CHECK_SIZE: usize = 9;

/// The first value of FNV-1a in 32 bits, and its factor.
const FNV_BASIS: u32 = 0x811C_9DC5;

const FNV_PRIME: u32 = 0x0100_0193;

/// Returns the check value of a line: FNV-1a, which any change of a single byte changes.
fn check_value(bytes: &[u8]) -> u32 {
    let mut value = FNV_BASIS;
    for byte in bytes {
        value = (value ^ u32::from(*byte)).wrapping_mul(FNV_PRIME);
    }
    value
}

/// Appends 32 bytes as 64 digits.
fn write_hash(line: &mut String, hash: &[u8; 32]) -> Result<(), AllocError> {
    let mut digits = [0; 64];
    if encode_to_slice(hash, &mut digits).is_err() {
        return Err(AllocError);
    }
    // They are ASCII.
    match str::from_utf8(&digits) {
        Ok(text) => line.push_str(text),
        Err(_) => Err(AllocError),
    }
}

/// Returns the line of a record: its SHA-256, size, time and state, the name as a JSON string, and the check value of all before.
pub fn record_line(alloc: Global, name: &[u8], record: &FileRecord) -> Result<String, AllocError> {
    let mut line = String::new(alloc);
    write_hash(&mut line, &record.hash)?;
    let Stamp {
        size,
        seconds,
        nanos,
    } = record.stamp;
    let state = record.state.text();
    write!(line, " {size} {seconds}.{nanos:09} {state} ")?;
    write_string(&mut line, name)?;
    let check = check_value(line.as_bytes());
    writeln!(line, " {check:08x}")?;
    Ok(line)
}

/// Returns whether a byte is a lower-case hexadecimal digit.
fn is_digit(byte: u8) -> bool {
    byte.is_ascii_digit() || (b'a'..=b'f').contains(&byte)
}

/// Returns the line before its check value, if that is right.
fn checked_part(line: &str) -> Option<&str> {
    let (part, check) = line.split_at_checked(line.len().checked_sub(CHECK_SIZE)?)?;
    let check = check.strip_prefix(' ')?;
    if !check.bytes().all(|byte| is_digit(byte)) {
        return None;
    }
    if u32::from_str_radix(check, 16).ok()? == check_value(part.as_bytes()) {
        Some(part)
    } else {
        None
    }
}

/// Returns the byte whose number is at the start of a JSON string's rest: `\u00` or `\udc` and two digits.
fn numbered_byte(rest: &[u8]) -> Option<u8>
    ensures { IfSome result (λ _. 6 ≤ length rest.now) }
{
    if rest.len() < 6 || rest[0] != b'\\' || rest[1] != b'u' {
        return None;
    }
    let mut byte = [0; 1];
    if decode_to_slice(&rest[4..6], &mut byte).is_err() {
        return None;
    }
    Some(byte[0])
}

/// Returns the number of bytes before the first backslash.
fn plain_size(bytes: &[u8]) -> usize
    ensures { result ≤ length bytes.now }
{
    match bytes.iter().position(|byte| *byte == b'\\') {
        Some(count) => count,
        None => bytes.len(),
    }
}

/// Returns the name whose JSON string this is; `None` if it is not one.
fn name_of(alloc: Global, text: &str) -> Result<Option<Vec<u8>>, AllocError> {
    let mut name = Vec::new(alloc);
    let Some(text) = text.strip_prefix('"').and_then(|t| t.strip_suffix('"')) else {
        return Ok(None);
    };
    let mut rest = text.as_bytes();
    for _ in 0..=text.len() {
        let plain = plain_size(rest);
        name.extend_from_slice(&rest[..plain])?;
        rest = &rest[plain..];
        if rest.is_empty() {
            break;
        }
        let Some(byte) = numbered_byte(rest) else {
            return Ok(None);
        };
        name.push(byte)?;
        rest = &rest[6..];
    }
    Ok(Some(name))
}

/// Returns the stamp of a size and a time.
fn stamp_of(size: &str, time: &str) -> Option<Stamp> {
    let (seconds, nanos) = time.split_once('.')?;
    Some(Stamp {
        size: size.parse().ok()?,
        seconds: seconds.parse().ok()?,
        nanos: nanos.parse().ok()?,
    })
}

/// Returns the record before the name, and the text of the name.
fn fields_of(part: &str) -> Option<(FileRecord, &str)> {
    let (digits, rest) = part.split_once(' ')?;
    let (size, rest) = rest.split_once(' ')?;
    let (time, rest) = rest.split_once(' ')?;
    let (state, name) = rest.split_once(' ')?;
    let mut hash = [0; 32];
    if decode_to_slice(digits, &mut hash).is_err() {
        return None;
    }
    let stamp = stamp_of(size, time)?;
    let state = RecordedState::of_text(state)?;
    Some((FileRecord { hash, stamp, state }, name))
}

/// Returns the name and the record of a line without its end; `None` if it is not the whole line of a record.
pub fn parse_record(
    alloc: Global,
    line: &[u8],
) -> Result<Option<(Vec<u8>, FileRecord)>, AllocError> {
    let Ok(text) = str::from_utf8(line) else {
        return Ok(None);
    };
    let Some((record, name)) = checked_part(text).and_then(|part| fields_of(part)) else {
        return Ok(None);
    };
    match name_of(alloc, name)? {
        Some(name) => Ok(Some((name, record))),
        None => Ok(None),
    }
}
