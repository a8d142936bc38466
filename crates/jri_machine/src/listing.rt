//! The directories of the system.

use crate::entries::{Entry, EntryKind, ReadError};
use std::alloc::{AllocError, Global};
use std::fs;
use std::io::{BufRead, BufReader, Error, ErrorKind, Read, Result as IoResult};
use std::rt::Files;

/// Returns the reason why a file or a directory is not read.
pub fn unread(error: &Error) -> ReadError {
    match error.kind() {
        ErrorKind::OutOfMemory => ReadError::Memory,
        ErrorKind::NotFound => ReadError::NotFound,
        ErrorKind::PermissionDenied => ReadError::NotAllowed,
        ErrorKind::IsADirectory => ReadError::Directory,
        ErrorKind::InvalidFilename => ReadError::NameTooLong,
        _ => ReadError::Failed,
    }
}

/// Returns what an entry of a directory is; `None` if it is a link or a device.
fn kind_of(rt: &HostRuntime, name: &[u8]) -> Option<EntryKind> {
    let Ok(name) = str::from_utf8(name) else {
        return Some(EntryKind::Unread(ReadError::NameIsNoText));
    };
    match fs::symlink_metadata(rt, name) {
        Ok(found) if found.is_dir() => Some(EntryKind::Directory),
        Ok(found) if found.is_file() => Some(EntryKind::File),
        Ok(_) => None,
        Err(error) => Some(EntryKind::Unread(unread(&error))),
    }
}

/// Returns the name of a directory with a slash at its end, by which the system follows a link to one.
fn with_slash(alloc: Global, directory: &str) -> Result<String, AllocError> {
    let mut name = String::from_str(alloc, directory)?;
    if !directory.is_empty() && !directory.ends_with('/') {
        name.push('/')?;
    }
    Ok(name)
}

/// Reads the next name of a directory, of any bytes; `None` after the last.
fn next_name<R: Read>(alloc: Global, names: &mut BufReader<R>) -> IoResult<Option<Vec<u8>>> {
    let mut name = Vec::new(alloc);
    if names.read_until(0, &mut name)? == 0 {
        return Ok(None);
    }
    if name.last() == Some(&0) {
        name.pop();
    }
    Ok(Some(name))
}

/// Adds an entry of a directory, unless it is a link, a device, the directory itself or its parent.
fn add_entry(
    rt: &HostRuntime,
    entries: &mut Vec<Entry>,
    directory: &str,
    name: &[u8],
) -> Result<(), AllocError> {
    if name == b".".as_slice() || name == b"..".as_slice() {
        return Ok(());
    }
    let mut whole = directory.as_bytes().to_vec(rt.alloc())?;
    whole.extend_from_slice(name)?;
    if let Some(kind) = kind_of(rt, whole.as_slice()) {
        entries.push(Entry { name: whole, kind })?;
    }
    Ok(())
}

/// Reads the entries of a directory. If reading fails halfway the directory itself is an entry that is not read.
fn read_entries(rt: &HostRuntime, directory: &str) -> IoResult<Vec<Entry>> {
    let alloc: Global = rt.alloc();
    let directory = with_slash(alloc, directory)?;
    let mut names = BufReader::new(alloc, rt.open_dir(directory.as_str())?)?;
    let mut entries = Vec::new(alloc);
    for _ in 0..u64::MAX {
        match next_name(alloc, &mut names) {
            Ok(Some(name)) => add_entry(rt, &mut entries, directory.as_str(), name.as_slice())?,
            Ok(None) => break,
            Err(error) => {
                let kind = EntryKind::Unread(unread(&error));
                let name = directory.into_bytes();
                entries.push(Entry { name, kind })?;
                break;
            }
        }
    }
    Ok(entries)
}

/// Returns the files and directories in the directory of that name, in any order, and no links; `None` if it is not a
/// directory. An entry whose name is not UTF-8 is `Unread` for that reason.
pub fn entries_in(rt: &HostRuntime, name: &str) -> Result<Option<Vec<Entry>>, ReadError> {
    match read_entries(rt, name) {
        Ok(entries) => Ok(Some(entries)),
        Err(error) if error.kind() == ErrorKind::NotADirectory => Ok(None),
        Err(error) => Err(unread(&error)),
    }
}
