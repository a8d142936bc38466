//! The files of the machine: those that are checked, lists of names, and state files.

use crate::reading::Directory;
use crate::running::Lists;
use crate::state_file::StateError;
use crate::state_record::Stamp;
use jri_machine::{
    Entry, Machine, ReadError, STREAM, Source, entries_in, read_bytes, read_stream, unread,
};
use std::alloc::Global;
use std::fs;
use std::fs::{File, Metadata, OpenOptions, TryLockError};
use std::io::{Error, Read, Result as IoResult, Stdin};
use std::os::unix::fs::MetadataExt;

/// Reads a file, or a stream that has a name.
fn read_file(alloc: Global, file: File) -> IoResult<Vec<u8>> {
    let mut file = file;
    match file.metadata() {
        Ok(found) if !found.is_file() => read_stream(alloc, &mut file),
        Ok(found) => read_bytes(alloc, file, found.len()),
        Err(_) => read_bytes(alloc, file, 0),
    }
}

/// Beginnings of the names of open streams, which are read whatever they are: naming one asks for it.
const STREAMS: [&str; 3] = ["/dev/stdin", "/dev/fd/", "/proc/"];

/// Returns whether a name is that of an open stream.
fn is_stream(name: &str) -> bool {
    for stream in STREAMS {
        if name.starts_with(stream) {
            return true;
        }
    }
    name == STREAM
}

/// Returns the size and the time of a file.
fn stamp_of(found: &Metadata) -> Stamp {
    Stamp {
        size: found.len(),
        seconds: found.mtime(),
        nanos: u32::try_from(found.mtime_nsec()).unwrap_or(0),
    }
}

/// Returns whether a name is that of a FIFO, a socket or a device, which may never end, or never begin.
fn is_special(rt: &HostRuntime, name: &str) -> bool {
    if is_stream(name) {
        return false;
    }
    match fs::metadata(rt, name) {
        Ok(found) => !found.is_file() && !found.is_dir(),
        Err(_) => false,
    }
}

/// Returns why a state file is not there.
fn state_unread(error: &Error) -> StateError {
    match unread(error) {
        ReadError::Memory => StateError::Memory,
        error => StateError::Unread(error),
    }
}

/// Opens a state file for reading and appending, and creates it if there is none.
fn open_state(rt: &HostRuntime, name: &str) -> Result<File, StateError> {
    if is_stream(name) || is_special(rt, name) {
        return Err(StateError::Unread(ReadError::NotRegular));
    }
    let opened = OpenOptions::new()
        .read(true)
        .append(true)
        .create(true)
        .open(rt, name);
    match opened {
        Ok(file) => Ok(file),
        Err(error) => Err(state_unread(&error)),
    }
}

/// Takes the lock of a state file, which ends with the run, without waiting for another run. A file system without locks has none.
fn lock_state(file: &File) -> Result<(), StateError> {
    match file.try_lock() {
        Err(TryLockError::WouldBlock) => Err(StateError::InUse),
        _ => Ok(()),
    }
}

/// Reads all bytes of a state file.
fn read_whole(alloc: Global, file: &File) -> IoResult<Vec<u8>> {
    let mut file = file;
    let mut bytes = Vec::new(alloc);
    let size = file.metadata()?.len();
    let _ = bytes.reserve(size.min(usize::MAX as u64) as usize);
    file.read_to_end(&mut bytes)?;
    Ok(bytes)
}

impl<'a> Directory for Machine<'a> {
    fn read(&self, alloc: Global, name: &str) -> Result<Vec<u8>, ReadError> {
        if is_special(self.rt, name) {
            return Err(ReadError::NotRegular);
        }
        let read = if name == STREAM {
            read_stream(alloc, &mut self.rt.stdin())
        } else {
            match fs::open(self.rt, name) {
                Ok(file) => read_file(alloc, file),
                Err(error) => Err(error),
            }
        };
        match read {
            Ok(bytes) => Ok(bytes),
            Err(error) => Err(unread(&error)),
        }
    }

    fn stamp(&self, name: &str) -> Option<Stamp> {
        if is_stream(name) {
            return None;
        }
        match fs::metadata(self.rt, name) {
            Ok(found) if found.is_file() => Some(stamp_of(&found)),
            _ => None,
        }
    }

    fn entries(&self, _alloc: Global, name: &str) -> Result<Option<Vec<Entry>>, ReadError> {
        if name == STREAM {
            return Ok(None);
        }
        entries_in(self.rt, name)
    }
}

impl<'a> Lists for Machine<'a> {
    type List = Source<Stdin, File>;

    type Log = File;

    fn list(&self, name: &str) -> Result<Source<Stdin, File>, ReadError> {
        if name == STREAM {
            return Ok(Source::Input(self.rt.stdin()));
        }
        match fs::open(self.rt, name) {
            Ok(file) => Ok(Source::File(file)),
            Err(error) => Err(unread(&error)),
        }
    }

    fn state(&self, alloc: Global, name: &str) -> Result<(Vec<u8>, File), StateError> {
        let file = open_state(self.rt, name)?;
        lock_state(&file)?;
        match read_whole(alloc, &file) {
            Ok(bytes) => Ok((bytes, file)),
            Err(error) => Err(state_unread(&error)),
        }
    }
}
