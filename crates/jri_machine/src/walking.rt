//! The JPEG files in directories.

use crate::entries::{Entry, EntryKind, ReadError};
use std::alloc::{AllocError, Global};
use std::collections::HashSet;

/// What ends the names of JPEG files.
const ENDINGS: [&str; 4] = [".jpg", ".jpeg", ".jpe", ".jfif"];

/// Returns whether the name is that of a JPEG file.
pub fn is_jpeg(name: &[u8]) -> bool {
    for ending in ENDINGS {
        let start = name.len().saturating_sub(ending.len());
        if name[start..].eq_ignore_ascii_case(ending.as_bytes()) {
            return true;
        }
    }
    false
}

/// A file that is to be read, or why it is not opened.
#[derive(Drop)]
pub struct NamedFile {
    pub name: Vec<u8>,
    pub error: Option<ReadError>,
    /// It was found in a directory, and its name is neither UTF-8 nor that of a JPEG file: it may be a file of any kind.
    pub is_skipped: bool,
}

/// Returns whether an entry of a directory may be a file of any kind: its name is neither UTF-8 nor that of a JPEG file.
fn is_unknown(entry: &Entry) -> bool {
    matches!(entry.kind, EntryKind::Unread(ReadError::NameIsNoText))
        && !is_jpeg(entry.name.as_slice())
}

/// A search of directories. Its calls take what lists the directory of a name: its files and directories, in any order, and
/// no links; `None` if it is not a directory.
#[derive(Drop)]
pub struct DirectoryWalk {
    /// The entries of the directories, the next one last.
    waiting: Vec<Entry>,
    /// The directories in which the search started, as they were named.
    searched: HashSet<Vec<u8>>,
}

impl DirectoryWalk {
    /// Returns a walk that has entered no directory yet.
    pub fn of(alloc: Global) -> DirectoryWalk {
        DirectoryWalk {
            waiting: Vec::new(alloc),
            searched: HashSet::new(alloc),
        }
    }

    /// Returns whether a file of that name lies below a directory in which the search started.
    pub fn has_searched(&self, name: &[u8]) -> bool {
        for at in 0..name.len() {
            if name[at] == b'/'
                && (self.searched.contains(&name[..at]) || self.searched.contains(&name[..=at]))
            {
                return true;
            }
        }
        false
    }

    /// Continues with the entries of a directory, in the order of their names. Returns whether it is a directory.
    fn enter<L: Fn(&str) -> Result<Option<Vec<Entry>>, ReadError>>(
        &mut self,
        list: &L,
        name: &[u8],
    ) -> Result<Result<bool, ReadError>, AllocError>
        requires { L.IsAlwaysCallable list.now }
    {
        let Ok(text) = str::from_utf8(name) else {
            return Ok(Err(ReadError::NameIsNoText));
        };
        match list(text) {
            Ok(Some(mut entries)) => {
                entries.sort_unstable_by(|a, b| b.name.as_slice().cmp(a.name.as_slice()));
                self.waiting.append(&mut entries)?;
                Ok(Ok(true))
            }
            Ok(None) => Ok(Ok(false)),
            Err(error) => Ok(Err(error)),
        }
    }

    /// Starts the search of a directory. Returns the file, if the name is not that of a directory that is listed.
    pub fn start<L: Fn(&str) -> Result<Option<Vec<Entry>>, ReadError>>(
        &mut self,
        list: &L,
        name: Vec<u8>,
    ) -> Result<Option<NamedFile>, AllocError>
        requires { L.IsAlwaysCallable list.now }
    {
        let entered = self.enter(list, name.as_slice())?;
        if !matches!(entered, Ok(true)) {
            return Ok(Some(NamedFile {
                name,
                error: entered.err(),
                is_skipped: false,
            }));
        }
        match self.searched.insert(name) {
            Ok(_) => Ok(None),
            Err(_) => Err(AllocError),
        }
    }

    /// Returns the next JPEG file in the directories that are being searched, each of which is replaced by the files in it;
    /// `None` after the last.
    pub fn next<L: Fn(&str) -> Result<Option<Vec<Entry>>, ReadError>>(
        &mut self,
        list: &L,
    ) -> Result<Option<NamedFile>, AllocError>
        requires { L.IsAlwaysCallable list.now }
    {
        for _ in 0..u64::MAX {
            let Some(entry) = self.waiting.pop() else {
                return Ok(None);
            };
            let is_skipped = is_unknown(&entry);
            let entered = match entry.kind {
                EntryKind::Directory => self.enter(list, entry.name.as_slice())?,
                EntryKind::File => Ok(!is_jpeg(entry.name.as_slice())),
                EntryKind::Unread(error) => Err(error),
            };
            if !matches!(entered, Ok(true)) {
                return Ok(Some(NamedFile {
                    name: entry.name,
                    error: entered.err(),
                    is_skipped,
                }));
            }
        }
        Ok(None)
    }
}
