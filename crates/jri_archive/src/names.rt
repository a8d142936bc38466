//! The names of the files that are checked, in order.

ghost use Rattle.std.specs.Prelude.{◌≡◌, ℕ, List, Some, None, false, length, IfOk, IfSome, IfNone};
ghost use Rattle.std.specs.Io.Buffered.{reader_remaining};
ghost use Rattle.jri_archive.specs.Names.{IsNamed, IsNextFile, IsNoText, names_left};

use crate::given::GivenNames;
use crate::reading::Directory;
use jri_machine::{DirectoryWalk, NamedFile, ReadError};
use std::alloc::{AllocError, Global};
use std::io::{BufReader, Read};
use std::marker::Model;

/// Why there is no further name.
#[derive(Clone, Copy)]
pub enum NamesError {
    Read,
    /// The list has bytes, and no NUL byte.
    Unended,
    Memory,
}

impl From<AllocError> for NamesError {
    fn from(_refused: AllocError) -> Self {
        NamesError::Memory
    }
}

/// The names among the arguments, those of a list, and those of the files in directories.
#[derive(Drop)]
pub struct FileNames<I: Read + Drop> {
    given: GivenNames<I>,
    /// The search of directories, if they are searched.
    walk: Option<DirectoryWalk>,
}

impl<I: Read + Drop> Model for FileNames<I> {
    ghost use Rattle.std.specs.Prelude.{ℕ, List, Option};
    ghost use Rattle.jri_archive.specs.Names.{known_names};

    ghost Value = { Option (List (List ℕ)) };

    ghost view = { λ n. known_names n.given n.walk };
}

/// Returns the reason why a file is not opened by this name: it is not UTF-8.
fn refused_name(name: &[u8]) -> Option<ReadError>
    ensures { (e : ReadError) → result ≡ Some e → IsNoText name.now e }
{
    match str::from_utf8(name) {
        Ok(_) => None,
        Err(_) => Some(ReadError::NameIsNoText),
    }
}

/// Returns the file of a name, if there is one.
fn file_of(name: Option<Vec<u8>>) -> Option<NamedFile>
    ensures none { IfNone name (result ≡ None) }
    ensures some { IfSome name (λ n. (file : NamedFile) × (result ≡ Some file) × IsNamed file n.items) }
{
    match name {
        Some(name) => {
            let error = refused_name(name.as_slice());
            Some(NamedFile {
                name,
                error,
                is_skipped: false,
            })
        }
        None => None,
    }
}

/// Returns the next file, with each directory replaced by the files in it; `None` after the last.
fn next_found<F: Directory, I: Read + Drop>(
    alloc: Global,
    walk: &mut DirectoryWalk,
    directory: &F,
    given: &mut GivenNames<I>,
) -> Result<Option<NamedFile>, NamesError> {
    let list = |name: &str| directory.entries(alloc, name);
    for _ in 0..u64::MAX {
        if let Some(file) = walk.next(&list)? {
            return Ok(Some(file));
        }
        let Some(name) = given.next(alloc)? else {
            return Ok(None);
        };
        if let Some(file) = walk.start(&list, name)? {
            return Ok(Some(file));
        }
    }
    Ok(None)
}

impl<I: Read + Drop> FileNames<I> {
    /// Returns the names of which none is taken yet.
    pub fn of(
        alloc: Global,
        given: Vec<Vec<u8>>,
        list: Option<BufReader<I>>,
        is_recursive: bool,
    ) -> FileNames<I>
        ensures { is_recursive ≡ false → result ≡ names_left (reader_remaining I.remaining) given.items 0 list }
    {
        let mut walk = None;
        if is_recursive {
            walk = Some(DirectoryWalk::of(alloc));
        }
        FileNames {
            given: GivenNames::of(given, list),
            walk,
        }
    }

    /// Returns whether a file of that name lies below a directory that was given and is searched.
    pub(crate) fn has_searched(&self, name: &[u8]) -> bool {
        match &self.walk {
            Some(walk) => walk.has_searched(name),
            None => false,
        }
    }

    /// Returns the number of names that are left, if it is known.
    pub fn left(&self) -> Option<u64>
        ensures { (names : List (List ℕ)) → self.now ≡ Some names → IfSome result (λ n. n ≡ length names) }
    {
        match self.walk {
            Some(_) => None,
            None => self.given.left(),
        }
    }

    /// Returns the next file; `None` after the last.
    pub fn next<F: Directory>(
        &mut self,
        alloc: Global,
        directory: &F,
    ) -> Result<Option<NamedFile>, NamesError>
        ensures { (names : List (List ℕ)) → self.old ≡ Some names → IfOk result (λ file. IsNextFile names file self.new) }
    {
        if let Some(walk) = &mut self.walk {
            return next_found(alloc, walk, directory, &mut self.given);
        }
        Ok(file_of(self.given.next(alloc)?))
    }
}
