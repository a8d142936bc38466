//! The files of several directories, by their names in each.

ghost use Rattle.std.specs.Prelude.{◌≡◌, IfOk, length};

use crate::reading::CopyError;
use jri_machine::{Devices, DirectoryWalk, NamedFile, ReadError};
use std::alloc::{AllocError, Global};
use std::cmp::Ordering;
use std::mem::replace;

/// A directory that is searched, and its next file.
#[derive(Drop)]
pub(crate) struct Tree {
    /// The size of its name with a slash at its end, in bytes.
    root: usize,
    walk: DirectoryWalk,
    next: Option<NamedFile>,
}

/// A name, and the files that have it.
#[derive(Drop)]
pub(crate) struct TreeFile {
    /// The name in each directory, of any bytes.
    pub(crate) name: Vec<u8>,
    /// The numbers of the directories that have it, from 0.
    pub(crate) trees: Vec<usize>,
    /// The names of the files in them.
    pub(crate) paths: Vec<String>,
    /// The first of them that cannot be read, and why.
    pub(crate) error: Option<(usize, CopyError)>,
    /// Whether it is neither UTF-8 nor that of a JPEG file.
    pub(crate) is_skipped: bool,
}

/// Returns the rank of a byte in the order of names: a slash comes first.
fn rank(byte: u8) -> u16 {
    if byte == b'/' {
        0
    } else {
        u16::from(byte).saturating_add(1)
    }
}

/// Compares names in the order of a search: the files of a directory `a` come before those of `a.b`.
fn compare_names(one: &[u8], other: &[u8]) -> Ordering {
    for k in 0..one.len().min(other.len()) {
        if one[k] != other[k] {
            return rank(one[k]).cmp(&rank(other[k]));
        }
    }
    one.len().cmp(&other.len())
}

/// Returns why a file is no copy.
fn unlisted(error: ReadError) -> CopyError {
    match error {
        ReadError::Memory => CopyError::Memory,
        _ => CopyError::Unlisted(error),
    }
}

impl Tree {
    /// Starts the search of a directory.
    fn of<D: Devices>(alloc: Global, devices: &D, name: &str) -> Result<Tree, AllocError> {
        let list = |name: &str| devices.entries(name);
        let mut walk = DirectoryWalk::of(alloc);
        let next = match walk.start(&list, name.as_bytes().to_vec(alloc)?)? {
            Some(file) => Some(file),
            None => walk.next(&list)?,
        };
        let slash = if name.ends_with('/') { 0 } else { 1 };
        Ok(Tree {
            root: name.len().saturating_add(slash),
            walk,
            next,
        })
    }

    /// Returns the name of the next file in the directory.
    fn name(&self) -> Option<&[u8]> {
        match &self.next {
            Some(file) => Some(file.name.as_slice().get(self.root..).unwrap_or(&[])),
            None => None,
        }
    }

    /// Returns whether the next file has this name.
    fn has(&self, name: &[u8]) -> bool {
        match self.name() {
            Some(next) => next == name,
            None => false,
        }
    }

    /// Takes the next file.
    fn take<D: Devices>(&mut self, devices: &D) -> Result<Option<NamedFile>, AllocError> {
        let list = |name: &str| devices.entries(name);
        let next = self.walk.next(&list)?;
        Ok(replace(&mut self.next, next))
    }
}

impl TreeFile {
    /// Adds the file of a directory.
    fn add(&mut self, alloc: Global, tree: usize, file: NamedFile) -> Result<(), AllocError> {
        self.trees.push(tree)?;
        self.is_skipped |= file.is_skipped;
        let error = match (file.error, str::from_utf8(file.name.as_slice())) {
            (Some(error), _) => error,
            (None, Ok(text)) => return self
                .paths
                .push(String::from_str(alloc, text)?)
                .or(Err(AllocError)),
            (None, Err(_)) => ReadError::NameIsNoText,
        };
        if self.error.is_none() {
            self.error = Some((tree, unlisted(error)));
        }
        Ok(())
    }
}

/// Starts the search of directories.
pub(crate) fn search<D: Devices>(
    alloc: Global,
    devices: &D,
    names: &[String],
) -> Result<Vec<Tree>, AllocError> {
    let mut trees = Vec::new(alloc);
    for name in names {
        trees.push(Tree::of(alloc, devices, name.as_str())?)?;
    }
    Ok(trees)
}

/// Returns the first of the names of the next files.
fn first_name(trees: &[Tree]) -> Option<&[u8]> {
    let mut first: Option<&[u8]> = None;
    for tree in trees {
        first = match (tree.name(), first) {
            (Some(name), Some(best)) if compare_names(name, best) != Ordering::Less => Some(best),
            (Some(name), _) => Some(name),
            (None, best) => best,
        };
    }
    first
}

/// Takes the files of the next name from the directories that have it; `None` after the last.
pub(crate) fn next_file<D: Devices>(
    alloc: Global,
    devices: &D,
    trees: &mut [Tree],
) -> Result<Option<TreeFile>, AllocError> {
    let name = match first_name(trees) {
        Some(name) => name.to_vec(alloc)?,
        None => return Ok(None),
    };
    let mut file = TreeFile {
        name,
        trees: Vec::new(alloc),
        paths: Vec::new(alloc),
        error: None,
        is_skipped: false,
    };
    for k in 0..trees.len() {
        if trees[k].has(file.name.as_slice())
            && let Some(found) = trees[k].take(devices)?
        {
            file.add(alloc, k, found)?;
        }
    }
    Ok(Some(file))
}
