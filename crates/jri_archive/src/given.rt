//! The names among the arguments, and those of a list.

ghost use Rattle.std.specs.Prelude.{◌≡◌, ℕ, List, Some, None, Ok, length, map, IfOk, IfSome};
ghost use Rattle.std.specs.Io.BufRead.{strip_last};
ghost use Rattle.std.specs.Io.Buffered.{reader_remaining};
ghost use Rattle.jri_archive.specs.Names.{IsNextGiven, IsNextListed};

use crate::names::NamesError;
use std::alloc::Global;
use std::io::{BufRead, BufReader, ErrorKind, Read};
use std::marker::Model;

/// The names among the arguments, and after them those of a list, each of which ends at a NUL byte.
#[derive(Drop)]
pub(crate) struct GivenNames<I: Read + Drop> {
    words: Vec<Vec<u8>>,
    /// The number of arguments that are read.
    taken: usize,
    list: Option<BufReader<I>>,
    /// Whether a name of the list ended at a NUL byte.
    has_ended: bool,
}

impl<I: Read + Drop> Model for GivenNames<I> {
    ghost use Rattle.std.specs.Prelude.{◌≤◌, ℕ, List, Option, length};
    ghost use Rattle.std.specs.Io.Buffered.{reader_remaining};
    ghost use Rattle.jri_archive.specs.Names.{names_left};

    ghost Value = { Option (List (List ℕ)) };

    ghost view = { λ n. names_left (reader_remaining I.remaining) n.words.items n.taken n.list };

    ghost invariant = { λ n. n.taken ≤ length n.words.items };
}

/// A name of a list.
#[derive(Drop)]
struct ListedName {
    name: Vec<u8>,
    /// Whether it ends at a NUL byte, and not with the list.
    has_end: bool,
}

/// Drops the NUL byte at the end of a name, and returns whether there is one.
fn end_at_nul(name: &mut Vec<u8>) -> bool
    ensures { name.new.items ≡ strip_last 0 name.old.items }
{
    let n = name.len();
    if n == 0 || name[n - 1] != 0 {
        return false;
    }
    name.truncate(n - 1);
    true
}

/// Reads the next name of a list; `None` after the last.
fn read_name<I: Read + Drop>(
    alloc: Global,
    list: &mut BufReader<I>,
) -> Result<Option<ListedName>, NamesError>
    ensures { IfOk result (λ o. IsNextListed (reader_remaining I.remaining list.old) o (reader_remaining I.remaining list.new)) }
{
    let mut name = Vec::new(alloc);
    match list.read_until(0, &mut name) {
        Ok(0) => Ok(None),
        Ok(_) => {
            let has_end = end_at_nul(&mut name);
            Ok(Some(ListedName { name, has_end }))
        }
        Err(error) if error.kind() == ErrorKind::OutOfMemory => Err(NamesError::Memory),
        Err(_) => Err(NamesError::Read),
    }
}

impl<I: Read + Drop> GivenNames<I> {
    ghost use Rattle.std.specs.Io.Buffered.{reader_remaining};
    ghost use Rattle.jri_archive.specs.Names.{names_left};

    /// Returns the names of which none is taken yet.
    pub(crate) fn of(words: Vec<Vec<u8>>, list: Option<BufReader<I>>) -> GivenNames<I>
        ensures { result ≡ names_left (reader_remaining I.remaining) words.items 0 list }
    {
        GivenNames {
            words,
            taken: 0,
            list,
            has_ended: false,
        }
    }

    /// Returns the number of names that are left, if it is known.
    pub(crate) fn left(&self) -> Option<u64>
        ensures { (names : List (List ℕ)) → self.now ≡ Some names → IfSome result (λ n. n ≡ length names) }
    {
        if self.list.is_some() {
            return None;
        }
        Some((self.words.len() - self.taken) as u64)
    }

    /// Returns the next name among the arguments, then of the list. It ends at a NUL byte, or with the list if another name
    /// has ended so.
    pub(crate) fn next(&mut self, alloc: Global) -> Result<Option<Vec<u8>>, NamesError>
        ensures { (names : List (List ℕ)) → self.old ≡ Some names → IfOk result (λ name. IsNextGiven names name self.new) }
    {
        if self.taken < self.words.len() {
            let name = self.words[self.taken].as_slice().to_vec(alloc)?;
            self.taken += 1;
            return Ok(Some(name));
        }
        let Some(list) = &mut self.list else {
            return Ok(None);
        };
        let Some(listed) = read_name(alloc, list)? else {
            self.list = None;
            return Ok(None);
        };
        self.has_ended |= listed.has_end;
        if self.has_ended {
            return Ok(Some(listed.name));
        }
        self.list = None;
        Err(NamesError::Unended)
    }
}
