//! What is done to the copies before they are mended.

ghost use Rattle.std.specs.Prelude.{◌≡◌, length};

use crate::asking::MendRequest;
use crate::breaks::CopyBreak;
use crate::headers::{Borrowed, borrow_headers};
use crate::reading::{CopyError, resync_files};
use std::alloc::Global;

/// What is done to the copies before they are mended.
#[derive(Drop)]
pub(crate) struct Prepared {
    /// The copies that are read under the header of another one.
    pub(crate) borrowed: Vec<Borrowed>,
    /// The restart markers that are out of step.
    pub(crate) breaks: Vec<CopyBreak>,
    /// For each copy what it becomes if it is resynchronised.
    pub(crate) resynced: Vec<Option<Vec<u8>>>,
}

impl Prepared {
    /// Returns whether something is done to the first copy.
    pub(crate) fn changes_first(&self) -> bool {
        for found in &self.borrowed {
            if found.copy == 0 {
                return true;
            }
        }
        self.has_first_break()
    }

    /// Returns whether the first copy has a break.
    fn has_first_break(&self) -> bool {
        for found in &self.breaks {
            if found.copy == 0 {
                return true;
            }
        }
        false
    }
}

/// Gives the copies their headers and resynchronises them, as far as the request says. The error has the
/// number of a copy.
pub(crate) fn prepare(
    alloc: Global,
    asked: &MendRequest,
    files: &mut [Vec<u8>],
) -> Result<Prepared, (usize, CopyError)>
    ensures { length files.new ≡ length files.old }
{
    let borrowed = if asked.is_borrowing {
        borrow_headers(alloc, files)?
    } else {
        Vec::new(alloc)
    };
    let mut breaks = Vec::new(alloc);
    let resynced = if asked.is_resync {
        resync_files(alloc, files, &mut breaks)?
    } else {
        Vec::new(alloc)
    };
    Ok(Prepared {
        borrowed,
        breaks,
        resynced,
    })
}
