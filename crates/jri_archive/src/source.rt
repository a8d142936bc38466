//! The bytes of files, and their records in a state file.

ghost use Rattle.std.specs.Prelude.{◌≡◌, ◌⊎◌, IfOk, IfErr, IfSome, None, Some};
ghost use Rattle.sha2.specs.Sha256.{sha256};
ghost use Rattle.jri_archive.specs.Names.{IsNoText};
ghost use Rattle.jri_archive.specs.Reporting.{HasRecord, IsOlder, IsRecordOf, IsStamped};

use crate::map::ReportError;
use crate::names::FileNames;
use crate::outcome::Outcome;
use crate::reading::{CheckedBytes, Directory};
use crate::state_file::State;
use crate::state_record::{FileRecord, RecordedState, Stamp};
use jr_cut::Break;
use jri_machine::{NamedFile, ReadError};
use sha2::{Digest, Sha256};
use std::alloc::{AllocError, Global};
use std::io::{Read, Write};
use std::sync::Wait;

/// Where files come from, and the state file of a run, if it has one.
#[derive(Drop)]
pub struct CheckSource<F, W> {
    pub directory: F,
    pub state: Option<State<W>>,
}

/// The stamp and the record of a file before it is read.
#[derive(Clone, Copy)]
pub(crate) struct Glance {
    /// Its size and time.
    pub(crate) stamp: Stamp,
    /// Its record, if that has this size and time.
    pub(crate) known: Option<FileRecord>,
    /// Its record, if that has another size or time.
    pub(crate) older: Option<FileRecord>,
}

/// The stamp and the hash of a file's bytes.
#[derive(Clone, Copy)]
pub(crate) struct Seal {
    /// The size and time of the file before and after it was read.
    pub(crate) stamp: Stamp,
    /// The SHA-256 of its bytes.
    pub(crate) hash: [u8; 32],
}

/// The bytes of a file, with their stamp and hash if a state file is kept.
#[derive(Drop)]
pub(crate) struct Content {
    pub(crate) bytes: Result<Vec<u8>, ReadError>,
    pub(crate) seal: Option<Seal>,
    pub(crate) breaks: Option<Vec<Break>>,
}

impl<F: Directory, W: Write + Drop> CheckSource<F, W> {
    /// Returns the bytes of a file that are checked, and its markers that are out of step.
    fn read(
        &self,
        alloc: Global,
        file: &NamedFile,
    ) -> (Result<Vec<u8>, ReadError>, Option<Vec<Break>>)
        ensures bytes { IfOk result.0 (λ b. F.holds self.now.directory file.now.name.items b.items) }
        ensures error { IfErr result.0 (λ e. ((x : ReadError) → file.now.error ≡ Some x → IsNoText file.now.name.items x) → F.fails self.now.directory file.now.name.items e ⊎ IsNoText file.now.name.items e) }
    {
        if let Some(error) = file.error {
            return (Err(error), None);
        }
        let Ok(name) = str::from_utf8(file.name.as_slice()) else {
            return (Err(ReadError::NameIsNoText), None);
        };
        match self.directory.read_for_check(alloc, name) {
            Ok(CheckedBytes { bytes, breaks }) => (Ok(bytes), Some(breaks)),
            Err(error) => (Err(error), None),
        }
    }

    /// Returns the size and time of a file; `None` if it is not a regular one.
    fn stamp(&self, file: &NamedFile) -> Option<Stamp>
        ensures { IfSome result (F.stamps self.now.directory file.now.name.items) }
    {
        match str::from_utf8(file.name.as_slice()) {
            Ok(name) => self.directory.stamp(name),
            Err(_) => None,
        }
    }

    /// Returns the stamp and the record of a file before it is read; `None` if no state file is kept, or if it is not a regular
    /// file.
    pub(crate) fn look(&self, file: &NamedFile) -> Option<Glance>
        ensures stamp { IfSome result (λ g. F.stamps self.now.directory file.now.name.items g.stamp) }
        ensures known { IfSome result (λ g. IfSome g.known (IsStamped (F.stamps self.now.directory) (HasRecord self.now.state) file.now.name.items)) }
        ensures older { IfSome result (λ g. IfSome g.older (IsOlder (HasRecord self.now.state) file.now.name.items g.stamp)) }
    {
        let state = self.state.as_ref()?;
        let stamp = self.stamp(file)?;
        match state.find(file.name.as_slice()) {
            Some(known) if known.stamp == stamp => Some(Glance {
                stamp,
                known: Some(known),
                older: None,
            }),
            older => Some(Glance {
                stamp,
                known: None,
                older,
            }),
        }
    }

    /// Returns the recorded verdict of a file that is not read again; `None` if it is read.
    pub(crate) fn unchanged(
        &self,
        _file: &NamedFile,
        glance: &Option<Glance>,
    ) -> Option<RecordedState>
        requires { IfSome glance.now (λ g. IfSome g.known (IsStamped (F.stamps self.now.directory) (HasRecord self.now.state) _file.now.name.items)) }
        ensures { IfSome result (λ was. (r : FileRecord) × IsStamped (F.stamps self.now.directory) (HasRecord self.now.state) _file.now.name.items r × (r.state ≡ was)) }
    {
        if let Some(state) = &self.state
            && !state.is_verifying()
            && let Some(glance) = glance
            && let Some(known) = glance.known
        {
            return Some(known.state);
        }
        None
    }

    /// Returns the record of a file that has its size and time.
    pub(crate) fn known(&self, _file: &NamedFile, glance: &Option<Glance>) -> Option<FileRecord>
        requires { IfSome glance.now (λ g. IfSome g.known (IsStamped (F.stamps self.now.directory) (HasRecord self.now.state) _file.now.name.items)) }
        ensures { IfSome result (IsStamped (F.stamps self.now.directory) (HasRecord self.now.state) _file.now.name.items) }
    {
        match glance {
            Some(glance) => glance.known,
            None => None,
        }
    }

    /// Returns the record of a file that is verified, if that has another size or time.
    pub(crate) fn older(&self, _file: &NamedFile, glance: &Option<Glance>) -> Option<FileRecord>
        requires { IfSome glance.now (λ g. IfSome g.older (IsOlder (HasRecord self.now.state) _file.now.name.items g.stamp)) }
        ensures { IfSome result (HasRecord self.now.state _file.now.name.items) }
    {
        if let Some(state) = &self.state
            && state.is_verifying()
            && let Some(glance) = glance
        {
            return glance.older;
        }
        None
    }

    /// Returns whether there is no regular file of that name.
    fn is_gone(&self, name: &[u8]) -> bool {
        match str::from_utf8(name) {
            Ok(name) => self.directory.stamp(name).is_none(),
            Err(_) => false,
        }
    }

    /// Returns the names, in order, that have a record but no regular file, among those below the directories that are searched.
    /// There are none unless records are verified.
    pub(crate) fn missing<I: Read + Drop>(
        &self,
        alloc: Global,
        names: &FileNames<I>,
    ) -> Result<Vec<Vec<u8>>, AllocError> {
        let mut missing = Vec::new(alloc);
        if let Some(state) = &self.state
            && state.is_verifying()
        {
            for name in state.names() {
                if names.has_searched(name) && self.is_gone(name) {
                    missing.push(name.as_slice().to_vec(alloc)?)?;
                }
            }
        }
        missing.sort_unstable_by(|a, b| a.as_slice().cmp(b.as_slice()));
        Ok(missing)
    }

    /// Reads a file once. There is no seal if its size or time changed meanwhile.
    pub(crate) fn content(
        &self,
        alloc: Global,
        file: &NamedFile,
        glance: &Option<Glance>,
    ) -> Content
        requires { IfSome glance.now (λ g. F.stamps self.now.directory file.now.name.items g.stamp) }
        ensures bytes { IfOk result.bytes (λ b. F.holds self.now.directory file.now.name.items b.items) }
        ensures error { IfErr result.bytes (λ e. ((x : ReadError) → file.now.error ≡ Some x → IsNoText file.now.name.items x) → F.fails self.now.directory file.now.name.items e ⊎ IsNoText file.now.name.items e) }
        ensures stamp { IfSome result.seal (λ s. F.stamps self.now.directory file.now.name.items s.stamp) }
        ensures hash { IfSome result.seal (λ s. IfOk result.bytes (λ b. s.hash ≡ sha256 b.items)) }
        ensures sealed { IfErr result.bytes (λ _. result.seal ≡ None) }
    {
        let (bytes, breaks) = self.read(alloc, file);
        let mut seal = None;
        if let Some(glance) = glance
            && let Ok(read) = &bytes
            && self.stamp(file) == Some(glance.stamp)
        {
            let hash = Sha256::digest(read.as_slice());
            seal = Some(Seal {
                stamp: glance.stamp,
                hash,
            });
        }
        Content {
            bytes,
            seal,
            breaks,
        }
    }

    /// Appends the record of a file to the state file by one write.
    pub(crate) fn append<R: Wait>(
        &self,
        rt: &R,
        alloc: Global,
        name: &[u8],
        file: &FileRecord,
        _outcome: &Outcome,
    ) -> Result<(), ReportError>
        requires { IsRecordOf (F.holds self.now.directory) (F.stamps self.now.directory) name.now file.now _outcome.now }
    {
        match &self.state {
            Some(state) => state.append(rt, alloc, name, file),
            None => Ok(()),
        }
    }
}
