//! A machine of memory: its standard streams, and a directory of files.

ghost use Rattle.std.specs.Io.{ReadsAtMost};

use jri_machine::{Destination, Devices, Entry, EntryKind, Existing, Part, ReadError};
use std::alloc::{AllocError, Global};
use std::cell::RefCell;
use std::io::{Error, ErrorKind, Read, Result as IoResult, Write};
use std::mem::replace;
use std::rc::Rc;

/// The bytes of a file or a stream, which all of its handles share.
type Bytes = Rc<RefCell<Vec<u8>>>;

/// An open file or stream, with space for a number of further bytes.
#[derive(Drop)]
pub(crate) struct Handle {
    bytes: Option<Bytes>,
    at: usize,
    space: usize,
    refusal: ErrorKind,
    can_flush: bool,
}

/// Reads the bytes starting at an offset.
fn read_at(bytes: &Bytes, at: usize, buf: &mut [u8]) -> IoResult<usize>
    ensures { ReadsAtMost result buf.new }
{
    match bytes.try_borrow() {
        Ok(bytes) => bytes.get(at..).unwrap_or(&[]).read(buf),
        Err(_) => Err(Error::from(ErrorKind::Other)),
    }
}

/// Appends bytes to a file or a stream.
fn append(bytes: &Bytes, more: &[u8]) -> Result<(), AllocError> {
    match bytes.try_borrow_mut() {
        Ok(mut bytes) => bytes.extend_from_slice(more),
        Err(_) => Err(AllocError),
    }
}

impl Read for Handle {
    fn read(&mut self, buf: &mut [u8]) -> IoResult<usize> {
        let count = match &self.bytes {
            Some(bytes) => read_at(bytes, self.at, buf)?,
            None => return Err(Error::from(ErrorKind::Other)),
        };
        self.at = self.at.saturating_add(count);
        Ok(count)
    }
}

impl Write for Handle {
    fn write(&mut self, buf: &[u8]) -> IoResult<usize> {
        if self.space < buf.len() {
            return Err(Error::from(self.refusal));
        }
        self.space -= buf.len();
        match &self.bytes {
            Some(bytes) if append(bytes, buf).is_ok() => Ok(buf.len()),
            _ => Err(Error::from(ErrorKind::Other)),
        }
    }

    fn flush(&mut self) -> IoResult<()> {
        if self.can_flush {
            Ok(())
        } else {
            Err(Error::from(self.refusal))
        }
    }
}

/// A file of the directory.
#[derive(Drop)]
pub(crate) struct Named {
    name: String,
    bytes: Bytes,
    is_device: bool,
}

/// The machine.
#[derive(Drop)]
pub(crate) struct Machine {
    pub(crate) alloc: Global,
    input: Bytes,
    output: Bytes,
    pub(crate) files: Vec<Named>,
    pub(crate) has_input_terminal: bool,
    pub(crate) has_output_terminal: bool,
    /// The number of bytes for which each output and each new file has space.
    pub(crate) space: usize,
    /// The error of a write past them.
    pub(crate) refusal: ErrorKind,
    pub(crate) can_rename: bool,
    pub(crate) can_create: bool,
    pub(crate) can_flush: bool,
    pub(crate) can_sync: bool,
    /// The size that each file claims to have, if it is not that of its bytes.
    pub(crate) claimed_size: Option<u64>,
    /// The name that another run gives a file while this one decodes, if there is one.
    pub(crate) taken_meanwhile: Option<String>,
}

fn shared(alloc: Global, bytes: &[u8]) -> Result<Bytes, AllocError> {
    let bytes = Vec::from_slice(alloc, bytes)?;
    Rc::new(alloc, RefCell::new(bytes)).or(Err(AllocError))
}

/// Returns the bytes that handles share.
fn copied(alloc: Global, bytes: &Bytes) -> Result<Vec<u8>, AllocError> {
    match bytes.try_borrow() {
        Ok(bytes) => Vec::from_slice(alloc, bytes.as_slice()),
        Err(_) => Err(AllocError),
    }
}

impl Machine {
    /// Returns a machine with nothing on standard input, an empty directory, and no terminal.
    pub(crate) fn new(alloc: Global) -> Result<Self, AllocError> {
        Ok(Machine {
            alloc,
            input: shared(alloc, &[])?,
            output: shared(alloc, &[])?,
            files: Vec::new(alloc),
            has_input_terminal: false,
            has_output_terminal: false,
            space: usize::MAX,
            refusal: ErrorKind::StorageFull,
            can_rename: true,
            can_create: true,
            can_flush: true,
            can_sync: true,
            claimed_size: None,
            taken_meanwhile: None,
        })
    }

    /// Adds a file to the directory.
    pub(crate) fn store(
        &mut self,
        name: &str,
        bytes: &[u8],
        is_device: bool,
    ) -> Result<(), AllocError> {
        let named = Named {
            name: String::from_str(self.alloc, name)?,
            bytes: shared(self.alloc, bytes)?,
            is_device,
        };
        if self.files.push(named).is_err() {
            return Err(AllocError);
        }
        Ok(())
    }

    /// Gives standard input the content of a file.
    pub(crate) fn read_from(&mut self, name: &str) -> Result<(), AllocError> {
        let bytes = self.kept(name)?.ok_or(AllocError)?;
        drop(replace(&mut self.input, shared(self.alloc, bytes.as_slice())?));
        Ok(())
    }

    /// Returns the content of standard output.
    pub(crate) fn written(&self) -> Result<Vec<u8>, AllocError> {
        copied(self.alloc, &self.output)
    }

    /// Returns the content of a file.
    pub(crate) fn kept(&self, name: &str) -> Result<Option<Vec<u8>>, AllocError> {
        match self.named(name) {
            Some(file) => Ok(Some(copied(self.alloc, &file.bytes)?)),
            None => Ok(None),
        }
    }

    fn place(&self, name: &str) -> Option<usize> {
        for i in 0..self.files.len() {
            if self.files[i].name.as_str() == name {
                return Some(i);
            }
        }
        None
    }

    fn named(&self, name: &str) -> Option<&Named> {
        self.files.get(self.place(name)?)
    }

    fn handle(&self, bytes: &Bytes) -> Handle {
        Handle {
            bytes: bytes.clone().ok(),
            at: 0,
            space: self.space,
            refusal: self.refusal,
            can_flush: self.can_flush,
        }
    }

    /// Does what another run does while this one decodes: takes a name.
    fn let_others_run(&mut self) -> Result<(), AllocError> {
        match replace(&mut self.taken_meanwhile, None) {
            Some(name) => self.store(name.as_str(), b"old\n", false),
            None => Ok(()),
        }
    }
}

/// Returns whether a name is one in a directory.
fn is_in(name: &str, directory: &str) -> bool {
    match name.strip_prefix(directory.trim_end_matches('/')) {
        Some(rest) => rest.starts_with('/'),
        None => false,
    }
}

/// Returns the entry of a directory that a file is, or in which it lies.
fn entry_of<'a>(file: &'a str, directory: &str) -> Option<(&'a str, EntryKind)> {
    let rest = file
        .strip_prefix(directory.trim_end_matches('/'))?
        .strip_prefix('/')?;
    match rest.split_once('/') {
        Some((_, below)) => {
            let end = file.len().saturating_sub(below.len()).saturating_sub(1);
            Some((file.get(..end)?, EntryKind::Directory))
        }
        None => Some((file, EntryKind::File)),
    }
}

impl Machine {
    /// Returns the entries of a directory of the names of files.
    fn entries_of(&self, directory: &str) -> Result<Vec<Entry>, AllocError> {
        let mut entries: Vec<Entry> = Vec::new(self.alloc);
        for file in &self.files {
            if let Some((name, kind)) = entry_of(file.name.as_str(), directory)
                && !entries
                    .iter()
                    .any(|entry| entry.name.as_slice() == name.as_bytes())
            {
                let name = name.as_bytes().to_vec(self.alloc)?;
                entries.push(Entry { name, kind })?;
            }
        }
        Ok(entries)
    }
}

impl Devices for Machine {
    type Input = Handle;

    type Output = Handle;

    type File = Handle;

    fn input(&self) -> Handle {
        self.handle(&self.input)
    }

    fn output(&self) -> Handle {
        self.handle(&self.output)
    }

    fn is_input_terminal(&self) -> bool {
        self.has_input_terminal
    }

    fn is_output_terminal(&self) -> bool {
        self.has_output_terminal
    }

    fn open(&self, name: &str) -> IoResult<Handle> {
        match self.named(name) {
            Some(file) => Ok(self.handle(&file.bytes)),
            None => Err(Error::from(ErrorKind::NotFound)),
        }
    }

    fn size(&self, source: Option<&str>) -> Option<u64> {
        let file = self.named(source?)?;
        let bytes = file.bytes.try_borrow().ok()?;
        Some(self.claimed_size.unwrap_or(bytes.len() as u64))
    }

    fn entries(&self, name: &str) -> Result<Option<Vec<Entry>>, ReadError> {
        match self.entries_of(name) {
            Ok(entries) if !entries.is_empty() => Ok(Some(entries)),
            Ok(_) if self.named(name).is_some() => Ok(None),
            Ok(_) => Err(ReadError::NotFound),
            Err(_) => Err(ReadError::Memory),
        }
    }

    fn is_within(&self, name: &str, directory: &str) -> bool {
        name == directory || is_in(name, directory)
    }

    fn destination(&self, name: &str, source: Option<&str>) -> Destination {
        match (source, self.named(name)) {
            (Some(source), _) if source == name => Destination::Source,
            (_, Some(file)) if file.is_device => Destination::WrittenInto,
            (_, Some(_)) => Destination::Replaced,
            (_, None) => Destination::New,
        }
    }

    fn open_device(&mut self, name: &str) -> IoResult<Handle> {
        self.open(name)
    }

    fn run_number(&self) -> u64 {
        0xAB
    }

    fn create(&mut self, name: &str, _like: &str) -> IoResult<Handle> {
        if self.named(name).is_some() {
            return Err(Error::from(ErrorKind::AlreadyExists));
        }
        if !self.can_create {
            return Err(Error::from(ErrorKind::PermissionDenied));
        }
        self.store(name, &[], false)?;
        self.open(name)
    }

    fn make_directory(&mut self, _name: &str) -> IoResult<()> {
        Ok(())
    }

    fn sync(&mut self, _part: &mut Part<Handle>) -> IoResult<()> {
        if !self.can_sync {
            return Err(Error::from(ErrorKind::StorageFull));
        }
        self.let_others_run()?;
        Ok(())
    }

    fn rename(&mut self, from: &str, to: &str, existing: Existing) -> IoResult<()> {
        if !self.can_rename {
            return Err(Error::from(ErrorKind::PermissionDenied));
        }
        if matches!(existing, Existing::Kept) && self.named(to).is_some() {
            return Err(Error::from(ErrorKind::AlreadyExists));
        }
        if self.named(from).is_none() {
            return Err(Error::from(ErrorKind::NotFound));
        }
        let _ = self.remove(to);
        let name = String::from_str(self.alloc, to)?;
        match self.place(from) {
            Some(place) if place < self.files.len() => {
                drop(replace(&mut self.files[place].name, name));
                Ok(())
            }
            _ => Err(Error::from(ErrorKind::NotFound)),
        }
    }

    fn remove(&mut self, name: &str) -> IoResult<()> {
        match self.place(name) {
            Some(place) if place < self.files.len() => {
                drop(self.files.remove(place));
                Ok(())
            }
            _ => Err(Error::from(ErrorKind::NotFound)),
        }
    }
}
