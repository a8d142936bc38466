//! The machine on which a program runs.

use crate::devices::{Destination, Devices, Existing, Part};
use crate::entries::{Entry, ReadError};
use crate::listing::entries_in;
use crate::retried::Retried;
use std::fs::{File, Metadata, OpenOptions};
use std::io::{ErrorKind, IsTerminal, Result as IoResult, Stdin, Stdout};
use std::os::fd::AsRawFd;
use std::os::unix::fs::{MetadataExt, OpenOptionsExt};
use std::rt::Files;
use std::time::{SystemTime, UNIX_EPOCH};
use std::{fs, process};

/// The name under which a system shows standard input.
const STANDARD_INPUT: &str = "/dev/stdin";

/// Maximum number of links that a name leads over.
const MAX_LINKS: u32 = 40;

/// Opens `/dev/null` so that reading from standard input fails, as it does if that is closed, or writing to the others does.
fn closed_stream(rt: &HostRuntime, is_input: bool) -> IoResult<File> {
    OpenOptions::new()
        .read(!is_input)
        .write(is_input)
        .open(rt, "/dev/null")
}

/// Takes the number of a standard stream that is closed, if there is one.
fn held_stream(rt: &HostRuntime) -> Option<File> {
    let file = closed_stream(rt, false).ok()?;
    match file.as_raw_fd() {
        0 => {
            drop(file);
            closed_stream(rt, true).ok()
        }
        1 | 2 => Some(file),
        _ => None,
    }
}

/// Takes the numbers of all standard streams that are closed, so that no file that the program opens gets one of them.
pub fn hold_streams(rt: &HostRuntime) -> [Option<File>; 3] {
    let first = held_stream(rt);
    if first.is_none() {
        return [None, None, None];
    }
    [first, held_stream(rt), held_stream(rt)]
}

/// The machine on which a program runs.
#[derive(Drop)]
pub struct Machine<'a> {
    pub rt: &'a HostRuntime,
}

/// Returns whether a name is in a directory of devices or of open streams.
fn is_of_system(name: &str) -> bool {
    name.starts_with("/dev/") || name.starts_with("/proc/")
}

impl Machine<'_> {
    /// Returns whether a file is the one that is read.
    fn is_source(&self, found: &Metadata, source: Option<&str>) -> bool {
        match fs::metadata(self.rt, source.unwrap_or(STANDARD_INPUT)) {
            Ok(other) => found.is_file()
                && found.dev() == other.dev()
                && found.ino() == other.ino(),
            Err(_) => false,
        }
    }

    /// Returns the name that a link leads to; `None` if this is no link.
    fn target_of(&self, link: &str) -> Option<String> {
        let target = fs::read_link(self.rt, link).ok()?;
        let target = target.to_str()?;
        match link.rsplit_once('/') {
            Some((directory, _)) if !target.starts_with('/') => {
                format!(in self.rt.alloc(); "{directory}/{target}").ok()
            }
            _ => String::from_str(self.rt.alloc(), target).ok(),
        }
    }

    /// Returns whether a name leads over links that are in `/dev` or `/proc`, or lead there.
    fn leads_into_system(&self, name: &str) -> bool {
        let Ok(mut at) = String::from_str(self.rt.alloc(), name) else {
            return false;
        };
        for _ in 0..MAX_LINKS {
            let Some(target) = self.target_of(at.as_str()) else {
                return false;
            };
            if is_of_system(at.as_str()) || is_of_system(target.as_str()) {
                return true;
            }
            at = target;
        }
        false
    }

    /// Gives a file a name that nothing has. On a file system without links an empty file takes the name first.
    fn take_name(&self, from: &str, to: &str) -> IoResult<()> {
        match fs::hard_link(self.rt, from, to) {
            Ok(()) => {
                let _ = fs::remove_file(self.rt, from);
                return Ok(());
            }
            Err(error) if error.kind() == ErrorKind::AlreadyExists => return Err(error),
            Err(_) => {}
        }
        drop(File::create_new(self.rt, to)?);
        fs::rename(self.rt, from, to)
    }

    /// Writes to the disk which names the directory of a file has. A file system that cannot is left alone.
    fn sync_directory(&self, name: &str) {
        let directory = match name.rsplit_once('/') {
            Some(("", _)) => "/",
            Some((directory, _)) => directory,
            None => ".",
        };
        if let Ok(directory) = fs::open(self.rt, directory) {
            let _ = directory.sync_all();
        }
    }
}

impl<'a> Devices for Machine<'a> {
    type Input = Retried<Stdin>;

    type Output = Retried<Stdout>;

    type File = Retried<File>;

    fn input(&self) -> Retried<Stdin> {
        Retried::of(self.rt.stdin())
    }

    fn output(&self) -> Retried<Stdout> {
        Retried::of(self.rt.stdout())
    }

    fn is_input_terminal(&self) -> bool {
        self.rt.stdin().is_terminal()
    }

    fn is_output_terminal(&self) -> bool {
        self.rt.stdout().is_terminal()
    }

    fn open(&self, name: &str) -> IoResult<Retried<File>> {
        Ok(Retried::of(fs::open(self.rt, name)?))
    }

    fn size(&self, source: Option<&str>) -> Option<u64> {
        match fs::metadata(self.rt, source.unwrap_or(STANDARD_INPUT)) {
            Ok(found) if found.is_file() => Some(found.len()),
            _ => None,
        }
    }

    fn entries(&self, name: &str) -> Result<Option<Vec<Entry>>, ReadError> {
        entries_in(self.rt, name)
    }

    fn is_within(&self, name: &str, directory: &str) -> bool {
        match (
            fs::canonicalize(self.rt, name),
            fs::canonicalize(self.rt, directory),
        ) {
            (Ok(name), Ok(directory)) => name.starts_with(&directory),
            _ => false,
        }
    }

    fn destination(&self, name: &str, source: Option<&str>) -> Destination {
        match fs::metadata(self.rt, name) {
            Ok(found) if self.is_source(&found, source) => Destination::Source,
            Ok(found) if !found.is_file() && !found.is_dir() => Destination::WrittenInto,
            Ok(_) if self.leads_into_system(name) => Destination::WrittenInto,
            Ok(_) => Destination::Replaced,
            Err(_) if fs::symlink_metadata(self.rt, name).is_ok() => Destination::Replaced,
            Err(_) => Destination::New,
        }
    }

    fn open_device(&mut self, name: &str) -> IoResult<Retried<File>> {
        // a stream that is a file continues at its end, where a shell's `>` or `>>` leaves it
        let file = OpenOptions::new().append(true).open(self.rt, name)?;
        Ok(Retried::of(file))
    }

    fn run_number(&self) -> u64 {
        let process = u64::from(process::id(self.rt.process()));
        let now = SystemTime::now(self.rt)
            .ok()
            .and_then(|now| now.duration_since(UNIX_EPOCH).ok());
        let clock = now.map_or(0, |now| u64::from(now.subsec_nanos()));
        process << 32 | clock
    }

    fn create(&mut self, name: &str, like: &str) -> IoResult<Retried<File>> {
        let file = match fs::metadata(self.rt, like) {
            Ok(found) if found.is_file() => {
                let mode = found.mode() & 0o777;
                let file = OpenOptions::new()
                    .write(true)
                    .create_new(true)
                    .mode(mode)
                    .open(self.rt, name)?;
                let _ = file.set_permissions(found.permissions());
                file
            }
            _ => File::create_new(self.rt, name)?,
        };
        Ok(Retried::of(file))
    }

    fn make_directory(&mut self, name: &str) -> IoResult<()> {
        fs::create_dir(self.rt, name)?;
        self.sync_directory(name);
        Ok(())
    }

    fn sync(&mut self, part: &mut Part<Retried<File>>) -> IoResult<()> {
        part.file.inner().sync_all()
    }

    fn rename(&mut self, from: &str, to: &str, existing: Existing) -> IoResult<()> {
        match existing {
            Existing::Replaced => fs::rename(self.rt, from, to)?,
            Existing::Kept => self.take_name(from, to)?,
        }
        self.sync_directory(to);
        Ok(())
    }

    fn remove(&mut self, name: &str) -> IoResult<()> {
        fs::remove_file(self.rt, name)
    }
}
