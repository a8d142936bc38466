//! What programs ask of the machine that they run on.

ghost use Rattle.std.specs.Prelude.{Option, List, ℕ, ⊤, None, OnOk, OnErr, ◌≡◌, ◌∷◌, []};
ghost use Rattle.std.specs.String.{string_bytes};
ghost use Rattle.jri_machine.specs.Steps.{Step, Created, Synced, Removed, Opened, Made, Follow, placed};

use crate::entries::{Entry, ReadError};
use std::io::{Read, Result as IoResult, Write};

/// What the name of an image leads to.
#[derive(Clone, Copy, Drop)]
pub enum Destination {
    /// Nothing has the name.
    New,
    /// A file that a whole image replaces.
    Replaced,
    /// A device, a pipe, or a stream that some program has open: it is written into.
    WrittenInto,
    /// The file that is read.
    Source,
}

/// What becomes of a file that has the name which another file is to get.
#[derive(Clone, Copy)]
pub enum Existing {
    /// It is replaced.
    Replaced,
    /// It keeps its name.
    Kept,
}

/// A new file, and its name.
#[derive(Drop)]
pub struct Part<F> {
    /// The open file.
    pub file: F,
    /// Its name.
    pub name: String,
}

/// The standard streams and the files of a machine.
pub trait Devices {
    /// Standard input.
    type Input: Read + Drop;
    /// Standard output.
    type Output: Write + Drop;
    /// An open file.
    type File: Read + Write + Drop;

    // The steps so far, if they are known.
    ghost steps: { Self → Option (List Step) } = { λ _. None };

    // The names of devices, pipes and streams, if they are known.
    ghost are_devices: { Self → List ℕ → Type 0 } = { λ _ _. ⊤ };

    /// Standard input.
    fn input(&self) -> Self::Input;

    /// Standard output.
    fn output(&self) -> Self::Output;

    /// Returns whether standard input is a terminal.
    fn is_input_terminal(&self) -> bool;

    /// Returns whether standard output is a terminal.
    fn is_output_terminal(&self) -> bool;

    /// Opens a file to be read.
    fn open(&self, name: &str) -> IoResult<Self::File>;

    /// Returns the size in bytes of the file of a name, or of standard input if it is `None`; `None` if that is not a file.
    fn size(&self, source: Option<&str>) -> Option<u64>;

    /// Returns the files and directories in the directory of that name, in any order, and no links; `None` if it is not a
    /// directory. An entry whose name is not UTF-8 is `Unread` for that reason.
    fn entries(&self, name: &str) -> Result<Option<Vec<Entry>>, ReadError>;

    /// Returns whether a directory is another one, or lies in it.
    fn is_within(&self, name: &str, directory: &str) -> bool;

    /// Returns what this name leads to if the file `source` is read, or standard input if it is `None`.
    fn destination(&self, name: &str, source: Option<&str>) -> Destination
        ensures { result ≡ Destination.WrittenInto → are_devices self.now name.now };

    /// Opens what is written into and not replaced.
    fn open_device(&mut self, name: &str) -> IoResult<Self::File>
        ensures opened { OnOk result (Follow (steps self.old) (steps self.new) (Opened name.now ∷ [])) }
        ensures failed { OnErr result (Follow (steps self.old) (steps self.new) []) };

    /// Returns a number that names this run of the program.
    fn run_number(&self) -> u64;

    /// Creates a file if nothing has its name, with the permissions of `like` if that is a file.
    fn create(&mut self, name: &str, like: &str) -> IoResult<Self::File>
        ensures created { OnOk result (Follow (steps self.old) (steps self.new) (Created name.now ∷ [])) }
        ensures failed { OnErr result (Follow (steps self.old) (steps self.new) []) };

    /// Makes a directory of this name. If something has the name this fails with `AlreadyExists`.
    fn make_directory(&mut self, name: &str) -> IoResult<()>
        ensures made { OnOk result (Follow (steps self.old) (steps self.new) (Made name.now ∷ [])) }
        ensures failed { OnErr result (Follow (steps self.old) (steps self.new) []) };

    /// Writes to the disk what was written to a part.
    fn sync(&mut self, part: &mut Part<Self::File>) -> IoResult<()>
        ensures synced { OnOk result (Follow (steps self.old) (steps self.new) (Synced (string_bytes part.old.name) ∷ [])) }
        ensures failed { OnErr result (Follow (steps self.old) (steps self.new) []) }
        ensures name { part.new.name ≡ part.old.name };

    /// Gives a file another name. If a file with that name is to keep it, this fails with `AlreadyExists`.
    fn rename(&mut self, from: &str, to: &str, existing: Existing) -> IoResult<()>
        ensures renamed { OnOk result (Follow (steps self.old) (steps self.new) (placed existing from.now to.now ∷ [])) }
        ensures failed { OnErr result (Follow (steps self.old) (steps self.new) []) };

    /// Removes a file.
    fn remove(&mut self, name: &str) -> IoResult<()>
        ensures { Follow (steps self.old) (steps self.new) (Removed name.now ∷ []) };
}
