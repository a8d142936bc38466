//! Arguments that ask for help, are wrong, or for which memory ran out, and the answer to them.

ghost use Rattle.std.specs.Prelude.{◌≡◌};
ghost use Rattle.clap.specs.Values.{kind_of};
ghost use Rattle.clap.specs.declared.error.kind.ErrorKind.TheVariants.{OutOfMemory};
ghost use Rattle.jr_base.specs.Tally.{has_failed};
ghost use Rattle.jri_machine.specs.Status.{AsksForHelp, answered_status, unasked_status};

use clap::error::ErrorKind;
use jr_base::Tally;
use std::alloc::{AllocError, Global};
use std::io;
use std::io::Write;

/// The reason why arguments ask for nothing further.
#[derive(Drop)]
pub enum Unasked {
    /// They ask for help or for the version, which is this text.
    Help(String),
    /// They are wrong, as this text says.
    Wrong(String),
    /// Memory ran out.
    Memory,
}

/// The exit status of wrong arguments.
const WRONG: u8 = 2;

impl Unasked {
    /// Returns the exit status of jri: 0 for help and the version, 2 for wrong arguments, 1 if memory ran out.
    pub fn status(&self) -> u8
        ensures { result ≡ unasked_status 1 self.now }
    {
        match self {
            Unasked::Help(_) => 0,
            Unasked::Wrong(_) => WRONG,
            Unasked::Memory => 1,
        }
    }
}

impl From<AllocError> for Unasked {
    ghost use Rattle.std.specs.Prelude.{◌≡◌};
    ghost use Rattle.jri_machine.specs.declared.unasked.Unasked.TheVariants.{Memory};

    ghost from_gives = { λ _ e. e ≡ Memory };

    fn from(_refused: AllocError) -> Self {
        Unasked::Memory
    }
}

/// Returns a text as that of wrong arguments.
pub fn wrong(alloc: Global, text: &str) -> Unasked
    ensures { AsksForHelp result → ⊥ }
{
    match String::from_str(alloc, text) {
        Ok(text) => Unasked::Wrong(text),
        Err(_) => Unasked::Memory,
    }
}

/// Returns the answer to arguments that the system does not report as text: memory ran out, or one is not text, as the given
/// text says.
pub fn unreported(alloc: Global, error: &io::Error, not_text: &str) -> Unasked
    ensures { AsksForHelp result → ⊥ }
{
    if error.kind() == io::ErrorKind::OutOfMemory {
        return Unasked::Memory;
    }
    wrong(alloc, not_text)
}

/// Returns the answer to arguments that the command line refuses: the help or the version if they ask for it.
pub fn refusal(alloc: Global, error: &clap::Error) -> Unasked
    ensures { kind_of error.now ≡ OutOfMemory → AsksForHelp result → ⊥ }
{
    if error.kind() == ErrorKind::OutOfMemory {
        return Unasked::Memory;
    }
    match error.to_string(alloc) {
        Ok(text) => match error.kind() {
            ErrorKind::DisplayHelp | ErrorKind::DisplayVersion => Unasked::Help(text),
            _ => Unasked::Wrong(text),
        },
        Err(_) => Unasked::Memory,
    }
}

/// Writes the help or the version, and reports that it cannot be written, unless its reader has gone away.
fn write_text<W: Write, E: Write>(out: &mut Tally<W>, errors: &mut E, text: &str) {
    let written = match out.write_all(text.as_bytes()) {
        Ok(()) => out.flush(),
        Err(error) => Err(error),
    };
    if let Err(error) = written
        && error.kind() != io::ErrorKind::BrokenPipe
    {
        let _ = writeln!(errors, "cannot write to standard output");
    }
}

/// Writes the answer to arguments that ask for nothing further, and returns the exit status: `failed` if memory ran out, or if
/// the help cannot be written. Errors of standard error are ignored.
pub fn answer<W: Write, E: Write>(
    out: &mut Tally<W>,
    errors: &mut E,
    unasked: &Unasked,
    failed: u8,
) -> u8
    ensures { result ≡ answered_status failed unasked.now (has_failed out.new) }
{
    match unasked {
        Unasked::Help(text) => {
            write_text(out, errors, text.as_str());
            if out.failed() { failed } else { 0 }
        }
        Unasked::Wrong(text) => {
            let _ = errors.write_all(text.as_bytes());
            WRONG
        }
        Unasked::Memory => {
            let _ = writeln!(errors, "out of memory");
            failed
        }
    }
}
