//! How a program ends.

ghost use Rattle.std.specs.Prelude.{◌≡◌};
ghost use Rattle.std.specs.Process.{exit_status};

use std::io::Eprint;
use std::process::{ExitCode, Termination};

/// The end of a program: a `main` that returns it ends with this exit status.
#[derive(Drop)]
pub struct Ended {
    pub status: u8,
}

impl Termination for Ended {
    fn report<R: Eprint>(self, _rt: &R) -> ExitCode
        ensures { exit_status result ≡ self.status }
    {
        ExitCode::from(self.status)
    }
}
