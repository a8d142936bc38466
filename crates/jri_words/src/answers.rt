//! What the arguments of a command line ask for.

/// A request for one decoding.
#[derive(Drop)]
pub struct Asked {
    /// The number of workers that decode, 1 to 64.
    pub workers: u32,
    /// The number of intervals that are decoded, starting at the first one; all if it is `None`.
    pub first: Option<u32>,
    /// The name of the file; `None` is standard input.
    pub file: Option<String>,
    /// The destination of the image.
    pub target: Target,
    /// What is reported on standard error.
    pub verbosity: Verbosity,
}

/// A request for one decoding, of a file as it is or resynchronised.
#[derive(Drop)]
pub struct DecodeRequest {
    pub asked: Asked,
    /// Whether the file is read past restart markers that are out of step.
    pub is_resync: bool,
}

/// The destination of an image.
#[derive(Drop)]
pub enum Target {
    /// To standard output, but not onto a terminal.
    Output,
    /// To standard output, whatever it is.
    AnyOutput,
    /// To the file of this name.
    File(String),
}

/// What is reported on standard error.
#[derive(Clone, Copy, PartialEq, Eq)]
pub struct Verbosity {
    /// No report, and no line of a reader that has gone away.
    pub is_quiet: bool,
    /// Whether the lines end with names and the system's reasons.
    pub is_verbose: bool,
}

impl Verbosity {
    /// What is reported without any argument about it.
    pub(crate) const PLAIN: Verbosity = Verbosity {
        is_quiet: false,
        is_verbose: false,
    };
}
