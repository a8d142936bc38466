//! The request of a command line.

/// What is reported of each file.
#[derive(Clone, Copy)]
pub struct LineForm {
    /// Whether there is a line for each damaged interval.
    pub has_map: bool,
    /// Whether the map has a line for each sound interval.
    pub has_sound: bool,
    /// Whether a line is a JSON object.
    pub is_json: bool,
    /// Whether sound files have no line.
    pub is_quiet: bool,
}

/// What the arguments ask for.
#[derive(Drop)]
pub struct CheckRequest {
    /// The number of files that are checked at once: 1 to 64.
    pub workers: u32,
    pub form: LineForm,
    /// Whether the counts are the last line of the output.
    pub has_counts: bool,
    /// Whether the JPEG files in a directory of the arguments are checked, with those in its directories.
    pub is_recursive: bool,
    /// The file that has further names, each ended by a NUL byte; `-` is standard input.
    pub names_from: Option<String>,
    /// Whether each file is resynchronised before it is checked.
    pub is_resync: bool,
    /// The state file.
    pub state: Option<String>,
    /// Whether files that the state file has are read again.
    pub is_verifying: bool,
    /// Whether new versions, missing files and doubtful values have an exit status of their own.
    pub is_strict: bool,
    /// The names among the arguments, of any bytes that the system allows.
    pub names: Vec<Vec<u8>>,
}
