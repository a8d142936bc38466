//! Which of its tasks the arguments ask the program for.

/// A task of the program.
#[derive(Clone, Copy, PartialEq, Eq)]
pub enum Mode {
    /// Decode one file.
    Decode,
    /// Decode many files into a directory: `--output-dir`.
    DecodeEach,
    /// Describe the headers of files: `--info`.
    Describe,
}

impl Mode {
    /// Returns the task that the arguments ask for, by the first of `--info` and `--output-dir` before `--`.
    pub fn of(words: &[String]) -> Mode {
        for word in words {
            match word.as_str() {
                "--" => break,
                "--info" => return Mode::Describe,
                "--output-dir" => return Mode::DecodeEach,
                word if word.starts_with("--output-dir=") => return Mode::DecodeEach,
                _ => {}
            }
        }
        Mode::Decode
    }
}
