//! The arguments of `jri --output-dir`, and the names of the images.

ghost use Rattle.std.specs.Prelude.{◌≤◌, IfOk};
ghost use Rattle.std.specs.String.{string_bytes};
ghost use Rattle.jr_base.specs.declared.limits.TheConstants.{MAX_WORKERS};
ghost use Rattle.jri_machine.specs.Steps.{IsInDirectory};

use crate::asking::{
    first_argument, flag_argument, resync_argument, strings_of, with_argument, workers_argument,
    workers_of,
};
use crate::describing::files_argument;
use clap::{Arg, ArgAction, ArgMatches, Command};
use jr_base::VERSION;
use jri_machine::{STREAM, Unasked, is_jpeg, refusal, wrong};
use std::alloc::{AllocError, Global};

/// A request for the decoding of many files.
#[derive(Drop)]
pub struct ManyRequest {
    /// The number of workers, 1 to 64.
    pub workers: u32,
    /// The number of intervals that are decoded of each file, starting at the first one; all if it is `None`.
    pub first: Option<u32>,
    /// Whether each file is read past restart markers that are out of step.
    pub is_resync: bool,
    /// Whether the reports are left out.
    pub is_quiet: bool,
    /// The directory of the images.
    pub directory: String,
    /// The names of the files.
    pub files: Vec<String>,
}

/// `--output-dir DIR`.
fn directory_argument<'a>(alloc: Global) -> Arg<'a> {
    Arg::new(alloc, "output-dir")
        .long("output-dir")
        .action(ArgAction::Set)
        .value_name("DIR")
        .help("Write the image of FILE to a new file of DIR, FILE's name with the ending .pnm")
        .required(true)
}

/// `jri --output-dir DIR [--workers N] [--first K] [--resync] [--quiet] FILE..`.
fn command<'a>(alloc: Global) -> Result<Command<'a>, AllocError> {
    let command = Command::new(alloc, "jri")
        .about("Decode baseline JPEG files to Netpbm images in a directory")
        .version(VERSION.trim_end())
        .no_binary_name(true);
    let quiet = flag_argument(alloc, "quiet", "Do not print the reports");
    let command = with_argument(Ok(command), directory_argument(alloc));
    let command = with_argument(command, workers_argument(alloc));
    let command = with_argument(command, first_argument(alloc));
    let command = with_argument(command, resync_argument(alloc));
    with_argument(with_argument(command, quiet), files_argument(alloc))
}

/// The text if standard input is to be decoded.
const NAMELESS: &str = "standard input has no name for its image; a file named - is ./-\n";

/// The text if the directory has no name, as that of an unset variable.
const NO_DIRECTORY: &str = "--output-dir is empty; the current directory is .\n";

/// Returns what parsed arguments ask for.
fn request_in(alloc: Global, matches: &ArgMatches<'_>) -> Result<ManyRequest, Unasked>
    ensures some { IfOk result (λ r. 1 ≤ r.workers) }
    ensures few { IfOk result (λ r. r.workers ≤ MAX_WORKERS) }
{
    let Some(workers) = workers_of(matches) else {
        return Err(wrong(alloc, ""));
    };
    let Some(directory) = matches.get_str("output-dir") else {
        return Err(wrong(alloc, ""));
    };
    if directory.is_empty() {
        return Err(wrong(alloc, NO_DIRECTORY));
    }
    let files = strings_of(alloc, matches, "files")?;
    if files.iter().any(|file| file.as_str() == STREAM) {
        return Err(wrong(alloc, NAMELESS));
    }
    Ok(ManyRequest {
        workers,
        first: matches.get_one::<u32>("first"),
        is_resync: matches.get_flag("resync"),
        is_quiet: matches.get_flag("quiet"),
        directory: String::from_str(alloc, directory)?,
        files,
    })
}

/// Returns what the arguments of `jri --output-dir` ask for, or the text to print if they ask for help or are wrong.
pub fn many_request(alloc: Global, words: &[String]) -> Result<ManyRequest, Unasked>
    ensures some { IfOk result (λ r. 1 ≤ r.workers) }
    ensures few { IfOk result (λ r. r.workers ≤ MAX_WORKERS) }
{
    match command(alloc)?.try_get_matches_from(words) {
        Ok(matches) => request_in(alloc, &matches),
        Err(error) => Err(refusal(alloc, &error)),
    }
}

/// Returns the last part of a file's name, without the ending of a JPEG file.
fn stem_of(file: &str) -> &str {
    let name = match file.rsplit_once('/') {
        Some((_, name)) => name,
        None => file,
    };
    match name.rsplit_once('.') {
        Some((stem, _)) if !stem.is_empty() && is_jpeg(name.as_bytes()) => stem,
        _ => name,
    }
}

/// Returns the name of the image of a file in a directory: the last part of the file's name, its ending replaced by
/// `.pnm`.
pub fn image_name(alloc: Global, directory: &str, file: &str) -> Result<String, AllocError>
    ensures { IfOk result (λ name. IsInDirectory directory.now (string_bytes name)) }
{
    let mut name = String::from_str(alloc, directory)?;
    name.push_str("/")?;
    name.push_str(stem_of(file))?;
    name.push_str(".pnm")?;
    Ok(name)
}
