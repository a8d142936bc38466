//! The arguments of `jri --info`.

use crate::asking::{flag_argument, strings_of, with_argument};
use clap::{Arg, ArgAction, ArgMatches, Command};
use jr_base::VERSION;
use jri_machine::{Unasked, refusal};
use std::alloc::{AllocError, Global};

/// A request for what the headers of files say.
#[derive(Drop)]
pub struct DescribeRequest {
    /// Whether each line is a JSON object.
    pub is_json: bool,
    /// The names of the files.
    pub files: Vec<String>,
}

/// `FILE..`.
pub(crate) fn files_argument<'a>(alloc: Global) -> Arg<'a> {
    Arg::new(alloc, "files")
        .action(ArgAction::Append)
        .num_args(1..)
        .value_name("FILE")
        .help("JPEG files")
        .required(true)
}

/// `jri --info [--json] FILE..`.
fn command<'a>(alloc: Global) -> Result<Command<'a>, AllocError> {
    let command = Command::new(alloc, "jri")
        .about("Print what the headers of JPEG files say, and decode nothing")
        .version(VERSION.trim_end())
        .no_binary_name(true);
    let info = flag_argument(alloc, "info", "Describe files");
    let json = flag_argument(alloc, "json", "Print each line as a JSON object");
    let command = with_argument(with_argument(Ok(command), info), json);
    with_argument(command, files_argument(alloc))
}

/// Returns what parsed arguments ask for.
fn request_in(alloc: Global, matches: &ArgMatches<'_>) -> Result<DescribeRequest, AllocError> {
    Ok(DescribeRequest {
        is_json: matches.get_flag("json"),
        files: strings_of(alloc, matches, "files")?,
    })
}

/// Returns what the arguments of `jri --info` ask for, or the text to print if they ask for help or are wrong.
pub fn describe_request(alloc: Global, words: &[String]) -> Result<DescribeRequest, Unasked> {
    match command(alloc)?.try_get_matches_from(words) {
        Ok(matches) => Ok(request_in(alloc, &matches)?),
        Err(error) => Err(refusal(alloc, &error)),
    }
}
