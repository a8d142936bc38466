//! The arguments of the command line.

ghost use Rattle.std.specs.Prelude.{◌≤◌, IfOk, length};
ghost use Rattle.jr_mend.specs.declared.choice.TheConstants.{MAX_COPIES};

use clap::{Arg, ArgAction, ArgMatches, Command};
use jr_base::VERSION;
use jr_mend::MAX_COPIES;
use jri_machine::{STREAM, Unasked, refusal, wrong};
use jri_words::{Target, flag_argument, resync_argument, strings_of, with_argument};
use std::alloc::{AllocError, Global};

/// A request for a mended file, or for one of each name in several directories.
#[derive(Drop)]
pub struct MendRequest {
    /// The names of the copies, 1 to 64; 2 to 64 if they are directories or not resynchronised.
    pub copies: Vec<String>,
    /// The destination of the mended file.
    pub target: Target,
    /// Whether the report is a JSON object.
    pub is_json: bool,
    /// Whether each copy is resynchronised first.
    pub is_resync: bool,
    /// Whether copies with another header are read under that of the first copy that has one.
    pub is_borrowing: bool,
}

/// A request for the mending of directories, which are copies of one.
#[derive(Drop)]
pub struct TreesRequest {
    /// How the files of a name are mended. Its copies are the directories.
    pub each: MendRequest,
    /// The directory of the mended files.
    pub directory: String,
    /// Whether files that are equal in all directories are copied.
    pub is_copying: bool,
}

/// The text of `--help` after the options.
const AFTER_HELP: &str = "\
The mended file has the header of the first COPY, and each restart interval from the
first copy in which it is sound, otherwise from the one that decodes most of it. It
goes to standard output if -o is absent. If all of the first copy is sound it is
written as it is. A report goes to standard error; with -o, that of --json to standard
output. Each copy is read past restart markers that are out of step, as after lost
bytes, and one COPY is enough; --no-resync ends it at the first of them, and needs two.
With --borrow-headers a COPY whose header is refused, or another one, is read under the
header of the first COPY that has one. If an interval is damaged in all copies, copies of
one length are combined: where they differ, the bytes are taken that decode furthest.

With --trees each COPY is a directory, 2 to 64, and -o an existing directory outside of
them. JPEG files are paired by their names in the directories. Those of a name that differ
are mended to a new file of that name; a name that -o has is skipped, and nothing is
replaced. Standard output gets a line for each name, and one with their numbers.

Exit status:
  0  every interval is sound
  1  an interval is damaged in all copies
  2  bad arguments, or a copy has another header than the first
  3  a copy cannot be read, or is refused
  4  out of memory, or the output cannot be written
With --trees it is the greatest of those of the names.";

/// The error of too few or too many copies.
const WRONG_COUNT: &str = "error: 1 to 64 copies are needed, 2 to 64 with --no-resync\n";

/// The error of too few or too many directories.
const WRONG_TREES: &str = "error: --trees needs 2 to 64 directories\n";

/// The error of directories whose mended files have no place.
const NO_DIRECTORY: &str = "error: --trees needs -o and a directory\n";

/// The error of a request for both.
const BOTH_WAYS: &str = "error: --resync and --no-resync exclude each other\n";

/// `-o FILE`.
fn output_argument<'a>(alloc: Global) -> Arg<'a> {
    Arg::new(alloc, "output")
        .short('o')
        .long("output")
        .action(ArgAction::Set)
        .value_name("FILE")
        .help("Write the mended file to FILE; - is standard output; a directory with --trees")
}

/// `COPY COPY..`.
fn copies_argument<'a>(alloc: Global) -> Arg<'a> {
    Arg::new(alloc, "copies")
        .action(ArgAction::Append)
        .num_args(1..)
        .value_name("COPY")
        .help("Copies of one JPEG file, 1 to 64; 2 to 64 with --no-resync or --trees")
        .required(true)
}

/// `jri_mend [-o FILE] [--json] [--no-resync] [--borrow-headers] [--trees [--copy-equal]] COPY..`; `--resync` is the default.
fn command<'a>(alloc: Global) -> Result<Command<'a>, AllocError> {
    let command = Command::new(alloc, "jri_mend")
        .about("Mend a baseline JPEG file from damaged copies of it")
        .version(VERSION.trim_end())
        .after_help(AFTER_HELP)
        .no_binary_name(true);
    let json = flag_argument(alloc, "json", "Print the report as a JSON object");
    let as_is = flag_argument(
        alloc,
        "no-resync",
        "Do not read past restart markers that are out of step",
    );
    let borrow = flag_argument(
        alloc,
        "borrow-headers",
        "Read copies with damaged headers under the header of another copy",
    );
    let trees = flag_argument(
        alloc,
        "trees",
        "Mend the files of each name in directories, which are copies of one",
    );
    let copying = flag_argument(
        alloc,
        "copy-equal",
        "With --trees, also copy files that are equal in all directories",
    );
    let command = with_argument(Ok(command), output_argument(alloc));
    let command = with_argument(with_argument(command, json), resync_argument(alloc));
    let command = with_argument(with_argument(command, as_is), borrow);
    let command = with_argument(
        with_argument(command, trees),
        copying.requires_arg("trees")?,
    );
    with_argument(command, copies_argument(alloc))
}

/// Returns the destination of the mended file.
fn target_in(alloc: Global, matches: &ArgMatches<'_>) -> Result<Target, AllocError> {
    match matches.get_str("output") {
        Some(name) if name != STREAM => Ok(Target::File(String::from_str(alloc, name)?)),
        Some(_) => Ok(Target::AnyOutput),
        None => Ok(Target::Output),
    }
}

/// Returns the request of parsed arguments. At least `fewest` copies must be named.
fn request_in(
    alloc: Global,
    matches: &ArgMatches<'_>,
    fewest: usize,
    wrong_count: &str,
) -> Result<MendRequest, Unasked>
    ensures some { IfOk result (λ a. fewest ≤ length a.copies.items) }
    ensures few { IfOk result (λ a. length a.copies.items ≤ MAX_COPIES) }
{
    let copies = strings_of(alloc, matches, "copies")?;
    let target = target_in(alloc, matches)?;
    let is_resync = !matches.get_flag("no-resync");
    if !is_resync && matches.get_flag("resync") {
        return Err(wrong(alloc, BOTH_WAYS));
    }
    if copies.len() < fewest || copies.len() > MAX_COPIES {
        return Err(wrong(alloc, wrong_count));
    }
    Ok(MendRequest {
        copies,
        target,
        is_json: matches.get_flag("json"),
        is_resync,
        is_borrowing: matches.get_flag("borrow-headers"),
    })
}

/// Returns the least number of copies of one file.
fn fewest_of(is_resync: bool) -> usize
    ensures { 1 ≤ result }
{
    if is_resync { 1 } else { 2 }
}

/// Returns what the arguments after the program's name ask for. `Unasked` has the text to print if they ask for help or the
/// version or are wrong.
pub(crate) fn asked(alloc: Global, words: &[String]) -> Result<MendRequest, Unasked>
    ensures some { IfOk result (λ a. 1 ≤ length a.copies.items) }
    ensures few { IfOk result (λ a. length a.copies.items ≤ MAX_COPIES) }
{
    match command(alloc)?.try_get_matches_from(words) {
        Ok(matches) => {
            let fewest = fewest_of(!matches.get_flag("no-resync"));
            request_in(alloc, &matches, fewest, WRONG_COUNT)
        }
        Err(error) => Err(refusal(alloc, &error)),
    }
}

/// Returns what arguments ask for that are parsed, and have `--trees`.
fn trees_in(alloc: Global, matches: &ArgMatches<'_>) -> Result<TreesRequest, Unasked>
    ensures some { IfOk result (λ r. 2 ≤ length r.each.copies.items) }
    ensures few { IfOk result (λ r. length r.each.copies.items ≤ MAX_COPIES) }
{
    let each = request_in(alloc, matches, 2, WRONG_TREES)?;
    match matches.get_str("output") {
        Some(name) if name != STREAM && !name.is_empty() => Ok(TreesRequest {
            each,
            directory: String::from_str(alloc, name)?,
            is_copying: matches.get_flag("copy-equal"),
        }),
        _ => Err(wrong(alloc, NO_DIRECTORY)),
    }
}

/// Returns whether the arguments ask for the mending of directories: they have `--trees` before `--`.
pub fn is_of_trees(words: &[String]) -> bool {
    for word in words {
        match word.as_str() {
            "--" => return false,
            "--trees" => return true,
            _ => {}
        }
    }
    false
}

/// Returns what the arguments of `jri_mend --trees` ask for, or the text to print if they ask for help or are wrong.
pub fn trees_request(alloc: Global, words: &[String]) -> Result<TreesRequest, Unasked>
    ensures some { IfOk result (λ r. 2 ≤ length r.each.copies.items) }
    ensures few { IfOk result (λ r. length r.each.copies.items ≤ MAX_COPIES) }
{
    match command(alloc)?.try_get_matches_from(words) {
        Ok(matches) => trees_in(alloc, &matches),
        Err(error) => Err(refusal(alloc, &error)),
    }
}
