//! The arguments of a command line.

ghost use Rattle.std.specs.Prelude.{◌≤◌, IfOk};
ghost use Rattle.jr_base.specs.declared.limits.TheConstants.{MAX_WORKERS};

use crate::answers::{CheckRequest, LineForm};
use crate::words::{bytes_of, is_no_text, texts};
use clap::{Arg, ArgAction, ArgMatches, Command, value_parser};
use jr_base::VERSION;
use jr_base::limits::MAX_WORKERS;
use jri_machine::{STREAM, Unasked, refusal, wrong};
use std::alloc::{AllocError, Global};

/// What an argument is besides its name, the name of its value and its help.
#[derive(Clone, Copy)]
enum Rule {
    Plain,
    /// It has a letter also.
    Letter(char),
    /// Which intervals a map has.
    Which,
    /// The number of workers.
    Workers,
    /// A state file is of files as they are.
    WithoutState,
    NeedsState,
}

/// The name of an argument, the name of its value if it is not a flag, its help, and its rule.
type ArgumentRow = (&'static str, &'static [&'static str], &'static str, Rule);

static ARGUMENTS: [ArgumentRow; 11] = [
    (
        "map",
        &["WHICH"],
        "Also list damaged intervals and doubtful values; =all also sound intervals",
        Rule::Which,
    ),
    ("json", &[], "Print each line as a JSON object", Rule::Plain),
    (
        "quiet",
        &[],
        "List no sound files and print no counts",
        Rule::Letter('q'),
    ),
    (
        "counts",
        &[],
        "Also print the counts as the last line",
        Rule::Plain,
    ),
    (
        "workers",
        &["N"],
        "Number of threads, 1 to 64",
        Rule::Workers,
    ),
    (
        "recursive",
        &[],
        "Check the JPEG files in directories, recursively",
        Rule::Letter('r'),
    ),
    (
        "files0-from",
        &["LIST"],
        "Also check the NUL-terminated names in LIST; - is standard input",
        Rule::Plain,
    ),
    (
        "resync",
        &[],
        "Check files read past restart markers that are out of step; not with --state",
        Rule::WithoutState,
    ),
    (
        "state",
        &["STATE"],
        "Record files in STATE, and skip those that it has unless they changed",
        Rule::Plain,
    ),
    (
        "verify",
        &[],
        "Read recorded files again; report changed, new and missing ones; needs --state",
        Rule::NeedsState,
    ),
    (
        "strict",
        &[],
        "Exit with 6 if a file is a new version, missing, or has doubtful values",
        Rule::Plain,
    ),
];

/// The values of `--map`.
const DAMAGED_ALONE: &str = "damaged";

const ALL: &str = "all";

/// Returns an argument.
fn argument<'a>(alloc: Global, row: &ArgumentRow) -> Result<Arg<'a>, AllocError> {
    let (name, values, help, rule) = *row;
    let action = if values.is_empty() {
        ArgAction::SetTrue
    } else {
        ArgAction::Set
    };
    let arg = Arg::new(alloc, name)
        .long(name)
        .action(action)
        .value_names(values)
        .help(help);
    with_rule(arg, rule)
}

/// Adds a rule to an argument.
fn with_rule<'a>(arg: Arg<'a>, rule: Rule) -> Result<Arg<'a>, AllocError> {
    let values: &[&str] = &[DAMAGED_ALONE, ALL];
    match rule {
        Rule::Plain => Ok(arg),
        Rule::Letter(letter) => Ok(arg.short(letter)),
        Rule::Which => Ok(
            arg.num_args(0..=1)
                .require_equals(true)
                .value_parser(values)
                .default_missing_value(DAMAGED_ALONE),
        ),
        Rule::Workers => Ok(
            arg.short('j')
                .value_parser(value_parser!(u32).range(1..=i64::from(MAX_WORKERS)))
                .default_value("4"),
        ),
        Rule::WithoutState => arg.conflicts_with("state"),
        Rule::NeedsState => arg.requires_arg("state"),
    }
}

/// Returns the arguments that are names of files.
fn files_argument<'a>(alloc: Global) -> Result<Arg<'a>, AllocError> {
    Arg::new(alloc, "files")
        .action(ArgAction::Append)
        .num_args(1..)
        .value_name("FILE")
        .help("JPEG files to check; - is standard input")
        .required_unless_present("files0-from")
}

/// The text of `--help` after the options.
const AFTER_HELP: &str = "\
Exit status, the first that applies:
  2  bad arguments, or the state file cannot be used
  4  out of memory, or the output or the state file cannot be written
  3  a file or the list cannot be read
  1  a file is damaged, refused or changed
  6  with --strict: a file is a new version or missing, or has a doubtful value
  5  a file is of a kind that is not supported
  0  every file is sound
The statuses 1 and 3 of jri mean other things.";

/// Returns all arguments, in the order of the help.
fn arguments<'a>(alloc: Global) -> Result<Vec<Arg<'a>>, AllocError> {
    let mut arguments = Vec::new(alloc);
    for row in &ARGUMENTS {
        arguments.push(argument(alloc, row)?)?;
    }
    arguments.push(files_argument(alloc)?)?;
    Ok(arguments)
}

/// `jri_check [--map[=all]] [--json] [-q] [--counts] [-j N] [-r] [--files0-from LIST] [--resync] [--state STATE [--verify]] [--strict] FILE..`.
fn command<'a>(alloc: Global) -> Result<Command<'a>, AllocError> {
    let arguments = arguments(alloc)?;
    Command::new(alloc, "jri_check")
        .about("Check baseline JPEG files for damage")
        .version(VERSION.trim_end())
        .after_help(AFTER_HELP)
        .no_binary_name(true)
        .args(arguments)
}

/// Adds the names among the arguments.
fn add_names(
    alloc: Global,
    words: &[Vec<u8>],
    matches: &ArgMatches<'_>,
    names: &mut Vec<Vec<u8>>,
) -> Result<(), AllocError> {
    if let Some(files) = matches.get_strs("files") {
        for text in files {
            names.push(bytes_of(alloc, words, text)?)?;
        }
    }
    Ok(())
}

/// Stores a copy of a text, if there is one.
fn set_text(
    alloc: Global,
    text: Option<&str>,
    stored: &mut Option<String>,
) -> Result<(), AllocError> {
    if let Some(text) = text {
        drop(stored.replace(String::from_str(alloc, text)?));
    }
    Ok(())
}

/// The errors of arguments that the parser lets through.
const READ_TWICE: &str =
    "error: standard input cannot be both a FILE and the LIST of --files0-from\n";

const STATE_INPUT: &str = "error: the STATE of --state cannot be standard input\n";

const STATE_NAME: &str = "error: the name of the STATE of --state is not UTF-8\n";

/// Returns whether standard input is both a file and the list of names.
fn is_input_read_twice(matches: &ArgMatches<'_>) -> bool {
    if matches.get_str("files0-from") != Some(STREAM) {
        return false;
    }
    match matches.get_strs("files") {
        Some(files) => files.contains(&STREAM),
        None => false,
    }
}

/// Returns what is wrong with arguments that the parser lets through.
fn error_of(matches: &ArgMatches<'_>) -> Option<&'static str> {
    match matches.get_str("state") {
        Some(STREAM) => return Some(STATE_INPUT),
        Some(name) if is_no_text(name) => return Some(STATE_NAME),
        _ => {}
    }
    is_input_read_twice(matches).then_some(READ_TWICE)
}

/// Returns what a line reports.
fn form_in(matches: &ArgMatches<'_>) -> LineForm {
    let map = matches.get_str("map");
    LineForm {
        has_map: map.is_some(),
        has_sound: map == Some(ALL),
        is_json: matches.get_flag("json"),
        is_quiet: matches.get_flag("quiet"),
    }
}

/// Returns the number of workers, which the parser's contract does not bound.
fn workers_in(matches: &ArgMatches<'_>) -> u32
    ensures some { 1 ≤ result }
    ensures few { result ≤ MAX_WORKERS }
{
    match matches.get_one::<u32>("workers") {
        Some(workers) => workers.clamp(1, MAX_WORKERS),
        None => 1,
    }
}

/// Returns what valid arguments ask for, without the names.
fn nameless(alloc: Global, matches: &ArgMatches<'_>) -> CheckRequest
    ensures some { 1 ≤ result.workers }
    ensures few { result.workers ≤ MAX_WORKERS }
{
    CheckRequest {
        workers: workers_in(matches),
        form: form_in(matches),
        has_counts: matches.get_flag("counts"),
        is_recursive: matches.get_flag("recursive"),
        names_from: None,
        is_resync: matches.get_flag("resync"),
        state: None,
        is_verifying: matches.get_flag("verify"),
        is_strict: matches.get_flag("strict"),
        names: Vec::new(alloc),
    }
}

/// Returns what valid arguments ask for.
fn request_in(
    alloc: Global,
    words: &[Vec<u8>],
    matches: &ArgMatches<'_>,
) -> Result<CheckRequest, Unasked>
    ensures some { IfOk result (λ a. 1 ≤ a.workers) }
    ensures few { IfOk result (λ a. a.workers ≤ MAX_WORKERS) }
{
    let mut request = nameless(alloc, matches);
    let named = add_names(alloc, words, matches, &mut request.names);
    let listed = set_text(
        alloc,
        matches.get_str("files0-from"),
        &mut request.names_from,
    );
    let kept = set_text(alloc, matches.get_str("state"), &mut request.state);
    match named.and(listed).and(kept) {
        Ok(()) => Ok(request),
        Err(_) => Err(Unasked::Memory),
    }
}

/// Returns what parsed arguments ask for.
fn checked_request(
    alloc: Global,
    words: &[Vec<u8>],
    texts: &[String],
) -> Result<CheckRequest, Unasked>
    ensures some { IfOk result (λ a. 1 ≤ a.workers) }
    ensures few { IfOk result (λ a. a.workers ≤ MAX_WORKERS) }
{
    match command(alloc)?.try_get_matches_from(texts) {
        Ok(matches) => match error_of(&matches) {
            Some(text) => Err(wrong(alloc, text)),
            None => request_in(alloc, words, &matches),
        },
        Err(error) => Err(refusal(alloc, &error)),
    }
}

/// Returns what the arguments after the program's name ask for: `--workers` from 1 to 64, by default 4; one name or more,
/// or `--files0-from`; and what is reported. `Unasked` has the text to print if they ask for help or the version, or
/// are wrong.
pub fn asked(alloc: Global, words: &[Vec<u8>]) -> Result<CheckRequest, Unasked>
    ensures some { IfOk result (λ a. 1 ≤ a.workers) }
    ensures few { IfOk result (λ a. a.workers ≤ MAX_WORKERS) }
{
    let texts = texts(alloc, words)?;
    checked_request(alloc, words, texts.as_slice())
}
