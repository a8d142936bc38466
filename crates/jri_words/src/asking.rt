//! The arguments of a command line.

ghost use Rattle.std.specs.Prelude.{◌≡◌, ◌≤◌, IfOk, IfErr, IfSome, false, codes, map, option_map};
ghost use Rattle.std.specs.String.{string_bytes};
ghost use Rattle.clap.specs.Words.{App, app_of, first_value, found_of, one_text, rule_of, with_rule};
ghost use Rattle.jr_base.specs.declared.limits.TheConstants.{MAX_WORKERS};
ghost use Rattle.jri_machine.specs.Status.{AsksForHelp};
ghost use Rattle.jri_words.specs.CommandLine.{IsFlag, IsTarget, IsTargetOf, decoding_app, file_named, file_rule, first_rule, flag_rule, is_taken, jri, output_rule, reading, option_value, workers_rule, writing_app};

use crate::answers::{Asked, DecodeRequest, Target, Verbosity};
use crate::help::{ABOUT, AFTER_HELP};
use clap::{Arg, ArgAction, ArgMatches, Command, value_parser};
use jr_base::VERSION;
use jr_base::limits::MAX_WORKERS;
use jri_machine::{STREAM, Unasked, refusal};
use std::alloc::{AllocError, Global};

/// `--workers N`.
pub(crate) fn workers_argument<'a>(alloc: Global) -> Arg<'a>
    ensures rule { rule_of result ≡ workers_rule }
    ensures local { result.global ≡ false }
{
    Arg::new(alloc, "workers")
        .long("workers")
        .action(ArgAction::Set)
        .value_name("N")
        .help("Number of decoding threads, 1 to 64")
        .value_parser(value_parser!(u32).range(1..=i64::from(MAX_WORKERS)))
        .default_value("4")
}

/// `--first K`.
pub(crate) fn first_argument<'a>(alloc: Global) -> Arg<'a>
    ensures rule { rule_of result ≡ first_rule }
    ensures local { result.global ≡ false }
{
    Arg::new(alloc, "first")
        .long("first")
        .action(ArgAction::Set)
        .value_name("K")
        .help("Decode only the first K restart intervals")
        .value_parser(value_parser!(u32))
}

/// `--resync`.
pub fn resync_argument<'a>(alloc: Global) -> Arg<'a>
    ensures rule { rule_of result ≡ flag_rule (codes "resync") }
    ensures local { result.global ≡ false }
{
    flag_argument(
        alloc,
        "resync",
        "Read past restart markers that are out of step",
    )
}

/// `FILE`.
fn file_argument<'a>(alloc: Global) -> Arg<'a>
    ensures rule { rule_of result ≡ file_rule }
    ensures local { result.global ≡ false }
{
    Arg::new(alloc, "file")
        .action(ArgAction::Set)
        .value_name("FILE")
        .help("JPEG file to decode; standard input if absent or -")
}

/// `-o PICTURE`.
fn output_argument<'a>(alloc: Global) -> Arg<'a>
    ensures rule { rule_of result ≡ output_rule }
    ensures local { result.global ≡ false }
{
    Arg::new(alloc, "output")
        .short('o')
        .long("output")
        .action(ArgAction::Set)
        .value_name("PICTURE")
        .help("Write the image to PICTURE; - is standard output")
}

/// Returns an argument without a value.
pub fn flag_argument<'a>(alloc: Global, name: &'a str, help: &'a str) -> Arg<'a>
    ensures rule { rule_of result ≡ flag_rule name.now }
    ensures local { result.global ≡ false }
{
    Arg::new(alloc, name)
        .long(name)
        .action(ArgAction::SetTrue)
        .help(help)
}

/// Adds an argument to a command, unless an earlier one could not be added.
pub fn with_argument<'a>(
    command: Result<Command<'a>, AllocError>,
    argument: Arg<'a>,
) -> Result<Command<'a>, AllocError>
    ensures { (app : App) → argument.entry.global ≡ false → IfOk command.entry (λ c. app_of c ≡ app) → IfOk result (λ c. app_of c ≡ with_rule app (rule_of argument.entry)) }
{
    match command {
        Ok(command) => command.arg(argument),
        Err(refused) => Err(refused),
    }
}

/// Adds the arguments that say what is decoded.
fn with_decoding_arguments<'a>(
    alloc: Global,
    command: Result<Command<'a>, AllocError>,
) -> Result<Command<'a>, AllocError>
    ensures { (app : App) → IfOk command.entry (λ c. app_of c ≡ app) → IfOk result (λ c. app_of c ≡ decoding_app app) }
{
    let with_workers = with_argument(command, workers_argument(alloc));
    let with_first = with_argument(with_workers, first_argument(alloc));
    let with_resync = with_argument(with_first, resync_argument(alloc));
    with_argument(with_resync, file_argument(alloc))
}

/// Adds the arguments that say where the image goes, and what is reported on standard error.
fn with_writing_arguments<'a>(
    alloc: Global,
    command: Result<Command<'a>, AllocError>,
) -> Result<Command<'a>, AllocError>
    ensures { (app : App) → IfOk command.entry (λ c. app_of c ≡ app) → IfOk result (λ c. app_of c ≡ writing_app app) }
{
    let force = flag_argument(alloc, "force", "Write the image even to a terminal");
    let quiet = flag_argument(alloc, "quiet", "Do not print the report");
    let verbose = flag_argument(
        alloc,
        "verbose",
        "Add the file name and the system error to each line",
    );
    let with_output = with_argument(command, output_argument(alloc));
    let with_force = with_argument(with_output, force);
    let with_quiet = with_argument(with_force, quiet);
    with_argument(with_quiet, verbose)
}

/// `jri [--workers N] [--first K] [--resync] [-o PICTURE] [--force] [--quiet] [--verbose] [FILE]`.
fn command<'a>(alloc: Global) -> Result<Command<'a>, AllocError>
    ensures { IfOk result (λ c. app_of c ≡ jri) }
{
    let command = Command::new(alloc, "jri")
        .about(ABOUT)
        .version(VERSION.trim_end())
        .after_help(AFTER_HELP)
        .no_binary_name(true);
    with_writing_arguments(alloc, with_decoding_arguments(alloc, Ok(command)))
}

/// Returns the values of an argument that may have several.
pub fn strings_of(
    alloc: Global,
    matches: &ArgMatches<'_>,
    name: &str,
) -> Result<Vec<String>, AllocError> {
    let mut strings = Vec::new(alloc);
    if let Some(values) = matches.get_strs(name) {
        for value in values {
            strings.push(String::from_str(alloc, value)?)?;
        }
    }
    Ok(strings)
}

/// Returns the file that is decoded.
fn file_of(alloc: Global, matches: &ArgMatches) -> Result<Option<String>, AllocError>
    ensures { IfOk result (λ file. option_map string_bytes file ≡ file_named (first_value (found_of matches.now) (codes "file"))) }
{
    match matches.get_str("file") {
        Some(name) if name != STREAM => Ok(Some(String::from_str(alloc, name)?)),
        _ => Ok(None),
    }
}

/// Returns the destination of the image.
fn target_of(alloc: Global, matches: &ArgMatches) -> Result<Target, AllocError>
    ensures { IfOk result (IsTarget (first_value (found_of matches.now) (codes "output")) (one_text (found_of matches.now) (codes "force"))) }
{
    match matches.get_str("output") {
        Some(name) if name != STREAM => Ok(Target::File(String::from_str(alloc, name)?)),
        Some(_) => Ok(Target::AnyOutput),
        None if matches.get_flag("force") => Ok(Target::AnyOutput),
        None => Ok(Target::Output),
    }
}

/// Returns what is reported.
fn verbosity_of(matches: &ArgMatches) -> Verbosity
    ensures quiet { IsFlag (one_text (found_of matches.now) (codes "quiet")) result.is_quiet }
    ensures verbose { IsFlag (one_text (found_of matches.now) (codes "verbose")) result.is_verbose }
{
    Verbosity {
        is_quiet: matches.get_flag("quiet"),
        is_verbose: matches.get_flag("verbose"),
    }
}

/// Returns the number of workers, from 1 to 64.
pub(crate) fn workers_of(matches: &ArgMatches) -> Option<u32>
    ensures some { IfSome result (λ workers. 1 ≤ workers) }
    ensures few { IfSome result (λ workers. workers ≤ MAX_WORKERS) }
{
    match matches.get_one::<u32>("workers") {
        // the range of the argument's values, which the parser's contract does not repeat
        Some(workers) if (1..=MAX_WORKERS).contains(&workers) => Some(workers),
        _ => None,
    }
}

/// Returns what parsed arguments ask for.
fn request_in(alloc: Global, matches: &ArgMatches) -> Result<DecodeRequest, Unasked>
    ensures some { IfOk result (λ r. 1 ≤ r.asked.workers) }
    ensures few { IfOk result (λ r. r.asked.workers ≤ MAX_WORKERS) }
    ensures file { IfOk result (λ r. option_map string_bytes r.asked.file ≡ file_named (first_value (found_of matches.now) (codes "file"))) }
    ensures target { IfOk result (λ r. IsTarget (first_value (found_of matches.now) (codes "output")) (one_text (found_of matches.now) (codes "force")) r.asked.target) }
    ensures quiet { IfOk result (λ r. IsFlag (one_text (found_of matches.now) (codes "quiet")) r.asked.verbosity.is_quiet) }
    ensures verbose { IfOk result (λ r. IsFlag (one_text (found_of matches.now) (codes "verbose")) r.asked.verbosity.is_verbose) }
    ensures resync { IfOk result (λ r. IsFlag (one_text (found_of matches.now) (codes "resync")) r.is_resync) }
    ensures unasked { IfErr result (λ unasked. AsksForHelp unasked → ⊥) }
{
    let Some(workers) = workers_of(matches) else {
        return Err(Unasked::Wrong(String::new(alloc)));
    };
    let file = file_of(alloc, matches)?;
    let target = target_of(alloc, matches)?;
    Ok(DecodeRequest {
        asked: Asked {
            workers,
            first: matches.get_one::<u32>("first"),
            file,
            target,
            verbosity: verbosity_of(matches),
        },
        is_resync: matches.get_flag("resync"),
    })
}

/// Returns what the arguments after the program's name ask for: `--workers` from 1 to 64, 4 by default; `--first`;
/// `--resync`; at most one file; and the arguments of the output and of the report. `Unasked` has the text to print if
/// they ask for help or the version or are wrong.
pub fn decode_request(alloc: Global, words: &[String]) -> Result<DecodeRequest, Unasked>
    ensures some { IfOk result (λ r. 1 ≤ r.asked.workers) }
    ensures few { IfOk result (λ r. r.asked.workers ≤ MAX_WORKERS) }
    ensures file { IfOk result (λ r. option_map string_bytes r.asked.file ≡ file_named (option_value (codes "file") (map string_bytes words.now))) }
    ensures target { IfOk result (λ r. IsTargetOf (map string_bytes words.now) r.asked.target) }
    ensures quiet { IfOk result (λ r. IsFlag (reading (codes "quiet") (map string_bytes words.now)) r.asked.verbosity.is_quiet) }
    ensures verbose { IfOk result (λ r. IsFlag (reading (codes "verbose") (map string_bytes words.now)) r.asked.verbosity.is_verbose) }
    ensures resync { IfOk result (λ r. IsFlag (reading (codes "resync") (map string_bytes words.now)) r.is_resync) }
    ensures help { IfErr result (λ unasked. AsksForHelp unasked → is_taken (map string_bytes words.now) ≡ false) }
{
    match command(alloc)?.try_get_matches_from(words) {
        Ok(matches) => request_in(alloc, &matches),
        Err(error) => Err(refusal(alloc, &error)),
    }
}

/// Returns what the arguments after the program's name ask for, without `--resync`: see `decode_request`.
pub fn asked<'a>(alloc: Global, words: &'a [String]) -> Result<Asked, Unasked>
    ensures some { IfOk result (λ a. 1 ≤ a.workers) }
    ensures few { IfOk result (λ a. a.workers ≤ MAX_WORKERS) }
    ensures file { IfOk result (λ a. option_map string_bytes a.file ≡ file_named (option_value (codes "file") (map string_bytes words.now))) }
    ensures target { IfOk result (λ a. IsTargetOf (map string_bytes words.now) a.target) }
    ensures quiet { IfOk result (λ a. IsFlag (reading (codes "quiet") (map string_bytes words.now)) a.verbosity.is_quiet) }
    ensures verbose { IfOk result (λ a. IsFlag (reading (codes "verbose") (map string_bytes words.now)) a.verbosity.is_verbose) }
{
    match decode_request(alloc, words) {
        Ok(request) => Ok(request.asked),
        Err(unasked) => Err(unasked),
    }
}
