//! The command line: `watchtree run [--queue N]`, `watchtree storm [--calls N]`.

ghost use Rattle.std.specs.Prelude.{◌≡◌, ◌≢◌, ◌<◌, ◌≤◌, ◌^◌, IfErr, IfOk, IfSome, None, Some, drop, false, length, map};
ghost use Rattle.std.specs.Prelude.{option_and_then, option_map, true};
ghost use Rattle.std.specs.Char.{is_ascii_digit};
ghost use Rattle.std.specs.List.{list_all, list_any};
ghost use Rattle.std.specs.Option.{SomeIff};
ghost use Rattle.std.specs.Str.Parse.{digits_value};
ghost use Rattle.std.specs.String.{string_bytes};
ghost use Rattle.clap.specs.Words.{app_of, first_of, found_of, rows_of, shape_of, subcommand_rows_of};
ghost use Rattle.watchtree_command.specs.CommandLine.{Invokes, IsInvocation, invocation_in, invocation_of, is_dashes};
ghost use Rattle.watchtree_command.specs.CommandLine.{number_within, number_or, program, with_option};

use crate::fault::Fault;
use clap::error::ErrorKind;
use clap::{Arg, ArgAction, ArgMatches, Command};
use std::alloc::{AllocError, Global};

/// The limit of an instance that names none, unless the command line gives another.
const QUEUE: u32 = 16_384;

/// The least limit.
const QUEUE_MIN: u32 = 1;

/// The greatest limit.
const QUEUE_MAX: u32 = 65_535;

/// How many calls each writer of a storm makes, unless the command line gives another number.
const CALLS: u32 = 100;

/// The least number of calls.
const CALLS_MIN: u32 = 1;

/// The greatest number of calls.
const CALLS_MAX: u32 = 1_000;

/// How many digits a number may have.
const DIGITS: usize = 5;

/// What the command line asks for.
#[derive(Clone, Copy, Debug, PartialEq, Eq)]
pub enum Invocation {
    /// `run`, with the limit of an instance that names none.
    Run {
        /// From 1 to 65,535.
        queue: u32,
    },
    /// `storm`, with the number of calls that each writer makes.
    Storm {
        /// From 1 to 1,000.
        calls: u32,
    },
}

/// What the words ask for.
///
/// The first word is the program's name. There is no help and no version; options are not shortened and not repeated.
///
/// # Errors
/// [`Fault::CommandLine`], where the words are no `run` and no `storm`, or [`Fault::Memory`].
pub fn invocation_from(alloc: Global, words: &[String]) -> Result<Invocation, Fault>
    ensures asks { Invokes (invocation_of (map string_bytes words.now)) result }
    ensures range { IfOk result IsInvocation }
{
    // To clap this word ends the options.
    if ends_options(words) {
        return Err(Fault::CommandLine);
    }
    let command = command(alloc)?;
    match command.try_get_matches_from(words) {
        Ok(matches) => invocation_in(&matches),
        Err(error) => Err(fault_by(error.kind())),
    }
}

/// Whether a word behind the first is `--`.
fn ends_options(words: &[String]) -> bool
    ensures { result ≡ list_any is_dashes (drop 1 (map string_bytes words.now)) }
{
    !words.is_empty() && has_dashes(&words[1..])
}

/// Whether a word is `--`.
fn has_dashes(words: &[String]) -> bool
    ensures { result ≡ list_any is_dashes (map string_bytes words.now) }
{
    let mut found = false;
    for word in words {
        found = found || word.as_str() == "--";
    }
    found
}

/// The fault of words that clap does not take.
fn fault_by(kind: ErrorKind) -> Fault
    ensures memory { kind ≡ ErrorKind.OutOfMemory → result ≡ Fault.Memory }
    ensures words { kind ≢ ErrorKind.OutOfMemory → result ≡ Fault.CommandLine }
{
    match kind {
        ErrorKind::OutOfMemory => Fault::Memory,
        _ => Fault::CommandLine,
    }
}

/// What the subcommand that clap found asks for.
fn invocation_in(matches: &ArgMatches<'_>) -> Result<Invocation, Fault>
    ensures asks { Invokes (option_and_then invocation_in (subcommand_rows_of matches.now)) result }
    ensures range { IfOk result IsInvocation }
{
    match matches.subcommand() {
        Some((name, found)) => invocation_at(name, found),
        None => Err(Fault::CommandLine),
    }
}

/// What a subcommand asks for, with what clap found behind it.
fn invocation_at(name: &str, found: &ArgMatches<'_>) -> Result<Invocation, Fault>
    ensures asks { Invokes (invocation_in (name.now, rows_of (found_of found.now))) result }
    ensures range { IfOk result IsInvocation }
{
    if name == "run" {
        let queue = number_in(found, "queue", QUEUE, QUEUE_MIN, QUEUE_MAX)?;
        return Ok(Invocation::Run { queue });
    }
    if name == "storm" {
        let calls = number_in(found, "calls", CALLS, CALLS_MIN, CALLS_MAX)?;
        return Ok(Invocation::Storm { calls });
    }
    Err(Fault::CommandLine)
}

/// The number that an option has, or the usual one.
fn number_in(
    found: &ArgMatches<'_>,
    option: &str,
    usual: u32,
    least: u32,
    most: u32,
) -> Result<u32, Fault>
    requires { (least ≤ usual) × (usual ≤ most) }
    ensures ok { IfOk result (λ n.
        number_or usual least most (first_of option.now (rows_of (found_of found.now))) ≡ Some n) }
    ensures err { IfErr result (λ fault.
        (fault ≡ Fault.CommandLine)
        × (number_or usual least most (first_of option.now (rows_of (found_of found.now))) ≡ None)) }
    ensures range { IfOk result (λ n. (least ≤ n) × (n ≤ most)) }
{
    number_or(found.get_str(option), usual, least, most)
}

/// The definition of the program's command line, for clap.
fn command<'a>(alloc: Global) -> Result<Command<'a>, AllocError>
    ensures { IfOk result (λ c. app_of c ≡ program) }
{
    let run = subcommand(alloc, "run", "queue")?;
    let storm = subcommand(alloc, "storm", "calls")?;
    Command::new(alloc, "watchtree")
        .disable_help_flag(true)
        .disable_version_flag(true)
        .disable_help_subcommand(true)
        .subcommand_required(true)
        .subcommand(run)?
        .subcommand(storm)
}

/// A subcommand with an option that has a value.
fn subcommand<'a>(alloc: Global, name: &'a str, option: &'a str) -> Result<Command<'a>, AllocError>
    ensures { IfOk result (λ c. shape_of c ≡ with_option name.entry.now option.entry.now) }
{
    let option = Arg::new(alloc, option).long(option).action(ArgAction::Set);
    Command::new(alloc, name)
        .disable_help_flag(true)
        .disable_version_flag(true)
        .arg(option)
}

/// The number that was given, or the usual one.
fn number_or(given: Option<&str>, usual: u32, least: u32, most: u32) -> Result<u32, Fault>
    requires { (least ≤ usual) × (usual ≤ most) }
    ensures ok { IfOk result (λ n. number_or usual least most (option_map (λ s. s.now) given.entry) ≡ Some n) }
    ensures err { IfErr result (λ fault.
        (fault ≡ Fault.CommandLine) × (number_or usual least most (option_map (λ s. s.now) given.entry) ≡ None)) }
    ensures range { IfOk result (λ n. (least ≤ n) × (n ≤ most)) }
{
    let Some(number) = given else {
        return Ok(usual);
    };
    match number_within(number, least, most) {
        Some(number) => Ok(number),
        None => Err(Fault::CommandLine),
    }
}

/// A number in a range, of 1 to 5 decimal digits.
#[tactic(auto, unfolding(crate::specs::CommandLine::number_within))]
fn number_within(number: &str, least: u32, most: u32) -> Option<u32>
    ensures value { result ≡ number_within least most number.now }
    ensures range { IfSome result (λ n. (least ≤ n) × (n ≤ most)) }
{
    if DIGITS < number.len() || !are_digits(number) {
        return None;
    }
    match value_of(number) {
        Some(value) if least <= value && value <= most => Some(value),
        _ => None,
    }
}

/// Whether all characters are decimal digits.
fn are_digits(number: &str) -> bool
    ensures { result ≡ list_all is_ascii_digit number.now }
{
    number.bytes().all(|b| b.is_ascii_digit())
}

/// The number that digits spell, if there are any and it fits.
fn value_of(digits: &str) -> Option<u32>
    requires { list_all is_ascii_digit digits.now ≡ true }
    ensures { SomeIff result ((0 < length digits.now) × (digits_value 10 digits.now < 2 ^ 32))
        (digits_value 10 digits.now) }
{
    digits.parse::<u32>().ok()
}
