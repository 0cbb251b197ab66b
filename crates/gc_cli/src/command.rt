//! What the words of the command line ask for. The mode is the first word and is read by hand; the options and the
//! number behind it are read by `clap`, by one command for each mode.

ghost use Rattle.std.specs.Prelude.{◌≡◌, ◌<◌, ◌≤◌, true, false, List, ◌∷◌, codes, IfOk, IfSome, map, string_bytes};
ghost use Rattle.std.specs.List.{list_any};
ghost use Rattle.clap.specs.Words.{app_of, is_simple_and_free, rule_of, with_rule};
ghost use Rattle.gc_cli.specs.Command.{Piece, drill_of, make_of, number_within, opts_alone, opts_of, pieces_of, request_of, rounds_of};
ghost use Rattle.gc_cli.specs.Commands.{Finds, HoldsOptions, HoldsValue, drill_app, is_dashes, make_app, mode_app, option_rule, play_app, rounds_rule, with_options};
ghost use Rattle.gc_cli.specs.Played.{IsAllowed};

use crate::opts::Opts;
use clap::error::ErrorKind;
use clap::{Arg, ArgAction, ArgMatches, Command};
use gc_layout::NoMemory;
use std::alloc::{AllocError, Global};

/// What the words of the command line ask for. The rounds of a generated script are 1 to 100,000.
#[derive(Clone, Copy, Debug, PartialEq, Eq)]
pub enum Request {
    /// Read a script and play it on one thread, by these options.
    Play(Opts),
    /// Read a script and play it with a worker for each mutator, by these options.
    Run(Opts),
    /// Write the generated script of so many rounds.
    Make(u32),
    /// Play the generated script of so many rounds, by these options.
    Drill(u32, Opts),
}

/// Reads the words after the program's name. None where they are no command.
pub(crate) fn request_of(alloc: Global, words: &[String]) -> Result<Option<Request>, NoMemory>
    ensures value { IfOk result (λ request. request ≡ request_of (map string_bytes words.now)) }
    ensures allowed { IfOk result (λ request. IfSome request IsAllowed) }
{
    let [mode, words @ ..] = words else {
        return Ok(None);
    };
    if has_dashes(words) {
        return Ok(None);
    }
    mode_request(alloc, mode.as_str(), words)
}

/// One of the words is `--`, behind which `clap` takes each word for a number.
fn has_dashes(words: &[String]) -> bool
    ensures { result ≡ list_any (λ word. is_dashes (string_bytes word)) words.now }
{
    words.iter().any(|word| word.as_str() == "--")
}

/// What a mode asks for with the words behind it.
fn mode_request(alloc: Global, mode: &str, words: &[String]) -> Result<Option<Request>, NoMemory>
    requires { list_any is_dashes (map string_bytes words.now) ≡ false }
    ensures { IfOk result (λ request. request ≡ request_of (mode.now ∷ map string_bytes words.now)) }
{
    match mode {
        "play" => Ok(opts_alone(alloc, words)?.map(Request::Play)),
        "run" => Ok(opts_alone(alloc, words)?.map(Request::Run)),
        "make" => make_request(alloc, words),
        "drill" => drill_request(alloc, words),
        _ => Ok(None),
    }
}

/// The options behind `play` or `run`, where there is nothing else.
fn opts_alone(alloc: Global, words: &[String]) -> Result<Option<Opts>, NoMemory>
    requires { list_any is_dashes (map string_bytes words.now) ≡ false }
    ensures { IfOk result (λ opts. opts ≡ opts_alone (pieces_of (map string_bytes words.now))) }
{
    let Ok(command) = play_command(alloc) else {
        return Err(NoMemory);
    };
    let Some(matches) = matches_of(command, words)? else {
        return Ok(None);
    };
    Ok(opts_of(&matches))
}

/// What `make` asks for with the words behind it.
fn make_request(alloc: Global, words: &[String]) -> Result<Option<Request>, NoMemory>
    requires { list_any is_dashes (map string_bytes words.now) ≡ false }
    ensures { IfOk result (λ request. request ≡ make_of (map string_bytes words.now)) }
{
    let Ok(command) = make_command(alloc) else {
        return Err(NoMemory);
    };
    let Some(matches) = matches_of(command, words)? else {
        return Ok(None);
    };
    Ok(rounds_of(&matches).map(Request::Make))
}

/// What `drill` asks for with the words behind it.
fn drill_request(alloc: Global, words: &[String]) -> Result<Option<Request>, NoMemory>
    requires { list_any is_dashes (map string_bytes words.now) ≡ false }
    ensures { IfOk result (λ request. request ≡ drill_of (pieces_of (map string_bytes words.now))) }
{
    let Ok(command) = drill_command(alloc) else {
        return Err(NoMemory);
    };
    let Some(matches) = matches_of(command, words)? else {
        return Ok(None);
    };
    let Some(rounds) = rounds_of(&matches) else {
        return Ok(None);
    };
    let Some(opts) = opts_of(&matches) else {
        return Ok(None);
    };
    Ok(Some(Request::Drill(rounds, opts)))
}

fn play_command<'a>(alloc: Global) -> Result<Command<'a>, AllocError>
    ensures { IfOk result (λ command. app_of command ≡ play_app) }
{
    with_options(alloc, mode_command(alloc, "play"))
}

fn make_command<'a>(alloc: Global) -> Result<Command<'a>, AllocError>
    ensures { IfOk result (λ command. app_of command ≡ make_app) }
{
    with_rounds(alloc, mode_command(alloc, "make"))
}

fn drill_command<'a>(alloc: Global) -> Result<Command<'a>, AllocError>
    ensures { IfOk result (λ command. app_of command ≡ drill_app) }
{
    with_rounds(alloc, with_options(alloc, mode_command(alloc, "drill"))?)
}

/// The command of a mode before it has arguments. The words that it reads begin behind the mode, and it has none of
/// the flags that `clap` adds unasked.
fn mode_command<'a>(alloc: Global, mode: &'a str) -> Command<'a>
    ensures { app_of result ≡ mode_app mode.entry.now }
{
    Command::new(alloc, mode)
        .no_binary_name(true)
        .disable_help_flag(true)
        .disable_version_flag(true)
}

/// The command with the options of a script that is played. Their values are read later.
fn with_options<'a>(alloc: Global, command: Command<'a>) -> Result<Command<'a>, AllocError>
    ensures { IfOk result (λ more. app_of more ≡ with_options (app_of command.entry)) }
{
    let nursery = option(alloc, "nursery", ArgAction::Set);
    let pages = option(alloc, "pages", ArgAction::Set);
    let reports = option(alloc, "reports", ArgAction::SetTrue);
    let summary = option(alloc, "summary", ArgAction::SetTrue);
    command.arg(nursery)?.arg(pages)?.arg(reports)?.arg(summary)
}

/// An option, which sets a value or a flag.
fn option<'a>(alloc: Global, name: &'a str, action: ArgAction) -> Arg<'a>
    ensures rule { rule_of result ≡ option_rule name.entry.now action }
    ensures local { result.global ≡ false }
{
    Arg::new(alloc, name).long(name).action(action)
}

/// The command with the number of rounds, whose value is read later.
fn with_rounds<'a>(alloc: Global, command: Command<'a>) -> Result<Command<'a>, AllocError>
    ensures { IfOk result (λ more. app_of more ≡ with_rule (app_of command.entry) rounds_rule) }
{
    let rounds = Arg::new(alloc, "rounds").action(ArgAction::Set);
    command.arg(rounds)
}

/// What the command finds in the words. None where it refuses them.
fn matches_of<'a>(
    command: Command<'a>,
    words: &'a [String],
) -> Result<Option<ArgMatches<'a>>, NoMemory>
    requires { is_simple_and_free (app_of command) ≡ true }
    ensures { IfOk result (Finds (app_of command.entry) (map string_bytes words.entry.now)) }
{
    match command.try_get_matches_from(words) {
        Ok(matches) => Ok(Some(matches)),
        Err(error) => match error.kind() {
            ErrorKind::OutOfMemory => Err(NoMemory),
            _ => Ok(None),
        },
    }
}

/// The options that were given, by default where none is. None where a value isn't within its limits.
fn opts_of(matches: &ArgMatches<'_>) -> Option<Opts>
    ensures { (pieces : List Piece) → HoldsOptions matches.now pieces → result ≡ opts_of pieces }
{
    let nursery = match matches.get_str("nursery") {
        Some(value) => number_within(64, 65_536, value)?,
        None => Opts::DEFAULT.nursery,
    };
    let pages = match matches.get_str("pages") {
        Some(value) => number_within(1, 128, value)? as u16,
        None => Opts::DEFAULT.pages,
    };
    Some(Opts {
        nursery,
        pages,
        reports: matches.get_flag("reports"),
        summary: matches.get_flag("summary"),
    })
}

/// The rounds that were given. None where there are none, or they aren't within their limits.
fn rounds_of(matches: &ArgMatches<'_>) -> Option<u32>
    ensures { (pieces : List Piece) → HoldsValue matches.now pieces (codes "rounds") → result ≡ rounds_of pieces }
{
    number_within(1, 100_000, matches.get_str("rounds")?)
}

/// The number that a word writes, spelled as a script's numbers are, where it lies within these limits. None else.
fn number_within(least: u32, most: u32, word: &str) -> Option<u32>
    requires { 0 < least }
    ensures value { result ≡ number_within least most word.now }
    ensures few { IfSome result (λ number. number ≤ most) }
{
    // A sign or a leading zero is no part of a number, and 0 lies below the limits.
    let first = *word.as_bytes().first()?;
    if first == b'+' || first == b'0' {
        return None;
    }
    let number = word.parse::<u32>().ok()?;
    (least <= number && number <= most).then_some(number)
}
