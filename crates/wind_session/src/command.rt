//! The arguments of the command line.

ghost use Rattle.std.specs.Prelude.{◌≡◌, ◌≢◌, ◌≤◌, IfOk, IfErr, IfSome, Some, None, true, false, map};
ghost use Rattle.clap.specs.Words.{app_of, found_of, is_simple_and_free, new_app, rows_of, rule_of};
ghost use Rattle.wind_base.specs.Limits.{most_steps};
ghost use Rattle.wind_session.specs.Command.{app as app_lem, HasFewRounds, board_options_value, board_value, command_of as command_of_lem, command_of_rows, number_value, option_rule, profile_value, source_value, rows_given, value_of as value_of_lem, with_board_options as with_board_options_lem, with_session_options as with_session_options_lem};
ghost use Rattle.wind_session.specs.Words.{board_options_state, command_state};
ghost use Rattle.wind_session.specs.declared.command.CommandErr.TheVariants as errors;

use clap::error::ErrorKind;
use clap::{Arg, ArgMatches, Error};
use std::alloc::{AllocError, Global};
use wind_base::limits::STEPS;
use wind_base::{BoardKind, Profile, decimal};

/// What a session plays.
#[derive(Clone, Copy, Debug, PartialEq, Eq)]
pub enum Source {
    /// The console file and the tick file.
    Files,
    /// A generated session with this many rounds.
    Generated(u32),
}

/// What the arguments ask for.
#[derive(Clone, Copy)]
pub struct Command<'a> {
    /// The name of the console file.
    pub console: &'a str,
    /// The name of the tick file.
    pub ticks: &'a str,
    /// The name of the folder of modules.
    pub modules: &'a str,
    /// The most steps that the run makes.
    pub limit: u64,
    /// What is played.
    pub source: Source,
    /// The rule of inheritance.
    pub profile: Profile,
    /// The kind of board.
    pub board: BoardKind,
}

/// The options of every program that plays a session.
#[derive(Clone, Copy)]
pub struct BoardOptions<'a> {
    /// The name of the folder of modules.
    pub modules: &'a str,
    /// The rule of inheritance.
    pub profile: Profile,
    /// The kind of board.
    pub board: BoardKind,
}

/// Why the arguments give no command.
#[derive(Debug, Drop)]
pub enum CommandErr {
    /// The arguments are invalid, or `--help` was given. Holds the text for the user.
    Usage(String),
    /// Host memory ran out.
    NoMemory,
}

impl From<AllocError> for CommandErr {
    ghost use Rattle.std.specs.Prelude.{◌≡◌};
    ghost use Rattle.wind_session.specs.declared.command.CommandErr.TheVariants as errors;

    ghost from_gives = { λ _ e. e ≡ errors.NoMemory };

    fn from(_error: AllocError) -> CommandErr {
        CommandErr::NoMemory
    }
}

/// The name of the program.
pub const PROGRAM: &str = "windplay";

// The most digits that a number may have.
const NUMBER_DIGITS: usize = 13;

// The most rounds of a generated session.
const ROUNDS: u64 = 10_000;

// The message for an invalid limit.
const BAD_LIMIT: &str = "'--limit <N>' takes 1 to 13 digits, and at most 1000000000000";

const BAD_ROUNDS: &str = "'--generate <N>' takes 1 to 13 digits, and at most 10000";

// The greatest number of a rule of inheritance.
const PROFILES: u64 = 2;

const BAD_PROFILE: &str = "'--profile <N>' takes 1 or 2";

// The greatest number of a kind of board.
const BOARDS: u64 = 2;

const BAD_BOARD: &str = "'--board <N>' takes 1 or 2";

/// The value of 1 to 13 decimal digits, at most `most`.
pub fn number(text: &str, most: u64) -> Option<u64>
    ensures value { result ≡ number_value most text.now }
    ensures within { IfSome result (λ n. n ≤ most) }
{
    if text.len() > NUMBER_DIGITS {
        return None;
    }
    decimal(text.as_bytes(), most)
}

// What this number of rounds asks for.
fn session_source(text: &str) -> Option<Source>
    ensures value { result ≡ source_value text.now }
    ensures few { IfSome result (λ s. HasFewRounds s) }
{
    match number(text, ROUNDS)? {
        0 => Some(Source::Files),
        rounds => Some(Source::Generated(rounds as u32)),
    }
}

// The rule of inheritance with this number.
fn profile(text: &str) -> Option<Profile>
    ensures { result ≡ profile_value text.now }
{
    match number(text, PROFILES)? {
        1 => Some(Profile::One),
        2 => Some(Profile::Two),
        _ => None,
    }
}

// The kind of board with this number.
fn board(text: &str) -> Option<BoardKind>
    ensures { result ≡ board_value text.now }
{
    match number(text, BOARDS)? {
        1 => Some(BoardKind::One),
        2 => Some(BoardKind::Two),
        _ => None,
    }
}

/// An option that takes one value.
pub fn option<'a>(
    alloc: Global,
    name: &'a str,
    value: &'a str,
    default: &'a str,
    help: &'a str,
) -> Arg<'a>
    ensures rule { rule_of result ≡ option_rule name.now default.now }
    ensures local { result.global ≡ false }
{
    Arg::new(alloc, name)
        .long(name)
        .value_name(value)
        .default_value(default)
        .help(help)
}

// What 1 and 2 are of `--profile`.
const PROFILE_HELP: &str = "\
    An inherited priority lasts until its owner gives back all mutexes (1), \
    or until its cause stops waiting (2)";

/// A command line with the options of every program that plays a session.
pub fn with_board_options<'a>(
    alloc: Global,
    command: clap::Command<'a>,
) -> Result<clap::Command<'a>, AllocError>
    ensures { IfOk result (λ c. app_of c ≡ with_board_options_lem (app_of command.entry)) }
{
    let modules = "The folder of the modules that ld loads";
    let board = "The board: with 16 MiB of RAM (1) or 64 MiB (2)";
    command
        .arg(option(alloc, "modules", "DIR", ".", modules))?
        .arg(option(alloc, "profile", "N", "1", PROFILE_HELP))?
        .arg(option(alloc, "board", "N", "1", board))
}

// What `--generate` plays.
const GENERATE_HELP: &str = "\
    Plays N generated rounds (a sum, a mutex, a delay), up to 10000, in place of the files, \
    and sums them up in one line; 0 plays the files";

/// A command line with the options of a session.
pub fn with_session_options<'a>(
    alloc: Global,
    command: clap::Command<'a>,
) -> Result<clap::Command<'a>, AllocError>
    ensures { IfOk result (λ c. app_of c ≡ with_session_options_lem (app_of command.entry)) }
{
    let console = "The console file: the lines for the shell";
    let ticks = "The tick file: when ticks, bytes and interrupts come";
    let limit = "The most steps to make, up to 1000000000000";
    let command = command
        .arg(option(alloc, "console", "FILE", "console.txt", console))?
        .arg(option(alloc, "ticks", "FILE", "ticks.txt", ticks))?
        .arg(option(alloc, "limit", "N", "1000000", limit))?
        .arg(option(alloc, "generate", "N", "0", GENERATE_HELP))?;
    with_board_options(alloc, command)
}

/// A command line without options.
pub fn command_line<'a>(alloc: Global, name: &'a str, about: &'a str) -> clap::Command<'a>
    ensures { app_of result ≡ new_app name.now }
{
    clap::Command::new(alloc, name).about(about)
}

// The command line of windplay, as clap reads it.
#[tactic(auto, unfolding(crate::specs::Command::app))]
fn app<'a>(alloc: Global) -> Result<clap::Command<'a>, AllocError>
    ensures { IfOk result (λ c. app_of c ≡ app_lem) }
{
    let about = "Plays a session of a wind kernel's shell on a modelled board";
    with_session_options(alloc, command_line(alloc, PROGRAM, about))
}

// The message of clap for these arguments.
fn usage(alloc: Global, error: &Error) -> CommandErr {
    match format!(in alloc; "{error}") {
        Ok(text) => CommandErr::Usage(text),
        Err(_) => CommandErr::NoMemory,
    }
}

/// What clap finds in these words; the first word is the program's name.
#[tactic(auto, unfolding(crate::specs::Command::rows_given))]
pub fn matches_of<'a>(
    alloc: Global,
    app: &mut clap::Command<'a>,
    words: &'a [&'a str],
) -> Result<ArgMatches<'a>, CommandErr>
    requires { is_simple_and_free (app_of app.old) ≡ true }
    ensures ok { IfOk result (λ m. rows_given (app_of app.old) (map (λ w. w.now) words.now)
        ≡ Some (rows_of (found_of m))) }
    ensures err { IfErr result (λ e. e ≢ errors.NoMemory → rows_given (app_of app.old) (map (λ w. w.now) words.now)
        ≡ None) }
{
    match app.try_get_matches_from_mut(words) {
        Ok(matches) => Ok(matches),
        Err(error) if error.kind() == ErrorKind::OutOfMemory => Err(CommandErr::NoMemory),
        Err(error) => Err(usage(alloc, &error)),
    }
}

/// The value of an option.
pub fn value_of<'a>(matches: &ArgMatches<'a>, name: &str) -> &'a str
    ensures { result.now ≡ value_of_lem name.now (rows_of (found_of matches.now)) }
{
    matches.get_str(name).unwrap_or("")
}

/// The number that an option has, at most `most`.
pub fn number_of(matches: &ArgMatches, name: &str, most: u64) -> Option<u64>
    ensures value { result ≡ number_value most (value_of_lem name.now (rows_of (found_of matches.now))) }
    ensures within { IfSome result (λ n. n ≤ most) }
{
    number(value_of(matches, name), most)
}

/// The value of an option; if it is invalid, the error has this message, as clap prints it.
pub fn valid<T: Drop>(
    alloc: Global,
    app: &mut clap::Command<'_>,
    value: Option<T>,
    message: &str,
) -> Result<T, CommandErr>
    ensures ok { IfOk result (λ v. value ≡ Some v) }
    ensures err { IfErr result (λ e. e ≢ errors.NoMemory → value ≡ None) }
{
    if let Some(value) = value {
        return Ok(value);
    }
    match app.error(ErrorKind::ValueValidation, message) {
        Ok(error) => Err(usage(alloc, &error)),
        Err(_) => Err(CommandErr::NoMemory),
    }
}

/// The options of every program that plays a session, from what clap found.
pub fn board_options_of<'a>(
    alloc: Global,
    app: &mut clap::Command<'_>,
    matches: &ArgMatches<'a>,
) -> Result<BoardOptions<'a>, CommandErr>
    ensures value { IfOk result (λ o. board_options_value (rows_of (found_of matches.now))
        ≡ Some (board_options_state o)) }
    ensures usage { IfErr result (λ e. e ≢ errors.NoMemory
        → board_options_value (rows_of (found_of matches.now)) ≡ None) }
{
    let profile = profile(value_of(matches, "profile"));
    let profile = valid(alloc, app, profile, BAD_PROFILE)?;
    let board = board(value_of(matches, "board"));
    let board = valid(alloc, app, board, BAD_BOARD)?;
    Ok(BoardOptions {
        modules: value_of(matches, "modules"),
        profile,
        board,
    })
}

/// The command of a session, from what clap found.
pub fn command_of_matches<'a>(
    alloc: Global,
    app: &mut clap::Command<'_>,
    matches: &ArgMatches<'a>,
) -> Result<Command<'a>, CommandErr>
    ensures value { IfOk result (λ c. command_of_rows (rows_of (found_of matches.now)) ≡ Some (command_state c)) }
    ensures usage { IfErr result (λ e. e ≢ errors.NoMemory → command_of_rows (rows_of (found_of matches.now)) ≡ None) }
    ensures within { IfOk result (λ c. (c.limit ≤ most_steps) × HasFewRounds c.source) }
{
    let limit = number_of(matches, "limit", STEPS);
    let limit = valid(alloc, app, limit, BAD_LIMIT)?;
    let source = session_source(value_of(matches, "generate"));
    let source = valid(alloc, app, source, BAD_ROUNDS)?;
    let options = board_options_of(alloc, app, matches)?;
    Ok(Command {
        console: value_of(matches, "console"),
        ticks: value_of(matches, "ticks"),
        modules: options.modules,
        limit,
        source,
        profile: options.profile,
        board: options.board,
    })
}

/// The command of these words; the first word is the program's name.
#[tactic(auto, unfolding(crate::specs::Command::command_of))]
pub fn command_of<'a>(alloc: Global, words: &'a [&'a str]) -> Result<Command<'a>, CommandErr>
    ensures value { IfOk result (λ c. command_of_lem (map (λ w. w.now) words.now) ≡ Some (command_state c)) }
    ensures usage { IfErr result (λ e. e ≢ errors.NoMemory → command_of_lem (map (λ w. w.now) words.now) ≡ None) }
    ensures within { IfOk result (λ c. (c.limit ≤ most_steps) × HasFewRounds c.source) }
{
    let mut app = app(alloc)?;
    let matches = matches_of(alloc, &mut app, words)?;
    command_of_matches(alloc, &mut app, &matches)
}
