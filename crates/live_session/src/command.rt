//! The arguments of the command line.

ghost use Rattle.std.specs.Prelude.{◌≡◌, ◌≢◌, ◌≤◌, [], true, false, IfOk, IfErr, Some, None, map, codes};
ghost use Rattle.std.specs.List.{list_any};
ghost use Rattle.std.specs.Str.{bytes_eq};
ghost use Rattle.clap.specs.Words.{app_of, found_of, rows_of, rule_of};
ghost use Rattle.wind_base.specs.Limits.{most_steps};
ghost use Rattle.live_session.specs.Command.{app as app_lem, command_of as command_of_lem, flag_rule, folder_of as folder_of_lem, going_value, is_one_line as is_one_line_lem, names_value};
ghost use Rattle.live_session.specs.Words.{command_state};
ghost use Rattle.wind_session.specs.Command.{value_of as value_of_lem};
ghost use Rattle.wind_session.specs.declared.command.CommandErr.TheVariants as errors;

use clap::{Arg, ArgAction, ArgMatches};
use std::alloc::{AllocError, Global};
use wind_base::limits::STEPS;
use wind_base::{BoardKind, Profile};
use wind_session::{
    CommandErr, board_options_of, command_line, matches_of, number_of, option, valid, value_of,
    with_board_options,
};

/// What the arguments ask for.
#[derive(Clone, Copy)]
pub struct Command<'a> {
    /// The name of the folder of modules.
    pub modules: &'a str,
    /// The name of the folder of the record; empty if none is asked for.
    pub record: &'a str,
    /// Whether a record that is there may be set aside.
    pub force: bool,
    /// Whether the session goes on from the record that is there.
    pub continues: bool,
    /// The most steps after a part that was sent, and after each tick.
    pub quiet_after: u64,
    /// The rule of inheritance.
    pub profile: Profile,
    /// The kind of board.
    pub board: BoardKind,
}

// The message for an invalid number of steps.
const BAD_STEPS: &str = "'--quiet-after <N>' takes 1 to 13 digits, and at most 1000000000000";

// The message for a name that has no line of a record to itself.
const BAD_NAME: &str = "'--modules <DIR>' and '--record <DIR>' take no name with a line end";

// The message for a session that goes on and would begin a record too.
const BAD_CONTINUE: &str = "'--continue <DIR>' takes neither '--record <DIR>' nor '--force'";

// Which record goes on.
const CONTINUE_HELP: &str = "\
    The folder of a record from which the session goes on; it is replayed first";

// Where the record goes.
const RECORD_HELP: &str = "\
    The folder for the record of the session, made if it isn't there; without it nothing is saved";

// What becomes of an older record.
const FORCE_HELP: &str = "Puts .old after the names of the files of a record that is there";

// How long the board runs after a line.
const QUIET_HELP: &str = "The most steps after a line before the next is read, up to 1000000000000";

// The option of a program whose keys come one by one.
const TERMINAL: &str = "terminal";

const TERMINAL_HELP: &str = "The input is a terminal without its own editing and echo";

// An option without a value.
fn flag<'a>(alloc: Global, name: &'a str, help: &'a str) -> Arg<'a>
    ensures rule { rule_of result ≡ flag_rule name.now }
    ensures local { result.global ≡ false }
{
    Arg::new(alloc, name)
        .long(name)
        .action(ArgAction::SetTrue)
        .help(help)
}

// The command line, as clap reads it.
#[tactic(auto, unfolding(crate::specs::Command::app))]
fn app<'a>(alloc: Global) -> Result<clap::Command<'a>, AllocError>
    ensures { IfOk result (λ c. app_of c ≡ app_lem) }
{
    let about = "Plays a session of a wind kernel's shell while it is typed";
    let command = command_line(alloc, "windlive", about)
        .arg(option(alloc, "record", "DIR", "", RECORD_HELP))?
        .arg(option(alloc, "continue", "DIR", "", CONTINUE_HELP))?
        .arg(flag(alloc, "force", FORCE_HELP))?
        .arg(flag(alloc, TERMINAL, TERMINAL_HELP))?
        .arg(option(alloc, "quiet-after", "N", "1000000", QUIET_HELP))?;
    with_board_options(alloc, command)
}

// Whether an option without a value was given.
fn is_given(matches: &ArgMatches, name: &str) -> bool
    ensures { result ≡ bytes_eq (value_of_lem name.now (rows_of (found_of matches.now))) (codes "true") }
{
    value_of(matches, name) == "true"
}

// Whether a name stands in one line.
fn is_one_line(name: &str) -> bool
    ensures { result ≡ is_one_line_lem name.now }
{
    name.as_bytes().iter().all(|byte| *byte != b'\n')
}

// Both names, if each stands in one line.
fn names(modules: &str, record: &str) -> Option<()>
    ensures { result ≡ names_value modules.now record.now }
{
    if is_one_line(modules) && is_one_line(record) {
        Some(())
    } else {
        None
    }
}

// Nothing, if a session that goes on has no other folder for its record and no leave to set one aside.
fn going(record: &str, continued: &str, force: bool) -> Option<()>
    ensures { result ≡ going_value record.now continued.now force }
{
    if continued.is_empty() || (record.is_empty() && !force) {
        Some(())
    } else {
        None
    }
}

// The folder of the record.
fn folder_of<'a>(record: &'a str, continued: &'a str) -> &'a str
    ensures { result.now ≡ folder_of_lem record.now continued.now }
{
    if continued.is_empty() {
        record
    } else {
        continued
    }
}

/// The command of these words; the first word is the program's name.
#[tactic(auto, unfolding(crate::specs::Command::command_of))]
pub fn command_of<'a>(alloc: Global, words: &'a [&'a str]) -> Result<Command<'a>, CommandErr>
    ensures value { IfOk result (λ c. command_of_lem (map (λ w. w.now) words.now) ≡ Some (command_state c)) }
    ensures usage { IfErr result (λ e. e ≢ errors.NoMemory → command_of_lem (map (λ w. w.now) words.now) ≡ None) }
    ensures within { IfOk result (λ c. c.quiet_after ≤ most_steps) }
    ensures named { IfOk result (λ c. c.continues ≡ true → c.record.now ≢ []) }
{
    let mut app = app(alloc)?;
    let matches = matches_of(alloc, &mut app, words)?;
    let steps = number_of(&matches, "quiet-after", STEPS);
    let quiet_after = valid(alloc, &mut app, steps, BAD_STEPS)?;
    let options = board_options_of(alloc, &mut app, &matches)?;
    let record = value_of(&matches, "record");
    let continued = value_of(&matches, "continue");
    let force = is_given(&matches, "force");
    let folder = folder_of(record, continued);
    let names = names(options.modules, folder);
    valid(alloc, &mut app, names, BAD_NAME)?;
    let going = going(record, continued, force);
    valid(alloc, &mut app, going, BAD_CONTINUE)?;
    Ok(Command {
        modules: options.modules,
        record: folder,
        force,
        continues: !continued.is_empty(),
        quiet_after,
        profile: options.profile,
        board: options.board,
    })
}

/// Whether these words say that the input is a terminal without its own editing and echo.
pub fn is_at_terminal(words: &[&str]) -> bool
    ensures { result ≡ list_any (λ w. bytes_eq w.now (codes "--terminal")) words.now }
{
    words.iter().any(|word| *word == "--terminal")
}
