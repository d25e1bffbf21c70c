//! The options of the command line that choose what is told.

ghost use Rattle.std.specs.Prelude.{◌≡◌, ◌≢◌, IfOk, IfErr, Some, None, map};
ghost use Rattle.std.specs.Option.{option_map};
ghost use Rattle.clap.specs.Words.{app_of, found_of, rows_of};
ghost use Rattle.wind_session.specs.Command.{number_value};
ghost use Rattle.wind_session.specs.declared.command.CommandErr.TheVariants as errors;
ghost use Rattle.trace_session.specs.Choice.{choice_state};
ghost use Rattle.trace_session.specs.Command.{choice_for as choice_for_lem, choice_of_rows, each, first_value, has_choice as has_choice_lem, has_defaults as has_defaults_lem, with_choice_options as with_choice_options_lem, kinds_value, last_value, most_id, parts, step_of_number, step_value, tasks_value};
ghost use Rattle.trace_session.specs.Kinds.{kind_named as kind_named_lem};

use crate::choice::{Choice, Kind};
use crate::forms::Form;
use crate::kinds::{kind_named, kinds_message};
use clap::ArgMatches;
use std::alloc::{AllocError, Global};
use wind_base::limits::STEPS;
use wind_session::{CommandErr, number, option, valid, value_of};

// The greatest id of a task.
const MOST_ID: u64 = 4_294_967_295;

// The messages for invalid values.
const BAD_FROM: &str = "'--from <STEP>' takes a number from 1 to 1000000000000";

const BAD_TO: &str = "'--to <STEP>' takes a number from 1 to 1000000000000";

const BAD_TASKS: &str = "'--tasks <ID,..>' takes ids of tasks, separated by commas";

const NO_CHOICE: &str = "this form takes none of --from, --to, --tasks and --kinds";

/// A command line with the options that choose what is told.
pub(crate) fn with_choice_options<'a>(
    alloc: Global,
    command: clap::Command<'a>,
) -> Result<clap::Command<'a>, AllocError>
    ensures { IfOk result (λ c. app_of c ≡ with_choice_options_lem (app_of command.entry)) }
{
    let from = "The first step whose events are told; steps count from 1";
    let to = "The last step whose events are told";
    let tasks = "The tasks whose events are told, by their ids";
    let kinds = "The kinds of the events that are told";
    command
        .arg(option(alloc, "from", "STEP", "first", from))?
        .arg(option(alloc, "to", "STEP", "last", to))?
        .arg(option(alloc, "tasks", "ID,..", "all", tasks))?
        .arg(option(alloc, "kinds", "KIND,..", "all", kinds))
}

// A step with this number.
fn step_of(number: Option<u64>) -> Option<u64>
    ensures { result ≡ step_of_number number }
{
    match number {
        Some(0) | None => None,
        Some(step) => Some(step),
    }
}

// The number of a step.
fn step_number(text: &str) -> Option<u64>
    ensures { result ≡ step_value text.now }
{
    step_of(number(text, STEPS))
}

// The first step that is told.
fn first_step(text: &str) -> Option<u64>
    ensures { result ≡ first_value text.now }
{
    match text {
        "first" => Some(1),
        _ => step_number(text),
    }
}

// The last step that is told; none for the last of the run.
fn last_step(text: &str) -> Option<Option<u64>>
    ensures { result ≡ last_value text.now }
{
    match text {
        "last" => Some(None),
        _ => match step_number(text) {
            Some(step) => Some(Some(step)),
            None => None,
        },
    }
}

// The items of a list.
fn items_of<'a>(alloc: Global, text: &'a str) -> Result<Vec<&'a str>, AllocError>
    ensures { IfOk result (λ v. map (λ x. x.now) v.items ≡ parts text.now) }
{
    text.split(',').collect(alloc)
}

// The id of a task.
fn task_id(text: &str) -> Option<u32>
    ensures { result ≡ number_value most_id text.now }
{
    match number(text, MOST_ID) {
        Some(id) => Some(id as u32),
        None => None,
    }
}

// The ids of tasks; none if one is invalid.
fn task_ids(alloc: Global, items: &[&str]) -> Result<Option<Vec<u32>>, AllocError>
    ensures { IfOk result (λ ids. option_map (λ v. v.items) ids
        ≡ each (number_value most_id) (map (λ x. x.now) items.now)) }
{
    let mut ids = Vec::new(alloc);
    for item in items {
        let Some(id) = task_id(*item) else {
            return Ok(None);
        };
        ids.push(id)?;
    }
    Ok(Some(ids))
}

// The kinds with these names; none if a name is unknown.
fn kinds_named(alloc: Global, items: &[&str]) -> Result<Option<Vec<Kind>>, AllocError>
    ensures { IfOk result (λ kinds. option_map (λ v. v.items) kinds
        ≡ each kind_named_lem (map (λ x. x.now) items.now)) }
{
    let mut kinds = Vec::new(alloc);
    for item in items {
        let Some(kind) = kind_named(*item) else {
            return Ok(None);
        };
        kinds.push(kind)?;
    }
    Ok(Some(kinds))
}

// The tasks that are told; none for everybody and the board.
fn tasks_of(alloc: Global, text: &str) -> Result<Option<Option<Vec<u32>>>, AllocError>
    ensures { IfOk result (λ tasks. option_map (option_map (λ v. v.items)) tasks ≡ tasks_value text.now) }
{
    if text == "all" {
        return Ok(Some(None));
    }
    let items = items_of(alloc, text)?;
    match task_ids(alloc, &items)? {
        Some(ids) => Ok(Some(Some(ids))),
        None => Ok(None),
    }
}

// The kinds that are told; none for all.
fn kinds_of(alloc: Global, text: &str) -> Result<Option<Option<Vec<Kind>>>, AllocError>
    ensures { IfOk result (λ kinds. option_map (option_map (λ v. v.items)) kinds ≡ kinds_value text.now) }
{
    if text == "all" {
        return Ok(Some(None));
    }
    let items = items_of(alloc, text)?;
    match kinds_named(alloc, &items)? {
        Some(kinds) => Ok(Some(Some(kinds))),
        None => Ok(None),
    }
}

// The choice of the options.
fn choice_of(
    alloc: Global,
    app: &mut clap::Command<'_>,
    matches: &ArgMatches,
) -> Result<Choice, CommandErr>
    ensures value { IfOk result (λ c. choice_of_rows (rows_of (found_of matches.now)) ≡ Some (choice_state c)) }
    ensures usage { IfErr result (λ e. e ≢ errors.NoMemory → choice_of_rows (rows_of (found_of matches.now)) ≡ None) }
{
    let first = first_step(value_of(matches, "from"));
    let first = valid(alloc, app, first, BAD_FROM)?;
    let last = last_step(value_of(matches, "to"));
    let last = valid(alloc, app, last, BAD_TO)?;
    let tasks = tasks_of(alloc, value_of(matches, "tasks"))?;
    let tasks = valid(alloc, app, tasks, BAD_TASKS)?;
    let kinds = kinds_of(alloc, value_of(matches, "kinds"))?;
    let message = kinds_message(alloc)?;
    let kinds = valid(alloc, app, kinds, message.as_str())?;
    Ok(Choice {
        first,
        last,
        tasks,
        kinds,
    })
}

// Each of the options has its default.
fn has_defaults(matches: &ArgMatches) -> bool
    ensures { result ≡ has_defaults_lem (rows_of (found_of matches.now)) }
{
    value_of(matches, "from") == "first"
        && value_of(matches, "to") == "last"
        && value_of(matches, "tasks") == "all"
        && value_of(matches, "kinds") == "all"
}

// The form is told of a choice.
fn has_choice(form: Form) -> bool
    ensures { result ≡ has_choice_lem form }
{
    match form {
        Form::Events | Form::JsonLines | Form::Chrome | Form::Timeline => true,
        Form::State | Form::Coverage | Form::Summary | Form::SummaryJson => false,
    }
}

/// The choice for a form: some forms are told of the options' choice, others of everything.
pub(crate) fn choice_for(
    alloc: Global,
    app: &mut clap::Command<'_>,
    form: Form,
    matches: &ArgMatches,
) -> Result<Choice, CommandErr>
    ensures value { IfOk result (λ c. choice_for_lem form (rows_of (found_of matches.now)) ≡ Some (choice_state c)) }
    ensures usage { IfErr result (λ e. e ≢ errors.NoMemory
        → choice_for_lem form (rows_of (found_of matches.now)) ≡ None) }
{
    if has_choice(form) {
        return choice_of(alloc, app, matches);
    }
    let everything = if has_defaults(matches) {
        Some(Choice::everything())
    } else {
        None
    };
    valid(alloc, app, everything, NO_CHOICE)
}
