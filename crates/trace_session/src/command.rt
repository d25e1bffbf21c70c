//! The arguments of the command line.

ghost use Rattle.std.specs.Prelude.{◌≡◌, ◌≢◌, ◌≤◌, IfOk, IfErr, Some, None, map};
ghost use Rattle.clap.specs.Words.{app_of};
ghost use Rattle.wind_session.specs.Command.{HasFewRounds};
ghost use Rattle.trace_session.specs.Command.{app as app_lem, command_of as command_of_lem, form_named as form_named_lem};
ghost use Rattle.trace_session.specs.Words.{trace_state};
ghost use Rattle.wind_base.specs.Limits.{most_steps};
ghost use Rattle.wind_session.specs.declared.command.CommandErr.TheVariants as errors;

use crate::choice::Choice;
use crate::choosing::{choice_for, with_choice_options};
use crate::forms::Form;
use std::alloc::{AllocError, Global};
use wind_session::{
    Command, CommandErr, command_line, command_of_matches, matches_of, option, valid, value_of,
    with_session_options,
};

/// What the arguments ask for.
#[derive(Drop)]
pub struct TraceCommand<'a> {
    /// The form.
    pub form: Form,
    /// What of the run is told.
    pub choice: Choice,
    /// The session.
    pub session: Command<'a>,
}

/// The name of the program.
pub(crate) const PROGRAM: &str = "windtrace";

// The message for an invalid form.
const BAD_FORM: &str =
    "'--as <FORM>' takes events, json-lines, chrome, timeline, state, coverage, summary or summary-json";

// The form with this name.
fn form_named(name: &str) -> Option<Form>
    ensures { result ≡ form_named_lem name.now }
{
    match name {
        "events" => Some(Form::Events),
        "json-lines" => Some(Form::JsonLines),
        "chrome" => Some(Form::Chrome),
        "timeline" => Some(Form::Timeline),
        "state" => Some(Form::State),
        "coverage" => Some(Form::Coverage),
        "summary" => Some(Form::Summary),
        "summary-json" => Some(Form::SummaryJson),
        _ => None,
    }
}

// The command line, as clap reads it.
#[tactic(auto, unfolding(crate::specs::Command::app))]
fn app<'a>(alloc: Global) -> Result<clap::Command<'a>, AllocError>
    ensures { IfOk result (λ c. app_of c ≡ app_lem) }
{
    let about = "Tells what a session of a wind kernel's shell did on a modelled board";
    let form = option(
        alloc,
        "as",
        "FORM",
        "events",
        "What is told: events, json-lines, chrome, timeline, state, coverage, summary or summary-json",
    );
    let command = command_line(alloc, PROGRAM, about).arg(form)?;
    let command = with_choice_options(alloc, command)?;
    with_session_options(alloc, command)
}

/// The command of these words; the first word is the program's name.
#[tactic(auto, unfolding(crate::specs::Command::command_of))]
pub fn trace_command_of<'a>(
    alloc: Global,
    words: &'a [&'a str],
) -> Result<TraceCommand<'a>, CommandErr>
    ensures value { IfOk result (λ c. command_of_lem (map (λ w. w.now) words.now) ≡ Some (trace_state c)) }
    ensures usage { IfErr result (λ e. e ≢ errors.NoMemory → command_of_lem (map (λ w. w.now) words.now) ≡ None) }
    ensures within { IfOk result (λ c. (c.session.limit ≤ most_steps) × HasFewRounds c.session.source) }
{
    let mut app = app(alloc)?;
    let matches = matches_of(alloc, &mut app, words)?;
    let named = form_named(value_of(&matches, "as"));
    let form = valid(alloc, &mut app, named, BAD_FORM)?;
    let choice = choice_for(alloc, &mut app, form, &matches)?;
    let session = command_of_matches(alloc, &mut app, &matches)?;
    Ok(TraceCommand {
        form,
        choice,
        session,
    })
}
