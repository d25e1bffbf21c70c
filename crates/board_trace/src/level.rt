//! Exceptions, aborts, and interrupt routines that begin and end.

ghost use Rattle.std.specs.Prelude.{◌≡◌, ◌++◌, ◌∷◌, [], OnOk, if◌then◌else◌};
ghost use Rattle.board_trace.specs.Level.{begins as begins_lem, exception_told, is_abort as is_abort_lem, is_exception as is_exception_lem, is_idle as is_idle_lem, is_of_level as is_of_level_lem, is_of_shell as is_of_shell_lem, is_return as is_return_lem, may_begin as may_begin_lem, routine_ends as routine_ends_lem, routines};
ghost use Rattle.board_trace.specs.Outside.{is_hearing as is_hearing_lem};

use crate::cause::cause_of;
use crate::happening::Happening;
use crate::list::add;
use crate::moment::{AfterStep, BeforeStep, Level};
use kernel_world::{Actor, is_shell};
use tick_file::Event;
use wind_base::{Gate, NoMemory};
use wind_machine::{Next, Phase};

/// Whether a step is an exception: a task or routine that is at no call wrote something.
pub(crate) fn is_exception(before_step: &BeforeStep, wrote: bool) -> bool
    ensures { result ≡ is_exception_lem before_step.now wrote }
{
    wrote && before_step.at.is_some() && before_step.call.is_none()
}

/// Whether bytes of the console arrive.
pub(crate) fn is_hearing(next: &Next) -> bool
    ensures { result ≡ is_hearing_lem next.now }
{
    matches!(next, Next::Arrive | Next::Come(Event::Rx(_)))
}

/// Adds a happening, if it occurs.
pub(crate) fn add_if(
    list: &mut Vec<Happening>,
    is: bool,
    happening: Happening,
) -> Result<(), NoMemory>
    ensures { OnOk result (list.new.items ≡ list.old.items ++ (if is then happening ∷ [] else [])) }
{
    if is {
        return add(list, happening);
    }
    Ok(())
}

/// Adds the exception that a step is, if it is one. The step wrote this.
pub(crate) fn add_exception(
    list: &mut Vec<Happening>,
    is: bool,
    before_step: &BeforeStep,
    written: &[u8],
) -> Result<(), NoMemory>
    ensures { OnOk result (list.new.items ≡ list.old.items ++ (if is
        then exception_told before_step.now written.now before_step.now.actor before_step.now.at else [])) }
{
    if !is {
        return Ok(());
    }
    match (before_step.actor, before_step.at) {
        (Some(who), Some(at)) => {
            let cause = cause_of(written, at, before_step.word, before_step.target);
            add(list, Happening::Exception { who, at, cause })
        }
        (None, _) | (Some(_), None) => Ok(()),
    }
}

// Whether the shell is at its prompt.
fn is_idle(phase: Phase) -> bool
    ensures { result ≡ is_idle_lem phase }
{
    matches!(phase, Phase::Prompt)
}

// Whether a step is one of the shell's task.
fn is_of_shell(actor: Option<Actor>) -> bool
    ensures { result ≡ is_of_shell_lem actor }
{
    match actor {
        Some(who) => is_shell(&who),
        None => false,
    }
}

/// Whether the shell's line is aborted.
pub(crate) fn is_abort(before_step: &BeforeStep, after_step: &AfterStep, exception: bool) -> bool
    ensures { result ≡ is_abort_lem before_step.now after_step.now exception }
{
    before_step.interrupt_key
        || (exception && is_of_shell(before_step.actor) && is_idle(after_step.phase))
}

// Whether a step is one of the active routine.
fn is_of_level(actor: Option<Actor>) -> bool
    ensures { result ≡ is_of_level_lem actor }
{
    matches!(actor, Some(Actor::Interrupt))
}

// Whether a gate is the return of a routine.
fn is_return(gate: Option<Gate>) -> bool
    ensures { result ≡ is_return_lem gate }
{
    matches!(gate, Some(Gate::InterruptReturn))
}

// Whether the active routine ends: it comes to its return, or causes an exception.
fn routine_ends(before_step: &BeforeStep, wrote: bool) -> bool
    ensures { result ≡ routine_ends_lem before_step.now wrote }
{
    is_of_level(before_step.actor)
        && (is_return(before_step.gate) || is_exception(before_step, wrote))
}

// Whether a routine may begin: a tick occurs, an interrupt is delivered, or another routine ends.
fn may_begin(next: &Next, ends: bool) -> bool
    ensures { result ≡ may_begin_lem next.now ends }
{
    match next {
        Next::Deliver(_) | Next::Come(Event::Tick) => true,
        _ => ends,
    }
}

// Adds that the routine that is active now begins, if one may.
fn add_begin(list: &mut Vec<Happening>, begins: bool, level: Option<Level>) -> Result<(), NoMemory>
    ensures { OnOk result (list.new.items ≡ list.old.items ++ begins_lem begins level) }
{
    match (begins, level) {
        (true, Some(level)) => add(
            list,
            Happening::RoutineBegins {
                entry: level.pc,
                param: level.param,
            },
        ),
        (false, _) | (true, None) => Ok(()),
    }
}

/// Adds the end of a routine, and the beginning of another.
pub(crate) fn add_routines(
    list: &mut Vec<Happening>,
    before_step: &BeforeStep,
    after_step: &AfterStep,
    wrote: bool,
) -> Result<(), NoMemory>
    ensures { OnOk result (list.new.items ≡ list.old.items
        ++ routines before_step.now after_step.now wrote) }
{
    let ends = routine_ends(before_step, wrote);
    add_if(list, ends, Happening::RoutineEnds)?;
    add_begin(list, may_begin(&before_step.next, ends), after_step.level)
}
