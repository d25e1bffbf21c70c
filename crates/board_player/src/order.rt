//! What comes next, and making that step.

ghost use Rattle.std.specs.Prelude.{◌≡◌, ◌≢◌, ◌↔◌, ◌^◌, ◌<◌, true, false, None, Some, Option, Ok, IfOk, IfSome, IsSome, nat_le, if◌then◌else◌, not, option_map, OnOk, OnErr};
ghost use Rattle.wind_base.specs.Limits.{most_steps};
ghost use Rattle.tick_file.specs.Laws.{IsEarly};
ghost use Rattle.wind_base.specs.declared.regs.Regs.{Regs};
ghost use Rattle.wind_core.specs.State.{KernState, Lives, task_id};
ghost use Rattle.wind_core.specs.Orders.{running as running_lem};
ghost use Rattle.live_loading.specs.KernelWorldObjects.{IsReady};
ghost use Rattle.wind_machine.specs.LiveLoadingSaid.{FileSaid};
ghost use Rattle.wind_machine.specs.Good.{Good};
ghost use Rattle.wind_machine.specs.Events.{next_event, event_step};
ghost use Rattle.wind_machine.specs.ActorSteps.{step_of, routine_step as routine_step_lem, file_for as file_for_lem};
ghost use Rattle.wind_machine.specs.Next.{due_delivery as due_delivery_lem, occupied as occupied_lem, due_event as due_event_lem, event_of, console_is_due as console_is_due_lem, is_open as is_open_lem, is_active as is_active_lem, holds_back, task_next as task_next_lem, next as next_lem};
ghost use Rattle.wind_machine.specs.Machine.{state_after, settled_state, file_of, who_may, next_may, may_exhaust_memory};
ghost use Rattle.wind_machine.specs.Replies.{act_reply, reply_after, routine_reply};
ghost use Rattle.wind_machine.specs.declared.next.Next.TheVariants as nexts;
ghost use Rattle.board_bus.specs.Seen.{bus_seen};
ghost use Rattle.dev_irq.specs.State.{next as next_delivery};
ghost use Rattle.board_actors.specs.StepReply.{reply_of};
ghost use Rattle.board_actors.specs.declared.step_kind.StepKind.TheVariants as kinds;
ghost use Rattle.board_player.specs.Inside.{inside, parts_seen, IsSpacious};
ghost use Rattle.board_player.specs.Asking.{needed};
ghost use Rattle.board_player.specs.Going.{IsKnown, OnlyStepped};
ghost use Rattle.board_player.specs.Knowing.{jump_or_over as jump_or_over_lem, may_deliver as may_deliver_lem};
ghost use Rattle.board_player.specs.Replies.{reply_known};
ghost use Rattle.board_player.specs.Settling.{CanSettle, Makes};
ghost use Rattle.board_player.specs.declared.Step.TheVariants as steps;

use crate::Step;
use crate::loading::file_for;
use crate::outside::{arrive, come, deliver, jump};
use crate::parts::Parts;
use crate::routine_steps::step_routine;
use crate::settling::{is_quiet, settle};
use crate::shell_steps::run_shell;
use crate::task_steps::run;
use board_actors::{StepKind, waits_for_console};
use board_bus::BoardBus;
use id_table::Ident;
use live_loading::Reply;
use tick_file::Event;
use wind_base::NoMemory;
use wind_base::limits::SLOTS;
use wind_machine::Next;
use wind_outside::Device;

// The event, if its time has come.
fn when_due(next: (u64, Event), time: u128) -> Option<Event>
    ensures { result ≡ (if nat_le next.0 time then Some next.1 else None) }
{
    if u128::from(next.0) <= time {
        Some(next.1)
    } else {
        None
    }
}

/// Which task runs, and whether interrupts may come meanwhile.
#[derive(Clone, Copy, Debug, PartialEq, Eq)]
pub struct Running {
    pub(crate) who: Option<Ident>,
    pub(crate) is_open: bool,
}

/// What is known from the step before: who makes the next step, and how its call was answered.
#[derive(Clone, Copy, Debug, PartialEq, Eq)]
pub enum Known {
    /// Nothing.
    Nothing,
    /// The step before was a kernel call with this reply. Who makes the next step is unknown.
    Called(Reply),
    /// No interrupt routine is active, and this task runs.
    Runner(Running),
    /// An interrupt routine is active, and no task has a reservation.
    Routine,
}

impl Known {
    // What is known after a step that isn't an instruction; a call has a reply.
    fn after(reply: Option<Reply>) -> Known
        ensures reply { reply_known result ≡ reply }
        ensures known { (k : KernState) (level : Option Regs) → IsKnown k level result }
    {
        match reply {
            Some(reply) => Known::Called(reply),
            None => Known::Nothing,
        }
    }

    /// Whether it says who makes the next step, and somebody makes it.
    #[inline(always)]
    pub(crate) fn has_actor(self) -> bool
        ensures { result ≡ true → reply_known self ≡ None }
    {
        match self {
            Known::Runner(now) => now.who.is_some(),
            Known::Routine => true,
            Known::Nothing | Known::Called(_) => false,
        }
    }

    /// The reply of the step before, if it was a kernel call.
    pub(crate) fn reply(self) -> Option<Reply>
        ensures { result ≡ reply_known self }
    {
        match self {
            Known::Called(reply) => Some(reply),
            Known::Nothing | Known::Runner(_) | Known::Routine => None,
        }
    }
}

// Finds which task runs, when that isn't known. If no task is ready, nobody runs.
#[tactic(auto, using(crate::proofs::Idle::nobody_runs))]
#[inline(never)]
fn ask(parts: &Parts) -> Running
    ensures who { result.who ≡ option_map task_id (running_lem parts.now.world.kern) }
    ensures back { result.is_open ≡ not (holds_back (running_lem parts.now.world.kern)) }
{
    if parts.world.kern.ready().len() == 0 {
        return Running {
            who: None,
            is_open: true,
        };
    }
    match parts.world.kern.running() {
        Some(task) => Running {
            who: Some(task.id),
            is_open: !task.int_locked,
        },
        None => Running {
            who: None,
            is_open: true,
        },
    }
}

// Which task runs: known from the step before, or found now.
fn who_runs(parts: &Parts, known: &Known) -> Running
    requires { IsKnown parts.now.world.kern parts.now.world.watch.level known.now }
    ensures who { result.who ≡ option_map task_id (running_lem parts.now.world.kern) }
    ensures back { result.is_open ≡ not (holds_back (running_lem parts.now.world.kern)) }
{
    match known {
        Known::Runner(now) => *now,
        Known::Nothing | Known::Called(_) | Known::Routine => ask(parts),
    }
}

// Which slots hold devices.
fn occupied(bus: &BoardBus) -> [bool; SLOTS]
    requires { Unit {0} }
    ensures { result ≡ occupied_lem (bus_seen ⟦<dyn Device as Device>⟧ bus.now).slots }
{
    let mut full = [false; SLOTS];
    for slot in 0..SLOTS {
        full[slot] = bus.has_device(slot as u32);
    }
    full
}

// The least slot that holds a device and whose line is waiting, if there is one.
#[inline(never)]
fn find_delivery(parts: &Parts) -> Option<u32>
    ensures { result ≡ next_delivery (occupied_lem (parts_seen ⟦<dyn Device as Device>⟧ parts.now).world.slots)
        parts.now.world.irqs }
{
    parts.world.irqs.next(&occupied(&parts.world.bus))
}

/// Whether an interrupt of a device may be due, given whether interrupts may come. It is one test.
#[inline]
pub(crate) fn may_deliver(parts: &Parts, is_open: bool) -> bool
    requires { is_open ≡ is_open_lem (parts_seen ⟦<dyn Device as Device>⟧ parts.now) }
    ensures { result ≡ may_deliver_lem (parts_seen ⟦<dyn Device as Device>⟧ parts.now) }
{
    is_open && parts.world.irqs.is_waiting()
}

/// The slot whose interrupt is due, if one is, given whether interrupts may come.
#[inline]
pub(crate) fn due_delivery(parts: &Parts, is_open: bool) -> Option<u32>
    requires { is_open ≡ is_open_lem (parts_seen ⟦<dyn Device as Device>⟧ parts.now) }
    ensures { result ≡ due_delivery_lem (parts_seen ⟦<dyn Device as Device>⟧ parts.now) }
{
    if !may_deliver(parts, is_open) {
        return None;
    }
    find_delivery(parts)
}

/// The event that is due, if one is, given whether interrupts may come.
#[inline]
pub(crate) fn due_event(parts: &Parts, is_open: bool) -> Option<Event>
    requires { is_open ≡ is_open_lem (parts_seen ⟦<dyn Device as Device>⟧ parts.now) }
    ensures { result ≡ option_map event_of (due_event_lem (parts_seen ⟦<dyn Device as Device>⟧ parts.now)) }
{
    if !is_open {
        return None;
    }
    match parts.schedule.next() {
        Some(next) => when_due(next, parts.clock.time),
        None => None,
    }
}

/// Whether the next chunk of the console is due.
#[inline]
pub(crate) fn console_is_due(parts: &Parts, is_open: bool) -> bool
    requires { is_open ≡ is_open_lem (parts_seen ⟦<dyn Device as Device>⟧ parts.now) }
    ensures { result ≡ console_is_due_lem (parts_seen ⟦<dyn Device as Device>⟧ parts.now) }
{
    is_open
        && parts.schedule.on_demand()
        && !parts.feed.left().is_empty()
        && waits_for_console(&parts.world.kern)
        && !parts.console.has_line()
}

// Makes the step of whoever runs. If memory runs out, nothing changes.
#[inline(always)]
fn run_task(parts: &mut Parts, who: Ident) -> Result<StepKind, NoMemory>
    requires good { Good (inside parts.old) }
    requires few { parts.old.clock.steps < most_steps }
    requires space { IsSpacious parts.old }
    requires live { Lives parts.old.world.kern who }
    requires ready { IsReady parts.old.world.kern who }
    requires asks { file_for_lem (parts_seen ⟦<dyn Device as Device>⟧ parts.old) who ≡ None }
    ensures ok { OnOk result (parts_seen ⟦<dyn Device as Device>⟧ parts.new
        ≡ step_of (parts_seen ⟦<dyn Device as Device>⟧ parts.old) who) }
    ensures reply { IfOk result (λ kind. reply_of kind
        ≡ act_reply (parts_seen ⟦<dyn Device as Device>⟧ parts.old) who) }
    ensures memory { OnErr result (who_may (parts_seen ⟦<dyn Device as Device>⟧ parts.old) who ≡ true) }
    ensures err { OnErr result (parts_seen ⟦<dyn Device as Device>⟧ parts.new
        ≡ parts_seen ⟦<dyn Device as Device>⟧ parts.old) }
    ensures only { result ≡ Ok kinds.Instruction → OnlyStepped parts.old.world.kern parts.new.world.kern who }
    ensures watch { result ≡ Ok kinds.Instruction → parts.new.world.watch ≡ parts.old.world.watch }
    ensures objects { result ≡ Ok kinds.Instruction → parts.new.world.objects ≡ parts.old.world.objects }
    ensures space { IsSpacious parts.new }
{
    if who == Ident::shell() {
        run_shell(parts)
    } else {
        run(parts, who)
    }
}

// Makes a step of the active interrupt routine, and settles priorities except after an instruction
// that caused no exception. After such an instruction the routine is known to be still active.
fn act_routine(parts: &mut Parts) -> Known
    requires active { is_active_lem (parts_seen ⟦<dyn Device as Device>⟧ parts.old).world ≡ true }
    requires good { Good (inside parts.old) }
    requires few { parts.old.clock.steps < most_steps }
    requires space { IsSpacious parts.old }
    requires left { CanSettle (routine_step_lem (parts_seen ⟦<dyn Device as Device>⟧ parts.old)) }
    ensures step { parts_seen ⟦<dyn Device as Device>⟧ parts.new
        ≡ settled_state (routine_step_lem (parts_seen ⟦<dyn Device as Device>⟧ parts.old)) }
    ensures reply { reply_known result ≡ routine_reply (parts_seen ⟦<dyn Device as Device>⟧ parts.old) }
    ensures known { IsKnown parts.new.world.kern parts.new.world.watch.level result }
    ensures space { IsSpacious parts.new }
{
    match step_routine(parts) {
        StepKind::Instruction => Known::Routine,
        StepKind::Other(reply) => {
            settle(parts);
            Known::after(reply)
        }
    }
}

// A time is below 2^64.
fn is_time(time: u64)
    ensures { time < 2 ^ 64 }
{
    let _ = time;
}

/// The next event comes before 2^64.
#[tactic(auto, using(crate::proofs::Keeping::early_some, crate::proofs::Keeping::early_none))]
pub(crate) fn is_early(parts: &Parts)
    ensures { IfSome (next_event (parts_seen ⟦<dyn Device as Device>⟧ parts.now)) IsEarly }
{
    if let Some((time, _)) = parts.schedule.next() {
        is_time(time);
    }
}

/// Who makes the next step, found now if it isn't known from the step before, without the reply of
/// that step. Nothing, if an interrupt routine is active and that wasn't known.
#[inline(always)]
pub(crate) fn found(parts: &Parts, known: Known) -> Known
    requires { IsKnown parts.now.world.kern parts.now.world.watch.level known }
    ensures reply { reply_known result ≡ None }
    ensures known { IsKnown parts.now.world.kern parts.now.world.watch.level result }
{
    match known {
        Known::Runner(_) | Known::Routine => known,
        Known::Nothing | Known::Called(_) => {
            if parts.world.watch.active() {
                return Known::Nothing;
            }
            Known::Runner(ask(parts))
        }
    }
}

// Whether an interrupt routine is active: known from the step before, or found now.
fn is_active(parts: &Parts, known: &Known) -> bool
    requires { IsKnown parts.now.world.kern parts.now.world.watch.level known.now }
    ensures { result ≡ is_active_lem (parts_seen ⟦<dyn Device as Device>⟧ parts.now).world }
{
    match known {
        Known::Nothing | Known::Called(_) => parts.world.watch.active(),
        Known::Runner(_) => false,
        Known::Routine => true,
    }
}

// The step of this task: a load, if it needs a file.
fn task_next(parts: &Parts, who: Ident) -> Result<Next, NoMemory>
    ensures next { IfOk result (λ n. n ≡ task_next_lem (parts_seen ⟦<dyn Device as Device>⟧ parts.now) who) }
    ensures memory { OnErr result (IsSome (file_for_lem (parts_seen ⟦<dyn Device as Device>⟧ parts.now) who)) }
{
    match file_for(parts, who)? {
        None => Ok(Next::Act(who)),
        Some(name) => Ok(Next::Load(name)),
    }
}

// If nobody runs, time jumps to the next event, or the run is over.
#[tactic(auto, using(crate::proofs::Deciding::jump_there, crate::proofs::Deciding::no_jump))]
fn jump_or_over(parts: &Parts) -> Next
    ensures { result ≡ jump_or_over_lem (next_event (parts_seen ⟦<dyn Device as Device>⟧ parts.now)) }
{
    match parts.schedule.next() {
        Some(event) => Next::Jump(event.0),
        None => Next::Over,
    }
}

/// What comes next. It also finds who runs, unless an interrupt routine is active.
#[tactic(auto, using(crate::proofs::Running::opens, crate::proofs::Deciding::routine_next, crate::proofs::Deciding::console_next, crate::proofs::Deciding::runner_next, crate::proofs::Deciding::nobody_next))]
#[inline(always)]
pub(crate) fn next(parts: &Parts, known: &mut Known) -> Result<Next, NoMemory>
    requires { IsKnown parts.now.world.kern parts.now.world.watch.level known.old }
    ensures next { IfOk result (λ n. n ≡ next_lem (parts_seen ⟦<dyn Device as Device>⟧ parts.now)) }
    ensures memory { OnErr result (may_exhaust_memory (parts_seen ⟦<dyn Device as Device>⟧ parts.now) ≡ true) }
    ensures known { IsKnown parts.now.world.kern parts.now.world.watch.level known.new }
    ensures unreplied { result ≢ Ok nexts.Routine → reply_known known.new ≡ None }
{
    if is_active(parts, known) {
        return Ok(Next::Routine);
    }
    let now = who_runs(parts, known);
    let is_open = now.is_open;
    let who = now.who;
    *known = Known::Runner(now);
    if let Some(slot) = due_delivery(parts, is_open) {
        return Ok(Next::Deliver(slot));
    }
    if let Some(event) = due_event(parts, is_open) {
        return Ok(Next::Come(event));
    }
    if console_is_due(parts, is_open) {
        return Ok(Next::Arrive);
    }
    match who {
        Some(who) => task_next(parts, who),
        None => Ok(jump_or_over(parts)),
    }
}

// Makes a step of the running task that needs no file, and settles priorities except after an
// instruction that caused no exception. After such an instruction, who runs stays known.
#[inline(always)]
fn act(parts: &mut Parts, known: &mut Known, who: Ident) -> Step
    requires good { Good (inside parts.old) }
    requires few { parts.old.clock.steps < most_steps }
    requires space { IsSpacious parts.old }
    requires next { nexts.Act who ≡ next_lem (parts_seen ⟦<dyn Device as Device>⟧ parts.old) }
    requires left { CanSettle (step_of (parts_seen ⟦<dyn Device as Device>⟧ parts.old) who) }
    requires known { IsKnown parts.old.world.kern parts.old.world.watch.level known.old }
    requires unreplied { reply_known known.old ≡ None }
    ensures stepped { result ≡ steps.Stepped → parts_seen ⟦<dyn Device as Device>⟧ parts.new
        ≡ settled_state (step_of (parts_seen ⟦<dyn Device as Device>⟧ parts.old) who) }
    ensures reply { result ≡ steps.Stepped → reply_known known.new
        ≡ act_reply (parts_seen ⟦<dyn Device as Device>⟧ parts.old) who }
    ensures no_reply { result ≢ steps.Stepped → reply_known known.new ≡ None }
    ensures either { result ≢ steps.Quiet }
    ensures file { needed result ≡ None }
    ensures no_memory { result ≡ steps.NoMemory → who_may (parts_seen ⟦<dyn Device as Device>⟧ parts.old) who ≡ true }
    ensures unchanged { result ≢ steps.Stepped → parts_seen ⟦<dyn Device as Device>⟧ parts.new
        ≡ parts_seen ⟦<dyn Device as Device>⟧ parts.old }
    ensures space { IsSpacious parts.new }
    ensures known { IsKnown parts.new.world.kern parts.new.world.watch.level known.new }
{
    match run_task(parts, who) {
        Ok(StepKind::Instruction) => Step::Stepped,
        Ok(StepKind::Other(reply)) => {
            *known = Known::after(reply);
            settle(parts);
            Step::Stepped
        }
        Err(NoMemory) => {
            *known = Known::Nothing;
            Step::NoMemory
        }
    }
}

// The due event occurs, and priorities are settled unless it wakes nobody.
#[inline(never)]
fn occur(parts: &mut Parts, event: Event)
    requires idle { is_active_lem (parts_seen ⟦<dyn Device as Device>⟧ parts.old).world ≡ false }
    requires good { Good (inside parts.old) }
    requires few { parts.old.clock.steps < most_steps }
    requires space { IsSpacious parts.old }
    requires left { CanSettle (event_step (parts_seen ⟦<dyn Device as Device>⟧ parts.old) event) }
    ensures step { parts_seen ⟦<dyn Device as Device>⟧ parts.new
        ≡ settled_state (event_step (parts_seen ⟦<dyn Device as Device>⟧ parts.old) event) }
    ensures space { IsSpacious parts.new }
{
    let is_quiet = is_quiet(&parts.world.kern, event);
    come(parts, event);
    if is_quiet {
        return;
    }
    settle(parts);
}

/// Makes the step that comes next, unless it is a load or the run is over. Unless the step is made,
/// nothing changes. Notes what is known of who makes the step after it, and the reply of a call.
#[inline(always)]
pub(crate) fn make(parts: &mut Parts, known: &mut Known, next: Next) -> Step
    requires good { Good (inside parts.old) }
    requires few { parts.old.clock.steps < most_steps }
    requires space { IsSpacious parts.old }
    requires next { next ≡ next_lem (parts_seen ⟦<dyn Device as Device>⟧ parts.old) }
    requires left { (said : FileSaid)
        → IfSome (state_after said (parts_seen ⟦<dyn Device as Device>⟧ parts.old) next) CanSettle }
    requires known { IsKnown parts.old.world.kern parts.old.world.watch.level known.old }
    requires unreplied { next ≢ nexts.Routine → reply_known known.old ≡ None }
    ensures stepped { result ≡ steps.Stepped → Makes (parts_seen ⟦<dyn Device as Device>⟧ parts.old) next
        (parts_seen ⟦<dyn Device as Device>⟧ parts.new) }
    ensures reply { result ≡ steps.Stepped → (said : FileSaid) → reply_known known.new
        ≡ reply_after said (parts_seen ⟦<dyn Device as Device>⟧ parts.old) next }
    ensures no_reply { result ≢ steps.Stepped → reply_known known.new ≡ None }
    ensures quiet { (result ≡ steps.Quiet) ↔ (next ≡ nexts.Over) }
    ensures file { needed result ≡ file_of next }
    ensures no_memory { result ≡ steps.NoMemory
        → next_may (parts_seen ⟦<dyn Device as Device>⟧ parts.old) next ≡ true }
    ensures unchanged { result ≢ steps.Stepped → parts_seen ⟦<dyn Device as Device>⟧ parts.new
        ≡ parts_seen ⟦<dyn Device as Device>⟧ parts.old }
    ensures space { IsSpacious parts.new }
    ensures known { IsKnown parts.new.world.kern parts.new.world.watch.level known.new }
{
    match next {
        Next::Deliver(slot) => {
            *known = Known::Nothing;
            deliver(parts, slot);
            Step::Stepped
        }
        Next::Come(event) => {
            *known = Known::Nothing;
            occur(parts, event);
            Step::Stepped
        }
        Next::Arrive => {
            *known = Known::Nothing;
            arrive(parts);
            settle(parts);
            Step::Stepped
        }
        Next::Routine => {
            *known = act_routine(parts);
            Step::Stepped
        }
        Next::Act(who) => act(parts, known, who),
        Next::Load(name) => Step::NeedsFile(name),
        Next::Jump(time) => {
            jump(parts, time);
            Step::Stepped
        }
        Next::Over => Step::Quiet,
    }
}
