//! What is read of a state before and after a step.

ghost use Rattle.std.specs.Prelude.{◌≡◌};
ghost use Rattle.board_trace.specs.Mutexes.{mutex_of as mutex_of_lem};

use kernel_world::{Actor, Call, Reply};
use wind_base::Gate;
use wind_machine::{Next, Phase};

/// What is read of a state before the next step.
#[derive(Drop)]
pub struct BeforeStep {
    /// What comes next.
    pub next: Next,
    /// Who makes the step, if a task or a routine does.
    pub actor: Option<Actor>,
    /// The address at which it is, while it makes instructions and calls.
    pub at: Option<u32>,
    /// The gate there.
    pub gate: Option<Gate>,
    /// The call at the gate.
    pub call: Option<Call>,
    /// The word at the address, if no gate is there and it can be fetched.
    pub word: Option<u32>,
    /// The data address of that word, if it is a load or store.
    pub target: Option<u32>,
    /// The owner of the mutex that the call names, if there is such a mutex and it has one.
    pub owner: Option<u32>,
    /// Board time.
    pub time: u128,
    /// The number of the step, counted from 1.
    pub step: u64,
    /// The shell's phase.
    pub phase: Phase,
    /// How many bytes of the console file haven't arrived yet.
    pub left: u64,
    /// Whether bytes arrive in the step and one of them is the interrupt key's.
    pub interrupt_key: bool,
}

/// The active interrupt routine.
#[derive(Clone, Copy, Debug, PartialEq, Eq)]
pub struct Level {
    /// Its program counter.
    pub pc: u32,
    /// Its r3, which holds its parameter when it begins.
    pub param: u32,
}

/// What is read of a state after the step, besides its snapshot.
#[derive(Clone, Copy, Debug, PartialEq, Eq)]
pub struct AfterStep {
    /// The number of ticks.
    pub tick: u64,
    /// How many bytes of the console file haven't arrived yet.
    pub left: u64,
    /// The shell's phase.
    pub phase: Phase,
    /// The active interrupt routine, if one is active.
    pub level: Option<Level>,
    /// The reply to the step's call, if it made one.
    pub reply: Option<Reply>,
    /// The owner of the mutex that the step's call names, if there is such a mutex and it has one.
    pub owner: Option<u32>,
}

/// The mutex that a call may give an owner, or take it from.
pub fn mutex_of(call: &Call) -> Option<u32>
    ensures { result ≡ mutex_of_lem call.now }
{
    match *call {
        Call::SemTake { id, .. } | Call::SemGive { id } | Call::SemDelete { id } => Some(id),
        _ => None,
    }
}
