//! What each gate's call permits: who may make it, and whether it may run out of memory.

ghost use Rattle.std.specs.Prelude.{◌≡◌};
ghost use Rattle.kernel_world.specs.Allowed.{is_call as is_call_lem, is_isr_callable as is_isr_callable_lem, is_shells_own as is_shells_own_lem, refusal_word as refusal_word_lem, may_exhaust_memory as may_exhaust_memory_lem};

use wind_base::{Callers, Gate};

/// Whether the gate is that of a call: every gate is one, except the three return gates.
pub fn is_call(gate: Gate) -> bool
    ensures { result ≡ is_call_lem gate }
{
    !matches!(
        gate,
        Gate::TaskReturn | Gate::ShellReturn | Gate::InterruptReturn
    )
}

/// Whether an interrupt routine may make the gate's call.
pub fn is_isr_callable(gate: Gate) -> bool
    ensures { result ≡ is_isr_callable_lem gate }
{
    matches!(gate.rules().callers, Callers::All)
}

/// Whether only the shell's task may make the gate's call.
pub fn is_shells_own(gate: Gate) -> bool
    ensures { result ≡ is_shells_own_lem gate }
{
    matches!(gate.rules().callers, Callers::Shell)
}

// The word that the gate's call answers when it is refused.
pub(crate) fn refusal_word(gate: Gate) -> u32
    ensures { result ≡ refusal_word_lem gate }
{
    gate.rules().refusal
}

/// Whether host memory may run out in the gate's call.
pub fn may_exhaust_memory(gate: Gate) -> bool
    ensures { result ≡ may_exhaust_memory_lem gate }
{
    gate.rules().memory
}
