//! What follows from the machine's definitions alone, whatever the code does.

ghost use Rattle.wind_machine.specs.Laws.{OrderLaw, OverLaw, StartLaw, StepLaw, EffectLaw, SettleLaw, IdleLaw, ChoiceLaw, CountLaw, InstantLaw, SafetyLaw, RunLaw};
ghost use Rattle.wind_machine.specs.Interrupts.{SlotLaw, RemovalLaw, LinesOpenLaw, LinesLaw, InterruptLaw};
ghost use Rattle.wind_machine.specs.Silent.{SilentLaw};

use live_loading::loading_law;
use tick_file::early_law;

/// The law of order: in every state exactly one value comes next. There is no further step,
/// whatever the folder answers about a file, exactly if that value is `Over`.
pub fn order_law()
    ensures one { OrderLaw }
    ensures over { OverLaw }
{}

/// The law of the invariant: it holds in the opening state, and every step of the wind machine
/// keeps it if the next event of the tick file comes before 2^64. All events that a tick file can
/// ask for do. No step changes the rule of inheritance or the kind of board. Every step is counted.
#[tactic(auto, unfolding(crate::specs::Machine::opening))]
pub fn step_law()
    ensures start { StartLaw }
    ensures step { StepLaw }
    ensures effect { EffectLaw }
    ensures choice { ChoiceLaw }
    ensures count { CountLaw }
{
    loading_law();
}

/// The law of settling. After a step's effect, settling priorities gives the invariant. It changes
/// nothing under profile 1, nor if priorities are exact already.
pub fn settle_law()
    ensures settle { SettleLaw }
    ensures idle { IdleLaw }
{}

/// The law of each instant: in every state with the invariant, these hold. If no interrupt routine
/// is active, the running task lives and is ready. No ready task comes before it, unless it ran
/// last and holds the scheduler's lock. Each live owner of an inversion-safe mutex is at least as
/// urgent as whoever waits for it, directly or through further owners. A task that owns no such
/// mutex has its normal priority. Under profile 2 each task has exactly the most urgent normal
/// priority among itself and the tasks that wait for it. Raising owners again would change nothing.
pub fn instant_law()
    ensures { InstantLaw }
{}

/// The law of safe sections: a task that lives before a step and not after it was not safe from
/// deletion, or it made the step itself.
pub fn safety_law()
    ensures { SafetyLaw }
{
    loading_law();
}

/// The law of runs: for every console file, tick file and list of devices, under both rules of
/// inheritance and on both boards, the state after any number of steps has the invariant and what
/// holds at each instant. In the step that follows, no safe task ends, unless the step is its own.
pub fn run_law()
    ensures { RunLaw }
{
    step_law();
    instant_law();
    safety_law();
    early_law();
}

/// The law of silent steps. Steps that need no file and write nothing belong to every run that
/// reaches their first state, whatever the folder answers about files.
pub fn silent_law()
    ensures { SilentLaw }
{}

/// The law of slots, of one step. The count of pending interrupts of a slot changes exactly by what
/// is raised and what is delivered, and becomes 0 if the slot's device is removed. An empty slot
/// stays empty. Only a task's call of devRemove removes a device: that of the slot in r3. It
/// changes nothing else but the task's answer, except what every step of a task does. The
/// controller is valid at first, and every step keeps it valid.
pub fn slot_law()
    ensures step { SlotLaw }
    ensures removal { RemovalLaw }
    ensures open { LinesOpenLaw }
    ensures lines { LinesLaw }
{}

/// The law of interrupts, of every run. An interrupt is delivered at most once for each time that
/// it was raised. If the device isn't removed, each is delivered or pending. From the removal of a
/// device on, no interrupt of its slot is delivered, and an access to its addresses faults.
pub fn interrupt_law()
    ensures { InterruptLaw }
{}
