//! What comes next.

use id_table::Ident;
use tick_file::Event;
use wind_base::Name;

/// What the next step is. The variants are in the order in which the specification's `next` looks
/// for them.
#[derive(Drop)]
pub enum Next {
    /// An interrupt of the device in this slot is delivered.
    Deliver(u32),
    /// This event of the tick file occurs.
    Come(Event),
    /// The next chunk of the console arrives.
    Arrive,
    /// The active interrupt routine makes a step.
    Routine,
    /// The task with this id makes a step.
    Act(Ident),
    /// The shell's task loads the file with this name.
    Load(Name),
    /// Board time becomes this: the time of the next event.
    Jump(u64),
    /// There is no further step.
    Over,
}
