//! What the lines of a tick file ask for.

ghost use Rattle.std.specs.Prelude.{◌≡◌};
ghost use Rattle.tick_file.specs.Schedule.{brings_bytes as brings_bytes_lem};

/// What occurs at one time.
#[derive(Clone, Copy, Debug, PartialEq, Eq)]
pub enum Event {
    /// A tick interrupt.
    Tick,
    /// This many further bytes arrive at the console.
    Rx(u32),
    /// The device of this slot, 0 to 15, interrupts.
    Irq(u32),
}

/// The rule of one line. Times and periods are in units of board time.
#[derive(Clone, Copy)]
pub enum Rule {
    /// One event, at this time.
    At(u64, Event),
    /// Events one period apart, the first after one period: the period, the number of events, and
    /// the event.
    Every(u64, u64, Event),
}

/// What a line says.
#[derive(Clone, Copy)]
pub enum Said {
    /// The line is blank or a comment.
    Nothing,
    /// The line has this rule.
    Says(Rule),
    /// The line is invalid.
    Outside,
}

/// Whether an event brings console bytes.
pub(crate) fn brings_bytes(event: Event) -> bool
    ensures { result ≡ brings_bytes_lem event }
{
    match event {
        Event::Rx(_) => true,
        Event::Tick | Event::Irq(_) => false,
    }
}
