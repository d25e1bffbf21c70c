//! Stops, and what the server supports.

ghost use Rattle.std.specs.Prelude.{◌≡◌, ◌++◌, OnOk};
ghost use Rattle.debug_texts.specs.Replies.{cause_text, done, refused, signal_number as signal_number_lem, stop_signal as stop_signal_lem, stop_text, supported};

use debug_wire::{add, add_number, add_places};
use wind_base::NoMemory;

/// The signal that gdb shows for an exception.
#[derive(Clone, Copy, Debug, PartialEq, Eq)]
pub enum Signal {
    /// SIGILL: an illegal instruction.
    Illegal,
    /// SIGTRAP: a trap instruction.
    Trap,
    /// SIGBUS: an address that isn't aligned.
    Bus,
    /// SIGSEGV: an address outside the memory.
    Segment,
    /// SIGSYS: a system call.
    System,
}

/// Why the session stopped.
#[derive(Clone, Copy, Debug, PartialEq, Eq)]
pub enum Cause {
    /// Other modules are loaded than gdb was told of.
    Library,
    /// The step was an exception.
    Exception(Signal),
    /// The step changed the watched bytes at this address.
    Watch(u64),
    /// The thread made its step, or is at a break point.
    Step,
    /// The step is the one that the user named.
    Goal,
    /// There is no further step.
    End,
    /// There is no earlier step.
    Beginning,
}

/// A stop.
#[derive(Clone, Copy, Debug, PartialEq, Eq)]
pub struct Stop {
    /// Why the session stopped.
    pub cause: Cause,
    /// The id of the thread that stopped.
    pub thread: u64,
}

/// Adds the reply to what can't be done: to a malformed packet, to a write, and to a request for a
/// thread, memory or a range that isn't there.
pub fn add_refused(text: &mut Vec<u8>) -> Result<(), NoMemory>
    ensures { OnOk result (text.new.items ≡ text.old.items ++ refused) }
{
    add(text, b"E01")
}

/// Adds the reply to what was done.
pub fn add_done(text: &mut Vec<u8>) -> Result<(), NoMemory>
    ensures { OnOk result (text.new.items ≡ text.old.items ++ done) }
{
    add(text, b"OK")
}

/// Adds what the server supports: the reply to `qSupported`.
#[tactic(auto, unfolding(crate::specs::Replies::supported))]
pub fn add_supported(text: &mut Vec<u8>) -> Result<(), NoMemory>
    ensures { OnOk result (text.new.items ≡ text.old.items ++ supported) }
{
    add(text, b"PacketSize=8000;ReverseStep+;ReverseContinue+;")?;
    add(
        text,
        b"qXfer:features:read+;qXfer:threads:read+;qXfer:libraries:read+;",
    )?;
    add(text, b"qXfer:memory-map:read+;qXfer:exec-file:read+")
}

fn signal_number(signal: Signal) -> u64
    ensures { result ≡ signal_number_lem signal }
{
    match signal {
        Signal::Illegal => 4,
        Signal::Trap => 5,
        Signal::Bus => 10,
        Signal::Segment => 11,
        Signal::System => 12,
    }
}

fn stop_signal(cause: Cause) -> u64
    ensures { result ≡ stop_signal_lem cause }
{
    match cause {
        Cause::Exception(signal) => signal_number(signal),
        Cause::Goal => 0,
        _ => 5,
    }
}

// Adds what a stop says of its cause.
fn add_cause(text: &mut Vec<u8>, cause: Cause) -> Result<(), NoMemory>
    ensures { OnOk result (text.new.items ≡ text.old.items ++ cause_text cause) }
{
    match cause {
        Cause::Library => add(text, b"library:;"),
        Cause::Watch(address) => {
            add(text, b"watch:")?;
            add_number(text, address)?;
            add(text, b";")
        }
        Cause::End => add(text, b"replaylog:end;"),
        Cause::Beginning => add(text, b"replaylog:begin;"),
        _ => Ok(()),
    }
}

/// Adds the reply that tells a stop.
pub fn add_stop(text: &mut Vec<u8>, stop: Stop) -> Result<(), NoMemory>
    ensures { OnOk result (text.new.items ≡ text.old.items ++ stop_text stop) }
{
    add(text, b"T")?;
    add_places(text, 2, stop_signal(stop.cause))?;
    add_cause(text, stop.cause)?;
    add(text, b"thread:")?;
    add_number(text, stop.thread)?;
    add(text, b";")
}
