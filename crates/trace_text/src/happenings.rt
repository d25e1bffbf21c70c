//! The texts of happenings.

ghost use Rattle.std.specs.Prelude.{◌≡◌, ◌≤◌, ◌+◌, ◌++◌, OnOk, codes, length};
ghost use Rattle.wind_base.specs.OutBuf.{KeepsSpace};
ghost use Rattle.trace_text.specs.Happenings.{called_text, cause_text, exception_text, handed_text, happening_text, instructions_text, instructions_word as instructions_word_lem, quoted, routine_text, runs_text};
ghost use Rattle.trace_text.specs.Pieces.{word_hex};

use crate::changes::add_change;
use crate::pieces::{add, add_decimal, add_escaped, add_hex, add_signed, add_with};
use board_trace::{Cause, Happening};
use call_text::{add_call, add_reply};
use id_table::Ident;
use kernel_world::{Call, Reply};
use wind_base::{NoMemory, OutBuf};

// Adds a call with its words and its reply, by way of a buffer with room for them.
fn add_called(
    text: &mut Vec<u8>,
    scratch: &mut OutBuf,
    call: &Call,
    reply: &Reply,
) -> Result<(), NoMemory>
    requires { 320 ≤ scratch.old.room + length scratch.old.bytes }
    ensures text { OnOk result (text.new.items ≡ text.old.items ++ called_text call.now reply.now) }
    ensures room { KeepsSpace scratch.old scratch.new }
{
    scratch.clear();
    add_call(scratch, call);
    add_reply(scratch, call.gate(), reply);
    add(text, scratch.bytes())
}

// Adds bytes in quotes.
fn add_quoted(text: &mut Vec<u8>, words: &[u8], bytes: &[u8]) -> Result<(), NoMemory>
    ensures { OnOk result (text.new.items ≡ text.old.items ++ (words.now ++ quoted bytes.now)) }
{
    add(text, words)?;
    add(text, b"\"")?;
    add_escaped(text, bytes)?;
    add(text, b"\"")
}

// Adds that a task runs, in place of another if one ran before.
fn add_runs(text: &mut Vec<u8>, last: Option<Ident>) -> Result<(), NoMemory>
    ensures { OnOk result (text.new.items ≡ text.old.items ++ runs_text last) }
{
    match last {
        Some(last) => add_with(text, b"runs in place of ", u64::from(last.get())),
        None => add(text, b"runs"),
    }
}

// Adds that a message is handed over.
fn add_handed(text: &mut Vec<u8>, queue: u32, receiver: Ident) -> Result<(), NoMemory>
    ensures { OnOk result (text.new.items ≡ text.old.items ++ handed_text queue receiver) }
{
    add_with(text, b"hands a message of queue ", u64::from(queue))?;
    add_with(text, b" to task ", u64::from(receiver.get()))
}

// Adds that a routine begins.
fn add_routine(text: &mut Vec<u8>, entry: u32, param: u32) -> Result<(), NoMemory>
    ensures { OnOk result (text.new.items ≡ text.old.items ++ routine_text entry param) }
{
    add(text, b"routine ")?;
    add_hex(text, entry)?;
    add(text, b" begins with ")?;
    add_signed(text, param)
}

// Adds which exception is caused.
fn add_cause(text: &mut Vec<u8>, cause: Cause) -> Result<(), NoMemory>
    ensures { OnOk result (text.new.items ≡ text.old.items ++ cause_text cause) }
{
    match cause {
        Cause::Access(target) => {
            add(text, b": access to ")?;
            add_hex(text, target)
        }
        Cause::Alignment(target) => {
            add(text, b": alignment of ")?;
            add_hex(text, target)
        }
        Cause::Illegal(word) => {
            add(text, b": illegal word ")?;
            add_hex(text, word)
        }
        Cause::Trap => add(text, b": trap"),
        Cause::SystemCall => add(text, b": system call"),
    }
}

// Adds that an exception is caused.
fn add_exception(text: &mut Vec<u8>, at: u32, cause: Cause) -> Result<(), NoMemory>
    ensures { OnOk result (text.new.items ≡ text.old.items ++ exception_text at cause) }
{
    add(text, b"exception at ")?;
    add_hex(text, at)?;
    add_cause(text, cause)
}

// The word for a number of instructions, after a blank.
fn instructions_word(count: u64) -> &'static [u8]
    ensures { result.now ≡ instructions_word_lem count }
{
    if count == 1 {
        return b" instruction";
    }
    b" instructions"
}

// Adds the number of instructions.
fn add_instructions(text: &mut Vec<u8>, count: u64) -> Result<(), NoMemory>
    ensures { OnOk result (text.new.items ≡ text.old.items ++ instructions_text count) }
{
    add_decimal(text, count)?;
    add(text, instructions_word(count))
}

/// Adds the text of a happening. `scratch` is a buffer with room for the text of a call.
pub(crate) fn add_happening(
    text: &mut Vec<u8>,
    scratch: &mut OutBuf,
    happening: &Happening,
) -> Result<(), NoMemory>
    requires { 320 ≤ scratch.old.room + length scratch.old.bytes }
    ensures text { OnOk result (text.new.items ≡ text.old.items ++ happening_text happening.now) }
    ensures room { KeepsSpace scratch.old scratch.new }
{
    match happening {
        Happening::Tick { tick } => add_with(text, b"tick ", *tick),
        Happening::Arrival { count } => add_with(text, b"bytes arrive: ", *count),
        Happening::Interrupt { slot } => add_with(text, b"interrupt of slot ", u64::from(*slot)),
        Happening::Delivery { slot } => {
            add_with(text, b"delivery of an interrupt of slot ", u64::from(*slot))
        }
        Happening::Jump { time } => add_with(text, b"nobody is ready until ", *time),
        Happening::File(name) => add_quoted(text, b"asks for the file ", name.bytes()),
        Happening::Runs { last, .. } => add_runs(text, *last),
        Happening::Called { call, reply, .. } => add_called(text, scratch, call, reply),
        Happening::Exception { at, cause, .. } => add_exception(text, *at, *cause),
        Happening::Abort => add(text, b"aborts its line"),
        Happening::Owned { mutex, .. } => add_with(text, b"owns mutex ", u64::from(*mutex)),
        Happening::Freed { mutex, .. } => {
            add_with(text, b"no longer owns mutex ", u64::from(*mutex))
        }
        Happening::Queued { queue, .. } => {
            add_with(text, b"adds a message to queue ", u64::from(*queue))
        }
        Happening::HandedOver {
            queue,
            receiver,
            ..
        } => add_handed(text, *queue, *receiver),
        Happening::Taken { queue, .. } => {
            add_with(text, b"takes a message from queue ", u64::from(*queue))
        }
        Happening::Changed(change) => add_change(text, change),
        Happening::RoutineEnds => add(text, b"routine ends"),
        Happening::RoutineBegins { entry, param } => add_routine(text, *entry, *param),
        Happening::Writes { bytes, .. } => add_quoted(text, b"writes ", bytes.bytes()),
        Happening::Instructions { count, .. } => add_instructions(text, *count),
    }
}
