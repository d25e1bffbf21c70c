//! Plays a session, and tells what happened.

ghost use Rattle.std.specs.Prelude.{◌≡◌, ◌≢◌, ◌≤◌, ◌↔◌, None, Some, codes, length, map};
ghost use Rattle.wind_base.specs.Limits.{most_slots, most_steps};
ghost use Rattle.wind_outside.specs.{Counts.Rose, Devices.slots_of};
ghost use Rattle.wind_session.specs.{Command.HasFewRounds, Keeping.{KeepsFiles, around, messages}, BoardPlayerSeen.seen, Headline.{IsComplete, IsKept}, Outside.outside, Texts.Tells};
ghost use Rattle.wind_session.specs.declared.ending.Stand.TheVariants as stands;
ghost use Rattle.wind_session.specs.declared.ending.Status.TheVariants as status;
ghost use Rattle.trace_session.specs.declared.traced.Product.TheVariants as products;
ghost use Rattle.trace_session.specs.{Choice.choice_state, Command.{command_of, session_of}, Headline.{IsLeft, Traces}, Words.{trace_state as trace_state_lem}};

use crate::command::{PROGRAM, TraceCommand, trace_command_of};
use crate::ending::TraceEnding;
use crate::trace_board;
use crate::traced::Product;
use std::alloc::Global;
use wind_base::NoMemory;
use wind_outside::{Device, Folder, Sink, Slots};
use wind_session::{
    Board, CommandErr, Inputs, Stand, Status, inputs_of, instant_law, tell, tell_no_memory,
    tell_usage,
};

// The ending of a session without a board.
fn refusal(status: Status, devices: Slots) -> TraceEnding
    ensures { result ≡ record { status = status; stand = stands.NotBooted devices; product = products.Text } }
{
    TraceEnding {
        status,
        stand: Stand::NotBooted(devices),
        product: Product::Text,
    }
}

// What is left of a run: its status, and what its form leaves.
#[derive(Drop)]
struct Outcome {
    status: Status,
    product: Product,
}

// Plays the board of a session.
fn play_board<F: Folder, O: Sink>(
    alloc: Global,
    command: &TraceCommand,
    board: &mut Board,
    folder: &mut F,
    out: &mut O,
) -> Outcome
    requires fresh { (seen ⟦<dyn Device as Device>⟧ board.old).steps ≡ 0 }
    requires limit { command.now.session.limit ≤ most_steps }
    ensures left { IsLeft command.now.form (choice_state command.now.choice) result.product result.status
        (record { files = F.files folder.old; name = command.now.session.modules.now })
        (seen ⟦<dyn Device as Device>⟧ board.old) command.now.session.limit (seen ⟦<dyn Device as Device>⟧ board.new)
        (outside (F.requests folder.old) (O.bytes out.old) (O.pieces out.old))
        (outside (F.requests folder.new) (O.bytes out.new) (O.pieces out.new)) }
    ensures read_fault { result.status ≡ status.ReadFault → Rose (F.faults folder.old) (F.faults folder.new) }
    ensures fault { result.status ≡ status.WriteFault → Rose (O.faults out.old) (O.faults out.new) }
    ensures keeps { KeepsFiles ⟦<F as Folder>⟧ ⟦<O as Sink>⟧ folder.old out.old folder.new out.new }
{
    let (form, modules, limit) = (command.form, command.session.modules, command.session.limit);
    match trace_board(
        alloc,
        form,
        &command.choice,
        board,
        folder,
        modules,
        out,
        limit,
    ) {
        Ok(tracing) => Outcome {
            status: Status::from(tracing.end),
            product: tracing.product,
        },
        Err(NoMemory) => Outcome {
            status: Status::NoMemory,
            product: Product::Text,
        },
    }
}

// Plays the session of a command.
fn session<F: Folder, O: Sink>(
    alloc: Global,
    command: &TraceCommand,
    folder: &mut F,
    out: &mut O,
    devices: Slots,
) -> TraceEnding
    requires devices { length devices.items ≤ most_slots }
    requires limit { command.now.session.limit ≤ most_steps }
    requires rounds { HasFewRounds command.now.session.source }
    ensures machine { Traces (seen ⟦<dyn Device as Device>⟧) result.status result.stand result.product
        (Some (trace_state_lem command.now)) devices (slots_of kind_of words_of devices.items)
        (around ⟦<F as Folder>⟧ ⟦<O as Sink>⟧ folder.old out.old)
        (around ⟦<F as Folder>⟧ ⟦<O as Sink>⟧ folder.new out.new) }
    ensures complete { IsComplete result.status (session_of (Some (trace_state_lem command.now)))
        (around ⟦<F as Folder>⟧ ⟦<O as Sink>⟧ folder.old out.old)
        (around ⟦<F as Folder>⟧ ⟦<O as Sink>⟧ folder.new out.new) }
    ensures known { result.status ≢ status.Usage }
    ensures kept { IsKept (seen ⟦<dyn Device as Device>⟧) result.stand }
    ensures read_fault { result.status ≡ status.ReadFault → Rose (F.faults folder.old) (F.faults folder.new) }
    ensures write_fault { result.status ≡ status.WriteFault → Rose (O.faults out.old) (O.faults out.new) }
    ensures keeps { KeepsFiles ⟦<F as Folder>⟧ ⟦<O as Sink>⟧ folder.old out.old folder.new out.new }
{
    let inputs = match inputs_of(alloc, &command.session, folder) {
        Ok(inputs) => inputs,
        Err(status) => return refusal(status, devices),
    };
    let Inputs { console, schedule } = inputs;
    let (profile, kind) = (command.session.profile, command.session.board);
    let mut board = match Board::boot(alloc, devices, console, schedule, profile, kind) {
        Ok(board) => board,
        Err(devices) => return refusal(Status::NoMemory, devices),
    };
    let outcome = play_board(alloc, command, &mut board, folder, out);
    board.facts();
    instant_law();
    TraceEnding {
        status: outcome.status,
        stand: Stand::Booted(board),
        product: outcome.product,
    }
}

/// Plays the session that the arguments ask for, as `wind_session::play` does. In place of the
/// console's bytes, what happened goes to `out`, in the form that the arguments choose. The message
/// for the status goes to `err`. If memory runs out for the trace, the status is `NoMemory`.
pub fn trace<'a, F: Folder, O: Sink, E: Sink>(
    alloc: Global,
    words: &'a [&'a str],
    folder: &mut F,
    out: &mut O,
    err: &mut E,
    devices: Slots,
) -> TraceEnding
    requires { length devices.items ≤ most_slots }
    ensures machine { Traces (seen ⟦<dyn Device as Device>⟧) result.status result.stand result.product
        (command_of (map (λ w. w.now) words.now)) devices (slots_of kind_of words_of devices.items)
        (around ⟦<F as Folder>⟧ ⟦<O as Sink>⟧ folder.old out.old)
        (around ⟦<F as Folder>⟧ ⟦<O as Sink>⟧ folder.new out.new) }
    ensures usage { result.status ≢ status.NoMemory →
        ((result.status ≡ status.Usage) ↔ (command_of (map (λ w. w.now) words.now) ≡ None)) }
    ensures complete { IsComplete result.status (session_of (command_of (map (λ w. w.now) words.now)))
        (around ⟦<F as Folder>⟧ ⟦<O as Sink>⟧ folder.old out.old)
        (around ⟦<F as Folder>⟧ ⟦<O as Sink>⟧ folder.new out.new) }
    ensures kept { IsKept (seen ⟦<dyn Device as Device>⟧) result.stand }
    ensures read_fault { result.status ≡ status.ReadFault → Rose (F.faults folder.old) (F.faults folder.new) }
    ensures write_fault { result.status ≡ status.WriteFault → Rose (O.faults out.old) (O.faults out.new) }
    ensures keeps { KeepsFiles ⟦<F as Folder>⟧ ⟦<O as Sink>⟧ folder.old out.old folder.new out.new }
    ensures err_faults { E.faults err.old ≤ E.faults err.new }
    ensures err { Tells (codes "windtrace") result.status (session_of (command_of (map (λ w. w.now) words.now)))
        (messages ⟦<E as Sink>⟧ err.old) (messages ⟦<E as Sink>⟧ err.new) }
{
    let command = match trace_command_of(alloc, words) {
        Ok(command) => command,
        Err(CommandErr::Usage(text)) => {
            tell_usage(err, &text);
            return refusal(Status::Usage, devices);
        }
        Err(CommandErr::NoMemory) => {
            tell_no_memory(PROGRAM, err);
            return refusal(Status::NoMemory, devices);
        }
    };
    let ending = session(alloc, &command, folder, out, devices);
    tell(PROGRAM, err, &command.session, ending.status);
    ending
}
