//! Plays a session.

ghost use Rattle.std.specs.Prelude.{◌≡◌, ◌≢◌, ℕ, ◌<◌, ◌≤◌, ◌↔◌, List, [], ◌∷◌, Some, None, IfOk, IfErr, map, length, codes};
ghost use Rattle.wind_base.specs.Limits.{most_slots, most_steps};
ghost use Rattle.wind_outside.specs.{Counts.Rose, Devices.slots_of, Requests.GrowsBy};
ghost use Rattle.board_player.specs.Seen.{seen};
ghost use Rattle.generated_session.specs.{Puts.sink_log, Session.{most_rounds, summary_texts}};
ghost use Rattle.wind_outside.specs.declared.folder.FetchOutcome.{FetchOutcome};
ghost use Rattle.wind_outside.specs.declared.folder.FetchOutcome.TheVariants as outcomes;
ghost use Rattle.wind_session.specs.{Keeping.{KeepsFiles, KeepsFolder, around, messages}, Command.{HasFewRounds, command_of as command_of_lem}, Fetches.{LeadsTo, IsAfterFiles, EndsWithFiles, EndsWithSource, FailsLast, file_requests, source_requests, text_request}, Outside.outside, Words.command_state, Plan.{Start, IsFilePlan, IsPlanOf, IsHeld, plan_ticks, generated_plan}, Headline.{Plays, IsRefusal, IsUnread, RefusesFiles, Refuses, IsComplete, IsKept, IsLeft, IsSummed, status_of}, Runs.{is_given_up as is_given_up_lem}, Status.status_number, Texts.Tells};
ghost use Rattle.wind_session.specs.declared.run.RunEnd.{RunEnd};
ghost use Rattle.wind_session.specs.declared.run.RunEnd.TheVariants as ends;
ghost use Rattle.wind_session.specs.declared.ending.Status.TheVariants as status;
ghost use Rattle.wind_session.specs.declared.ending.Stand.TheVariants as stands;
ghost use Rattle.wind_session.specs.declared.command.Source.TheVariants as sources;

use crate::command::{Command, CommandErr, PROGRAM, Source, command_of};
use crate::count::{Tally, count_board};
use crate::ending::{Ending, Stand, Status, Which};
use crate::report::{tell, tell_no_memory, tell_usage};
use crate::run::{RunEnd, run_board};
use board_player::{Board, instant_law};
use generated_session::Summary;
use std::alloc::Global;
use tick_file::{Schedule, TickErr, read_ticks};
use wind_base::limits::TEXT_FILE_BYTES;
use wind_outside::{Device, Fetched, Folder, Put, Sink, Slots};

// The ending of a session without a board.
fn refused(status: Status, devices: Slots) -> Ending
    ensures { result ≡ record { status = status; stand = stands.NotBooted devices } }
{
    Ending {
        status,
        stand: Stand::NotBooted(devices),
    }
}

// Whether the run was given up, because a read failed or memory ran out.
fn is_given_up(end: RunEnd) -> bool
    ensures { result ≡ is_given_up_lem end }
{
    matches!(end, RunEnd::ReadFault | RunEnd::NoMemory)
}

/// Fetches the file with this name; the error says why it can't be played.
pub fn fetched<F: Folder>(
    alloc: Global,
    folder: &mut F,
    name: &str,
    file: Which,
) -> Result<Vec<u8>, Status>
    ensures held { IfOk result (λ bytes. IsHeld (F.files folder.old) name.now bytes.items) }
    ensures refused { IfErr result (λ s. IsUnread s file (F.files folder.old) name.now
        (Rose (F.faults folder.old) (F.faults folder.new))) }
    ensures found { IfOk result (λ bytes. GrowsBy (F.requests folder.old) (F.requests folder.new)
        (text_request name.now outcomes.Found ∷ [])) }
    ensures unfound { IfErr result (λ s. (outcome : FetchOutcome) × LeadsTo file outcome s ⊥
        × GrowsBy (F.requests folder.old) (F.requests folder.new) (text_request name.now outcome ∷ [])) }
    ensures known { IfErr result (λ s. s ≢ status.Usage) }
    ensures keeps { KeepsFolder (F.files folder.old) (F.files folder.new) (F.faults folder.old) (F.faults folder.new) }
{
    match folder.fetch(alloc, name, TEXT_FILE_BYTES) {
        Fetched::Found(bytes) => Ok(bytes),
        Fetched::Missing => Err(Status::Absent(file)),
        Fetched::TooLong => Err(Status::TooLong(file)),
        Fetched::Failed => Err(Status::ReadFault),
        Fetched::NoMemory => Err(Status::NoMemory),
    }
}

/// The schedule of a tick file; the error says why it can't be played.
pub fn schedule_of(alloc: Global, ticks: &[u8]) -> Result<Schedule, Status>
    ensures read { IfOk result (λ schedule. (console : List ℕ) → plan_ticks console ticks.now
        ≡ Start console schedule) }
    ensures refused { IfErr result (λ s. (console : List ℕ) → IsRefusal s (plan_ticks console ticks.now) ⊥) }
    ensures after_files { IfErr result (λ s. IsAfterFiles s) }
    ensures known { IfErr result (λ s. s ≢ status.Usage) }
{
    match read_ticks(alloc, ticks) {
        Ok(schedule) => Ok(schedule),
        Err(TickErr::BadLine(line)) => Err(Status::BadTicks(line)),
        Err(TickErr::NoMemory) => Err(Status::NoMemory),
    }
}

/// What a session plays.
#[derive(Drop)]
pub struct Inputs {
    /// The bytes of the console.
    pub console: Vec<u8>,
    /// The events.
    pub schedule: Schedule,
}

// Reads the two files of a command; the error says why they can't be played.
fn files_of<F: Folder>(alloc: Global, command: &Command, folder: &mut F) -> Result<Inputs, Status>
    ensures start { IfOk result (λ inputs. IsFilePlan (F.files folder.old) (command_state command.now)
        (Start inputs.console.items inputs.schedule)) }
    ensures refused { IfErr result (λ s. RefusesFiles s (F.files folder.old) (command_state command.now)
        (Rose (F.faults folder.old) (F.faults folder.new))) }
    ensures found { IfOk result (λ inputs. GrowsBy (F.requests folder.old) (F.requests folder.new)
        (file_requests (command_state command.now) outcomes.Found outcomes.Found)) }
    ensures without_run { IfErr result (λ s. EndsWithFiles (command_state command.now) s
        (F.requests folder.old) (F.requests folder.new)) }
    ensures known { IfErr result (λ s. s ≢ status.Usage) }
    ensures keeps { KeepsFolder (F.files folder.old) (F.files folder.new) (F.faults folder.old) (F.faults folder.new) }
{
    let console = fetched(alloc, folder, command.console, Which::Console)?;
    let ticks = fetched(alloc, folder, command.ticks, Which::Ticks)?;
    let schedule = schedule_of(alloc, &ticks)?;
    Ok(Inputs { console, schedule })
}

// The session generated with this many rounds. The only error is that memory runs out.
fn generated(alloc: Global, rounds: u32) -> Result<Inputs, Status>
    requires { rounds ≤ most_rounds }
    ensures planned { IfOk result (λ inputs. Start inputs.console.items inputs.schedule ≡ generated_plan rounds) }
    ensures memory { IfErr result (λ s. s ≡ status.NoMemory) }
{
    let console = generated_session::console_of(alloc, rounds)?;
    let schedule = generated_session::schedule_of(alloc, rounds)?;
    Ok(Inputs { console, schedule })
}

/// What to play; the error says why nothing is played.
pub fn inputs_of<F: Folder>(
    alloc: Global,
    command: &Command,
    folder: &mut F,
) -> Result<Inputs, Status>
    requires { HasFewRounds command.now.source }
    ensures start { IfOk result (λ inputs. IsPlanOf command.now.source (F.files folder.old)
        (command_state command.now) (Start inputs.console.items inputs.schedule)) }
    ensures refused { IfErr result (λ s. Refuses s (F.files folder.old) (command_state command.now)
        (Rose (F.faults folder.old) (F.faults folder.new))) }
    ensures found { IfOk result (λ inputs. GrowsBy (F.requests folder.old) (F.requests folder.new)
        (source_requests command.now.source (command_state command.now))) }
    ensures without_run { IfErr result (λ s. EndsWithSource command.now.source (command_state command.now) s
        (F.requests folder.old) (F.requests folder.new)) }
    ensures unasked { command.now.source ≢ sources.Files → F.requests folder.new ≡ F.requests folder.old }
    ensures known { IfErr result (λ s. s ≢ status.Usage) }
    ensures keeps { KeepsFolder (F.files folder.old) (F.files folder.new) (F.faults folder.old) (F.faults folder.new) }
{
    match command.source {
        Source::Files => files_of(alloc, command, folder),
        Source::Generated(rounds) => generated(alloc, rounds),
    }
}

// Puts the line that sums up the run of a generated session, with the number of the run's status.
// If the run was given up, it puts nothing.
fn sum_up<O: Sink>(rounds: u32, board: &Board, tally: Tally, out: &mut O) -> Status
    requires rounds { rounds ≤ most_rounds }
    requires all_put { tally.end ≢ ends.WriteFault }
    ensures summed { IsSummed tally.end result (summary_texts rounds tally.bytes
        (seen ⟦<dyn Device as Device>⟧ board.now).steps (seen ⟦<dyn Device as Device>⟧ board.now).world.kern.tick
        (status_number (status_of tally.end))) (sink_log ⟦<O as Sink>⟧ out.old) (sink_log ⟦<O as Sink>⟧ out.new) }
    ensures read_fault { result ≡ status.ReadFault → tally.end ≡ ends.ReadFault }
    ensures fault { result ≡ status.WriteFault → Rose (O.faults out.old) (O.faults out.new) }
    ensures faults { O.faults out.old ≤ O.faults out.new }
{
    let status = Status::from(tally.end);
    if is_given_up(tally.end) {
        return status;
    }
    let summary = Summary {
        rounds,
        bytes: tally.bytes,
        steps: board.steps(),
        ticks: board.ticks(),
        status: status.number(),
    };
    match summary.put(out) {
        Put::Done => status,
        Put::Failed => Status::WriteFault,
    }
}

// Plays the board of a session. It puts what the steps write or, for a generated session, one line
// that sums them up.
fn played<F: Folder, O: Sink>(
    alloc: Global,
    command: &Command,
    board: &mut Board,
    folder: &mut F,
    out: &mut O,
) -> Status
    requires fresh { (seen ⟦<dyn Device as Device>⟧ board.old).steps ≡ 0 }
    requires limit { command.now.limit ≤ most_steps }
    requires rounds { HasFewRounds command.now.source }
    ensures left { (end : RunEnd) × IsLeft command.now.source result end
        (record { files = F.files folder.old; name = command.now.modules.now })
        (seen ⟦<dyn Device as Device>⟧ board.old) command.now.limit (seen ⟦<dyn Device as Device>⟧ board.new)
        (outside (F.requests folder.old) (O.bytes out.old) (O.pieces out.old))
        (outside (F.requests folder.new) (O.bytes out.new) (O.pieces out.new)) }
    ensures read_fault { result ≡ status.ReadFault → Rose (F.faults folder.old) (F.faults folder.new) }
    ensures fault { result ≡ status.WriteFault → Rose (O.faults out.old) (O.faults out.new) }
    ensures keeps { KeepsFiles ⟦<F as Folder>⟧ ⟦<O as Sink>⟧ folder.old out.old folder.new out.new }
{
    match command.source {
        Source::Files => {
            let end = run_board(alloc, board, folder, command.modules, out, command.limit);
            Status::from(end)
        }
        Source::Generated(rounds) => {
            let tally = count_board(alloc, board, folder, command.modules, out, command.limit);
            sum_up(rounds, board, tally, out)
        }
    }
}

// Plays the session of a command.
fn session<F: Folder, O: Sink>(
    alloc: Global,
    command: &Command,
    folder: &mut F,
    out: &mut O,
    devices: Slots,
) -> Ending
    requires devices { length devices.items ≤ most_slots }
    requires limit { command.now.limit ≤ most_steps }
    requires rounds { HasFewRounds command.now.source }
    ensures machine { Plays (seen ⟦<dyn Device as Device>⟧) result (Some (command_state command.now))
        devices (slots_of kind_of words_of devices.items)
        (around ⟦<F as Folder>⟧ ⟦<O as Sink>⟧ folder.old out.old)
        (around ⟦<F as Folder>⟧ ⟦<O as Sink>⟧ folder.new out.new) }
    ensures complete { IsComplete result.status (Some (command_state command.now))
        (around ⟦<F as Folder>⟧ ⟦<O as Sink>⟧ folder.old out.old)
        (around ⟦<F as Folder>⟧ ⟦<O as Sink>⟧ folder.new out.new) }
    ensures known { result.status ≢ status.Usage }
    ensures fails_last { FailsLast result.status (F.requests folder.old) (F.requests folder.new) }
    ensures kept { IsKept (seen ⟦<dyn Device as Device>⟧) result.stand }
    ensures read_fault { result.status ≡ status.ReadFault → Rose (F.faults folder.old) (F.faults folder.new) }
    ensures write_fault { result.status ≡ status.WriteFault → Rose (O.faults out.old) (O.faults out.new) }
    ensures keeps { KeepsFiles ⟦<F as Folder>⟧ ⟦<O as Sink>⟧ folder.old out.old folder.new out.new }
{
    let inputs = match inputs_of(alloc, command, folder) {
        Ok(inputs) => inputs,
        Err(status) => return refused(status, devices),
    };
    let Inputs { console, schedule } = inputs;
    let (profile, kind) = (command.profile, command.board);
    let mut board = match Board::boot(alloc, devices, console, schedule, profile, kind) {
        Ok(board) => board,
        Err(devices) => return refused(Status::NoMemory, devices),
    };
    let status = played(alloc, command, &mut board, folder, out);
    board.facts();
    instant_law();
    Ending {
        status,
        stand: Stand::Booted(board),
    }
}

/// Plays the session that the arguments ask for. It fetches the console file and the tick file from
/// the folder, and boots a board with the devices. The board runs until no step is left, the limit
/// is reached, a put or a read fails, or memory runs out. What the steps write goes to `out`; for a
/// generated session, that is one line. The message for the status goes to `err`.
pub fn play<'a, F: Folder, O: Sink, E: Sink>(
    alloc: Global,
    words: &'a [&'a str],
    folder: &mut F,
    out: &mut O,
    err: &mut E,
    devices: Slots,
) -> Ending
    requires { length devices.items ≤ most_slots }
    ensures machine { Plays (seen ⟦<dyn Device as Device>⟧) result (command_of_lem (map (λ w. w.now) words.now))
        devices (slots_of kind_of words_of devices.items)
        (around ⟦<F as Folder>⟧ ⟦<O as Sink>⟧ folder.old out.old)
        (around ⟦<F as Folder>⟧ ⟦<O as Sink>⟧ folder.new out.new) }
    ensures usage { result.status ≢ status.NoMemory →
        ((result.status ≡ status.Usage) ↔ (command_of_lem (map (λ w. w.now) words.now)
        ≡ None)) }
    ensures complete { IsComplete result.status (command_of_lem (map (λ w. w.now) words.now))
        (around ⟦<F as Folder>⟧ ⟦<O as Sink>⟧ folder.old out.old)
        (around ⟦<F as Folder>⟧ ⟦<O as Sink>⟧ folder.new out.new) }
    ensures fails_last { FailsLast result.status (F.requests folder.old) (F.requests folder.new) }
    ensures kept { IsKept (seen ⟦<dyn Device as Device>⟧) result.stand }
    ensures read_fault { result.status ≡ status.ReadFault → Rose (F.faults folder.old) (F.faults folder.new) }
    ensures write_fault { result.status ≡ status.WriteFault → Rose (O.faults out.old) (O.faults out.new) }
    ensures keeps { KeepsFiles ⟦<F as Folder>⟧ ⟦<O as Sink>⟧ folder.old out.old folder.new out.new }
    ensures err_faults { E.faults err.old ≤ E.faults err.new }
    ensures err { Tells (codes "windplay") result.status (command_of_lem (map (λ w. w.now) words.now))
        (messages ⟦<E as Sink>⟧ err.old) (messages ⟦<E as Sink>⟧ err.new) }
{
    let command = match command_of(alloc, words) {
        Ok(command) => command,
        Err(CommandErr::Usage(text)) => {
            tell_usage(err, &text);
            return refused(Status::Usage, devices);
        }
        Err(CommandErr::NoMemory) => {
            tell_no_memory(PROGRAM, err);
            return refused(Status::NoMemory, devices);
        }
    };
    let ending = session(alloc, &command, folder, out, devices);
    tell(PROGRAM, err, &command, ending.status);
    ending
}
