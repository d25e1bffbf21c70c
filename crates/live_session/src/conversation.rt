//! A conversation: one part of the input after another, and what follows each.

ghost use Rattle.std.specs.Prelude.{◌≡◌, ◌≢◌, ◌⊎◌, ◌≤◌, ◌↔◌, ◌++◌, [], IsTrue, None, Some, Err, IfOk, IfErr, OnErr, IfSome};
ghost use Rattle.wind_outside.specs.Counts.{Rose};
ghost use Rattle.wind_machine.specs.Machine.{IsOver};
ghost use Rattle.wind_session.specs.Keeping.{around, messages};
ghost use Rattle.wind_session.specs.declared.run.RunEnd.TheVariants as ends;
ghost use Rattle.live_session.specs.Ending.{IsGoing};
ghost use Rattle.live_session.specs.Input.{Takes, IsPart, IsLongest};
ghost use Rattle.live_session.specs.Journal.{Journaled};
ghost use Rattle.live_session.specs.LiveAround.{store};
ghost use Rattle.live_session.specs.Moments.{Wherever, moment};
ghost use Rattle.live_session.specs.Obeying.{Obeys, Serves};
ghost use Rattle.live_session.specs.Positions.{dot_sent, sent_of};
ghost use Rattle.live_session.specs.Seen.{live_seen, IsSound, Runs};
ghost use Rattle.live_session.specs.Session.{IsStatusOf, IsTalk, IsTyped, sent_unless, status_at};
ghost use Rattle.live_session.specs.Words.{command_state, IsTarget};
ghost use Rattle.live_session.specs.declared.dot_line.DotLine.TheVariants as lines;
ghost use Rattle.live_session.specs.declared.saving.Unsaved.TheVariants as unsaved;
ghost use Rattle.live_session.specs.declared.serving.Request.TheVariants as requests;
ghost use Rattle.live_session.specs.declared.status.Status.TheVariants as status;

use crate::dot_line::DotLine;
use crate::events::{run_counted_ticks, run_series};
use crate::input::{Input, InputPart};
use crate::keeping::save_now;
use crate::live::{Live, Went, can_run};
use crate::messages::{tell, tell_help, tell_state};
use crate::record_folder::RecordFolder;
use crate::running::{Served, run, send_and_run};
use crate::saving::{Target, Unsaved};
use crate::serving::{Position, Request, position_after, request_of};
use crate::status::Status;
use std::alloc::Global;
use tick_file::Event;
use wind_outside::{Device, Folder, Sink};
use wind_session::RunEnd;

// Nothing was sent, refused or written since a run that ended like this.
fn unsent(end: RunEnd) -> Served
    ensures { result ≡ record { end = end; refusal = None; unsaved = None } }
{
    Served {
        end,
        refusal: None,
        unsaved: None,
    }
}

// The board ran, and nothing was refused.
fn ran(went: Went) -> Served
    ensures { result ≡ record { end = went.end; refusal = None; unsaved = went.unsaved } }
{
    Served {
        end: went.end,
        refusal: None,
        unsaved: went.unsaved,
    }
}

// Does what a line for the program asks for.
fn obey<F: Folder, O: Sink, E: Sink, D: RecordFolder>(
    alloc: Global,
    target: Target,
    live: &mut Live,
    folder: &mut F,
    out: &mut O,
    err: &mut E,
    records: &mut D,
    line: DotLine,
    end: RunEnd,
) -> Served
    requires target { IsTarget target }
    requires going { IsGoing end }
    requires over { end ≡ ends.Quiet → IsOver (live_seen ⟦<dyn Device as Device>⟧ live.old).board }
    requires sound { IsSound (live_seen ⟦<dyn Device as Device>⟧ live.old) }
    ensures runs { Runs result.end target.entry.command.now.modules.now
        (live_seen ⟦<dyn Device as Device>⟧ live.old) (around ⟦<F as Folder>⟧ ⟦<O as Sink>⟧ folder.old out.old)
        (live_seen ⟦<dyn Device as Device>⟧ live.new) (around ⟦<F as Folder>⟧ ⟦<O as Sink>⟧ folder.new out.new) }
    ensures console { (live_seen ⟦<dyn Device as Device>⟧ live.new).console.bytes
        ≡ (live_seen ⟦<dyn Device as Device>⟧ live.old).console.bytes ++ sent_unless result.refusal (dot_sent line) }
    ensures obeys { Wherever target.entry.command.now.modules.now
        (live_seen ⟦<dyn Device as Device>⟧ live.old) (around ⟦<F as Folder>⟧ ⟦<O as Sink>⟧ folder.old out.old)
        (λ shelf setup old. Obeys (command_state target.entry.command.now) line result.refusal shelf setup old
        (moment (live_seen ⟦<dyn Device as Device>⟧ live.old) (around ⟦<F as Folder>⟧ ⟦<O as Sink>⟧ folder.old out.old)
        (messages ⟦<E as Sink>⟧ err.old) (store ⟦<D as RecordFolder>⟧ records.old) end None)
        (moment (live_seen ⟦<dyn Device as Device>⟧ live.new) (around ⟦<F as Folder>⟧ ⟦<O as Sink>⟧ folder.new out.new)
        (messages ⟦<E as Sink>⟧ err.new) (store ⟦<D as RecordFolder>⟧ records.new) result.end result.unsaved)) }
    ensures journal { Journaled (command_state target.entry.command.now) result.unsaved result.end
        (live_seen ⟦<dyn Device as Device>⟧ live.old) (around ⟦<F as Folder>⟧ ⟦<O as Sink>⟧ folder.old out.old)
        (store ⟦<D as RecordFolder>⟧ records.old)
        (live_seen ⟦<dyn Device as Device>⟧ live.new) (around ⟦<F as Folder>⟧ ⟦<O as Sink>⟧ folder.new out.new)
        (store ⟦<D as RecordFolder>⟧ records.new) }
{
    match line {
        DotLine::Ticks(ticks) => ran(run_counted_ticks(
            alloc, target, live, folder, out, err, records, ticks,
        )),
        DotLine::Events(series) => ran(run_series(
            alloc, target, live, folder, out, err, records, series, end,
        )),
        DotLine::Run(most) => ran(run(alloc, target, live, folder, out, err, records, most)),
        DotLine::Break => {
            let abort = Event::Rx(1);
            send_and_run(
                alloc, target, live, folder, out, err, records, abort, b"\x03", end,
            )
        }
        DotLine::State => {
            tell_state(alloc, err, live);
            unsent(end)
        }
        DotLine::Save => {
            save_now(alloc, target, live, err, records, end);
            unsent(end)
        }
        DotLine::Quit => unsent(end),
        DotLine::Help => {
            tell_help(err);
            unsent(end)
        }
        DotLine::Unknown => {
            tell(err, b"unknown; .help lists the lines that begin with `.`");
            unsent(end)
        }
    }
}

// Does what a part of the input asks for.
fn serve<F: Folder, O: Sink, E: Sink, D: RecordFolder>(
    alloc: Global,
    target: Target,
    live: &mut Live,
    folder: &mut F,
    out: &mut O,
    err: &mut E,
    records: &mut D,
    request: Request,
    part: &[u8],
    end: RunEnd,
) -> Served
    requires target { IsTarget target }
    requires going { IsGoing end }
    requires over { end ≡ ends.Quiet → IsOver (live_seen ⟦<dyn Device as Device>⟧ live.old).board }
    requires sound { IsSound (live_seen ⟦<dyn Device as Device>⟧ live.old) }
    requires part { IsPart part.now }
    ensures runs { Runs result.end target.entry.command.now.modules.now
        (live_seen ⟦<dyn Device as Device>⟧ live.old) (around ⟦<F as Folder>⟧ ⟦<O as Sink>⟧ folder.old out.old)
        (live_seen ⟦<dyn Device as Device>⟧ live.new) (around ⟦<F as Folder>⟧ ⟦<O as Sink>⟧ folder.new out.new) }
    ensures console { (live_seen ⟦<dyn Device as Device>⟧ live.new).console.bytes
        ≡ (live_seen ⟦<dyn Device as Device>⟧ live.old).console.bytes ++ sent_unless result.refusal (sent_of request part.now) }
    ensures serves { Wherever target.entry.command.now.modules.now
        (live_seen ⟦<dyn Device as Device>⟧ live.old) (around ⟦<F as Folder>⟧ ⟦<O as Sink>⟧ folder.old out.old)
        (λ shelf setup old. Serves (command_state target.entry.command.now) request part.now result.refusal shelf setup old
        (moment (live_seen ⟦<dyn Device as Device>⟧ live.old) (around ⟦<F as Folder>⟧ ⟦<O as Sink>⟧ folder.old out.old)
        (messages ⟦<E as Sink>⟧ err.old) (store ⟦<D as RecordFolder>⟧ records.old) end None)
        (moment (live_seen ⟦<dyn Device as Device>⟧ live.new) (around ⟦<F as Folder>⟧ ⟦<O as Sink>⟧ folder.new out.new)
        (messages ⟦<E as Sink>⟧ err.new) (store ⟦<D as RecordFolder>⟧ records.new) result.end result.unsaved)) }
    ensures journal { Journaled (command_state target.entry.command.now) result.unsaved result.end
        (live_seen ⟦<dyn Device as Device>⟧ live.old) (around ⟦<F as Folder>⟧ ⟦<O as Sink>⟧ folder.old out.old)
        (store ⟦<D as RecordFolder>⟧ records.old)
        (live_seen ⟦<dyn Device as Device>⟧ live.new) (around ⟦<F as Folder>⟧ ⟦<O as Sink>⟧ folder.new out.new)
        (store ⟦<D as RecordFolder>⟧ records.new) }
{
    match request {
        Request::Send => {
            let bytes = Event::Rx(part.len() as u32);
            send_and_run(
                alloc, target, live, folder, out, err, records, bytes, part, end,
            )
        }
        Request::Skip => unsent(end),
        Request::Obey(line) => obey(alloc, target, live, folder, out, err, records, line, end),
    }
}

/// How a conversation ended: how the board's last run ended, the status if the record is written,
/// and why a file of the record was not written, if one wasn't.
#[derive(Clone, Copy)]
pub(crate) struct Closing {
    pub(crate) end: RunEnd,
    pub(crate) status: Status,
    pub(crate) unsaved: Option<Unsaved>,
}

// Whether the session can go on.
fn is_going(went: Went) -> bool
    ensures { IsTrue result ↔ IsGoing went.end × (went.unsaved ≡ None) }
{
    can_run(went.end) && went.unsaved.is_none()
}

// Whether a part is the line `.quit`.
fn is_quit(request: Request) -> bool
    ensures { IsTrue result ↔ (request ≡ requests.Obey lines.Quit) }
{
    matches!(request, Request::Obey(DotLine::Quit))
}

// The status of a session whose input doesn't decide it.
fn status_of(went: Went) -> Status
    ensures { result ≡ status_at went.unsaved went.end }
{
    match (went.unsaved, went.end) {
        (Some(Unsaved::Failed), _) => Status::Unrecorded,
        (Some(Unsaved::NoMemory), _) | (None, RunEnd::NoMemory) => Status::NoMemory,
        (None, RunEnd::Quiet | RunEnd::Limit) => Status::Ended,
        (None, RunEnd::ReadFault) => Status::ReadFault,
        (None, RunEnd::WriteFault) => Status::WriteFault,
    }
}

// A conversation that the input doesn't decide.
fn closing_of(went: Went) -> Closing
    ensures { result ≡ record { end = went.end; status = status_at went.unsaved went.end; unsaved = went.unsaved } }
{
    let status = status_of(went);
    let Went { end, unsaved } = went;
    Closing {
        end,
        status,
        unsaved,
    }
}

// Takes the next part of the input. The error is the status with which a session ends then.
fn hear<I: Input>(alloc: Global, input: &mut I) -> Result<Vec<u8>, Status>
    ensures part { IfOk result (λ part. Takes (I.left input.old) (I.left input.new) part.items × IsPart part.items
        × IsLongest part.items (I.left input.new)) }
    ensures kept { OnErr result (I.left input.new ≡ I.left input.old) }
    ensures over { result ≡ Err status.Ended → IfSome (I.left input.old) (λ left. left ≡ []) }
    ensures ended { IfErr result (λ s. IsStatusOf ends.Limit s × (s ≢ status.Unrecorded)) }
    ensures failed { result ≡ Err status.ReadFault → Rose (I.faults input.old) (I.faults input.new) }
    ensures never_falls { I.faults input.old ≤ I.faults input.new }
{
    match input.next_part(alloc) {
        InputPart::Bytes(part) => Ok(part),
        InputPart::End => Err(Status::Ended),
        InputPart::Failed => Err(Status::ReadFault),
        InputPart::NoMemory => Err(Status::NoMemory),
    }
}

/// Takes one part of the input after another, until it ends, the end is asked for, or the board
/// can't go on.
pub(crate) fn converse<I: Input, F: Folder, O: Sink, E: Sink, D: RecordFolder>(
    alloc: Global,
    target: Target,
    live: &mut Live,
    input: &mut I,
    folder: &mut F,
    out: &mut O,
    err: &mut E,
    records: &mut D,
    first: u64,
) -> Closing
    requires target { IsTarget target }
    requires sound { IsSound (live_seen ⟦<dyn Device as Device>⟧ live.old) }
    ensures runs { Runs result.end target.entry.command.now.modules.now
        (live_seen ⟦<dyn Device as Device>⟧ live.old) (around ⟦<F as Folder>⟧ ⟦<O as Sink>⟧ folder.old out.old)
        (live_seen ⟦<dyn Device as Device>⟧ live.new) (around ⟦<F as Folder>⟧ ⟦<O as Sink>⟧ folder.new out.new) }
    ensures status_is { IsStatusOf result.end result.status }
    ensures unended { result.unsaved ≢ None → result.status ≢ status.Ended }
    ensures unrecorded { result.status ≡ status.Unrecorded → result.unsaved ≡ Some unsaved.Failed }
    ensures typed { IsTyped result.status (I.left input.old) (I.left input.new)
        (live_seen ⟦<dyn Device as Device>⟧ live.old).console.bytes
        (live_seen ⟦<dyn Device as Device>⟧ live.new).console.bytes
        (λ parts. Wherever target.entry.command.now.modules.now
        (live_seen ⟦<dyn Device as Device>⟧ live.old) (around ⟦<F as Folder>⟧ ⟦<O as Sink>⟧ folder.old out.old)
        (λ shelf setup old. IsTalk (command_state target.entry.command.now) first parts shelf setup old
        (live_seen ⟦<dyn Device as Device>⟧ live.old) (around ⟦<F as Folder>⟧ ⟦<O as Sink>⟧ folder.old out.old)
        (store ⟦<D as RecordFolder>⟧ records.old)
        (moment (live_seen ⟦<dyn Device as Device>⟧ live.new) (around ⟦<F as Folder>⟧ ⟦<O as Sink>⟧ folder.new out.new)
        (messages ⟦<E as Sink>⟧ err.new) (store ⟦<D as RecordFolder>⟧ records.new) result.end result.unsaved))) }
    ensures read_fault { result.status ≡ status.ReadFault
        → Rose (I.faults input.old) (I.faults input.new) ⊎ Rose (F.faults folder.old) (F.faults folder.new) }
    ensures fault { result.status ≡ status.WriteFault → Rose (O.faults out.old) (O.faults out.new) }
    ensures journal { Journaled (command_state target.entry.command.now) result.unsaved result.end
        (live_seen ⟦<dyn Device as Device>⟧ live.old) (around ⟦<F as Folder>⟧ ⟦<O as Sink>⟧ folder.old out.old)
        (store ⟦<D as RecordFolder>⟧ records.old)
        (live_seen ⟦<dyn Device as Device>⟧ live.new) (around ⟦<F as Folder>⟧ ⟦<O as Sink>⟧ folder.new out.new)
        (store ⟦<D as RecordFolder>⟧ records.new) }
    ensures input_faults { I.faults input.old ≤ I.faults input.new }
{
    let mut position = Position::Start;
    let mut went = run(alloc, target, live, folder, out, err, records, first);
    for _ in 0..u64::MAX {
        if !is_going(went) {
            return closing_of(went);
        }
        let end = went.end;
        let part = match hear(alloc, input) {
            Ok(part) => part,
            Err(status) => {
                return Closing {
                    end,
                    status,
                    unsaved: None,
                };
            }
        };
        let bytes = part.as_slice();
        let request = request_of(position, bytes);
        let served = serve(
            alloc, target, live, folder, out, err, records, request, bytes, end,
        );
        went = Went {
            end: served.end,
            unsaved: served.unsaved,
        };
        if is_quit(request) {
            return closing_of(went);
        }
        position = position_after(position, bytes);
    }
    closing_of(went)
}
