//! Events that a line for the program sends, a period of board time apart.

ghost use Rattle.std.specs.Prelude.{◌≡◌, None};
ghost use Rattle.tick_file.specs.Writing.{IsInRange};
ghost use Rattle.wind_machine.specs.Extending.{bytes_asked};
ghost use Rattle.wind_machine.specs.Machine.{IsOver};
ghost use Rattle.wind_outside.specs.Counts.{Rose};
ghost use Rattle.wind_session.specs.Keeping.{Around, around, messages};
ghost use Rattle.wind_session.specs.Texts.{IsPrinted};
ghost use Rattle.wind_session.specs.declared.run.RunEnd.TheVariants as ends;
ghost use Rattle.live_session.specs.Ending.{IsGoing};
ghost use Rattle.live_session.specs.Journal.{Journaled};
ghost use Rattle.live_session.specs.LiveAround.{store};
ghost use Rattle.live_session.specs.Moments.{Wherever, moment};
ghost use Rattle.live_session.specs.Obeying.{TicksAreTold};
ghost use Rattle.live_session.specs.Seen.{live_seen, IsSound, Runs, StaysLive};
ghost use Rattle.live_session.specs.Spacing.{AreSent, SeriesComes, cause_text as cause_text_lem, may_come as may_come_lem, no_device_text, sent_text, slot_of as slot_of_lem, steps_for as steps_for_lem};
ghost use Rattle.live_session.specs.Words.{command_state, IsTarget};

use crate::dot_line::Series;
use crate::journal::note_event;
use crate::live::{Live, Went, send_at};
use crate::record::Refusal;
use crate::record_folder::RecordFolder;
use crate::running::{run, run_ticks};
use crate::saving::{Target, Unsaved};
use itoa::Buffer;
use std::alloc::Global;
use tick_file::{Event, writing_law};
use wind_base::limits::{SLOTS, STEPS};
use wind_machine::{extend_law, live_law};
use wind_outside::{Device, Folder, Sink};
use wind_session::{RunEnd, put_pieces};

// How many events of a series were sent, why the next was refused, if it was, and why the last is
// not in the record's files, if it isn't.
#[derive(Clone, Copy)]
struct Sent {
    count: u64,
    refusal: Option<Refusal>,
    unsaved: Option<Unsaved>,
}

// Whether an event may come: a tick, or an interrupt of a slot with a device.
fn may_come(live: &Live, event: Event) -> bool
    ensures { result ≡ may_come_lem event (live_seen ⟦<dyn Device as Device>⟧ live.now).board }
{
    match event {
        Event::Tick => true,
        Event::Irq(slot) => (slot as usize) < SLOTS && live.board.world().bus.has_device(slot),
        Event::Rx(_) => false,
    }
}

// The number of an interrupt's slot.
fn slot_of(event: Event) -> u32
    ensures { result ≡ slot_of_lem event }
{
    match event {
        Event::Irq(slot) => slot,
        Event::Tick | Event::Rx(_) => 0,
    }
}

// Says that the slot of an interrupt is empty.
fn tell_no_device<E: Sink>(err: &mut E, event: Event)
    ensures printed { IsPrinted (E.bytes err.old) (E.bytes err.new)
        (no_device_text event) (Rose (E.faults err.old) (E.faults err.new)) }
{
    let mut digits = Buffer::new();
    let slot = digits.format(slot_of(event)).as_bytes();
    put_pieces(err, b"windlive: not sent: slot ", slot, b" has no device\n");
}

// The end of the line that says how many were sent, and why the next was not.
fn cause_text(refusal: Option<Refusal>) -> &'static [u8]
    ensures { result.now ≡ cause_text_lem refusal }
{
    match refusal {
        None => b"\n",
        Some(Refusal::Time) => b"\nwindlive: not sent: board time is beyond 4294967295\n",
        Some(Refusal::Console) => {
            b"\nwindlive: not sent: console.txt would be longer than 1 MiB\n"
        }
        Some(Refusal::Ticks) => b"\nwindlive: not sent: ticks.txt would be longer than 1 MiB\n",
        Some(Refusal::NoMemory) => b"\nwindlive: not sent: out of memory\n",
    }
}

// Says how many were sent, and why the next was not.
fn tell_sent<E: Sink>(err: &mut E, sent: Sent)
    ensures printed { IsPrinted (E.bytes err.old) (E.bytes err.new)
        (sent_text sent.count sent.refusal) (Rose (E.faults err.old) (E.faults err.new)) }
{
    let mut digits = Buffer::new();
    let count = digits.format(sent.count).as_bytes();
    put_pieces(
        err,
        b"windlive: events sent: ",
        count,
        cause_text(sent.refusal),
    );
}

// Sends the events of a series, and adds each to the record's files, until one is refused or a file
// is not written.
fn send_series<D: RecordFolder>(
    alloc: Global,
    target: Target,
    live: &mut Live,
    records: &mut D,
    series: Series,
) -> Sent
    requires sound { IsSound (live_seen ⟦<dyn Device as Device>⟧ live.old) }
    requires target { IsTarget target }
    requires range { IsInRange series.event }
    requires no_bytes { bytes_asked series.event ≡ 0 }
    ensures stays { StaysLive (live_seen ⟦<dyn Device as Device>⟧ live.old)
        (live_seen ⟦<dyn Device as Device>⟧ live.new) }
    ensures console { (live_seen ⟦<dyn Device as Device>⟧ live.new).console.bytes
        ≡ (live_seen ⟦<dyn Device as Device>⟧ live.old).console.bytes }
    ensures sent { AreSent series.count series.period series.event
        (live_seen ⟦<dyn Device as Device>⟧ live.old).board.time result.refusal result.unsaved result.count
        (live_seen ⟦<dyn Device as Device>⟧ live.old) (live_seen ⟦<dyn Device as Device>⟧ live.new) }
    ensures journal { (a : Around) → Journaled (command_state target.entry.command.now) result.unsaved ends.Limit
        (live_seen ⟦<dyn Device as Device>⟧ live.old) a (store ⟦<D as RecordFolder>⟧ records.old)
        (live_seen ⟦<dyn Device as Device>⟧ live.new) a (store ⟦<D as RecordFolder>⟧ records.new) }
{
    writing_law();
    extend_law();
    live_law();
    let mut time = live.board.time();
    for count in 0..series.count {
        let line = match send_at(alloc, live, time, series.period, series.event, b"") {
            Ok(line) => line,
            Err(refusal) => {
                return Sent {
                    count,
                    refusal: Some(refusal),
                    unsaved: None,
                };
            }
        };
        if let Err(failure) = note_event(alloc, target, records, &line, b"") {
            return Sent {
                count: count + 1,
                refusal: None,
                unsaved: Some(failure),
            };
        }
        time = u128::from(live.record.last);
    }
    Sent {
        count: series.count,
        refusal: None,
        unsaved: None,
    }
}

// How many steps the board makes after so many events: up to the time of the last, and then as many
// as after a part of the input.
fn steps_for(live: &Live, most: u64, sent: u64) -> u64
    ensures { result ≡ steps_for_lem most sent (live_seen ⟦<dyn Device as Device>⟧ live.now) }
{
    let units = u128::from(live.record.last).saturating_sub(live.board.time());
    let steps = u128::from(most) + units + 2 * u128::from(sent);
    steps.min(u128::from(STEPS)) as u64
}

/// Sends the events of a series, at their times, whatever runs. Then makes as many steps as there
/// are units of board time up to the last, and as many more as the command says. Says how many were
/// sent, and why the next was not. An interrupt of an empty slot isn't sent, and no step is made;
/// nor is one made after a write of the record failed.
pub(crate) fn run_series<F: Folder, O: Sink, E: Sink, D: RecordFolder>(
    alloc: Global,
    target: Target,
    live: &mut Live,
    folder: &mut F,
    out: &mut O,
    err: &mut E,
    records: &mut D,
    series: Series,
    end: RunEnd,
) -> Went
    requires going { IsGoing end }
    requires over { end ≡ ends.Quiet → IsOver (live_seen ⟦<dyn Device as Device>⟧ live.old).board }
    requires sound { IsSound (live_seen ⟦<dyn Device as Device>⟧ live.old) }
    requires target { IsTarget target }
    ensures runs { Runs result.end target.entry.command.now.modules.now
        (live_seen ⟦<dyn Device as Device>⟧ live.old) (around ⟦<F as Folder>⟧ ⟦<O as Sink>⟧ folder.old out.old)
        (live_seen ⟦<dyn Device as Device>⟧ live.new) (around ⟦<F as Folder>⟧ ⟦<O as Sink>⟧ folder.new out.new) }
    ensures console { (live_seen ⟦<dyn Device as Device>⟧ live.new).console.bytes
        ≡ (live_seen ⟦<dyn Device as Device>⟧ live.old).console.bytes }
    ensures comes { Wherever target.entry.command.now.modules.now
        (live_seen ⟦<dyn Device as Device>⟧ live.old) (around ⟦<F as Folder>⟧ ⟦<O as Sink>⟧ folder.old out.old)
        (λ shelf setup old. SeriesComes series target.entry.command.now.quiet_after shelf setup old
        (moment (live_seen ⟦<dyn Device as Device>⟧ live.old) (around ⟦<F as Folder>⟧ ⟦<O as Sink>⟧ folder.old out.old)
        (messages ⟦<E as Sink>⟧ err.old) (store ⟦<D as RecordFolder>⟧ records.old) end None)
        (moment (live_seen ⟦<dyn Device as Device>⟧ live.new) (around ⟦<F as Folder>⟧ ⟦<O as Sink>⟧ folder.new out.new)
        (messages ⟦<E as Sink>⟧ err.new) (store ⟦<D as RecordFolder>⟧ records.new) result.end result.unsaved)) }
    ensures journal { Journaled (command_state target.entry.command.now) result.unsaved result.end
        (live_seen ⟦<dyn Device as Device>⟧ live.old) (around ⟦<F as Folder>⟧ ⟦<O as Sink>⟧ folder.old out.old)
        (store ⟦<D as RecordFolder>⟧ records.old)
        (live_seen ⟦<dyn Device as Device>⟧ live.new) (around ⟦<F as Folder>⟧ ⟦<O as Sink>⟧ folder.new out.new)
        (store ⟦<D as RecordFolder>⟧ records.new) }
{
    if !may_come(live, series.event) {
        tell_no_device(err, series.event);
        return Went { end, unsaved: None };
    }
    let sent = send_series(alloc, target, live, records, series);
    if let Some(failure) = sent.unsaved {
        tell_sent(err, sent);
        return Went {
            end: RunEnd::Limit,
            unsaved: Some(failure),
        };
    }
    let most = steps_for(live, target.command.quiet_after, sent.count);
    let went = run(alloc, target, live, folder, out, err, records, most);
    tell_sent(err, sent);
    went
}

/// Lets ticks come, each when nothing else is left to do. Says how many came.
pub(crate) fn run_counted_ticks<F: Folder, O: Sink, E: Sink, D: RecordFolder>(
    alloc: Global,
    target: Target,
    live: &mut Live,
    folder: &mut F,
    out: &mut O,
    err: &mut E,
    records: &mut D,
    ticks: u64,
) -> Went
    requires sound { IsSound (live_seen ⟦<dyn Device as Device>⟧ live.old) }
    requires target { IsTarget target }
    ensures runs { Runs result.end target.entry.command.now.modules.now
        (live_seen ⟦<dyn Device as Device>⟧ live.old) (around ⟦<F as Folder>⟧ ⟦<O as Sink>⟧ folder.old out.old)
        (live_seen ⟦<dyn Device as Device>⟧ live.new) (around ⟦<F as Folder>⟧ ⟦<O as Sink>⟧ folder.new out.new) }
    ensures console { (live_seen ⟦<dyn Device as Device>⟧ live.new).console.bytes
        ≡ (live_seen ⟦<dyn Device as Device>⟧ live.old).console.bytes }
    ensures come { (now : RunEnd) → Wherever target.entry.command.now.modules.now
        (live_seen ⟦<dyn Device as Device>⟧ live.old) (around ⟦<F as Folder>⟧ ⟦<O as Sink>⟧ folder.old out.old)
        (λ shelf setup old. TicksAreTold ticks target.entry.command.now.quiet_after shelf setup old
        (moment (live_seen ⟦<dyn Device as Device>⟧ live.old) (around ⟦<F as Folder>⟧ ⟦<O as Sink>⟧ folder.old out.old)
        (messages ⟦<E as Sink>⟧ err.old) (store ⟦<D as RecordFolder>⟧ records.old) now None)
        (moment (live_seen ⟦<dyn Device as Device>⟧ live.new) (around ⟦<F as Folder>⟧ ⟦<O as Sink>⟧ folder.new out.new)
        (messages ⟦<E as Sink>⟧ err.new) (store ⟦<D as RecordFolder>⟧ records.new) result.end result.unsaved)) }
    ensures journal { Journaled (command_state target.entry.command.now) result.unsaved result.end
        (live_seen ⟦<dyn Device as Device>⟧ live.old) (around ⟦<F as Folder>⟧ ⟦<O as Sink>⟧ folder.old out.old)
        (store ⟦<D as RecordFolder>⟧ records.old)
        (live_seen ⟦<dyn Device as Device>⟧ live.new) (around ⟦<F as Folder>⟧ ⟦<O as Sink>⟧ folder.new out.new)
        (store ⟦<D as RecordFolder>⟧ records.new) }
{
    let before = live.record.lines;
    let went = run_ticks(alloc, target, live, folder, out, err, records, ticks);
    let sent = Sent {
        count: live.record.lines.saturating_sub(before),
        refusal: None,
        unsaved: None,
    };
    tell_sent(err, sent);
    went
}
