//! What the program says of its own, on the second sink.

ghost use Rattle.std.specs.Prelude.{◌≡◌, ◌⊎◌, ◌++◌, IfOk, OnOk, codes};
ghost use Rattle.std.specs.Fmt.{decimal};
ghost use Rattle.text_show.specs.Tasks.{task_table_of};
ghost use Rattle.wind_outside.specs.Counts.{Rose};
ghost use Rattle.wind_session.specs.Texts.{IsPrinted};
ghost use Rattle.live_session.specs.Seen.{live_seen};
ghost use Rattle.live_session.specs.Telling.{help_text, memory_text, numbers_text, own_line, refusal_text as refusal_text_lem, state_text};

use crate::live::Live;
use crate::reading::{NotContinued, RecordFile};
use crate::record::Refusal;
use itoa::Buffer;
use std::alloc::{AllocError, Global};
use text_show::task_table;
use wind_base::{NoMemory, OutBuf};
use wind_outside::{Device, Sink};
use wind_session::{RunEnd, put_pieces};

/// Reports that host memory ran out.
pub fn tell_no_memory<E: Sink>(err: &mut E)
    ensures printed { IsPrinted (E.bytes err.old) (E.bytes err.new)
        (memory_text) (Rose (E.faults err.old) (E.faults err.new)) }
{
    tell(err, b"out of memory");
}

/// Says a text in a line of its own, after the program's name.
pub(crate) fn tell<E: Sink>(err: &mut E, text: &[u8])
    ensures printed { IsPrinted (E.bytes err.old) (E.bytes err.new)
        (own_line text.now) (Rose (E.faults err.old) (E.faults err.new)) }
{
    put_pieces(err, b"windlive: ", text, b"\n");
}

/// Says something of the folder with this name; `text` ends the line.
pub(crate) fn tell_of<E: Sink>(err: &mut E, name: &[u8], text: &[u8])
    ensures printed { IsPrinted (E.bytes err.old) (E.bytes err.new)
        (codes "windlive: " ++ name.now ++ text.now) (Rose (E.faults err.old) (E.faults err.new)) }
{
    put_pieces(err, b"windlive: ", name, text);
}

/// Lists the lines that the program takes.
pub(crate) fn tell_help<E: Sink>(err: &mut E)
    ensures printed { IsPrinted (E.bytes err.old) (E.bytes err.new)
        (help_text) (Rose (E.faults err.old) (E.faults err.new)) }
{
    put_pieces(
        err,
        b".ticks N               N ticks, each when nothing else is left to do\n\
        .ticks N every M       N ticks, M units of board time apart, whatever runs\n\
        .irq SLOT              an interrupt of the device in a slot\n",
        b".irqs N every M SLOT   N of them, M units of board time apart\n\
        .run N                 N steps\n\
        .break                 the byte 0x03, which aborts the shell's line and call\n",
        b".state                 board time, steps, ticks and the table of tasks\n\
        .save                  write the record now\n\
        .quit                  end\n\
        .help                  this list\n",
    );
}

// Why nothing was sent.
fn refusal_text(refusal: Refusal) -> &'static [u8]
    ensures { own_line result.now ≡ refusal_text_lem refusal }
{
    match refusal {
        Refusal::Time => b"not sent: board time is beyond 4294967295",
        Refusal::Console => b"not sent: console.txt would be longer than 1 MiB",
        Refusal::Ticks => b"not sent: ticks.txt would be longer than 1 MiB",
        Refusal::NoMemory => b"not sent: out of memory",
    }
}

/// Says why nothing was sent.
pub(crate) fn tell_refusal<E: Sink>(err: &mut E, refusal: Refusal)
    ensures printed { IsPrinted (E.bytes err.old) (E.bytes err.new)
        (refusal_text_lem refusal) (Rose (E.faults err.old) (E.faults err.new)) }
{
    tell(err, refusal_text(refusal));
}

/// Says who runs and what ends it, if the board's last run reached its limit.
pub(crate) fn tell_limit<E: Sink>(err: &mut E, live: &Live, end: RunEnd) {
    if end != RunEnd::Limit {
        return;
    }
    let who = match live.board.world().kern.running() {
        Some(task) => task.name.bytes(),
        None => b"an interrupt routine",
    };
    let advice = b"; .break aborts the shell's call\n";
    put_pieces(err, b"windlive: still running: ", who, advice);
}

/// Says why a session doesn't go on from the record in the folder with this name.
pub(crate) fn tell_not_continued<E: Sink>(err: &mut E, name: &[u8], reason: NotContinued) {
    match reason {
        NotContinued::Foreign(RecordFile::Console) => {
            tell_of(err, name, b": console.txt isn't there, or over 1 MiB\n");
        }
        NotContinued::Foreign(RecordFile::Ticks) => {
            tell_of(err, name, b": ticks.txt isn't that of a record\n");
        }
        NotContinued::Foreign(RecordFile::Command) => {
            let text = b": command.txt isn't that of a record with this --profile and --board\n";
            tell_of(err, name, text);
        }
        NotContinued::Failed => tell_of(err, name, b": can't be read\n"),
        NotContinued::NoMemory => tell_no_memory(err),
    }
}

// Adds a number after a word.
fn add_number(text: &mut Vec<u8>, word: &[u8], number: u128) -> Result<(), AllocError>
    ensures { OnOk result (text.new.items ≡ text.old.items ++ word.now ++ decimal number) }
{
    text.extend_from_slice(word)?;
    text.extend_from_slice(Buffer::new().format(number).as_bytes())
}

// The table of tasks.
fn table(alloc: Global, live: &Live) -> Result<OutBuf, NoMemory>
    ensures { IfOk result (λ page. page.bytes ≡ task_table_of (live_seen ⟦<dyn Device as Device>⟧ live.now).board.world.kern) }
{
    let mut page = OutBuf::reserved(alloc, 0)?;
    task_table(alloc, &live.board.world().kern, &mut page)?;
    Ok(page)
}

// Board time, and the number of steps and of ticks.
fn numbers(alloc: Global, live: &Live) -> Result<Vec<u8>, AllocError>
    ensures { IfOk result (λ text. text.items ≡ numbers_text (live_seen ⟦<dyn Device as Device>⟧ live.now).board) }
{
    let mut text = Vec::new(alloc);
    add_number(&mut text, b"board time ", live.board.time())?;
    add_number(&mut text, b"\nsteps ", u128::from(live.board.steps()))?;
    add_number(&mut text, b"\nticks ", u128::from(live.board.ticks()))?;
    Ok(text)
}

/// Says board time, the number of steps and of ticks, and what each task does; or that memory ran
/// out.
pub(crate) fn tell_state<E: Sink>(alloc: Global, err: &mut E, live: &Live)
    ensures printed { IsPrinted (E.bytes err.old) (E.bytes err.new)
        (state_text (live_seen ⟦<dyn Device as Device>⟧ live.now).board) (Rose (E.faults err.old) (E.faults err.new))
        ⊎ IsPrinted (E.bytes err.old) (E.bytes err.new) memory_text (Rose (E.faults err.old) (E.faults err.new)) }
{
    let Ok(numbers) = numbers(alloc, live) else {
        tell_no_memory(err);
        return;
    };
    let Ok(table) = table(alloc, live) else {
        tell_no_memory(err);
        return;
    };
    put_pieces(err, &numbers, b"\n", table.bytes());
}
