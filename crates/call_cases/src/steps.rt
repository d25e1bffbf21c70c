//! Steps over a world, one after the other.

ghost use Rattle.std.specs.Prelude.{◌≤◌, length};
ghost use Rattle.wind_base.specs.Limits.{most_slots};

use crate::bench::{BACK, Bench, FRAME, SHELL};
use crate::looks::{Look, sees};
use kernel_calls::Called;
use kernel_world::gate_address;
use std::alloc::{AllocError, Global};
use wind_base::words::OK;
use wind_base::{BoardKind, Gate};
use wind_outside::{Latch, Slots};

// A step. Callers and tasks are given by their ids, and the interrupt routine by 0.
#[derive(Clone, Copy)]
pub(crate) enum Step {
    // a caller makes the call of a gate with its first four words; then r3 and the error number
    Call(u32, Gate, [u32; 4], u32, u32),
    // the same for a caller that is answered later
    Wait(u32, Gate, [u32; 4], u32, u32),
    // the shell's task calls ld with these words, and needs the file with this name
    Asks([u32; 4], &'static [u8]),
    // the shell's task, with this r1, calls taskSpawn with this name, priority and stack, the entry
    // 0x4000 and the words 1, 2 and 3, and seven above r1; then r3 and the error number
    Spawn(u32, [u32; 3], u32, u32),
    // the same with sp, the words 1 to 7, and two above r1
    Quick(u32, u32, u32),
    // the shell's task spawns this many tasks, whose ids count from this one
    SpawnAll(u32, u32),
    // the shell's task adds this many symbols with the name at an address
    AddAll(u32, u32),
    // a task ends
    End(u32),
    // a task deletes itself by taskDelete
    Leave(u32),
    // the first task begins to wait until it may delete the second
    Await(u32, u32),
    // the device of a slot interrupts
    Raise(u32),
    // puts these bytes into RAM from an address on
    Write(u32, &'static [u8]),
    // puts this many equal bytes into RAM from an address on
    Fill(u32, u32, u8),
    See(Look),
}

// How a call went on after it was made.
#[derive(Clone, Copy, PartialEq, Eq)]
enum Made {
    Done,
    Pended,
    Ended,
}

// How the call went on; `None` if it wasn't made.
fn how_made(called: &Called) -> Option<Made> {
    match called {
        Called::Done => Some(Made::Done),
        Called::Pended => Some(Made::Pended),
        Called::Ended => Some(Made::Ended),
        Called::NeedsFile(_) | Called::NoMemory => None,
    }
}

// Puts a caller at a gate with these words, and makes its call. Returns `None` if it isn't made.
fn call_made(alloc: Global, bench: &mut Bench, call: (u32, Gate, u32, [u32; 10])) -> Option<Made> {
    let (who, gate, frame, words) = call;
    how_made(&bench.call(alloc, who, gate, frame, &words)?)
}

// Makes a call of the gate. Returns whether it goes on like this, and its caller is after the gate
// with this r3 and this error number.
fn comes_to(
    alloc: Global,
    bench: &mut Bench,
    call: (u32, Gate, u32, [u32; 10]),
    expected: (Made, u32, u32),
) -> bool {
    let (made, r3, errno) = expected;
    call_made(alloc, bench, call) == Some(made) && bench.standing(call.0) == Some((BACK, r3, errno))
}

// The words of a call.
fn four([a, b, c, d]: [u32; 4]) -> [u32; 10] {
    [a, b, c, d, 0, 0, 0, 0, 0, 0]
}

// The words of taskSpawn.
fn spawning([name, pri, stack]: [u32; 3]) -> [u32; 10] {
    [name, pri, 0, stack, 0x4000, 1, 2, 3, 0, 0]
}

// The words of sp.
const QUICK: [u32; 10] = [0x4000, 1, 2, 3, 4, 5, 6, 7, 0, 0];

// Whether the board is told that a task that deletes itself has ended.
fn leaves(alloc: Global, bench: &mut Bench, who: u32) -> bool {
    let call = (who, Gate::TaskDelete, FRAME, four([0; 4]));
    call_made(alloc, bench, call) == Some(Made::Ended) && bench.task(who).is_none()
}

// Whether a task that wants to delete another pends, and is at the gate of its call.
fn awaits(alloc: Global, bench: &mut Bench, who: u32, target: u32) -> bool {
    let call = (who, Gate::TaskDelete, FRAME, four([target, 0, 0, 0]));
    let gate = gate_address(BoardKind::One, Gate::TaskDelete);
    call_made(alloc, bench, call) == Some(Made::Pended)
        && bench.standing(who) == Some((gate, target, 0))
}

// Whether the shell's task needs the file with this name, and is at the gate of its call.
fn asks(alloc: Global, bench: &mut Bench, words: [u32; 4], name: &[u8]) -> bool {
    let gate = gate_address(BoardKind::One, Gate::Ld);
    match bench.call(alloc, SHELL, Gate::Ld, FRAME, &four(words)) {
        Some(Called::NeedsFile(wanted)) => {
            wanted.bytes() == name && bench.standing(SHELL) == Some((gate, words[0], 0))
        }
        _ => false,
    }
}

// Whether taskSpawn by the shell's task, with this r1, leaves this r3 and error number.
fn spawns(
    alloc: Global,
    bench: &mut Bench,
    r1: u32,
    asked: [u32; 3],
    expected: (u32, u32),
) -> bool {
    let call = (SHELL, Gate::TaskSpawn, r1, spawning(asked));
    comes_to(alloc, bench, call, (Made::Done, expected.0, expected.1))
}

// Whether this many tasks are spawned, with ids that count from this one.
fn spawns_all(alloc: Global, bench: &mut Bench, first: u32, count: u32) -> bool {
    for k in 0..count {
        let id = first.wrapping_add(k);
        if !spawns(alloc, bench, FRAME, [0, 100, 0], (id, 0)) {
            return false;
        }
    }
    true
}

// Whether this many symbols with the name at an address are added.
fn adds_all(alloc: Global, bench: &mut Bench, name: u32, count: u32) -> bool {
    for value in 0..count {
        let call = (SHELL, Gate::SymAdd, FRAME, four([0, name, value, 2]));
        if !comes_to(alloc, bench, call, (Made::Done, OK, 0)) {
            return false;
        }
    }
    true
}

// Makes a step, and returns whether it goes as it says.
fn goes(alloc: Global, bench: &mut Bench, step: Step) -> bool {
    match step {
        Step::Call(who, gate, words, r3, errno) => {
            let call = (who, gate, FRAME, four(words));
            comes_to(alloc, bench, call, (Made::Done, r3, errno))
        }
        Step::Wait(who, gate, words, r3, errno) => {
            let call = (who, gate, FRAME, four(words));
            comes_to(alloc, bench, call, (Made::Pended, r3, errno))
        }
        Step::Asks(words, name) => asks(alloc, bench, words, name),
        Step::Spawn(r1, asked, r3, errno) => spawns(alloc, bench, r1, asked, (r3, errno)),
        Step::SpawnAll(first, count) => spawns_all(alloc, bench, first, count),
        Step::AddAll(name, count) => adds_all(alloc, bench, name, count),
        Step::Quick(r1, r3, errno) => {
            let call = (SHELL, Gate::Sp, r1, QUICK);
            comes_to(alloc, bench, call, (Made::Done, r3, errno))
        }
        Step::End(who) => bench.end(who),
        Step::Leave(who) => leaves(alloc, bench, who),
        Step::Await(who, target) => awaits(alloc, bench, who, target),
        Step::Raise(slot) => bench.raise(slot),
        Step::Write(address, bytes) => bench.write(address, bytes),
        Step::Fill(address, count, byte) => bench.fill(address, count, byte),
        Step::See(look) => sees(bench, look),
    }
}

// Steps over a world from its start on, and what they show.
#[derive(Clone, Copy)]
pub(crate) struct Table {
    pub(crate) name: &'static str,
    pub(crate) steps: &'static [Step],
}

// The outcome of a table.
pub(crate) enum Outcome {
    AsWorkedOut,
    // the step with this number, counted from 1, doesn't go as it says
    Wrong(u64),
    // no world could be made
    NoWorld,
}

// Makes the steps, and stops at the first that doesn't go as it says.
fn play_steps(alloc: Global, bench: &mut Bench, steps: &[Step]) -> Outcome {
    let mut number = 0u64;
    for step in steps {
        number = number.wrapping_add(1);
        if !goes(alloc, bench, *step) {
            return Outcome::Wrong(number);
        }
    }
    Outcome::AsWorkedOut
}

// Makes the steps of a table over a world with these devices.
fn play_over(alloc: Global, table: &Table, devices: Slots) -> Outcome
    requires { length devices.items ≤ most_slots }
{
    match Bench::new(alloc, devices) {
        Some(mut bench) => play_steps(alloc, &mut bench, table.steps),
        None => Outcome::NoWorld,
    }
}

// Makes the steps of a table over a world with a latch in slot 0, nothing in slot 1, and a latch in
// slot 2.
fn play_with_devices(alloc: Global, table: &Table) -> Result<Outcome, AllocError> {
    let first = Box::new(alloc, Latch::new())?;
    let second = Box::new(alloc, Latch::new())?;
    let mut devices: Slots = Vec::with_capacity(alloc, 3)?;
    devices.push(Some(first)).unwrap();
    devices.push(None).unwrap();
    devices.push(Some(second)).unwrap();
    Ok(play_over(alloc, table, devices))
}

// Makes the steps of a table over a world of its own.
pub(crate) fn play(alloc: Global, table: &Table) -> Outcome {
    match play_with_devices(alloc, table) {
        Ok(outcome) => outcome,
        Err(_) => Outcome::NoWorld,
    }
}
