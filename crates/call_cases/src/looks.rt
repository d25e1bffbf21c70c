//! What a world shows.

use crate::bench::Bench;
use symbol_table::SymKind;
use task_block::Task;

// What can be seen of a world.
#[derive(Clone, Copy)]
pub(crate) enum Look {
    // the word of RAM at an address
    Word(u32, u32),
    // the 16 words from an address on
    Frame(u32, [u32; 16]),
    // what was written
    Output(&'static [u8]),
    // the block of the partition that begins at an address, and its size in bytes
    Block(u32, u32),
    // how many tasks live
    Tasks(u32),
    // how many symbols there are
    Symbols(u32),
    // the symbol with this number, a global one of group 0: its name, its value and its kind
    Symbol(u32, &'static [u8], u32, SymKind),
    // the task with this id
    Task(u32, TaskLook),
    // the current priorities of four tasks, whose ids count from this one
    Priorities(u32, [u32; 4]),
    // whether a slot holds a device
    Device(u32, bool),
    // how many interrupts of a slot are pending
    Pending(u32, u32),
}

// What can be seen of a task.
#[derive(Clone, Copy)]
pub(crate) enum TaskLook {
    Suspended(bool),
    // its current priority, and its normal one
    Priorities(u32, u32),
    // how often it has locked the scheduler
    Locks(u64),
    // whether it waits for something
    Waits(bool),
    // the tick at which it becomes ready, or none if it isn't delayed
    Wake(Option<u64>),
    // its name, the address of its stack, r1 and its priority
    Made(&'static [u8], u32, u32, u32),
    // its program counter and link register, and r0 and r2 to r11
    Begins(u32, u32, [u32; 11]),
}

// The 16 words from an address on.
fn frame(bench: &Bench, address: u32) -> Option<[u32; 16]> {
    let mut words = [0; 16];
    let mut at = address;
    for word in &mut words {
        *word = bench.word(at)?;
        at = at.wrapping_add(4);
    }
    Some(words)
}

// r0 and r2 to r11.
fn registers(gpr: [u32; 32]) -> [u32; 11] {
    let [r0, _, r2, r3, r4, r5, r6, r7, r8, r9, r10, r11, ..] = gpr;
    [r0, r2, r3, r4, r5, r6, r7, r8, r9, r10, r11]
}

fn sees_in(task: &Task, look: TaskLook) -> bool {
    match look {
        TaskLook::Suspended(is) => task.suspended == is,
        TaskLook::Priorities(pri, normal) => task.pri.get() == pri && task.normal.get() == normal,
        TaskLook::Locks(n) => task.locks == n,
        TaskLook::Waits(is) => task.wait.is_some() == is,
        TaskLook::Wake(tick) => task.wake == tick && task.ready() == tick.is_none(),
        TaskLook::Made(name, stack, r1, pri) => {
            task.name.bytes() == name
                && (task.stack, task.regs.gpr[1], task.pri.get()) == (stack, r1, pri)
        }
        TaskLook::Begins(pc, lr, words) => {
            task.regs.pc == pc && task.regs.lr == lr && registers(task.regs.gpr) == words
        }
    }
}

fn sees_task(bench: &Bench, who: u32, look: TaskLook) -> bool {
    match bench.task(who) {
        Some(task) => sees_in(task, look),
        None => false,
    }
}

// Whether the four tasks with ids from `first` on have these current priorities.
fn sees_priorities(bench: &Bench, first: u32, priorities: [u32; 4]) -> bool {
    let mut who = first;
    for priority in priorities {
        match bench.task(who) {
            Some(task) if task.pri.get() == priority => who = who.wrapping_add(1),
            _ => return false,
        }
    }
    true
}

fn sees_symbol(bench: &Bench, place: u32, name: &[u8], value: u32, kind: SymKind) -> bool {
    match bench.symbol(place) {
        Some(symbol) => {
            symbol.name.bytes() == name
                && symbol.value == value
                && symbol.kind == kind
                && symbol.global
                && symbol.group == 0
        }
        None => false,
    }
}

// Whether the world shows this.
pub(crate) fn sees(bench: &Bench, look: Look) -> bool {
    match look {
        Look::Word(address, word) => bench.word(address) == Some(word),
        Look::Frame(address, words) => frame(bench, address) == Some(words),
        Look::Output(bytes) => bench.output() == bytes,
        Look::Block(address, bytes) => bench.block(address) == Some(bytes),
        Look::Tasks(n) => bench.tasks() == n,
        Look::Symbols(n) => bench.symbols() == n,
        Look::Symbol(place, name, value, kind) => sees_symbol(bench, place, name, value, kind),
        Look::Task(who, look) => sees_task(bench, who, look),
        Look::Priorities(first, priorities) => sees_priorities(bench, first, priorities),
        Look::Device(slot, is) => bench.has_device(slot) == is,
        Look::Pending(slot, count) => bench.pending(slot) == Some(count),
    }
}
