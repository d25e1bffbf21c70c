//! A call of the kernel as a value: what its caller asks for, by name.

ghost use Rattle.std.specs.Prelude.{◌≡◌};
ghost use Rattle.kernel_world.specs.CallWords.{seven_words as seven_words_lem, two_words as two_words_lem, ten_arguments as ten_arguments_lem, quick_arguments as quick_arguments_lem, seven_values as seven_values_lem, call_of as call_of_lem, gate_of, call_by};
ghost use Rattle.kernel_world.specs.Seen.{world_seen};

use crate::actor::{Actor, found_regs, stack_word};
use crate::world::World;
use board_mem::Ram;
use wind_base::{Gate, gate_table};
use wind_outside::Device;

/// A kernel call. Every field is a word that the caller hands in. Times are in ticks, sizes in
/// bytes, and names, texts and formats are given by their addresses. The last arguments of
/// `taskSpawn` and `sp` are on the caller's stack; they are `None` if a byte of them is outside
/// RAM.
#[derive(Clone, Copy, Debug, PartialEq, Eq)]
pub enum Call {
    /// taskSpawn: makes a task of this name (at an address), priority, stack size in bytes, and
    /// entry with ten arguments. The options aren't used.
    TaskSpawn {
        name: u32,
        priority: u32,
        options: u32,
        stack_size: u32,
        entry: u32,
        arguments: Option<[u32; 10]>,
    },
    /// sp: makes a task without a name, of this entry, with nine arguments; the tenth is 0.
    Sp {
        entry: u32,
        arguments: Option<[u32; 10]>,
    },
    /// taskDelete: deletes a task; 0 is the caller.
    TaskDelete {
        id: u32,
    },
    /// taskSuspend: suspends a task; 0 is the caller.
    TaskSuspend {
        id: u32,
    },
    /// taskResume: resumes a task; 0 is the caller.
    TaskResume {
        id: u32,
    },
    /// taskPrioritySet: sets the priority of a task; 0 is the caller.
    TaskPrioritySet {
        id: u32,
        priority: u32,
    },
    /// taskPriorityGet: puts the priority of a task in the word at an address; 0 is the caller.
    TaskPriorityGet {
        id: u32,
        address: u32,
    },
    /// taskDelay: delays the caller for this many ticks.
    TaskDelay {
        ticks: u32,
    },
    /// taskLock: locks the scheduler once more.
    TaskLock,
    /// taskUnlock: unlocks the scheduler once.
    TaskUnlock,
    /// taskSafe: makes the caller safe from deletion once more.
    TaskSafe,
    /// taskUnsafe: ends one safe section of the caller.
    TaskUnsafe,
    /// taskIdSelf: answers the caller's id.
    TaskIdSelf,
    /// taskIdVerify: answers whether a task with this id lives.
    TaskIdVerify {
        id: u32,
    },
    /// taskNameToId: answers the id of the task with the name at an address.
    TaskNameToId {
        name: u32,
    },
    /// kernelTimeSlice: sets the time slice in ticks; 0 means no time slicing.
    KernelTimeSlice {
        ticks: u32,
    },
    /// tickGet: answers the tick count.
    TickGet,
    /// semBCreate: makes a binary semaphore with these options and this initial state.
    SemBCreate {
        options: u32,
        state: u32,
    },
    /// semCCreate: makes a counting semaphore with these options and this initial count.
    SemCCreate {
        options: u32,
        count: u32,
    },
    /// semMCreate: makes a mutex with these options.
    SemMCreate {
        options: u32,
    },
    /// semTake: takes a semaphore or mutex; the timeout is in ticks.
    SemTake {
        id: u32,
        timeout: u32,
    },
    /// semGive: gives a semaphore or mutex.
    SemGive {
        id: u32,
    },
    /// semFlush: releases all tasks that wait for a semaphore.
    SemFlush {
        id: u32,
    },
    /// semDelete: deletes a semaphore or mutex.
    SemDelete {
        id: u32,
    },
    /// msgQCreate: makes a message queue, with its capacity in messages and in bytes a message.
    MsgQCreate {
        max_msgs: u32,
        max_length: u32,
        options: u32,
    },
    /// msgQSend: sends this many bytes from an address; the timeout is in ticks.
    MsgQSend {
        id: u32,
        buffer: u32,
        count: u32,
        timeout: u32,
        priority: u32,
    },
    /// msgQReceive: receives a message, and puts at most this many of its bytes at an address; the
    /// timeout is in ticks.
    MsgQReceive {
        id: u32,
        buffer: u32,
        count: u32,
        timeout: u32,
    },
    /// msgQDelete: deletes a message queue.
    MsgQDelete {
        id: u32,
    },
    /// msgQNumMsgs: answers how many messages the queue holds.
    MsgQNumMsgs {
        id: u32,
    },
    /// wdCreate: makes a watchdog.
    WdCreate,
    /// wdStart: starts a watchdog, with its delay in ticks, its routine and the routine's
    /// parameter.
    WdStart {
        id: u32,
        delay: u32,
        routine: u32,
        parameter: u32,
    },
    /// wdCancel: cancels a watchdog.
    WdCancel {
        id: u32,
    },
    /// wdDelete: deletes a watchdog.
    WdDelete {
        id: u32,
    },
    /// intLock: holds interrupts back.
    IntLock,
    /// intUnlock: holds interrupts back or not, as the key of intLock says.
    IntUnlock {
        key: u32,
    },
    /// intContext: answers whether the caller is at interrupt level.
    IntContext,
    /// malloc: allocates this many bytes.
    Malloc {
        size: u32,
    },
    /// free: frees the block at an address.
    Free {
        address: u32,
    },
    /// memalign: allocates this many bytes at a multiple of the alignment.
    Memalign {
        align: u32,
        size: u32,
    },
    /// symAdd: adds a symbol, with its name at an address; the group isn't used.
    SymAdd {
        table: u32,
        name: u32,
        value: u32,
        kind: u32,
        group: u32,
    },
    /// printf: writes the format at an address. The first seven values are here; the others start 8
    /// bytes above the stack pointer.
    Printf {
        format: u32,
        values: [u32; 7],
        stack: u32,
    },
    /// errnoGet: answers the caller's last error number.
    ErrnoGet,
    /// errnoSet: sets the caller's last error number.
    ErrnoSet {
        number: u32,
    },
    /// ld: loads the module whose file name is at an address. `symbols` says which symbols are
    /// added; the word for aborting on failure isn't used.
    Ld {
        symbols: u32,
        no_abort: u32,
        name: u32,
    },
    /// unld: unloads a module, given by its id or the address of its name; the options aren't used.
    Unld {
        which: u32,
        options: u32,
    },
    /// i: writes the table of tasks.
    I,
    /// lkup: writes the symbols whose names contain the text at an address; 0 means every name.
    Lkup {
        text: u32,
    },
    /// moduleShow: writes the table of modules.
    ModuleShow,
    /// d: writes this many units, of a width in bytes, from an address on.
    D {
        address: u32,
        units: u32,
        width: u32,
    },
    /// intConnect: connects a routine, with its parameter, to the interrupts of a slot's device.
    IntConnect {
        slot: u32,
        routine: u32,
        parameter: u32,
    },
    /// intDisconnect: disconnects the earliest connection of a routine.
    IntDisconnect {
        slot: u32,
        routine: u32,
    },
    /// intEnable: enables the interrupts of a slot's device.
    IntEnable {
        slot: u32,
    },
    /// intDisable: disables them; they stay pending.
    IntDisable {
        slot: u32,
    },
    /// intPending: answers how many are pending.
    IntPending {
        slot: u32,
    },
    /// devRemove: removes a slot's device.
    DevRemove {
        slot: u32,
    },
}

// The seven words after those in registers.
fn seven_words(ram: &Ram, pointer: u32) -> Option<[u32; 7]>
    ensures { result ≡ seven_words_lem ram.now.bytes pointer }
{
    let a = stack_word(ram, pointer, 0)?;
    let b = stack_word(ram, pointer, 1)?;
    let c = stack_word(ram, pointer, 2)?;
    let d = stack_word(ram, pointer, 3)?;
    let e = stack_word(ram, pointer, 4)?;
    let f = stack_word(ram, pointer, 5)?;
    let g = stack_word(ram, pointer, 6)?;
    Some([a, b, c, d, e, f, g])
}

// The two words after those in registers.
fn two_words(ram: &Ram, pointer: u32) -> Option<[u32; 2]>
    ensures { result ≡ two_words_lem ram.now.bytes pointer }
{
    let a = stack_word(ram, pointer, 0)?;
    let b = stack_word(ram, pointer, 1)?;
    Some([a, b])
}

// The ten arguments of a task that taskSpawn makes: three from registers and seven from the stack.
fn ten_arguments(ram: &Ram, gpr: &[u32; 32]) -> Option<[u32; 10]>
    ensures { result ≡ ten_arguments_lem ram.now.bytes gpr.now }
{
    let [d, e, f, g, h, i, j] = seven_words(ram, gpr[1])?;
    Some([gpr[8], gpr[9], gpr[10], d, e, f, g, h, i, j])
}

// The arguments of a task that sp makes: seven from registers and two from the stack. The tenth is
// 0.
fn quick_arguments(ram: &Ram, gpr: &[u32; 32]) -> Option<[u32; 10]>
    ensures { result ≡ quick_arguments_lem ram.now.bytes gpr.now }
{
    let [h, i] = two_words(ram, gpr[1])?;
    Some([
        gpr[4], gpr[5], gpr[6], gpr[7], gpr[8], gpr[9], gpr[10], h, i, 0,
    ])
}

// The first seven values of printf.
fn seven_values(gpr: &[u32; 32]) -> [u32; 7]
    ensures { result ≡ seven_values_lem gpr.now }
{
    [gpr[4], gpr[5], gpr[6], gpr[7], gpr[8], gpr[9], gpr[10]]
}

// A call, with its arguments: words from these registers, one after the other, and a list of the
// words after them.
macro_rules! call_with {
    ($call:ident () $registers:tt $caller:tt) => {
        Call::$call
    };
    ($call:ident ($($left:tt)*) $registers:tt $caller:tt) => {
        call_with!(@ $call {} $registers $caller $($left)*)
    };
    (@ $call:ident {$($read:tt)*} $registers:tt $caller:tt) => {
        Call::$call { $($read)* }
    };
    (@ $call:ident {$($read:tt)*} $registers:tt ($ram:ident $gpr:ident) $field:ident: Ten) => {
        Call::$call { $($read)* $field: ten_arguments($ram, $gpr) }
    };
    (@ $call:ident {$($read:tt)*} $registers:tt ($ram:ident $gpr:ident) $field:ident: Nine) => {
        Call::$call { $($read)* $field: quick_arguments($ram, $gpr) }
    };
    (@ $call:ident {$($read:tt)*} $registers:tt ($ram:ident $gpr:ident) $field:ident: Seven) => {
        Call::$call { $($read)* $field: seven_values($gpr), stack: $gpr[1] }
    };
    (@ $call:ident {$($read:tt)*} ($register:ident $($others:ident)*) $caller:tt
        $field:ident: $form:ident $(, $($left:tt)*)?
    ) => {
        call_with!(@ $call {$($read)* $field: $register,} ($($others)*) $caller $($($left)*)?)
    };
}

// The call of each gate. None at a return.
macro_rules! calls {
    (($gate:ident $registers:tt $caller:tt)
        $($back:literal $return:ident;)* =>
        $($number:literal $call:ident $name:literal $arguments:tt
            $callers:ident $refusal:ident $memory:literal;)*
    ) => {
        Some(match $gate {
            $(Gate::$return)|* => return None,
            $(Gate::$call => call_with!($call $arguments $registers $caller),)*
        })
    };
}

// The call of a gate, read from its caller's registers and stack. `None` at the return gates.
#[inline(always)]
fn call_of(gate: Gate, ram: &Ram, gpr: &[u32; 32]) -> Option<Call>
    ensures { result ≡ call_of_lem gate ram.now.bytes gpr.now }
{
    let (a, b, c, d, e) = (gpr[3], gpr[4], gpr[5], gpr[6], gpr[7]);
    gate_table!(calls gate (a b c d e) (ram gpr))
}

/// The call that a caller makes at a gate. `None` at the return gates.
#[inline(always)]
pub fn read_call(w: &World, gate: Gate, who: &Actor) -> Option<Call>
    ensures { result ≡ call_by gate (world_seen ⟦<dyn Device as Device>⟧ w.now) who.now }
{
    match found_regs(&w.kern, &w.watch, who) {
        Some(regs) => call_of(gate, &w.bus.ram, &regs.gpr),
        None => call_of(gate, &w.bus.ram, &[0; 32]),
    }
}

// The gate of each call.
macro_rules! gates {
    (($called:expr)
        $($back:literal $return:ident;)* =>
        $($number:literal $call:ident $name:literal $arguments:tt
            $callers:ident $refusal:ident $memory:literal;)*
    ) => {
        match $called {
            $(Call::$call { .. } => Gate::$call,)*
        }
    };
}

impl Call {
    /// The gate of the call.
    pub fn gate(&self) -> Gate
        ensures { result ≡ gate_of self.now }
    {
        gate_table!(gates self)
    }
}
