//! Packets.

use debug_wire::{Bytes, ThreadId};

/// Some bytes: of the memory, of an object or of a file.
#[derive(Clone, Copy, Debug, PartialEq, Eq)]
pub struct Range {
    /// The address or offset of the first.
    pub at: u64,
    /// How many they are.
    pub count: u64,
}

/// What a thread is named for.
#[derive(Clone, Copy, Debug, PartialEq, Eq)]
pub enum Purpose {
    /// Its registers are told.
    Registers,
    /// It steps.
    Steps,
}

/// A move of the session.
#[derive(Clone, Copy, Debug, PartialEq, Eq)]
pub enum Way {
    /// One step forward.
    Step,
    /// Forward to the next stop.
    Continue,
    /// One step back.
    StepBack,
    /// Back to the last stop.
    ContinueBack,
}

/// Where a session stops.
#[derive(Clone, Copy, Debug, PartialEq, Eq)]
pub enum Point {
    /// Before a step at this address.
    Break(u64),
    /// After a step that changes one of these bytes.
    Watch(Range),
}

/// A text that is transferred in parts.
#[derive(Clone, Copy, Debug, PartialEq, Eq)]
pub enum Object {
    /// The registers of the target.
    Features,
    /// The threads.
    Threads,
    /// The loaded modules.
    Libraries,
    /// The map of the memory.
    MemoryMap,
    /// The name of the file with the symbols of the gates.
    ExecFile,
}

/// A request about the files of the target.
#[derive(Drop)]
pub enum FileRequest {
    /// The process whose files are meant.
    SetRoot(u64),
    /// Opens the file of this name.
    Open(Bytes),
    /// Bytes of an open file.
    Read(u64, Range),
    /// The status of an open file.
    Status(u64),
    /// Closes an open file.
    Close(u64),
}

/// A command after `monitor`.
#[derive(Clone, Copy, Debug, PartialEq, Eq)]
pub enum Command {
    /// The number of the step, board time and the tick.
    Step,
    /// The next move goes to this step.
    GoTo(u64),
    /// The table of the tasks, as the shell's `i`.
    Tasks,
    /// The console's output so far.
    Console,
    /// The last events, at most so many.
    Events(u64),
    /// Any other text.
    Help,
}

/// What a packet asks.
#[derive(Drop)]
pub enum Packet {
    /// What both sides support.
    Supported,
    /// Why the session is stopped.
    WhyStopped,
    /// The registers of the thread that was named for them.
    Registers,
    /// Bytes of the memory.
    Memory(Range),
    /// A write of memory or registers.
    Write,
    /// Names a thread.
    SetThread(Purpose, ThreadId),
    /// Whether a thread is there.
    IsAlive(ThreadId),
    /// Moves the session.
    Move(Way),
    /// Sets a point.
    Insert(Point),
    /// Removes a point.
    Remove(Point),
    /// A part of an object.
    Transfer(Object, Range),
    /// A request about files.
    File(FileRequest),
    /// A command of the user.
    Monitor(Command),
    /// Whether the session was there before gdb.
    Attached,
    /// The debugger goes.
    Detach,
    /// The session ends.
    Kill,
    /// Not one of these.
    Unknown,
    /// One of these, but not of its form.
    Malformed,
}
