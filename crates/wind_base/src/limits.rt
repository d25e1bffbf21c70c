//! The limits of the board and of a run. They are this project's own. An object, file or count that
//! would exceed its limit is refused, and the message names the limit. A line, a stored name and a
//! printed text are truncated, as the truncating call says.

/// The size of RAM in bytes: 16 MiB. RAM begins at address 0.
pub const RAM_BYTES: u32 = 0x0100_0000;

/// The address at which the memory partition's pool begins. The pool ends with RAM.
pub const POOL_START: u32 = 0x0001_0000;

/// The size in bytes of the stack of the shell's task, which is the first block of the pool.
pub const SHELL_STACK_BYTES: u32 = 20_000;

/// The size in bytes of the interrupt stack, which is the second block of the pool.
pub const INTERRUPT_STACK_BYTES: u32 = 4096;

/// The bytes at the end of a stack that hold the frame of the first call on it.
pub const FRAME_BYTES: u32 = 64;

/// The address of the first gate, right after RAM.
pub const GATES_START: u32 = 0x0100_0000;

/// The size of a gate in bytes.
pub const GATE_BYTES: u32 = 16;

/// The address of the first device slot.
pub const SLOTS_START: u32 = 0xe000_0000;

/// The size of a device slot in bytes.
pub const SLOT_BYTES: u32 = 0x1000;

/// The greatest number of live tasks.
pub const TASKS: u32 = 256;

/// The greatest number of binary and counting semaphores together.
pub const SEMAPHORES: u32 = 1024;

/// The greatest number of mutexes.
pub const MUTEXES: u32 = 1024;

/// The greatest number of message queues.
pub const QUEUES: u32 = 256;

/// The greatest number of watchdog timers.
pub const WATCHDOGS: u32 = 256;

/// The greatest number of loaded modules.
pub const MODULES: u32 = 256;

/// The greatest number of entries in the symbol table.
pub const SYMBOLS: u32 = 65_536;

/// The greatest number of blocks in the memory partition.
pub const BLOCKS: u32 = 16_384;

/// The number of ids for tasks, semaphores, queues, watchdogs and modules together. An id is never
/// reused.
pub const IDS: u32 = 1_048_576;

/// The least urgent priority; 0 is the most urgent.
pub const LEAST_URGENT: u32 = 255;

/// The greatest length in bytes of a console file and of a tick file: 1 MiB each.
pub const TEXT_FILE_BYTES: u32 = 1_048_576;

/// The greatest length in bytes of a module file: 4 MiB.
pub const MODULE_FILE_BYTES: u32 = 4_194_304;

/// The greatest number of steps that a run may be given.
pub const STEPS: u64 = 1_000_000_000_000;

/// The greatest number of bytes that one `printf` writes.
pub const PRINTF_BYTES: u32 = 4096;

/// The greatest length in bytes of a string that a kernel call reads from memory, without its
/// terminating zero.
pub const STRING_BYTES: u32 = 1023;

/// The greatest number of device slots of a board.
pub const SLOTS: usize = 16;

/// The greatest number of routines that may be connected to the interrupts of one slot's device.
pub const CONNECTIONS: usize = 4;

/// The greatest length in bytes of the console line that is being edited, without its end.
pub const LINE_BYTES: usize = 255;

/// The greatest number of bytes of finished console lines that are stored, each with its end.
pub const KEPT_BYTES: usize = 4096;

/// The greatest number of bytes of the console file that arrive at once, without a supplied end.
pub const CHUNK_BYTES: usize = 4096;

/// The greatest length in bytes of the name of a task, or of another short name.
pub const SHORT_NAME_BYTES: usize = 31;

/// The greatest length in bytes of the name of a module or symbol.
pub const NAME_BYTES: usize = 255;

/// The greatest number of section headers of an object file.
pub const SECTION_HEADERS: u32 = 4096;

/// The greatest number of entries in an object file's symbol table, including entry 0.
pub const SYMBOL_ENTRIES: u32 = 65_536;

/// The greatest number of relocations of an object file's loaded sections together.
pub const RELOCATIONS: u32 = 1_048_576;

/// The greatest size in bytes of a loaded section, and of a common symbol: 16 MiB.
pub const SECTION_BYTES: u32 = 16_777_216;
