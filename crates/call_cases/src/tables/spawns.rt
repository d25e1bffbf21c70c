//! taskSpawn and sp, called by the shell's task.

use super::{
    BAD_ADDRESS, ENDLESS, FIRST, FORTY, ILLEGAL_PRIORITY, NO_NAME, NOT_ENOUGH_MEMORY, PUMP,
    RAM_END, TOO_MANY,
};
use crate::bench::{FRAME, SHELL};
use crate::looks::{Look, TaskLook};
use crate::steps::{Step, Table};
use wind_base::words::{ERROR, OK};

// The frame of a caller whose seven words above r1 end at the end of RAM.
const LAST_FRAME: u32 = 0x00ff_ffdc;

// A task begins at its entry, with a return to gate 0 and the words 1 to 8 in r3 to r10; the words
// after them are in its frame.
const EIGHT_WORDS: TaskLook = TaskLook::Begins(
    0x4000,
    0x0100_0000,
    [0, 0, 1, 2, 3, 4, 5, 6, 7, 8, 0],
);

const TWO_MORE: [u32; 16] = [0, 0, 9, 10, 0, 0, 0, 0, 0, 0, 0, 0, 0, 0, 0, 0];

const ONE_MORE: [u32; 16] = [0, 0, 9, 0, 0, 0, 0, 0, 0, 0, 0, 0, 0, 0, 0, 0];

// The words 4 to 10 are above r1. The new frame is cleared.
const TEN_WORDS: [Step; 8] = [
    Step::Write(PUMP, b"pump\0"),
    Step::Write(
        LAST_FRAME + 8,
        b"\0\0\0\x04\0\0\0\x05\0\0\0\x06\0\0\0\x07\0\0\0\x08\0\0\0\x09\0\0\0\x0a",
    ),
    Step::Fill(FIRST + 448, 64, 0xff),
    Step::Spawn(LAST_FRAME, [PUMP, 255, 511], 2, 0),
    Step::See(Look::Task(2, TaskLook::Made(b"pump", FIRST, FIRST + 448, 255))),
    Step::See(Look::Task(2, EIGHT_WORDS)),
    Step::See(Look::Frame(FIRST + 448, TWO_MORE)),
    Step::See(Look::Output(b"")),
];

// A stack has at least 512 bytes, rounded up to 16; a name has at most 31 bytes.
const STACKS: [Step; 12] = [
    Step::Write(PUMP, b"pump\0"),
    Step::Write(FORTY, b"0123456789012345678901234567890123456789\0"),
    Step::Spawn(FRAME, [FORTY, 7, 0], 2, 0),
    Step::See(Look::Task(
        2,
        TaskLook::Made(b"0123456789012345678901234567890", FIRST, FIRST + 448, 7),
    )),
    Step::Spawn(FRAME, [0, 7, 513], 3, 0),
    Step::See(Look::Task(3, TaskLook::Made(b"t1", FIRST + 512, FIRST + 976, 7))),
    Step::Spawn(FRAME, [NO_NAME, 0, 512], 4, 0),
    Step::See(Look::Task(4, TaskLook::Made(b"", FIRST + 1040, FIRST + 1488, 0))),
    Step::Spawn(FRAME, [0, 7, 0], 5, 0),
    Step::See(Look::Task(5, TaskLook::Made(b"t2", FIRST + 1552, FIRST + 2000, 7))),
    Step::Spawn(FRAME, [PUMP, 7, 20_000], 6, 0),
    Step::See(Look::Task(6, TaskLook::Made(b"pump", FIRST + 2064, FIRST + 22_000, 7))),
];

// Each refusal is also played when a later one would apply too. A refusal takes no block, no id
// and no number of a name.
const REFUSED: [Step; 12] = [
    Step::Write(PUMP, b"pump\0"),
    Step::Fill(ENDLESS, 1024, b'e'),
    Step::Spawn(
        LAST_FRAME + 1,
        [RAM_END, 256, RAM_END],
        ERROR,
        ILLEGAL_PRIORITY,
    ),
    Step::Spawn(FRAME, [RAM_END, 255, RAM_END], ERROR, BAD_ADDRESS),
    Step::Spawn(FRAME, [0, 256, 0], ERROR, ILLEGAL_PRIORITY),
    Step::Spawn(FRAME, [ENDLESS, 0, 0], ERROR, BAD_ADDRESS),
    Step::Spawn(FRAME, [0, 0, RAM_END], ERROR, NOT_ENOUGH_MEMORY),
    Step::Spawn(LAST_FRAME + 1, [PUMP, 0, RAM_END], ERROR, BAD_ADDRESS),
    Step::Spawn(FRAME, [0, 0, 0xffff_ffff], ERROR, NOT_ENOUGH_MEMORY),
    Step::Spawn(FRAME, [0, 100, 0], 2, NOT_ENOUGH_MEMORY),
    Step::See(Look::Task(2, TaskLook::Made(b"t1", FIRST, FIRST + 448, 100))),
    Step::See(Look::Tasks(2)),
];

// The two words above r1; at first the second is outside RAM.
const QUICK: [Step; 8] = [
    Step::Write(RAM_END - 8, b"\0\0\0\x08\0\0\0\x09"),
    Step::Quick(RAM_END - 15, ERROR, BAD_ADDRESS),
    Step::See(Look::Output(b"")),
    Step::Quick(RAM_END - 16, 2, BAD_ADDRESS),
    Step::See(Look::Task(2, TaskLook::Made(b"t1", FIRST, FIRST + 19_936, 100))),
    Step::See(Look::Task(2, EIGHT_WORDS)),
    Step::See(Look::Frame(FIRST + 19_936, ONE_MORE)),
    Step::See(Look::Output(b"task spawned: id = 0x2, name = t1\n")),
];

// At most 256 tasks live, with the shell's task. The partition is checked after that
// limit, and addresses before it. A task that ends frees its place and its stack.
const TASKS_FULL: [Step; 10] = [
    Step::SpawnAll(2, 255),
    Step::Spawn(FRAME, [0, 0, RAM_END], ERROR, TOO_MANY),
    Step::Spawn(FRAME, [RAM_END, 0, 0], ERROR, BAD_ADDRESS),
    Step::Quick(FRAME, ERROR, TOO_MANY),
    Step::See(Look::Tasks(256)),
    Step::See(Look::Task(
        256,
        TaskLook::Made(b"t255", FIRST + 130_048, FIRST + 130_496, 100),
    )),
    Step::End(2),
    Step::See(Look::Tasks(255)),
    Step::Spawn(FRAME, [0, 100, 0], 257, TOO_MANY),
    Step::See(Look::Task(257, TaskLook::Made(b"t256", FIRST, FIRST + 448, 100))),
];

// All but 496 bytes are in a block.
const PARTITION_FULL: [Step; 6] = [
    call!(SHELL, Malloc(RAM_END - FIRST - 496) => FIRST, 0),
    Step::Spawn(FRAME, [0, 100, 0], ERROR, NOT_ENOUGH_MEMORY),
    Step::Quick(FRAME, ERROR, NOT_ENOUGH_MEMORY),
    call!(SHELL, Malloc(496) => RAM_END - 496, NOT_ENOUGH_MEMORY),
    call!(SHELL, Free(FIRST) => OK, NOT_ENOUGH_MEMORY),
    Step::Spawn(FRAME, [0, 100, 0], 2, NOT_ENOUGH_MEMORY),
];

// Tasks 2 and 3 have the same name.
const NAMESAKES: [Step; 8] = [
    Step::Write(PUMP, b"pump\0"),
    Step::Spawn(FRAME, [PUMP, 100, 0], 2, 0),
    Step::Spawn(FRAME, [PUMP, 5, 0], 3, 0),
    call!(SHELL, TaskNameToId(PUMP) => 2, 0),
    call!(3, TaskNameToId(PUMP) => 2, 0),
    call!(3, TaskIdSelf() => 3, 0),
    Step::End(2),
    call!(SHELL, TaskNameToId(PUMP) => 3, 0),
];

pub(super) const TABLES: [Table; 7] = [
    Table {
        name: "a spawned task begins with ten words",
        steps: &TEN_WORDS,
    },
    Table {
        name: "a name and a stack are made of what is asked for",
        steps: &STACKS,
    },
    Table {
        name: "a spawn is refused in order",
        steps: &REFUSED,
    },
    Table {
        name: "a quick task is told",
        steps: &QUICK,
    },
    Table {
        name: "there are 256 tasks at most",
        steps: &TASKS_FULL,
    },
    Table {
        name: "a full partition has no stack",
        steps: &PARTITION_FULL,
    },
    Table {
        name: "the least id of a name is found",
        steps: &NAMESAKES,
    },
];
