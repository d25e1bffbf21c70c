//! taskSpawn and sp.

ghost use Rattle.std.specs.Prelude.{◌≡◌, ◌+◌, ◌-◌, ◌^◌, ◌<◌, ◌≤◌, false, [], length};
ghost use Rattle.wind_base.specs.{Limits.{frame_bytes, longest_short_name}, OutBuf.{Added, KeepsSpace}};
ghost use Rattle.mem_partition.specs.Place.{rounded};
ghost use Rattle.kernel_world.specs.{Kept.IsEarly, Seen.{world_seen, world_with}};
ghost use Rattle.call_rows.specs.Spawning.{spawn_parts, spawn_state, after_spawn, after_quick, spawned_if, started as started_lem, stack_bytes as stack_bytes_lem, first_pointer as first_pointer_lem, task_name as task_name_lem, names_after, name_at as name_at_lem, task_wanted as task_wanted_lem, quick_wanted as quick_wanted_lem, spawn_text, quick_text};

use arrayvec::ArrayVec;
use board_mem::Ram;
use itoa::Buffer;
use kernel_world::{Reply, World, gate_address, put_frame, starting_regs};
use mem_partition::{Class, GRAIN, Part, round_up};
use task_block::NewTask;
use wind_base::limits::FRAME_BYTES;
use wind_base::text::{add, add_hex};
use wind_base::{BoardKind, Errno, Gate, OutBuf, Pri, ShortName};
use wind_core::Kern;
use wind_outside::Device;

// The least stack, in bytes.
const LEAST_STACK: u32 = 512;

// The priority of a task that `sp` makes, and its stack in bytes.
const QUICK_PRIORITY: u32 = 100;

const QUICK_STACK: u32 = 20_000;

/// A task to be made.
#[derive(Drop)]
pub struct Wanted {
    /// Its name, if it has one.
    pub name: Option<ShortName>,
    /// Its priority.
    pub pri: Pri,
    /// The size of its stack, in bytes.
    pub stack: u32,
    /// The address at which it begins.
    pub start: u32,
    /// Its arguments.
    pub words: [u32; 10],
}

// The name that an address means: none at 0, else the first bytes of the string there. `None` if it
// can't be read.
fn name_at(ram: &Ram, address: u32) -> Option<Option<ShortName>>
    ensures { result ≡ name_at_lem ram.now.bytes address }
{
    if address == 0 {
        return Some(None);
    }
    match ram.string(address) {
        Some(name) => Some(Some(ShortName::cut(name.bytes()))),
        None => None,
    }
}

// The task that taskSpawn asks for; its name is at an address. Refused if the priority is above
// 255, then if the name or an argument can't be read.
fn task_wanted(
    ram: &Ram,
    name: u32,
    priority: u32,
    stack: u32,
    start: u32,
    arguments: Option<[u32; 10]>,
) -> Result<Wanted, Errno>
    ensures { result ≡ task_wanted_lem ram.now.bytes name priority stack start arguments }
{
    let Some(pri) = Pri::new(priority) else {
        return Err(Errno::IllegalPriority);
    };
    let Some(name) = name_at(ram, name) else {
        return Err(Errno::BadAddress);
    };
    let Some(words) = arguments else {
        return Err(Errno::BadAddress);
    };
    Ok(Wanted {
        name,
        pri,
        stack,
        start,
        words,
    })
}

// The priority of a task that `sp` makes.
fn quick_priority() -> Pri
    ensures { result ≡ 100 }
{
    match Pri::new(QUICK_PRIORITY) {
        Some(pri) => pri,
        None => unreachable!(),
    }
}

// The task that sp asks for. Refused if an argument can't be read.
fn quick_wanted(start: u32, arguments: Option<[u32; 10]>) -> Result<Wanted, Errno>
    ensures { result ≡ quick_wanted_lem start arguments }
{
    let Some(words) = arguments else {
        return Err(Errno::BadAddress);
    };
    Ok(Wanted {
        name: None,
        pri: quick_priority(),
        stack: QUICK_STACK,
        start,
        words,
    })
}

// A `t` followed by a number.
fn numbered(number: u64) -> ShortName
    ensures { result ≡ task_name_lem None number }
{
    let mut digits = Buffer::new();
    let mut name: ArrayVec<u8, 31> = ArrayVec::new();
    let _ = name.try_extend_from_slice(b"t");
    let _ = name.try_extend_from_slice(digits.format(number).as_bytes());
    ShortName::cut(name.as_slice())
}

// The name given to a task; without one, a `t` followed by the next number.
fn take_name(name: Option<ShortName>, names: &mut u64) -> ShortName
    requires { names.old + 1 < 2 ^ 64 }
    ensures name { result ≡ task_name_lem name names.old }
    ensures names { names.new ≡ names_after name names.old }
{
    match name {
        Some(name) => name,
        None => {
            let number = *names;
            *names = number + 1;
            numbered(number)
        }
    }
}

// The bytes that the partition is asked for, if a task asks for a stack of `bytes`.
fn stack_bytes(bytes: u32) -> u32
    ensures { result ≡ stack_bytes_lem bytes }
{
    bytes.max(LEAST_STACK)
}

// The size of the block that the partition gave for `bytes`, in bytes.
fn block_size(bytes: u32) -> u32
    requires within { rounded bytes < 2 ^ 32 }
    ensures { result ≡ rounded bytes }
{
    round_up(bytes) as u32
}

// r1 at the start of a task: one frame below the end of its stack.
fn first_pointer(address: u32, size: u32) -> u32
    requires least { 64 ≤ size }
    requires within { address + size < 2 ^ 32 }
    ensures { result ≡ address + size - frame_bytes }
{
    address + (size - FRAME_BYTES)
}

// The task, with its stack of this size at an address, on a board of this kind.
fn started(
    wanted: Wanted,
    names: &mut u64,
    address: u32,
    size: u32,
    pointer: u32,
    board: BoardKind,
) -> NewTask
    requires names { names.old + 1 < 2 ^ 64 }
    requires size { size ≡ rounded (stack_bytes_lem wanted.stack) }
    requires pointer { pointer ≡ first_pointer_lem address (stack_bytes_lem wanted.stack) }
    ensures task { result ≡ started_lem board wanted names.old address }
    ensures names { names.new ≡ names_after wanted.name names.old }
{
    let Wanted {
        name,
        pri,
        start,
        words,
        ..
    } = wanted;
    let link = gate_address(board, Gate::TaskReturn);
    NewTask {
        name: take_name(name, names),
        entry: start,
        stack: address,
        stack_size: size,
        pri,
        regs: starting_regs(pointer, link, start, &words),
    }
}

// Makes the task on a board of this kind, unless the request was refused. If it is refused,
// nothing changes.
fn spawn(
    kern: &mut Kern,
    part: &mut Part,
    ram: &mut Ram,
    names: &mut u64,
    wanted: Result<Wanted, Errno>,
    board: BoardKind,
) -> Reply
    requires home { kern.old.lent ≡ false }
    requires since { kern.old.next_since + 1 < 2 ^ 64 }
    requires names { names.old + 1 < 2 ^ 64 }
    requires end { part.old.end < 2 ^ 32 }
    ensures kern { kern.new
        ≡ (spawned_if (spawn_parts board kern.old part.old ram.old.bytes names.old) wanted).after.kern }
    ensures part { part.new
        ≡ (spawned_if (spawn_parts board kern.old part.old ram.old.bytes names.old) wanted).after.part }
    ensures ram { ram.new.bytes
        ≡ (spawned_if (spawn_parts board kern.old part.old ram.old.bytes names.old) wanted).after.ram }
    ensures names { names.new
        ≡ (spawned_if (spawn_parts board kern.old part.old ram.old.bytes names.old) wanted).after.names }
    ensures reply { result
        ≡ (spawned_if (spawn_parts board kern.old part.old ram.old.bytes names.old) wanted).reply }
{
    let wanted = match wanted {
        Ok(wanted) => wanted,
        Err(errno) => return Reply::Refusal(errno),
    };
    if let Some(refusal) = kern.spawn_refusal() {
        return Reply::Refusal(refusal);
    }
    let bytes = stack_bytes(wanted.stack);
    let Ok(address) = part.alloc(bytes, GRAIN, Class::Kernel) else {
        return Reply::Refusal(Errno::NotEnoughMemory);
    };
    let size = block_size(bytes);
    let pointer = first_pointer(address, size);
    put_frame(ram, pointer, &wanted.words);
    let task = started(wanted, names, address, size, pointer, board);
    let Ok(id) = kern.spawn_record(task) else {
        unreachable!()
    };
    Reply::Answer(id.get())
}

// Makes the task in the world, unless the request was refused. If it is refused, nothing changes.
fn spawn_in(w: &mut World, wanted: Result<Wanted, Errno>) -> Reply
    requires home { w.old.kern.lent ≡ false }
    requires since { w.old.kern.next_since + 1 < 2 ^ 64 }
    requires names { w.old.names + 1 < 2 ^ 64 }
    requires end { w.old.part.end < 2 ^ 32 }
    ensures world { world_seen ⟦<dyn Device as Device>⟧ w.new ≡ after_spawn (world_seen ⟦<dyn Device as Device>⟧ w.old)
        (spawned_if (spawn_state (world_seen ⟦<dyn Device as Device>⟧ w.old)) wanted).after }
    ensures reply { result ≡ (spawned_if (spawn_state (world_seen ⟦<dyn Device as Device>⟧ w.old)) wanted).reply }
    ensures out { w.new.out ≡ w.old.out }
{
    spawn(
        &mut w.kern,
        &mut w.part,
        &mut w.bus.ram,
        &mut w.names,
        wanted,
        w.board,
    )
}

// Adds the line that reports a spawn.
#[tactic(auto, unfolding(crate::specs::Spawning::spawn_text))]
fn add_spawn(out: &mut OutBuf, id: u32, name: &[u8])
    requires name { length name.now ≤ longest_short_name }
    requires room { 128 ≤ out.old.room }
    ensures { Added 128 out.old out.new (spawn_text id name.now) }
{
    add(out, b"task spawned: id = 0x");
    add_hex(out, id);
    add(out, b", name = ");
    add(out, name);
    add(out, b"\n");
}

// Reports the task that sp made, named with the number that it took. If sp was refused, it writes
// nothing.
fn tell_spawn(out: &mut OutBuf, number: u64, reply: Reply)
    requires { 128 ≤ out.old.room }
    ensures { Added 128 out.old out.new (quick_text number reply) }
{
    if let Reply::Answer(id) = reply {
        add_spawn(out, id, numbered(number).bytes());
    }
}

/// taskSpawn: makes a task with the name at an address, this priority, a stack of at least `stack`
/// bytes, and an entry with ten arguments. Refused if the priority is above 255, then if the name
/// or an argument can't be read, then if no more tasks may live or no id is left, then if the
/// partition has no room for the stack.
pub fn spawn_task(
    w: &mut World,
    name: u32,
    priority: u32,
    stack: u32,
    entry: u32,
    arguments: Option<[u32; 10]>,
) -> Reply
    requires home { w.old.kern.lent ≡ false }
    requires end { w.old.part.end < 2 ^ 32 }
    requires early { IsEarly (world_with [] w.old) }
    ensures world { world_seen ⟦<dyn Device as Device>⟧ w.new ≡ after_spawn (world_seen ⟦<dyn Device as Device>⟧ w.old)
        (spawned_if (spawn_state (world_seen ⟦<dyn Device as Device>⟧ w.old))
        (task_wanted_lem w.old.bus.ram.bytes name priority stack entry arguments)).after }
    ensures reply { result ≡ (spawned_if (spawn_state (world_seen ⟦<dyn Device as Device>⟧ w.old))
        (task_wanted_lem w.old.bus.ram.bytes name priority stack entry arguments)).reply }
    ensures out { w.new.out ≡ w.old.out }
{
    let wanted = task_wanted(&w.bus.ram, name, priority, stack, entry, arguments);
    spawn_in(w, wanted)
}

/// sp: makes a task without a name, of priority 100, with a stack of 20,000 bytes and an entry with
/// ten arguments, and writes the line that reports the task. Refused if an argument can't be read,
/// then as taskSpawn.
pub fn spawn_quickly(w: &mut World, entry: u32, arguments: Option<[u32; 10]>) -> Reply
    requires home { w.old.kern.lent ≡ false }
    requires end { w.old.part.end < 2 ^ 32 }
    requires early { IsEarly (world_with [] w.old) }
    requires room { 128 ≤ w.old.out.room }
    ensures world { world_seen ⟦<dyn Device as Device>⟧ w.new ≡ after_quick (world_seen ⟦<dyn Device as Device>⟧ w.old)
        (spawned_if (spawn_state (world_seen ⟦<dyn Device as Device>⟧ w.old)) (quick_wanted_lem entry arguments)) }
    ensures reply { result ≡ (spawned_if (spawn_state (world_seen ⟦<dyn Device as Device>⟧ w.old))
        (quick_wanted_lem entry arguments)).reply }
    ensures space { KeepsSpace w.old.out w.new.out }
{
    let number = w.names;
    let wanted = quick_wanted(entry, arguments);
    let reply = spawn_in(w, wanted);
    tell_spawn(&mut w.out, number, reply);
    reply
}
