//! The calls on the kernel's tasks and counters.

ghost use Rattle.std.specs.Prelude.{◌≡◌, ◌+◌, ◌^◌, ◌<◌};
ghost use Rattle.std.specs.List.{All};
ghost use Rattle.wind_core.specs.{State.{KernState, task_of}, Moves.live_id};
ghost use Rattle.kernel_world.specs.Actors.{Acts, target as target_lem};
ghost use Rattle.call_rows.specs.TaskRows.{row_of, task_at, priority_in, suspend_row, resume_row, delay_row, lock_row, unlock_row, self_row, verify_row, name_row, slice_row, tick_row, locks_of, mark_of, int_lock_row, int_unlock_row, int_context_row};
ghost use Rattle.board_mem.specs.Memory.{string_at};

use board_mem::Ram;
use id_table::Ident;
use kernel_world::{Actor, DONE, Reply, target};
use wind_base::Errno;
use wind_core::Kern;

/// taskSuspend: suspends the task with this id. Refused if no such task lives.
pub fn suspend(kern: &mut Kern, who: Actor, id: u32) -> Reply
    requires { Acts kern.old who }
    ensures row { row_of kern.new result ≡ suspend_row kern.old (target_lem kern.old who id) }
{
    let Some(id) = target(kern, who, id) else {
        return Reply::Refusal(Errno::ObjIdError);
    };
    kern.suspend(id);
    DONE
}

/// taskResume: resumes the task with this id. Refused if no such task lives.
pub fn resume(kern: &mut Kern, who: Actor, id: u32) -> Reply
    requires live { Acts kern.old who }
    requires since { kern.old.next_since + 1 < 2 ^ 64 }
    ensures row { row_of kern.new result ≡ resume_row kern.old (target_lem kern.old who id) }
{
    let Some(id) = target(kern, who, id) else {
        return Reply::Refusal(Errno::ObjIdError);
    };
    kern.resume(id);
    DONE
}

/// taskPriorityGet: puts the priority of the task with this id into the word at an address. Refused
/// if no such task lives, then if the word isn't in RAM.
pub fn get_priority(kern: &Kern, ram: &mut Ram, who: Actor, id: u32, address: u32) -> Reply
    requires { Acts kern.now who }
    ensures ram { ram.new.bytes
        ≡ (priority_in ram.old.bytes address (task_at kern.now (target_lem kern.now who id))).ram }
    ensures reply { result
        ≡ (priority_in ram.old.bytes address (task_at kern.now (target_lem kern.now who id))).reply }
{
    let Some(id) = target(kern, who, id) else {
        return Reply::Refusal(Errno::ObjIdError);
    };
    let Some(task) = kern.task(id) else {
        return Reply::Refusal(Errno::ObjIdError);
    };
    match ram.write32(address, task.pri.get()) {
        Ok(()) => DONE,
        Err(_) => Reply::Refusal(Errno::BadAddress),
    }
}

/// taskDelay, from a task: delays the caller for `ticks` ticks. It is answered when the delay ends,
/// or at once at 0. Refused at interrupt level.
pub fn delay(kern: &mut Kern, who: Actor, ticks: u32) -> Reply
    requires live { Acts kern.old who }
    requires since { kern.old.next_since + 1 < 2 ^ 64 }
    requires tick { kern.old.tick < 2 ^ 63 }
    ensures row { row_of kern.new result ≡ delay_row kern.old who ticks }
{
    let Actor::Task(who) = who else {
        return Reply::Refusal(Errno::NotIsrCallable);
    };
    kern.delay(who, ticks);
    if ticks == 0 { DONE } else { Reply::Later }
}

// How often the task has locked the scheduler and not unlocked it.
fn locks(kern: &Kern, who: Ident) -> u64
    ensures { result ≡ locks_of kern.now who }
{
    match kern.task(who) {
        Some(task) => task.locks,
        None => 0,
    }
}

/// taskLock, from a task: locks the scheduler once more. Refused at interrupt level.
#[tactic(auto, using(crate::proofs::Counts::locks_below))]
pub fn lock(kern: &mut Kern, who: Actor) -> Reply
    requires live { Acts kern.old who }
    requires locks { All (λ t. t.locks < 2 ^ 60) kern.old.tasks }
    ensures row { row_of kern.new result ≡ lock_row kern.old who }
{
    let Actor::Task(who) = who else {
        return Reply::Refusal(Errno::NotIsrCallable);
    };
    let locks = locks(kern, who);
    kern.set_locks(who, locks + 1);
    DONE
}

/// taskUnlock, from a task: unlocks the scheduler once, if it is locked. Refused at interrupt
/// level.
pub fn unlock(kern: &mut Kern, who: Actor) -> Reply
    requires { Acts kern.old who }
    ensures row { row_of kern.new result ≡ unlock_row kern.old who }
{
    let Actor::Task(who) = who else {
        return Reply::Refusal(Errno::NotIsrCallable);
    };
    let locks = locks(kern, who);
    kern.set_locks(who, locks.saturating_sub(1));
    DONE
}

/// taskIdSelf, from a task: answers its id. Refused at interrupt level.
pub fn own_id(who: Actor) -> Reply
    ensures { (k : KernState) → result ≡ (self_row k who).reply }
{
    match who {
        Actor::Task(id) => Reply::Answer(id.get()),
        Actor::Interrupt => Reply::Refusal(Errno::NotIsrCallable),
    }
}

/// taskIdVerify: answers OK if a task with this id lives. Refused if none does.
pub fn verify(kern: &Kern, id: u32) -> Reply
    ensures { result ≡ (verify_row kern.now (live_id kern.now.tasks id)).reply }
{
    match kern.find(id) {
        Some(_) => DONE,
        None => Reply::Refusal(Errno::ObjIdError),
    }
}

/// kernelTimeSlice: sets the time slice of a task in ticks; 0 means no time slicing.
pub fn slice(kern: &mut Kern, ticks: u32) -> Reply
    ensures row { row_of kern.new result ≡ slice_row kern.old ticks }
{
    kern.time_slice(ticks);
    DONE
}

/// tickGet: answers the low word of the tick count.
pub fn ticks(kern: &Kern) -> Reply
    ensures { result ≡ (tick_row kern.now).reply }
{
    Reply::Answer((kern.ticks() % 0x1_0000_0000) as u32)
}

/// taskNameToId: answers the least id of a task with the name at an address. Refused if no string
/// is there, then if no task has that name.
pub fn task_of_name(kern: &Kern, ram: &Ram, address: u32) -> Reply
    ensures { result ≡ (name_row kern.now (string_at ram.now.bytes address)).reply }
{
    let Some(name) = ram.string(address) else {
        return Reply::Refusal(Errno::BadAddress);
    };
    match kern.named(name.bytes()) {
        Some(id) => Reply::Answer(id.get()),
        None => Reply::Refusal(Errno::TaskNotFound),
    }
}

// Whether the task holds interrupts back.
fn mark(kern: &Kern, who: Ident) -> bool
    ensures { result ≡ mark_of (task_of kern.now.tasks who) }
{
    match kern.task(who) {
        Some(task) => task.int_locked,
        None => false,
    }
}

/// intLock: holds interrupts back. It answers 1 if they were held back before, as they always are
/// in a routine, else 0.
pub fn lock_interrupts(kern: &mut Kern, who: Actor) -> Reply
    requires { Acts kern.old who }
    ensures row { row_of kern.new result ≡ int_lock_row kern.old who }
{
    let Actor::Task(who) = who else {
        return Reply::Answer(1);
    };
    let mark = mark(kern, who);
    kern.set_int_locked(who, true);
    Reply::Answer(if mark { 1 } else { 0 })
}

/// intUnlock: the task holds interrupts back if the lowest bit of the key is 1, else not.
pub fn unlock_interrupts(kern: &mut Kern, who: Actor, key: u32) -> Reply
    requires { Acts kern.old who }
    ensures row { row_of kern.new result ≡ int_unlock_row kern.old who key }
{
    if let Actor::Task(who) = who {
        kern.set_int_locked(who, key % 2 == 1);
    }
    DONE
}

/// intContext: answers 1 at interrupt level, else 0.
pub fn context(who: Actor) -> Reply
    ensures { (k : KernState) → result ≡ (int_context_row k who).reply }
{
    match who {
        Actor::Task(_) => Reply::Answer(0),
        Actor::Interrupt => Reply::Answer(1),
    }
}
