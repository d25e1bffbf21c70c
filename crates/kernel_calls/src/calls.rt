//! A kernel call: the gate that it leaves, its refusals and its answer.

ghost use Rattle.std.specs.Prelude.{◌≡◌, ℕ, ◌<◌, ◌≤◌, [], true, false, None, Some, IfOk, IfSome, OnOk, OnErr};
ghost use Rattle.wind_base.specs.OutBuf.{KeepsSpace};
ghost use Rattle.id_table.specs.Idents.{shell_id};
ghost use Rattle.wind_core.specs.State.{Lives};
ghost use Rattle.call_rows.specs.{KernelWorldActors.{Acts, MayCall, is_interrupt as is_interrupt_lem}, KernelWorldKept.{IsWorld, IsEarly}, KernelWorldAllowed.may_exhaust_memory, KernelWorldSeen.{world_seen, world_with}};
ghost use Rattle.kernel_calls.specs.{Standing.{counter_of, standing_at}, Removing.{Removes, OnlyRemoves, IsNoneBack}, Calls.{refusal_before as refusal_before_lem, with_reply, outcome_by, outcome as outcome_lem, made, call, file_wanted as file_wanted_lem, is_made, asked_for}, Space.{makes_room, HoldsSpace}};
ghost use Rattle.kernel_calls.specs.declared.calls.Called.TheVariants as called;

use crate::files::file_wanted;
use crate::rows::row;
use call_rows::{
    Actor, Reply, World, is_isr_callable, is_shell, is_shells_own, leave_gate, read_call, reply_to,
};
use std::alloc::Global;
use wind_base::{Errno, Gate, Name, NoMemory};
use wind_outside::Device;

/// What a kernel call answers to the board.
#[derive(Drop)]
pub enum Called {
    /// The call is done, and its caller is answered.
    Done,
    /// The caller pends or is delayed. It is answered when that ends.
    Pended,
    /// The caller has ended.
    Ended,
    /// The call needs the file with this name, and is to be made again with the answer about it.
    /// The world is as it was before.
    NeedsFile(Name),
    /// Host memory ran out. The world is as it was before.
    NoMemory,
}

// Whether the caller is the interrupt level.
fn is_interrupt(who: &Actor) -> bool
    ensures { result ≡ is_interrupt_lem who.now }
{
    matches!(who, Actor::Interrupt)
}

// Why this caller may not make the call at all.
fn refusal_before(gate: Gate, who: &Actor) -> Option<Errno>
    ensures { result ≡ refusal_before_lem gate who.now }
{
    if is_interrupt(who) && !is_isr_callable(gate) {
        return Some(Errno::NotIsrCallable);
    }
    if is_shells_own(gate) && !is_shell(who) {
        return Some(Errno::NotShell);
    }
    None
}

// What the board is told after a reply.
fn outcome(reply: &Reply) -> Called
    ensures answer { result ≡ outcome_by reply.now }
    ensures made { is_made result ≡ true }
{
    match reply {
        Reply::Answer(_) | Reply::Refusal(_) => Called::Done,
        Reply::Later => Called::Pended,
        Reply::Gone => Called::Ended,
    }
}

// The program counter of a caller that is a task. With it, the task can be put back at its gate.
fn counter(w: &World, who: &Actor) -> u32
    ensures { result ≡ counter_of (world_seen ⟦<dyn Device as Device>⟧ w.now) who.now }
{
    match who {
        Actor::Task(id) => match w.kern.task(*id) {
            Some(task) => task.regs.pc,
            None => 0,
        },
        Actor::Interrupt => 0,
    }
}

// Puts a task that has left its gate back there.
fn stand_again(w: &mut World, who: &Actor, pc: u32)
    requires { Acts w.old.kern who.now }
    ensures world { world_seen ⟦<dyn Device as Device>⟧ w.new
        ≡ standing_at (world_seen ⟦<dyn Device as Device>⟧ w.old) who.now pc }
    ensures out { w.new.out ≡ w.old.out }
{
    w.kern.facts();
    if let Actor::Task(id) = who {
        w.kern.regs_of(*id).pc = pc;
    }
}

// Makes a call up to the answer: the caller goes on after its gate, and the call has its effect. At
// a return gate, the caller only goes on. If memory runs out, nothing changes.
#[tactic(auto, using(crate::proofs::Reading::row_made, crate::proofs::Reading::none_made))]
fn make(alloc: Global, w: &mut World, gate: Gate, who: &Actor) -> Result<Reply, NoMemory>
    requires caller { Acts w.old.kern who.now }
    requires free { MayCall w.old.kern who.now }
    requires kept { IsWorld (world_with [] w.old) }
    requires early { IsEarly (world_with [] w.old) }
    requires room { 4096 ≤ w.old.out.room }
    ensures ok { IfOk result (λ r. with_reply (world_seen ⟦<dyn Device as Device>⟧ w.new) r
        ≡ made gate (world_seen ⟦<dyn Device as Device>⟧ w.old) who.now) }
    ensures memory { OnErr result (may_exhaust_memory gate ≡ true) }
    ensures task { OnErr result (is_interrupt_lem who.now ≡ false) }
    ensures err { OnErr result (world_seen ⟦<dyn Device as Device>⟧ w.new ≡ world_seen ⟦<dyn Device as Device>⟧ w.old) }
    ensures space { makes_room gate ≡ false → KeepsSpace w.old.out w.new.out }
    ensures holds { HoldsSpace w.old.out w.new.out }
{
    if let Some(errno) = refusal_before(gate, who) {
        leave_gate(w, who);
        return Ok(Reply::Refusal(errno));
    }
    let read = read_call(w, gate, who);
    w.kern.facts();
    let pc = counter(w, who);
    leave_gate(w, who);
    let Some(call) = read else {
        return Ok(Reply::Later);
    };
    let Ok(reply) = row(alloc, w, &call, *who) else {
        stand_again(w, who, pc);
        return Err(NoMemory);
    };
    Ok(reply)
}

/// Makes the call of a gate, if it needs no file. A caller that is a task must be ready. The caller
/// goes on after its gate, and the call has the effect of its row. The caller is answered in r3, at
/// once or at the end of its wait, unless it has ended. At a return gate, the caller only goes on.
/// Returns how the caller is answered. Host memory may run out only at `symAdd`, `msgQCreate`, `i`,
/// `lkup`, `moduleShow` and `d` of a task, and the world is then as it was. No call deletes the
/// shell's task. `devRemove` of a device removes that device and its interrupts, and changes
/// nothing else but its caller's answer. No call puts a device back.
pub fn make_call(alloc: Global, w: &mut World, gate: Gate, who: &Actor) -> Result<Reply, NoMemory>
    requires unasked { file_wanted_lem gate (world_seen ⟦<dyn Device as Device>⟧ w.old) who.now ≡ None }
    requires caller { Acts w.old.kern who.now }
    requires free { MayCall w.old.kern who.now }
    requires kept { IsWorld (world_with [] w.old) }
    requires early { IsEarly (world_with [] w.old) }
    requires room { 4096 ≤ w.old.out.room }
    ensures made { OnOk result
        (world_seen ⟦<dyn Device as Device>⟧ w.new ≡ call gate (world_seen ⟦<dyn Device as Device>⟧ w.old) who.now) }
    ensures reply { IfOk result (λ r. r ≡ (made gate (world_seen ⟦<dyn Device as Device>⟧ w.old) who.now).reply) }
    ensures memory { OnErr result (may_exhaust_memory gate ≡ true) }
    ensures task { OnErr result (is_interrupt_lem who.now ≡ false) }
    ensures err { OnErr result (world_seen ⟦<dyn Device as Device>⟧ w.new ≡ world_seen ⟦<dyn Device as Device>⟧ w.old) }
    ensures removed { (task slot : ℕ) → Removes gate (world_seen ⟦<dyn Device as Device>⟧ w.old) who.now task slot
        → OnlyRemoves (world_seen ⟦<dyn Device as Device>⟧ w.old) (world_seen ⟦<dyn Device as Device>⟧ w.new)
        task slot }
    ensures back { IsNoneBack (world_seen ⟦<dyn Device as Device>⟧ w.old) (world_seen ⟦<dyn Device as Device>⟧ w.new) }
    ensures kept { IsWorld (world_with [] w.new) }
    ensures shell { Lives w.old.kern shell_id → Lives w.new.kern shell_id }
    ensures space { makes_room gate ≡ false → KeepsSpace w.old.out w.new.out }
    ensures holds { HoldsSpace w.old.out w.new.out }
{
    let Ok(reply) = make(alloc, w, gate, who) else {
        return Err(NoMemory);
    };
    reply_to(w, gate, who, &reply);
    Ok(reply)
}

/// Makes the call of a gate as `make_call` does, unless it needs a file. A call of `ld` that needs
/// a file isn't made, and the result names the file. Host memory may run out only at `symAdd`,
/// `msgQCreate`, `ld`, `i`, `lkup`, `moduleShow` and `d` of a task; the world is then as it was.
/// `devRemove` of a device removes that device and its interrupts, and changes nothing else but its
/// caller's answer. No call puts a device back. The board asks for the file itself and calls
/// `make_call`; the program `call_cases` calls `kernel_call`.
#[tactic(auto, using(crate::proofs::Reading::asks_lack, crate::proofs::Reading::asks_as_task))]
pub fn kernel_call(alloc: Global, w: &mut World, gate: Gate, who: &Actor) -> Called
    requires caller { Acts w.old.kern who.now }
    requires free { MayCall w.old.kern who.now }
    requires kept { IsWorld (world_with [] w.old) }
    requires early { IsEarly (world_with [] w.old) }
    requires room { 4096 ≤ w.old.out.room }
    ensures made { is_made result ≡ true →
        world_seen ⟦<dyn Device as Device>⟧ w.new ≡ call gate (world_seen ⟦<dyn Device as Device>⟧ w.old) who.now }
    ensures answer { is_made result ≡ true →
        result ≡ outcome_lem gate (world_seen ⟦<dyn Device as Device>⟧ w.old) who.now }
    ensures ready { is_made result ≡ true →
        file_wanted_lem gate (world_seen ⟦<dyn Device as Device>⟧ w.old) who.now ≡ None }
    ensures file { IfSome (asked_for result) (λ name.
        file_wanted_lem gate (world_seen ⟦<dyn Device as Device>⟧ w.old) who.now ≡ Some name) }
    ensures memory { result ≡ called.NoMemory → may_exhaust_memory gate ≡ true }
    ensures task { result ≡ called.NoMemory → is_interrupt_lem who.now ≡ false }
    ensures unchanged { is_made result ≡ false →
        world_seen ⟦<dyn Device as Device>⟧ w.new ≡ world_seen ⟦<dyn Device as Device>⟧ w.old }
    ensures removed { (task slot : ℕ) → Removes gate (world_seen ⟦<dyn Device as Device>⟧ w.old) who.now task slot
        → OnlyRemoves (world_seen ⟦<dyn Device as Device>⟧ w.old) (world_seen ⟦<dyn Device as Device>⟧ w.new)
        task slot }
    ensures back { IsNoneBack (world_seen ⟦<dyn Device as Device>⟧ w.old) (world_seen ⟦<dyn Device as Device>⟧ w.new) }
    ensures kept { IsWorld (world_with [] w.new) }
    ensures shell { Lives w.old.kern shell_id → Lives w.new.kern shell_id }
    ensures space { makes_room gate ≡ false → KeepsSpace w.old.out w.new.out }
    ensures holds { HoldsSpace w.old.out w.new.out }
{
    match file_wanted(alloc, w, gate, who) {
        Ok(Some(name)) => return Called::NeedsFile(name),
        Ok(None) => {}
        Err(NoMemory) => return Called::NoMemory,
    }
    let Ok(reply) = make_call(alloc, w, gate, who) else {
        return Called::NoMemory;
    };
    outcome(&reply)
}
