//! A world from its start on, in which callers are put at gates and make their calls.

ghost use Rattle.std.specs.Prelude.{◌≡◌, ◌≤◌, true, false, [], length, None, IfSome};
ghost use Rattle.wind_base.specs.Limits.{most_slots};
ghost use Rattle.wind_base.specs.declared.board_kind.BoardKind.TheVariants.{One};
ghost use Rattle.isr_watch.specs.{State.{IsWatch, no_watch}, Calls.routine_return};
ghost use Rattle.kernel_world.specs.Actors.{Acts, MayCall};

use call_rows::end_task;
use id_table::Ident;
use isr_watch::{Routine, Watch};
use kernel_calls::{Called, kernel_call};
use kernel_world::{Actor, World, gate_address, is_call, starting_regs};
use std::alloc::Global;
use std::marker::Model;
use symbol_table::Symbol;
use task_block::Task;
use wind_base::limits::SLOTS;
use wind_base::{BoardKind, Gate, Profile, Regs};
use wind_core::Kern;
use wind_outside::Slots;

// The callers: the shell's task, by its id, and the interrupt routine.
pub(crate) const SHELL: u32 = 1;

pub(crate) const ROUTINE: u32 = 0;

// Where the callers have their frames, unless a frame is given.
pub(crate) const FRAME: u32 = 0x8000;

// The return address of the calls.
pub(crate) const BACK: u32 = 0x2001;

// A world from its start on, and how many calls were made in it.
#[derive(Drop)]
pub(crate) struct Bench {
    world: World,
    calls: u32,
}

impl Model for Bench {
    ghost use Rattle.std.specs.Prelude.{ℕ, ◌≡◌, ◌≤◌, ◌+◌, ◌*◌, []};
    ghost use Rattle.kernel_world.specs.Seen.{world_with};
    ghost use Rattle.kernel_world.specs.Kept.{IsWorld, Within};

    ghost Value = { ℕ };

    ghost view = { λ b. b.calls };

    ghost invariant = { λ b. IsWorld (world_with [] b.world)
        × Within b.calls (world_with [] b.world)
        × (b.world.kern.next_since ≤ 1 + 1024 * b.calls)
        × (b.world.kern.tick ≡ 0)
        × (b.world.names ≤ 1 + b.calls)
        × (b.world.watch.next_start ≤ 1 + b.calls) };
}

// Whether the caller lives and is ready.
fn may_call(kern: &Kern, who: &Actor) -> bool
    ensures acts { result ≡ true → Acts kern.now who.now }
    ensures free { result ≡ true → MayCall kern.now who.now }
{
    match who {
        Actor::Task(id) => match kern.task(*id) {
            Some(task) => task.ready(),
            None => false,
        },
        Actor::Interrupt => true,
    }
}

// Makes the routine of an expired watchdog active, and deletes the watchdog. Returns false if that
// can't be done.
fn run_out(kern: &mut Kern, watch: &mut Watch) -> bool
    requires ids { kern.old.lent ≡ false }
    requires fresh { watch.old ≡ no_watch (routine_return One) }
    ensures none { result ≡ true → watch.new.watchdogs ≡ [] }
    ensures starts { result ≡ true → watch.new.next_start ≤ 1 }
    ensures link { result ≡ true → watch.new.link ≡ routine_return One }
{
    let routine = Routine { entry: 0, param: 0 };
    let Ok(id) = watch.create(kern) else {
        return false;
    };
    let Ok(()) = watch.start(id.get(), 0, 1, routine) else {
        return false;
    };
    watch.due(1, FRAME);
    watch.delete(id.get()).is_ok()
}

// The same, with a kernel that only hands out ids.
fn activate(alloc: Global, watch: &mut Watch) -> bool
    requires fresh { watch.old ≡ no_watch (routine_return One) }
    ensures none { result ≡ true → watch.new.watchdogs ≡ [] }
    ensures starts { result ≡ true → watch.new.next_start ≤ 1 }
    ensures link { result ≡ true → watch.new.link ≡ routine_return One }
{
    match Kern::new(alloc) {
        Ok(mut kern) => run_out(&mut kern, watch),
        Err(_) => false,
    }
}

// Without live watchdogs, with the routine of an expired one active.
fn with_routine(alloc: Global) -> Option<Watch>
    ensures watch { IfSome result (λ w. IsWatch w) }
    ensures none { IfSome result (λ w. w.watchdogs ≡ []) }
    ensures starts { IfSome result (λ w. w.next_start ≤ 1) }
    ensures link { IfSome result (λ w. w.link ≡ routine_return One) }
{
    let Ok(mut watch) = Watch::reserved(alloc) else {
        return None;
    };
    let active = activate(alloc, &mut watch);
    watch.facts();
    if active { Some(watch) } else { None }
}

// Sets the registers of the active routine.
fn set_level(watch: &mut Watch, regs: Regs)
    ensures watch { IsWatch watch.new }
    ensures same { watch.new.watchdogs ≡ watch.old.watchdogs }
    ensures starts { watch.new.next_start ≡ watch.old.next_start }
    ensures link { watch.new.link ≡ watch.old.link }
{
    if let Some(level) = watch.regs_mut() {
        *level = regs;
    }
    watch.facts();
}

impl Bench {
    // The world at the start under profile 1 on board 1, with these devices. `None` if it can't be
    // made, for example because memory runs out.
    pub(crate) fn new(alloc: Global, slots: Slots) -> Option<Bench>
        requires { length slots.items ≤ most_slots }
    {
        let watch = with_routine(alloc)?;
        let Ok(mut world) = World::boot(alloc, slots, Profile::One, BoardKind::One) else {
            return None;
        };
        world.watch = watch;
        Some(Bench { world, calls: 0 })
    }

    // Puts these bytes into RAM from an address on. Returns false if they don't fit.
    pub(crate) fn write(&mut self, address: u32, bytes: &[u8]) -> bool {
        self.world.bus.ram.copy_in(address, bytes).is_ok()
    }

    // The device of a slot interrupts. Returns false if there is no slot with this number.
    pub(crate) fn raise(&mut self, slot: u32) -> bool {
        if slot as usize >= SLOTS {
            return false;
        }
        self.world.irqs.raise(slot);
        true
    }

    // Puts `count` equal bytes into RAM. Returns false if they don't fit.
    pub(crate) fn fill(&mut self, address: u32, count: u32, byte: u8) -> bool {
        self.world.bus.ram.fill(address, count, byte).is_ok()
    }

    // Sets the registers of a task, if it is ready.
    fn set_task(&mut self, who: Ident, regs: Regs) {
        if may_call(&self.world.kern, &Actor::Task(who)) {
            self.world.kern.set_regs(who, regs);
        }
    }

    // Sets the registers of the interrupt routine.
    fn set_routine(&mut self, regs: Regs) {
        set_level(&mut self.world.watch, regs);
    }

    // Makes the call. Returns `None` if it can't be made.
    fn make(&mut self, alloc: Global, gate: Gate, who: &Actor) -> Option<Called> {
        if self.calls >= 1 << 20 || self.world.out.room() < 4096 {
            return None;
        }
        if !is_call(gate) || !may_call(&self.world.kern, who) {
            return None;
        }
        let called = kernel_call(alloc, &mut self.world, gate, who);
        self.calls += 1;
        Some(called)
    }

    // Puts a caller at a gate, with this r1 and these argument words, and makes its call.
    pub(crate) fn call(
        &mut self,
        alloc: Global,
        who: u32,
        gate: Gate,
        frame: u32,
        words: &[u32; 10],
    ) -> Option<Called> {
        let regs = starting_regs(frame, BACK, gate_address(self.world.board, gate), words);
        match Ident::new(who) {
            Some(id) => {
                self.set_task(id, regs);
                self.make(alloc, gate, &Actor::Task(id))
            }
            None => {
                self.set_routine(regs);
                self.make(alloc, gate, &Actor::Interrupt)
            }
        }
    }

    // Ends the task. Returns false if it doesn't live.
    fn end_task(&mut self, who: Ident) -> bool {
        if self.calls >= 1 << 20 || self.world.kern.task(who).is_none() {
            return false;
        }
        end_task(&mut self.world, who);
        self.calls += 1;
        true
    }

    // Ends the task with this id. Returns false if there is none.
    pub(crate) fn end(&mut self, who: u32) -> bool {
        match Ident::new(who) {
            Some(id) => self.end_task(id),
            None => false,
        }
    }

    pub(crate) fn task(&self, who: u32) -> Option<&Task> {
        self.world.kern.task(Ident::new(who)?)
    }

    pub(crate) fn tasks(&self) -> u32 {
        self.world.kern.live()
    }

    // The size in bytes of the block that begins at an address.
    pub(crate) fn block(&self, address: u32) -> Option<u32> {
        self.world.part.size_of(address)
    }

    // The word of RAM at an address.
    pub(crate) fn word(&self, address: u32) -> Option<u32> {
        self.world.bus.ram.read32(address)
    }

    pub(crate) fn symbol(&self, place: u32) -> Option<&Symbol> {
        self.world.syms.at(place)
    }

    pub(crate) fn symbols(&self) -> u32 {
        self.world.syms.len()
    }

    pub(crate) fn has_device(&self, slot: u32) -> bool {
        self.world.bus.has_device(slot)
    }

    // How many interrupts of a slot are pending.
    pub(crate) fn pending(&self, slot: u32) -> Option<u32> {
        if slot as usize >= SLOTS {
            return None;
        }
        Some(self.world.irqs.pending(slot))
    }

    // What the calls have written.
    pub(crate) fn output(&self) -> &[u8] {
        self.world.out.bytes()
    }

    // A caller's program counter, r3 and error number.
    pub(crate) fn standing(&self, who: u32) -> Option<(u32, u32, u32)> {
        if who == ROUTINE {
            let regs = self.world.watch.regs()?;
            return Some((regs.pc, regs.gpr[3], self.world.int_errno));
        }
        let task = self.task(who)?;
        Some((task.regs.pc, task.regs.gpr[3], task.errno))
    }
}
