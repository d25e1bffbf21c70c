//! A board: the whole wind machine.

ghost use Rattle.std.specs.Prelude.{◌≡◌, ◌≤◌, ◌+◌, length};
ghost use Rattle.std.proofs.Props.{props};
ghost use Rattle.board_player.specs.{Inside.{inside, IsSpacious}, Going.IsKnown, Facts.{Laid-prop, IsServable-prop, IsKnown-prop}};
ghost use Rattle.wind_machine.specs.Good.{Good};

use crate::Step;
use crate::bursts::burst;
use crate::clock::Clock;
use crate::loading::load;
use crate::order::{Known, found, is_early, make, next};
use crate::parts::Parts;
use board_actors::{Feed, Shell};
use con_line::Console;
use live_loading::{FileAnswer, OUTPUT_BYTES, Reply, World};
use std::alloc::Global;
use tick_file::{Event, Schedule};
use wind_base::{BoardKind, Name, NoMemory, OutBuf, Profile};
use wind_machine::{Next, Phase, safety_law, slot_law, step_law};
use wind_outside::{Device, Slots};

/// A board: the wind machine's state in memory.
#[derive(Drop)]
pub struct Board {
    parts: Parts,
    // who makes the next step, if that is known from the step before, and that step's reply
    known: Known,
    ghost good: { Good (inside parts) } by { Prim.hlevel (props, Laid-prop, IsServable-prop) },
    ghost space: { IsSpacious parts },
    ghost runs: { IsKnown parts.world.kern parts.world.watch.level known } by { IsKnown-prop parts.world.kern parts.world.watch.level known },
}

impl Board {
    ghost use Rattle.std.specs.Prelude.{IfOk, IfErr, None};
    ghost use Rattle.wind_outside.specs.Devices.{slots_of};
    ghost use Rattle.live_loading.specs.KernelWorldSeen.{world_seen};
    ghost use Rattle.board_player.specs.Seen.{seen, last_reply};
    ghost use Rattle.wind_machine.specs.Machine.{opening};
    ghost use Rattle.wind_base.specs.Limits.{most_slots};

    /// Makes a board of a kind in the opening state, with this console file, these events, these
    /// devices and this rule of inheritance. If memory runs out, the slots come back as they were.
    #[tactic(auto, unfolding(wind_machine::specs::Machine::opening))]
    pub fn boot(
        alloc: Global,
        slots: Slots,
        console: Vec<u8>,
        schedule: Schedule,
        profile: Profile,
        board: BoardKind,
    ) -> Result<Board, Slots>
        requires { length slots.items ≤ most_slots }
        ensures ok { IfOk result (λ made. seen ⟦<dyn Device as Device>⟧ made
            ≡ opening console.items schedule (slots_of kind_of words_of slots.items) profile board) }
        ensures reply { IfOk result (λ made. last_reply made ≡ None) }
        ensures err { IfErr result (λ back. back ≡ slots) }
    {
        step_law();
        let Ok(spare) = OutBuf::reserved(alloc, OUTPUT_BYTES) else {
            return Err(slots);
        };
        let Ok(screen) = Console::new(alloc) else {
            return Err(slots);
        };
        let world = World::boot(alloc, slots, profile, board)?;
        Ok(Board {
            parts: Parts {
                alloc,
                feed: Feed::new(console),
                console: screen,
                shell: Shell::new(alloc),
                world,
                schedule,
                clock: Clock::new(),
                spare,
            },
            known: Known::Nothing,
        })
    }

    /// The kernel's tasks, the partition, the symbols, RAM and devices.
    pub fn world(&self) -> &World
        ensures { world_seen ⟦<dyn Device as Device>⟧ result.now ≡ (seen ⟦<dyn Device as Device>⟧ self.now).world }
    {
        &self.parts.world
    }

    /// How many ticks have occurred.
    pub fn ticks(&self) -> u64
        ensures { result ≡ (seen ⟦<dyn Device as Device>⟧ self.now).world.kern.tick }
    {
        self.parts.world.kern.ticks()
    }
}

impl Board {
    ghost use Rattle.std.specs.Prelude.{◌≢◌, ◌↔◌, ◌<◌, ◌≤◌, ◌-◌, ◌^◌, ℕ, Some, None, IfSome, OnOk, OnErr, true};
    ghost use Rattle.std.specs.List.{All};
    ghost use Rattle.wind_base.specs.Limits.{most_steps};
    ghost use Rattle.wind_machine.specs.{LiveLoadingSaid.{FileSaid, said_of}, Extending.{extended, more_of}, Silent.SilentSteps, Interrupts.{IsRemoval, OnlyRemovesIn, StepsSlot}, Laws.OnlyUnsafeGo, Next.{next as next_lem}, Machine.{file_asked, machine_step, Steps, IsOver, may_exhaust_memory}, Replies.step_reply};
    ghost use Rattle.board_player.specs.{Asking.needed, Bursts.MovesLast, Seen.{seen, last_reply}};
    ghost use Rattle.board_player.specs.declared.Step.TheVariants as steps;

    /// Makes the next step, if there is one and it needs no file. Host memory may run out only if
    /// the state permits it. Unless the step is made, nothing changes, except that the board has no
    /// reply.
    #[tactic(auto, using(crate::proofs::Answering::is_over, crate::proofs::Answering::asked_is))]
    #[inline(always)]
    pub fn step(&mut self) -> Step
        requires { (seen ⟦<dyn Device as Device>⟧ self.old).steps < most_steps }
        ensures stepped { result ≡ steps.Stepped → Steps (seen ⟦<dyn Device as Device>⟧ self.old)
            (seen ⟦<dyn Device as Device>⟧ self.new) }
        ensures counted { result ≡ steps.Stepped → (seen ⟦<dyn Device as Device>⟧ self.new).steps
            ≡ (seen ⟦<dyn Device as Device>⟧ self.old).steps + 1 }
        ensures slots { result ≡ steps.Stepped → (i : ℕ) → StepsSlot (seen ⟦<dyn Device as Device>⟧ self.old)
            (seen ⟦<dyn Device as Device>⟧ self.new) i }
        ensures removal { result ≡ steps.Stepped → (who i : ℕ)
            → IsRemoval (seen ⟦<dyn Device as Device>⟧ self.old) (next_lem (seen ⟦<dyn Device as Device>⟧ self.old)) who i
            → OnlyRemovesIn (seen ⟦<dyn Device as Device>⟧ self.old) (seen ⟦<dyn Device as Device>⟧ self.new) who i }
        ensures safety { result ≡ steps.Stepped → OnlyUnsafeGo (seen ⟦<dyn Device as Device>⟧ self.old)
            (seen ⟦<dyn Device as Device>⟧ self.new) }
        ensures reply { result ≡ steps.Stepped → (said : FileSaid)
            → last_reply self.new ≡ step_reply said (seen ⟦<dyn Device as Device>⟧ self.old) }
        ensures no_reply { result ≢ steps.Stepped → last_reply self.new ≡ None }
        ensures quiet { (result ≡ steps.Quiet) ↔ IsOver (seen ⟦<dyn Device as Device>⟧ self.old) }
        ensures file { IfSome (needed result)
            (λ name. file_asked (seen ⟦<dyn Device as Device>⟧ self.old) ≡ Some name) }
        ensures unasked { result ≡ steps.Stepped → file_asked (seen ⟦<dyn Device as Device>⟧ self.old) ≡ None }
        ensures no_memory { result ≡ steps.NoMemory
            → may_exhaust_memory (seen ⟦<dyn Device as Device>⟧ self.old) ≡ true }
        ensures unchanged { result ≢ steps.Stepped → seen ⟦<dyn Device as Device>⟧ self.new
            ≡ seen ⟦<dyn Device as Device>⟧ self.old }
    {
        step_law();
        slot_law();
        safety_law();
        is_early(&self.parts);
        self.parts.world.irqs.facts();
        let Ok(next) = next(&self.parts, &mut self.known) else {
            return Step::NoMemory;
        };
        make(&mut self.parts, &mut self.known, next)
    }

    /// Makes at most `most` steps at once: instructions of the task or routine that makes the next
    /// steps. They need no file, write nothing, and change only the registers of that task or routine
    /// and the bus, besides time and the number of steps. Returns how many it made, which
    /// may always be 0; only `step` tells what the next step is. The board has no reply afterwards.
    #[tactic(auto, using(crate::proofs::TaskBursts::holds_on))]
    #[inline(always)]
    pub fn burst(&mut self, most: u64) -> u64
        requires { (seen ⟦<dyn Device as Device>⟧ self.old).steps + most ≤ most_steps }
        ensures made { SilentSteps result (seen ⟦<dyn Device as Device>⟧ self.old)
            (seen ⟦<dyn Device as Device>⟧ self.new) }
        ensures within { result ≤ most }
        ensures only { 0 < result → MovesLast (seen ⟦<dyn Device as Device>⟧ self.old).world
            (seen ⟦<dyn Device as Device>⟧ self.new).world }
        ensures reply { last_reply self.new ≡ None }
    {
        self.known = found(&self.parts, self.known);
        if !self.known.has_actor() {
            return 0;
        }
        step_law();
        is_early(&self.parts);
        burst(&mut self.parts, self.known, most)
    }

    /// Makes the next step, which loads the file with this name, given what the folder answers
    /// about that file. If host memory runs out, nothing changes, except that the board has no reply.
    pub fn step_load(&mut self, name: &Name, file: &FileAnswer) -> Result<(), NoMemory>
        requires few { (seen ⟦<dyn Device as Device>⟧ self.old).steps < most_steps }
        requires asked { file_asked (seen ⟦<dyn Device as Device>⟧ self.old) ≡ Some name.now }
        ensures stepped { OnOk result (machine_step (said_of file.now) (seen ⟦<dyn Device as Device>⟧ self.old)
            ≡ Some (seen ⟦<dyn Device as Device>⟧ self.new)) }
        ensures counted { OnOk result ((seen ⟦<dyn Device as Device>⟧ self.new).steps
            ≡ (seen ⟦<dyn Device as Device>⟧ self.old).steps + 1) }
        ensures slots { OnOk result ((i : ℕ) → StepsSlot (seen ⟦<dyn Device as Device>⟧ self.old)
            (seen ⟦<dyn Device as Device>⟧ self.new) i) }
        ensures safety { OnOk result (OnlyUnsafeGo (seen ⟦<dyn Device as Device>⟧ self.old)
            (seen ⟦<dyn Device as Device>⟧ self.new)) }
        ensures reply { OnOk result (last_reply self.new
            ≡ step_reply (said_of file.now) (seen ⟦<dyn Device as Device>⟧ self.old)) }
        ensures no_reply { OnErr result (last_reply self.new ≡ None) }
        ensures no_memory { OnErr result (may_exhaust_memory (seen ⟦<dyn Device as Device>⟧ self.old) ≡ true) }
        ensures unchanged { OnErr result (seen ⟦<dyn Device as Device>⟧ self.new
            ≡ seen ⟦<dyn Device as Device>⟧ self.old) }
    {
        step_law();
        slot_law();
        safety_law();
        is_early(&self.parts);
        self.parts.world.irqs.facts();
        self.known = Known::Nothing;
        let Ok(reply) = load(&mut self.parts, name, file) else {
            return Err(NoMemory);
        };
        self.known = Known::Called(reply);
        Ok(())
    }

    /// Adds bytes to the console, after those that are left, and the event that line `line` of a
    /// longer tick file asks for. No future event may come later, or be asked for by that line or a
    /// later one. If memory runs out, nothing changes.
    pub fn extend(
        &mut self,
        line: u64,
        time: u64,
        event: Event,
        bytes: &[u8],
    ) -> Result<(), NoMemory>
        requires small { time ≤ 2 ^ 32 - 1 }
        requires last { All (λ e. (e.time ≤ time) × (e.line < line))
            (seen ⟦<dyn Device as Device>⟧ self.old).schedule.events }
        ensures ok { OnOk result (seen ⟦<dyn Device as Device>⟧ self.new
            ≡ extended (more_of bytes.now line time event (seen ⟦<dyn Device as Device>⟧ self.old).schedule.on_demand)
            (seen ⟦<dyn Device as Device>⟧ self.old)) }
        ensures err { OnErr result (seen ⟦<dyn Device as Device>⟧ self.new
            ≡ seen ⟦<dyn Device as Device>⟧ self.old) }
        ensures reply { last_reply self.new ≡ last_reply self.old }
    {
        self.parts.feed.add(bytes)?;
        if self.parts.schedule.add(line, time, event).is_err() {
            self.parts.feed.take_back(bytes.len());
            return Err(NoMemory);
        }
        Ok(())
    }

    /// The reply to the last step's kernel call, if it made one. For a call that pends it is
    /// `Later`, since the caller is answered at the end of its wait.
    pub fn reply(&self) -> Option<Reply>
        ensures { result ≡ last_reply self.now }
    {
        self.known.reply()
    }

    /// The bytes that the last step wrote.
    pub fn output(&self) -> &[u8]
        ensures { result.now ≡ (seen ⟦<dyn Device as Device>⟧ self.now).world.output }
    {
        self.parts.world.out.bytes()
    }

    /// Board time.
    pub fn time(&self) -> u128
        ensures { result ≡ (seen ⟦<dyn Device as Device>⟧ self.now).time }
    {
        self.parts.clock.time
    }

    /// How many steps the board has made.
    pub fn steps(&self) -> u64
        ensures { result ≡ (seen ⟦<dyn Device as Device>⟧ self.now).steps }
    {
        self.parts.clock.steps
    }

    /// The invariant holds for every board.
    pub fn facts(&self)
        ensures { Good (seen ⟦<dyn Device as Device>⟧ self.now) }
    {
        let _ = &self.parts;
    }
}

impl Board {
    ghost use Rattle.std.specs.Prelude.{IfOk, OnErr, true};
    ghost use Rattle.wind_machine.specs.{Machine.may_exhaust_memory, Next.{next as next_lem}};
    ghost use Rattle.board_player.specs.Seen.{seen};

    /// What the next step is. Host memory may run out only for the name of a file, if the state
    /// permits it.
    pub fn what_comes(&self) -> Result<Next, NoMemory>
        ensures next { IfOk result (λ n. n ≡ next_lem (seen ⟦<dyn Device as Device>⟧ self.now)) }
        ensures no_memory { OnErr result (may_exhaust_memory (seen ⟦<dyn Device as Device>⟧ self.now) ≡ true) }
    {
        let mut known = self.known;
        next(&self.parts, &mut known)
    }

    /// The bytes of the console file that haven't arrived yet.
    pub fn left(&self) -> &[u8]
        ensures { result.now ≡ (seen ⟦<dyn Device as Device>⟧ self.now).left }
    {
        self.parts.feed.left()
    }

    /// The shell's phase.
    pub fn phase(&self) -> Phase
        ensures { result ≡ (seen ⟦<dyn Device as Device>⟧ self.now).shell.phase }
    {
        self.parts.shell.phase()
    }
}
