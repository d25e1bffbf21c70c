//! The interrupt controller.

ghost use Rattle.std.specs.Prelude.{◌≡◌, ◌<◌, ◌≤◌, true, None, Some, MatchResult, replicate};
ghost use Rattle.std.specs.List.{list_any};
ghost use Rattle.wind_base.specs.Limits.{most_slots, frame_bytes};
ghost use Rattle.isr_watch.specs.Calls.{begun};
ghost use Rattle.dev_irq.specs.State.{idle_line, line_of, routines_of, pending_of, is_waiting as is_waiting_lem, next as next_lem, IsIrqs};
ghost use Rattle.dev_irq.specs.Calls.{connect_refusal, connected, disconnect_refusal, disconnected, enabled, raised, cleared, delivered};

use crate::line::Line;
use isr_watch::{Routine, Watch};
use std::marker::Model;
use wind_base::Errno;
use wind_base::limits::SLOTS;

/// The interrupt controller: a line for each device slot. No call takes memory.
///
/// The callers test that a slot holds a device, which the controller doesn't see.
#[derive(Drop)]
pub struct Irqs {
    lines: [Line; SLOTS],
    // whether a line is waiting, so that a step of the board pays one test
    waiting: bool,
}

impl Model for Irqs {
    ghost use Rattle.std.specs.Prelude.{◌≡◌, List};
    ghost use Rattle.std.specs.List.{list_any};
    ghost use Rattle.dev_irq.specs.declared.line.Line.{Line};
    ghost use Rattle.dev_irq.specs.State.{is_waiting, IsIrqs};

    ghost Value = { List Line };

    ghost view = { λ c. c.lines };

    ghost invariant = { λ c. IsIrqs c.lines × (c.waiting ≡ list_any is_waiting c.lines) };
}

// Whether a line is waiting.
fn any_waiting(lines: &[Line]) -> bool
    ensures { result ≡ list_any is_waiting_lem lines.now }
{
    lines.iter().any(|line| line.is_waiting())
}

impl Irqs {
    /// Every line is enabled, without a routine, and nothing is pending.
    pub fn new() -> Irqs
        ensures { result ≡ replicate most_slots idle_line }
    {
        Irqs {
            lines: Default::default(),
            waiting: false,
        }
    }

    /// Does nothing. Its contract states the controller's invariant.
    pub fn facts(&self)
        ensures { IsIrqs self.now }
    {
        let _ = &self.lines;
    }

    /// Connects a routine to the interrupts of a slot, after those that are connected.
    ///
    /// # Errors
    ///
    /// `TooMany` if the slot has 4 routines. Then nothing changes.
    pub fn connect(&mut self, slot: u32, routine: Routine) -> Result<(), Errno>
        requires { slot < most_slots }
        ensures refusal { MatchResult result (λ _. connect_refusal (line_of self.old slot) ≡ None)
            (λ e. connect_refusal (line_of self.old slot) ≡ Some e) }
        ensures state { self.new ≡ connected self.old slot routine }
    {
        let outcome = self.lines[slot as usize].connect(routine);
        self.waiting = any_waiting(&self.lines);
        outcome
    }

    /// Disconnects from a slot the earliest connection of the routine that begins at this address.
    /// If the routine is listed at the interrupt level, that stays listed.
    ///
    /// # Errors
    ///
    /// `InvalidOperation` if there is none. Then nothing changes.
    pub fn disconnect(&mut self, slot: u32, entry: u32) -> Result<(), Errno>
        requires { slot < most_slots }
        ensures refusal { MatchResult result (λ _. disconnect_refusal entry (line_of self.old slot) ≡ None)
            (λ e. disconnect_refusal entry (line_of self.old slot) ≡ Some e) }
        ensures state { self.new ≡ disconnected self.old slot entry }
    {
        let outcome = self.lines[slot as usize].disconnect(entry);
        self.waiting = any_waiting(&self.lines);
        outcome
    }

    /// Enables the interrupts of a slot, or disables them. While they are disabled, they stay
    /// pending.
    pub fn enable(&mut self, slot: u32, on: bool)
        requires { slot < most_slots }
        ensures { self.new ≡ enabled self.old slot on }
    {
        self.lines[slot as usize].enable(on);
        self.waiting = any_waiting(&self.lines);
    }

    /// The device of a slot interrupts: one more interrupt is pending, unless 4,294,967,295 are.
    pub fn raise(&mut self, slot: u32)
        requires { slot < most_slots }
        ensures { self.new ≡ raised self.old slot }
    {
        self.lines[slot as usize].raise();
        self.waiting = any_waiting(&self.lines);
    }

    /// How many interrupts of a slot are pending.
    pub fn pending(&self, slot: u32) -> u32
        requires { slot < most_slots }
        ensures { result ≡ pending_of self.now slot }
    {
        self.lines[slot as usize].pending
    }

    /// Makes a slot's line what it is at first: enabled, without a routine, and nothing pending.
    pub fn clear(&mut self, slot: u32)
        requires { slot < most_slots }
        ensures { self.new ≡ cleared self.old slot }
    {
        self.lines[slot as usize] = Line::default();
        self.waiting = any_waiting(&self.lines);
    }

    /// Whether a line is enabled, has a routine and has a pending interrupt. It is one test.
    pub fn is_waiting(&self) -> bool
        ensures { result ≡ list_any is_waiting_lem self.now }
    {
        self.waiting
    }

    /// The least slot that holds a device and whose line is waiting; `full` says which slots hold
    /// one. `None` if there is none.
    pub fn next(&self, full: &[bool; SLOTS]) -> Option<u32>
        ensures { result ≡ next_lem full.now self.now }
    {
        for (slot, line) in self.lines.iter().enumerate() {
            if full[slot] && line.is_waiting() {
                return Some(slot as u32);
            }
        }
        None
    }

    /// Delivers an interrupt of a slot whose line is waiting: one fewer is pending, and the slot's
    /// routines run at the interrupt level, one after another, in the order of connection. The
    /// stack of each begins below `top`, the end of the interrupt stack.
    pub fn deliver(&mut self, slot: u32, watch: &mut Watch, top: u32)
        requires slot { slot < most_slots }
        requires waiting { is_waiting_lem (line_of self.old slot) ≡ true }
        requires level { watch.old.level ≡ None }
        requires top { frame_bytes ≤ top }
        ensures irqs { self.new ≡ delivered self.old slot }
        ensures watch { watch.new ≡ begun watch.old (routines_of self.old slot) top }
    {
        self.lines[slot as usize].deliver(watch, top);
        self.waiting = any_waiting(&self.lines);
    }
}
