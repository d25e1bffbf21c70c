//! The interrupt line of one device slot.

ghost use Rattle.std.specs.Prelude.{◌≡◌, ◌≤◌, true, None, Some, MatchResult};
ghost use Rattle.wind_base.specs.Limits.{frame_bytes};
ghost use Rattle.isr_watch.specs.Calls.{begun};
ghost use Rattle.dev_irq.specs.State.{idle_line, is_waiting as is_waiting_lem};
ghost use Rattle.dev_irq.specs.Calls.{connect_refusal, with_routine, disconnect_refusal, without_routine, position_of as position_of_lem, with_mark, with_one_more, with_one_less};

use arrayvec::ArrayVec;
use isr_watch::{Routine, Watch};
use wind_base::Errno;
use wind_base::limits::CONNECTIONS;

/// The interrupt line of a device slot.
#[derive(Drop)]
pub struct Line {
    /// The connected routines, in the order of connection.
    pub(crate) routines: ArrayVec<Routine, CONNECTIONS>,
    /// Whether the line is enabled.
    pub(crate) on: bool,
    /// How many interrupts are pending.
    pub(crate) pending: u32,
}

impl Default for Line {
    ghost use Rattle.std.specs.Prelude.{◌≡◌};
    ghost use Rattle.dev_irq.specs.State.{idle_line};

    ghost is_default = { λ l. l ≡ idle_line };

    fn default() -> Line {
        Line {
            routines: ArrayVec::new(),
            on: true,
            pending: 0,
        }
    }
}

impl Line {
    /// Whether it is enabled, has a routine and has a pending interrupt.
    pub(crate) fn is_waiting(&self) -> bool
        ensures { result ≡ is_waiting_lem self.now }
    {
        self.on && !self.routines.is_empty() && self.pending > 0
    }

    /// Connects a routine, after those that are connected.
    ///
    /// # Errors
    ///
    /// `TooMany` if the line has 4 routines. Then nothing changes.
    pub(crate) fn connect(&mut self, routine: Routine) -> Result<(), Errno>
        ensures refusal { MatchResult result (λ _. connect_refusal self.old ≡ None)
            (λ e. connect_refusal self.old ≡ Some e) }
        ensures line { self.new ≡ with_routine routine self.old }
    {
        if self.routines.is_full() {
            return Err(Errno::TooMany);
        }
        self.routines.push(routine);
        Ok(())
    }

    // The position of the earliest connection of the routine that begins at this address.
    fn position_of(&self, entry: u32) -> Option<usize>
        ensures { result ≡ position_of_lem entry self.now.routines.items }
    {
        self.routines
            .as_slice()
            .iter()
            .position(|routine| routine.entry == entry)
    }

    /// Disconnects the earliest connection of the routine that begins at this address.
    ///
    /// # Errors
    ///
    /// `InvalidOperation` if there is none. Then nothing changes.
    pub(crate) fn disconnect(&mut self, entry: u32) -> Result<(), Errno>
        ensures refusal { MatchResult result (λ _. disconnect_refusal entry self.old ≡ None)
            (λ e. disconnect_refusal entry self.old ≡ Some e) }
        ensures line { self.new ≡ without_routine entry self.old }
    {
        let Some(position) = self.position_of(entry) else {
            return Err(Errno::InvalidOperation);
        };
        self.routines.remove(position);
        Ok(())
    }

    /// Enables or disables it.
    pub(crate) fn enable(&mut self, on: bool)
        ensures { self.new ≡ with_mark on self.old }
    {
        self.on = on;
    }

    /// One more interrupt is pending, unless the count is at its greatest.
    pub(crate) fn raise(&mut self)
        ensures { self.new ≡ with_one_more self.old }
    {
        self.pending = self.pending.saturating_add(1);
    }

    /// One interrupt fewer is pending, and the routines begin at the interrupt level.
    pub(crate) fn deliver(&mut self, watch: &mut Watch, top: u32)
        requires waiting { is_waiting_lem self.old ≡ true }
        requires level { watch.old.level ≡ None }
        requires top { frame_bytes ≤ top }
        ensures line { self.new ≡ with_one_less self.old }
        ensures watch { watch.new ≡ begun watch.old self.old.routines.items top }
    {
        watch.begin(self.routines.as_slice(), top);
        self.pending -= 1;
    }
}
