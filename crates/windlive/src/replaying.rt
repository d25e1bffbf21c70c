//! Whether a session that goes on still replays its record: until the first part of its input is
//! taken. This is a trusted edge of the program.

use live_session::{Input, InputPart};
use std::alloc::Global;
use std::cell::Cell;

/// An input that notes when its first part is asked for.
#[derive(Drop)]
pub(crate) struct Watched<'a, 'b, I: Input> {
    input: &'b mut I,
    is_replaying: &'a Cell<bool>,
}

impl<'a, 'b, I: Input> Watched<'a, 'b, I> {
    /// This input. `is_replaying` is set to false when its first part is asked for.
    pub(crate) fn new(input: &'b mut I, is_replaying: &'a Cell<bool>) -> Watched<'a, 'b, I> {
        Watched {
            input,
            is_replaying,
        }
    }
}

impl<I: Input> Input for Watched<'_, '_, I> {
    ghost left = { λ w. I.left w.input.now };

    ghost faults = { λ w. I.faults w.input.now };

    fn next_part(&mut self, alloc: Global) -> InputPart {
        self.is_replaying.set(false);
        self.input.next_part(alloc)
    }
}
