//! The wind machine, written down: its states, its step, its runs, and the invariant of every run.
#![tactic(auto)]

mod extending;
mod laws;
mod next;
mod phase;

pub use extending::{extend_law, live_law};
pub use laws::{
    instant_law, interrupt_law, order_law, run_law, safety_law, settle_law, silent_law, slot_law,
    step_law,
};
pub use live_loading::loading_law;
pub use next::Next;
pub use phase::Phase;
