//! The order of waiters: who waits at which place, and who is first there.
#![tactic(auto)]

mod fronts;
mod laws;
mod order;
mod runs;
mod waits;

pub use laws::{first_law, put_law, take_law};
pub use waits::{Waiter, Waits};
