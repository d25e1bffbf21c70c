//! Which tasks wait for which mutex owners, and the priorities that owners inherit from their
//! waiters.
#![tactic(auto)]

mod chain;
mod heirs;
mod laws;
mod mutex;
mod place;
mod settling;

pub use chain::boss;
pub use heirs::{inherit, more_urgent};
pub use laws::{exact_law, owner_law, raised_law, urgency_law, walk_law};
pub use mutex::Mutex;
pub use settling::settle;
