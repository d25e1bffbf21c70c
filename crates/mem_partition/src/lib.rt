//! The memory partition: blocks of a pool of addresses, each at the least or the greatest address
//! that fits.
#![tactic(auto)]

mod block;
mod gaps;
mod held;
mod hole;
mod holes;
mod laws;
mod part;

pub use block::{Block, Class, PartErr};
pub use gaps::{GRAIN, round_up};
pub use hole::Hole;
pub use holes::Holes;
pub use laws::{alloc_law, blocks_law, holes_law, place_law};
pub use part::Part;
