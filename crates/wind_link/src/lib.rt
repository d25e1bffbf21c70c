//! The static link: the image of several modules at given places, and the call of the program.
#![tactic(auto)]

mod command;
mod files;
mod image;
mod laws;
mod linking;
mod list;
mod placing;
mod report;
mod status;
mod undefined;
mod values;

pub use command::windlink;
pub use laws::{board_law, linked_law};
pub use linking::{LinkErr, Placed, link_all};
pub use status::LinkStatus;
