//! What the runs of the wind machine do with messages: no queue loses, invents or changes a
//! message.
#![tactic(auto)]

mod laws;

pub use laws::message_law;
