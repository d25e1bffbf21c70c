//! A session that is typed while it is played: its board, and the record from which windplay replays
//! it exactly.
#![tactic(auto)]

mod aside;
mod command;
mod continuing;
mod conversation;
mod dot_line;
mod events;
mod host;
mod input;
mod journal;
mod keeping;
mod live;
mod memory;
mod messages;
mod playing;
mod program;
mod reading;
mod record;
mod record_folder;
mod running;
mod saving;
mod serving;
mod status;
mod terminal;

pub use command::{Command, command_of, is_at_terminal};
pub use host::{HostInput, HostRecordFolder};
pub use input::{Input, InputPart};
pub use memory::{MemInput, MemRecordFolder};
pub use messages::tell_no_memory;
pub use playing::play_live;
pub use program::live_program;
pub use record_folder::{Flush, Presence, RecordFolder};
pub use status::Status;
pub use terminal::HostTerminal;
