//! The outside of the board: folders of files, sinks of bytes and devices as traits, with folders
//! and sinks in memory and real ones.
#![tactic(auto)]

mod byte_fifo;
mod calls;
mod counted;
mod device;
mod event_counter;
mod folder;
mod host;
mod latch;
mod mem_folder;
mod mem_sink;
mod sink;

pub use byte_fifo::ByteFifo;
pub use counted::Counted;
pub use device::{Device, DeviceKind, Slots};
pub use event_counter::EventCounter;
pub use folder::{FetchOutcome, Fetched, Folder};
pub use host::{HostFolder, HostSink};
pub use latch::Latch;
pub use mem_folder::MemFolder;
pub use mem_sink::MemSink;
pub use sink::{Put, Sink};
