//! What every crate of windplay shares: the board's limits, a byte buffer with reserved room,
//! lines, numbers as text, priorities, the rules of inheritance, names, error numbers, gates, kinds
//! of boards, the processor's registers, semaphore kinds and options, and the errors "out of memory"
//! and "no room left".
#![tactic(auto)]

mod board_kind;
mod errno;
mod gate;
mod gate_rules;
mod gate_table;
mod laws;
pub mod limits;
mod line;
mod name;
mod number;
mod out_buf;
mod priority;
mod profile;
mod regs;
mod semaphore;
pub mod text;
pub mod words;

pub use board_kind::{BoardKind, BoardRules, Side};
pub use errno::Errno;
pub use gate::Gate;
pub use gate_rules::{Callers, GateRules, gate_name};
pub use laws::tables_law;
pub use line::{bytes_after, first_bytes, line_len};
pub use name::{Name, NameErr, ShortName};
pub use number::decimal;
pub use out_buf::OutBuf;
pub use priority::Pri;
pub use profile::Profile;
pub use regs::Regs;
pub use semaphore::{SemKind, SemOptions};
use std::alloc::AllocError;
use thiserror::Error;

/// Host memory ran out. The object of the call is unchanged.
#[derive(Clone, Copy, Debug, PartialEq, Eq, Error)]
#[error("out of memory")]
pub struct NoMemory;

impl From<AllocError> for NoMemory {
    fn from(_: AllocError) -> NoMemory {
        NoMemory
    }
}

/// A piece is longer than the room left.
#[derive(Clone, Copy, Debug, PartialEq, Eq, Error)]
#[error("no room left")]
pub struct Full;
