//! Symbols.

use thiserror::Error;
use wind_base::{Name, NoMemory};

/// What a symbol stands for.
#[derive(Clone, Copy, Debug, PartialEq, Eq)]
pub enum SymKind {
    /// A place in code.
    TextSym,
    /// A place in initialized data.
    DataSym,
    /// A place in data that is initially zero.
    BssSym,
    /// A number.
    AbsSym,
}

/// An entry of the table: a name of 1 to 255 bytes, and what it stands for.
#[derive(Drop)]
pub struct Symbol {
    /// Its name.
    pub name: Name,
    /// Its value: an address or a number.
    pub value: u32,
    /// What it stands for.
    pub kind: SymKind,
    /// Whether modules that are loaded later can bind to it.
    pub global: bool,
    /// The id of the module that it belongs to; 0 for the symbols of the kernel, of the shell, and
    /// those added by a call.
    pub group: u32,
}

/// Why no room was reserved. The symbols are as they were.
#[derive(Clone, Copy, Debug, PartialEq, Eq, Error)]
pub enum SymErr {
    /// There would be more than 65,536 symbols.
    #[error("the symbol table is full")]
    TableFull,
    /// Host memory ran out.
    #[error("{NoMemory}")]
    NoMemory,
}
