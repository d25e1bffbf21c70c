//! Relocatable object files for PowerPC (ELF, System V ABI): reads the module of a file, or finds
//! the first rule that refuses the file.
#![tactic(auto)]

mod checking;
mod entries;
mod error;
mod header_rules;
mod items;
mod laws;
mod module;
mod outlines;
mod places;
mod reading;
mod relocation_rules;
mod section_rules;
pub mod standard;
mod symbol_rules;
mod tables;

pub use checking::check;
pub use entries::{RelaEntry, SectionHeader, SymbolEntry};
pub use error::ElfErr;
pub use items::Items;
pub use laws::{alignment_law, module_law, refusal_law};
pub use module::{Body, Bytes, Module, Rel, RelList, Sect, SectList, Sym, SymList, SymPlace};
pub use outlines::{Outline, Shape, fill, find_shape, read_outline};
pub use reading::read;
pub use section_rules::is_alignment;
pub use tables::{content, header, header_count, is_loaded, width};
