//! The instruction words of the 32-bit PowerPC (Power ISA, Book I): one table of forms, used in
//! both directions. `decode` turns a word into an instruction, `encode` an instruction into its
//! word. `row_for` finds a word's instruction without its fields.
#![tactic(auto)]

ghost use Rattle.ppc_word.specs.Laws.{TableLaw};

mod bits;
mod coding;
mod decoded;
pub mod fields;
mod index;
mod insn;
mod op;
mod pattern;
mod piece;
mod row;
mod rule;
mod table;
mod word;

pub use bits::{bits_of, extend_half, extend_sign, ones_between};
pub use coding::{decode, encode, row_for, rule_of};
pub use decoded::{Decoded, decode_once, decode_word, empty};
pub use insn::Insn;
pub use op::Op;
pub use row::Row;
pub use rule::Rule;

/// The law of the table: each form has 32 bits, each instruction has its form, and no word matches
/// two forms.
pub fn table_law()
    ensures { TableLaw }
{}
