//! Instructions.

ghost use Rattle.std.specs.Prelude.{IsTrue};
ghost use Rattle.ppc_word.specs.Rows.{are_fields};

use crate::row::Row;

/// An instruction of the table, with its fields. The type guarantees that each field fits its
/// width, and that the instruction's word is in the table.
#[derive(Clone, Copy, Debug, PartialEq, Eq)]
pub struct Insn {
    /// The instruction's row in the table.
    pub row: Row,
    /// The fields named by its form, in the order of their bits. The unused places are 0.
    pub fields: [u32; 6],
    pub ghost in_table: { IsTrue (are_fields row fields) },
}
