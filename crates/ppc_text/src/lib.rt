//! Instructions as text. `parse` reads a line of assembler source; `show` writes an instruction as such a line. Both
//! use one table of the mnemonics and their operands. The names and operands are those of the Power ISA, Book I.
#![tactic(auto)]

mod diagnosis;
mod lexer;
mod line;
mod making;
mod mnemonic;
mod operand;
mod part;
mod showing;
mod token;
mod values;

pub use diagnosis::{Place, Reason, Refusal, item_place, label_place, refusal_of};
pub use line::{Instruction, Item, Line, parse};
pub use making::insn_of;
pub use showing::{show, shown_law};
pub use source_text::Text;
pub use token::{Reference, Word};
pub use values::{Value, Values};
