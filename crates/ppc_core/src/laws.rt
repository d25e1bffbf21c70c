//! What follows from the equations of the instructions.

ghost use Rattle.ppc_core.specs.Laws.{InstructionLaw, MoveToCrLaw};

use crate::bus::Bus;

/// The law of instructions. A word has the effect of the instruction that `decode` finds, that is,
/// of its row with its fields. Each field is read as its name in the book says. A word without an
/// instruction is illegal.
pub fn instruction_law<B: Bus>()
    ensures { InstructionLaw B.meaning }
{}

/// The law of `mtcrf`: a bit of CR becomes that of (RS) exactly if FXM names its field; nothing
/// else changes.
pub fn move_to_cr_law<B: Bus>()
    ensures { MoveToCrLaw B.meaning }
{}
