//! Laws of a file's module and of its refusal.

ghost use Rattle.elf_read.specs.Alignments.{AlignmentLaw};
ghost use Rattle.elf_read.specs.First.{RefusedFirst, EachFails, OneAnswer, NeverMemory};
ghost use Rattle.elf_read.specs.Modules.{HoldsModule};

/// The law of refusals. A file is refused by the first of its rules that fails. A rule for each
/// number fails at the first number that it refuses. Each file has exactly one module or exactly
/// one refusal. Running out of memory isn't the refusal of a rule.
pub fn refusal_law()
    ensures first { RefusedFirst }
    ensures numbers { EachFails }
    ensures one { OneAnswer }
    ensures never { NeverMemory }
{}

/// The law of modules: the module of a file has the numbers, sizes and places that the rules
/// require.
pub fn module_law()
    ensures { HoldsModule }
{}

/// The law of alignments: they are exactly the powers of two from 1 to 65,536.
pub fn alignment_law()
    ensures { AlignmentLaw }
{}
