//! How a call of `ppcasm` ends.

ghost use Rattle.std.specs.Prelude.{◌≡◌};
ghost use Rattle.ppc_asm.specs.Command.{number_of};

use asm_lines::Cause;
use elf_read::ElfErr;

/// How a call of `ppcasm` ended.
#[derive(Clone, Copy, Debug, PartialEq, Eq, Drop)]
pub enum AsmStatus {
    /// All output is written.
    Done,
    /// The arguments have neither of the program's two forms.
    Usage,
    /// The file doesn't exist.
    Absent,
    /// Reading the file failed.
    ReadFault,
    /// Writing failed, after a prefix of the output.
    WriteFault,
    /// Host memory ran out.
    NoMemory,
    /// A line of the source text is refused: the first such line, counted from 1, and its first cause.
    BadSource(u64, Cause),
    /// The file exceeds 1 MiB.
    TooLong,
    /// The file to be listed isn't a module: the first rule that it breaks.
    BadObject(ElfErr),
}

impl AsmStatus {
    /// The program's exit status.
    pub fn number(&self) -> u8
        ensures { result ≡ number_of self.now }
    {
        match self {
            AsmStatus::Done => 0,
            AsmStatus::Usage => 1,
            AsmStatus::Absent => 2,
            AsmStatus::ReadFault => 4,
            AsmStatus::WriteFault => 5,
            AsmStatus::NoMemory => 6,
            AsmStatus::BadSource(_, _) => 7,
            AsmStatus::TooLong => 8,
            AsmStatus::BadObject(_) => 10,
        }
    }
}
