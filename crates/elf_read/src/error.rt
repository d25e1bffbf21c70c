//! Why a file is refused.

ghost use Rattle.std.specs.Prelude.{◌≡◌};

use std::alloc::AllocError;
use thiserror::Error;

/// Why a file is refused. The number is the offset in the file, in bytes, of the field, header or
/// entry that a rule refuses. For a file without a header it is the end of the file.
#[derive(Clone, Copy, Debug, PartialEq, Eq, Error)]
pub enum ElfErr {
    /// The file ends before the end of its header, its section headers or a section's content.
    #[error("short file at {0}")]
    Short(u64),
    /// The file doesn't begin as a 32-bit, big-endian ELF file.
    #[error("not ELF at {0}")]
    NotElf(u64),
    /// The file is for another processor.
    #[error("not PowerPC at {0}")]
    NotPpc(u64),
    /// The file isn't a relocatable file.
    #[error("not relocatable at {0}")]
    NotRel(u64),
    /// A section header, or a field that locates the section headers, is invalid.
    #[error("bad section at {0}")]
    BadSection(u64),
    /// A symbol is invalid.
    #[error("bad symbol at {0}")]
    BadSymbol(u64),
    /// A relocation isn't inside its section, or its symbol doesn't exist.
    #[error("bad relocation at {0}")]
    BadReloc(u64),
    /// There are more section headers, symbols or relocations than the limits allow.
    #[error("too many entries at {0}")]
    TooMany(u64),
    /// Host memory ran out.
    #[error("out of memory")]
    NoMemory,
}

impl From<AllocError> for ElfErr {
    ghost use Rattle.elf_read.specs.declared.error.ElfErr.TheVariants.{NoMemory};

    ghost from_gives = { λ _ e. e ≡ NoMemory };

    fn from(_: AllocError) -> ElfErr {
        ElfErr::NoMemory
    }
}
