//! The numbers of the ELF format: System V ABI, edition 4.1, "Object Files", and the PowerPC
//! Processor Supplement. Places are offsets in bytes.

/// The size in bytes of the ELF header.
pub const EHDR_BYTES: usize = 52;

/// The beginning of `e_ident`: the magic number, 32-bit objects, high byte first, the current
/// version.
pub const IDENT: [u8; 7] = [0x7f, 0x45, 0x4c, 0x46, 1, 2, 1];

/// The place of `e_type` in the ELF header.
pub const E_TYPE: usize = 16;

/// The place of `e_machine`.
pub const E_MACHINE: usize = 18;

/// The place of `e_shoff`.
pub const E_SHOFF: usize = 32;

/// The place of `e_shentsize`.
pub const E_SHENTSIZE: usize = 46;

/// The place of `e_shnum`.
pub const E_SHNUM: usize = 48;

/// The place of `e_shstrndx`.
pub const E_SHSTRNDX: usize = 50;

/// `e_type` of a relocatable file.
pub const ET_REL: u16 = 1;

/// `e_machine` of PowerPC.
pub const EM_PPC: u16 = 20;

/// The size in bytes of a section header.
pub const SHDR_BYTES: usize = 40;

/// The place of `sh_offset` in a section header.
pub const SH_OFFSET: usize = 16;

/// `sh_type` of a header without a section.
pub const SHT_NULL: u32 = 0;

/// `sh_type` of a section with bytes of the program.
pub const SHT_PROGBITS: u32 = 1;

/// `sh_type` of a symbol table.
pub const SHT_SYMTAB: u32 = 2;

/// `sh_type` of a string table.
pub const SHT_STRTAB: u32 = 3;

/// `sh_type` of a table of relocations with addends.
pub const SHT_RELA: u32 = 4;

/// `sh_type` of a note.
pub const SHT_NOTE: u32 = 7;

/// `sh_type` of a section of zeros, without bytes in the file.
pub const SHT_NOBITS: u32 = 8;

/// `sh_type` of a table of relocations without addends.
pub const SHT_REL: u32 = 9;

/// `sh_flags`: the section is loaded.
pub const SHF_ALLOC: u32 = 2;

/// `sh_flags`: `sh_info` is a section number.
pub const SHF_INFO_LINK: u32 = 0x40;

/// `sh_flags`: the section is thread-local storage, or its content is compressed. Neither is
/// loaded.
pub const SHF_TLS_OR_COMPRESSED: u32 = 0xc00;

/// The size in bytes of a symbol table entry.
pub const SYM_BYTES: usize = 16;

/// `st_shndx` of an undefined symbol.
pub const SHN_UNDEF: u16 = 0;

/// `st_shndx` of an absolute symbol.
pub const SHN_ABS: u16 = 0xfff1;

/// `st_shndx` of a common symbol.
pub const SHN_COMMON: u16 = 0xfff2;

/// The greatest binding that the ABI defines.
pub const STB_WEAK: u8 = 2;

/// The greatest symbol type that the ABI defines.
pub const STT_COMMON: u8 = 5;

/// The size in bytes of a relocation with an addend.
pub const RELA_BYTES: usize = 12;

/// The relocation types that change a halfword: `R_PPC_ADDR16`, its `_LO`, `_HI` and `_HA`, and
/// `R_PPC_UADDR16`.
pub const HALF_TYPES: [u8; 5] = [3, 4, 5, 6, 25];

/// The relocation types that change a word: `R_PPC_ADDR32`, `R_PPC_ADDR24`, `R_PPC_ADDR14` and its
/// two with a branch hint, `R_PPC_REL24`, `R_PPC_REL14` and its two with a branch hint,
/// `R_PPC_UADDR32` and `R_PPC_REL32`.
pub const WORD_TYPES: [u8; 11] = [1, 2, 7, 8, 9, 10, 11, 12, 13, 24, 26];
