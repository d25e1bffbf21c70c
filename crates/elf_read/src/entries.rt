//! The entries of a file's tables, field by field (System V ABI, "Object Files").

/// A section header (Elf32_Shdr), without `sh_addr`.
#[derive(Clone, Copy, Drop)]
pub struct SectionHeader {
    /// `sh_name`: where its name begins in the string table of the sections' names.
    pub name: u32,
    /// `sh_type`.
    pub kind: u32,
    /// `sh_flags`.
    pub flags: u32,
    /// `sh_offset`: where its content begins in the file.
    pub offset: u32,
    /// `sh_size`, in bytes.
    pub size: u32,
    /// `sh_link`.
    pub link: u32,
    /// `sh_info`.
    pub info: u32,
    /// `sh_addralign`, in bytes.
    pub align: u32,
    /// `sh_entsize`, in bytes.
    pub entry_size: u32,
}

/// An entry of the symbol table (Elf32_Sym), without `st_other`.
#[derive(Clone, Copy, Drop)]
pub struct SymbolEntry {
    /// `st_name`: where its name begins in the string table of the symbols' names.
    pub name: u32,
    /// `st_value`.
    pub value: u32,
    /// `st_size`, in bytes.
    pub size: u32,
    /// `st_info`: the binding and the type.
    pub info: u8,
    /// `st_shndx`: the number of its section, or a number for a symbol without a section.
    pub section: u16,
}

/// An entry of a table of relocations with addends (Elf32_Rela).
#[derive(Clone, Copy, Drop)]
pub struct RelaEntry {
    /// `r_offset`: the offset in the section, in bytes.
    pub offset: u32,
    /// `r_info`: the symbol and the type.
    pub info: u32,
    /// `r_addend`.
    pub addend: u32,
}
