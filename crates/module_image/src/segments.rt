//! The three segments of a module, and the memory that each needs.

/// A segment of a module.
#[derive(Clone, Copy, Debug, PartialEq, Eq)]
pub enum SegmentKind {
    /// Sections with bytes that programs can't write.
    Text,
    /// Sections with bytes that programs can write.
    Data,
    /// Sections that are initially zero, followed by the common symbols.
    Bss,
}

/// The addresses of the segments; 0 for a segment without a block.
#[derive(Clone, Copy, Debug, PartialEq, Eq)]
pub struct Places {
    /// The address of text.
    pub text: u32,
    /// The address of data.
    pub data: u32,
    /// The address of bss.
    pub bss: u32,
}

/// How many bytes of each segment are used so far.
#[derive(Clone, Copy, Debug, PartialEq, Eq)]
pub struct Ends {
    /// The bytes of text.
    pub text: u64,
    /// The bytes of data.
    pub data: u64,
    /// The bytes of bss.
    pub bss: u64,
}

/// The memory that a segment needs.
#[derive(Clone, Copy, Debug, PartialEq, Eq)]
pub struct Need {
    /// The size in bytes. It may exceed any memory.
    pub size: u64,
    /// The greatest alignment of its parts, at least 16.
    pub align: u32,
}

/// The memory that the segments need.
#[derive(Clone, Copy, Debug, PartialEq, Eq)]
pub struct Needs {
    /// What text needs.
    pub text: Need,
    /// What data needs.
    pub data: Need,
    /// What bss needs.
    pub bss: Need,
}
