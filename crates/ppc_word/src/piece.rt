//! The pieces of a word.

/// A run of bits of a word.
#[derive(Clone, Copy, Debug, Drop)]
pub(crate) enum Piece {
    /// The given number of bits, with this value.
    Fixed(u8, u32),
    /// A field of the given number of bits.
    Field(u8),
}
