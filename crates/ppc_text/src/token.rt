//! The tokens of a line.

use source_text::Text;
use std::marker::Model;

/// A name: bytes of the source text.
#[derive(Drop)]
pub struct Word<'a> {
    pub(crate) kept: &'a [u8],
}

impl<'a> Model for Word<'a> {
    ghost use Rattle.std.specs.Prelude.{ℕ, List};

    ghost Value = { List ℕ };

    ghost view = { λ w. w.kept.now };
}

impl<'a> Word<'a> {
    ghost use Rattle.std.specs.Prelude.{◌≡◌};

    /// The bytes.
    pub fn bytes(&self) -> &'a [u8]
        ensures { result.now ≡ self.now }
    {
        self.kept
    }

    /// Another `Word` for the same bytes.
    pub fn again(&self) -> Word<'a>
        ensures { result ≡ self.now }
    {
        Word { kept: self.kept }
    }
}

/// The half of an address that an immediate operand holds.
#[derive(Clone, Copy, Debug, PartialEq, Eq, Drop)]
pub(crate) enum Half {
    /// `@l`: the lower half.
    Low,
    /// `@h`: the upper half.
    High,
    /// `@ha`: the upper half, adjusted for a lower half that is added as a signed number.
    HighAdjusted,
}

/// A token.
#[derive(Drop)]
pub(crate) enum Token<'a> {
    /// A number, written in decimal, octal or hexadecimal.
    Number(u32),
    /// A string.
    Str(Text),
    /// A name: a letter or an underscore, then letters, digits and underscores; at most 255 bytes.
    Name(Word<'a>),
    /// A name with a dot before or after it: a directive, or a mnemonic that ends in a dot.
    Dotted(Word<'a>),
    /// `@l`, `@h` or `@ha`.
    Part(Half),
    /// `:`.
    Colon,
    /// `,`.
    Comma,
    /// `(`.
    Open,
    /// `)`.
    Close,
    /// `+`.
    Plus,
    /// `-`.
    Minus,
    /// Anything else: an invalid literal or name, or any other byte. No line may hold it.
    Unknown,
}

/// A relocated address: a symbol with an addend, and the type of the relocation.
#[derive(Drop)]
pub struct Reference<'a> {
    /// The symbol's name.
    pub symbol: Word<'a>,
    /// The number that is added to the symbol's value, modulo 2^32.
    pub addend: u32,
    /// The relocation's type, `R_PPC_..` in the PowerPC ABI supplement.
    pub kind: u8,
}
