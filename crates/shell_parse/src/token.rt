//! The tokens of a line.

use crate::tree::BinOp;
use source_text::Text;
use std::marker::Model;

/// Bytes of the line: a name, or the name of a file.
#[derive(Drop)]
pub(crate) struct Word<'a> {
    pub(crate) kept: &'a [u8],
}

impl<'a> Model for Word<'a> {
    ghost use Rattle.std.specs.Prelude.{ℕ, List, ◌≤◌, length};
    ghost use Rattle.wind_base.specs.Limits.{longest_line};

    ghost Value = { List ℕ };

    ghost view = { λ w. w.kept.now };

    ghost invariant = { λ w. length w.kept.now ≤ longest_line };
}

impl<'a> Word<'a> {
    ghost use Rattle.std.specs.Prelude.{◌≡◌, ◌≤◌, length};
    ghost use Rattle.wind_base.specs.Limits.{longest_line};

    /// The bytes.
    pub(crate) fn bytes(&self) -> &[u8]
        ensures value { result.now ≡ self.now }
        ensures within { length result.now ≤ longest_line }
    {
        self.kept
    }
}

/// A token.
#[derive(Drop)]
pub(crate) enum Token<'a> {
    /// A number in one of its three spellings, or the byte of a character.
    Number(u32),
    /// A string.
    Str(Text),
    /// A name: a letter or an underscore, and the letters, digits and underscores after it.
    Name(Word<'a>),
    /// An operator between two operands; `-`, `*` and `&` also come before one.
    Operator(BinOp),
    /// An assignment: `=`, or an operator and `=`.
    Set(Option<BinOp>),
    /// `!`.
    Not,
    /// `~`.
    Com,
    /// An opening parenthesis.
    Open,
    /// A closing parenthesis.
    Close,
    /// A comma.
    Comma,
    /// A semicolon.
    Semi,
    /// `<` after an `ld` that begins a statement.
    Redirect,
    /// The file after `ld <`.
    File(Word<'a>),
    /// What no line may contain: `++`, `--`, an unfinished literal, any other byte.
    Unknown,
}

/// Where in a statement a token is, as far as its spelling depends on that.
#[derive(Clone, Copy, Debug, PartialEq, Eq)]
pub(crate) enum Spot {
    /// At the beginning of a statement.
    AtStart,
    /// After the name `ld` that begins a statement.
    AfterLd,
    /// After `ld <`.
    AtFile,
    /// Everywhere else.
    Within,
}
