//! The trees of the shell's grammar.

use wind_base::Name;

/// The operators between two operands.
#[derive(Clone, Copy, Debug, PartialEq, Eq)]
pub enum BinOp {
    /// `||`: 1 if the left or the right is not 0, else 0.
    OrElse,
    /// `&&`: 1 if the left and the right are not 0, else 0.
    AndAlso,
    /// `|`: the bits that either has.
    Or,
    /// `^`: the bits that exactly one of the two has.
    Xor,
    /// `&`: the bits that both have.
    And,
    /// `==`: 1 if they are equal, else 0.
    Eq,
    /// `!=`: 1 if they differ, else 0.
    Ne,
    /// `<`: 1 if the left is less as a signed number, else 0.
    Lt,
    /// `<=`: 1 if the left is less or equal as a signed number, else 0.
    Le,
    /// `>`: 1 if the left is greater as a signed number, else 0.
    Gt,
    /// `>=`: 1 if the left is greater or equal as a signed number, else 0.
    Ge,
    /// `<<`: the left shifted to the left by the right modulo 32.
    Shl,
    /// `>>`: the left, as a signed number, shifted to the right by the right modulo 32.
    Shr,
    /// `+`: the sum, modulo 2^32.
    Plus,
    /// `-`: the difference, modulo 2^32.
    Minus,
    /// `*`: the product, modulo 2^32.
    Times,
    /// `/`: the quotient of signed numbers, rounded toward 0.
    Over,
    /// `%`: the remainder of signed numbers, with the quotient rounded toward 0.
    Rest,
}

/// The operators before one operand.
#[derive(Clone, Copy, Debug, PartialEq, Eq)]
pub enum UnOp {
    /// `-`: the negative of the operand, modulo 2^32.
    Neg,
    /// `!`: 1 for 0, else 0.
    Not,
    /// `~`: the complement of the operand's bits.
    Com,
}

/// An expression. Its value is a word of 32 bits. Parentheses aren't recorded.
#[derive(Drop)]
pub enum Tree {
    /// A number, or the byte of a character.
    Number(u32),
    /// A string, by its bytes.
    Str(Vec<u8>),
    /// The value that a name means.
    Name(Name),
    /// `&name`: the value of a name.
    Address(Name),
    /// `*e`: the word at an address.
    Word(Box<Tree>),
    /// An operator before its operand.
    Unary(UnOp, Box<Tree>),
    /// An operator between its left and its right operand.
    Binary(BinOp, Box<Tree>, Box<Tree>),
    /// An assignment to a name: for `=` without an operator, else with the operator before the `=`.
    SetName(Option<BinOp>, Name, Box<Tree>),
    /// An assignment to the word at an address: for `=` without an operator, else with the operator
    /// before the `=`.
    SetWord(Option<BinOp>, Box<Tree>, Box<Tree>),
    /// A call of a callee, with at most ten arguments.
    Call(Box<Tree>, Vec<Tree>),
}

/// A statement of a line.
#[derive(Drop)]
pub enum Stmt {
    /// A statement without tokens.
    Nothing,
    /// `ld < file`, with the bytes of the file's name.
    Ld(Vec<u8>),
    /// A call without parentheses: a name, and one to ten arguments.
    Call(Name, Vec<Tree>),
    /// An expression.
    Expr(Tree),
}
