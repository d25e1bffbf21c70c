//! The grammar of the shell's lines.
#![tactic(auto)]

mod allowed;
mod descent;
mod frames;
mod grammar;
mod lexer;
mod literal;
mod sign;
mod statement;
mod token;
mod tree;

pub use grammar::{ParseErr, grammar_law, parse};
pub use tree::{BinOp, Stmt, Tree, UnOp};
