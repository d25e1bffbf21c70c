//! The grammar of a line.

ghost use Rattle.std.specs.Prelude.{◌≡◌, ◌≤◌, ◌+◌, length, slice_get, unwrap_or};
ghost use Rattle.wind_base.specs.Limits.{longest_line};
ghost use Rattle.shell_parse.specs.Reading.{read_line};
ghost use Rattle.shell_parse.specs.Parsed.{IsReading, IsParsed};
ghost use Rattle.shell_parse.specs.Laws.{ReadLaw, RefusedLaw, OnlyLaw};

use crate::allowed::begun_len;
use crate::descent::ReadErr;
use crate::lexer::tokens;
use crate::statement::statements;
use crate::tree::Stmt;
use std::alloc::{AllocError, Global};
use thiserror::Error;

/// Why a line has no statements.
#[derive(Clone, Copy, Debug, PartialEq, Eq, Error)]
pub enum ParseErr {
    /// The column, counted from 1, of the first token with which no line of the grammar continues.
    /// The end of the line is a token too, one column after the last byte.
    #[error("syntax error at column {0}")]
    Syntax(u32),
    /// Host memory ran out.
    #[error("out of memory")]
    NoMemory,
}

impl From<AllocError> for ParseErr {
    ghost use Rattle.shell_parse.specs.declared.grammar.ParseErr.TheVariants.{NoMemory};

    ghost from_gives = { λ _ e. e ≡ NoMemory };

    fn from(_: AllocError) -> ParseErr {
        ParseErr::NoMemory
    }
}

// The column of the token with this number, counted from 0; the end of the line comes after the
// last.
fn column(line: &[u8], columns: &[u32], number: usize) -> u32
    requires { length line.now ≤ longest_line }
    ensures { result ≡ unwrap_or (slice_get columns.now number) (length line.now + 1) }
{
    match columns.get(number) {
        Some(column) => *column,
        None => line.len() as u32 + 1,
    }
}

// The statements of a line, or why there are none.
#[tactic(auto, unfolding(crate::specs::Reading::read_line))]
fn read(alloc: Global, line: &[u8]) -> Result<Vec<Stmt>, ParseErr>
    requires { length line.now ≤ longest_line }
    ensures { IsReading result (read_line line.now) }
{
    let lexed = tokens(alloc, line)?;
    match statements(alloc, &lexed.tokens) {
        Ok(stmts) => Ok(stmts),
        Err(ReadErr::NoMemory) => Err(ParseErr::NoMemory),
        Err(ReadErr::NoTree) => {
            let number = begun_len(alloc, &lexed.tokens)?;
            Err(ParseErr::Syntax(column(line, &lexed.columns, number)))
        }
    }
}

/// The statements of a line of at most 255 bytes. A line without tokens has one statement,
/// `Nothing`.
///
/// `Syntax` is returned exactly if the grammar gives the line no statements. Its column is that of
/// the first token with which no line continues.
#[tactic(auto, using(crate::proofs::Laws::read_trees, crate::proofs::Laws::read_none))]
pub fn parse(alloc: Global, line: &[u8]) -> Result<Vec<Stmt>, ParseErr>
    requires { length line.now ≤ longest_line }
    ensures read { IsReading result (read_line line.now) }
    ensures parsed { IsParsed result line.now }
{
    read(alloc, line)
}

/// The law of reading: what `read_line` computes is what the grammar says. A line has exactly the
/// statements that are read. If none are read, it has none, and the column is that of the first
/// token with which no line of the grammar continues.
pub fn grammar_law()
    ensures read { ReadLaw }
    ensures refused { RefusedLaw }
    ensures only { OnlyLaw }
{}
