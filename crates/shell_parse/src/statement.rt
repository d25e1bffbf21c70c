//! The statements made of the tokens of a line.

ghost use Rattle.std.specs.Prelude.{◌≡◌, ◌<◌, ◌≤◌, None, length, if◌then◌else◌};
ghost use Rattle.wind_base.specs.Limits.{longest_line};
ghost use Rattle.shell_parse.specs.Trees.{plain_stmt, plain_stmts};
ghost use Rattle.shell_parse.specs.Trees as trees;
ghost use Rattle.shell_parse.specs.Gives.{Gives};
ghost use Rattle.shell_parse.specs.Grammar.{most_arguments, is_ld as is_ld_lem};
ghost use Rattle.shell_parse.specs.Descent.{whole_at, listed_at, file_by, mapped, stmt_at, line_at, stmts_of};

use crate::descent::{ARGUMENTS, ReadErr, Reads, Tokens, listed, name_of, whole};
use crate::token::{Token, Word};
use crate::tree::Stmt;
use std::alloc::Global;

/// Whether a name is `ld`, which begins the statement that loads a file.
pub(crate) fn is_ld(name: &Word) -> bool
    ensures { result ≡ is_ld_lem name.now }
{
    name.bytes() == b"ld".as_slice()
}

fn expression<'a>(alloc: Global, depth: u32, tokens: Tokens<'a>) -> Reads<'a, Stmt>
    ensures { Gives (λ x. (plain_stmt x.0, x.1.now)) result (mapped trees.Expr (whole_at depth tokens.now)) }
{
    let (tree, rest) = whole(alloc, depth, tokens)?;
    Ok((Stmt::Expr(tree), rest))
}

// A call without parentheses, from its arguments on.
fn command<'a>(alloc: Global, depth: u32, callee: &Word, tokens: Tokens<'a>) -> Reads<'a, Stmt>
    ensures { Gives (λ x. (plain_stmt x.0, x.1.now)) result
        (mapped (trees.Command callee.now) (listed_at depth most_arguments tokens.now)) }
{
    let (arguments, rest) = listed(alloc, depth, ARGUMENTS, tokens)?;
    Ok((Stmt::Call(name_of(alloc, callee)?, arguments), rest))
}

// The file of a load, after `ld <`.
fn file<'a>(alloc: Global, tokens: Tokens<'a>) -> Reads<'a, Stmt>
    ensures { Gives (λ x. (plain_stmt x.0, x.1.now)) result (file_by tokens.now) }
{
    let [first, rest @ ..] = tokens else {
        return Err(ReadErr::NoTree);
    };
    match first {
        Token::File(word) => Ok((Stmt::Ld(word.bytes().to_vec(alloc)?), rest)),
        _ => Err(ReadErr::NoTree),
    }
}

fn load<'a>(alloc: Global, name: &Word, tokens: Tokens<'a>) -> Reads<'a, Stmt>
    ensures { Gives (λ x. (plain_stmt x.0, x.1.now)) result (if is_ld_lem name.now then file_by tokens.now else None) }
{
    if is_ld(name) {
        file(alloc, tokens)
    } else {
        Err(ReadErr::NoTree)
    }
}

#[tactic(auto, unfolding(crate::specs::Descent::stmt_at))]
fn statement<'a>(alloc: Global, depth: u32, tokens: Tokens<'a>) -> Reads<'a, Stmt>
    ensures { Gives (λ x. (plain_stmt x.0, x.1.now)) result (stmt_at depth tokens.now) }
{
    let [first, rest @ ..] = tokens else {
        return Ok((Stmt::Nothing, tokens));
    };
    match first {
        Token::Semi => Ok((Stmt::Nothing, tokens)),
        Token::Name(callee) => match rest {
            [
                Token::Number(_) | Token::Str(_) | Token::Name(_) | Token::Not | Token::Com,
                ..
            ] => command(alloc, depth, callee, rest),
            [Token::Redirect, rest @ ..] => load(alloc, callee, rest),
            _ => expression(alloc, depth, tokens),
        },
        _ => expression(alloc, depth, tokens),
    }
}

// At most `most` statements.
#[tactic(auto, unfolding(crate::specs::Descent::line_at))]
fn line<'a>(
    alloc: Global,
    most: usize,
    depth: u32,
    tokens: Tokens<'a>,
) -> Result<Vec<Stmt>, ReadErr>
    ensures { Gives (λ list. plain_stmts list.items) result (line_at most depth tokens.now) }
{
    if most == 0 {
        return Err(ReadErr::NoTree);
    }
    let (first, rest) = statement(alloc, depth, tokens)?;
    match rest {
        [] => {
            let mut list = Vec::new(alloc);
            list.push(first)?;
            Ok(list)
        }
        [Token::Semi, rest @ ..] => {
            let mut list = line(alloc, most - 1, depth, rest)?;
            list.insert(0, first)?;
            Ok(list)
        }
        _ => Err(ReadErr::NoTree),
    }
}

/// The statements of the tokens of a line.
pub(crate) fn statements<'a>(alloc: Global, tokens: Tokens<'a>) -> Result<Vec<Stmt>, ReadErr>
    requires { length tokens.now ≤ longest_line }
    ensures { Gives (λ list. plain_stmts list.items) result (stmts_of tokens.now) }
{
    let len = tokens.len() as u32;
    line(alloc, tokens.len() + 1, 20 * len + 20, tokens)
}
