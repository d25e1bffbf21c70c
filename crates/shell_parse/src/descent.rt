//! The trees of tokens, by recursive descent.

ghost use Rattle.std.specs.Prelude.{◌≡◌, ◌<◌, ◌==◌, suc, Some, None, IfOk, IfErr, option_map};
ghost use Rattle.shell_parse.specs.declared.descent.ReadErr.TheVariants.{NoTree};
ghost use Rattle.shell_parse.specs.Levels.{level_of};
ghost use Rattle.shell_parse.specs.Trees.{plain_tree, plain_arguments};
ghost use Rattle.shell_parse.specs.Trees as trees;
ghost use Rattle.shell_parse.specs.Gives.{Gives};
ghost use Rattle.shell_parse.specs.Descent.{whole_at, star_at, climb_at, more_at, level_at, unary_at, calls_at, args_at, listed_at, closed, after_mark as after_mark_lem, named as named_lem, assigned as assigned_lem, name_assigned as name_assigned_lem, operator_at, level_ahead as level_ahead_lem, mapped};

use crate::token::{Token, Word};
use crate::tree::{BinOp, Tree, UnOp};
use source_text::Text;
use std::alloc::{AllocError, AllocFailed, Global};
use wind_base::{Name, NameErr};

// The most arguments of a call.
pub(crate) const ARGUMENTS: u32 = 10;

// The number of operator levels.
const LEVELS: u32 = 10;

/// Why nothing was read.
#[derive(Clone, Copy, Debug, PartialEq, Eq)]
pub(crate) enum ReadErr {
    /// The tokens have no tree.
    NoTree,
    /// Host memory ran out.
    NoMemory,
}

impl From<AllocError> for ReadErr {
    ghost use Rattle.shell_parse.specs.declared.descent.ReadErr.TheVariants.{NoMemory};

    ghost from_gives = { λ _ e. e ≡ NoMemory };

    fn from(_: AllocError) -> ReadErr {
        ReadErr::NoMemory
    }
}

impl<T: Drop> From<AllocFailed<T>> for ReadErr {
    ghost use Rattle.shell_parse.specs.declared.descent.ReadErr.TheVariants.{NoMemory};

    ghost from_gives = { λ _ e. e ≡ NoMemory };

    fn from(_: AllocFailed<T>) -> ReadErr {
        ReadErr::NoMemory
    }
}

/// The tokens that are still to be read.
pub(crate) type Tokens<'a> = &'a [Token<'a>];

/// What was read, and the tokens after it.
pub(crate) type Reads<'a, X> = Result<(X, Tokens<'a>), ReadErr>;

pub(crate) fn name_of(alloc: Global, word: &Word) -> Result<Name, ReadErr>
    ensures { Gives (λ name. name) result (Some word.now) }
{
    match Name::new(alloc, word.bytes()) {
        Ok(name) => Ok(name),
        Err(NameErr::NoMemory) => Err(ReadErr::NoMemory),
        Err(NameErr::TooLong) => unreachable!(),
    }
}

fn string_of(alloc: Global, text: &Text) -> Result<Tree, ReadErr>
    ensures { Gives plain_tree result (Some (trees.Str text.now)) }
{
    Ok(Tree::Str(text.bytes().to_vec(alloc)?))
}

fn named_tree(alloc: Global, word: &Word) -> Result<Tree, ReadErr>
    ensures { Gives plain_tree result (Some (trees.Name word.now)) }
{
    Ok(Tree::Name(name_of(alloc, word)?))
}

fn prefix(alloc: Global, op: UnOp, operand: Tree) -> Result<Tree, ReadErr>
    ensures { Gives plain_tree result (Some (trees.Unary op (plain_tree operand))) }
{
    Ok(Tree::Unary(op, Box::new(alloc, operand)?))
}

fn word_tree(alloc: Global, address: Tree) -> Result<Tree, ReadErr>
    ensures { Gives plain_tree result (Some (trees.Word (plain_tree address))) }
{
    Ok(Tree::Word(Box::new(alloc, address)?))
}

fn join(alloc: Global, op: BinOp, left: Tree, right: Tree) -> Result<Tree, ReadErr>
    ensures { Gives plain_tree result (Some (trees.Binary op (plain_tree left) (plain_tree right))) }
{
    let left = Box::new(alloc, left)?;
    let right = Box::new(alloc, right)?;
    Ok(Tree::Binary(op, left, right))
}

fn set_name(alloc: Global, op: Option<BinOp>, word: &Word, right: Tree) -> Result<Tree, ReadErr>
    ensures { Gives plain_tree result (Some (trees.SetName op word.now (plain_tree right))) }
{
    let name = name_of(alloc, word)?;
    Ok(Tree::SetName(op, name, Box::new(alloc, right)?))
}

fn set_word(alloc: Global, op: Option<BinOp>, left: Tree, right: Tree) -> Result<Tree, ReadErr>
    ensures { Gives plain_tree result (Some (trees.SetWord op (plain_tree left) (plain_tree right))) }
{
    let left = Box::new(alloc, left)?;
    let right = Box::new(alloc, right)?;
    Ok(Tree::SetWord(op, left, right))
}

fn call(alloc: Global, callee: Tree, arguments: Vec<Tree>) -> Result<Tree, ReadErr>
    ensures { Gives plain_tree result (Some (trees.Call (plain_tree callee) (plain_arguments arguments.items))) }
{
    Ok(Tree::Call(Box::new(alloc, callee)?, arguments))
}

fn one_argument(alloc: Global, argument: Tree) -> Result<Vec<Tree>, ReadErr>
    ensures { Gives (λ v. plain_arguments v.items) result (Some (trees.Then (plain_tree argument) trees.End)) }
{
    let mut arguments = Vec::new(alloc);
    arguments.push(argument)?;
    Ok(arguments)
}

fn with_first(first: Tree, mut rest: Vec<Tree>) -> Result<Vec<Tree>, ReadErr>
    ensures { Gives (λ v. plain_arguments v.items) result
        (Some (trees.Then (plain_tree first) (plain_arguments rest.items))) }
{
    rest.insert(0, first)?;
    Ok(rest)
}

// The level of an operator: 0 binds most tightly.
#[tactic(auto, unfolding(crate::specs::Levels::level_of))]
fn level(op: BinOp) -> u32
    ensures { result ≡ level_of op }
{
    match op {
        BinOp::Times | BinOp::Over | BinOp::Rest => 0,
        BinOp::Plus | BinOp::Minus => 1,
        BinOp::Shl | BinOp::Shr => 2,
        BinOp::Lt | BinOp::Le | BinOp::Gt | BinOp::Ge => 3,
        BinOp::Eq | BinOp::Ne => 4,
        BinOp::And => 5,
        BinOp::Xor => 6,
        BinOp::Or => 7,
        BinOp::AndAlso => 8,
        BinOp::OrElse => 9,
    }
}

/// A token that parts others.
#[derive(Clone, Copy, Debug)]
pub(crate) enum Mark {
    /// `)`.
    Close,
    /// `(`.
    Open,
    /// `,`.
    Comma,
    /// `*`.
    Star,
}

// The tokens after a mark, if the first token is that mark.
fn after_mark<'a>(mark: Mark, tokens: Tokens<'a>) -> Option<Tokens<'a>>
    ensures { option_map (λ rest. rest.now) result ≡ after_mark_lem mark tokens.now }
{
    match (mark, tokens) {
        (Mark::Close, [Token::Close, rest @ ..]) => Some(rest),
        (Mark::Open, [Token::Open, rest @ ..]) => Some(rest),
        (Mark::Comma, [Token::Comma, rest @ ..]) => Some(rest),
        (Mark::Star, [Token::Operator(BinOp::Times), rest @ ..]) => Some(rest),
        _ => None,
    }
}

// A name, an assignment, or both, and the tokens after them.

fn named<'a>(tokens: Tokens<'a>) -> Option<(&'a Word<'a>, Tokens<'a>)>
    ensures { option_map (λ x. (x.0.now, x.1.now)) result ≡ named_lem tokens.now }
{
    let [first, rest @ ..] = tokens else {
        return None;
    };
    match first {
        Token::Name(word) => Some((word, rest)),
        _ => None,
    }
}

fn assigned<'a>(tokens: Tokens<'a>) -> Option<(Option<BinOp>, Tokens<'a>)>
    ensures { option_map (λ x. (x.0, x.1.now)) result ≡ assigned_lem tokens.now }
{
    let [first, rest @ ..] = tokens else {
        return None;
    };
    match first {
        Token::Set(op) => Some((*op, rest)),
        _ => None,
    }
}

fn name_assigned<'a>(tokens: Tokens<'a>) -> Option<(&'a Word<'a>, Option<BinOp>, Tokens<'a>)>
    ensures { option_map (λ x. (x.0.now, x.1, x.2.now)) result ≡ name_assigned_lem tokens.now }
{
    let (word, rest) = named(tokens)?;
    let (op, rest) = assigned(rest)?;
    Some((word, op, rest))
}

// The first token, if it is an operator of this level.
fn first_operator<'a>(at: u32, tokens: Tokens<'a>) -> Option<(BinOp, Tokens<'a>)>
    ensures { option_map (λ x. (x.0, x.1.now)) result ≡ operator_at at tokens.now }
{
    let [first, rest @ ..] = tokens else {
        return None;
    };
    match first {
        Token::Operator(op) if level(*op) == at => Some((*op, rest)),
        _ => None,
    }
}

// The level of the operator that comes first. If none does, the number of levels.
fn level_ahead(tokens: Tokens) -> u32
    ensures { result ≡ level_ahead_lem tokens.now }
{
    let [first, ..] = tokens else {
        return LEVELS;
    };
    match first {
        Token::Operator(op) => level(*op),
        _ => LEVELS,
    }
}

// The address of the name that comes first.
fn address<'a>(alloc: Global, tokens: Tokens<'a>) -> Reads<'a, Tree>
    ensures { Gives (λ x. (plain_tree x.0, x.1.now)) result (mapped trees.Address (named_lem tokens.now)) }
{
    match named(tokens) {
        Some((word, rest)) => Ok((Tree::Address(name_of(alloc, word)?), rest)),
        None => Err(ReadErr::NoTree),
    }
}

// The tokens after a closing parenthesis, which must come first.
fn after_close<'a>(tokens: Tokens<'a>) -> Result<Tokens<'a>, ReadErr>
    ensures { Gives (λ rest. rest.now) result (closed tokens.now) }
{
    match after_mark(Mark::Close, tokens) {
        Some(rest) => Ok(rest),
        None => Err(ReadErr::NoTree),
    }
}

// The depth of the parts of what has this depth; at depth 0 nothing is read.
fn inner(depth: u32) -> Result<u32, ReadErr>
    ensures some { IfOk result (λ n. depth ≡ suc n) }
    ensures none { IfErr result (λ e. (e ≡ NoTree) × (depth ≡ 0)) }
{
    depth.checked_sub(1).ok_or(ReadErr::NoTree)
}

/// An expression.
#[cycle(trees)]
#[tactic(auto, unfolding(crate::specs::Descent::whole_at))]
pub(crate) fn whole<'a>(alloc: Global, depth: u32, tokens: Tokens<'a>) -> Reads<'a, Tree>
    ensures { Gives (λ x. (plain_tree x.0, x.1.now)) result (whole_at depth tokens.now) }
{
    let depth = inner(depth)?;
    if let Some((word, op, rest)) = name_assigned(tokens) {
        let (right, rest) = whole(alloc, depth, rest)?;
        return Ok((set_name(alloc, op, word, right)?, rest));
    }
    match after_mark(Mark::Star, tokens) {
        Some(rest) => star(alloc, depth, rest),
        None => operands(alloc, depth, LEVELS, tokens),
    }
}

// After a star.
#[cycle(trees)]
#[tactic(auto, unfolding(crate::specs::Descent::star_at))]
fn star<'a>(alloc: Global, depth: u32, tokens: Tokens<'a>) -> Reads<'a, Tree>
    ensures { Gives (λ x. (plain_tree x.0, x.1.now)) result (star_at depth tokens.now) }
{
    let depth = inner(depth)?;
    let (operand, rest) = unary(alloc, depth, tokens)?;
    match assigned(rest) {
        Some((op, rest)) => {
            let (right, rest) = whole(alloc, depth, rest)?;
            Ok((set_word(alloc, op, operand, right)?, rest))
        }
        None => climb(alloc, depth, LEVELS, word_tree(alloc, operand)?, rest),
    }
}

#[cycle(trees)]
#[tactic(auto, unfolding(crate::specs::Descent::climb_at), using(crate::proofs::Climbing::passes))]
fn climb<'a>(
    alloc: Global,
    depth: u32,
    count: u32,
    first: Tree,
    tokens: Tokens<'a>,
) -> Reads<'a, Tree>
    ensures { Gives (λ x. (plain_tree x.0, x.1.now)) result (climb_at depth count (plain_tree first) tokens.now) }
{
    let depth = inner(depth)?;
    if count == 0 {
        return Ok((first, tokens));
    }
    // no level down from here has an operator to read
    if depth > count && level_ahead(tokens) >= count {
        return Ok((first, tokens));
    }
    let (left, rest) = climb(alloc, depth, count - 1, first, tokens)?;
    more(alloc, depth, count - 1, left, rest)
}

#[cycle(trees)]
#[tactic(auto, unfolding(crate::specs::Descent::more_at))]
fn more<'a>(alloc: Global, depth: u32, at: u32, left: Tree, tokens: Tokens<'a>) -> Reads<'a, Tree>
    ensures { Gives (λ x. (plain_tree x.0, x.1.now)) result (more_at depth at (plain_tree left) tokens.now) }
{
    let depth = inner(depth)?;
    match first_operator(at, tokens) {
        Some((op, rest)) => {
            let (right, rest) = operands(alloc, depth, at, rest)?;
            let left = join(alloc, op, left, right)?;
            more(alloc, depth, at, left, rest)
        }
        None => Ok((left, tokens)),
    }
}

#[cycle(trees)]
#[tactic(auto, unfolding(crate::specs::Descent::level_at))]
fn operands<'a>(alloc: Global, depth: u32, count: u32, tokens: Tokens<'a>) -> Reads<'a, Tree>
    ensures { Gives (λ x. (plain_tree x.0, x.1.now)) result (level_at depth count tokens.now) }
{
    let depth = inner(depth)?;
    let (operand, rest) = unary(alloc, depth, tokens)?;
    climb(alloc, depth, count, operand, rest)
}

#[cycle(trees)]
#[tactic(auto, unfolding(crate::specs::Descent::unary_at))]
fn unary<'a>(alloc: Global, depth: u32, tokens: Tokens<'a>) -> Reads<'a, Tree>
    ensures { Gives (λ x. (plain_tree x.0, x.1.now)) result (unary_at depth tokens.now) }
{
    let depth = inner(depth)?;
    let [first, rest @ ..] = tokens else {
        return Err(ReadErr::NoTree);
    };
    match first {
        Token::Operator(BinOp::Minus) => {
            let (operand, rest) = unary(alloc, depth, rest)?;
            Ok((prefix(alloc, UnOp::Neg, operand)?, rest))
        }
        Token::Not => {
            let (operand, rest) = unary(alloc, depth, rest)?;
            Ok((prefix(alloc, UnOp::Not, operand)?, rest))
        }
        Token::Com => {
            let (operand, rest) = unary(alloc, depth, rest)?;
            Ok((prefix(alloc, UnOp::Com, operand)?, rest))
        }
        Token::Operator(BinOp::Times) => {
            let (operand, rest) = unary(alloc, depth, rest)?;
            Ok((word_tree(alloc, operand)?, rest))
        }
        Token::Operator(BinOp::And) => address(alloc, rest),
        Token::Number(n) => Ok((Tree::Number(*n), rest)),
        Token::Str(text) => Ok((string_of(alloc, text)?, rest)),
        Token::Name(word) => calls(alloc, depth, named_tree(alloc, word)?, rest),
        Token::Open => {
            let (callee, rest) = whole(alloc, depth, rest)?;
            let rest = after_close(rest)?;
            calls(alloc, depth, callee, rest)
        }
        _ => Err(ReadErr::NoTree),
    }
}

#[cycle(trees)]
#[tactic(auto, unfolding(crate::specs::Descent::calls_at))]
fn calls<'a>(alloc: Global, depth: u32, callee: Tree, tokens: Tokens<'a>) -> Reads<'a, Tree>
    ensures { Gives (λ x. (plain_tree x.0, x.1.now)) result (calls_at depth (plain_tree callee) tokens.now) }
{
    let depth = inner(depth)?;
    match after_mark(Mark::Open, tokens) {
        Some(rest) => {
            let (arguments, rest) = args(alloc, depth, rest)?;
            let callee = call(alloc, callee, arguments)?;
            calls(alloc, depth, callee, rest)
        }
        None => Ok((callee, tokens)),
    }
}

#[cycle(trees)]
#[tactic(auto, unfolding(crate::specs::Descent::args_at))]
fn args<'a>(alloc: Global, depth: u32, tokens: Tokens<'a>) -> Reads<'a, Vec<Tree>>
    ensures { Gives (λ x. (plain_arguments x.0.items, x.1.now)) result (args_at depth tokens.now) }
{
    let depth = inner(depth)?;
    match after_mark(Mark::Close, tokens) {
        Some(rest) => Ok((Vec::new(alloc), rest)),
        None => {
            let (arguments, rest) = listed(alloc, depth, ARGUMENTS, tokens)?;
            let rest = after_close(rest)?;
            Ok((arguments, rest))
        }
    }
}

#[cycle(trees)]
#[tactic(auto, unfolding(crate::specs::Descent::listed_at))]
pub(crate) fn listed<'a>(
    alloc: Global,
    depth: u32,
    most: u32,
    tokens: Tokens<'a>,
) -> Reads<'a, Vec<Tree>>
    ensures { Gives (λ x. (plain_arguments x.0.items, x.1.now)) result (listed_at depth most tokens.now) }
{
    let depth = inner(depth)?;
    let most = inner(most)?;
    let (argument, rest) = whole(alloc, depth, tokens)?;
    match after_mark(Mark::Comma, rest) {
        Some(after) => {
            let (arguments, after) = listed(alloc, depth, most, after)?;
            Ok((with_first(argument, arguments)?, after))
        }
        None => Ok((one_argument(alloc, argument)?, rest)),
    }
}
