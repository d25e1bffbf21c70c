//! Which token may come next.

ghost use Rattle.std.specs.Prelude.{◌≡◌, IfOk};
ghost use Rattle.shell_parse.specs.Allowed.{begun, on_operand, on_whole, on_target, on_close, on_comma, on_semi, on_done, on_callee, on_variable, on_opened, on_named, on_start, on_file, on_loaded, step};
ghost use Rattle.shell_parse.specs.Steps.{Steps};

use crate::frames::{Frame, Frames};
use crate::statement::is_ld;
use crate::token::Token;
use crate::tree::BinOp;
use std::alloc::{AllocError, Global};

// The most arguments after the first one of a call.
const MORE_ARGUMENTS: u32 = 9;

/// Where in a line a token comes. The mark of an operand says that an assignment may follow it.
#[derive(Clone, Copy, Debug, PartialEq, Eq)]
pub(crate) enum Mode {
    /// At the beginning of a statement.
    Start,
    /// After the name that begins a statement; the mark says whether the name is `ld`.
    Named(bool),
    /// Where an expression must come.
    Whole,
    /// After a name that begins an expression.
    Variable,
    /// Where an operand must come.
    Want(bool),
    /// After `&`, before a name.
    Target(bool),
    /// After an operand that can't be called.
    Done(bool),
    /// After a callee.
    Callee(bool),
    /// After the opening parenthesis of a call.
    Opened,
    /// After `ld <`.
    AtFile,
    /// After the file of a load.
    Loaded,
}

// Each of these functions takes the next token, and returns the mode after it, or `None` if the
// token isn't allowed.

// Where an operand must come.
fn operand(mark: bool, frames: &mut Frames, token: &Token) -> Result<Option<Mode>, AllocError>
    ensures { IfOk result (λ m. Steps m frames.new (on_operand mark frames.old token.now)) }
{
    match token {
        Token::Number(_) | Token::Str(_) => Ok(Some(Mode::Done(mark))),
        Token::Name(_) => Ok(Some(Mode::Callee(mark))),
        Token::Operator(BinOp::Minus | BinOp::Times) | Token::Not | Token::Com => {
            Ok(Some(Mode::Want(mark)))
        }
        Token::Operator(BinOp::And) => Ok(Some(Mode::Target(mark))),
        Token::Open => {
            frames.push(Frame::InGroup(mark))?;
            Ok(Some(Mode::Whole))
        }
        _ => Ok(None),
    }
}

// Where an expression must come.
fn whole(frames: &mut Frames, token: &Token) -> Result<Option<Mode>, AllocError>
    ensures { IfOk result (λ m. Steps m frames.new (on_whole frames.old token.now)) }
{
    match token {
        Token::Name(_) => Ok(Some(Mode::Variable)),
        Token::Operator(BinOp::Times) => Ok(Some(Mode::Want(true))),
        _ => operand(false, frames, token),
    }
}

// After `&`, before a name.
fn target(mark: bool, frames: &Frames, token: &Token) -> Option<Mode>
    ensures { Steps result frames.now (on_target mark frames.now token.now) }
{
    match token {
        Token::Name(_) => Some(Mode::Done(mark)),
        _ => None,
    }
}

// A closing parenthesis after an expression.
fn close(frames: &mut Frames) -> Option<Mode>
    ensures { Steps result frames.new (on_close frames.old) }
{
    match frames.top() {
        Some(Frame::InGroup(mark)) | Some(Frame::InCall(_, mark)) => {
            frames.pop();
            Some(Mode::Callee(mark))
        }
        _ => None,
    }
}

// A comma after an expression.
fn comma(frames: &mut Frames) -> Result<Option<Mode>, AllocError>
    ensures { IfOk result (λ m. Steps m frames.new (on_comma frames.old)) }
{
    let next = match frames.top() {
        Some(Frame::InCall(left, mark)) if left > 0 => Frame::InCall(left - 1, mark),
        Some(Frame::InCommand(left)) if left > 0 => Frame::InCommand(left - 1),
        _ => return Ok(None),
    };
    frames.pop();
    frames.push(next)?;
    Ok(Some(Mode::Whole))
}

// A semicolon after an expression.
fn semi(frames: &mut Frames) -> Option<Mode>
    ensures { Steps result frames.new (on_semi frames.old) }
{
    match frames.top() {
        None => Some(Mode::Start),
        Some(Frame::InCommand(_)) => {
            frames.clear();
            Some(Mode::Start)
        }
        _ => None,
    }
}

// After an operand that can't be called.
fn done(mark: bool, frames: &mut Frames, token: &Token) -> Result<Option<Mode>, AllocError>
    ensures { IfOk result (λ m. Steps m frames.new (on_done mark frames.old token.now)) }
{
    match token {
        Token::Operator(_) => Ok(Some(Mode::Want(false))),
        Token::Set(_) if mark => Ok(Some(Mode::Whole)),
        Token::Close => Ok(close(frames)),
        Token::Comma => comma(frames),
        Token::Semi => Ok(semi(frames)),
        _ => Ok(None),
    }
}

// After a callee.
fn callee(mark: bool, frames: &mut Frames, token: &Token) -> Result<Option<Mode>, AllocError>
    ensures { IfOk result (λ m. Steps m frames.new (on_callee mark frames.old token.now)) }
{
    match token {
        Token::Open => {
            frames.push(Frame::InCall(MORE_ARGUMENTS, mark))?;
            Ok(Some(Mode::Opened))
        }
        _ => done(mark, frames, token),
    }
}

// After a name that begins an expression.
fn variable(frames: &mut Frames, token: &Token) -> Result<Option<Mode>, AllocError>
    ensures { IfOk result (λ m. Steps m frames.new (on_variable frames.old token.now)) }
{
    match token {
        Token::Set(_) => Ok(Some(Mode::Whole)),
        _ => callee(false, frames, token),
    }
}

// After the opening parenthesis of a call.
fn opened(frames: &mut Frames, token: &Token) -> Result<Option<Mode>, AllocError>
    ensures { IfOk result (λ m. Steps m frames.new (on_opened frames.old token.now)) }
{
    match token {
        Token::Close => Ok(close(frames)),
        _ => whole(frames, token),
    }
}

// After the name that begins a statement.
fn named(ld: bool, frames: &mut Frames, token: &Token) -> Result<Option<Mode>, AllocError>
    ensures { IfOk result (λ m. Steps m frames.new (on_named ld token.now)) }
{
    frames.clear();
    match token {
        Token::Number(_) | Token::Str(_) | Token::Name(_) | Token::Not | Token::Com => {
            frames.push(Frame::InCommand(MORE_ARGUMENTS))?;
            whole(frames, token)
        }
        Token::Redirect if ld => Ok(Some(Mode::AtFile)),
        _ => variable(frames, token),
    }
}

// At the beginning of a statement.
fn start(frames: &mut Frames, token: &Token) -> Result<Option<Mode>, AllocError>
    ensures { IfOk result (λ m. Steps m frames.new (on_start token.now)) }
{
    frames.clear();
    match token {
        Token::Semi => Ok(Some(Mode::Start)),
        Token::Name(name) => Ok(Some(Mode::Named(is_ld(name)))),
        _ => whole(frames, token),
    }
}

// After `ld <`.
fn file(frames: &mut Frames, token: &Token) -> Option<Mode>
    ensures { Steps result frames.new (on_file token.now) }
{
    frames.clear();
    match token {
        Token::File(_) => Some(Mode::Loaded),
        _ => None,
    }
}

// After the file of a load.
fn loaded(frames: &mut Frames, token: &Token) -> Option<Mode>
    ensures { Steps result frames.new (on_loaded token.now) }
{
    frames.clear();
    match token {
        Token::Semi => Some(Mode::Start),
        _ => None,
    }
}

fn next_mode(mode: Mode, frames: &mut Frames, token: &Token) -> Result<Option<Mode>, AllocError>
    ensures { IfOk result (λ m. Steps m frames.new (step mode frames.old token.now)) }
{
    match mode {
        Mode::Start => start(frames, token),
        Mode::Named(ld) => named(ld, frames, token),
        Mode::Whole => whole(frames, token),
        Mode::Variable => variable(frames, token),
        Mode::Want(mark) => operand(mark, frames, token),
        Mode::Target(mark) => Ok(target(mark, frames, token)),
        Mode::Done(mark) => done(mark, frames, token),
        Mode::Callee(mark) => callee(mark, frames, token),
        Mode::Opened => opened(frames, token),
        Mode::AtFile => Ok(file(frames, token)),
        Mode::Loaded => Ok(loaded(frames, token)),
    }
}

/// How many of the first tokens some line begins with.
#[tactic(auto, unfolding(crate::specs::Allowed::begun))]
pub(crate) fn begun_len(alloc: Global, tokens: &[Token]) -> Result<usize, AllocError>
    ensures { IfOk result (λ n. n ≡ begun tokens.now) }
{
    let mut frames = Frames::new(alloc);
    let mut mode = Mode::Start;
    for (i, token) in tokens.iter().enumerate() {
        match next_mode(mode, &mut frames, token)? {
            None => return Ok(i),
            Some(next) => mode = next,
        }
    }
    Ok(tokens.len())
}
