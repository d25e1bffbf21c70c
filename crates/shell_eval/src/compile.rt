//! A statement as postfix code.

ghost use Rattle.std.specs.Prelude.{◌≡◌, ◌∷◌, ◌<◌, length, [], OnOk, option_map};
ghost use Rattle.shell_parse.specs.Trees.{plain_tree, plain_arguments, plain_stmt, Load};
ghost use Rattle.shell_eval.specs.Pending.{logic_of};
ghost use Rattle.shell_eval.specs.Code.{compiled, compiled_all, compiled_stmt, compiled_expr, after_left, side_of as side_of_lem, count_onto};

use crate::code::{Code, LeftSide, Op, Text};
use shell_parse::{BinOp, Stmt, Tree};
use std::alloc::Global;
use wind_base::{Name, NoMemory};

// How an operator that may skip its right side treats its left side.
fn side_of(op: BinOp) -> Option<LeftSide>
    ensures { result ≡ option_map side_of_lem (logic_of op) }
{
    match op {
        BinOp::OrElse => Some(LeftSide::Any),
        BinOp::AndAlso => Some(LeftSide::All),
        _ => None,
    }
}

// The code after the left operand.
#[cycle(emit)]
fn emit_after(code: &mut Code, alloc: Global, op: BinOp, right: &Tree) -> Result<(), NoMemory>
    ensures { OnOk result (code.new ≡ after_left (logic_of op) op (compiled (plain_tree right.now)) code.old) }
{
    match side_of(op) {
        Some(side) => {
            let keep = code.len();
            code.push(Op::Close)?;
            emit(code, alloc, right)?;
            code.push(Op::LeftSide(side, keep))
        }
        None => {
            code.push(Op::Binary(op))?;
            emit(code, alloc, right)
        }
    }
}

// The code after the address of an assignment.
#[cycle(emit)]
fn emit_place(
    code: &mut Code,
    alloc: Global,
    aop: Option<BinOp>,
    right: &Tree,
) -> Result<(), NoMemory>
    ensures { OnOk result (code.new
        ≡ Op.LeftSide (LeftSide.Place aop) (length code.old) ∷ compiled (plain_tree right.now) (Op.Close ∷ code.old)) }
{
    let keep = code.len();
    code.push(Op::Close)?;
    emit(code, alloc, right)?;
    code.push(Op::LeftSide(LeftSide::Place(aop), keep))
}

// The code of a tree, put before other code.
#[cycle(emit)]
fn emit(code: &mut Code, alloc: Global, tree: &Tree) -> Result<(), NoMemory>
    ensures { OnOk result (code.new ≡ compiled (plain_tree tree.now) code.old) }
{
    match tree {
        Tree::Number(n) => code.push(Op::Push(*n)),
        Tree::Str(text) => code.push(Op::Str(Text::new(alloc, text)?)),
        Tree::Name(name) => code.push(Op::Name(name.copied(alloc)?)),
        Tree::Address(name) => code.push(Op::Address(name.copied(alloc)?)),
        Tree::Word(a) => {
            code.push(Op::Word)?;
            emit(code, alloc, a)
        }
        Tree::Unary(op, a) => {
            code.push(Op::Unary(*op))?;
            emit(code, alloc, a)
        }
        Tree::Binary(op, a, b) => {
            emit_after(code, alloc, *op, b)?;
            emit(code, alloc, a)
        }
        Tree::SetName(aop, name, e) => {
            code.push(Op::Close)?;
            emit(code, alloc, e)?;
            code.push(Op::Left(*aop, name.copied(alloc)?))
        }
        Tree::SetWord(aop, a, e) => {
            emit_place(code, alloc, *aop, e)?;
            emit(code, alloc, a)
        }
        Tree::Call(callee, arguments) => {
            emit_call(code, alloc, arguments)?;
            emit(code, alloc, callee)
        }
    }
}

// The code of a call, after its callee.
#[cycle(emit)]
#[tactic(auto, using(crate::proofs::Counted::counts))]
fn emit_call(code: &mut Code, alloc: Global, arguments: &[Tree]) -> Result<(), NoMemory>
    ensures { OnOk result (code.new ≡ compiled_all (plain_arguments arguments.now)
        (Op.Call (count_onto (plain_arguments arguments.now) 0) ∷ code.old)) }
{
    code.push(Op::Call(arguments.len()))?;
    emit_all(code, alloc, arguments)
}

// The code of arguments, put before other code.
#[cycle(emit)]
fn emit_all(code: &mut Code, alloc: Global, arguments: &[Tree]) -> Result<(), NoMemory>
    ensures { OnOk result (code.new ≡ compiled_all (plain_arguments arguments.now) code.old) }
{
    for i in (0..arguments.len()).rev() {
        emit(code, alloc, &arguments[i])?;
    }
    Ok(())
}

// The code of an expression that is a statement: a name alone may be a call.
fn emit_expr(code: &mut Code, alloc: Global, tree: &Tree) -> Result<(), NoMemory>
    requires { code.old ≡ [] }
    ensures { OnOk result (code.new ≡ compiled_expr (plain_tree tree.now)) }
{
    match tree {
        Tree::Name(name) => code.push(Op::Lone(name.copied(alloc)?)),
        _ => emit(code, alloc, tree),
    }
}

// The code of the load of a file.
fn emit_load(code: &mut Code, alloc: Global, file: &[u8]) -> Result<(), NoMemory>
    requires { code.old ≡ [] }
    ensures { OnOk result (code.new ≡ compiled_stmt (Load file.now)) }
{
    code.push(Op::Call(3))?;
    code.push(Op::Str(Text::new(alloc, file)?))?;
    code.push(Op::Push(0))?;
    code.push(Op::Push(0))?;
    match Name::new(alloc, b"ld") {
        Ok(name) => code.push(Op::Name(name)),
        Err(_) => Err(NoMemory),
    }
}

/// The code of a statement.
pub(crate) fn emit_stmt(code: &mut Code, alloc: Global, stmt: &Stmt) -> Result<(), NoMemory>
    requires { code.old ≡ [] }
    ensures { OnOk result (code.new ≡ compiled_stmt (plain_stmt stmt.now)) }
{
    match stmt {
        Stmt::Nothing => code.push(Op::Push(0)),
        Stmt::Ld(file) => emit_load(code, alloc, file),
        Stmt::Call(name, arguments) => {
            emit_call(code, alloc, arguments)?;
            code.push(Op::Name(name.copied(alloc)?))
        }
        Stmt::Expr(tree) => emit_expr(code, alloc, tree),
    }
}
