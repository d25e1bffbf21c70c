//! Makes one operation.

ghost use Rattle.std.specs.Prelude.{◌≡◌, ◌+◌, ◌-◌, ◌<◌, ◌≤◌, ◌==◌, length, None};
ghost use Rattle.wind_base.specs.Limits.{most_symbols};
ghost use Rattle.wind_base.specs.OutBuf.{KeepsSpace};
ghost use Rattle.symbol_table.specs.Newest.{find};
ghost use Rattle.shell_eval.specs.State.{State};
ghost use Rattle.shell_eval.specs.Seen.{seen, SameEnv, SameSize, KeptParts, AddsOne, Ready, most_announced};
ghost use Rattle.shell_eval.specs.Machine.{pushes, places, left_effect, decides_step, side_step, mixed_effect, close_effect, alone as alone_lem, asks, op_step, argument as argument_lem, top_word, top_entry, below};
ghost use Rattle.shell_eval.specs.Moved.{attempt, effect_of, moved, held};

use crate::code::{Code, Entry, LeftSide, Op, Stack, take_word};
use crate::env::Env;
use crate::fault::EvalFault;
use crate::operators::{before, combine};
use crate::words::{
    is_value, looked_up, name_value, name_word, string_made, variable_made, word_read, word_stored,
};
use shell_parse::BinOp;
use symbol_table::SymKind;
use wind_base::Name;
use wind_outside::Device;

/// What came of an operation.
#[derive(Drop)]
pub(crate) enum Stepped {
    /// The code goes on.
    Goes,
    /// This callee is called with these words.
    Calls(u32, [u32; 10]),
    /// A fault.
    Faults(EvalFault),
}

// Pushes a word, or returns the fault.
fn put_word(stack: &mut Stack, word: Result<u32, EvalFault>) -> Stepped
    requires { 0 < stack.old.room }
    ensures effect { (s : State) → effect_of result s stack.new.list ≡ pushes s (attempt word s) stack.old.list }
    ensures room { stack.old.room + held result ≤ stack.new.room + 1 }
{
    match word {
        Ok(n) => {
            stack.put(Entry::Word(n));
            Stepped::Goes
        }
        Err(fault) => Stepped::Faults(fault),
    }
}

// Pushes the address of an assignment, and the old word there if an operator combines it.
fn place(env: &mut Env<'_>, stack: &mut Stack, aop: Option<BinOp>, at: u32) -> Stepped
    requires { 0 < stack.old.room }
    ensures effect { effect_of result (seen ⟦<dyn Device as Device>⟧ env.new) stack.new.list
        ≡ places (seen ⟦<dyn Device as Device>⟧ env.old) aop at stack.old.list }
    ensures room { stack.old.room + held result ≤ stack.new.room + 1 }
    ensures parts { KeptParts env.old env.new }
    ensures same { SameEnv env.old env.new }
    ensures size { SameSize env.old env.new }
{
    let Some(op) = aop else {
        stack.put(Entry::Place(at));
        return Stepped::Goes;
    };
    match word_read(env, at) {
        Ok(word) => {
            stack.put(Entry::Mixed(op, at, word));
            Stepped::Goes
        }
        Err(fault) => Stepped::Faults(fault),
    }
}

// The name on the left side of an assignment.
fn left(env: &mut Env<'_>, stack: &mut Stack, aop: Option<BinOp>, name: Name) -> Stepped
    requires { 0 < stack.old.room }
    ensures effect { effect_of result (seen ⟦<dyn Device as Device>⟧ env.new) stack.new.list
        ≡ left_effect (seen ⟦<dyn Device as Device>⟧ env.old) aop name (find env.old.syms.now.list name)
        stack.old.list }
    ensures room { stack.old.room + held result ≤ stack.new.room + 1 }
    ensures parts { KeptParts env.old env.new }
    ensures same { SameEnv env.old env.new }
    ensures size { SameSize env.old env.new }
{
    match looked_up(env.syms, name.bytes()) {
        Some((kind, value)) => {
            if is_value(kind) {
                Stepped::Faults(EvalFault::AccessAt(value))
            } else {
                place(env, stack, aop, value)
            }
        }
        None => unknown(stack, aop, name),
    }
}

// A name on the left side that no symbol has.
fn unknown(stack: &mut Stack, aop: Option<BinOp>, name: Name) -> Stepped
    requires { 0 < stack.old.room }
    ensures effect { (s : State) → effect_of result s stack.new.list ≡ left_effect s aop name None stack.old.list }
    ensures room { stack.old.room + held result ≤ stack.new.room + 1 }
{
    match aop {
        Some(_) => Stepped::Faults(EvalFault::Undefined(name)),
        None => {
            stack.put(Entry::Unknown(name));
            Stepped::Goes
        }
    }
}

// The effect of a left side that may decide.
fn decide(code: &mut Code, stack: &mut Stack, decides: bool, n: u32, keep: usize) -> Stepped
    requires { 0 < stack.old.room }
    ensures stepped { (s : State) → moved result s code.new stack.new.list
        ≡ decides_step s decides keep n code.old stack.old.list }
    ensures room { stack.old.room + held result ≤ stack.new.room + 1 }
    ensures code { length code.new ≤ length code.old }
{
    if decides {
        code.keep(keep);
        stack.put(Entry::Word(u32::from(n != 0)));
    } else {
        stack.put(Entry::Truth);
    }
    Stepped::Goes
}

// Takes a left side.
fn take_left_side(
    env: &mut Env<'_>,
    code: &mut Code,
    stack: &mut Stack,
    side: LeftSide,
    keep: usize,
) -> Stepped
    requires { 0 < stack.old.room }
    ensures stepped { moved result (seen ⟦<dyn Device as Device>⟧ env.new) code.new stack.new.list
        ≡ side_step (seen ⟦<dyn Device as Device>⟧ env.old) side keep (top_word stack.old.list) code.old
        (below stack.old.list) }
    ensures room { stack.old.room + held result ≤ stack.new.room + 1 }
    ensures code { length code.new ≤ length code.old }
    ensures parts { KeptParts env.old env.new }
    ensures same { SameEnv env.old env.new }
    ensures size { SameSize env.old env.new }
{
    let n = take_word(stack);
    match side {
        LeftSide::All => decide(code, stack, n == 0, n, keep),
        LeftSide::Any => decide(code, stack, n != 0, n, keep),
        LeftSide::Place(aop) => place(env, stack, aop, n),
    }
}

// Completes an assignment by an operator, with its right side.
fn mixed(env: &mut Env<'_>, stack: &mut Stack, at: u32, word: Result<u32, EvalFault>) -> Stepped
    requires { 0 < stack.old.room }
    ensures effect { effect_of result (seen ⟦<dyn Device as Device>⟧ env.new) stack.new.list
        ≡ mixed_effect (seen ⟦<dyn Device as Device>⟧ env.old) at (attempt word (seen ⟦<dyn Device as Device>⟧ env.old))
        stack.old.list }
    ensures room { stack.old.room + held result ≤ stack.new.room + 1 }
    ensures parts { KeptParts env.old env.new }
    ensures same { SameEnv env.old env.new }
    ensures size { SameSize env.old env.new }
{
    match word {
        Ok(v) => {
            let stored = word_stored(env, at, v);
            put_word(stack, stored)
        }
        Err(fault) => Stepped::Faults(fault),
    }
}

// Completes the form that a left side began, with its right side.
fn closed(env: &mut Env<'_>, stack: &mut Stack) -> Stepped
    requires entry { 0 < stack.old.room }
    requires spare { length env.old.syms.now.list < most_symbols → 0 < env.old.syms.now.spare }
    requires room { most_announced ≤ env.old.out.now.room }
    requires pool { env.old.part.now.end ≤ length env.old.bus.now.ram.bytes }
    ensures effect { effect_of result (seen ⟦<dyn Device as Device>⟧ env.new) stack.new.list
        ≡ close_effect (seen ⟦<dyn Device as Device>⟧ env.old) (top_word stack.old.list)
        (top_entry (below stack.old.list)) (below (below stack.old.list)) }
    ensures entry { stack.old.room + held result ≤ stack.new.room + 1 }
    ensures adds { AddsOne env.old env.new }
{
    let v = take_word(stack);
    match stack.take_entry() {
        Some(Entry::Truth) => put_word(stack, Ok(u32::from(v != 0))),
        Some(Entry::Place(at)) => {
            let stored = word_stored(env, at, v);
            put_word(stack, stored)
        }
        Some(Entry::Mixed(op, at, word)) => mixed(env, stack, at, combine(op, word, v)),
        Some(Entry::Unknown(name)) => {
            let made = variable_made(env, name, v);
            put_word(stack, made)
        }
        _ => put_word(stack, Ok(v)),
    }
}

// The argument at a place, if the top n entries are arguments.
fn argument(stack: &Stack, n: usize, place: usize) -> u32
    ensures { result ≡ argument_lem n stack.now.list place }
{
    if place < n {
        stack.word_below(n - 1 - place)
    } else {
        0
    }
}

// Makes the due call.
fn called(stack: &mut Stack, n: usize) -> Stepped
    ensures effect { (s : State) → effect_of result s stack.new.list ≡ asks s n stack.old.list }
    ensures room { stack.old.room ≤ stack.new.room }
{
    let words = [
        argument(stack, n, 0),
        argument(stack, n, 1),
        argument(stack, n, 2),
        argument(stack, n, 3),
        argument(stack, n, 4),
        argument(stack, n, 5),
        argument(stack, n, 6),
        argument(stack, n, 7),
        argument(stack, n, 8),
        argument(stack, n, 9),
    ];
    stack.drop_top(n);
    let callee = take_word(stack);
    Stepped::Calls(callee, words)
}

// A statement that is a name alone.
fn alone(env: &mut Env<'_>, stack: &mut Stack, name: Name) -> Stepped
    requires { 0 < stack.old.room }
    ensures effect { effect_of result (seen ⟦<dyn Device as Device>⟧ env.new) stack.new.list
        ≡ alone_lem (seen ⟦<dyn Device as Device>⟧ env.old) name stack.old.list }
    ensures room { stack.old.room + held result ≤ stack.new.room + 1 }
    ensures parts { KeptParts env.old env.new }
    ensures same { SameEnv env.old env.new }
    ensures size { SameSize env.old env.new }
{
    match looked_up(env.syms, name.bytes()) {
        Some((SymKind::TextSym, value)) => Stepped::Calls(value, [0; 10]),
        _ => {
            let word = name_word(env, name);
            put_word(stack, word)
        }
    }
}

/// Makes one operation.
pub(crate) fn step(op: Op, code: &mut Code, stack: &mut Stack, env: &mut Env<'_>) -> Stepped
    requires room { length code.old + 1 ≤ stack.old.room }
    requires ready { Ready (length code.old + 1) env.old }
    ensures stepped { moved result (seen ⟦<dyn Device as Device>⟧ env.new) code.new stack.new.list
        ≡ op_step (seen ⟦<dyn Device as Device>⟧ env.old) op code.old stack.old.list }
    ensures room { length code.new + held result ≤ stack.new.room }
    ensures code { length code.new ≤ length code.old }
    ensures ready { Ready (length code.new) env.new }
    ensures space { KeepsSpace env.old.out.now env.new.out.now }
    ensures same { SameEnv env.old env.new }
    ensures size { SameSize env.old env.new }
{
    match op {
        Op::Push(n) => put_word(stack, Ok(n)),
        Op::Str(text) => {
            let word = string_made(env, &text);
            put_word(stack, word)
        }
        Op::Name(name) => {
            let word = name_word(env, name);
            put_word(stack, word)
        }
        Op::Lone(name) => alone(env, stack, name),
        Op::Address(name) => {
            let word = name_value(env, name);
            put_word(stack, word)
        }
        Op::Word => {
            let at = take_word(stack);
            let word = word_read(env, at);
            put_word(stack, word)
        }
        Op::Unary(op) => {
            let a = take_word(stack);
            put_word(stack, Ok(before(op, a)))
        }
        Op::Binary(op) => {
            let b = take_word(stack);
            let a = take_word(stack);
            put_word(stack, combine(op, a, b))
        }
        Op::LeftSide(side, keep) => take_left_side(env, code, stack, side, keep),
        Op::Left(aop, name) => left(env, stack, aop, name),
        Op::Close => closed(env, stack),
        Op::Call(n) => called(stack, n),
    }
}
