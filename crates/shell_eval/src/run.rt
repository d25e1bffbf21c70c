//! Runs postfix code up to a value, a call or a fault.

ghost use Rattle.std.specs.Prelude.{◌≡◌, ◌+◌, ◌*◌, ◌<◌, ◌≤◌, length, false, OnOk, OnErr, IfOk, ◌-◌, min};
ghost use Rattle.shell_eval.specs.Seen.{seen, SameEnv, SameSize, SpaceGrows, Ready, most_announced, kept_free};
ghost use Rattle.shell_eval.specs.Machine.{move};
ghost use Rattle.shell_eval.specs.Follows.{tree_of, tree_with_hole, Follows};
ghost use Rattle.shell_eval.specs.Frames.{Stands};
ghost use Rattle.shell_eval.specs.Ran.{of_step, advanced, IsEnd, Proceeds, IsAfter, room_after, is_call as is_call_lem};
ghost use Rattle.shell_eval.specs.Inside.{IsEval, most_operations, ComesTo};
ghost use Rattle.wind_base.specs.Limits.{most_symbols};
ghost use Rattle.wind_base.specs.OutBuf.{KeepsSpace};

use crate::code::{Code, Entry, Stack};
use crate::env::Env;
use crate::fault::EvalFault;
use crate::step::{Stepped, step};
use crate::went::Went;
use symbol_table::Symbols;
use wind_base::limits::SYMBOLS;
use wind_base::{NoMemory, OutBuf};
use wind_outside::Device;

// The most bytes that an operation writes, and the free room after an evaluation, in bytes.
const MOST_ANNOUNCED: usize = 300;

const KEPT_FREE: usize = 512;

/// What came of the next operation.
#[derive(Drop)]
pub(crate) enum Advanced {
    /// The code has ended, with this value.
    Ends(u32),
    /// The code goes on.
    Goes,
    /// A call: the callee and the words of its arguments.
    Calls(u32, [u32; 10]),
    /// A fault.
    Faults(EvalFault),
}

// An operation's outcome.
fn from_step(stepped: Stepped) -> Advanced
    ensures { result ≡ of_step stepped }
{
    match stepped {
        Stepped::Goes => Advanced::Goes,
        Stepped::Calls(callee, words) => Advanced::Calls(callee, words),
        Stepped::Faults(fault) => Advanced::Faults(fault),
    }
}

// Makes the next operation.
fn advance(code: &mut Code, stack: &mut Stack, env: &mut Env<'_>) -> Advanced
    requires room { length code.old ≤ stack.old.room }
    requires ready { Ready (length code.old) env.old }
    ensures end { IsEnd result code.old code.new stack.old stack.new }
    ensures moved { advanced result (seen ⟦<dyn Device as Device>⟧ env.new) code.new stack.new.list
        ≡ move (seen ⟦<dyn Device as Device>⟧ env.old) code.old stack.old.list }
    ensures proceeds { Proceeds result code.old code.new stack.new.room env.old env.new }
{
    match code.pop() {
        Some(op) => from_step(step(op, code, stack, env)),
        None => Advanced::Ends(stack.word_below(0)),
    }
}

// The same, with a contract in terms of evaluation.
fn next(code: &mut Code, stack: &mut Stack, env: &mut Env<'_>) -> Advanced
    requires stands { Stands code.old stack.old.list }
    requires room { length code.old ≤ stack.old.room }
    requires ready { Ready (length code.old) env.old }
    ensures end { IsEnd result code.old code.new stack.old stack.new }
    ensures follows { Follows (seen ⟦<dyn Device as Device>⟧ env.old) (tree_of code.old stack.old.list)
        (advanced result (seen ⟦<dyn Device as Device>⟧ env.new) code.new stack.new.list) }
    ensures proceeds { Proceeds result code.old code.new stack.new.room env.old env.new }
{
    advance(code, stack, env)
}

/// Runs the code up to a value, a call or a fault.
pub(crate) fn run(code: &mut Code, stack: &mut Stack, env: &mut Env<'_>) -> Went
    requires stands { Stands code.old stack.old.list }
    requires room { length code.old ≤ stack.old.room }
    requires ready { Ready (length code.old) env.old }
    ensures came { ComesTo (seen ⟦<dyn Device as Device>⟧ env.old) (tree_of code.old stack.old.list) result
        (seen ⟦<dyn Device as Device>⟧ env.new) (tree_with_hole code.new stack.new.list) }
    ensures at { IsAfter result code.new stack.new.list }
    ensures room { length code.new + room_after result ≤ stack.new.room }
    ensures code { length code.new ≤ length code.old }
    ensures output { kept_free ≤ env.new.out.now.room }
    ensures space { KeepsSpace env.old.out.now env.new.out.now }
    ensures same { SameEnv env.old env.new }
    ensures size { SameSize env.old env.new }
{
    loop {
        match next(code, stack, env) {
            Advanced::Goes => {}
            Advanced::Ends(n) => return Went::Value(n),
            Advanced::Calls(callee, words) => return Went::Call { callee, words },
            Advanced::Faults(fault) => return Went::Fault(fault),
        }
    }
}

// Makes room for what n operations can write, and for the free room after them.
fn make_room(out: &mut OutBuf, n: usize) -> Result<(), NoMemory>
    requires { n ≤ most_operations }
    ensures room { OnOk result (n * most_announced + kept_free ≤ out.new.room) }
    ensures bytes { out.new.bytes ≡ out.old.bytes }
    ensures grows { out.old.room ≤ out.new.room }
{
    let wanted = n * MOST_ANNOUNCED + KEPT_FREE;
    if wanted <= out.room() {
        return Ok(());
    }
    out.grow((wanted - out.room()) as u32)
}

// Makes room for the symbols that n operations can add, as far as the table permits.
fn make_spare(syms: &mut Symbols, n: usize) -> Result<(), NoMemory>
    ensures spare { OnOk result (min n (most_symbols - length syms.new.list) ≤ syms.new.spare) }
    ensures list { syms.new.list ≡ syms.old.list }
{
    let wanted = n.min(SYMBOLS.saturating_sub(syms.len()) as usize);
    match syms.reserve(wanted as u32) {
        Ok(()) => Ok(()),
        Err(_) => Err(NoMemory),
    }
}

/// Allocates what n operations can need. Nothing changes that contracts compare.
pub(crate) fn prepare(n: usize, env: &mut Env<'_>) -> Result<(), NoMemory>
    requires few { n ≤ most_operations }
    requires pool { env.old.part.now.end ≤ length env.old.bus.now.ram.bytes }
    ensures ready { OnOk result (Ready n env.new) }
    ensures kept { seen ⟦<dyn Device as Device>⟧ env.new ≡ seen ⟦<dyn Device as Device>⟧ env.old }
    ensures space { SpaceGrows env.old env.new }
    ensures same { SameEnv env.old env.new }
    ensures size { SameSize env.old env.new }
{
    make_spare(env.syms, n)?;
    make_room(env.out, n)
}

/// Allocates the memory that may be needed, and runs the code. After a fault, a value is left.
pub(crate) fn go_on(code: &mut Code, stack: &mut Stack, env: &mut Env<'_>) -> Result<Went, NoMemory>
    requires at { IsEval false code.old stack.old }
    requires pool { env.old.part.now.end ≤ length env.old.bus.now.ram.bytes }
    ensures went { IfOk result (λ went. ComesTo (seen ⟦<dyn Device as Device>⟧ env.old)
        (tree_of code.old stack.old.list) went
        (seen ⟦<dyn Device as Device>⟧ env.new) (tree_with_hole code.new stack.new.list)) }
    ensures at { IfOk result (λ went. IsEval (is_call_lem went) code.new stack.new) }
    ensures no_memory { OnErr result (seen ⟦<dyn Device as Device>⟧ env.new ≡ seen ⟦<dyn Device as Device>⟧ env.old) }
    ensures kept { OnErr result ((code.new ≡ code.old) × (stack.new ≡ stack.old)) }
    ensures room { OnOk result (kept_free ≤ env.new.out.now.room) }
    ensures space { SpaceGrows env.old env.new }
    ensures same { SameEnv env.old env.new }
    ensures size { SameSize env.old env.new }
{
    prepare(code.len(), env)?;
    match run(code, stack, env) {
        Went::Value(n) => Ok(Went::Value(n)),
        Went::Call { callee, words } => Ok(Went::Call { callee, words }),
        Went::Fault(fault) => {
            settle(code, stack);
            Ok(Went::Fault(fault))
        }
    }
}

// Leaves a value.
#[tactic(auto, using(crate::proofs::Started::stands_value))]
fn settle(code: &mut Code, stack: &mut Stack)
    requires { 0 < stack.old.room }
    ensures { IsEval false code.new stack.new }
{
    code.clear();
    stack.clear();
    stack.put(Entry::Word(0));
}

/// Whether the evaluation came to a call.
pub(crate) fn is_call(went: &Went) -> bool
    ensures { result ≡ is_call_lem went.now }
{
    matches!(went, Went::Call { .. })
}
