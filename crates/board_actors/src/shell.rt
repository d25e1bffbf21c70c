//! The shell: its phase, and the line under evaluation.

ghost use Rattle.std.specs.Prelude.{◌≡◌, ◌≢◌, ◌+◌, ◌≤◌, [], ◌++◌, List, None, OnOk, OnErr, IfOk, map, drop, length};
ghost use Rattle.wind_base.specs.OutBuf.{KeepsSpace};
ghost use Rattle.wind_base.specs.Limits.{longest_line};
ghost use Rattle.wind_core.specs.State.{Lives};
ghost use Rattle.shell_parse.specs.Reading.{read_line};
ghost use Rattle.shell_parse.specs.Trees.{PlainStmt, Nothing, plain_stmt};
ghost use Rattle.shell_eval.specs.Laws.{holes};
ghost use Rattle.shell_eval.specs.Seen.{kept_free};
ghost use Rattle.shell_eval.specs.Inside.{ComesTo, AwaitsAfter};
ghost use Rattle.live_loading.specs.KernelWorldSeen.{world_seen};
ghost use Rattle.board_actors.specs.ShellInside.{trees_of, holes_of, IsBlank};
ghost use Rattle.wind_machine.specs.KernelCallsSpace.{HoldsSpace};
ghost use Rattle.wind_machine.specs.Part.{part_of};
ghost use Rattle.wind_machine.specs.declared.phase.Phase.TheVariants as phases;
ghost use Rattle.wind_machine.specs.Shell.{at_prompt, prompted, is_nothing as is_nothing_lem, begun_tree, begun, shell_read, read_text, shell_with, fill_first, returned, eval_state, with_eval, eval_part};

use crate::shell_task::begin_call;
use crate::text::{add_fault, add_syntax};
use live_loading::World;
use shell_eval::{Env, Eval, Went, evaluation_law};
use shell_parse::{ParseErr, Stmt, parse};
use std::alloc::Global;
use std::marker::Model;
use text_show::value_line;
use wind_base::{NoMemory, OutBuf};
use wind_machine::Phase;
use wind_outside::Device;

/// The shell: its phase, and the statements of its line.
#[derive(Drop)]
pub struct Shell {
    phase: Phase,
    /// The statement under evaluation, if one has begun.
    current: Option<Eval>,
    /// The statements after it.
    stmts: Vec<Stmt>,
}

impl Model for Shell {
    ghost use Rattle.std.specs.Prelude.{map};
    ghost use Rattle.shell_parse.specs.Trees.{plain_stmt};
    ghost use Rattle.wind_machine.specs.State.{ShellState};
    ghost use Rattle.board_actors.specs.ShellInside.{trees_of, Awaits};

    ghost Value = { ShellState };

    ghost use Rattle.std.specs.Coded.{codes};
    ghost use Rattle.shell_eval.specs.Coded.{coded_pending};

    ghost coded = { Prim.hlevel (codes, coded_pending) };

    ghost view = { λ s. record { phase = s.phase; trees = trees_of s.current (map plain_stmt s.stmts.items) } };

    ghost invariant = { λ s. Awaits s.phase s.current };
}

impl Shell {
    /// The shell before its first prompt.
    pub fn new(alloc: Global) -> Shell
        ensures { result ≡ at_prompt }
    {
        Shell {
            phase: Phase::Prompt,
            current: None,
            stmts: Vec::new(alloc),
        }
    }

    /// Its phase.
    pub fn phase(&self) -> Phase
        ensures { result ≡ self.now.phase }
    {
        self.phase
    }

    /// Notes that the shell has written its prompt.
    pub fn prompt(&mut self, has_line: bool)
        ensures { self.new ≡ prompted has_line self.old }
    {
        if has_line {
            self.phase = Phase::Read;
        }
    }

    /// Drops the line under evaluation.
    pub(crate) fn abort(&mut self)
        ensures { self.new ≡ at_prompt }
    {
        self.phase = Phase::Prompt;
        self.current = None;
        self.stmts.clear();
    }

    /// Notes that a line is finished, which the shell reads next.
    pub(crate) fn take_line(&mut self)
        ensures { self.new ≡ record self.old { phase = phases.Read } }
    {
        self.phase = Phase::Read;
    }

    /// Reads a line. If memory runs out, nothing changes.
    pub fn read(&mut self, alloc: Global, line: &[u8], out: &mut OutBuf) -> Result<(), NoMemory>
        requires line { length line.now ≤ longest_line }
        requires room { 64 ≤ out.old.room }
        ensures ok { OnOk result (self.new ≡ shell_read (read_line line.now)) }
        ensures text { OnOk result (out.new.bytes ≡ out.old.bytes ++ read_text (read_line line.now)) }
        ensures space { KeepsSpace out.old out.new }
        ensures err { OnErr result (self.new ≡ self.old) }
        ensures err_out { OnErr result (out.new ≡ out.old) }
    {
        match parse(alloc, line) {
            Ok(stmts) => {
                self.begin(stmts);
                Ok(())
            }
            Err(ParseErr::Syntax(column)) => {
                add_syntax(out, column);
                self.abort();
                Ok(())
            }
            Err(ParseErr::NoMemory) => Err(NoMemory),
        }
    }

    // Begins a line with these statements.
    fn begin(&mut self, stmts: Vec<Stmt>)
        ensures { self.new ≡ begun (map plain_stmt stmts.items) }
    {
        if is_nothing(&stmts) {
            self.abort();
            return;
        }
        self.phase = Phase::Eval;
        self.current = None;
        self.stmts = stmts;
    }

    /// Gives the call that the shell awaits its value.
    pub(crate) fn give_value(&mut self, value: u32)
        requires { self.old.phase ≡ phases.Call }
        ensures { self.new ≡ returned value self.old }
    {
        fill(&mut self.current, value);
        self.phase = Phase::Eval;
    }

    /// Goes on with the first statement. If memory runs out, nothing changes.
    #[tactic(auto, using(crate::proofs::Blanks::blank))]
    pub fn evaluate(&mut self, alloc: Global, world: &mut World) -> Result<(), NoMemory>
        requires phase { self.old.phase ≡ phases.Eval }
        requires pool { world.old.part.end ≤ length world.old.bus.ram.bytes }
        requires live { Lives world.old.kern 1 }
        ensures ok { OnOk result (part_of self.new (world_seen ⟦<dyn Device as Device>⟧ world.new)
            ≡ eval_part self.old.trees (world_seen ⟦<dyn Device as Device>⟧ world.old)) }
        ensures err { OnErr result (self.new ≡ self.old) }
        ensures unchanged { OnErr result (world_seen ⟦<dyn Device as Device>⟧ world.new
            ≡ world_seen ⟦<dyn Device as Device>⟧ world.old) }
        ensures space { HoldsSpace world.old.out world.new.out }
    {
        begin_first(alloc, &mut self.current, &mut self.stmts)?;
        let Some(eval) = &mut self.current else {
            drop_first(&mut self.stmts);
            self.phase = phase_of(&self.stmts);
            return Ok(());
        };
        match go(eval, world)? {
            Went::Value(value) => {
                value_line(value, &mut world.out);
                self.current = None;
                self.phase = phase_of(&self.stmts);
            }
            Went::Call { callee, words } => {
                begin_call(world, callee, &words);
                self.phase = Phase::Call;
            }
            Went::Fault(fault) => {
                add_fault(&mut world.out, &fault);
                self.abort();
            }
        }
        Ok(())
    }
}

// Whether these are the statements of a line without tokens.
fn is_nothing(stmts: &[Stmt]) -> bool
    ensures { result ≡ is_nothing_lem (map plain_stmt stmts.now) }
{
    matches!(stmts, [] | [Stmt::Nothing])
}

// The phase of a shell with these statements left.
fn phase_of(stmts: &[Stmt]) -> Phase
    ensures shell { record { phase = result; trees = map begun_tree (map plain_stmt stmts.now) }
        ≡ shell_with (map begun_tree (map plain_stmt stmts.now)) }
    ensures phase { result ≢ phases.Call }
{
    if stmts.is_empty() {
        Phase::Prompt
    } else {
        Phase::Eval
    }
}

// Gives the awaited call its value.
fn fill(current: &mut Option<Eval>, value: u32)
    requires { holes_of current.old ≡ 1 }
    ensures filled { (after : List PlainStmt) → trees_of current.new after
        ≡ fill_first value (trees_of current.old after) }
    ensures holes { holes_of current.new ≡ 0 }
{
    evaluation_law();
    match current {
        Some(eval) => eval.fill(value),
        None => unreachable!(),
    }
}

// Drops the first statement, if there is one.
fn drop_first(stmts: &mut Vec<Stmt>)
    ensures { map plain_stmt stmts.new.items ≡ drop 1 (map plain_stmt stmts.old.items) }
{
    if !stmts.is_empty() {
        stmts.remove(0);
    }
}

// The evaluation of a statement, if it has a token.
#[tactic(auto, using(crate::proofs::Blanks::with_token))]
fn start(alloc: Global, stmt: &Stmt) -> Result<Option<Eval>, NoMemory>
    ensures tree { IfOk result (λ e. e ≡ begun_tree (plain_stmt stmt.now)) }
    ensures blank { IfOk result (λ e. e ≡ None → plain_stmt stmt.now ≡ Nothing) }
    ensures holes { IfOk result (λ e. holes_of e ≡ 0) }
{
    evaluation_law();
    match stmt {
        Stmt::Nothing => Ok(None),
        _ => Ok(Some(Eval::start(alloc, stmt)?)),
    }
}

// Begins the first statement, if none has begun and it has a token. If memory runs out, nothing
// changes.
fn begin_first(
    alloc: Global,
    current: &mut Option<Eval>,
    stmts: &mut Vec<Stmt>,
) -> Result<(), NoMemory>
    requires { holes_of current.old ≡ 0 }
    ensures trees { trees_of current.new (map plain_stmt stmts.new.items)
        ≡ trees_of current.old (map plain_stmt stmts.old.items) }
    ensures holes { holes_of current.new ≡ 0 }
    ensures begun { OnOk result (current.new ≡ None → IsBlank (map plain_stmt stmts.new.items)) }
{
    if current.is_some() {
        return Ok(());
    }
    let Some(stmt) = stmts.first() else {
        return Ok(());
    };
    let Some(eval) = start(alloc, stmt)? else {
        return Ok(());
    };
    stmts.remove(0);
    *current = Some(eval);
    Ok(())
}

// Goes on with a statement, as far as it can. If memory runs out, nothing changes.
fn go(eval: &mut Eval, world: &mut World) -> Result<Went, NoMemory>
    requires pool { world.old.part.end ≤ length world.old.bus.ram.bytes }
    requires waits { holes eval.old ≡ 0 }
    ensures went { IfOk result (λ went. ComesTo
        (eval_state (world_seen ⟦<dyn Device as Device>⟧ world.old)) eval.old went
        (eval_state (world_seen ⟦<dyn Device as Device>⟧ world.new)) eval.new) }
    ensures rest { with_eval (world_seen ⟦<dyn Device as Device>⟧ world.old)
        (eval_state (world_seen ⟦<dyn Device as Device>⟧ world.new)) ≡ world_seen ⟦<dyn Device as Device>⟧ world.new }
    ensures holes { IfOk result (λ went. AwaitsAfter went eval.new) }
    ensures unchanged { OnErr result (world_seen ⟦<dyn Device as Device>⟧ world.new
        ≡ world_seen ⟦<dyn Device as Device>⟧ world.old) }
    ensures same { OnErr result (eval.new ≡ eval.old) }
    ensures kern { world.new.kern ≡ world.old.kern }
    ensures board { world.new.board ≡ world.old.board }
    ensures ram { length world.new.bus.ram.bytes ≡ length world.old.bus.ram.bytes }
    ensures room { OnOk result (kept_free ≤ world.new.out.room) }
    ensures space { HoldsSpace world.old.out world.new.out }
{
    let mut env = Env {
        syms: &mut world.syms,
        part: &mut world.part,
        bus: &mut world.bus,
        out: &mut world.out,
    };
    eval.go(&mut env)
}
