//! The evaluation of a statement.

ghost use Rattle.std.specs.Prelude.{◌≡◌, ◌≤◌, length, IfOk, OnOk, OnErr};
ghost use Rattle.shell_parse.specs.Trees.{plain_stmt};
ghost use Rattle.shell_eval.specs.Pending.{begun_stmt, filled};
ghost use Rattle.shell_eval.specs.Laws.{holes};
ghost use Rattle.shell_eval.specs.Seen.{seen, SameEnv, SameSize, SpaceGrows, kept_free};
ghost use Rattle.shell_eval.specs.Inside.{ComesTo, AwaitsAfter};

use crate::code::{Code, Entry, Stack};
use crate::compile::emit_stmt;
use crate::env::Env;
use crate::run::{go_on, is_call};
use crate::went::Went;
use shell_parse::Stmt;
use std::alloc::Global;
use std::marker::Model;
use wind_base::NoMemory;
use wind_outside::Device;

// The most operations of a statement. A line of 255 bytes comes nowhere near it.
const MOST_OPERATIONS: usize = 65_536;

/// A statement under evaluation. Contracts see the tree that is left of it.
#[derive(Drop)]
pub struct Eval {
    code: Code,
    stack: Stack,
    waits: bool,
}

impl Model for Eval {
    ghost use Rattle.shell_eval.specs.Pending.{Pending};
    ghost use Rattle.shell_eval.specs.Inside.{tree_at, IsEval};

    ghost Value = { Pending };

    ghost use Rattle.shell_eval.specs.Coded.{coded_pending};

    ghost coded = { coded_pending };

    ghost view = { λ e. tree_at e.waits e.code e.stack.list };

    ghost invariant = { λ e. IsEval e.waits e.code e.stack };
}

impl Eval {
    /// Begins the evaluation of a statement. A statement without tokens has the value 0.
    pub fn start(alloc: Global, s: &Stmt) -> Result<Eval, NoMemory>
        ensures { IfOk result (λ e. e ≡ begun_stmt (plain_stmt s.now)) }
    {
        let mut code = Code::new(alloc);
        emit_stmt(&mut code, alloc, s)?;
        if code.len() > MOST_OPERATIONS {
            return Err(NoMemory);
        }
        let stack = Stack::with_room(alloc, code.len())?;
        Ok(Eval {
            code,
            stack,
            waits: false,
        })
    }

    /// Goes on to the value, to the next call or to a fault, and leaves room for 512 bytes in
    /// `out`. If memory runs out, nothing changes. The bytes in `out` and its free room together
    /// never become fewer.
    pub fn go(&mut self, env: &mut Env<'_>) -> Result<Went, NoMemory>
        requires pool { env.old.part.now.end ≤ length env.old.bus.now.ram.bytes }
        requires waits { holes self.old ≡ 0 }
        ensures went { IfOk result (λ went. ComesTo (seen ⟦<dyn Device as Device>⟧ env.old) self.old went
            (seen ⟦<dyn Device as Device>⟧ env.new) self.new) }
        ensures holes { IfOk result (λ went. AwaitsAfter went self.new) }
        ensures room { OnOk result (kept_free ≤ env.new.out.now.room) }
        ensures space { SpaceGrows env.old env.new }
        ensures no_memory { OnErr result (seen ⟦<dyn Device as Device>⟧ env.new
            ≡ seen ⟦<dyn Device as Device>⟧ env.old) }
        ensures kept { OnErr result (self.new ≡ self.old) }
        ensures same { SameEnv env.old env.new }
        ensures size { SameSize env.old env.new }
    {
        let went = go_on(&mut self.code, &mut self.stack, env)?;
        self.waits = is_call(&went);
        Ok(went)
    }

    /// Puts the answer of the awaited call in its place.
    pub fn fill(&mut self, v: u32)
        requires { holes self.old ≡ 0 → ⊥ }
        ensures { self.new ≡ filled v self.old }
    {
        self.stack.put(Entry::Word(v));
        self.waits = false;
    }
}
