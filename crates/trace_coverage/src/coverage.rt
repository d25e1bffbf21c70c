//! The coverage of a run, kept while the run is made.

ghost use Rattle.std.specs.Prelude.{◌≡◌, ◌++◌, ℕ, List, [], IfOk, OnOk};
ghost use Rattle.trace_coverage.specs.Covered.{CoverageState, with_executed, with_table};
ghost use Rattle.trace_coverage.specs.Text.{Holds, coverage_text};

use crate::covered::Covered;
use crate::table::{add_new, drop_gone, execute};
use crate::text::{add_gone, add_modules};
use module_loader::Modules;
use std::alloc::Global;
use wind_base::NoMemory;

/// The coverage of a run: the modules that are in the table, and the text of those that were
/// unloaded, as far as it wasn't put.
#[derive(Drop)]
pub struct Coverage {
    alloc: Global,
    live: Vec<Covered>,
    gone: Vec<u8>,
}

impl Coverage {
    /// The coverage before the first step.
    pub fn new(alloc: Global, modules: &Modules) -> Result<Coverage, NoMemory>
        ensures { IfOk result (λ coverage. Holds coverage []
            (with_table modules.now.rows (record { live = []; gone = [] }))) }
    {
        let live = Vec::new(alloc);
        let gone = Vec::new(alloc);
        let mut coverage = Coverage { alloc, live, gone };
        coverage.follow(modules)?;
        Ok(coverage)
    }

    /// The instruction at this address was executed, if there is one.
    pub fn execute(&mut self, at: Option<u32>)
        ensures { (given : List ℕ) (c : CoverageState) → Holds self.old given c
            → Holds self.new given (with_executed at c) }
    {
        let Some(at) = at else {
            return;
        };
        execute(&mut self.live, at);
    }

    /// The table has these modules now.
    pub fn follow(&mut self, modules: &Modules) -> Result<(), NoMemory>
        ensures { OnOk result ((given : List ℕ) (c : CoverageState) → Holds self.old given c
            → Holds self.new given (with_table modules.now.rows c)) }
    {
        add_gone(&mut self.gone, &self.live, modules)?;
        drop_gone(&mut self.live, modules);
        add_new(self.alloc, &mut self.live, modules)
    }

    /// The text of the modules that were unloaded, as far as it wasn't put.
    pub fn text(&self) -> &[u8]
        ensures { result.now ≡ self.now.gone.items }
    {
        &self.gone
    }

    /// That text was put.
    pub fn clear_text(&mut self)
        ensures { (given : List ℕ) (c : CoverageState) → Holds self.old given c
            → Holds self.new (given ++ self.old.gone.items) c }
    {
        self.gone.clear();
    }

    /// The text of the coverage, as far as it wasn't put.
    pub fn into_text(self) -> Result<Vec<u8>, NoMemory>
        ensures { IfOk result (λ text. (given : List ℕ) (c : CoverageState) → Holds self given c
            → given ++ text.items ≡ coverage_text c) }
    {
        let Coverage {
            alloc: _,
            live,
            gone,
        } = self;
        let mut text = gone;
        add_modules(&mut text, &live)?;
        Ok(text)
    }
}
