//! The parts that a load reads and changes.

ghost use Rattle.std.specs.Prelude.{◌≡◌, false};

use crate::opening::{filled, kern_after, part_after, symbols_after};
use board_mem::Ram;
use case_files::Trouble;
use mem_partition::Part;
use module_loader::{LoadErr, Loaded, Modules, NoSuchModule};
use std::alloc::Global;
use std::marker::Model;
use symbol_table::Symbols;
use wind_base::{BoardKind, Name};
use wind_core::Kern;

/// How a board begins.
#[derive(Clone, Copy, Drop)]
pub struct Opening {
    /// The kind of the board.
    pub kind: BoardKind,
    /// The first address of the partition's pool.
    pub start: u32,
    /// The first address after the pool, which is also the end of RAM.
    pub end: u32,
    /// How many ids have been handed out.
    pub ids: u32,
    /// How many blocks of 16 bytes are allocated.
    pub blocks: u32,
    /// How many symbols there are.
    pub symbols: u32,
}

/// Ids, partition, symbols, RAM and modules, as a load needs them.
#[derive(Drop)]
pub struct Board {
    kern: Kern,
    part: Part,
    syms: Symbols,
    ram: Ram,
    modules: Modules,
}

impl Model for Board {
    ghost use Rattle.module_loader.specs.Holding.{KeepsModules};
    ghost use Rattle.module_loader.specs.Loading.{LoaderState};
    ghost use Rattle.module_loader.specs.Steps.{state_of};

    ghost Value = { LoaderState };

    ghost view = { λ b. state_of b.kern b.syms.list b.modules b.part b.ram.bytes };

    ghost invariant = { λ b. KeepsModules (state_of b.kern b.syms.list b.modules b.part b.ram.bytes) };
}

impl Board {
    /// Makes a board without modules.
    pub fn new(alloc: Global, opening: Opening) -> Result<Board, Trouble> {
        let ram = filled(alloc, opening.end)?;
        let part = part_after(
            alloc,
            opening.kind,
            opening.start,
            opening.end,
            opening.blocks,
        )?;
        if part.end() > ram.size() {
            return Err(Trouble::Unreadable);
        }
        let syms = symbols_after(alloc, opening.symbols)?;
        let modules = Modules::new(alloc, opening.kind)?;
        let kern = kern_after(alloc, opening.ids)?;
        Ok(Board {
            kern,
            part,
            syms,
            ram,
            modules,
        })
    }

    /// Loads a file under a name, in a mode.
    pub fn load(&mut self, name: Name, file: &[u8], mode: u32) -> Result<Loaded, LoadErr> {
        self.modules.load(
            &mut self.kern,
            &mut self.part,
            &mut self.syms,
            &mut self.ram,
            name,
            file,
            mode,
        )
    }

    /// Unloads the module with this id.
    pub fn unload(&mut self, id: u32) -> Result<(), NoSuchModule> {
        self.modules.unload(&mut self.part, &mut self.syms, id)
    }

    /// How many ids are left.
    pub fn ids_left(&mut self) -> u32 {
        ids_left(&mut self.kern)
    }

    /// The partition.
    pub fn part(&self) -> &Part {
        &self.part
    }

    /// The symbols.
    pub fn symbols(&self) -> &Symbols {
        &self.syms
    }

    /// RAM.
    pub fn ram(&self) -> &Ram {
        &self.ram
    }

    /// The modules.
    pub fn modules(&self) -> &Modules {
        &self.modules
    }
}

#[tactic(auto, using(module_loader::proofs::Kernel::put_back))]
fn ids_left(kern: &mut Kern) -> u32
    requires { kern.old.lent ≡ false }
    ensures { kern.new ≡ kern.old }
{
    let ids = kern.lend_ids();
    let left = ids.left();
    kern.put_ids(ids);
    left
}
