//! The live modules.

ghost use Rattle.std.specs.Prelude.{◌≡◌, ◌↔◌, ℕ, List, [], false, IfOk, IfErr, OnOk, OnErr, IsOk, IsSome, Some, option_copied, All};
ghost use Rattle.id_table.specs.Records.{Rising};
ghost use Rattle.id_table.specs.Rows.{object_of, next_above, row_id, without, removed};
ghost use Rattle.symbol_table.specs.State.{without_group};
ghost use Rattle.elf_read.specs.{Contents.{ModuleOf, module_at}, Outline.outline_of, Modules.IsModule};
ghost use Rattle.module_loader.specs.{Loading.{file_verdict, verdict, loaded_answer, IsLoaded, IsVerdict, ReachesRelocations}, Steps.state_of, Holding.{AreHeld, KeepsModules}, Modules.{HasIdent, modules_on, newest_named, without_segment, without_segments}};

use crate::counts::check_counts;
use crate::loader::{check_blocks, load_module, outline_file};
use crate::module::{LoadErr, Loaded, LoadedModule, NoSuchModule, Segment};
use crate::names::newest_in;
use board_mem::Ram;
use elf_read::{Module, Outline, fill};
use id_table::{Ident, Table};
use mem_partition::{Class, Part};
use module_image::{count_added, measure};
use std::alloc::Global;
use std::marker::Model;
use symbol_table::Symbols;
use wind_base::limits::MODULES;
use wind_base::{BoardKind, Name, NoMemory};
use wind_core::Kern;

/// The live modules of a board, at most 256. Contracts see the kind of the board, and the modules
/// by rising id.
#[derive(Drop)]
pub struct Modules {
    alloc: Global,
    board: BoardKind,
    table: Table<LoadedModule>,
}

impl Model for Modules {
    ghost use Rattle.std.specs.Prelude.{◌≡◌, All};
    ghost use Rattle.wind_base.specs.Limits.{most_modules};
    ghost use Rattle.module_loader.specs.Modules.{LoadedModules, HasIdent};

    ghost Value = { LoadedModules };

    ghost view = { λ m. record { board = m.board; rows = m.table.rows } };

    ghost invariant = { λ m. (m.table.room ≡ most_modules) × All HasIdent m.table.rows };
}

impl Modules {
    /// Makes the table of modules of a board of this kind, empty and with room for 256.
    pub fn new(alloc: Global, board: BoardKind) -> Result<Modules, NoMemory>
        ensures { IfOk result (λ m. m ≡ modules_on board []) }
    {
        Ok(Modules {
            alloc,
            board,
            table: Table::reserved(alloc, MODULES)?,
        })
    }

    /// Loads the module of an object file under a name, or changes nothing. The segments text, data
    /// and bss get blocks of their own, on the side of the pool where the board places segments.
    /// The mode says which symbols are added: 0xffffffff adds none, 1 also adds local ones, and any
    /// other mode adds global and weak ones. A reference that the module doesn't define is bound to
    /// the newest global with its name, or else to 0.
    #[tactic(auto, using(crate::proofs::Files::read_verdict))]
    pub fn load(
        &mut self,
        kern: &mut Kern,
        part: &mut Part,
        syms: &mut Symbols,
        ram: &mut Ram,
        name: Name,
        file: &[u8],
        mode: u32,
    ) -> Result<Loaded, LoadErr>
        requires { KeepsModules (state_of kern.old syms.old.list self.old part.old ram.old.bytes) }
        ensures answer { IfOk result
            (λ l. l ≡ loaded_answer
            (state_of kern.old syms.old.list self.old part.old ram.old.bytes) (module_at file.now)) }
        ensures accepted { OnOk result (IsLoaded
            (file_verdict (state_of kern.old syms.old.list self.old part.old ram.old.bytes) file.now mode)
            (state_of kern.old syms.old.list self.old part.old ram.old.bytes) name (module_at file.now) mode
            (state_of kern.new syms.new.list self.new part.new ram.new.bytes)) }
        ensures refused { IfErr result
            (IsVerdict (file_verdict (state_of kern.old syms.old.list self.old part.old ram.old.bytes) file.now mode)) }
        ensures unchanged { OnErr result (state_of kern.new syms.new.list self.new part.new ram.new.bytes
            ≡ state_of kern.old syms.old.list self.old part.old ram.old.bytes) }
        ensures kept { KeepsModules (state_of kern.new syms.new.list self.new part.new ram.new.bytes) }
    {
        let outline = match self.check_file(kern, part, syms, file, mode) {
            Ok(outline) => outline,
            Err(e) => return Err(e),
        };
        let Ok(m) = fill(self.alloc, file, outline) else {
            return Err(LoadErr::NoMemory);
        };
        self.load_module(kern, part, syms, ram, name, &m, mode)
    }

    /// Reads the outline of an object file, and checks whether `load` would get as far as the
    /// file's relocations. The rules of object files, the counts and the partition may refuse the
    /// file, in this order. It copies no bytes of sections and changes nothing.
    #[tactic(auto, using(crate::proofs::Files::file_refused))]
    pub fn check_file(
        &self,
        kern: &mut Kern,
        part: &mut Part,
        syms: &mut Symbols,
        file: &[u8],
        mode: u32,
    ) -> Result<Outline, LoadErr>
        requires { kern.old.lent ≡ false }
        ensures outline { IfOk result (λ o. o ≡ outline_of (module_at file.now)) }
        ensures module { IfOk result (λ o. ModuleOf file.now (module_at file.now)) }
        ensures passed { OnOk result ((ram : List ℕ) → ReachesRelocations
            (file_verdict (state_of kern.old syms.old.list self.now part.old ram) file.now mode)) }
        ensures refused { IfErr result (λ e. (ram : List ℕ) → IsVerdict
            (file_verdict (state_of kern.old syms.old.list self.now part.old ram) file.now mode) e) }
        ensures kern { kern.new ≡ kern.old }
        ensures list { syms.new.list ≡ syms.old.list }
        ensures part { part.new ≡ part.old }
    {
        let outline = outline_file(self.alloc, file)?;
        let needs = measure(outline.shapes.as_slice(), outline.symbols.as_slice());
        let added = count_added(outline.symbols.as_slice(), mode);
        if let Err(e) = check_counts(&self.table, kern, syms, added) {
            return Err(e);
        }
        match check_blocks(part, self.board, needs) {
            Ok(()) => Ok(outline),
            Err(e) => Err(LoadErr::Part(e)),
        }
    }

    /// The same as `load`, for a module that has been read from its file.
    pub fn load_module(
        &mut self,
        kern: &mut Kern,
        part: &mut Part,
        syms: &mut Symbols,
        ram: &mut Ram,
        name: Name,
        m: &Module,
        mode: u32,
    ) -> Result<Loaded, LoadErr>
        requires module { IsModule m.now }
        requires kept { KeepsModules (state_of kern.old syms.old.list self.old part.old ram.old.bytes) }
        ensures answer { IfOk result
            (λ l. l ≡ loaded_answer (state_of kern.old syms.old.list self.old part.old ram.old.bytes) m.now) }
        ensures accepted { OnOk result (IsLoaded
            (verdict (state_of kern.old syms.old.list self.old part.old ram.old.bytes) m.now mode)
            (state_of kern.old syms.old.list self.old part.old ram.old.bytes) name m.now mode
            (state_of kern.new syms.new.list self.new part.new ram.new.bytes)) }
        ensures refused { IfErr result
            (IsVerdict (verdict (state_of kern.old syms.old.list self.old part.old ram.old.bytes) m.now mode)) }
        ensures unchanged { OnErr result (state_of kern.new syms.new.list self.new part.new ram.new.bytes
            ≡ state_of kern.old syms.old.list self.old part.old ram.old.bytes) }
        ensures kept { KeepsModules (state_of kern.new syms.new.list self.new part.new ram.new.bytes) }
    {
        load_module(
            self.alloc,
            self.board,
            &mut self.table,
            kern,
            part,
            syms,
            ram,
            name,
            m,
            mode,
        )
    }

    /// Unloads a module: removes its record and its symbols, and frees its blocks. No byte of RAM
    /// changes. What other modules bound to its symbols stays as it was.
    #[tactic(auto, using(crate::proofs::Kernel::no_live))]
    pub fn unload(
        &mut self,
        part: &mut Part,
        syms: &mut Symbols,
        id: u32,
    ) -> Result<(), NoSuchModule>
        requires { AreHeld self.old.rows part.old }
        ensures live { IsOk result ↔ IsSome (object_of self.old.rows id) }
        ensures modules { OnOk result (self.new ≡ record self.old { rows = without self.old.rows id }) }
        ensures symbols { OnOk result (syms.new.list ≡ without_group id syms.old.list) }
        ensures blocks { OnOk result (part.new ≡ without_segments part.old (object_of self.old.rows id)) }
        ensures unchanged { OnErr result
            ((self.new ≡ self.old) × (syms.new ≡ syms.old) × (part.new ≡ part.old)) }
        ensures held { AreHeld self.new.rows part.new }
    {
        // a look at the table gives its invariant: each id in it is valid
        let _table = &self.table;
        let Some(id) = Ident::new(id) else {
            return Err(NoSuchModule);
        };
        unload_from(&mut self.table, part, syms, id)
    }

    /// The live module with this id.
    #[tactic(auto, using(crate::proofs::Kernel::no_ident))]
    pub fn get(&self, id: u32) -> Option<&LoadedModule>
        ensures { option_copied result ≡ object_of self.now.rows id }
    {
        match Ident::new(id) {
            Some(id) => self.table.get(id),
            None => None,
        }
    }

    /// Does nothing. Its contract gives the invariant of the modules: their ids rise, and are from
    /// 1 to 1,048,576.
    pub fn facts(&self)
        ensures rising { Rising row_id self.now.rows }
        ensures ranged { All HasIdent self.now.rows }
    {
        self.table.facts();
    }

    /// The newest live module with this name.
    pub fn newest_named(&self, name: &[u8]) -> Option<Ident>
        ensures { result ≡ newest_named self.now.rows name.now }
    {
        newest_in(&self.table, name)
    }

    /// The least live id above a number.
    pub fn next_after(&self, id: u32) -> Option<Ident>
        ensures { result ≡ next_above self.now.rows id }
    {
        self.table.next_after(id)
    }
}

fn free_segment(part: &mut Part, segment: Segment)
    ensures { part.new ≡ without_segment part.old segment }
{
    if segment.size != 0 {
        let _ = part.free(segment.addr, Class::Kernel);
    }
}

fn free_segments(part: &mut Part, row: &LoadedModule)
    ensures { part.new ≡ without_segments part.old (Some row.now) }
{
    let segments: &[Segment] = &row.segments;
    for g in segments {
        free_segment(part, *g);
    }
}

#[tactic(auto, using(crate::proofs::Holds::of_module, crate::proofs::Kernel::idents_without))]
fn unload_from(
    table: &mut Table<LoadedModule>,
    part: &mut Part,
    syms: &mut Symbols,
    id: Ident,
) -> Result<(), NoSuchModule>
    requires held { AreHeld table.old.rows part.old }
    requires idents { All HasIdent table.old.rows }
    ensures held { AreHeld table.new.rows part.new }
    ensures idents { All HasIdent table.new.rows }
    ensures live { IsOk result ↔ IsSome (object_of table.old.rows id) }
    ensures rows { OnOk result (table.new ≡ removed table.old id) }
    ensures symbols { OnOk result (syms.new.list ≡ without_group id syms.old.list) }
    ensures blocks { OnOk result (part.new ≡ without_segments part.old (object_of table.old.rows id)) }
    ensures unchanged { OnErr result
        ((table.new ≡ table.old) × (syms.new ≡ syms.old) × (part.new ≡ part.old)) }
{
    if !table.contains(id) {
        return Err(NoSuchModule);
    }
    match table.remove(id) {
        Some(row) => free_segments(part, &row),
        None => unreachable!(),
    }
    let _ = syms.remove_group(id.get());
    Ok(())
}
