//! Loads a module.

ghost use Rattle.std.specs.Prelude.{◌≡◌, ◌<◌, ◌≤◌, Ok, Err, false, IfOk, IfErr, IsOk, OnOk, OnErr, length, All};
ghost use Rattle.wind_base.specs.{Boards.board_rules, Limits.most_modules};
ghost use Rattle.id_table.specs.Rows.{IdsBelow};
ghost use Rattle.mem_partition.specs.State.{IsPart};
ghost use Rattle.elf_read.specs.{Contents.module_at, Modules.IsModule, Outline.outline_of, Rules.checked};
ghost use Rattle.module_image.specs.{Needs.needs_of, Exports.{exports as exports_lem}, Binding.unbound, Image.image, Making.IsMade};
ghost use Rattle.module_loader.specs.{Placing.{places_of, with_needs}, Loading.{place_verdict, verdict, loaded_answer, IsLoaded, IsVerdict}, Modules.{HasIdent, modules_on}, Steps.{IsFileRefusal, state_of}};

use crate::blocks::{give_blocks, take_blocks};
use crate::commit::{commit, make_record};
use crate::counts::check_counts;
use crate::module::{LoadErr, Loaded, LoadedModule};
use board_mem::Ram;
use elf_read::{ElfErr, Module, Outline, read_outline};
use id_table::Table;
use mem_partition::{Part, PartErr};
use module_image::{Needs, Places, PrepareErr, Prepared, count_added, measure_module, prepare};
use std::alloc::Global;
use symbol_table::Symbols;
use wind_base::{BoardKind, Name};
use wind_core::Kern;

/// Allocates the blocks of a module, and prepares what goes into them. If that fails, the blocks
/// are freed.
#[tactic(auto, using(crate::proofs::Loads::text_and_data, crate::proofs::Loads::placed_fault, crate::proofs::Taking::needs_back, module_image::proofs::Known::linkable))]
fn place(
    alloc: Global,
    board: BoardKind,
    part: &mut Part,
    syms: &Symbols,
    m: &Module,
    needs: Needs,
    mode: u32,
    id: u32,
) -> Result<(Places, Prepared), LoadErr>
    requires module { IsModule m.now }
    requires needs { needs ≡ needs_of m.now }
    ensures placed { IfOk result (λ r. places_of (board_rules board).segments part.old needs ≡ Ok r.0) }
    ensures made { IfOk result (λ r. IsMade (image m.now syms.now.list r.0) needs r.1.bytes.items) }
    ensures exports { IfOk result (λ r. r.1.exports.items ≡ exports_lem m.now mode r.0 id) }
    ensures undefined { IfOk result (λ r. r.1.undefined ≡ unbound syms.now.list m.now.symbols) }
    ensures after { OnOk result (part.new ≡ with_needs (board_rules board).segments part.old needs) }
    ensures unchanged { OnErr result (part.new ≡ part.old) }
    ensures refused { IfErr result (IsVerdict
        (place_verdict m.now syms.now.list (places_of (board_rules board).segments part.old needs))) }
    ensures sound { IsPart part.old }
{
    let _end = part.end();
    let at = match take_blocks(part, board, needs) {
        Ok(at) => at,
        Err(e) => return Err(LoadErr::Part(e)),
    };
    match prepare(alloc, m, syms, at, mode, id) {
        Ok(made) => Ok((at, made)),
        Err(PrepareErr::Reloc(e)) => {
            give_blocks(part, needs, at);
            Err(LoadErr::Reloc(e))
        }
        Err(PrepareErr::NoMemory) => {
            give_blocks(part, needs, at);
            Err(LoadErr::NoMemory)
        }
    }
}

/// Loads a module that has been read.
pub(crate) fn load_module(
    alloc: Global,
    board: BoardKind,
    table: &mut Table<LoadedModule>,
    kern: &mut Kern,
    part: &mut Part,
    syms: &mut Symbols,
    ram: &mut Ram,
    name: Name,
    m: &Module,
    mode: u32,
) -> Result<Loaded, LoadErr>
    requires module { IsModule m.now }
    requires room { table.old.room ≡ most_modules }
    requires ids { kern.old.lent ≡ false }
    requires below { IdsBelow kern.old.next_id table.old.rows }
    requires idents { All HasIdent table.old.rows }
    requires pool { part.old.end ≤ length ram.old.bytes }
    ensures answer { IfOk result
        (λ l. l ≡ loaded_answer
        (state_of kern.old syms.old.list (modules_on board table.old.rows) part.old ram.old.bytes) m.now) }
    ensures accepted { OnOk result (IsLoaded
        (verdict
        (state_of kern.old syms.old.list (modules_on board table.old.rows) part.old ram.old.bytes) m.now mode)
        (state_of kern.old syms.old.list (modules_on board table.old.rows) part.old ram.old.bytes) name m.now mode
        (state_of kern.new syms.new.list (modules_on board table.new.rows) part.new ram.new.bytes)) }
    ensures refused { IfErr result
        (IsVerdict (verdict
        (state_of kern.old syms.old.list (modules_on board table.old.rows) part.old ram.old.bytes) m.now mode)) }
    ensures unchanged { OnErr result
        (state_of kern.new syms.new.list (modules_on board table.new.rows) part.new ram.new.bytes
        ≡ state_of kern.old syms.old.list (modules_on board table.old.rows) part.old ram.old.bytes) }
    ensures room { table.new.room ≡ most_modules }
    ensures idents { All HasIdent table.new.rows }
    ensures sound { OnOk result (IsPart part.old) }
{
    let Ok(needs) = measure_module(alloc, m) else {
        return Err(LoadErr::NoMemory);
    };
    let added = count_added(m.symbols.as_slice(), mode);
    let id = match check_counts(table, kern, syms, added) {
        Ok(id) => id,
        Err(e) => return Err(e),
    };
    let (at, made) = match place(alloc, board, part, syms, m, needs, mode, id.get()) {
        Ok(r) => r,
        Err(e) => return Err(e),
    };
    let row = make_record(name, needs, at);
    let cut = needs.text.size as usize;
    let bss = needs.bss.size as u32;
    Ok(commit(table, kern, syms, ram, row, cut, at, bss, made))
}

/// Reads the outline of a file, or finds the rule that refuses the file.
pub(crate) fn outline_file(alloc: Global, file: &[u8]) -> Result<Outline, LoadErr>
    ensures outline { IfOk result (λ o. o ≡ outline_of (module_at file.now)) }
    ensures passes { IfOk result (λ o. checked file.now ≡ Ok tt) }
    ensures known { IfOk result (λ o. IsModule (module_at file.now)) }
    ensures refused { IfErr result (IsFileRefusal (checked file.now)) }
{
    match read_outline(alloc, file) {
        Ok(o) => Ok(o),
        Err(ElfErr::NoMemory) => Err(LoadErr::NoMemory),
        Err(e) => Err(LoadErr::Elf(e)),
    }
}

/// Checks that the three segments have places. The partition stays as it is.
#[tactic(auto, using(crate::proofs::Taking::needs_back))]
pub(crate) fn check_blocks(part: &mut Part, board: BoardKind, needs: Needs) -> Result<(), PartErr>
    ensures placed { OnOk result (IsOk (places_of (board_rules board).segments part.old needs)) }
    ensures refused { IfErr result (λ e. places_of (board_rules board).segments part.old needs ≡ Err e) }
    ensures same { part.new ≡ part.old }
{
    let _end = part.end();
    match take_blocks(part, board, needs) {
        Ok(at) => {
            give_blocks(part, needs, at);
            Ok(())
        }
        Err(e) => Err(e),
    }
}
