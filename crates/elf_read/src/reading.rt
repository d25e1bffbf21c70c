//! Reads the module of an accepted file.

ghost use Rattle.std.specs.Prelude.{◌≡◌, ◌+◌, ◌-◌, ◌<◌, ◌^◌, ◌++◌, IfOk, IfErr, IsTrue, Ok};
ghost use Rattle.elf_read.specs.Contents.{name_at, body_of as body_at, sect_of as sect_at, place_of as place_at, sym_of as sym_at, syms_at, sects_at, rel_of as rel_at, rels_at, module_at, ModuleOf, FailsRightly};
ghost use Rattle.elf_read.specs.Numbered.{gathered};
ghost use Rattle.elf_read.specs.Modules.{IsModule};
ghost use Rattle.elf_read.specs.Tables.{header_count as header_count_of, header as header_at, is_applied as is_applied_at, loaded_before, section_numbers as section_numbers_of, section_names as section_names_of, symtab as symtab_of, symbol_count as symbol_count_of, symbol_names as symbol_names_of};

use crate::checking::check;
use crate::entries::SectionHeader;
use crate::error::ElfErr;
use crate::module::{Body, Bytes, Module, Rel, RelList, Sect, SectList, Sym, SymList, SymPlace};
use crate::places::{rest_at, text};
use crate::standard::{SHN_ABS, SHN_COMMON, SHN_UNDEF, SHT_NOBITS};
use crate::tables::{
    content, header, header_count, is_applied, is_loaded, rela_count, relocation, section_names,
    symbol, symbol_count, symbol_names, symtab,
};
use std::alloc::{AllocError, Global};
use wind_base::Name;

// The name at an index of a string table.
fn read_name(alloc: Global, strings: &[u8], k: usize) -> Result<Name, AllocError>
    ensures { IfOk result (λ name. name ≡ name_at strings.now k) }
{
    // a rule has refused names that are too long, so only memory can run out here
    Name::new(alloc, text(rest_at(strings, k))).map_err(|_| AllocError)
}

// A copy of these bytes.
fn copied(alloc: Global, bytes: &[u8]) -> Result<Bytes, AllocError>
    ensures { IfOk result (λ b. b ≡ bytes.now) }
{
    let items = bytes.to_vec(alloc)?;
    Ok(Bytes::from_vec(items))
}

// For each section, the number of loaded sections before it. That is its number among the loaded
// ones.
#[tactic(auto, unfolding(crate::specs::Tables::loaded_before), using(crate::proofs::Gather::numbers_more, crate::proofs::Gather::total_more))]
pub(crate) fn section_numbers(alloc: Global, bytes: &[u8]) -> Result<Vec<u32>, AllocError>
    ensures { IfOk result (λ v. v.items ≡ section_numbers_of bytes.now) }
{
    let mut list = Vec::new(alloc);
    let mut sofar = 0;
    let count = header_count(bytes);
    for i in 0..count {
        list.push(sofar)?;
        if is_loaded(bytes, i) {
            sofar += 1;
        }
    }
    Ok(list)
}

fn read_body(alloc: Global, bytes: &[u8], i: usize, h: SectionHeader) -> Result<Body, AllocError>
    requires low { i < 2 ^ 16 }
    requires is { h ≡ header_at bytes.now i }
    ensures { IfOk result (λ b. b ≡ body_at bytes.now i h) }
{
    if h.kind == SHT_NOBITS {
        return Ok(Body::Size(h.size));
    }
    let content = copied(alloc, content(bytes, i))?;
    Ok(Body::Bytes(content))
}

#[tactic(auto, unfolding(crate::specs::Contents::sect_of))]
fn read_sect(alloc: Global, bytes: &[u8], names: &[u8], i: usize) -> Result<Sect, AllocError>
    requires table { names.now ≡ section_names_of bytes.now }
    requires low { i < 2 ^ 16 }
    ensures { IfOk result (λ s. s ≡ sect_at bytes.now i) }
{
    let h = header(bytes, i);
    let name = read_name(alloc, names, h.name as usize)?;
    let body = read_body(alloc, bytes, i, h)?;
    let align = if h.align == 0 { 1 } else { h.align };
    Ok(Sect {
        name,
        flags: h.flags,
        align,
        body,
    })
}

// Adds the section of header number `i`, if it is loaded.
fn read_sects_at(
    alloc: Global,
    list: &mut Vec<Sect>,
    bytes: &[u8],
    names: &[u8],
    i: usize,
) -> Result<(), AllocError>
    requires table { names.now ≡ section_names_of bytes.now }
    requires low { i < 2 ^ 16 }
    ensures { IfOk result (λ u. list.new.items ≡ list.old.items ++ sects_at bytes.now i) }
{
    if is_loaded(bytes, i) {
        let sect = read_sect(alloc, bytes, names, i)?;
        list.push(sect)?;
    }
    Ok(())
}

#[tactic(auto, using(crate::proofs::Gather::gathered_step, crate::proofs::Gather::gathered_last))]
fn read_sects(alloc: Global, bytes: &[u8]) -> Result<SectList, AllocError>
    ensures { IfOk result (λ ss. ss ≡ gathered 0 (header_count_of bytes.now) (sects_at bytes.now)) }
{
    let mut list = Vec::new(alloc);
    let names = section_names(bytes);
    let count = header_count(bytes);
    for i in 0..count {
        read_sects_at(alloc, &mut list, bytes, names, i)?;
    }
    Ok(SectList::from_vec(list))
}

// The place of a symbol, by the number of its section.
#[tactic(auto, unfolding(crate::specs::Contents::place_of, crate::specs::Tables::is_loaded), using(crate::proofs::Gather::number_at, crate::proofs::Gather::numbers_count))]
fn read_place(bytes: &[u8], numbers: &[u32], n: u16) -> SymPlace
    requires all { numbers.now ≡ section_numbers_of bytes.now }
    ensures { result ≡ place_at bytes.now n }
{
    if n == SHN_UNDEF {
        return SymPlace::Undefined;
    }
    if n == SHN_ABS {
        return SymPlace::Absolute;
    }
    if n == SHN_COMMON {
        return SymPlace::Common;
    }
    if is_loaded(bytes, n as usize) {
        return SymPlace::Section(numbers[n as usize]);
    }
    SymPlace::Elsewhere
}

#[tactic(auto, unfolding(crate::specs::Contents::sym_of))]
fn read_sym(
    alloc: Global,
    bytes: &[u8],
    numbers: &[u32],
    symtab: usize,
    names: &[u8],
    k: usize,
) -> Result<Sym, AllocError>
    requires all { numbers.now ≡ section_numbers_of bytes.now }
    requires table { symtab ≡ symtab_of bytes.now }
    requires low { symtab < 2 ^ 16 }
    requires strings { names.now ≡ symbol_names_of bytes.now }
    requires few { k < 2 ^ 28 }
    ensures { IfOk result (λ s. s ≡ sym_at bytes.now k) }
{
    let e = symbol(bytes, symtab, k);
    let name = read_name(alloc, names, e.name as usize)?;
    Ok(Sym {
        name,
        binding: e.info / 16,
        kind: e.info % 16,
        value: e.value,
        size: e.size,
        place: read_place(bytes, numbers, e.section),
    })
}

#[tactic(auto, using(crate::proofs::Gather::gathered_step, crate::proofs::Gather::gathered_last))]
pub(crate) fn read_syms(alloc: Global, bytes: &[u8], numbers: &[u32]) -> Result<SymList, AllocError>
    requires { numbers.now ≡ section_numbers_of bytes.now }
    ensures { IfOk result (λ ss. ss ≡ gathered 1 (symbol_count_of bytes.now - 1) (syms_at bytes.now)) }
{
    let mut list = Vec::new(alloc);
    let table = symtab(bytes);
    let names = symbol_names(bytes, table);
    let count = symbol_count(bytes, table);
    for k in 1..count {
        let sym = read_sym(alloc, bytes, numbers, table, names, k)?;
        list.push(sym)?;
    }
    Ok(SymList::from_vec(list))
}

#[tactic(auto, unfolding(crate::specs::Contents::rel_of))]
fn read_rel(bytes: &[u8], section: u32, i: usize, k: usize) -> Rel
    requires low { i < 2 ^ 16 }
    requires fits { k < 2 ^ 29 }
    requires number { section ≡ loaded_before bytes.now (header_at bytes.now i).info }
    ensures { result ≡ rel_at bytes.now i k }
{
    let r = relocation(bytes, i, k);
    Rel {
        section,
        offset: r.offset,
        kind: (r.info % 256) as u8,
        symbol: r.info / 256,
        addend: r.addend,
    }
}

// The number, among the loaded sections, of the section that header number `i` relocates.
#[tactic(auto, unfolding(crate::specs::Tables::is_applied, crate::specs::Tables::is_loaded), using(crate::proofs::Gather::number_at, crate::proofs::Gather::numbers_count))]
fn target_number(bytes: &[u8], numbers: &[u32], i: usize) -> u32
    requires low { i < 2 ^ 16 }
    requires all { numbers.now ≡ section_numbers_of bytes.now }
    requires applied { IsTrue (is_applied_at bytes.now i) }
    ensures { result ≡ loaded_before bytes.now (header_at bytes.now i).info }
{
    numbers[header(bytes, i).info as usize]
}

// Adds the relocations of section number `i`, if it has any.
#[tactic(auto, unfolding(crate::specs::Contents::rels_at, crate::specs::Tables::rela_count), using(crate::proofs::Gather::gathered_step, crate::proofs::Gather::gathered_last))]
fn add_rels(list: &mut Vec<Rel>, bytes: &[u8], numbers: &[u32], i: usize) -> Result<(), AllocError>
    requires low { i < 2 ^ 16 }
    requires all { numbers.now ≡ section_numbers_of bytes.now }
    ensures { IfOk result (λ u. list.new.items ≡ list.old.items ++ rels_at bytes.now i) }
{
    if !is_applied(bytes, i) {
        return Ok(());
    }
    let count = rela_count(bytes, i);
    let section = target_number(bytes, numbers, i);
    for k in 0..count {
        list.push(read_rel(bytes, section, i, k))?;
    }
    Ok(())
}

#[tactic(auto, using(crate::proofs::Gather::gathered_step, crate::proofs::Gather::gathered_last))]
fn read_rels(alloc: Global, bytes: &[u8], numbers: &[u32]) -> Result<RelList, AllocError>
    requires { numbers.now ≡ section_numbers_of bytes.now }
    ensures { IfOk result (λ rs. rs ≡ gathered 0 (header_count_of bytes.now) (rels_at bytes.now)) }
{
    let mut list = Vec::new(alloc);
    let count = header_count(bytes);
    for i in 0..count {
        add_rels(&mut list, bytes, numbers, i)?;
    }
    Ok(RelList::from_vec(list))
}

// The file's module, with these symbols.
#[tactic(auto, unfolding(crate::specs::Contents::module_at))]
pub(crate) fn complete(
    alloc: Global,
    bytes: &[u8],
    numbers: &[u32],
    symbols: SymList,
) -> Result<Module, AllocError>
    requires all { numbers.now ≡ section_numbers_of bytes.now }
    requires symbols { symbols ≡ (module_at bytes.now).symbols }
    ensures { IfOk result (λ m. m ≡ module_at bytes.now) }
{
    let sections = read_sects(alloc, bytes)?;
    let relocs = read_rels(alloc, bytes, numbers)?;
    Ok(Module {
        sections,
        symbols,
        relocs,
    })
}

// The file's module.
#[tactic(auto, unfolding(crate::specs::Contents::module_at))]
fn read_module(alloc: Global, bytes: &[u8]) -> Result<Module, AllocError>
    ensures { IfOk result (λ m. m ≡ module_at bytes.now) }
{
    let numbers = section_numbers(alloc, bytes)?;
    let symbols = read_syms(alloc, bytes, &numbers)?;
    complete(alloc, bytes, &numbers, symbols)
}

/// Reads an object file's module, or returns the refusal of the first rule that fails, or runs out
/// of memory. It takes time for each byte and entry of the file, and memory for the module.
#[tactic(auto, using(crate::proofs::Holding::module_is))]
pub fn read(alloc: Global, bytes: &[u8]) -> Result<Module, ElfErr>
    ensures module { IfOk result (ModuleOf bytes.now) }
    ensures known { IfOk result IsModule }
    ensures refusal { IfErr result (FailsRightly bytes.now) }
{
    check(bytes)?;
    Ok(read_module(alloc, bytes)?)
}
