//! The module of a source text. Its constants are those of the ELF gABI.

ghost use Rattle.std.specs.Prelude.{◌≡◌, ℕ, List, [], ◌∷◌, ◌++◌, ◌+◌, ◌<◌, ◌^◌, ◌≤◌, OnOk, IfOk, IfErr, Ok, length, map, filter, unwrap_or};
ghost use Rattle.std.specs.List.{All};
ghost use Rattle.wind_base.specs.Limits.{longest_name};
ghost use Rattle.elf_build.specs.Buildable.{Buildable};
ghost use Rattle.elf_read.specs.declared.module.Sym.{Sym};
ghost use Rattle.asm_lines.specs.Items.{Placed};
ghost use Rattle.ppc_asm.specs.Assembly.{label_symbol as label_symbol_lem, undefined_symbol as undefined_symbol_lem, is_undefined, symbols as symbols_lem, binding_of, is_chosen as is_chosen_lem, relocation, section_of, module_of as module_of_lem, assembly, FitsModule, Numbers};
ghost use Rattle.ppc_asm.specs.Laws.{DecodedLaw, ShownLaw};
ghost use Rattle.asm_lines.specs.Causes.{Tells};
ghost use Rattle.asm_lines.specs.Drafts.{number_at, Has, IsDraft, IsSmall};

use asm_lines::{AsmErr, Draft, Fix, Label, NameMap, draft_of};
use elf_read::{Body, Bytes, Module, Rel, RelList, Sect, SectList, Sym, SymList, SymPlace};
use ppc_text::Word;
use std::alloc::{AllocError, Global};
use wind_base::{Name, NameErr};

// SHF_ALLOC and SHF_EXECINSTR.
const TEXT_FLAGS: u32 = 6;

// SHF_WRITE and SHF_ALLOC.
const DATA_FLAGS: u32 = 3;

// STT_FUNC.
const FUNC: u8 = 2;

// STT_OBJECT.
const OBJECT: u8 = 1;

// The name with these bytes, at most 255.
fn name_of(alloc: Global, bytes: &[u8]) -> Result<Name, AllocError>
    requires { length bytes.now ≤ longest_name }
    ensures { IfOk result (λ name. name ≡ bytes.now) }
{
    match Name::new(alloc, bytes) {
        Ok(name) => Ok(name),
        Err(NameErr::NoMemory) => Err(AllocError),
        Err(NameErr::TooLong) => unreachable!(),
    }
}

fn section(alloc: Global, name: &[u8], flags: u32, bytes: &[u8]) -> Result<Sect, AllocError>
    requires { length name.now ≤ longest_name }
    ensures { IfOk result (λ s. s ≡ section_of name.now flags bytes.now) }
{
    let name = name_of(alloc, name)?;
    let bytes = bytes.to_vec(alloc)?;
    Ok(Sect {
        name,
        flags,
        align: 16,
        body: Body::Bytes(Bytes::from_vec(bytes)),
    })
}

fn label_symbol(alloc: Global, label: &Label, binding: u8) -> Result<Sym, AllocError>
    requires { length label.now.name ≤ longest_name }
    ensures { IfOk result (λ s. s ≡ label_symbol_lem binding label.now) }
{
    let name = name_of(alloc, label.name.bytes())?;
    let kind = if label.section == 0 { FUNC } else { OBJECT };
    Ok(Sym {
        name,
        binding,
        kind,
        value: label.offset,
        size: 0,
        place: SymPlace::Section(label.section),
    })
}

fn undefined_symbol(alloc: Global, name: &[u8]) -> Result<Sym, AllocError>
    requires { length name.now ≤ longest_name }
    ensures { IfOk result (λ s. s ≡ undefined_symbol_lem name.now) }
{
    let name = name_of(alloc, name)?;
    Ok(Sym {
        name,
        binding: 1,
        kind: 0,
        value: 0,
        size: 0,
        place: SymPlace::Undefined,
    })
}

/// The symbols of a module.
#[derive(Drop)]
struct Symbols<'a> {
    /// The symbols, in order.
    pub list: Vec<Sym>,
    /// The number of each name's first symbol, counted from 1.
    pub numbers: NameMap<'a>,
}

// Adds the symbol of a name after the others.
fn push<'a>(symbols: &mut Symbols<'a>, name: &Word<'a>, symbol: Sym) -> Result<(), AllocError>
    requires name { symbol.name ≡ name.now }
    requires room { length symbols.old.list.items + 1 < 2 ^ 32 }
    ensures list { OnOk result (symbols.new.list.items ≡ symbols.old.list.items ++ symbol ∷ []) }
    ensures numbers { OnOk result (Numbers symbols.old.numbers symbols.old.list.items
        → Numbers symbols.new.numbers symbols.new.list.items) }
{
    symbols.list.push(symbol)?;
    if symbols.numbers.has(name.bytes()) {
        return Ok(());
    }
    let number = symbols.list.len() as u32;
    symbols.numbers.set(name.bytes(), number)?;
    Ok(())
}

// STB_GLOBAL if `global` holds, else STB_LOCAL.
fn binding_number(global: bool) -> u8
    ensures { result ≡ binding_of global }
{
    if global { 1 } else { 0 }
}

// Whether a label is global, if `binding` holds; else whether it is local.
fn is_chosen(global: &NameMap, label: &Label, binding: bool) -> bool
    ensures { (names : List (List ℕ)) → Has global.now names → result ≡ is_chosen_lem names binding label.now }
{
    let known = global.has(label.name.bytes());
    if binding { known } else { !known }
}

// Adds the symbols of the global labels, if `binding` holds; else those of the local labels.
fn push_labels<'a>(
    alloc: Global,
    symbols: &mut Symbols<'a>,
    labels: &[Label<'a>],
    global: &NameMap<'a>,
    binding: bool,
) -> Result<(), AllocError>
    requires room { length symbols.old.list.items + length labels.now < 2 ^ 32 }
    requires short { All (λ l. length l.name ≤ longest_name) labels.now }
    ensures list { OnOk result ((names : List (List ℕ)) → Has global.now names
        → symbols.new.list.items ≡ symbols.old.list.items
        ++ map (label_symbol_lem (binding_of binding)) (filter (is_chosen_lem names binding) labels.now)) }
    ensures few { OnOk result (length symbols.new.list.items ≤ length symbols.old.list.items + length labels.now) }
    ensures numbers { OnOk result (Numbers symbols.old.numbers symbols.old.list.items
        → Numbers symbols.new.numbers symbols.new.list.items) }
{
    for label in labels {
        if is_chosen(global, label, binding) {
            let symbol = label_symbol(alloc, label, binding_number(binding))?;
            push(symbols, &label.name, symbol)?;
        }
    }
    Ok(())
}

// Adds the symbols of the names that aren't labels.
fn push_others<'a>(
    alloc: Global,
    symbols: &mut Symbols<'a>,
    names: &[Word<'a>],
    labelled: &NameMap<'a>,
) -> Result<(), AllocError>
    requires room { length symbols.old.list.items + length names.now < 2 ^ 32 }
    requires short { All (λ n. length n ≤ longest_name) names.now }
    ensures list { OnOk result ((defined : List (List ℕ)) → Has labelled.now defined
        → symbols.new.list.items ≡ symbols.old.list.items
        ++ map undefined_symbol_lem (filter (is_undefined defined) names.now)) }
    ensures numbers { OnOk result (Numbers symbols.old.numbers symbols.old.list.items
        → Numbers symbols.new.numbers symbols.new.list.items) }
{
    for name in names {
        if !labelled.has(name.bytes()) {
            let symbol = undefined_symbol(alloc, name.bytes())?;
            push(symbols, name, symbol)?;
        }
    }
    Ok(())
}

fn symbols_of<'a>(alloc: Global, draft: &Draft<'a>) -> Result<Symbols<'a>, AllocError>
    requires small { IsSmall draft.now }
    requires fits { FitsModule draft.now }
    ensures list { IfOk result (λ symbols. (ps : List Placed) → IsDraft draft.now ps
        → symbols.list.items ≡ symbols_lem ps) }
    ensures numbers { IfOk result (λ symbols. Numbers symbols.numbers symbols.list.items) }
{
    let mut symbols = Symbols {
        list: Vec::new(alloc),
        numbers: NameMap::new(alloc),
    };
    let names = &draft.names;
    push_labels(alloc, &mut symbols, &draft.labels, &names.global, false)?;
    push_labels(alloc, &mut symbols, &draft.labels, &names.global, true)?;
    push_others(alloc, &mut symbols, &names.entries, &names.labelled)?;
    Ok(symbols)
}

fn number_of(numbers: &NameMap, name: &[u8]) -> u32
    ensures { result ≡ unwrap_or (number_at numbers.now name.now) 0 }
{
    match numbers.get(name) {
        Some(number) => number,
        None => 0,
    }
}

fn add_relocations(
    list: &mut Vec<Rel>,
    section: u32,
    fixes: &[Fix],
    numbers: &NameMap,
) -> Result<(), AllocError>
    requires { All (λ f. f.offset < 2 ^ 32) fixes.now }
    ensures { OnOk result ((ss : List Sym) → Numbers numbers.now ss
        → list.new.items ≡ list.old.items ++ map (relocation ss section) fixes.now) }
{
    for fix in fixes {
        list.push(Rel {
            section,
            offset: fix.offset as u32,
            kind: fix.kind,
            symbol: number_of(numbers, fix.symbol.bytes()),
            addend: fix.addend,
        })?;
    }
    Ok(())
}

// The module of a draft. The error is that host memory ran out.
#[tactic(auto, unfolding(crate::specs::Assembly::module_of, crate::specs::Assembly::relocations))]
fn module_of(alloc: Global, draft: &Draft) -> Result<Module, AllocError>
    requires small { IsSmall draft.now }
    requires fits { FitsModule draft.now }
    ensures { IfOk result (λ m. (ps : List Placed) → IsDraft draft.now ps → m ≡ module_of_lem ps) }
{
    let symbols = symbols_of(alloc, draft)?;
    let mut relocs = Vec::new(alloc);
    add_relocations(&mut relocs, 0, &draft.text_part.fixes, &symbols.numbers)?;
    add_relocations(&mut relocs, 1, &draft.data_part.fixes, &symbols.numbers)?;
    let mut sections = Vec::new(alloc);
    sections.push(section(alloc, b".text", TEXT_FLAGS, &draft.text_part.bytes)?)?;
    sections.push(section(alloc, b".data", DATA_FLAGS, &draft.data_part.bytes)?)?;
    Ok(Module {
        sections: SectList::from_vec(sections),
        symbols: SymList::from_vec(symbols.list),
        relocs: RelList::from_vec(relocs),
    })
}

/// Assembles a source text into a relocatable module. Every such module has an ELF file. The error is the text's first
/// refused line, counted from 1, with its first cause, or that host memory ran out.
#[tactic(auto, using(crate::proofs::Ending::module_tells))]
pub fn assemble(alloc: Global, text: &[u8]) -> Result<Module, AsmErr>
    ensures good { IfOk result (λ m. assembly text.now ≡ Ok m) }
    ensures bad { IfErr result (Tells (assembly text.now)) }
    ensures has_file { IfOk result Buildable }
{
    let draft = draft_of(alloc, text)?;
    match module_of(alloc, &draft) {
        Ok(m) => Ok(m),
        Err(_) => Err(AsmErr::NoMemory),
    }
}

/// The law of instructions as text: what `show` writes of an instruction is assembled to its word.
#[tactic(auto, using(crate::proofs::Alone::assembled))]
pub fn shown_law()
    ensures { ShownLaw }
{}

/// The law of words: the word of each instruction of a text that is assembled decodes to the instruction that its line
/// names.
#[tactic(auto, using(crate::proofs::Decoded::decoded))]
pub fn decoded_law()
    ensures { DecodedLaw }
{}
