//! The texts of a load.

ghost use Rattle.std.specs.Prelude.{◌≡◌, ◌+◌, ◌≤◌, ◌++◌, List, [], ◌∷◌, length};
ghost use Rattle.wind_base.specs.OutBuf.{Added, KeepsSpace};
ghost use Rattle.symbol_table.specs.declared.symbol.Symbol.{Symbol};
ghost use Rattle.elf_read.specs.Modules.{IsModule};
ghost use Rattle.module_image.specs.Binding.{unbound};
ghost use Rattle.live_loading.specs.{Texts.{at_offset, file_reason, numbered, relocation_reason, reason, refused_text, undefined_line, undefined_text}, Causes.cause_text};

use elf_read::{ElfErr, Module, Sym, SymPlace};
use itoa::Buffer;
use module_loader::LoadErr;
use reloc_link::RelocErr;
use wind_base::text::{add, add_decimal};
use wind_base::{Name, OutBuf};

// The length in bytes of the line that reports an undefined name, without the name.
const LINE_BYTES: u32 = 19;

/// Why nothing is loaded.
#[derive(Clone, Copy, Debug, PartialEq, Eq)]
pub(crate) enum Cause {
    /// The file doesn't exist.
    NotFound,
    /// The file is longer than a module file may be.
    LongFile,
    /// The load is refused.
    Refused(LoadErr),
}

// Adds words and an offset in a file: at most 40 bytes.
fn add_at(out: &mut OutBuf, words: &[u8], offset: u64)
    requires words { length words.now ≤ 16 }
    requires room { 40 ≤ out.old.room }
    ensures { Added 40 out.old out.new (at_offset words.now offset) }
{
    let mut digits = Buffer::new();
    add(out, words);
    add(out, b" at ");
    add(out, digits.format(offset).as_bytes());
}

// Adds why a file is refused: at most 40 bytes.
fn add_file_reason(out: &mut OutBuf, e: ElfErr)
    requires { 40 ≤ out.old.room }
    ensures { Added 40 out.old out.new (file_reason e) }
{
    match e {
        ElfErr::Short(offset) => add_at(out, b"short file", offset),
        ElfErr::NotElf(offset) => add_at(out, b"not ELF", offset),
        ElfErr::NotPpc(offset) => add_at(out, b"not PowerPC", offset),
        ElfErr::NotRel(offset) => add_at(out, b"not relocatable", offset),
        ElfErr::BadSection(offset) => add_at(out, b"bad section", offset),
        ElfErr::BadSymbol(offset) => add_at(out, b"bad symbol", offset),
        ElfErr::BadReloc(offset) => add_at(out, b"bad relocation", offset),
        ElfErr::TooMany(offset) => add_at(out, b"too many entries", offset),
        ElfErr::NoMemory => add(out, b"out of memory"),
    }
}

// Adds the number of a relocation and words: at most 40 bytes.
fn add_numbered(out: &mut OutBuf, number: u32, words: &[u8])
    requires words { length words.now ≤ 19 }
    requires room { 40 ≤ out.old.room }
    ensures { Added 40 out.old out.new (numbered number words.now) }
{
    add(out, b"relocation ");
    add_decimal(out, number);
    add(out, words);
}

// Adds why a relocation can't be made: at most 40 bytes.
fn add_relocation_reason(out: &mut OutBuf, e: RelocErr)
    requires { 40 ≤ out.old.room }
    ensures { Added 40 out.old out.new (relocation_reason e) }
{
    match e {
        RelocErr::Range(number) => add_numbered(out, number, b" out of range"),
        RelocErr::Unaligned(number) => add_numbered(out, number, b" unaligned"),
        RelocErr::Unsupported(number) => add_numbered(out, number, b" unsupported"),
    }
}

// Adds why a load is refused: at most 40 bytes.
#[tactic(auto, unfolding(crate::specs::Texts::reason))]
fn add_reason(out: &mut OutBuf, e: LoadErr)
    requires { 40 ≤ out.old.room }
    ensures { Added 40 out.old out.new (reason e) }
{
    match e {
        LoadErr::Elf(e) => add_file_reason(out, e),
        LoadErr::ModulesFull => add(out, b"too many modules"),
        LoadErr::IdsSpent => add(out, b"ids spent"),
        LoadErr::TableFull => add(out, b"symbol table full"),
        LoadErr::Part(_) => add(out, b"no room"),
        LoadErr::Reloc(e) => add_relocation_reason(out, e),
        LoadErr::NoMemory => add(out, b"out of memory"),
    }
}

// Adds why nothing is loaded: at most 40 bytes.
fn add_cause(out: &mut OutBuf, cause: Cause)
    requires { 40 ≤ out.old.room }
    ensures { Added 40 out.old out.new (cause_text cause) }
{
    match cause {
        Cause::NotFound => add(out, b"not found"),
        Cause::LongFile => add(out, b"too long"),
        Cause::Refused(e) => add_reason(out, e),
    }
}

/// Adds the line that reports why the file with this name isn't loaded: at most 302 bytes.
#[tactic(auto, unfolding(crate::specs::Texts::refused_text))]
pub(crate) fn add_refusal(out: &mut OutBuf, name: &Name, cause: Cause)
    requires { 302 ≤ out.old.room }
    ensures { Added 302 out.old out.new (refused_text name.now (cause_text cause)) }
{
    add(out, b"ld: ");
    add(out, name.bytes());
    add(out, b": ");
    add_cause(out, cause);
    add(out, b"\n");
}

// Adds the line that reports an undefined name.
fn add_undefined_line(out: &mut OutBuf, name: &Name)
    requires { length (undefined_line name.now) ≤ out.old.room }
    ensures { Added (length (undefined_line name.now)) out.old out.new (undefined_line name.now) }
{
    add(out, b"undefined symbol: ");
    add(out, name.bytes());
    add(out, b"\n");
}

/// Adds a line for each undefined name.
#[tactic(auto, unfolding(crate::specs::Texts::undefined_text))]
pub(crate) fn add_undefined(out: &mut OutBuf, names: &[Name])
    requires { length (undefined_text names.now) ≤ out.old.room }
    ensures text { out.new.bytes ≡ out.old.bytes ++ undefined_text names.now }
    ensures space { KeepsSpace out.old out.new }
{
    for name in names {
        add_undefined_line(out, name);
    }
}

// The most bytes of a symbol's line: 0 if the module defines the symbol.
fn line_room(symbol: &Sym) -> u32
    ensures enough { (tab : List Symbol) → length (undefined_text (unbound tab (symbol.now ∷ []))) ≤ result }
    ensures most { result ≤ 274 }
{
    match symbol.place {
        SymPlace::Undefined => LINE_BYTES + symbol.name.bytes().len() as u32,
        _ => 0,
    }
}

/// The most bytes of all these lines, whatever the symbol table defines.
pub(crate) fn undefined_room(m: &Module) -> u32
    requires { IsModule m.now }
    ensures { (tab : List Symbol) → length (undefined_text (unbound tab m.now.symbols)) ≤ result }
{
    let mut room = 0;
    for symbol in m.symbols.as_slice() {
        room += line_room(symbol);
    }
    room
}
