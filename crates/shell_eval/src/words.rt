//! What names, strings, addresses and new variables give.

ghost use Rattle.std.specs.Prelude.{◌≡◌, ◌+◌, ◌<◌, ◌≤◌, length, replicate, None, OnErr, IsOk, IsSome, IfSome};
ghost use Rattle.std.specs.Option.{option_map};
ghost use Rattle.wind_base.specs.OutBuf.{Added};
ghost use Rattle.wind_base.specs.Limits.{longest_name, most_symbols};
ghost use Rattle.board_mem.specs.Memory.{with_bytes};
ghost use Rattle.mem_partition.specs.Place.{rounded};
ghost use Rattle.symbol_table.specs.Newest.{find};
ghost use Rattle.shell_eval.specs.Words.{word_read as word_read_lem, word_stored as word_stored_lem, name_word as name_word_lem, name_value as name_value_lem, string_made as string_made_lem, variable_made as variable_made_lem, announcement, is_value as is_value_lem, block_of, with_block_of, variable_bytes};
ghost use Rattle.shell_eval.specs.Seen.{seen, Gives, Stays, AddsOne, most_announced};

use crate::code::Text;
use crate::env::Env;
use crate::fault::EvalFault;
use board_mem::Ram;
use mem_partition::{Class, Part};
use ppc_core::Bus;
use symbol_table::{SymKind, Symbol, Symbols};
use wind_base::limits::SYMBOLS;
use wind_base::text::add;
use wind_base::{Name, OutBuf};
use wind_outside::Device;

/// The word at an address.
#[tactic(auto, unfolding(crate::specs::Words::word_read))]
pub(crate) fn word_read(env: &mut Env<'_>, at: u32) -> Result<u32, EvalFault>
    requires { Unit {0} }
    ensures word { Gives ⟦<dyn Device as Device>⟧ result (λ s. word_read_lem s at) env.old env.new }
    ensures stays { Stays ⟦<dyn Device as Device>⟧ result env.old env.new }
{
    match env.bus.load32(at) {
        Ok(word) => Ok(word),
        Err(_) => Err(EvalFault::AccessAt(at)),
    }
}

/// Stores a word at an address, and returns it.
#[tactic(auto, unfolding(crate::specs::Words::word_stored))]
pub(crate) fn word_stored(env: &mut Env<'_>, at: u32, v: u32) -> Result<u32, EvalFault>
    requires { Unit {0} }
    ensures word { Gives ⟦<dyn Device as Device>⟧ result (λ s. word_stored_lem s at v) env.old env.new }
    ensures stays { Stays ⟦<dyn Device as Device>⟧ result env.old env.new }
    ensures inside { at + 4 ≤ length env.old.bus.now.ram.bytes → IsOk result }
{
    match env.bus.store32(at, v) {
        Ok(()) => Ok(v),
        Err(_) => Err(EvalFault::AccessAt(at)),
    }
}

/// The word of a name, from its newest symbol.
#[tactic(auto, unfolding(crate::specs::Words::name_word))]
pub(crate) fn name_word(env: &mut Env<'_>, name: Name) -> Result<u32, EvalFault>
    requires { Unit {0} }
    ensures word { Gives ⟦<dyn Device as Device>⟧ result (λ s. name_word_lem s name) env.old env.new }
    ensures stays { Stays ⟦<dyn Device as Device>⟧ result env.old env.new }
{
    let Some((kind, value)) = looked_up(env.syms, name.bytes()) else {
        return Err(EvalFault::Undefined(name));
    };
    if is_value(kind) {
        return Ok(value);
    }
    word_read(env, value)
}

/// The value of a name's newest symbol.
#[tactic(auto, unfolding(crate::specs::Words::name_value))]
pub(crate) fn name_value(env: &mut Env<'_>, name: Name) -> Result<u32, EvalFault>
    requires { Unit {0} }
    ensures word { Gives ⟦<dyn Device as Device>⟧ result (λ s. name_value_lem s name) env.old env.new }
    ensures stays { Stays ⟦<dyn Device as Device>⟧ result env.old env.new }
{
    match looked_up(env.syms, name.bytes()) {
        Some((_, value)) => Ok(value),
        None => Err(EvalFault::Undefined(name)),
    }
}

/// The kind and the value of a name's newest symbol.
pub(crate) fn looked_up(syms: &Symbols, name: &[u8]) -> Option<(SymKind, u32)>
    ensures { result ≡ option_map (λ y. (y.kind, y.value)) (find syms.now.list name.now) }
{
    syms.find(name).map(|symbol| (symbol.kind, symbol.value))
}

/// Whether a symbol of this kind stands for its value; other symbols stand for the word there.
pub(crate) fn is_value(kind: SymKind) -> bool
    ensures { result ≡ is_value_lem kind }
{
    matches!(kind, SymKind::TextSym | SymKind::AbsSym)
}

// A Kernel block of n bytes, if the partition has room.
#[tactic(auto, using(crate::proofs::Blocks::block_lies, crate::proofs::Blocks::block_holds, crate::proofs::Blocks::block_stays, crate::proofs::Blocks::block_end))]
fn block_for(part: &mut Part, n: u32) -> Option<u32>
    ensures found { result ≡ block_of part.old n }
    ensures pool { part.new ≡ with_block_of part.old n }
    ensures kept { result ≡ None → part.new ≡ part.old }
    ensures inside { IfSome result (λ at. at + rounded n ≤ part.old.end) }
    ensures holds { IfSome result (λ at. at + n ≤ part.old.end) }
    ensures end { part.new.end ≡ part.old.end }
{
    part.alloc(n, 1, Class::Kernel).ok()
}

// A Kernel block for these bytes, if the partition has room.
#[tactic(auto, using(crate::proofs::Blocks::none_beyond))]
fn block_with_room(part: &mut Part, bytes: &[u8]) -> Option<u32>
    ensures found { result ≡ block_of part.old (length bytes.now) }
    ensures pool { IsSome result → part.new ≡ with_block_of part.old (length bytes.now) }
    ensures kept { result ≡ None → part.new ≡ part.old }
    ensures inside { IfSome result (λ at. at + length bytes.now ≤ part.old.end) }
    ensures end { part.new.end ≡ part.old.end }
{
    if bytes.len() > part.end() as usize {
        return None;
    }
    block_for(part, bytes.len() as u32)
}

// Writes bytes to RAM, at addresses inside it.
fn put_bytes(ram: &mut Ram, at: u32, bytes: &[u8])
    requires { at + length bytes.now ≤ length ram.old.bytes }
    ensures bytes { ram.new.bytes ≡ with_bytes ram.old.bytes at bytes.now }
    ensures size { length ram.new.bytes ≡ length ram.old.bytes }
{
    let _ = ram.copy_in(at, bytes);
}

/// Puts a string, followed by a zero, into a block of its own.
#[tactic(auto, unfolding(crate::specs::Words::string_made))]
pub(crate) fn string_made(env: &mut Env<'_>, text: &Text) -> Result<u32, EvalFault>
    requires pool { env.old.part.now.end ≤ length env.old.bus.now.ram.bytes }
    ensures word { Gives ⟦<dyn Device as Device>⟧ result (λ s. string_made_lem s text.now) env.old env.new }
    ensures stays { Stays ⟦<dyn Device as Device>⟧ result env.old env.new }
{
    let bytes = text.with_zero();
    let Some(at) = block_with_room(env.part, bytes) else {
        return Err(EvalFault::NoRoom);
    };
    let bus = &mut *env.bus;
    put_bytes(&mut bus.ram, at, bytes);
    Ok(at)
}

// The size of a variable, and that of its block, in bytes.
const VARIABLE_BYTES: u32 = 4;

const VARIABLE_BLOCK: u32 = 16;

// Writes zeros to the block of a variable.
#[tactic(auto, unfolding(mem_partition::specs::Place::rounded, mem_partition::specs::Place::aligned))]
fn zero_block(ram: &mut Ram, at: u32)
    requires { at + rounded variable_bytes ≤ length ram.old.bytes }
    ensures bytes { ram.new.bytes ≡ with_bytes ram.old.bytes at (replicate (rounded variable_bytes) 0) }
    ensures size { length ram.new.bytes ≡ length ram.old.bytes }
{
    let _ = ram.fill(at, VARIABLE_BLOCK, 0);
}

// Writes the line that reports a new symbol.
#[tactic(auto, using(std::proofs::Common::append_assoc), unfolding(crate::specs::Words::announcement))]
fn announce(out: &mut OutBuf, name: &[u8])
    requires room { most_announced ≤ out.old.room }
    requires name { length name.now ≤ longest_name }
    ensures { Added most_announced out.old out.new (announcement name.now) }
{
    add(out, b"new symbol \"");
    add(out, name);
    add(out, b"\" added to symbol table.\n");
}

/// Makes a new variable with its first word.
#[tactic(auto, unfolding(crate::specs::Words::variable_made))]
pub(crate) fn variable_made(env: &mut Env<'_>, name: Name, v: u32) -> Result<u32, EvalFault>
    requires spare { length env.old.syms.now.list < most_symbols → 0 < env.old.syms.now.spare }
    requires room { most_announced ≤ env.old.out.now.room }
    requires pool { env.old.part.now.end ≤ length env.old.bus.now.ram.bytes }
    ensures word { Gives ⟦<dyn Device as Device>⟧ result (λ s. variable_made_lem s name v) env.old env.new }
    ensures kept { OnErr result (seen ⟦<dyn Device as Device>⟧ env.new ≡ seen ⟦<dyn Device as Device>⟧ env.old) }
    ensures adds { AddsOne env.old env.new }
{
    if name.bytes().is_empty() {
        return Err(EvalFault::Undefined(name));
    }
    if env.syms.len() >= SYMBOLS {
        return Err(EvalFault::SymbolsFull);
    }
    let Some(at) = block_for(env.part, VARIABLE_BYTES) else {
        return Err(EvalFault::NoRoom);
    };
    let bus = &mut *env.bus;
    zero_block(&mut bus.ram, at);
    announce(env.out, name.bytes());
    env.syms.add(Symbol {
        name,
        value: at,
        kind: SymKind::DataSym,
        global: true,
        group: 0,
    });
    word_stored(env, at, v)
}
