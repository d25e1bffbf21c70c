//! The call that unloads a module.

ghost use Rattle.std.specs.Prelude.{◌≡◌};
ghost use Rattle.module_loader.specs.Holding.{AreHeld};
ghost use Rattle.kernel_calls.specs.ModuleRows.{meant_module as meant_module_lem, unload_row};

use board_mem::Ram;
use call_rows::{DONE, Reply};
use mem_partition::Part;
use module_loader::Modules;
use symbol_table::Symbols;
use wind_base::Errno;

// The id of the module that a word means: the word is its id, or the address of its name.
fn meant_module(mods: &Modules, ram: &Ram, x: u32) -> Option<u32>
    ensures { result ≡ meant_module_lem mods.now.rows ram.now.bytes x }
{
    if mods.get(x).is_some() {
        return Some(x);
    }
    let name = ram.string(x)?;
    let id = mods.newest_named(name.bytes())?;
    Some(id.get())
}

// unld: removes a module's symbols and record, and frees its blocks.
#[tactic(auto, using(crate::proofs::Unloading::meant_lives))]
pub(crate) fn unload(
    mods: &mut Modules,
    part: &mut Part,
    syms: &mut Symbols,
    ram: &Ram,
    x: u32,
) -> Reply
    requires { AreHeld mods.old.rows part.old }
    ensures symbols { syms.new.list ≡ (unload_row syms.old.list mods.old.rows part.old ram.now.bytes x).symbols }
    ensures modules { mods.new
        ≡ record mods.old { rows = (unload_row syms.old.list mods.old.rows part.old ram.now.bytes x).modules } }
    ensures part { part.new ≡ (unload_row syms.old.list mods.old.rows part.old ram.now.bytes x).part }
    ensures reply { result ≡ (unload_row syms.old.list mods.old.rows part.old ram.now.bytes x).reply }
{
    let Some(id) = meant_module(mods, ram, x) else {
        return Reply::Refusal(Errno::NoSuchModule);
    };
    match mods.unload(part, syms, id) {
        Ok(()) => DONE,
        Err(_) => Reply::Refusal(Errno::NoSuchModule),
    }
}
