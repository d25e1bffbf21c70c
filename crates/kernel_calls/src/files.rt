//! The load that a call wants, and the file that it needs.

ghost use Rattle.std.specs.Prelude.{◌≡◌, IfOk, OnErr, IsSome};
ghost use Rattle.board_mem.specs.Memory.{string_at};
ghost use Rattle.kernel_calls.specs.Calls.{file_name as file_name_lem, load_by as load_by_lem, load_wanted as load_wanted_lem, file_wanted as file_wanted_lem};
ghost use Rattle.call_rows.specs.KernelWorldSeen.{world_seen};

use board_mem::Ram;
use call_rows::{Actor, Call, World, is_shell, read_call};
use std::alloc::Global;
use wind_base::limits::NAME_BYTES;
use wind_base::{Gate, Name, NoMemory};
use wind_outside::Device;

/// A load that a call wants.
#[derive(Clone, Copy)]
pub struct Load {
    /// The address of its file's name.
    pub name: u32,
    /// Its mode: which symbols it adds to the table.
    pub mode: u32,
}

// The string at an address, if it has 1 to 255 bytes.
fn file_name(alloc: Global, ram: &Ram, at: u32) -> Result<Option<Name>, NoMemory>
    ensures name { IfOk result (λ name. name ≡ file_name_lem (string_at ram.now.bytes at)) }
    ensures memory { OnErr result (IsSome (file_name_lem (string_at ram.now.bytes at))) }
{
    let Some(string) = ram.string(at) else {
        return Ok(None);
    };
    let bytes = string.bytes();
    if bytes.is_empty() || bytes.len() > NAME_BYTES {
        return Ok(None);
    }
    match Name::new(alloc, bytes) {
        Ok(name) => Ok(Some(name)),
        Err(_) => Err(NoMemory),
    }
}

// The load that a call wants, if the shell's task calls `ld`.
fn load_by(call: &Call, who: &Actor) -> Option<Load>
    ensures { result ≡ load_by_lem call.now who.now }
{
    match call {
        Call::Ld { symbols, name, .. } if is_shell(who) => Some(Load {
            name: *name,
            mode: *symbols,
        }),
        _ => None,
    }
}

/// The load that the call of a gate wants, if the shell's task calls `ld`.
pub fn load_wanted(w: &World, gate: Gate, who: &Actor) -> Option<Load>
    ensures { result ≡ load_wanted_lem gate (world_seen ⟦<dyn Device as Device>⟧ w.now) who.now }
{
    let call = read_call(w, gate, who)?;
    load_by(&call, who)
}

/// The name of the file that the call of a gate needs: the string at the address in r5, of 1 to 255
/// bytes, if the shell's task calls `ld`. `None` if the call needs no file. Host memory may run out
/// only if it needs one.
pub fn file_wanted(
    alloc: Global,
    w: &World,
    gate: Gate,
    who: &Actor,
) -> Result<Option<Name>, NoMemory>
    ensures wanted { IfOk result (λ o. o
        ≡ file_wanted_lem gate (world_seen ⟦<dyn Device as Device>⟧ w.now) who.now) }
    ensures memory { OnErr result
        (IsSome (file_wanted_lem gate (world_seen ⟦<dyn Device as Device>⟧ w.now) who.now)) }
{
    match load_wanted(w, gate, who) {
        Some(load) => file_name(alloc, &w.bus.ram, load.name),
        None => Ok(None),
    }
}
