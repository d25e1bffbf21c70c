//! The call that loads a module, given the folder's answer about its file.

ghost use Rattle.std.specs.Prelude.{◌≡◌, ◌≤◌, [], Some, IfOk, OnOk, OnErr};
ghost use Rattle.wind_base.specs.declared.gate.Gate.TheVariants as gates;
ghost use Rattle.elf_read.specs.{Contents.{ModuleOf, module_at}, Modules.IsModule, Outline.outline_of};
ghost use Rattle.module_loader.specs.Loading.{verdict};
ghost use Rattle.kernel_calls.specs.{KernelWorldActors.{Acts, MayCall}, KernelWorldReplies.left_gate, KernelWorldKept.IsWorld, KernelWorldSeen.{world_seen, world_with}};
ghost use Rattle.kernel_calls.specs.{Calls.file_wanted, Space.HoldsSpace};
ghost use Rattle.live_loading.specs.{Said.{Held, said_of}, Loading.{shell, loader_state, by_verdict, mode_wanted as mode_wanted_lem, load_call}, Replies.{load_reply, verdict_reply}};

use crate::answer::FileAnswer;
use crate::outcome::{accept, refuse};
use crate::text::{Cause, undefined_room};
use elf_read::{Module, Outline, fill};
use id_table::Ident;
use kernel_calls::{Actor, Reply, World, load_wanted};
use module_loader::LoadErr;
use std::alloc::Global;
use wind_base::{Gate, Name, NoMemory};
use wind_outside::Device;

// Loads a module that was read from its file. It first reserves room for the lines that report
// undefined names. If memory runs out, nothing changes.
fn load_read(
    alloc: Global,
    w: &mut World,
    name: &Name,
    m: &Module,
    mode: u32,
) -> Result<Reply, NoMemory>
    requires module { IsModule m.now }
    requires live { Acts w.old.kern shell }
    requires kept { IsWorld (world_with [] w.old) }
    requires room { 4096 ≤ w.old.out.room }
    ensures ok { OnOk result (world_seen ⟦<dyn Device as Device>⟧ w.new
        ≡ by_verdict (left_gate (world_seen ⟦<dyn Device as Device>⟧ w.old) shell) name.now mode m.now
        (verdict (loader_state (world_seen ⟦<dyn Device as Device>⟧ w.old)) m.now mode)) }
    ensures reply { IfOk result (λ r. r ≡ verdict_reply (left_gate (world_seen ⟦<dyn Device as Device>⟧ w.old) shell)
        (verdict (loader_state (world_seen ⟦<dyn Device as Device>⟧ w.old)) m.now mode)) }
    ensures err { OnErr result (world_seen ⟦<dyn Device as Device>⟧ w.new ≡ world_seen ⟦<dyn Device as Device>⟧ w.old) }
    ensures holds { HoldsSpace w.old.out w.new.out }
{
    let Ok(kept_name) = Name::new(alloc, name.bytes()) else {
        return Err(NoMemory);
    };
    w.out.grow(undefined_room(m))?;
    match w.mods.load_module(
        &mut w.kern,
        &mut w.part,
        &mut w.syms,
        &mut w.bus.ram,
        kept_name,
        m,
        mode,
    ) {
        Ok(loaded) => Ok(accept(w, &loaded)),
        Err(LoadErr::NoMemory) => Err(NoMemory),
        Err(e) => Ok(refuse(w, name, Cause::Refused(e))),
    }
}

// Loads the module of a file whose outline was read. If memory runs out, nothing changes.
fn load_outlined(
    alloc: Global,
    w: &mut World,
    name: &Name,
    file: &[u8],
    outline: Outline,
    mode: u32,
) -> Result<Reply, NoMemory>
    requires outline { outline ≡ outline_of (module_at file.now) }
    requires module { ModuleOf file.now (module_at file.now) }
    requires live { Acts w.old.kern shell }
    requires kept { IsWorld (world_with [] w.old) }
    requires room { 4096 ≤ w.old.out.room }
    ensures ok { OnOk result (world_seen ⟦<dyn Device as Device>⟧ w.new
        ≡ by_verdict (left_gate (world_seen ⟦<dyn Device as Device>⟧ w.old) shell) name.now mode (module_at file.now)
        (verdict (loader_state (world_seen ⟦<dyn Device as Device>⟧ w.old)) (module_at file.now) mode)) }
    ensures reply { IfOk result (λ r. r ≡ verdict_reply (left_gate (world_seen ⟦<dyn Device as Device>⟧ w.old) shell)
        (verdict (loader_state (world_seen ⟦<dyn Device as Device>⟧ w.old)) (module_at file.now) mode)) }
    ensures err { OnErr result (world_seen ⟦<dyn Device as Device>⟧ w.new ≡ world_seen ⟦<dyn Device as Device>⟧ w.old) }
    ensures holds { HoldsSpace w.old.out w.new.out }
{
    let m = fill(alloc, file, outline)?;
    load_read(alloc, w, name, &m, mode)
}

// The mode of the load that the shell's task wants at the gate of ld.
fn mode_wanted(w: &World) -> u32
    ensures { result ≡ mode_wanted_lem (world_seen ⟦<dyn Device as Device>⟧ w.now) }
{
    match load_wanted(w, Gate::Ld, &Actor::Task(Ident::shell())) {
        Some(load) => load.mode,
        None => unreachable!(),
    }
}

// Loads the module of a file, in the mode of the call. It copies the bytes of sections only after
// it has found places for the segments. If memory runs out, nothing changes.
fn load_held(alloc: Global, w: &mut World, name: &Name, file: &[u8]) -> Result<Reply, NoMemory>
    requires live { Acts w.old.kern shell }
    requires kept { IsWorld (world_with [] w.old) }
    requires room { 4096 ≤ w.old.out.room }
    ensures ok { OnOk result (world_seen ⟦<dyn Device as Device>⟧ w.new
        ≡ load_call (world_seen ⟦<dyn Device as Device>⟧ w.old) name.now (Held file.now)) }
    ensures reply { IfOk result (λ r. r ≡ load_reply (world_seen ⟦<dyn Device as Device>⟧ w.old) (Held file.now)) }
    ensures err { OnErr result (world_seen ⟦<dyn Device as Device>⟧ w.new ≡ world_seen ⟦<dyn Device as Device>⟧ w.old) }
    ensures holds { HoldsSpace w.old.out w.new.out }
{
    let mode = mode_wanted(w);
    let checked = w
        .mods
        .check_file(&mut w.kern, &mut w.part, &mut w.syms, file, mode);
    match checked {
        Ok(outline) => load_outlined(alloc, w, name, file, outline, mode),
        Err(e) => match e {
            LoadErr::NoMemory => Err(NoMemory),
            _ => Ok(refuse(w, name, Cause::Refused(e))),
        },
    }
}

/// Makes the call of `ld` by the shell's task, given what is said of the file with this name. The
/// task goes on after its gate. The module is loaded whole or not at all. The undefined names, or
/// the reason of the refusal, are written, and the task is answered. Returns how. If memory runs
/// out, nothing changes.
#[tactic(auto, unfolding(crate::specs::Loading::load_call, crate::specs::Replies::load_reply))]
pub fn kernel_load(
    alloc: Global,
    w: &mut World,
    name: &Name,
    file: &FileAnswer,
) -> Result<Reply, NoMemory>
    requires caller { Acts w.old.kern shell }
    requires ready { MayCall w.old.kern shell }
    requires wanted { file_wanted gates.Ld (world_seen ⟦<dyn Device as Device>⟧ w.old) shell ≡ Some name.now }
    requires kept { IsWorld (world_with [] w.old) }
    requires room { 4096 ≤ w.old.out.room }
    ensures ok { OnOk result (world_seen ⟦<dyn Device as Device>⟧ w.new
        ≡ load_call (world_seen ⟦<dyn Device as Device>⟧ w.old) name.now (said_of file.now)) }
    ensures reply { IfOk result (λ r. r ≡ load_reply (world_seen ⟦<dyn Device as Device>⟧ w.old) (said_of file.now)) }
    ensures err { OnErr result (world_seen ⟦<dyn Device as Device>⟧ w.new ≡ world_seen ⟦<dyn Device as Device>⟧ w.old) }
    ensures kept { IsWorld (world_with [] w.new) }
    ensures holds { HoldsSpace w.old.out w.new.out }
{
    match file {
        FileAnswer::File(bytes) => load_held(alloc, w, name, bytes),
        FileAnswer::NoFile => Ok(refuse(w, name, Cause::NotFound)),
        FileAnswer::LongFile => Ok(refuse(w, name, Cause::LongFile)),
    }
}
