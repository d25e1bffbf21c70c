//! How the shell's task goes on after a load.

ghost use Rattle.std.specs.Prelude.{◌≡◌, ◌≤◌, length};
ghost use Rattle.wind_base.specs.OutBuf.{KeepsSpace};
ghost use Rattle.id_table.specs.Idents.{shell_id};
ghost use Rattle.wind_core.specs.State.{Lives};
ghost use Rattle.kernel_calls.specs.{KernelWorldReplies.{left_gate, with_answer}, KernelWorldSeen.world_seen};
ghost use Rattle.live_loading.specs.{Causes.cause_text, Loading.{shell, writing, refused}, Texts.undefined_text};

use crate::text::{Cause, add_refusal, add_undefined};
use id_table::Ident;
use kernel_calls::{Reply, World};
use module_loader::Loaded;
use wind_base::words::OK;
use wind_base::{Errno, Name};
use wind_outside::Device;

/// Nothing is loaded: the shell's task goes on after its gate, the reason is written, and the
/// answer is 0. Returns that reply.
pub(crate) fn refuse(w: &mut World, name: &Name, cause: Cause) -> Reply
    requires live { Lives w.old.kern shell_id }
    requires room { 4096 ≤ w.old.out.room }
    ensures world { world_seen ⟦<dyn Device as Device>⟧ w.new
        ≡ refused (left_gate (world_seen ⟦<dyn Device as Device>⟧ w.old) shell) name.now (cause_text cause) }
    ensures reply { result ≡ Reply.Refusal Errno.LoadFailed }
    ensures space { KeepsSpace w.old.out w.new.out }
{
    let who = Ident::shell();
    w.kern.leave_gate(who);
    add_refusal(&mut w.out, name, cause);
    w.kern.set_errno(who, Errno::LoadFailed.number());
    w.kern.answer(who, OK);
    Reply::Refusal(Errno::LoadFailed)
}

/// A module is loaded: the shell's task goes on after its gate, the undefined names are written,
/// and the answer is the module's id. Returns that reply.
pub(crate) fn accept(w: &mut World, loaded: &Loaded) -> Reply
    requires live { Lives w.old.kern shell_id }
    requires room { length (undefined_text loaded.now.undefined) ≤ w.old.out.room }
    ensures world { world_seen ⟦<dyn Device as Device>⟧ w.new
        ≡ with_answer (writing (left_gate (world_seen ⟦<dyn Device as Device>⟧ w.old) shell)
        (undefined_text loaded.now.undefined)) shell loaded.now.id }
    ensures reply { result ≡ Reply.Answer loaded.now.id }
    ensures space { KeepsSpace w.old.out w.new.out }
{
    let who = Ident::shell();
    w.kern.leave_gate(who);
    add_undefined(&mut w.out, loaded.undefined.as_slice());
    w.kern.answer(who, loaded.id.get());
    Reply::Answer(loaded.id.get())
}
