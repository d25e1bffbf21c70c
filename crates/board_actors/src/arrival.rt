//! Bytes of the console arrive.

ghost use Rattle.std.specs.Prelude.{◌≡◌, ◌≤◌, ◌<◌, ◌+◌, ◌*◌, ◌^◌, ◌++◌, length};
ghost use Rattle.wind_base.specs.OutBuf.{KeepsSpace};
ghost use Rattle.wind_core.specs.State.{Lives};
ghost use Rattle.wind_machine.specs.Feed.{supplied};
ghost use Rattle.wind_machine.specs.Task.{waits_for_console as waits_for_console_lem};
ghost use Rattle.con_line.specs.declared.console.ByteDone.TheVariants as done;
ghost use Rattle.wind_machine.specs.Events.{heard_from, hear as hear_lem, heard_all, shell_after, kern_after};

use crate::shell::Shell;
use crate::shell_task::{abort, waits_for_console};
use con_line::{ByteDone, Console};
use id_table::Ident;
use wind_base::OutBuf;
use wind_core::Kern;

// If the shell waits for the console, a finished line wakes it, and it reads the line next.
fn wake(shell: &mut Shell, kern: &mut Kern)
    requires live { Lives kern.old 1 }
    requires since { kern.old.next_since + 1 < 2 ^ 64 }
    ensures shell { shell.new ≡ shell_after done.Line (waits_for_console_lem kern.old) shell.old }
    ensures kern { kern.new ≡ kern_after done.Line (waits_for_console_lem kern.old) kern.old }
{
    if waits_for_console(kern) {
        shell.take_line();
        kern.release(Ident::shell());
    }
}

// What a byte of the console does to the shell and its task.
fn hear_byte(done: ByteDone, shell: &mut Shell, kern: &mut Kern)
    requires live { Lives kern.old 1 }
    requires since { kern.old.next_since + 2 < 2 ^ 64 }
    ensures shell { shell.new ≡ shell_after done (waits_for_console_lem kern.old) shell.old }
    ensures kern { kern.new ≡ kern_after done (waits_for_console_lem kern.old) kern.old }
{
    match done {
        ByteDone::Abort => {
            shell.abort();
            abort(kern);
        }
        ByteDone::Line => wake(shell, kern),
        ByteDone::Kept => {}
    }
}

// Hears one byte, and adds what it echoes.
#[tactic(auto, using(wind_machine::proofs::TaskLemmas::after_lives, wind_machine::proofs::TaskLemmas::after_since))]
fn hear_one(byte: u8, console: &mut Console, shell: &mut Shell, kern: &mut Kern, out: &mut OutBuf)
    requires room { 3 ≤ out.old.room }
    requires live { Lives kern.old 1 }
    requires since { kern.old.next_since + 2 < 2 ^ 64 }
    ensures heard { heard_from console.new shell.new kern.new out.new.bytes
        ≡ hear_lem (heard_from console.old shell.old kern.old out.old.bytes) byte }
    ensures room { out.old.room ≤ out.new.room + 3 }
    ensures space { KeepsSpace out.old out.new }
    ensures live { Lives kern.new 1 }
    ensures since { kern.new.next_since ≤ kern.old.next_since + 2 }
{
    hear_byte(console.byte(byte, out), shell, kern);
}

// Hears bytes one after the other, and adds what they echo.
#[tactic(auto, unfolding(wind_machine::specs::Events::heard_all))]
fn hear(bytes: &[u8], console: &mut Console, shell: &mut Shell, kern: &mut Kern, out: &mut OutBuf)
    requires room { 3 * length bytes.now ≤ out.old.room }
    requires live { Lives kern.old 1 }
    requires since { kern.old.next_since + 2 * length bytes.now < 2 ^ 64 }
    ensures heard { heard_from console.new shell.new kern.new out.new.bytes
        ≡ heard_all (heard_from console.old shell.old kern.old out.old.bytes) bytes.now }
    ensures room { out.old.room ≤ out.new.room + 3 * length bytes.now }
    ensures space { KeepsSpace out.old out.new }
    ensures live { Lives kern.new 1 }
    ensures since { kern.new.next_since ≤ kern.old.next_since + 2 * length bytes.now }
{
    for byte in bytes {
        hear_one(*byte, console, shell, kern, out);
    }
}

/// Hears the bytes of a chunk, and then a newline if one is supplied.
#[tactic(auto, unfolding(wind_machine::specs::Events::heard_all))]
pub fn hear_chunk(
    bytes: &[u8],
    is_unended: bool,
    console: &mut Console,
    shell: &mut Shell,
    kern: &mut Kern,
    out: &mut OutBuf,
)
    requires room { 3 * (length bytes.now + 1) ≤ out.old.room }
    requires live { Lives kern.old 1 }
    requires since { kern.old.next_since + 2 * (length bytes.now + 1) < 2 ^ 64 }
    ensures heard { heard_from console.new shell.new kern.new out.new.bytes
        ≡ heard_all (heard_from console.old shell.old kern.old out.old.bytes) (bytes.now ++ supplied is_unended) }
    ensures space { KeepsSpace out.old out.new }
{
    hear(bytes, console, shell, kern, out);
    if is_unended {
        hear(b"\n", console, shell, kern, out);
    }
}
