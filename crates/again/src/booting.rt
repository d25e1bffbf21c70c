//! A board at the start of a session.

ghost use Rattle.std.specs.Prelude.{◌≡◌, IfOk};
ghost use Rattle.wind_outside.specs.Devices.{slots_of};
ghost use Rattle.board_player.specs.{Seen.seen, WindMachineMachine.opening};
ghost use Rattle.wind_session.specs.Program.{opening_devices};

use std::alloc::Global;
use tick_file::Schedule;
use wind_base::{BoardKind, NoMemory, Profile};
use wind_outside::{Device, Slots};
use wind_session::Board;

/// Boots a board of a kind with the program's devices, a copy of this console file, these events and
/// this rule of inheritance. The console file is copied, so that a board can boot from it again.
pub fn boot(
    alloc: Global,
    slots: Slots,
    console: &[u8],
    schedule: Schedule,
    profile: Profile,
    kind: BoardKind,
) -> Result<Board, NoMemory>
    requires { slots_of kind_of words_of slots.items ≡ opening_devices }
    ensures { IfOk result (λ board. seen ⟦<dyn Device as Device>⟧ board
        ≡ opening console.now schedule opening_devices profile kind) }
{
    let console = console.to_vec(alloc)?;
    match Board::boot(alloc, slots, console, schedule, profile, kind) {
        Ok(board) => Ok(board),
        Err(_) => Err(NoMemory),
    }
}
