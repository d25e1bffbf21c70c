//! The reply with the registers of a thread.

ghost use Rattle.std.specs.Prelude.{◌≡◌, ◌++◌, OnOk};
ghost use Rattle.board_reading.specs.BoardPlayerSeen.{seen};
ghost use Rattle.debug_view.specs.Registers.{registers_reply, time_told as time_told_lem, values_of};

use crate::ended::Ended;
use crate::threads::regs_told;
use board_reading::Board;
use debug_texts::{add_refused, add_registers};
use wind_base::{NoMemory, Regs};
use wind_outside::Device;

// Board time as it is told: at most 2^64 - 1.
fn time_told(time: u128) -> u64
    ensures { result ≡ time_told_lem time }
{
    time.min(u64::MAX as u128) as u64
}

// Adds registers, with the numbers of the run.
fn add_values(text: &mut Vec<u8>, board: &Board, regs: &Regs) -> Result<(), NoMemory>
    ensures { OnOk result (text.new.items
        ≡ text.old.items ++ values_of (seen ⟦<dyn Device as Device>⟧ board.now) regs.now) }
{
    add_registers(
        text,
        regs,
        board.steps(),
        time_told(board.time()),
        board.ticks(),
    )
}

/// Adds the reply with the registers that are told of a thread, or with an error if it isn't told.
pub fn add_registers_of(
    text: &mut Vec<u8>,
    board: &Board,
    ended: &Option<Ended>,
    thread: u64,
) -> Result<(), NoMemory>
    ensures { OnOk result (text.new.items
        ≡ text.old.items ++ registers_reply (seen ⟦<dyn Device as Device>⟧ board.now) ended.now thread) }
{
    match regs_told(board.world(), ended, thread) {
        Some(regs) => add_values(text, board, &regs),
        None => add_refused(text),
    }
}
