//! The gates of a board.

ghost use Rattle.std.specs.Prelude.{◌≡◌};
ghost use Rattle.wind_base.specs.Boards.{board_rules};
ghost use Rattle.wind_base.specs.Gates.{gate_address as gate_address_lem, gate_at as gate_at_lem};

use wind_base::{BoardKind, Gate};

/// The address of a gate on a board of this kind.
#[inline(always)]
#[tactic(auto, using(crate::proofs::Boards::gates_low))]
pub fn gate_address(board: BoardKind, gate: Gate) -> u32
    ensures { result ≡ gate_address_lem (board_rules board).gates_start gate }
{
    gate.address(board.rules().gates_start)
}

/// The gate that begins at an address on a board of this kind. None if no gate begins there.
#[inline(always)]
pub fn gate_at(board: BoardKind, address: u32) -> Option<Gate>
    ensures { result ≡ gate_at_lem (board_rules board).gates_start address }
{
    Gate::at(address, board.rules().gates_start)
}
