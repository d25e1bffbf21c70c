//! The kinds of boards, and what differs between them.

ghost use Rattle.std.specs.Prelude.{◌≡◌};
ghost use Rattle.wind_base.specs.Boards.{board_rules};

/// The end of a pool from which a place is searched.
#[derive(Clone, Copy, Debug, PartialEq, Eq)]
pub enum Side {
    /// From the start: the least address that fits.
    Low,
    /// From the end: the greatest address that fits.
    High,
}

/// The kind of a board.
#[derive(Clone, Copy, Debug, PartialEq, Eq)]
pub enum BoardKind {
    /// 16 MiB of RAM, 16,384 blocks.
    One,
    /// 64 MiB of RAM, 65,536 blocks. Modules are at the end of RAM, near the gates.
    Two,
}

/// What differs between kinds of boards. The table is this project's own.
#[derive(Clone, Copy, Debug, PartialEq, Eq)]
pub struct BoardRules {
    /// The size of RAM in bytes. RAM begins at address 0.
    pub ram_bytes: u32,
    /// The address of the first gate.
    pub gates_start: u32,
    /// The first address after the memory partition's pool.
    pub pool_end: u32,
    /// The greatest number of blocks in the partition.
    pub blocks: u32,
    /// Where a module's segments are placed. All other blocks are placed low.
    pub segments: Side,
}

impl BoardKind {
    /// The table's entry for this kind.
    #[inline(always)]
    pub fn rules(self) -> BoardRules
        ensures { result ≡ board_rules self }
    {
        match self {
            BoardKind::One => BoardRules {
                ram_bytes: 0x0100_0000,
                gates_start: 0x0100_0000,
                pool_end: 0x0100_0000,
                blocks: 16_384,
                segments: Side::Low,
            },
            BoardKind::Two => BoardRules {
                ram_bytes: 0x0400_0000,
                gates_start: 0x0400_0000,
                pool_end: 0x0400_0000,
                blocks: 65_536,
                segments: Side::High,
            },
        }
    }
}
