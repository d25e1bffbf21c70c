//! Operations: what a decoded word asks of a processor.

/// An operation: the words of one row, or those of its words of which more is known. A row without
/// an operation of its own is executed as `Other`.
#[derive(Clone, Copy, PartialEq, Eq, Debug, Drop)]
pub enum Op {
    /// Nothing: the place of a word that isn't decoded yet.
    Empty,
    /// Any row.
    Other,
    /// `b` without AA and LK.
    Branch,
    /// `bl` without AA.
    BranchLink,
    /// `ba`: `b` with AA, without LK.
    BranchAbsolute,
    /// `bla`: `bl` with AA.
    BranchLinkAbsolute,
    /// `bc` that is taken if its CR bit is set, without AA and LK.
    BranchTrue,
    /// `bc` that is taken if its CR bit is clear, without AA and LK.
    BranchFalse,
    /// `bdnz`: `bc` that decrements CTR and is taken if CTR isn't 0, without AA and LK.
    BranchDecrement,
    /// `blr`: `bclr` that is always taken, without LK.
    BranchToLink,
    /// `bctr`: `bcctr` that is always taken, without LK.
    BranchToCount,
    /// `li`: `addi` with RA 0.
    LoadImmediate,
    /// `lis`: `addis` with RA 0.
    LoadImmediateShifted,
    /// `addi` with RA not 0.
    AddImmediate,
    /// `addis` with RA not 0.
    AddImmediateShifted,
    /// `addic.`.
    AddicDot,
    /// `mulli`.
    Mulli,
    /// `add` without OE and Rc.
    Add,
    /// `subf` without OE and Rc.
    Subf,
    /// `neg`.
    Neg,
    /// `mullw`.
    Mullw,
    /// `cmpi`.
    Cmpi,
    /// `cmp`.
    Cmp,
    /// `cmpli`.
    Cmpli,
    /// `cmpl`.
    Cmpl,
    /// `andi.`.
    Andi,
    /// `ori`.
    Ori,
    /// `oris`.
    Oris,
    /// `xori`.
    Xori,
    /// `xoris`.
    Xoris,
    /// `and` without Rc.
    And,
    /// `or` without Rc.
    Or,
    /// `or.`.
    OrDot,
    /// `xor` without Rc.
    Xor,
    /// `nor` without Rc.
    Nor,
    /// `rlwinm` without Rc.
    Rlwinm,
    /// `rlwinm.`.
    RlwinmDot,
    /// `slw`.
    Slw,
    /// `srw`.
    Srw,
    /// `srawi`.
    Srawi,
    /// `mtspr`.
    Mtspr,
    /// `mfspr`.
    Mfspr,
    /// `lwz` with RA not 0.
    LoadWord,
    /// `stw` with RA not 0.
    StoreWord,
    /// `lbz`.
    Lbz,
    /// `lbzx`.
    Lbzx,
    /// `lbzu`.
    Lbzu,
    /// `lhz`.
    Lhz,
    /// `lhzx`.
    Lhzx,
    /// `lha`.
    Lha,
    /// `lwzx`.
    Lwzx,
    /// `lwzu`.
    Lwzu,
    /// `stb`.
    Stb,
    /// `stbx`.
    Stbx,
    /// `stbu`.
    Stbu,
    /// `sth`.
    Sth,
    /// `sthx`.
    Sthx,
    /// `stwx`.
    Stwx,
    /// `stwu`.
    Stwu,
}
