//! The names of the instructions.

/// An instruction of the table, by its name in the Power ISA. A dot in the name becomes `Dot`, as
/// in `AddicDot`, if there is an instruction without the dot. `Andi`, `Andis` and `Stwcx` are
/// `andi.`, `andis.` and `stwcx.`. The fields say whether `Rc`, `OE` or `LK` is set.
#[derive(Clone, Copy, PartialEq, Eq, Debug, Drop)]
pub enum Row {
    /// `twi`: trap word immediate.
    Twi,
    /// `mulli`: multiply low immediate.
    Mulli,
    /// `subfic`: subtract from immediate carrying.
    Subfic,
    /// `cmpli`: compare logical immediate.
    Cmpli,
    /// `cmpi`: compare immediate.
    Cmpi,
    /// `addic`: add immediate carrying.
    Addic,
    /// `addic.`: add immediate carrying and record.
    AddicDot,
    /// `addi`: add immediate.
    Addi,
    /// `addis`: add immediate shifted.
    Addis,
    /// `bc`: branch conditional.
    Bc,
    /// `sc`: system call.
    Sc,
    /// `b`: branch.
    B,
    /// `rlwimi`: rotate left word immediate, then mask insert.
    Rlwimi,
    /// `rlwinm`: rotate left word immediate, then AND with mask.
    Rlwinm,
    /// `rlwnm`: rotate left word, then AND with mask.
    Rlwnm,
    /// `ori`: OR immediate.
    Ori,
    /// `oris`: OR immediate shifted.
    Oris,
    /// `xori`: XOR immediate.
    Xori,
    /// `xoris`: XOR immediate shifted.
    Xoris,
    /// `andi.`: AND immediate.
    Andi,
    /// `andis.`: AND immediate shifted.
    Andis,
    /// `lwz`: load word and zero.
    Lwz,
    /// `lwzu`: load word and zero with update.
    Lwzu,
    /// `lbz`: load byte and zero.
    Lbz,
    /// `lbzu`: load byte and zero with update.
    Lbzu,
    /// `stw`: store word.
    Stw,
    /// `stwu`: store word with update.
    Stwu,
    /// `stb`: store byte.
    Stb,
    /// `stbu`: store byte with update.
    Stbu,
    /// `lhz`: load halfword and zero.
    Lhz,
    /// `lhzu`: load halfword and zero with update.
    Lhzu,
    /// `lha`: load halfword algebraic.
    Lha,
    /// `lhau`: load halfword algebraic with update.
    Lhau,
    /// `sth`: store halfword.
    Sth,
    /// `sthu`: store halfword with update.
    Sthu,
    /// `lmw`: load multiple word.
    Lmw,
    /// `stmw`: store multiple word.
    Stmw,
    /// `mcrf`: move condition register field.
    Mcrf,
    /// `bclr`: branch conditional to link register.
    Bclr,
    /// `bcctr`: branch conditional to count register.
    Bcctr,
    /// `crnor`: condition register NOR.
    Crnor,
    /// `crandc`: condition register AND with complement.
    Crandc,
    /// `crxor`: condition register XOR.
    Crxor,
    /// `crnand`: condition register NAND.
    Crnand,
    /// `crand`: condition register AND.
    Crand,
    /// `creqv`: condition register equivalent.
    Creqv,
    /// `crorc`: condition register OR with complement.
    Crorc,
    /// `cror`: condition register OR.
    Cror,
    /// `isync`: instruction synchronize.
    Isync,
    /// `cmp`: compare.
    Cmp,
    /// `cmpl`: compare logical.
    Cmpl,
    /// `tw`: trap word.
    Tw,
    /// `subfc`: subtract from carrying.
    Subfc,
    /// `subf`: subtract from.
    Subf,
    /// `addc`: add carrying.
    Addc,
    /// `add`: add.
    Add,
    /// `subfe`: subtract from extended.
    Subfe,
    /// `adde`: add extended.
    Adde,
    /// `subfze`: subtract from zero extended.
    Subfze,
    /// `addze`: add to zero extended.
    Addze,
    /// `subfme`: subtract from minus one extended.
    Subfme,
    /// `addme`: add to minus one extended.
    Addme,
    /// `neg`: negate.
    Neg,
    /// `mulhwu`: multiply high word unsigned.
    Mulhwu,
    /// `mulhw`: multiply high word.
    Mulhw,
    /// `mullw`: multiply low word.
    Mullw,
    /// `divwu`: divide word unsigned.
    Divwu,
    /// `divw`: divide word.
    Divw,
    /// `and`: AND.
    And,
    /// `andc`: AND with complement.
    Andc,
    /// `or`: OR.
    Or,
    /// `orc`: OR with complement.
    Orc,
    /// `xor`: XOR.
    Xor,
    /// `eqv`: equivalent.
    Eqv,
    /// `nor`: NOR.
    Nor,
    /// `nand`: NAND.
    Nand,
    /// `slw`: shift left word.
    Slw,
    /// `srw`: shift right word.
    Srw,
    /// `sraw`: shift right algebraic word.
    Sraw,
    /// `srawi`: shift right algebraic word immediate.
    Srawi,
    /// `cntlzw`: count leading zeros word.
    Cntlzw,
    /// `extsb`: extend sign byte.
    Extsb,
    /// `extsh`: extend sign halfword.
    Extsh,
    /// `mfcr`: move from condition register.
    Mfcr,
    /// `mtcrf`: move to condition register fields.
    Mtcrf,
    /// `mcrxr`: move to condition register from XER.
    Mcrxr,
    /// `mfspr`: move from special purpose register.
    Mfspr,
    /// `mtspr`: move to special purpose register.
    Mtspr,
    /// `lwzx`: load word and zero indexed.
    Lwzx,
    /// `lbzx`: load byte and zero indexed.
    Lbzx,
    /// `lhzx`: load halfword and zero indexed.
    Lhzx,
    /// `lhax`: load halfword algebraic indexed.
    Lhax,
    /// `lwzux`: load word and zero with update indexed.
    Lwzux,
    /// `lbzux`: load byte and zero with update indexed.
    Lbzux,
    /// `lhzux`: load halfword and zero with update indexed.
    Lhzux,
    /// `lhaux`: load halfword algebraic with update indexed.
    Lhaux,
    /// `stwx`: store word indexed.
    Stwx,
    /// `stbx`: store byte indexed.
    Stbx,
    /// `sthx`: store halfword indexed.
    Sthx,
    /// `stwux`: store word with update indexed.
    Stwux,
    /// `stbux`: store byte with update indexed.
    Stbux,
    /// `sthux`: store halfword with update indexed.
    Sthux,
    /// `lwbrx`: load word byte-reverse indexed.
    Lwbrx,
    /// `lhbrx`: load halfword byte-reverse indexed.
    Lhbrx,
    /// `stwbrx`: store word byte-reverse indexed.
    Stwbrx,
    /// `sthbrx`: store halfword byte-reverse indexed.
    Sthbrx,
    /// `lwarx`: load word and reserve indexed.
    Lwarx,
    /// `stwcx.`: store word conditional indexed.
    Stwcx,
    /// `sync`: synchronize.
    Sync,
    /// `eieio`: enforce in-order execution of I/O.
    Eieio,
}

/// The number of instructions.
pub(crate) const ROWS: usize = 110;
