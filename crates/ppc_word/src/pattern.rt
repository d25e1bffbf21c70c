//! The forms, as the code stores them.

use crate::piece::Piece;
use crate::row::{ROWS, Row};
use crate::rule::Rule;

/// The pattern of an instruction's words.
#[derive(Clone, Copy, Debug, Drop)]
pub(crate) struct Pattern {
    /// The instruction.
    pub row: Row,
    /// What the words must meet besides the pieces.
    pub rule: Rule,
    /// A mask of the fixed bits.
    pub mask: u32,
    /// The values of the fixed bits.
    pub held: u32,
    /// The number of pieces.
    pub count: u8,
    /// The pieces, from the most significant bit on, then empty ones.
    pub p0: Piece,
    pub p1: Piece,
    pub p2: Piece,
    pub p3: Piece,
    pub p4: Piece,
    pub p5: Piece,
    pub p6: Piece,
    pub p7: Piece,
}

// A pattern from its pieces: `6 = 31` is 6 bits with the value 31, `5` is a field of 5 bits. The
// mask and the values are computed from the pieces.
macro_rules! pattern {
    ($row:ident, $rule:ident; $($piece:tt)*) => {
        pattern!(@ $row $rule (0) (0) (0) [] $($piece)*,)
    };
    (@ $row:ident $rule:ident ($mask:expr) ($held:expr) ($count:expr) [$($piece:expr,)*] $w:literal = $n:literal, $($rest:tt)*) => {
        pattern!(@ $row $rule ($mask << $w | ((1 << $w) - 1)) ($held << $w | $n) ($count + 1) [$($piece,)* Piece::Fixed($w, $n),] $($rest)*)
    };
    (@ $row:ident $rule:ident ($mask:expr) ($held:expr) ($count:expr) [$($piece:expr,)*] $w:literal, $($rest:tt)*) => {
        pattern!(@ $row $rule ($mask << $w) ($held << $w) ($count + 1) [$($piece,)* Piece::Field($w),] $($rest)*)
    };
    (@ $row:ident $rule:ident ($mask:expr) ($held:expr) ($count:expr) [$($piece:expr,)*]) => {
        pattern!(# $row $rule ($mask) ($held) ($count) [$($piece,)* Piece::Fixed(0, 0), Piece::Fixed(0, 0), Piece::Fixed(0, 0), Piece::Fixed(0, 0), Piece::Fixed(0, 0), Piece::Fixed(0, 0),])
    };
    (# $row:ident $rule:ident ($mask:expr) ($held:expr) ($count:expr) [$a:expr, $b:expr, $c:expr, $d:expr, $e:expr, $f:expr, $g:expr, $h:expr, $($none:expr,)*]) => {
        Pattern {
            row: Row::$row,
            rule: Rule::$rule,
            mask: $mask,
            held: $held,
            count: $count,
            p0: $a,
            p1: $b,
            p2: $c,
            p3: $d,
            p4: $e,
            p5: $f,
            p6: $g,
            p7: $h,
        }
    };
}

// The patterns, in the order of `Row`.
pub(crate) static PATTERNS: [Pattern; ROWS] = [
    pattern!(Twi, Any; 6 = 3, 5, 5, 16),
    pattern!(Mulli, Any; 6 = 7, 5, 5, 16),
    pattern!(Subfic, Any; 6 = 8, 5, 5, 16),
    pattern!(Cmpli, Any; 6 = 10, 3, 2 = 0, 5, 16),
    pattern!(Cmpi, Any; 6 = 11, 3, 2 = 0, 5, 16),
    pattern!(Addic, Any; 6 = 12, 5, 5, 16),
    pattern!(AddicDot, Any; 6 = 13, 5, 5, 16),
    pattern!(Addi, Any; 6 = 14, 5, 5, 16),
    pattern!(Addis, Any; 6 = 15, 5, 5, 16),
    pattern!(Bc, Any; 6 = 16, 5, 5, 14, 1, 1),
    pattern!(Sc, Any; 6 = 17, 26 = 2),
    pattern!(B, Any; 6 = 18, 24, 1, 1),
    pattern!(Rlwimi, Any; 6 = 20, 5, 5, 5, 5, 5, 1),
    pattern!(Rlwinm, Any; 6 = 21, 5, 5, 5, 5, 5, 1),
    pattern!(Rlwnm, Any; 6 = 23, 5, 5, 5, 5, 5, 1),
    pattern!(Ori, Any; 6 = 24, 5, 5, 16),
    pattern!(Oris, Any; 6 = 25, 5, 5, 16),
    pattern!(Xori, Any; 6 = 26, 5, 5, 16),
    pattern!(Xoris, Any; 6 = 27, 5, 5, 16),
    pattern!(Andi, Any; 6 = 28, 5, 5, 16),
    pattern!(Andis, Any; 6 = 29, 5, 5, 16),
    pattern!(Lwz, Any; 6 = 32, 5, 5, 16),
    pattern!(Lwzu, LoadUpdate; 6 = 33, 5, 5, 16),
    pattern!(Lbz, Any; 6 = 34, 5, 5, 16),
    pattern!(Lbzu, LoadUpdate; 6 = 35, 5, 5, 16),
    pattern!(Stw, Any; 6 = 36, 5, 5, 16),
    pattern!(Stwu, StoreUpdate; 6 = 37, 5, 5, 16),
    pattern!(Stb, Any; 6 = 38, 5, 5, 16),
    pattern!(Stbu, StoreUpdate; 6 = 39, 5, 5, 16),
    pattern!(Lhz, Any; 6 = 40, 5, 5, 16),
    pattern!(Lhzu, LoadUpdate; 6 = 41, 5, 5, 16),
    pattern!(Lha, Any; 6 = 42, 5, 5, 16),
    pattern!(Lhau, LoadUpdate; 6 = 43, 5, 5, 16),
    pattern!(Sth, Any; 6 = 44, 5, 5, 16),
    pattern!(Sthu, StoreUpdate; 6 = 45, 5, 5, 16),
    pattern!(Lmw, LoadMultiple; 6 = 46, 5, 5, 16),
    pattern!(Stmw, Any; 6 = 47, 5, 5, 16),
    pattern!(Mcrf, Any; 6 = 19, 3, 2 = 0, 3, 2 = 0, 5 = 0, 10 = 0, 1 = 0),
    pattern!(Bclr, Any; 6 = 19, 5, 5, 5 = 0, 10 = 16, 1),
    pattern!(Bcctr, NoCount; 6 = 19, 5, 5, 5 = 0, 10 = 528, 1),
    pattern!(Crnor, Any; 6 = 19, 5, 5, 5, 10 = 33, 1 = 0),
    pattern!(Crandc, Any; 6 = 19, 5, 5, 5, 10 = 129, 1 = 0),
    pattern!(Crxor, Any; 6 = 19, 5, 5, 5, 10 = 193, 1 = 0),
    pattern!(Crnand, Any; 6 = 19, 5, 5, 5, 10 = 225, 1 = 0),
    pattern!(Crand, Any; 6 = 19, 5, 5, 5, 10 = 257, 1 = 0),
    pattern!(Creqv, Any; 6 = 19, 5, 5, 5, 10 = 289, 1 = 0),
    pattern!(Crorc, Any; 6 = 19, 5, 5, 5, 10 = 417, 1 = 0),
    pattern!(Cror, Any; 6 = 19, 5, 5, 5, 10 = 449, 1 = 0),
    pattern!(Isync, Any; 6 = 19, 15 = 0, 10 = 150, 1 = 0),
    pattern!(Cmp, Any; 6 = 31, 3, 2 = 0, 5, 5, 10 = 0, 1 = 0),
    pattern!(Cmpl, Any; 6 = 31, 3, 2 = 0, 5, 5, 10 = 32, 1 = 0),
    pattern!(Tw, Any; 6 = 31, 5, 5, 5, 10 = 4, 1 = 0),
    pattern!(Subfc, Any; 6 = 31, 5, 5, 5, 1, 9 = 8, 1),
    pattern!(Subf, Any; 6 = 31, 5, 5, 5, 1, 9 = 40, 1),
    pattern!(Addc, Any; 6 = 31, 5, 5, 5, 1, 9 = 10, 1),
    pattern!(Add, Any; 6 = 31, 5, 5, 5, 1, 9 = 266, 1),
    pattern!(Subfe, Any; 6 = 31, 5, 5, 5, 1, 9 = 136, 1),
    pattern!(Adde, Any; 6 = 31, 5, 5, 5, 1, 9 = 138, 1),
    pattern!(Subfze, Any; 6 = 31, 5, 5, 5 = 0, 1, 9 = 200, 1),
    pattern!(Addze, Any; 6 = 31, 5, 5, 5 = 0, 1, 9 = 202, 1),
    pattern!(Subfme, Any; 6 = 31, 5, 5, 5 = 0, 1, 9 = 232, 1),
    pattern!(Addme, Any; 6 = 31, 5, 5, 5 = 0, 1, 9 = 234, 1),
    pattern!(Neg, Any; 6 = 31, 5, 5, 5 = 0, 1, 9 = 104, 1),
    pattern!(Mulhwu, Any; 6 = 31, 5, 5, 5, 1 = 0, 9 = 11, 1),
    pattern!(Mulhw, Any; 6 = 31, 5, 5, 5, 1 = 0, 9 = 75, 1),
    pattern!(Mullw, Any; 6 = 31, 5, 5, 5, 1, 9 = 235, 1),
    pattern!(Divwu, Any; 6 = 31, 5, 5, 5, 1, 9 = 459, 1),
    pattern!(Divw, Any; 6 = 31, 5, 5, 5, 1, 9 = 491, 1),
    pattern!(And, Any; 6 = 31, 5, 5, 5, 10 = 28, 1),
    pattern!(Andc, Any; 6 = 31, 5, 5, 5, 10 = 60, 1),
    pattern!(Or, Any; 6 = 31, 5, 5, 5, 10 = 444, 1),
    pattern!(Orc, Any; 6 = 31, 5, 5, 5, 10 = 412, 1),
    pattern!(Xor, Any; 6 = 31, 5, 5, 5, 10 = 316, 1),
    pattern!(Eqv, Any; 6 = 31, 5, 5, 5, 10 = 284, 1),
    pattern!(Nor, Any; 6 = 31, 5, 5, 5, 10 = 124, 1),
    pattern!(Nand, Any; 6 = 31, 5, 5, 5, 10 = 476, 1),
    pattern!(Slw, Any; 6 = 31, 5, 5, 5, 10 = 24, 1),
    pattern!(Srw, Any; 6 = 31, 5, 5, 5, 10 = 536, 1),
    pattern!(Sraw, Any; 6 = 31, 5, 5, 5, 10 = 792, 1),
    pattern!(Srawi, Any; 6 = 31, 5, 5, 5, 10 = 824, 1),
    pattern!(Cntlzw, Any; 6 = 31, 5, 5, 5 = 0, 10 = 26, 1),
    pattern!(Extsb, Any; 6 = 31, 5, 5, 5 = 0, 10 = 954, 1),
    pattern!(Extsh, Any; 6 = 31, 5, 5, 5 = 0, 10 = 922, 1),
    pattern!(Mfcr, Any; 6 = 31, 5, 10 = 0, 10 = 19, 1 = 0),
    pattern!(Mtcrf, Any; 6 = 31, 5, 1 = 0, 8, 1 = 0, 10 = 144, 1 = 0),
    pattern!(Mcrxr, Any; 6 = 31, 3, 2 = 0, 10 = 0, 10 = 512, 1 = 0),
    pattern!(Mfspr, SpecialRegister; 6 = 31, 5, 10, 10 = 339, 1 = 0),
    pattern!(Mtspr, SpecialRegister; 6 = 31, 5, 10, 10 = 467, 1 = 0),
    pattern!(Lwzx, Any; 6 = 31, 5, 5, 5, 10 = 23, 1 = 0),
    pattern!(Lbzx, Any; 6 = 31, 5, 5, 5, 10 = 87, 1 = 0),
    pattern!(Lhzx, Any; 6 = 31, 5, 5, 5, 10 = 279, 1 = 0),
    pattern!(Lhax, Any; 6 = 31, 5, 5, 5, 10 = 343, 1 = 0),
    pattern!(Lwzux, LoadUpdate; 6 = 31, 5, 5, 5, 10 = 55, 1 = 0),
    pattern!(Lbzux, LoadUpdate; 6 = 31, 5, 5, 5, 10 = 119, 1 = 0),
    pattern!(Lhzux, LoadUpdate; 6 = 31, 5, 5, 5, 10 = 311, 1 = 0),
    pattern!(Lhaux, LoadUpdate; 6 = 31, 5, 5, 5, 10 = 375, 1 = 0),
    pattern!(Stwx, Any; 6 = 31, 5, 5, 5, 10 = 151, 1 = 0),
    pattern!(Stbx, Any; 6 = 31, 5, 5, 5, 10 = 215, 1 = 0),
    pattern!(Sthx, Any; 6 = 31, 5, 5, 5, 10 = 407, 1 = 0),
    pattern!(Stwux, StoreUpdate; 6 = 31, 5, 5, 5, 10 = 183, 1 = 0),
    pattern!(Stbux, StoreUpdate; 6 = 31, 5, 5, 5, 10 = 247, 1 = 0),
    pattern!(Sthux, StoreUpdate; 6 = 31, 5, 5, 5, 10 = 439, 1 = 0),
    pattern!(Lwbrx, Any; 6 = 31, 5, 5, 5, 10 = 534, 1 = 0),
    pattern!(Lhbrx, Any; 6 = 31, 5, 5, 5, 10 = 790, 1 = 0),
    pattern!(Stwbrx, Any; 6 = 31, 5, 5, 5, 10 = 662, 1 = 0),
    pattern!(Sthbrx, Any; 6 = 31, 5, 5, 5, 10 = 918, 1 = 0),
    pattern!(Lwarx, Any; 6 = 31, 5, 5, 5, 10 = 20, 1 = 0),
    pattern!(Stwcx, Any; 6 = 31, 5, 5, 5, 10 = 150, 1 = 1),
    pattern!(Sync, Any; 6 = 31, 15 = 0, 10 = 598, 1 = 0),
    pattern!(Eieio, Any; 6 = 31, 15 = 0, 10 = 854, 1 = 0),
];
