//! Decoded words: the operation and the operands of an instruction, beside its word.

ghost use Rattle.std.specs.Prelude.{◌≡◌, ◌≢◌, ◌<◌, ℕ, true, Some, IfSome, option_map};
ghost use Rattle.ppc_word.specs.Rows.{row_of};
ghost use Rattle.ppc_word.specs.Fields as field;
ghost use Rattle.ppc_word.specs.Ops.{row_under, fits, immediate_under, op_of};
ghost use Rattle.ppc_word.specs.declared.row.Row.TheVariants as rows;
ghost use Rattle.ppc_word.specs.declared.op.Op.TheVariants as ops;

use crate::bits::ones_between;
use crate::coding::row_for;
use crate::fields::{aa, bd, bo, li, lk, mb, me, oe, ra, rb, rc, rt};
use crate::op::Op;
use crate::row::Row;

/// The word of an instruction, with what execution needs of it. The type guarantees that the other
/// fields agree with the word, so a kept value stands for its word.
#[derive(Clone, Copy, Debug, Drop)]
pub struct Decoded {
    /// What the word asks for.
    pub op: Op,
    /// The instruction's row in the table.
    pub row: Row,
    /// RT, below 32. RS, TO, BO and BT have the same place.
    pub rt: u8,
    /// RA, below 32. BI and BA have the same place.
    pub ra: u8,
    /// RB, below 32. SH and BB have the same place.
    pub rb: u8,
    /// The displacement of a branch in bytes, the target of an absolute branch, or the mask of a
    /// rotation, if the operation has one.
    pub immediate: u32,
    /// The word.
    pub word: u32,
    pub ghost row_is: { row_of word ≡ Some row },
    pub ghost op_is: { row_of word ≡ Some (row_under op row) },
    pub ghost op_fits: { fits op word ≡ true },
    pub ghost immediate_is: { immediate_under op word immediate ≡ immediate },
    pub ghost rt_is: { field.rt word ≡ rt },
    pub ghost ra_is: { field.ra word ≡ ra },
    pub ghost rb_is: { field.rb word ≡ rb },
    pub ghost rt_below: { rt < 32 },
    pub ghost ra_below: { ra < 32 },
    pub ghost rb_below: { rb < 32 },
}

/// A decoded word with this operation.
#[inline(always)]
fn with_op(op: Op, immediate: u32, row: Row, word: u32) -> Decoded
    requires row { row_of word ≡ Some row }
    requires under { row_under op row ≡ row }
    requires fit { fits op word ≡ true }
    requires operand { immediate_under op word immediate ≡ immediate }
    ensures op { result.op ≡ op }
    ensures row { result.row ≡ row }
    ensures word { result.word ≡ word }
{
    Decoded {
        op,
        row,
        rt: rt(word) as u8,
        ra: ra(word) as u8,
        rb: rb(word) as u8,
        immediate,
        word,
    }
}

#[tactic(auto, unfolding(crate::specs::Ops::fits, crate::specs::Ops::op_of))]
fn branch(word: u32) -> Decoded
    requires { row_of word ≡ Some rows.B }
    ensures is { result.op ≡ op_of rows.B word }
    ensures op { result.op ≢ ops.Empty }
    ensures row { result.row ≡ rows.B }
    ensures word { result.word ≡ word }
{
    let op = if aa(word) {
        if lk(word) {
            Op::BranchLinkAbsolute
        } else {
            Op::BranchAbsolute
        }
    } else if lk(word) {
        Op::BranchLink
    } else {
        Op::Branch
    };
    with_op(op, li(word), Row::B, word)
}

#[tactic(auto, unfolding(crate::specs::Ops::fits, crate::specs::Ops::op_of))]
fn conditional_branch(word: u32) -> Decoded
    requires { row_of word ≡ Some rows.Bc }
    ensures is { result.op ≡ op_of rows.Bc word }
    ensures op { result.op ≢ ops.Empty }
    ensures row { result.row ≡ rows.Bc }
    ensures word { result.word ≡ word }
{
    if aa(word) || lk(word) {
        return with_op(Op::Other, 0, Row::Bc, word);
    }
    if bo(word, 0) == 1 {
        if bo(word, 2) == 0 && bo(word, 3) == 0 {
            return with_op(Op::BranchDecrement, bd(word), Row::Bc, word);
        }
        return with_op(Op::Other, 0, Row::Bc, word);
    }
    if bo(word, 2) != 1 {
        return with_op(Op::Other, 0, Row::Bc, word);
    }
    if bo(word, 1) == 1 {
        return with_op(Op::BranchTrue, bd(word), Row::Bc, word);
    }
    if bo(word, 1) == 0 {
        return with_op(Op::BranchFalse, bd(word), Row::Bc, word);
    }
    with_op(Op::Other, 0, Row::Bc, word)
}

#[tactic(auto, unfolding(crate::specs::Ops::fits, crate::specs::Ops::op_of))]
fn rotation(word: u32) -> Decoded
    requires { row_of word ≡ Some rows.Rlwinm }
    ensures is { result.op ≡ op_of rows.Rlwinm word }
    ensures op { result.op ≢ ops.Empty }
    ensures row { result.row ≡ rows.Rlwinm }
    ensures word { result.word ≡ word }
{
    let mask = ones_between(mb(word), me(word));
    if rc(word) {
        with_op(Op::RlwinmDot, mask, Row::Rlwinm, word)
    } else {
        with_op(Op::Rlwinm, mask, Row::Rlwinm, word)
    }
}

// The operation of a word of another row, which needs no operand made beforehand.
#[tactic(auto, unfolding(crate::specs::Ops::fits, crate::specs::Ops::op_of))]
fn op_for(row: Row, word: u32) -> Op
    requires branch { row ≢ rows.B }
    requires conditional { row ≢ rows.Bc }
    requires rotation { row ≢ rows.Rlwinm }
    ensures is { result ≡ op_of row word }
    ensures some { result ≢ ops.Empty }
    ensures under { row_under result row ≡ row }
    ensures fit { fits result word ≡ true }
    ensures open { (i : ℕ) → immediate_under result word i ≡ i }
{
    match row {
        Row::Bclr if !lk(word) && bo(word, 0) == 1 && bo(word, 2) == 1 => Op::BranchToLink,
        Row::Bclr => Op::Other,
        Row::Bcctr if !lk(word) && bo(word, 0) == 1 && bo(word, 2) == 1 => Op::BranchToCount,
        Row::Bcctr => Op::Other,
        Row::Addi if ra(word) == 0 => Op::LoadImmediate,
        Row::Addi => Op::AddImmediate,
        Row::Addis if ra(word) == 0 => Op::LoadImmediateShifted,
        Row::Addis => Op::AddImmediateShifted,
        Row::AddicDot => Op::AddicDot,
        Row::Mulli => Op::Mulli,
        Row::Add if !oe(word) && !rc(word) => Op::Add,
        Row::Add => Op::Other,
        Row::Subf if !oe(word) && !rc(word) => Op::Subf,
        Row::Subf => Op::Other,
        Row::Neg => Op::Neg,
        Row::Mullw => Op::Mullw,
        Row::Cmpi => Op::Cmpi,
        Row::Cmp => Op::Cmp,
        Row::Cmpli => Op::Cmpli,
        Row::Cmpl => Op::Cmpl,
        Row::Andi => Op::Andi,
        Row::Ori => Op::Ori,
        Row::Oris => Op::Oris,
        Row::Xori => Op::Xori,
        Row::Xoris => Op::Xoris,
        Row::And if !rc(word) => Op::And,
        Row::And => Op::Other,
        Row::Or if rc(word) => Op::OrDot,
        Row::Or => Op::Or,
        Row::Xor if !rc(word) => Op::Xor,
        Row::Xor => Op::Other,
        Row::Nor if !rc(word) => Op::Nor,
        Row::Nor => Op::Other,
        Row::Slw => Op::Slw,
        Row::Srw => Op::Srw,
        Row::Srawi => Op::Srawi,
        Row::Mtspr => Op::Mtspr,
        Row::Mfspr => Op::Mfspr,
        Row::Lwz if ra(word) != 0 => Op::LoadWord,
        Row::Lwz => Op::Other,
        Row::Stw if ra(word) != 0 => Op::StoreWord,
        Row::Stw => Op::Other,
        Row::Lbz => Op::Lbz,
        Row::Lbzx => Op::Lbzx,
        Row::Lbzu => Op::Lbzu,
        Row::Lhz => Op::Lhz,
        Row::Lhzx => Op::Lhzx,
        Row::Lha => Op::Lha,
        Row::Lwzx => Op::Lwzx,
        Row::Lwzu => Op::Lwzu,
        Row::Stb => Op::Stb,
        Row::Stbx => Op::Stbx,
        Row::Stbu => Op::Stbu,
        Row::Sth => Op::Sth,
        Row::Sthx => Op::Sthx,
        Row::Stwx => Op::Stwx,
        Row::Stwu => Op::Stwu,
        _ => Op::Other,
    }
}

/// The word of `nop`, with the operation `Empty`: the entry of a word that isn't decoded yet.
#[inline(always)]
pub fn empty() -> Decoded
    ensures { result.op ≡ ops.Empty }
{
    with_op(Op::Empty, 0, Row::Ori, 0x6000_0000)
}

/// The decoded word, with the operation `Other`, for a word that is executed once. None if the word
/// isn't in the table.
#[tactic(auto, unfolding(crate::specs::Ops::fits))]
#[inline(always)]
pub fn decode_once(word: u32) -> Option<Decoded>
    ensures row { option_map (λ d. d.row) result ≡ row_of word }
    ensures word { IfSome result (λ d. d.word ≡ word) }
{
    let row = row_for(word)?;
    Some(with_op(Op::Other, 0, row, word))
}

/// The decoded word. None if the word isn't in the table.
#[inline(always)]
pub fn decode_word(word: u32) -> Option<Decoded>
    ensures row { option_map (λ d. d.row) result ≡ row_of word }
    ensures word { IfSome result (λ d. d.word ≡ word) }
    ensures is { IfSome result (λ d. d.op ≡ op_of d.row d.word) }
    ensures op { IfSome result (λ d. d.op ≢ ops.Empty) }
{
    // not `?`, which is a call of its own here
    let Some(row) = row_for(word) else {
        return None;
    };
    Some(match row {
        Row::B => branch(word),
        Row::Bc => conditional_branch(word),
        Row::Rlwinm => rotation(word),
        _ => with_op(op_for(row, word), 0, row, word),
    })
}
