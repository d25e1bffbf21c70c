//! The fields of an instruction word, by their names in the book (Book I, 1.7).

ghost use Rattle.std.specs.Prelude.{◌≡◌, ◌<◌, ◌^◌};
ghost use Rattle.ppc_word.specs.Fields as field;

use crate::bits::{bits_of, extend_half, extend_sign};

/// RT, a target register. RS, TO and BT have the same place.
#[tactic(auto, unfolding(crate::specs::Fields::rt))]
#[inline(always)]
pub fn rt(word: u32) -> u32
    ensures is { result ≡ field.rt word }
    ensures below { result < 32 }
{
    bits_of(word, 6, 10)
}

/// RA, a register. BI and BA have the same place.
#[tactic(auto, unfolding(crate::specs::Fields::ra))]
#[inline(always)]
pub fn ra(word: u32) -> u32
    ensures is { result ≡ field.ra word }
    ensures below { result < 32 }
{
    bits_of(word, 11, 15)
}

/// RB, a register. SH and BB have the same place.
#[tactic(auto, unfolding(crate::specs::Fields::rb))]
#[inline(always)]
pub fn rb(word: u32) -> u32
    ensures is { result ≡ field.rb word }
    ensures below { result < 32 }
{
    bits_of(word, 16, 20)
}

/// UI, an unsigned 16-bit number.
#[tactic(auto, unfolding(crate::specs::Fields::ui))]
#[inline(always)]
pub fn ui(word: u32) -> u32
    ensures is { result ≡ field.ui word }
    ensures below { result < 2 ^ 16 }
{
    bits_of(word, 16, 31)
}

/// UI as the high half of a word.
#[tactic(auto, unfolding(crate::specs::Fields::high_ui))]
#[inline(always)]
pub fn high_ui(word: u32) -> u32
    ensures { result ≡ field.high_ui word }
{
    bits_of(word, 16, 31) << 16
}

/// SI or D, a signed 16-bit number, extended to a word.
#[tactic(auto, unfolding(crate::specs::Fields::si))]
#[inline(always)]
pub fn si(word: u32) -> u32
    ensures { result ≡ field.si word }
{
    extend_half(bits_of(word, 16, 31))
}

/// MB, the first bit of a mask.
#[tactic(auto, unfolding(crate::specs::Fields::mb))]
#[inline(always)]
pub fn mb(word: u32) -> u32
    ensures is { result ≡ field.mb word }
    ensures below { result < 32 }
{
    bits_of(word, 21, 25)
}

/// ME, the last bit of a mask.
#[tactic(auto, unfolding(crate::specs::Fields::me))]
#[inline(always)]
pub fn me(word: u32) -> u32
    ensures is { result ≡ field.me word }
    ensures below { result < 32 }
{
    bits_of(word, 26, 30)
}

/// OE: the instruction records overflow in XER.
#[tactic(auto, unfolding(crate::specs::Fields::oe))]
#[inline(always)]
pub fn oe(word: u32) -> bool
    ensures { result ≡ field.oe word }
{
    bits_of(word, 21, 21) == 1
}

/// Rc: the instruction records the result in CR0.
#[tactic(auto, unfolding(crate::specs::Fields::rc))]
#[inline(always)]
pub fn rc(word: u32) -> bool
    ensures { result ≡ field.rc word }
{
    bits_of(word, 31, 31) == 1
}

/// BF, the number of a CR field.
#[tactic(auto, unfolding(crate::specs::Fields::bf))]
#[inline(always)]
pub fn bf(word: u32) -> u32
    ensures is { result ≡ field.bf word }
    ensures below { result < 8 }
{
    bits_of(word, 6, 8)
}

/// BFA, the number of a CR field.
#[tactic(auto, unfolding(crate::specs::Fields::bfa))]
#[inline(always)]
pub fn bfa(word: u32) -> u32
    ensures is { result ≡ field.bfa word }
    ensures below { result < 8 }
{
    bits_of(word, 11, 13)
}

/// SPR, the number of a special register. Its halves are swapped in the word.
#[tactic(auto, unfolding(crate::specs::Fields::spr))]
#[inline(always)]
pub fn spr(word: u32) -> u32
    ensures { result ≡ field.spr word }
{
    bits_of(word, 16, 20) * 0x20 + bits_of(word, 11, 15)
}

/// LI, the displacement of a branch in bytes, extended to a word.
#[tactic(auto, unfolding(crate::specs::Fields::li))]
#[inline(always)]
pub fn li(word: u32) -> u32
    ensures { result ≡ field.li word }
{
    extend_sign(26, bits_of(word, 6, 29) * 4)
}

/// BD, the displacement of a conditional branch in bytes, extended to a word.
#[tactic(auto, unfolding(crate::specs::Fields::bd))]
#[inline(always)]
pub fn bd(word: u32) -> u32
    ensures { result ≡ field.bd word }
{
    extend_sign(16, bits_of(word, 16, 29) * 4)
}

/// AA: the displacement of a branch is an address.
#[tactic(auto, unfolding(crate::specs::Fields::aa))]
#[inline(always)]
pub fn aa(word: u32) -> bool
    ensures { result ≡ field.aa word }
{
    bits_of(word, 30, 30) == 1
}

/// LK: the branch sets LR.
#[tactic(auto, unfolding(crate::specs::Fields::lk))]
#[inline(always)]
pub fn lk(word: u32) -> bool
    ensures { result ≡ field.lk word }
{
    bits_of(word, 31, 31) == 1
}

/// Bit `k` of BO.
#[inline(always)]
pub fn bo(word: u32, k: u8) -> u32
    requires { k < 5 }
    ensures { result ≡ field.bo word k }
{
    bits_of(word, 6 + k, 6 + k)
}

/// Bit `k` of FXM.
#[inline(always)]
pub fn fxm(word: u32, k: u8) -> u32
    requires { k < 8 }
    ensures { result ≡ field.fxm word k }
{
    bits_of(word, 12 + k, 12 + k)
}
