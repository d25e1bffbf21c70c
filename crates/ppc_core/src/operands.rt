//! The registers that a decoded word names (Book I, 1.7).

ghost use Rattle.std.specs.Prelude.{◌≡◌, ◌<◌};
ghost use Rattle.ppc_core.specs.Fields as field;

use ppc_word::Decoded;

/// RT, a target register. RS, TO and BT have the same place.
#[inline(always)]
pub fn rt(insn: Decoded) -> u32
    ensures is { result ≡ field.rt insn.word }
    ensures below { result < 32 }
{
    u32::from(insn.rt)
}

/// RA, a register. BI and BA have the same place.
#[inline(always)]
pub fn ra(insn: Decoded) -> u32
    ensures is { result ≡ field.ra insn.word }
    ensures below { result < 32 }
{
    u32::from(insn.ra)
}

/// RB, a register. SH and BB have the same place.
#[inline(always)]
pub fn rb(insn: Decoded) -> u32
    ensures is { result ≡ field.rb insn.word }
    ensures below { result < 32 }
{
    u32::from(insn.rb)
}
