//! The values of the operators.

ghost use Rattle.std.specs.Prelude.{◌≡◌};
ghost use Rattle.shell_eval.specs.Operators.{before_word, moved_right as moved_right_lem, divided as divided_lem, between_words};
ghost use Rattle.shell_eval.specs.Words.{combined};
ghost use Rattle.shell_eval.specs.State.{State};
ghost use Rattle.shell_eval.specs.Moved.{attempt};

use crate::fault::EvalFault;
use shell_parse::{BinOp, UnOp};

/// The value of an operator with one operand.
pub(crate) fn before(op: UnOp, a: u32) -> u32
    ensures { result ≡ before_word op a }
{
    match op {
        UnOp::Neg => a.wrapping_neg(),
        UnOp::Not => u32::from(a == 0),
        UnOp::Com => !a,
    }
}

// A signed number shifted to the right.
fn moved_right(a: u32, b: u32) -> u32
    ensures { result ≡ moved_right_lem a b }
{
    a.cast_signed().wrapping_shr(b).cast_unsigned()
}

// The quotient, rounded toward 0, and the remainder of signed numbers, if the divisor isn't 0.
fn divided(a: u32, b: u32) -> Option<(u32, u32)>
    ensures { result ≡ divided_lem a b }
{
    if b == 0 {
        return None;
    }
    let dividend = a.cast_signed();
    let divisor = b.cast_signed();
    Some((
        dividend.wrapping_div(divisor).cast_unsigned(),
        dividend.wrapping_rem(divisor).cast_unsigned(),
    ))
}

// The value of an operator with two operands; `None` for a divisor of 0.
fn between(op: BinOp, a: u32, b: u32) -> Option<u32>
    ensures { result ≡ between_words op a b }
{
    match op {
        BinOp::OrElse => Some(u32::from(a != 0 || b != 0)),
        BinOp::AndAlso => Some(u32::from(a != 0 && b != 0)),
        BinOp::Or => Some(a | b),
        BinOp::Xor => Some(a ^ b),
        BinOp::And => Some(a & b),
        BinOp::Eq => Some(u32::from(a == b)),
        BinOp::Ne => Some(u32::from(a != b)),
        BinOp::Lt => Some(u32::from(a.cast_signed() < b.cast_signed())),
        BinOp::Le => Some(u32::from(a.cast_signed() <= b.cast_signed())),
        BinOp::Gt => Some(u32::from(a.cast_signed() > b.cast_signed())),
        BinOp::Ge => Some(u32::from(a.cast_signed() >= b.cast_signed())),
        BinOp::Shl => Some(a.wrapping_shl(b)),
        BinOp::Shr => Some(moved_right(a, b)),
        BinOp::Plus => Some(a.wrapping_add(b)),
        BinOp::Minus => Some(a.wrapping_sub(b)),
        BinOp::Times => Some(a.wrapping_mul(b)),
        BinOp::Over => divided(a, b).map(|both| both.0),
        BinOp::Rest => divided(a, b).map(|both| both.1),
    }
}

/// The value of an operator with two operands, or the fault of a divisor of 0.
pub(crate) fn combine(op: BinOp, a: u32, b: u32) -> Result<u32, EvalFault>
    ensures { (s : State) → attempt result s ≡ combined s op a b }
{
    between(op, a, b).ok_or(EvalFault::DivideByZero)
}
