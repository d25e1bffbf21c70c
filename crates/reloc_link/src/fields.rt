//! The content of one field.

ghost use Rattle.std.specs.Prelude.{◌≡◌, ◌+◌, ◌<◌, ◌/◌, ◌%◌, ◌^◌, IfOk};
ghost use Rattle.reloc_link.specs.Types.{width_by, width_of, IsWidth};
ghost use Rattle.reloc_link.specs.Formula.{sum_of, distance_of, value_of, lies_within, target, with_bits, hinted, put_by, field as field_lem};

use crate::kind::{Form, Hint, RelocType};

/// The bits of a word that hold the target of a branch.
const BRANCH_24: u32 = 0x03ff_fffc;

/// The bits of a word that hold the target of a conditional branch.
const BRANCH_14: u32 = 0x0000_fffc;

/// The bit that predicts whether a conditional branch is taken.
const HINT_BIT: u32 = 0x0020_0000;

/// Words from here on are negative when read as signed.
const NEGATIVE: u32 = 0x8000_0000;

/// The number of values of a half word.
const HALF: u32 = 0x1_0000;

/// Why a field can't be written.
#[derive(Clone, Copy, Debug, PartialEq, Eq)]
pub enum FieldFault {
    /// The value doesn't fit the field.
    Range,
    /// The value fits, but isn't a multiple of 4, as the target of a branch must be.
    Unaligned,
    /// There is no such type, or it isn't supported.
    Unsupported,
}

/// The sum of symbol and addend, modulo 2^32.
fn sum(s: u32, a: u32) -> u32
    ensures { result ≡ sum_of s a }
{
    s.wrapping_add(a)
}

/// The distance from the field to symbol plus addend, modulo 2^32.
fn distance(s: u32, a: u32, p: u32) -> u32
    ensures { result ≡ distance_of s a p }
{
    s.wrapping_add(a).wrapping_sub(p)
}

/// The value that a type writes.
fn value(kind: RelocType, s: u32, a: u32, p: u32) -> u32
    ensures { result ≡ value_of kind s a p }
{
    if kind.is_relative() {
        distance(s, a, p)
    } else {
        sum(s, a)
    }
}

/// Whether the word, read as signed, is at least `-low` and below `high`.
fn is_within(low: u32, high: u32, v: u32) -> bool
    requires { 0 < low }
    ensures { result ≡ lies_within low high v }
{
    v < high || v >= 0u32.wrapping_sub(low)
}

/// Checks the target of a branch that reaches `reach` bytes in both directions.
fn check_target(reach: u32, v: u32) -> Result<u32, FieldFault>
    requires { 0 < reach }
    ensures { result ≡ target reach v }
{
    if !is_within(reach, reach, v) {
        return Err(FieldFault::Range);
    }
    if v % 4 != 0 {
        return Err(FieldFault::Unaligned);
    }
    Ok(v)
}

/// The word `old` with the bits of the mask taken from `v`.
fn put_bits(mask: u32, old: u32, v: u32) -> u32
    ensures { result ≡ with_bits mask old v }
{
    (old & (0xffff_ffff - mask)) | (v & mask)
}

/// The word with its prediction bit set for a branch over this distance.
fn put_hint(hint: Hint, distance: u32, word: u32) -> u32
    ensures { result ≡ hinted hint distance word }
{
    let set = match hint {
        Hint::Kept => return word,
        Hint::Taken => distance < NEGATIVE,
        Hint::NotTaken => distance >= NEGATIVE,
    };
    put_bits(HINT_BIT, word, if set { HINT_BIT } else { 0 })
}

fn put(form: Form, v: u32, distance: u32, old: u32) -> Result<u32, FieldFault>
    requires { old < 256 ^ width_by form }
    ensures value { result ≡ put_by form v distance old }
    ensures small { IfOk result (λ v. v < 256 ^ width_by form) }
{
    match form {
        Form::Empty => Ok(old),
        Form::Word => Ok(v),
        Form::Branch24 => {
            let target = check_target(0x0200_0000, v)?;
            Ok(put_bits(BRANCH_24, old, target))
        }
        Form::Branch14(hint) => {
            let target = check_target(0x8000, v)?;
            Ok(put_hint(hint, distance, put_bits(BRANCH_14, old, target)))
        }
        Form::Half => {
            if !is_within(0x8000, HALF, v) {
                return Err(FieldFault::Range);
            }
            Ok(v % HALF)
        }
        Form::Low => Ok(v % HALF),
        Form::High => Ok(v / HALF),
        Form::HighAdjusted => Ok((v / HALF + v / 0x8000 % 2) % HALF),
    }
}

/// How many bytes the type with this number writes; 0 if there is no such type.
#[tactic(auto, unfolding(crate::specs::Types::width_of))]
pub fn width(kind: u8) -> u32
    ensures value { result ≡ width_of kind }
    ensures form { IsWidth result }
{
    match RelocType::of(kind) {
        Some(kind) => kind.form().width(),
        None => 0,
    }
}

/// The new content of a field after a relocation of this type: the symbol is at `s`, the addend is
/// `a`, the field is at `p`, and it held `old` before. All are modulo 2^32.
#[tactic(auto, unfolding(crate::specs::Formula::field, crate::specs::Types::width_of))]
pub fn field(kind: u8, s: u32, a: u32, p: u32, old: u32) -> Result<u32, FieldFault>
    requires { old < 256 ^ width_of kind }
    ensures value { result ≡ field_lem kind s a p old }
    ensures small { IfOk result (λ v. v < 256 ^ width_of kind) }
{
    let Some(kind) = RelocType::of(kind) else {
        return Err(FieldFault::Unsupported);
    };
    put(kind.form(), value(kind, s, a, p), distance(s, a, p), old)
}
