//! Instructions from their fields.

ghost use Rattle.std.specs.Prelude.{◌≡◌, ◌↔◌, ◌||◌, nat_eq, IsTrue, IsSome, IfSome};
ghost use Rattle.ppc_word.specs.Rows.{are_fields};
ghost use Rattle.ppc_text.specs.Mnemonics.{seen};
ghost use Rattle.ppc_text.specs.Limits.{limit_of as limit_of_lem, limits_from as limits_from_lem, limits_of, lies_below as lies_below_lem, are_within as are_within_lem, special_of as special_of_lem, holds as holds_lem};

use crate::mnemonic::{Flags, Mnemonic, flagged, mnemonic_of};
use crate::operand::with_value;
use crate::part::{Part, Reach, parts_of};
use ppc_word::{Insn, Row, Rule, rule_of};

// The number that the field of an operand must lie below. A mark and a fixed field have 0.
#[tactic(auto, unfolding(crate::specs::Limits::limit_of))]
fn limit_of(part: Part) -> u32
    ensures { result ≡ limit_of_lem part }
{
    match part {
        Part::Register(_) | Part::Twice(_, _) => 32,
        Part::Number(_, greatest) => greatest.saturating_add(1),
        Part::Special(_) => 1024,
        Part::Signed(_, _) | Part::Unsigned(_) => 0x1_0000,
        Part::Target(_, Reach::Long) => 0x100_0000,
        Part::Target(_, Reach::Short) => 0x4000,
        Part::Comma | Part::Open | Part::Close | Part::Fixed(_, _) => 0,
    }
}

fn limits_from(parts: &[Part], limits: [u32; 6]) -> [u32; 6]
    ensures { result ≡ limits_from_lem parts.now limits }
{
    let [part, rest @ ..] = parts else {
        return limits;
    };
    limits_from(rest, with_value(limits, *part, limit_of(*part)))
}

// The numbers that the fields of an instruction must lie below. 0 means that there is no such field.
#[tactic(auto, unfolding(crate::specs::Limits::limits_of))]
fn limits(mnemonic: &Mnemonic) -> [u32; 6]
    ensures { result ≡ limits_of (seen mnemonic.now) }
{
    let bits = Flags {
        first: 2,
        second: 2,
    };
    limits_from(parts_of(mnemonic.shape), flagged(mnemonic.endings, bits))
}

fn lies_below(limit: u32, value: u32) -> bool
    ensures { result ≡ lies_below_lem limit value }
{
    if limit == 0 {
        value == 0
    } else {
        value < limit
    }
}

fn are_within(limits: &[u32], values: &[u32]) -> bool
    ensures { result ≡ are_within_lem limits.now values.now }
{
    let [limit, rest @ ..] = limits else {
        return values.is_empty();
    };
    match values {
        [] => false,
        [value, more @ ..] => lies_below(*limit, *value) && are_within(rest, more),
    }
}

// The number of a special register, from its field: the field has the two halves of 5 bits exchanged.
fn special_of(field: u32) -> u64
    ensures { result ≡ special_of_lem field }
{
    u64::from(field % 32) * 32 + u64::from(field / 32)
}

fn is_special(number: u64) -> bool
    ensures { result ≡ (nat_eq number 1 || nat_eq number 8 || nat_eq number 9) }
{
    number == 1 || number == 8 || number == 9
}

#[tactic(auto, unfolding(crate::specs::Limits::holds))]
fn holds(rule: Rule, fields: &[u32; 6]) -> bool
    ensures { result ≡ holds_lem rule fields.now }
{
    let first = fields[0];
    let second = fields[1];
    match rule {
        Rule::Any => true,
        Rule::LoadUpdate => second != 0 && second != first,
        Rule::StoreUpdate => second != 0,
        Rule::LoadMultiple => second < first,
        Rule::SpecialRegister => is_special(special_of(second)),
        Rule::NoCount => first / 4 % 2 == 1,
    }
}

// Whether the row and the fields make a word of the table.
fn are_its_fields(row: Row, fields: &[u32; 6]) -> bool
    ensures { result ≡ are_fields row fields.now }
{
    let mnemonic = mnemonic_of(row);
    let limits = limits(mnemonic);
    if are_within(&limits, fields) {
        holds(rule_of(row), fields)
    } else {
        false
    }
}

/// The instruction with the given row and fields. None if a field exceeds its width, an unused field isn't 0, or the
/// word is outside the processor's table.
pub fn insn_of(row: Row, fields: [u32; 6]) -> Option<Insn>
    ensures is { IfSome result (λ i. (i.row ≡ row) × (i.fields ≡ fields)) }
    ensures exact { IsSome result ↔ IsTrue (are_fields row fields) }
{
    if are_its_fields(row, &fields) {
        Some(Insn { row, fields })
    } else {
        None
    }
}
