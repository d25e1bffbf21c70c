//! Operands, read from tokens. Relocation types are those of the PowerPC ABI supplement.

ghost use Rattle.std.specs.Prelude.{◌≡◌, ◌<◌, ◌≤◌, ◌*◌, ◌^◌, ◌+◌, drop};
ghost use Rattle.ppc_text.specs.Operands.{first_number as first_number_lem, after_minus as after_minus_lem, number_at as number_at_lem, address_with as address_with_lem, taken_away as taken_away_lem, addend_at as addend_at_lem, first_half as first_half_lem, finished as finished_lem, operands_from as operands_from_lem, residue as residue_lem, address_at as address_at_lem, half_kind as half_kind_lem, with_half as with_half_lem, half_operand as half_operand_lem, plain as plain_lem, immediate_at as immediate_at_lem, number_operand as number_operand_lem, target_at as target_at_lem, register_of as register_of_lem, register_at as register_at_lem, special_at as special_at_lem, mark_operand as mark_operand_lem, is_comma as is_comma_lem, is_open as is_open_lem, is_close as is_close_lem, part_at as part_at_lem, with_field as with_field_lem, with_value as with_value_lem, later as later_lem, operands_at as operands_at_lem, reach_of as reach_of_lem, target_kind as target_kind_lem, words_of as words_of_lem, swapped as swapped_lem, target_address as target_address_lem};

use crate::part::{Part, Reach};
use crate::token::{Half, Reference, Token, Word};

/// A number with its sign.
#[derive(Clone, Copy, Drop)]
pub(crate) struct Signed {
    /// Whether a `-` stands before it.
    pub negative: bool,
    /// Its absolute value.
    pub size: u32,
    /// Its number of tokens.
    pub count: usize,
}

/// A symbol with an addend.
#[derive(Drop)]
pub(crate) struct Address<'a> {
    /// The symbol's name.
    pub symbol: Word<'a>,
    /// The number that is added to the symbol's value, modulo 2^32.
    pub addend: u32,
    /// The number of tokens.
    pub count: usize,
}

/// An operand, or a mark between operands.
#[derive(Drop)]
pub(crate) struct Operand<'a> {
    /// The value of its field; 0 if it is relocated.
    pub value: u32,
    /// Its number of tokens.
    pub count: usize,
    /// The address that a relocation puts into the field, if there is one.
    pub reference: Option<Reference<'a>>,
}

/// All operands of an instruction.
#[derive(Drop)]
pub(crate) struct Operands<'a> {
    /// The fields in the order of the form, then zeros. A relocated field holds 0.
    pub fields: [u32; 6],
    /// The address that a relocation puts into a field, if there is one.
    pub reference: Option<Reference<'a>>,
}

// The first token, if it is a number.
fn first_number(tokens: &[Token]) -> Option<u32>
    ensures { result ≡ first_number_lem tokens.now }
{
    match tokens.first() {
        Some(Token::Number(number)) => Some(*number),
        _ => None,
    }
}

fn after_minus(number: Option<u32>) -> Option<Signed>
    ensures { result ≡ after_minus_lem number }
{
    match number {
        Some(size) => Some(Signed {
            negative: true,
            size,
            count: 2,
        }),
        None => None,
    }
}

/// The number that the tokens begin with: an optional `-`, then a number.
pub(crate) fn number_at(tokens: &[Token]) -> Option<Signed>
    ensures { result ≡ number_at_lem tokens.now }
{
    let [first, rest @ ..] = tokens else {
        return None;
    };
    match first {
        Token::Minus => after_minus(first_number(rest)),
        Token::Number(size) => Some(Signed {
            negative: false,
            size: *size,
            count: 1,
        }),
        _ => None,
    }
}

/// A number from `-least` to `greatest`; a negative one is taken modulo twice `least`. None if the number is outside
/// the range.
pub(crate) fn residue(least: u32, greatest: u32, number: Signed) -> Option<u32>
    requires { least < 2 ^ 31 }
    ensures { result ≡ residue_lem least greatest number }
{
    if number.size == 0 {
        return Some(0);
    }
    if number.negative {
        if number.size <= least {
            return Some(2 * least - number.size);
        }
        return None;
    }
    if number.size <= greatest {
        Some(number.size)
    } else {
        None
    }
}

fn address_with<'a>(symbol: &Word<'a>, addend: Option<u32>) -> Address<'a>
    ensures { result ≡ address_with_lem symbol.now addend }
{
    let symbol = symbol.again();
    match addend {
        Some(addend) => Address {
            symbol,
            addend,
            count: 3,
        },
        None => Address {
            symbol,
            addend: 0,
            count: 1,
        },
    }
}

// The addend that subtracts a number from an address: its negative, modulo 2^32.
fn taken_away(number: Option<u32>) -> Option<u32>
    ensures { result ≡ taken_away_lem number }
{
    match number {
        Some(size) => Some((((1 << 32) - size as u64) % (1 << 32)) as u32),
        None => None,
    }
}

// The addend that the tokens begin with: `+` or `-`, then a number.
fn addend_at(tokens: &[Token]) -> Option<u32>
    ensures { result ≡ addend_at_lem tokens.now }
{
    let [first, rest @ ..] = tokens else {
        return None;
    };
    match first {
        Token::Plus => first_number(rest),
        Token::Minus => taken_away(first_number(rest)),
        _ => None,
    }
}

/// The address that the tokens begin with: a name, or a name with an addend.
pub(crate) fn address_at<'a>(tokens: &[Token<'a>]) -> Option<Address<'a>>
    ensures { result ≡ address_at_lem tokens.now }
{
    let [first, rest @ ..] = tokens else {
        return None;
    };
    match first {
        Token::Name(symbol) => Some(address_with(symbol, addend_at(rest))),
        _ => None,
    }
}

fn half_kind(half: Half) -> u8
    ensures { result ≡ half_kind_lem half }
{
    match half {
        Half::Low => 4,
        Half::High => 5,
        Half::HighAdjusted => 6,
    }
}

/// The tokens after the first `n`; an empty slice if there are fewer than `n`.
pub(crate) fn tokens_after<'b, 'a>(tokens: &'b [Token<'a>], n: usize) -> &'b [Token<'a>]
    ensures { result.now ≡ drop n tokens.now }
{
    if n <= tokens.len() { &tokens[n..] } else { &[] }
}

fn first_half(tokens: &[Token]) -> Option<Half>
    ensures { result ≡ first_half_lem tokens.now }
{
    match tokens.first() {
        Some(Token::Part(half)) => Some(*half),
        _ => None,
    }
}

fn with_half<'a>(address: Address<'a>, half: Option<Half>) -> Option<Operand<'a>>
    requires { address.count ≤ 3 }
    ensures { result ≡ with_half_lem address.entry half }
{
    match half {
        Some(half) => Some(Operand {
            value: 0,
            count: address.count + 1,
            reference: Some(Reference {
                symbol: address.symbol,
                addend: address.addend,
                kind: half_kind(half),
            }),
        }),
        None => None,
    }
}

fn half_operand<'a>(tokens: &[Token<'a>]) -> Option<Operand<'a>>
    ensures { result ≡ half_operand_lem tokens.now }
{
    let Some(address) = address_at(tokens) else {
        return None;
    };
    let half = first_half(tokens_after(tokens, address.count));
    with_half(address, half)
}

fn plain<'a>(value: Option<u32>, count: usize) -> Option<Operand<'a>>
    ensures { result ≡ plain_lem value count }
{
    match value {
        Some(value) => Some(Operand {
            value,
            count,
            reference: None,
        }),
        None => None,
    }
}

fn immediate_at<'a>(least: u32, greatest: u32, tokens: &[Token<'a>]) -> Option<Operand<'a>>
    requires { least < 2 ^ 31 }
    ensures { result ≡ immediate_at_lem least greatest tokens.now }
{
    match number_at(tokens) {
        Some(number) => plain(residue(least, greatest, number), number.count),
        None => half_operand(tokens),
    }
}

fn number_operand<'a>(greatest: u32, tokens: &[Token]) -> Option<Operand<'a>>
    ensures { result ≡ number_operand_lem greatest tokens.now }
{
    match number_at(tokens) {
        Some(number) => plain(residue(0, greatest, number), number.count),
        None => None,
    }
}

fn reach_of(reach: Reach) -> u32
    ensures value { result ≡ reach_of_lem reach }
    ensures low { result ≤ 2 ^ 25 }
    ensures some { 0 < result }
{
    match reach {
        Reach::Long => 0x200_0000,
        Reach::Short => 0x8000,
    }
}

fn target_kind(reach: Reach, absolute: bool) -> u8
    ensures { result ≡ target_kind_lem reach absolute }
{
    match (reach, absolute) {
        (Reach::Long, false) => 10,
        (Reach::Long, true) => 2,
        (Reach::Short, false) => 11,
        (Reach::Short, true) => 7,
    }
}

// A displacement of bytes, in words. None if it isn't a multiple of 4.
fn words_of(value: Option<u32>) -> Option<u32>
    ensures { result ≡ words_of_lem value }
{
    match value {
        Some(value) if value % 4 == 0 => Some(value / 4),
        _ => None,
    }
}

fn target_address<'a>(kind: u8, address: Option<Address<'a>>) -> Option<Operand<'a>>
    ensures { result ≡ target_address_lem kind address.entry }
{
    match address {
        Some(address) => Some(Operand {
            value: 0,
            count: address.count,
            reference: Some(Reference {
                symbol: address.symbol,
                addend: address.addend,
                kind,
            }),
        }),
        None => None,
    }
}

fn target_at<'a>(reach: Reach, absolute: bool, tokens: &[Token<'a>]) -> Option<Operand<'a>>
    ensures { result ≡ target_at_lem reach absolute tokens.now }
{
    let least = reach_of(reach);
    match number_at(tokens) {
        Some(number) => plain(words_of(residue(least, least - 1, number)), number.count),
        None => target_address(target_kind(reach, absolute), address_at(tokens)),
    }
}

// The number of the register with this name, `r0` to `r31`.
fn register_of(name: &[u8]) -> Option<u32>
    ensures { result ≡ register_of_lem name.now }
{
    match name {
        [b'r', d @ b'0'..=b'9'] => Some((*d - b'0') as u32),
        [b'r', t @ b'1'..=b'2', d @ b'0'..=b'9'] => {
            Some((*t - b'0') as u32 * 10 + (*d - b'0') as u32)
        }
        [b'r', b'3', d @ b'0'..=b'1'] => Some(30 + (*d - b'0') as u32),
        _ => None,
    }
}

fn register_at<'a>(tokens: &[Token]) -> Option<Operand<'a>>
    ensures { result ≡ register_at_lem tokens.now }
{
    let [first, ..] = tokens else {
        return None;
    };
    match first {
        Token::Name(name) => plain(register_of(name.bytes()), 1),
        _ => None,
    }
}

// The number of a special register with its two halves exchanged.
fn swapped(value: Option<u32>) -> Option<u32>
    ensures { result ≡ swapped_lem value }
{
    match value {
        Some(value) => Some(value % 32 * 32 + value / 32),
        None => None,
    }
}

fn special_at<'a>(tokens: &[Token]) -> Option<Operand<'a>>
    ensures { result ≡ special_at_lem tokens.now }
{
    match number_at(tokens) {
        Some(number) => plain(swapped(residue(0, 1023, number)), number.count),
        None => None,
    }
}

fn mark_operand<'a>(stands: bool) -> Option<Operand<'a>>
    ensures { result ≡ mark_operand_lem stands }
{
    if stands { plain(Some(0), 1) } else { None }
}

/// Whether a comma comes next.
pub(crate) fn is_comma(tokens: &[Token]) -> bool
    ensures { result ≡ is_comma_lem tokens.now }
{
    matches!(tokens, [Token::Comma, ..])
}

fn is_open(tokens: &[Token]) -> bool
    ensures { result ≡ is_open_lem tokens.now }
{
    matches!(tokens, [Token::Open, ..])
}

fn is_close(tokens: &[Token]) -> bool
    ensures { result ≡ is_close_lem tokens.now }
{
    matches!(tokens, [Token::Close, ..])
}

#[tactic(auto, unfolding(crate::specs::Operands::part_at))]
pub(crate) fn part_at<'a>(part: Part, absolute: bool, tokens: &[Token<'a>]) -> Option<Operand<'a>>
    ensures { result ≡ part_at_lem part absolute tokens.now }
{
    match part {
        Part::Comma => mark_operand(is_comma(tokens)),
        Part::Open => mark_operand(is_open(tokens)),
        Part::Close => mark_operand(is_close(tokens)),
        Part::Register(_) | Part::Twice(_, _) => register_at(tokens),
        Part::Number(_, greatest) => number_operand(greatest, tokens),
        Part::Special(_) => special_at(tokens),
        Part::Signed(_, greatest) => immediate_at(0x8000, greatest, tokens),
        Part::Unsigned(_) => immediate_at(0, 0xffff, tokens),
        Part::Target(_, reach) => target_at(reach, absolute, tokens),
        Part::Fixed(_, value) => plain(Some(value), 0),
    }
}

// The fields with `value` at `place`.
fn with_field(fields: [u32; 6], place: u8, value: u32) -> [u32; 6]
    ensures { result ≡ with_field_lem fields place value }
{
    let mut fields = fields;
    if (place as usize) < fields.len() {
        fields[place as usize] = value;
    }
    fields
}

/// The fields with a part's value at its places.
#[tactic(auto, unfolding(crate::specs::Operands::with_value))]
pub(crate) fn with_value(fields: [u32; 6], part: Part, value: u32) -> [u32; 6]
    ensures { result ≡ with_value_lem fields part value }
{
    match part {
        Part::Comma | Part::Open | Part::Close => fields,
        Part::Register(place)
        | Part::Number(place, _)
        | Part::Special(place)
        | Part::Signed(place, _)
        | Part::Unsigned(place)
        | Part::Target(place, _)
        | Part::Fixed(place, _) => with_field(fields, place, value),
        Part::Twice(place, other) => with_field(with_field(fields, place, value), other, value),
    }
}

fn later<'a>(before: Option<Reference<'a>>, after: Option<Reference<'a>>) -> Option<Reference<'a>>
    ensures { result ≡ later_lem before.entry after.entry }
{
    match after {
        Some(reference) => Some(reference),
        None => before,
    }
}

fn finished<'a>(
    fields: [u32; 6],
    reference: Option<Reference<'a>>,
    tokens: &[Token],
) -> Option<Operands<'a>>
    ensures { result ≡ finished_lem fields reference.entry tokens.now }
{
    match tokens {
        [] => Some(Operands { fields, reference }),
        _ => None,
    }
}

// The operands from the given parts on. The parts before them gave `fields` and `reference`.
fn operands_from<'a>(
    parts: &[Part],
    absolute: bool,
    fields: [u32; 6],
    reference: Option<Reference<'a>>,
    tokens: &[Token<'a>],
) -> Option<Operands<'a>>
    ensures { result ≡ operands_from_lem parts.now absolute fields reference.entry tokens.now }
{
    let [part, rest @ ..] = parts else {
        return finished(fields, reference, tokens);
    };
    let Some(operand) = part_at(*part, absolute, tokens) else {
        return None;
    };
    let fields = with_value(fields, *part, operand.value);
    let left = tokens_after(tokens, operand.count);
    let reference = later(reference, operand.reference);
    operands_from(rest, absolute, fields, reference, left)
}

/// Reads all tokens as the operands that `parts` describe. None if they aren't such operands.
#[tactic(auto, unfolding(crate::specs::Operands::operands_at))]
pub(crate) fn operands_at<'a>(
    parts: &[Part],
    absolute: bool,
    fields: [u32; 6],
    tokens: &[Token<'a>],
) -> Option<Operands<'a>>
    ensures { result ≡ operands_at_lem parts.now absolute fields tokens.now }
{
    operands_from(parts, absolute, fields, None, tokens)
}
