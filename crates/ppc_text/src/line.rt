//! A line of source text: an optional label and an item.

ghost use Rattle.std.specs.Prelude.{◌≡◌, ◌<◌, IfOk, option_map};
ghost use Rattle.ppc_text.specs.Lines.{colon_first as colon_first_lem, name_first as name_first_lem, label_of as label_of_lem, label_tokens as label_tokens_lem, wrapped as wrapped_lem, address_value as address_value_lem, value_at as value_at_lem, values_of as values_of_lem, number_alone as number_alone_lem, name_alone as name_alone_lem, text_alone as text_alone_lem, is_alignment as is_alignment_lem, alignment_item as alignment_item_lem, instruction_of as instruction_of_lem, none_left, item_of as item_of_lem, item_at as item_at_lem, line_of as line_of_lem};

use crate::lexer::tokens;
use crate::mnemonic::spelling_of;
use crate::operand::{
    Address, Signed, address_at, is_comma, number_at, operands_at, residue, tokens_after,
};
use crate::part::parts_of;
use crate::token::{Reference, Token, Word};
use crate::values::{Value, Values};
use ppc_word::Row;
use source_text::Text;
use std::alloc::{AllocError, Global};

/// An instruction as a line writes it. Its word may be outside the processor's table; `insn_of` checks that.
#[derive(Drop)]
pub struct Instruction<'a> {
    /// The instruction's row of the table.
    pub row: Row,
    /// The fields in the order of the row's form, then zeros. A relocated field holds 0.
    pub fields: [u32; 6],
    /// The address that a relocation puts into a field, if there is one.
    pub reference: Option<Reference<'a>>,
}

/// What a line does apart from its label.
#[derive(Drop)]
pub enum Item<'a> {
    /// Nothing.
    Nothing,
    /// `.text`: the items that follow stand in the text section.
    Text,
    /// `.data`: the items that follow stand in the data section.
    Data,
    /// `.globl`: the name is global.
    Global(Word<'a>),
    /// `.long`: words of 32 bits.
    Long(Values<'a>),
    /// `.ascii`: the bytes of a string.
    Ascii(Text),
    /// `.space`: the given number of zeros, at most 65,536.
    Space(u32),
    /// `.align`: the fewest zeros that reach a multiple of the given number: 1, 2, 4, 8 or 16.
    Align(u32),
    /// An instruction.
    Instruction(Instruction<'a>),
}

/// A line of source text.
#[derive(Drop)]
pub struct Line<'a> {
    /// The label's name, without its colon.
    pub label: Option<Word<'a>>,
    /// The item; `Item::Nothing` if there is none.
    pub item: Item<'a>,
}

fn colon_first(tokens: &[Token]) -> bool
    ensures { result ≡ colon_first_lem tokens.now }
{
    matches!(tokens, [Token::Colon, ..])
}

fn name_first<'a>(tokens: &[Token<'a>]) -> Option<Word<'a>>
    ensures { result ≡ name_first_lem tokens.now }
{
    let [first, ..] = tokens else {
        return None;
    };
    match first {
        Token::Name(name) => Some(name.again()),
        _ => None,
    }
}

// The label that these tokens begin with.
fn label_of<'a>(tokens: &[Token<'a>]) -> Option<Word<'a>>
    ensures { result ≡ label_of_lem tokens.now }
{
    if colon_first(tokens_after(tokens, 1)) {
        name_first(tokens)
    } else {
        None
    }
}

fn label_tokens(label: &Option<Word>) -> usize
    ensures { result ≡ label_tokens_lem label.now }
{
    match label {
        Some(_) => 2,
        None => 0,
    }
}

fn wrapped(number: Signed) -> u32
    ensures { result ≡ wrapped_lem number }
{
    if number.negative {
        (((1 << 32) - number.size as u64) % (1 << 32)) as u32
    } else {
        number.size
    }
}

fn address_value<'a>(address: Option<Address<'a>>) -> Option<(Value<'a>, usize)>
    ensures { result ≡ address_value_lem address.entry }
{
    let Some(address) = address else {
        return None;
    };
    let reference = Reference {
        symbol: address.symbol,
        addend: address.addend,
        kind: 1,
    };
    Some((Value::Address(reference), address.count))
}

#[tactic(auto, unfolding(crate::specs::Lines::value_at))]
fn value_at<'a>(tokens: &[Token<'a>]) -> Option<(Value<'a>, usize)>
    ensures { result ≡ value_at_lem tokens.now }
{
    match number_at(tokens) {
        Some(number) => Some((Value::Number(wrapped(number)), number.count)),
        None => address_value(address_at(tokens)),
    }
}

#[tactic(auto, unfolding(crate::specs::Lines::values_of))]
fn values_of<'a>(alloc: Global, tokens: &[Token<'a>]) -> Result<Option<Values<'a>>, AllocError>
    ensures { IfOk result (λ values. values ≡ values_of_lem tokens.now) }
{
    let mut kept = Vec::new(alloc);
    let mut left = tokens;
    while let Some((value, count)) = value_at(left) {
        kept.push(value)?;
        left = tokens_after(left, count);
        if left.is_empty() {
            return Ok(Some(Values { kept }));
        }
        if !is_comma(left) {
            return Ok(None);
        }
        left = tokens_after(left, 1);
    }
    Ok(None)
}

fn number_alone(greatest: u32, tokens: &[Token]) -> Option<u32>
    ensures { result ≡ number_alone_lem greatest tokens.now }
{
    let Some(number) = number_at(tokens) else {
        return None;
    };
    match tokens_after(tokens, number.count) {
        [] => residue(0, greatest, number),
        _ => None,
    }
}

fn name_alone<'a>(tokens: &[Token<'a>]) -> Option<Word<'a>>
    ensures { result ≡ name_alone_lem tokens.now }
{
    let [first] = tokens else {
        return None;
    };
    match first {
        Token::Name(name) => Some(name.again()),
        _ => None,
    }
}

fn text_alone(alloc: Global, tokens: &[Token]) -> Result<Option<Text>, AllocError>
    ensures { IfOk result (λ text. text ≡ text_alone_lem tokens.now) }
{
    let [first] = tokens else {
        return Ok(None);
    };
    match first {
        Token::Str(text) => Ok(Some(Text::new(alloc, text.bytes())?)),
        _ => Ok(None),
    }
}

fn is_alignment(number: u32) -> bool
    ensures { result ≡ is_alignment_lem number }
{
    number == 1 || number == 2 || number == 4 || number == 8 || number == 16
}

fn alignment_item<'a>(number: Option<u32>) -> Option<Item<'a>>
    ensures { result ≡ alignment_item_lem number }
{
    match number {
        Some(number) if is_alignment(number) => Some(Item::Align(number)),
        _ => None,
    }
}

#[tactic(auto, unfolding(crate::specs::Lines::instruction_of))]
fn instruction_of<'a>(name: &[u8], tokens: &[Token<'a>]) -> Option<Instruction<'a>>
    ensures { result ≡ instruction_of_lem name.now tokens.now }
{
    let Some(spelling) = spelling_of(name) else {
        return None;
    };
    let parts = parts_of(spelling.shape);
    let Some(operands) = operands_at(parts, spelling.absolute, spelling.fields, tokens) else {
        return None;
    };
    Some(Instruction {
        row: spelling.row,
        fields: operands.fields,
        reference: operands.reference,
    })
}

// The item, if no token follows it.
fn alone<'a>(item: Item<'a>, tokens: &[Token]) -> Option<Item<'a>>
    ensures { result ≡ none_left (Some item.entry) tokens.now }
{
    match tokens {
        [] => Some(item),
        _ => None,
    }
}

fn global_item<'a>(tokens: &[Token<'a>]) -> Option<Item<'a>>
    ensures { result ≡ option_map (λ name. Item.Global name) (name_alone_lem tokens.now) }
{
    match name_alone(tokens) {
        Some(name) => Some(Item::Global(name)),
        None => None,
    }
}

fn long_item<'a>(alloc: Global, tokens: &[Token<'a>]) -> Result<Option<Item<'a>>, AllocError>
    ensures { IfOk result (λ item. item ≡ option_map (λ values. Item.Long values) (values_of_lem tokens.now)) }
{
    match values_of(alloc, tokens) {
        Ok(Some(values)) => Ok(Some(Item::Long(values))),
        Ok(None) => Ok(None),
        Err(error) => Err(error),
    }
}

fn ascii_item<'a>(alloc: Global, tokens: &[Token]) -> Result<Option<Item<'a>>, AllocError>
    ensures { IfOk result (λ item. item ≡ option_map (λ text. Item.Ascii text) (text_alone_lem tokens.now)) }
{
    match text_alone(alloc, tokens) {
        Ok(Some(text)) => Ok(Some(Item::Ascii(text))),
        Ok(None) => Ok(None),
        Err(error) => Err(error),
    }
}

fn space_item<'a>(tokens: &[Token]) -> Option<Item<'a>>
    ensures { result ≡ option_map (λ size. Item.Space size) (number_alone_lem 0x10000 tokens.now) }
{
    match number_alone(0x10000, tokens) {
        Some(size) => Some(Item::Space(size)),
        None => None,
    }
}

fn instruction_item<'a>(name: &[u8], tokens: &[Token<'a>]) -> Option<Item<'a>>
    ensures { result ≡ option_map (λ insn. Item.Instruction insn) (instruction_of_lem name.now tokens.now) }
{
    match instruction_of(name, tokens) {
        Some(insn) => Some(Item::Instruction(insn)),
        None => None,
    }
}

#[tactic(auto, unfolding(crate::specs::Lines::item_of))]
fn item_of<'a>(
    alloc: Global,
    name: &[u8],
    tokens: &[Token<'a>],
) -> Result<Option<Item<'a>>, AllocError>
    ensures { IfOk result (λ item. item ≡ item_of_lem name.now tokens.now) }
{
    if name == b".text".as_slice() {
        return Ok(alone(Item::Text, tokens));
    }
    if name == b".data".as_slice() {
        return Ok(alone(Item::Data, tokens));
    }
    if name == b".globl".as_slice() {
        return Ok(global_item(tokens));
    }
    if name == b".long".as_slice() {
        return long_item(alloc, tokens);
    }
    if name == b".ascii".as_slice() {
        return ascii_item(alloc, tokens);
    }
    if name == b".space".as_slice() {
        return Ok(space_item(tokens));
    }
    if name == b".align".as_slice() {
        return Ok(alignment_item(number_alone(16, tokens)));
    }
    Ok(instruction_item(name, tokens))
}

fn item_at<'a>(alloc: Global, tokens: &[Token<'a>]) -> Result<Option<Item<'a>>, AllocError>
    ensures { IfOk result (λ item. item ≡ item_at_lem tokens.now) }
{
    let [first, rest @ ..] = tokens else {
        return Ok(Some(Item::Nothing));
    };
    match first {
        Token::Name(name) => item_of(alloc, name.bytes(), rest),
        Token::Dotted(name) => item_of(alloc, name.bytes(), rest),
        _ => Ok(None),
    }
}

/// Reads a line of assembler source, without its line feed. None if it is outside the grammar or an operand is
/// outside its range. The error is that host memory ran out.
#[tactic(auto, unfolding(crate::specs::Lines::line_of))]
pub fn parse<'a>(alloc: Global, bytes: &'a [u8]) -> Result<Option<Line<'a>>, AllocError>
    ensures { IfOk result (λ line. line ≡ line_of_lem bytes.now) }
{
    let tokens = tokens(alloc, bytes)?;
    let label = label_of(&tokens);
    let label_len = label_tokens(&label);
    match item_at(alloc, tokens_after(&tokens, label_len)) {
        Ok(Some(item)) => Ok(Some(Line { label, item })),
        Ok(None) => Ok(None),
        Err(error) => Err(error),
    }
}
