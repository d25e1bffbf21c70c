//! A section, and the items that are put into it. Relocation types are those of the PowerPC ABI supplement.

ghost use Rattle.std.specs.Prelude.{◌≡◌, ◌++◌, [], ◌∷◌, ◌+◌, ◌<◌, ◌^◌, OnOk, length, replicate, IsTrue, false};
ghost use Rattle.std.specs.List.{flat_map};
ghost use Rattle.std.specs.Int.{bytes_high_first};
ghost use Rattle.ppc_word.specs.Rows.{are_fields, word_with};
ghost use Rattle.asm_lines.specs.Items.{padding as padding_lem, value_bytes, item_bytes};
ghost use Rattle.asm_lines.specs.Names.{address_kind as address_kind_lem, reference_offset as reference_offset_lem, fix, value_fixes, reference_fixes, item_fixes};
ghost use Rattle.asm_lines.specs.Causes.{is_bad_word};

use ppc_text::{Instruction, Item, Reference, Value, Word, insn_of};
use ppc_word::encode;
use std::alloc::{AllocError, Global};

/// An address that a relocation puts into a section.
#[derive(Drop)]
pub struct Fix<'a> {
    /// The relocation's offset in the section, in bytes.
    pub offset: usize,
    /// The relocation's type, `R_PPC_..` in the PowerPC ABI supplement.
    pub kind: u8,
    /// The symbol's name.
    pub symbol: Word<'a>,
    /// The number that is added to the symbol's value, modulo 2^32.
    pub addend: u32,
}

/// The contents of a section so far.
#[derive(Drop)]
pub struct Section<'a> {
    /// The bytes; relocated fields hold 0.
    pub bytes: Vec<u8>,
    /// The relocated addresses, by their offsets.
    pub fixes: Vec<Fix<'a>>,
}

// R_PPC_ADDR32 and R_PPC_UADDR32.
const ADDR32: u8 = 1;

const UADDR32: u8 = 24;

// R_PPC_ADDR16_LO and R_PPC_ADDR16_HA: the relocations of halves of an address have the types from 4 to 6.
const ADDR16_LO: u8 = 4;

const ADDR16_HA: u8 = 6;

impl<'a> Section<'a> {
    /// An empty section.
    pub fn new(alloc: Global) -> Section<'a>
        ensures bytes { result.bytes.items ≡ [] }
        ensures fixes { result.fixes.items ≡ [] }
    {
        Section {
            bytes: Vec::new(alloc),
            fixes: Vec::new(alloc),
        }
    }
}

// Byte by byte, because a push into a full `Vec` doubles its room, but a slice gets only the room that it needs.
fn put_bytes(out: &mut Vec<u8>, piece: &[u8]) -> Result<(), AllocError>
    ensures { OnOk result (out.new.items ≡ out.old.items ++ piece.now) }
{
    for byte in piece {
        out.push(*byte)?;
    }
    Ok(())
}

fn put_word(out: &mut Vec<u8>, word: u32) -> Result<(), AllocError>
    ensures { OnOk result (out.new.items ≡ out.old.items ++ bytes_high_first 4 word) }
{
    put_bytes(out, &word.to_be_bytes())
}

fn put_zeros(out: &mut Vec<u8>, count: usize) -> Result<(), AllocError>
    ensures { OnOk result (out.new.items ≡ out.old.items ++ replicate count 0) }
{
    for _i in 0..count {
        out.push(0)?;
    }
    Ok(())
}

// The number of zeros from `len` to the next multiple of `align`; 0 if `len` is one, or if `align` is 0.
fn padding(len: usize, align: u32) -> usize
    ensures { result ≡ padding_lem len align }
{
    let align = align as usize;
    if align == 0 {
        return 0;
    }
    (align - len % align) % align
}

fn address_kind(offset: usize) -> u8
    ensures { result ≡ address_kind_lem offset }
{
    if offset % 4 == 0 { ADDR32 } else { UADDR32 }
}

fn put_fix<'a>(
    fixes: &mut Vec<Fix<'a>>,
    offset: usize,
    kind: u8,
    reference: &Reference<'a>,
) -> Result<(), AllocError>
    ensures { OnOk result (fixes.new.items ≡ fixes.old.items ++ fix offset kind reference.now ∷ []) }
{
    fixes.push(Fix {
        offset,
        kind,
        symbol: reference.symbol.again(),
        addend: reference.addend,
    })?;
    Ok(())
}

fn put_value<'a>(section: &mut Section<'a>, value: &Value<'a>) -> Result<(), AllocError>
    ensures bytes { OnOk result (section.new.bytes.items ≡ section.old.bytes.items ++ value_bytes value.now) }
    ensures fixes { OnOk result (section.new.fixes.items ≡ section.old.fixes.items
        ++ value_fixes (length section.old.bytes.items) (value.now ∷ [])) }
{
    match value {
        Value::Number(word) => put_word(&mut section.bytes, *word),
        Value::Address(reference) => {
            let offset = section.bytes.len();
            put_fix(&mut section.fixes, offset, address_kind(offset), reference)?;
            put_word(&mut section.bytes, 0)
        }
    }
}

fn put_values<'a>(section: &mut Section<'a>, values: &[Value<'a>]) -> Result<(), AllocError>
    ensures bytes { OnOk result (section.new.bytes.items ≡ section.old.bytes.items ++ flat_map value_bytes values.now) }
    ensures fixes { OnOk result (section.new.fixes.items ≡ section.old.fixes.items
        ++ value_fixes (length section.old.bytes.items) values.now) }
{
    for value in values {
        put_value(section, value)?;
    }
    Ok(())
}

// The offset of the relocation of an instruction at this offset: a half of an address is the word's lower half.
fn reference_offset(offset: usize, kind: u8) -> usize
    requires { offset + 2 < 2 ^ 64 }
    ensures { result ≡ reference_offset_lem offset kind }
{
    if kind >= ADDR16_LO && kind <= ADDR16_HA {
        offset + 2
    } else {
        offset
    }
}

fn put_reference<'a>(
    section: &mut Section<'a>,
    reference: &Option<Reference<'a>>,
) -> Result<(), AllocError>
    ensures bytes { section.new.bytes.items ≡ section.old.bytes.items }
    ensures fixes { OnOk result (section.new.fixes.items ≡ section.old.fixes.items
        ++ reference_fixes (length section.old.bytes.items) reference.now) }
{
    let Some(reference) = reference else {
        return Ok(());
    };
    let offset = reference_offset(section.bytes.len(), reference.kind);
    put_fix(&mut section.fixes, offset, reference.kind, reference)
}

fn put_instruction<'a>(section: &mut Section<'a>, insn: &Instruction<'a>) -> Result<(), AllocError>
    requires { IsTrue (are_fields insn.now.row insn.now.fields) }
    ensures bytes { OnOk result (section.new.bytes.items ≡ section.old.bytes.items
        ++ bytes_high_first 4 (word_with insn.now.row insn.now.fields)) }
    ensures fixes { OnOk result (section.new.fixes.items ≡ section.old.fixes.items
        ++ reference_fixes (length section.old.bytes.items) insn.now.reference) }
{
    put_reference(section, &insn.reference)?;
    let Some(insn) = insn_of(insn.row, insn.fields) else {
        return Ok(());
    };
    put_word(&mut section.bytes, encode(&insn))
}

fn put_padding(out: &mut Vec<u8>, align: u32) -> Result<(), AllocError>
    ensures { OnOk result (out.new.items ≡ out.old.items ++ replicate (padding_lem (length out.old.items) align) 0) }
{
    let zeros = padding(out.len(), align);
    put_zeros(out, zeros)
}

/// Adds the item of a line to its section. An instruction's word must be in the table. The error is that host memory
/// ran out.
#[tactic(auto, unfolding(crate::specs::Items::item_bytes, crate::specs::Names::item_fixes))]
pub fn put_item<'a>(section: &mut Section<'a>, item: &Item<'a>) -> Result<(), AllocError>
    requires { is_bad_word item.now ≡ false }
    ensures bytes { OnOk result (section.new.bytes.items ≡ section.old.bytes.items
        ++ item_bytes (length section.old.bytes.items) item.now) }
    ensures fixes { OnOk result (section.new.fixes.items ≡ section.old.fixes.items
        ++ item_fixes (length section.old.bytes.items) item.now) }
{
    match item {
        Item::Nothing | Item::Text | Item::Data | Item::Global(_) => Ok(()),
        Item::Long(values) => put_values(section, values.as_slice()),
        Item::Ascii(text) => put_bytes(&mut section.bytes, text.bytes()),
        Item::Space(count) => put_zeros(&mut section.bytes, *count as usize),
        Item::Align(align) => put_padding(&mut section.bytes, *align),
        Item::Instruction(insn) => put_instruction(section, insn),
    }
}
