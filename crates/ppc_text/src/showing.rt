//! Instructions as text.

ghost use Rattle.std.specs.Prelude.{◌≡◌, ◌<◌, ◌≤◌, ◌^◌, ◌++◌, [], ◌∷◌, codes};
ghost use Rattle.std.specs.List.{flat_map};
ghost use Rattle.std.specs.Fmt.{decimal};
ghost use Rattle.wind_base.specs.OutBuf.{Added};
ghost use Rattle.ppc_text.specs.Laws.{LineLaw, ShownLaw};
ghost use Rattle.ppc_text.specs.Limits.{special_of as special_of_lem};
ghost use Rattle.ppc_text.specs.Operands.{reach_of as reach_of_lem};
ghost use Rattle.ppc_text.specs.Shapes.{parts_of as parts_of_lem};
ghost use Rattle.ppc_text.specs.Shown.{field_at, signed_text, part_text, operands_text, if_set, ending_text, text_of, AreShort, width_of, widths};

use crate::mnemonic::{Endings, mnemonic_of, name_of};
use crate::part::{Part, Reach, Shape, parts_of};
use itoa::Buffer;
use ppc_word::Insn;
use wind_base::OutBuf;
use wind_base::text::add;

fn put_decimal(out: &mut OutBuf, number: u32)
    requires small { number < 10 ^ 8 }
    requires room { 8 ≤ out.old.room }
    ensures { Added 8 out.old out.new (decimal number) }
{
    let mut digits = Buffer::new();
    add(out, digits.format(number).as_bytes());
}

// A two's complement number: below `least` it is itself, else it is less by twice `least`.
#[tactic(auto, unfolding(crate::specs::Shown::signed_text))]
fn put_signed(out: &mut OutBuf, least: u32, number: u32)
    requires least { least ≤ 2 ^ 25 }
    requires small { number < 2 ^ 26 }
    requires room { 9 ≤ out.old.room }
    ensures { Added 9 out.old out.new (signed_text least number) }
{
    if number < least {
        put_decimal(out, number);
    } else {
        add(out, b"-");
        put_decimal(out, (2 * least).saturating_sub(number));
    }
}

// The field at a place; 0 if the place is out of range.
fn field(fields: &[u32; 6], place: usize) -> u32
    ensures value { result ≡ field_at fields.now place }
    ensures short { AreShort fields.now → result < 2 ^ 24 }
{
    match fields.get(place) {
        Some(field) => *field,
        None => 0,
    }
}

fn put_register(out: &mut OutBuf, number: u32)
    requires small { number < 10 ^ 8 }
    requires room { 9 ≤ out.old.room }
    ensures { Added 9 out.old out.new (codes "r" ++ decimal number) }
{
    add(out, b"r");
    put_decimal(out, number);
}

fn reach_of(reach: Reach) -> u32
    ensures value { result ≡ reach_of_lem reach }
    ensures least { result ≤ 2 ^ 25 }
{
    match reach {
        Reach::Long => 0x200_0000,
        Reach::Short => 0x8000,
    }
}

#[tactic(auto, unfolding(crate::specs::Shown::part_text))]
fn put_part(out: &mut OutBuf, part: Part, fields: &[u32; 6])
    requires short { AreShort fields.now }
    requires room { width_of part ≤ out.old.room }
    ensures { Added (width_of part) out.old out.new (part_text fields.now part) }
{
    match part {
        Part::Comma => add(out, b", "),
        Part::Open => add(out, b"("),
        Part::Close => add(out, b")"),
        Part::Register(place) | Part::Twice(place, _) => {
            put_register(out, field(fields, place as usize));
        }
        Part::Number(place, _) | Part::Unsigned(place) => {
            put_decimal(out, field(fields, place as usize));
        }
        Part::Special(place) => put_special(out, field(fields, place as usize)),
        Part::Signed(place, _) => put_signed(out, 0x8000, field(fields, place as usize)),
        Part::Target(place, reach) => {
            put_signed(out, reach_of(reach), field(fields, place as usize) * 4);
        }
        Part::Fixed(_, _) => {}
    }
}

fn put_special(out: &mut OutBuf, field: u32)
    requires small { field < 2 ^ 24 }
    requires room { 9 ≤ out.old.room }
    ensures { Added 9 out.old out.new (decimal (special_of_lem field)) }
{
    put_decimal(out, field % 32 * 32 + field / 32);
}

fn put_all(out: &mut OutBuf, parts: &[Part], fields: &[u32; 6])
    requires short { AreShort fields.now }
    requires room { widths parts.now ≤ out.old.room }
    ensures { Added (widths parts.now) out.old out.new (flat_map (part_text fields.now) parts.now) }
{
    let [part, rest @ ..] = parts else {
        return;
    };
    put_part(out, *part, fields);
    put_all(out, rest, fields);
}

#[tactic(auto, unfolding(crate::specs::Shown::operands_text), using(crate::proofs::Widths::narrow))]
fn put_operands(out: &mut OutBuf, shape: Shape, fields: &[u32; 6])
    requires short { AreShort fields.now }
    requires room { 54 ≤ out.old.room }
    ensures { Added 54 out.old out.new (operands_text fields.now (parts_of_lem shape)) }
{
    let parts = parts_of(shape);
    if !parts.is_empty() {
        add(out, b" ");
        put_all(out, parts, fields);
    }
}

// Adds a letter of an ending if its field is 1.
fn put_if_set(out: &mut OutBuf, fields: &[u32; 6], place: usize, letter: u8)
    requires { 1 ≤ out.old.room }
    ensures { Added 1 out.old out.new (if_set fields.now place (letter ∷ [])) }
{
    if field(fields, place) == 1 {
        add(out, &[letter]);
    }
}

#[tactic(auto, unfolding(crate::specs::Shown::ending_text))]
fn put_ending(out: &mut OutBuf, endings: Endings, fields: &[u32; 6])
    requires { 2 ≤ out.old.room }
    ensures { Added 2 out.old out.new (ending_text fields.now endings) }
{
    match endings {
        Endings::Bare => {}
        Endings::Record(place) => put_if_set(out, fields, place as usize, b'.'),
        Endings::Overflow(place) => {
            put_if_set(out, fields, place as usize, b'o');
            put_if_set(out, fields, place as usize + 1, b'.');
        }
        Endings::Link(place) => put_if_set(out, fields, place as usize, b'l'),
        Endings::LinkAbsolute(place) => {
            put_if_set(out, fields, place as usize + 1, b'l');
            put_if_set(out, fields, place as usize, b'a');
        }
    }
}

/// Adds an instruction as source text, at most 64 bytes: the mnemonic, a blank, and the operands in decimal, with a
/// blank after each comma. Signed operands and branch displacements have a sign if they are negative. Short forms
/// aren't used.
#[tactic(auto, unfolding(crate::specs::Shown::text_of), using(crate::proofs::Widths::short_fields))]
pub fn show(insn: &Insn, out: &mut OutBuf)
    requires { 64 ≤ out.old.room }
    ensures { Added 64 out.old out.new (text_of insn.now) }
{
    let mnemonic = mnemonic_of(insn.row);
    add(out, name_of(mnemonic));
    put_ending(out, mnemonic.endings, &insn.fields);
    put_operands(out, mnemonic.shape, &insn.fields);
}

/// The law of `show`: `parse` reads the text that it adds as a line with this instruction and no label.
#[tactic(auto, using(crate::proofs::Again::parsed, crate::proofs::Unbroken::unbroken))]
pub fn shown_law()
    ensures shown { ShownLaw }
    ensures line { LineLaw }
{}
