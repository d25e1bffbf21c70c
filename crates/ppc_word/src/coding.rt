//! Decodes words to instructions, and encodes instructions to words.

ghost use Rattle.std.specs.Prelude.{◌≡◌, ◌<◌, ℕ, true, Some, IfSome, option_map};
ghost use Rattle.ppc_word.specs.Rows.{row_of, fields_of};
ghost use Rattle.ppc_word.specs.Words.{meets};
ghost use Rattle.ppc_word.specs.Table.{form_at, form_of};
ghost use Rattle.ppc_word.specs.Insn.{word_of};
ghost use Rattle.ppc_word.specs.Opcodes.{is_decided_by};
ghost use Rattle.ppc_word.specs.declared.insn.Insn.{Insn};

use crate::index::{place_by_opcode, place_for, place_for_31};
use crate::insn::Insn;
use crate::row::{ROWS, Row};
use crate::rule::Rule;
use crate::{table, word};

/// What the words of an instruction must meet besides the pieces of its form.
pub fn rule_of(row: Row) -> Rule
    ensures { result ≡ (form_of row).rule }
{
    table::pattern(table::place_of(row)).rule
}

/// The word of an instruction. `decode` gives the instruction back.
pub fn encode(insn: &Insn) -> u32
    ensures { result ≡ word_of insn.now }
{
    word::write(table::pattern(table::place_of(insn.row)), &insn.fields)
}

// The instruction decided by the primary opcode alone. None if the opcode has several instructions,
// or if its words have fixed bits or a rule.
#[tactic(auto, unfolding(crate::specs::Opcodes::is_decided_by, crate::specs::Table::table, crate::specs::Table::number))]
#[inline(always)]
fn row_by_opcode(opcode: u32) -> Option<Row>
    ensures { IfSome result (λ row. is_decided_by row opcode ≡ true) }
{
    match opcode {
        3 => Some(Row::Twi),
        7 => Some(Row::Mulli),
        8 => Some(Row::Subfic),
        12 => Some(Row::Addic),
        13 => Some(Row::AddicDot),
        14 => Some(Row::Addi),
        15 => Some(Row::Addis),
        16 => Some(Row::Bc),
        18 => Some(Row::B),
        20 => Some(Row::Rlwimi),
        21 => Some(Row::Rlwinm),
        23 => Some(Row::Rlwnm),
        24 => Some(Row::Ori),
        25 => Some(Row::Oris),
        26 => Some(Row::Xori),
        27 => Some(Row::Xoris),
        28 => Some(Row::Andi),
        29 => Some(Row::Andis),
        32 => Some(Row::Lwz),
        34 => Some(Row::Lbz),
        36 => Some(Row::Stw),
        38 => Some(Row::Stb),
        40 => Some(Row::Lhz),
        42 => Some(Row::Lha),
        44 => Some(Row::Sth),
        47 => Some(Row::Stmw),
        _ => None,
    }
}

// The instruction of a word that can match only the form at this place.
#[inline(always)]
fn row_at(place: usize, word: u32) -> Option<Row>
    requires within { place < ROWS }
    requires only { (k : ℕ) → k < ROWS → meets (form_at k).pieces word ≡ true → place ≡ k }
    ensures { result ≡ row_of word }
{
    let pattern = table::pattern(place);
    if word::fits(pattern, word) {
        Some(pattern.row)
    } else {
        None
    }
}

/// The instruction of a word, without its fields. None if the word isn't in the table.
#[inline(always)]
pub fn row_for(word: u32) -> Option<Row>
    ensures { result ≡ row_of word }
{
    let opcode = word::part(word, 26, 6);
    if let Some(row) = row_by_opcode(opcode) {
        return Some(row);
    }
    // If the opcode is constant, the compiler knows the place, so it compares with constants and
    // reads no index.
    match opcode {
        10 => row_at(place_by_opcode(10, word), word),
        11 => row_at(place_by_opcode(11, word), word),
        33 => row_at(place_by_opcode(33, word), word),
        35 => row_at(place_by_opcode(35, word), word),
        37 => row_at(place_by_opcode(37, word), word),
        39 => row_at(place_by_opcode(39, word), word),
        41 => row_at(place_by_opcode(41, word), word),
        43 => row_at(place_by_opcode(43, word), word),
        45 => row_at(place_by_opcode(45, word), word),
        31 => row_at(place_for_31(word), word),
        _ => row_at(place_for(word), word),
    }
}

// The fields of a word, read as a word of this instruction.
fn fields_for(row: Row, word: u32) -> [u32; 6]
    ensures { result ≡ fields_of row word }
{
    word::read(table::pattern(table::place_of(row)), word)
}

/// The instruction of a word. None if the word isn't in the table, that is, if it is the word of no
/// instruction.
pub fn decode(word: u32) -> Option<Insn>
    ensures row { option_map (λ i. i.row) result ≡ row_of word }
    ensures fields { IfSome result (λ i. i.fields ≡ fields_of i.row word) }
    ensures found { IfSome result (λ i. word_of i ≡ word) }
    ensures only { (i : Insn) → word_of i ≡ word → result ≡ Some i }
{
    let Some(row) = row_for(word) else {
        return None;
    };
    let fields = fields_for(row, word);
    Some(Insn { row, fields })
}
