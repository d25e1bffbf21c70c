//! The draft of a module, made line by line from a source text.

ghost use Rattle.std.specs.Prelude.{◌≡◌, ℕ, List, [], ◌∷◌, ◌++◌, ◌+◌, ◌<◌, Option, None, Ok, OnOk, IfOk, IfErr, length, if◌then◌else◌, ◌==◌, false, nat_lt};
ghost use Rattle.ppc_text.specs.declared.line.Line.{Line};
ghost use Rattle.ppc_text.specs.Lines.{line_of};
ghost use Rattle.asm_lines.specs.Items.{Placed, next, section_after};
ghost use Rattle.asm_lines.specs.Names.{defined, label_at, label_names};
ghost use Rattle.asm_lines.specs.Causes.{is_twice, is_bad_word as is_bad_word_lem, longest_section, takes_instruction, item_cause, cause_of, judged, items, Tells};
ghost use Rattle.asm_lines.specs.Drafts.{IsDraft, IsSmall, AreNames, exceeds as exceeds_lem};

use crate::error::{AsmErr, Cause};
use crate::names::{Label, Names};
use crate::section::{Section, put_item};
use ppc_text::{Item, Line, Word, insn_of, parse};
use std::alloc::{AllocError, Global};
use wind_base::{bytes_after, line_len};

/// The most bytes of a section: 1 MiB.
const SECTION_BYTES: usize = 0x10_0000;

/// The most names, and the most relocations, that a module may have.
const MOST: usize = 65_535;

/// The text section's number.
const TEXT: u32 = 0;

/// The data section's number.
const DATA: u32 = 1;

/// What the lines so far make.
#[derive(Drop)]
pub struct Draft<'a> {
    /// The section that the lines end in: 0 for text, 1 for data.
    pub section: u32,
    /// The text section.
    pub text_part: Section<'a>,
    /// The data section.
    pub data_part: Section<'a>,
    /// The labels, in the order of their lines.
    pub labels: Vec<Label<'a>>,
    /// The names.
    pub names: Names<'a>,
}

fn section_after_item(item: &Item, section: u32) -> u32
    ensures { result ≡ section_after item.now section }
{
    match item {
        Item::Text => TEXT,
        Item::Data => DATA,
        _ => section,
    }
}

fn is_bad_word(item: &Item) -> bool
    ensures { result ≡ is_bad_word_lem item.now }
{
    match item {
        Item::Instruction(insn) => insn_of(insn.row, insn.fields).is_none(),
        _ => false,
    }
}

fn put_label<'a>(
    labels: &mut Vec<Label<'a>>,
    label: &Option<Word<'a>>,
    section: u32,
    offset: u32,
) -> Result<(), AllocError>
    ensures { OnOk result (labels.new.items ≡ labels.old.items ++ label_at label.now section offset) }
{
    let Some(name) = label else {
        return Ok(());
    };
    labels.push(Label {
        name: name.again(),
        section,
        offset,
    })?;
    Ok(())
}

fn define<'a>(names: &mut Names<'a>, label: &Option<Word<'a>>) -> Result<(), AllocError>
    ensures { OnOk result ((all labelled global : List (List ℕ)) → AreNames names.old all labelled global
        → AreNames names.new (all ++ label_names label.now) (labelled ++ label_names label.now) global) }
{
    match label {
        Some(name) => {
            names.define(name)?;
            Ok(())
        }
        None => Ok(()),
    }
}

fn new_draft<'a>(alloc: Global) -> Draft<'a>
    ensures draft { IsDraft result [] }
    ensures small { IsSmall result }
{
    let text_part = Section::new(alloc);
    let data_part = Section::new(alloc);
    let labels = Vec::new(alloc);
    let names = Names::new(alloc);
    Draft {
        section: TEXT,
        text_part,
        data_part,
        labels,
        names,
    }
}

// The number of bytes of the section that the lines end in.
fn size(draft: &Draft) -> usize
    ensures { result ≡ (if draft.now.section == 0 then length draft.now.text_part.bytes.items else length draft.now.data_part.bytes.items) }
{
    if draft.section == TEXT {
        draft.text_part.bytes.len()
    } else {
        draft.data_part.bytes.len()
    }
}

fn is_long(section: &Section) -> bool
    ensures { result ≡ nat_lt longest_section (length section.now.bytes.items) }
{
    section.bytes.len() > SECTION_BYTES
}

// Whether the draft exceeds a limit of a module.
#[tactic(auto, unfolding(crate::specs::Drafts::exceeds))]
fn exceeds(draft: &Draft) -> bool
    ensures { result ≡ exceeds_lem draft.now }
{
    is_long(&draft.text_part)
        || is_long(&draft.data_part)
        || draft.names.entries.len() > MOST
        || draft.labels.len() > MOST
        || draft.text_part.fixes.len() + draft.data_part.fixes.len() > MOST
}

// Whether an instruction may come next.
fn takes(draft: &Draft) -> bool
    ensures { (ps : List Placed) → IsDraft draft.now ps → result ≡ takes_instruction ps }
{
    draft.section == TEXT && draft.text_part.bytes.len() % 4 == 0
}

fn cause_in_item(draft: &Draft, item: &Item) -> Option<Cause>
    ensures exact { (ps : List Placed) → IsDraft draft.now ps → result ≡ item_cause ps item.now }
    ensures word { result ≡ None → is_bad_word_lem item.now ≡ false }
{
    match item {
        Item::Instruction(_) => {
            if !takes(draft) {
                Some(Cause::BadPlace)
            } else if is_bad_word(item) {
                Some(Cause::BadWord)
            } else {
                None
            }
        }
        _ => None,
    }
}

fn is_defined_twice(names: &Names, label: &Option<Word>) -> bool
    ensures { (ps : List Placed) (all global : List (List ℕ)) → AreNames names.now all (defined ps) global
        → result ≡ is_twice ps label.now }
{
    match label {
        Some(name) => names.labelled.has(name.bytes()),
        None => false,
    }
}

// Adds a line after the others.
fn put<'a>(draft: &mut Draft<'a>, line: &Line<'a>) -> Result<(), AllocError>
    requires small { IsSmall draft.old }
    requires word { is_bad_word_lem line.now.item ≡ false }
    ensures { OnOk result ((ps : List Placed) → IsDraft draft.old ps
        → IsDraft draft.new (ps ++ next ps line.now ∷ [])) }
{
    let offset = size(draft) as u32;
    put_label(&mut draft.labels, &line.label, draft.section, offset)?;
    define(&mut draft.names, &line.label)?;
    draft.names.mention_item(&line.item)?;
    draft.section = section_after_item(&line.item, draft.section);
    if draft.section == TEXT {
        put_item(&mut draft.text_part, &line.item)?;
        Ok(())
    } else {
        put_item(&mut draft.data_part, &line.item)?;
        Ok(())
    }
}

// Adds a line after the others, or answers the first cause for which it is refused. After a cause, the draft is
// unspecified.
fn add<'a>(draft: &mut Draft<'a>, line: &Line<'a>) -> Result<Option<Cause>, AllocError>
    requires { IsSmall draft.old }
    ensures cause { IfOk result (λ cause. (ps : List Placed) → IsDraft draft.old ps → cause ≡ cause_of ps line.now) }
    ensures added { IfOk result (λ cause. cause ≡ None → (ps : List Placed) → IsDraft draft.old ps
        → IsDraft draft.new (ps ++ next ps line.now ∷ [])) }
    ensures small { IfOk result (λ cause. cause ≡ None → IsSmall draft.new) }
{
    let cause = cause_in_item(draft, &line.item);
    if cause.is_some() {
        return Ok(cause);
    }
    if is_defined_twice(&draft.names, &line.label) {
        return Ok(Some(Cause::Twice));
    }
    put(draft, line)?;
    if exceeds(draft) {
        Ok(Some(Cause::TooLarge))
    } else {
        Ok(None)
    }
}

// Reads a line and adds it after the others, or refuses it. `number` is its number, counted from 1.
fn judge<'a>(
    alloc: Global,
    draft: &mut Draft<'a>,
    number: u64,
    bytes: &'a [u8],
) -> Result<(), AsmErr>
    requires { IsSmall draft.old }
    ensures small { OnOk result (IsSmall draft.new) }
    ensures good { OnOk result ((ps : List Placed) → IsDraft draft.old ps → (qs : List Placed) × IsDraft draft.new qs
        × ((ls : List (Option Line)) → judged ps number (line_of bytes.now ∷ ls) ≡ judged qs (number + 1) ls)) }
    ensures bad { IfErr result (λ error. (ps : List Placed) → IsDraft draft.old ps → (ls : List (Option Line))
        → Tells (judged ps number (line_of bytes.now ∷ ls)) error) }
{
    let Ok(line) = parse(alloc, bytes) else {
        return Err(AsmErr::NoMemory);
    };
    let Some(line) = line else {
        return Err(AsmErr::Bad(number, Cause::BadLine));
    };
    let Ok(cause) = add(draft, &line) else {
        return Err(AsmErr::NoMemory);
    };
    match cause {
        Some(cause) => Err(AsmErr::Bad(number, cause)),
        None => Ok(()),
    }
}

/// Makes the draft of a source text. The error is the first refused line, counted from 1, with its first cause, or that
/// host memory ran out.
pub fn draft_of<'a>(alloc: Global, text: &'a [u8]) -> Result<Draft<'a>, AsmErr>
    ensures good { IfOk result (λ draft. (ps : List Placed) × IsDraft draft ps × IsSmall draft
        × (items text.now ≡ Ok ps)) }
    ensures bad { IfErr result (Tells (items text.now)) }
{
    let mut draft = new_draft(alloc);
    let mut number = 1;
    let mut left = text;
    let mut len = line_len(left);
    while len < left.len() {
        if let Err(error) = judge(alloc, &mut draft, number, &left[..len]) {
            return Err(error);
        }
        number += 1;
        left = bytes_after(left, len + 1);
        len = line_len(left);
    }
    match judge(alloc, &mut draft, number, left) {
        Ok(()) => Ok(draft),
        Err(error) => Err(error),
    }
}
