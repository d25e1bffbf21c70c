//! The text of a coverage.

ghost use Rattle.std.specs.Prelude.{◌≡◌, ◌++◌, ◌∷◌, ◌+◌, ◌≤◌, ◌^◌, Bool, List, None, length, OnOk, IfOk};
ghost use Rattle.trace_text.specs.Pieces.{word_hex};
ghost use Rattle.trace_coverage.specs.Text.{begun_at as begun_at_lem, count_text, ended_at, module_line, module_text, modules_text, range_line, range_lines, ranges_from, text_if_gone, texts_of_gone};

use crate::covered::Covered;
use crate::table::is_live;
use module_loader::Modules;
use trace_text::{add, add_decimal, add_escaped};
use wind_base::NoMemory;

// The size of a word in bytes.
const WORD_BYTES: u64 = 4;

// Adds an address as `0x` and its hexadecimal digits. The address after the last word can be 2^32.
fn add_address(text: &mut Vec<u8>, at: u64) -> Result<(), NoMemory>
    ensures { OnOk result (text.new.items ≡ text.old.items ++ word_hex at) }
{
    let digits = match format!(in *text.allocator(); "{at:x}") {
        Ok(digits) => digits,
        Err(_) => return Err(NoMemory),
    };
    add(text, b"0x")?;
    add(text, digits.as_bytes())
}

// Adds the line of a range.
fn add_range(text: &mut Vec<u8>, from: u64, to: u64) -> Result<(), NoMemory>
    ensures { OnOk result (text.new.items
        ≡ text.old.items ++ range_line (record { from = from; to = to })) }
{
    add(text, b"  ")?;
    add_address(text, from)?;
    add(text, b"..")?;
    add_address(text, to)?;
    add(text, b"\n")
}

// Where the range began that has a word at this address.
fn begun_at(begun: Option<u64>, at: u64) -> u64
    ensures { result ≡ begun_at_lem begun at }
{
    match begun {
        Some(from) => from,
        None => at,
    }
}

// Adds the line of the range that ends before this address, if one does.
fn add_ended(text: &mut Vec<u8>, begun: Option<u64>, at: u64) -> Result<(), NoMemory>
    ensures { OnOk result (text.new.items ≡ text.old.items ++ range_lines (ended_at begun at)) }
{
    match begun {
        Some(from) => add_range(text, from, at),
        None => Ok(()),
    }
}

// Goes on by a word at this address, and adds the line of a range that ends before it. Returns
// where the range began that goes on, if one does.
fn add_word(
    text: &mut Vec<u8>,
    begun: Option<u64>,
    at: u64,
    is_executed: bool,
) -> Result<Option<u64>, NoMemory>
    ensures { IfOk result (λ o. (words : List Bool) → text.new.items ++ range_lines (ranges_from o (at + 4) words)
        ≡ text.old.items ++ range_lines (ranges_from begun at (is_executed ∷ words))) }
{
    if is_executed {
        return Ok(Some(begun_at(begun, at)));
    }
    add_ended(text, begun, at)?;
    Ok(None)
}

// Adds the lines of the ranges of words that were executed. The first word is at this address.
fn add_ranges(text: &mut Vec<u8>, start: u32, words: &[bool]) -> Result<(), NoMemory>
    requires { length words.now ≤ 2 ^ 30 }
    ensures { OnOk result (text.new.items
        ≡ text.old.items ++ range_lines (ranges_from None start words.now)) }
{
    let mut at = u64::from(start);
    let mut begun = None;
    for is_executed in words {
        begun = add_word(text, begun, at, *is_executed)?;
        at += WORD_BYTES;
    }
    add_ended(text, begun, at)
}

// Adds how many of how many words were executed.
fn add_count(text: &mut Vec<u8>, words: &[bool]) -> Result<(), NoMemory>
    ensures { OnOk result (text.new.items ≡ text.old.items ++ count_text words.now) }
{
    let count = words.iter().filter(|word| **word).count();
    add_decimal(text, count as u64)?;
    add(text, b" of ")?;
    add_decimal(text, words.len() as u64)?;
    add(text, b" words\n")
}

// Adds the line of a module.
fn add_line(text: &mut Vec<u8>, covered: &Covered) -> Result<(), NoMemory>
    ensures { OnOk result (text.new.items ≡ text.old.items ++ module_line covered.now) }
{
    add(text, b"module ")?;
    add_decimal(text, u64::from(covered.id().get()))?;
    add(text, b" \"")?;
    add_escaped(text, covered.name())?;
    add(text, b"\" text ")?;
    add_address(text, u64::from(covered.start()))?;
    add(text, b": ")?;
    add_count(text, covered.executed())
}

// Adds a module, with its ranges in the lines after it.
fn add_module(text: &mut Vec<u8>, covered: &Covered) -> Result<(), NoMemory>
    ensures { OnOk result (text.new.items ≡ text.old.items ++ module_text covered.now) }
{
    add_line(text, covered)?;
    add_ranges(text, covered.start(), covered.executed())
}

/// Adds modules, each with its ranges.
pub(crate) fn add_modules(text: &mut Vec<u8>, list: &[Covered]) -> Result<(), NoMemory>
    ensures { OnOk result (text.new.items ≡ text.old.items ++ modules_text list.now) }
{
    for covered in list {
        add_module(text, covered)?;
    }
    Ok(())
}

// Adds a module if it isn't in the table.
fn add_if_gone(text: &mut Vec<u8>, covered: &Covered, modules: &Modules) -> Result<(), NoMemory>
    ensures { OnOk result (text.new.items ≡ text.old.items ++ text_if_gone modules.now.rows covered.now) }
{
    if is_live(modules, covered) {
        return Ok(());
    }
    add_module(text, covered)
}

/// Adds each module that isn't in the table.
pub(crate) fn add_gone(
    text: &mut Vec<u8>,
    list: &[Covered],
    modules: &Modules,
) -> Result<(), NoMemory>
    ensures { OnOk result (text.new.items ≡ text.old.items ++ texts_of_gone modules.now.rows list.now) }
{
    for covered in list {
        add_if_gone(text, covered, modules)?;
    }
    Ok(())
}
