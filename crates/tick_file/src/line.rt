//! One line of a tick file.

ghost use Rattle.std.specs.Prelude.{◌≡◌};
ghost use Rattle.std.specs.List.{list_all};
ghost use Rattle.tick_file.specs.Grammar.{is_blank as is_blank_lem, first_word, after_word, word_number, tick_rule as tick_rule_lem, rx_rule as rx_rule_lem, every_rule as every_rule_lem, irq_rule as irq_rule_lem, irqs_rule as irqs_rule_lem, rule_of as rule_of_lem, is_comment as is_comment_lem, said as said_lem};

use crate::event::{Event, Rule, Said};
use source_text::Blanks;
use wind_base::decimal;
use wind_base::limits::SLOTS;

// What parts the words of a line.
const BLANKS: Blanks = Blanks::SpacesAndTabs;

// The largest number of a tick file.
const MOST: u64 = 4_294_967_295;

// The most bytes that arrive at one time.
const BYTES_MOST: u64 = 4_096;

// The most digits of a number.
const DIGITS: usize = 10;

/// The number that a text spells: 1 to 10 decimal digits, at most 4,294,967,295.
pub fn number(text: &[u8]) -> Option<u64>
    ensures { result ≡ word_number text.now }
{
    if text.len() > DIGITS {
        return None;
    }
    decimal(text, MOST)
}

// The number that the first word spells.
fn first_number(text: &[u8]) -> Option<u64>
    ensures { result ≡ word_number (first_word text.now) }
{
    number(BLANKS.first_word(text))
}

// The number that all after the first word and its blanks spells.
fn number_after(text: &[u8]) -> Option<u64>
    ensures { result ≡ word_number (after_word text.now) }
{
    number(BLANKS.after_word(text))
}

// The rule of what comes after `tick`.
fn tick_rule(text: &[u8]) -> Option<Rule>
    ensures { result ≡ tick_rule_lem text.now }
{
    let time = number(text)?;
    Some(Rule::At(time, Event::Tick))
}

// The rule of what comes after `rx`.
fn rx_rule(text: &[u8]) -> Option<Rule>
    ensures { result ≡ rx_rule_lem text.now }
{
    let time = first_number(text)?;
    let bytes = number_after(text)?;
    if bytes < 1 || bytes > BYTES_MOST {
        return None;
    }
    Some(Rule::At(time, Event::Rx(bytes as u32)))
}

// The rule of what comes after `every`.
fn every_rule(text: &[u8]) -> Option<Rule>
    ensures { result ≡ every_rule_lem text.now }
{
    let period = first_number(text)?;
    let count = number_after(text)?;
    if period < 1 || count < 1 {
        return None;
    }
    Some(Rule::Every(period, count, Event::Tick))
}

// The rule of what comes after `irq`.
fn irq_rule(text: &[u8]) -> Option<Rule>
    ensures { result ≡ irq_rule_lem text.now }
{
    let time = first_number(text)?;
    let slot = number_after(text)?;
    if slot >= SLOTS as u64 {
        return None;
    }
    Some(Rule::At(time, Event::Irq(slot as u32)))
}

// The rule of what comes after `irqs`.
fn irqs_rule(text: &[u8]) -> Option<Rule>
    ensures { result ≡ irqs_rule_lem text.now }
{
    let rest = BLANKS.after_word(text);
    let period = first_number(text)?;
    let count = first_number(rest)?;
    let slot = number_after(rest)?;
    if period < 1 || count < 1 || slot >= SLOTS as u64 {
        return None;
    }
    Some(Rule::Every(period, count, Event::Irq(slot as u32)))
}

// The rule of a line that is neither blank nor a comment.
fn rule_of(line: &[u8]) -> Option<Rule>
    ensures { result ≡ rule_of_lem line.now }
{
    let word = BLANKS.first_word(line);
    let rest = BLANKS.after_word(line);
    if word == b"tick".as_slice() {
        return tick_rule(rest);
    }
    if word == b"rx".as_slice() {
        return rx_rule(rest);
    }
    if word == b"every".as_slice() {
        return every_rule(rest);
    }
    if word == b"irq".as_slice() {
        return irq_rule(rest);
    }
    if word == b"irqs".as_slice() {
        return irqs_rule(rest);
    }
    None
}

// Whether a line consists of blanks and tabs.
fn is_empty(line: &[u8]) -> bool
    ensures { result ≡ list_all is_blank_lem line.now }
{
    line.iter().all(|byte| BLANKS.contains(*byte))
}

// Whether a line begins with `#`.
fn is_comment(line: &[u8]) -> bool
    ensures { result ≡ is_comment_lem line.now }
{
    match line {
        [first, ..] => *first == b'#',
        [] => false,
    }
}

/// What a line says.
#[tactic(auto, unfolding(crate::specs::Grammar::said))]
pub fn said(line: &[u8]) -> Said
    ensures { result ≡ said_lem line.now }
{
    if is_empty(line) || is_comment(line) {
        return Said::Nothing;
    }
    match rule_of(line) {
        Some(rule) => Said::Says(rule),
        None => Said::Outside,
    }
}
