//! The text of a call.

ghost use Rattle.std.specs.Prelude.{◌≡◌, ◌≤◌, ◌+◌, ◌++◌, [], length, map};
ghost use Rattle.wind_base.specs.Gates.{rules_of};
ghost use Rattle.wind_base.specs.OutBuf.{Added};
ghost use Rattle.call_text.specs.Texts.{call_text, most_call_text, name_text, printf_words as printf_words_lem, task_arguments, words_of as words_of_lem};
ghost use Rattle.call_text.specs.declared.word.Word.TheVariants as word;

use crate::word::Word::{Hex, Number, Rest, Unreadable};
use crate::word::{Word, add_list};
use arrayvec::ArrayVec;
use kernel_world::Call;
use wind_base::text::add;
use wind_base::{Gate, OutBuf, gate_table};

/// The text of a call has at most this many bytes.
pub const CALL_TEXT_BYTES: u32 = 256;

/// The words of a call: at most 15, those of taskSpawn.
pub type Words = ArrayVec<Word, 15>;

// Adds numbers for which there is room.
fn push_numbers(words: &mut Words, numbers: &[u32])
    requires { length words.old.items + length numbers.now ≤ 15 }
    ensures { words.new.items ≡ words.old.items ++ map word.Number numbers.now }
{
    for number in numbers {
        words.push(Number(*number));
    }
}

// These words, at most 15.
fn words(list: &[Word]) -> Words
    requires { length list.now ≤ 15 }
    ensures { result.items ≡ list.now }
{
    let mut words = Words::new();
    let _ = words.try_extend_from_slice(list);
    words
}

// These words, at most 5, and then the ten arguments of a task.
fn words_with(first: &[Word], arguments: Option<[u32; 10]>) -> Words
    requires { length first.now ≤ 5 }
    ensures { result.items ≡ first.now ++ task_arguments arguments }
{
    let mut all = words(first);
    match arguments {
        Some(arguments) => push_numbers(&mut all, &arguments),
        None => all.push(Unreadable),
    }
    all
}

// The words of printf: its format, the first seven values, and the rest.
fn printf_words(format: u32, values: [u32; 7]) -> Words
    ensures { result.items ≡ printf_words_lem format values }
{
    let mut all = words(&[Hex(format)]);
    push_numbers(&mut all, &values);
    all.push(Rest);
    all
}

// The words of these arguments, each in its form.
macro_rules! shown {
    ([] $format:ident: Hex, $values:ident: Seven,) => {
        printf_words($format, $values)
    };
    ([$($first:tt)*] $arguments:ident: Ten,) => {
        words_with(&[$($first)*], $arguments)
    };
    ([$($first:tt)*] $arguments:ident: Nine,) => {
        words_with(&[$($first)*], $arguments)
    };
    ([$($first:tt)*] $field:ident: $form:ident, $($left:tt)*) => {
        shown!([$($first)* $form($field),] $($left)*)
    };
    ([$($all:tt)*]) => {
        words(&[$($all)*])
    };
}

// The words of each call, from its arguments.
macro_rules! all_words {
    (($called:ident)
        $($back:literal $return:ident;)* =>
        $($number:literal $call:ident $name:literal ($($field:ident: $form:ident),*)
            $callers:ident $refusal:ident $memory:literal;)*
    ) => {
        match *$called {
            $(Call::$call { $($field,)* .. } => shown!([] $($field: $form,)*),)*
        }
    };
}

/// The words of a call, in the order of its arguments.
pub fn words_of(call: &Call) -> Words
    ensures { result.items ≡ words_of_lem call.now }
{
    gate_table!(all_words call)
}

// Adds the name of a gate's call: at most 16 bytes.
fn add_name(out: &mut OutBuf, gate: Gate)
    requires { 16 ≤ out.old.room }
    ensures { Added 16 out.old out.new (name_text (rules_of gate).name) }
{
    if let Some(name) = gate.name() {
        add(out, name.as_bytes());
    }
}

/// Adds the text of a call, as `semTake(2, -1)`. Addresses and error numbers are shown in
/// hexadecimal digits, all other words in signed decimal digits. `taskSpawn` and `sp` show `?` in
/// place of the ten arguments if a byte of them is outside RAM. `printf` shows the address of its
/// format, the seven values in registers, whether or not the format uses them, and `..` for those
/// on the stack.
#[tactic(auto, unfolding(crate::specs::Texts::call_text))]
pub fn add_call(out: &mut OutBuf, call: &Call)
    requires { most_call_text ≤ out.old.room }
    ensures { Added most_call_text out.old out.new (call_text call.now) }
{
    add_name(out, call.gate());
    add(out, b"(");
    add_list(out, &words_of(call));
    add(out, b")");
}
