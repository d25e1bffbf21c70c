//! The times that a line names.

ghost use Rattle.std.specs.Prelude.{◌≡◌, ◌==◌, ◌≤◌, ◌<◌, length};
ghost use Rattle.std.specs.List.{position_or_len};
ghost use Rattle.wind_base.specs.Limits.{greatest_word};
ghost use Rattle.tick_family.specs.Inside.{IsTimes, IsSmall};
ghost use Rattle.tick_family.specs.Times.{time_at as time_at_lem, one_time as one_time_lem, range_of as range_of_lem, before_byte as before_byte_lem, from_byte as from_byte_lem, single as single_lem, range_in as range_in_lem, step_in as step_in_lem, range_to as range_to_lem, times_of};

use crate::fault::Fault;
use tick_file::number;
use wind_base::bytes_after;

/// One time, or a range of times, in units of board time.
#[derive(Clone, Copy, Debug, PartialEq, Eq)]
pub struct Times {
    /// The first time.
    pub first: u64,
    /// The distance of each two times, at least 1.
    pub step: u64,
    /// How many times there are, at least 1.
    pub count: u64,
}

/// Time number `place`, counted from 0.
pub(crate) fn time_at(times: Times, place: u64) -> u64
    requires times { IsTimes times }
    requires inside { place < times.count }
    ensures value { result ≡ time_at_lem times place }
    ensures fits { result ≤ greatest_word }
{
    let offset = place * times.step;
    times.first + offset
}

/// The times of a single number.
pub(crate) fn one_time(time: u64) -> Times
    ensures { result ≡ one_time_lem time }
{
    Times {
        first: time,
        step: 1,
        count: 1,
    }
}

// The first time, and each `step`-th one after it, up to the last.
fn range_of(first: u64, last: u64, step: u64) -> Result<Times, Fault>
    requires { last ≤ greatest_word }
    ensures { result ≡ range_of_lem first last step }
{
    if last < first {
        return Err(Fault::EndsEarly);
    }
    if step == 0 {
        return Err(Fault::StepOfZero);
    }
    Ok(Times {
        first,
        step,
        count: (last - first) / step + 1,
    })
}

// How many bytes of a text stand before the first such byte.
fn length_before(byte: u8, text: &[u8]) -> usize
    ensures exact { result ≡ position_or_len (λ b. b == byte) text.now }
    ensures inside { result ≤ length text.now }
{
    text.iter().take_while(|other| **other != byte).count()
}

/// The bytes of a text before the first such byte, or all.
pub(crate) fn before_byte(byte: u8, text: &[u8]) -> &[u8]
    ensures { result.now ≡ before_byte_lem byte text.now }
{
    &text[..length_before(byte, text)]
}

// The bytes of a text from the first such byte on.
fn from_byte(byte: u8, text: &[u8]) -> &[u8]
    ensures { result.now ≡ from_byte_lem byte text.now }
{
    bytes_after(text, length_before(byte, text))
}

// The times of a number, if there is one.
fn single(number: Option<u64>) -> Result<Times, Fault>
    ensures { result ≡ single_lem number }
{
    match number {
        Some(time) => Ok(one_time(time)),
        None => Err(Fault::NotUnderstood),
    }
}

// The range of three numbers, if there are all three.
fn range_in(first: Option<u64>, last: Option<u64>, step: Option<u64>) -> Result<Times, Fault>
    requires { IsSmall last }
    ensures { result ≡ range_in_lem first last step }
{
    match (first, last, step) {
        (Some(first), Some(last), Some(step)) => range_of(first, last, step),
        _ => Err(Fault::NotUnderstood),
    }
}

// The step of a range, from what stands after its last number.
fn step_in(text: &[u8]) -> Option<u64>
    ensures { result ≡ step_in_lem text.now }
{
    match text {
        [] => Some(1),
        [_, digits @ ..] => number(digits),
    }
}

// The range of a first number and of what stands after the two dots.
fn range_to(first: Option<u64>, text: &[u8]) -> Result<Times, Fault>
    ensures { result ≡ range_to_lem first text.now }
{
    let last = number(before_byte(b'/', text));
    range_in(first, last, step_in(from_byte(b'/', text)))
}

/// The times that a word names.
#[tactic(auto, unfolding(crate::specs::Times::times_of))]
pub(crate) fn times_named(word: &[u8]) -> Result<Times, Fault>
    ensures { result ≡ times_of word.now }
{
    let first = number(before_byte(b'.', word));
    match from_byte(b'.', word) {
        [] => single(first),
        [b'.', b'.', text @ ..] => range_to(first, text),
        _ => Err(Fault::NotUnderstood),
    }
}
