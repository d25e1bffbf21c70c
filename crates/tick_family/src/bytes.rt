//! The lines of a member's tick file.

ghost use Rattle.std.specs.Prelude.{◌≡◌, ◌+◌, ◌*◌, ◌≤◌, ◌∷◌, ◌++◌, [], length, OnOk};
ghost use Rattle.std.specs.Fmt.{decimal};
ghost use Rattle.wind_base.specs.Limits.{greatest_word, longest_text_file};
ghost use Rattle.tick_file.specs.Writing.{event_line};
ghost use Rattle.tick_family.specs.Members.{periodic};
ghost use Rattle.tick_family.specs.Reading.{text_length};
ghost use Rattle.tick_family.specs.Inside.{fitting, number_text};

use itoa::Buffer;
use std::alloc::AllocError;
use tick_file::Event;
use wind_base::limits::TEXT_FILE_BYTES;

/// The greatest length in bytes of a tick file.
const LONGEST: u64 = TEXT_FILE_BYTES as u64;

// The number of decimal digits of a number.
fn digits(number: u64) -> u64
    ensures value { result ≡ length (decimal number) }
    ensures few { result ≤ 40 }
{
    Buffer::new().format(number).len() as u64
}

/// The length in bytes of the line of an event at a time, with its end.
pub(crate) fn line_length(time: u64, event: Event) -> u64
    ensures value { result ≡ length (event_line time event) + 1 }
    ensures few { result ≤ 100 }
{
    match event {
        Event::Tick => 6 + digits(time),
        Event::Rx(bytes) => 5 + digits(time) + digits(u64::from(bytes)),
        Event::Irq(slot) => 6 + digits(time) + digits(u64::from(slot)),
    }
}

/// A length, if it is at most 1 MiB.
pub(crate) fn fitting_length(bytes: u64) -> Option<u64>
    ensures { result ≡ fitting bytes }
{
    if bytes > LONGEST { None } else { Some(bytes) }
}

/// The length of a text after the lines of `count` events one period apart, the first after one
/// period, all moved by a shift. `None` if it is over 1 MiB.
#[tactic(auto, using(crate::proofs::TextLemmas::product_small))]
pub(crate) fn periodic_length(
    used: u64,
    shift: u64,
    period: u64,
    count: u64,
    event: Event,
) -> Option<u64>
    requires used { used ≤ longest_text_file }
    requires shift { shift ≤ greatest_word }
    requires period { period ≤ greatest_word }
    requires count { count ≤ greatest_word }
    ensures { result ≡ fitting (used + text_length (periodic shift period event 1 count)) }
{
    let mut bytes = used;
    for done in 0..count {
        let time = (done + 1) * period + shift;
        bytes += line_length(time, event);
        if bytes > LONGEST {
            return None;
        }
    }
    Some(bytes)
}

// Adds a word, a time and a number to a text, with a blank between each two.
fn add_words(
    text: &mut Vec<u8>,
    word: &[u8],
    time: u64,
    number: Option<u32>,
) -> Result<(), AllocError>
    ensures { OnOk result (text.new.items ≡ text.old.items ++ (word.now ++ (decimal time ++ number_text number))) }
{
    text.extend_from_slice(word)?;
    text.extend_from_slice(Buffer::new().format(time).as_bytes())?;
    if let Some(number) = number {
        text.extend_from_slice(b" ")?;
        text.extend_from_slice(Buffer::new().format(number).as_bytes())?;
    }
    Ok(())
}

/// Adds the line of an event at a time, with its end.
pub(crate) fn add_line(text: &mut Vec<u8>, time: u64, event: Event) -> Result<(), AllocError>
    ensures { OnOk result (text.new.items ≡ text.old.items ++ (event_line time event ++ 10 ∷ [])) }
{
    match event {
        Event::Tick => add_words(text, b"tick ", time, None)?,
        Event::Rx(bytes) => add_words(text, b"rx ", time, Some(bytes))?,
        Event::Irq(slot) => add_words(text, b"irq ", time, Some(slot))?,
    }
    text.extend_from_slice(b"\n")?;
    Ok(())
}
