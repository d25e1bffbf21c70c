//! What a generated session plays.

ghost use Rattle.std.specs.Prelude.{◌≡◌, ◌++◌, ◌≤◌, IfOk, OnOk, string_bytes};
ghost use Rattle.tick_file.specs.Schedule.{timetable_of};
ghost use Rattle.generated_session.specs.Session.{most_rounds, round, rounds as rounds_lem, generated_console, generated_ticks};

use std::alloc::{AllocError, Global};
use std::fmt::Write;
use tick_file::{Schedule, TickErr, grammar_law, read_ticks};
use wind_base::NoMemory;

// How many ticks come in addition to those for which the rounds wait.
const MORE_TICKS: u32 = 8;

// Adds the lines of round `k` to a text.
fn add_round(text: &mut String, k: u32) -> Result<(), AllocError>
    ensures { OnOk result (string_bytes text.new ≡ string_bytes text.old ++ round k) }
{
    write!(
        text,
        "g = g + {k} * {k}\nsp semTake, m, {k} % 5 + 1\ntaskDelay 1\n"
    )
}

// Adds the lines of rounds 1 to `rounds` to a text.
fn add_rounds(text: &mut String, rounds: u32) -> Result<(), AllocError>
    requires { rounds ≤ most_rounds }
    ensures { OnOk result (string_bytes text.new ≡ string_bytes text.old ++ rounds_lem rounds) }
{
    for made in 0..rounds {
        add_round(text, made + 1)?;
    }
    Ok(())
}

// The console, as a text.
#[tactic(auto, unfolding(crate::specs::Session::generated_console))]
fn text_of(alloc: Global, rounds: u32) -> Result<String, AllocError>
    requires { rounds ≤ most_rounds }
    ensures { IfOk result (λ text. string_bytes text ≡ generated_console rounds) }
{
    let mut text = "g = 0\nm = semMCreate(13)\n".to_string(alloc)?;
    add_rounds(&mut text, rounds)?;
    text.push_str("g\n")?;
    Ok(text)
}

/// The bytes of the console of a session with this many rounds, at most 10,000.
pub fn console_of(alloc: Global, rounds: u32) -> Result<Vec<u8>, NoMemory>
    requires { rounds ≤ most_rounds }
    ensures { IfOk result (λ bytes. bytes.items ≡ generated_console rounds) }
{
    match text_of(alloc, rounds) {
        Ok(text) => Ok(text.into_bytes()),
        Err(AllocError) => Err(NoMemory),
    }
}

// The tick file of a session with this many rounds.
#[tactic(auto, unfolding(crate::specs::Session::generated_ticks))]
fn ticks_of(alloc: Global, rounds: u32) -> Result<String, AllocError>
    requires { rounds ≤ most_rounds }
    ensures { IfOk result (λ text. string_bytes text ≡ generated_ticks rounds) }
{
    let count = rounds + MORE_TICKS;
    format!(in alloc; "every 100 {count}")
}

/// The schedule of a session with this many rounds, at most 10,000. Its tick file has one valid
/// line, so the only error is that memory runs out.
pub fn schedule_of(alloc: Global, rounds: u32) -> Result<Schedule, NoMemory>
    requires { rounds ≤ most_rounds }
    ensures { IfOk result (λ schedule. schedule ≡ timetable_of (generated_ticks rounds)) }
{
    let text = ticks_of(alloc, rounds)?;
    grammar_law();
    match read_ticks(alloc, text.as_bytes()) {
        Ok(schedule) => Ok(schedule),
        Err(TickErr::BadLine(_)) => unreachable!(),
        Err(TickErr::NoMemory) => Err(NoMemory),
    }
}
