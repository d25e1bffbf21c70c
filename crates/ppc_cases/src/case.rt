//! One case: instructions, the state before them, and the state that must follow.

use crate::state::State;
use case_files::{Player, Trouble, number};
use ppc_core::exec;
use std::alloc::Global;

/// The greatest number of steps of a case.
const MOST_STEPS: u32 = 64;

/// Plays cases, each with a state of its own.
#[derive(Drop)]
pub struct Cases {
    alloc: Global,
}

impl Player for Cases {
    fn new(alloc: Global) -> Result<Cases, Trouble> {
        Ok(Cases { alloc })
    }

    /// Plays a line `NAME
    /// WORDS
    /// BEFORE
    /// AFTER`. What AFTER doesn't name is as before, except the program counter, which is after the
    /// last word.
    fn play(&mut self, line: &str) -> Result<Option<String>, Trouble> {
        let mut parts = line.split('|');
        let (Some(_name), Some(words), Some(before), Some(after), None) = (
            parts.next(),
            parts.next(),
            parts.next(),
            parts.next(),
            parts.next(),
        ) else {
            return Err(Trouble::Unreadable);
        };
        let code = code_of(self.alloc, words)?;
        let mut made = State::opening(self.alloc)?;
        let mut wanted = State::opening(self.alloc)?;
        if are_equal(&mut made, &mut wanted, &code, before, after)? {
            Ok(None)
        } else {
            Ok(Some(made.shown(self.alloc)?))
        }
    }
}

// Instruction words in hexadecimal digits.
fn code_of(alloc: Global, words: &str) -> Result<Vec<u32>, Trouble> {
    let mut code = Vec::new(alloc);
    for word in words.split_whitespace() {
        code.push(number(word)?)?;
    }
    Ok(code)
}

// Executes the instructions on one state, and compares it with the other.
fn are_equal(
    made: &mut State,
    wanted: &mut State,
    code: &[u32],
    before: &str,
    after: &str,
) -> Result<bool, Trouble>
    requires { Unit {0} }
{
    made.take(before)?;
    wanted.take(before)?;
    for _ in code {
        wanted.regs.pc = wanted.regs.pc.wrapping_add(4);
    }
    run(made, code);
    wanted.take(after)?;
    Ok(made.shows_as(wanted))
}

// Executes instructions until a trap, or until the program counter leaves the words.
fn run(state: &mut State, code: &[u32])
    requires { Unit {0} }
{
    let first = state.regs.pc;
    for _ in 0..MOST_STEPS {
        let place = state.regs.pc.wrapping_sub(first) / 4;
        let Some(word) = code.get(place as usize) else {
            return;
        };
        if let Err(trap) = exec(&mut state.regs, *word, &mut state.bus) {
            state.trap = Some(trap);
            return;
        }
    }
}
