//! Reads a tick file.

ghost use Rattle.std.specs.Prelude.{◌≡◌, ℕ, ◌++◌, not, None, Option, map, OnOk, IfOk, IfErr};
ghost use Rattle.std.specs.List.{list_all};
ghost use Rattle.tick_file.specs.Lines.{rule_at, bad_or, rules_of, first_bad_line, Tells};
ghost use Rattle.tick_file.specs.Schedule.{timetable_of, brings_bytes as brings_bytes_lem};
ghost use Rattle.tick_file.specs.Inside.{waiting_of};

use crate::event::{Said, brings_bytes};
use crate::line::said;
use crate::lines::first_line;
use crate::pending::{Pending, at_start};
use crate::schedule::Schedule;
use source_text::after_line;
use std::alloc::Global;
use std::cmp::Reverse;
use thiserror::Error;
use wind_base::NoMemory;

/// Why a tick file was not read.
#[derive(Clone, Copy, Debug, PartialEq, Eq, Error)]
pub enum TickErr {
    /// The number of the first invalid line, counted from 1.
    #[error("line {0} is not understood")]
    BadLine(u64),
    /// Host memory ran out.
    #[error("{NoMemory}")]
    NoMemory,
}

// Adds the rule of a line, if it has one.
fn keep(kept: &mut Vec<Reverse<Pending>>, line: u64, said: Said) -> Result<(), TickErr>
    ensures rule { OnOk result (kept.new.items ≡ kept.old.items ++ map waiting_of (rule_at line said)) }
    ensures good { OnOk result ((after : Option ℕ) → bad_or line after said ≡ after) }
    ensures bad { IfErr result (λ e. (after : Option ℕ) → Tells (bad_or line after said) e) }
{
    let rule = match said {
        Said::Outside => return Err(TickErr::BadLine(line)),
        Said::Nothing => return Ok(()),
        Said::Says(rule) => rule,
    };
    match kept.push(Reverse(at_start(line, rule))) {
        Ok(()) => Ok(()),
        Err(_) => Err(TickErr::NoMemory),
    }
}

// The rules of a text, each before its first event.
fn kept_rules(alloc: Global, text: &[u8]) -> Result<Vec<Reverse<Pending>>, TickErr>
    ensures rules { IfOk result (λ kept. kept.items ≡ map waiting_of (rules_of text.now)) }
    ensures good { OnOk result (first_bad_line text.now ≡ None) }
    ensures bad { IfErr result (Tells (first_bad_line text.now)) }
{
    let mut kept = Vec::new(alloc);
    let mut line = 0;
    let mut rest = text;
    while !rest.is_empty() {
        line += 1;
        keep(&mut kept, line, said(first_line(rest)))?;
        rest = after_line(rest);
    }
    Ok(kept)
}

// Whether no rule brings console bytes.
fn bring_no_bytes(rules: &[Reverse<Pending>]) -> bool
    ensures { result ≡ list_all (λ p. not (brings_bytes_lem p.0.event)) rules.now }
{
    rules.iter().all(|rule| !brings_bytes(rule.0.event))
}

/// Reads a tick file, and makes the schedule of all events that its lines ask for. Only this call
/// allocates memory: a fixed amount for each line, however many events the line asks for.
pub fn read_ticks(alloc: Global, text: &[u8]) -> Result<Schedule, TickErr>
    ensures value { IfOk result (λ schedule. schedule ≡ timetable_of text.now) }
    ensures good { OnOk result (first_bad_line text.now ≡ None) }
    ensures bad { IfErr result (Tells (first_bad_line text.now)) }
{
    let kept = kept_rules(alloc, text)?;
    let on_demand = bring_no_bytes(&kept);
    Ok(Schedule::of_rules(kept, on_demand))
}
