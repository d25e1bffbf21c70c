//! A folder that logs its fetches.

ghost use Rattle.std.specs.Prelude.{◌≡◌, IfOk};
ghost use Rattle.wind_outside.specs.Requests.{request_of, outcome_of as outcome_of_lem};
ghost use Rattle.outside_log.specs.Fetches.{request_seen};

use crate::entries::with_entry;
use crate::logged::Logged;
use std::alloc::{AllocError, Global};
use wind_outside::{FetchOutcome, Fetched, Folder};

/// A fetch.
#[derive(Debug, Drop)]
pub struct LoggedFetch {
    /// The name of the file.
    pub name: String,
    /// The greatest length in bytes that was allowed.
    pub limit: u32,
    /// How it ended.
    pub outcome: FetchOutcome,
}

// How a fetch with this result ended.
fn outcome_of(answer: &Fetched) -> FetchOutcome
    ensures { result ≡ outcome_of_lem answer.now }
{
    match answer {
        Fetched::Found(_) => FetchOutcome::Found,
        Fetched::Missing => FetchOutcome::Missing,
        Fetched::TooLong => FetchOutcome::TooLong,
        Fetched::Failed => FetchOutcome::Failed,
        Fetched::NoMemory => FetchOutcome::NoMemory,
    }
}

// The log entry of a fetch.
fn entry_of(
    alloc: Global,
    name: &str,
    limit: u32,
    answer: &Fetched,
) -> Result<LoggedFetch, AllocError>
    ensures { IfOk result (λ entry. request_seen entry ≡ request_of name.now limit answer.now) }
{
    let outcome = outcome_of(answer);
    let name = name.to_string(alloc)?;
    Ok(LoggedFetch {
        name,
        limit,
        outcome,
    })
}

impl<F: Folder + Drop> Folder for Logged<F, LoggedFetch> {
    ghost use Rattle.outside_log.specs.Fetches.{requests_seen};

    ghost files = { λ f. F.files f.inner };

    ghost requests = { λ f. requests_seen f.log };

    ghost faults = { λ f. F.faults f.inner };

    fn fetch(&mut self, alloc: Global, name: &str, limit: u32) -> Fetched {
        let answer = self.inner.fetch(alloc, name, limit);
        let entry = entry_of(alloc, name, limit, &answer);
        self.log = with_entry(self.log.take(), entry);
        answer
    }
}
