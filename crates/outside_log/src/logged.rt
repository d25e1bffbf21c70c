//! A log beside what is logged.

ghost use Rattle.std.specs.Prelude.{◌≡◌, [], Some};
ghost use Rattle.std.specs.Option.{option_map};

use crate::folder::LoggedFetch;
use crate::sink::LoggedPut;
use std::alloc::Global;
use wind_outside::{Folder, Sink};

/// A folder or a sink, and the log of its calls: None if memory ran out for the log.
#[derive(Drop)]
pub struct Logged<S: Drop, T: Drop> {
    pub(crate) alloc: Global,
    pub(crate) inner: S,
    pub(crate) log: Option<Vec<T>>,
}

impl<S: Drop, T: Drop> Logged<S, T> {
    /// This folder or sink, with an empty log.
    pub fn new(alloc: Global, inner: S) -> Logged<S, T>
        ensures inner { result.inner ≡ inner }
        ensures log { option_map (λ entries. entries.items) result.log ≡ Some [] }
    {
        Logged {
            alloc,
            inner,
            log: Some(Vec::new(alloc)),
        }
    }
}

/// A folder that passes each fetch on to another, and logs it, in order, as long as there is memory
/// for the log.
pub type LoggedFolder<F> = Logged<F, LoggedFetch>;

/// A sink that passes each put on to another, and logs it, in order, as long as there is memory for
/// the log.
pub type LoggedSink<S> = Logged<S, LoggedPut>;

impl<F: Folder + Drop> Logged<F, LoggedFetch> {
    /// The fetches so far. None if memory ran out for the log.
    pub fn fetches(&self) -> Option<&[LoggedFetch]>
        ensures { option_map (λ fetches. fetches.now) result ≡ option_map (λ fetches. fetches.items) self.now.log }
    {
        self.log.as_deref()
    }
}

impl<S: Sink + Drop> Logged<S, LoggedPut> {
    /// The puts so far. None if memory ran out for the log.
    pub fn puts(&self) -> Option<&[LoggedPut]>
        ensures { option_map (λ puts. puts.now) result ≡ option_map (λ puts. puts.items) self.now.log }
    {
        self.log.as_deref()
    }
}
