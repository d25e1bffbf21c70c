//! Folders of files.

ghost use Rattle.std.specs.Prelude.{◌≡◌, ℕ, ◌≤◌, List, [], ◌∷◌, Option, IfSome};
ghost use Rattle.wind_outside.specs.Counts.{Rose};
ghost use Rattle.wind_outside.specs.Files.{Files, IsFetchOf, IsWithin};
ghost use Rattle.wind_outside.specs.Requests.{GrowsBy, Request, request_of};
ghost use Rattle.wind_outside.specs.declared.folder.Fetched.TheVariants as fetched;

use std::alloc::Global;

/// The result of a fetch.
#[derive(Debug, Drop)]
pub enum Fetched {
    /// The file's bytes.
    Found(Vec<u8>),
    /// There is no such file.
    Missing,
    /// The file is longer than the limit.
    TooLong,
    /// Reading failed, and counts as a fault.
    Failed,
    /// Host memory ran out.
    NoMemory,
}

/// How a fetch ended, without the file's content.
#[derive(Clone, Copy, Debug, PartialEq, Eq)]
pub enum FetchOutcome {
    /// The file was found.
    Found,
    /// There was no such file.
    Missing,
    /// The file was longer than the limit.
    TooLong,
    /// Reading failed.
    Failed,
    /// Host memory ran out.
    NoMemory,
}

/// A folder of files.
///
/// A contract can see its files, its fetches so far and its count of faults. A folder can leave the
/// files and the fetches untold. The count never falls, and stops at 2^64 - 1. A folder that tells
/// its fetches can stop telling them, since it can run out of memory for one more.
pub trait Folder {
    ghost files: { Self → Option Files };

    ghost requests: { Self → Option (List Request) };

    ghost faults: { Self → ℕ };

    /// Fetches a whole file of at most `limit` bytes. Every fetch is one more request, however it
    /// ends.
    fn fetch(&mut self, alloc: Global, name: &str, limit: u32) -> Fetched
        ensures kept { files self.new ≡ files self.old }
        ensures answers { IfSome (files self.old) (λ held. IsFetchOf (held name.now) limit result) }
        ensures within { IsWithin limit result }
        ensures requested { GrowsBy (requests self.old) (requests self.new) (request_of name.now limit result ∷ []) }
        ensures failed { result ≡ fetched.Failed → Rose (faults self.old) (faults self.new) }
        ensures never_falls { faults self.old ≤ faults self.new };
}
