//! The folder into which a record is written.

ghost use Rattle.std.specs.Prelude.{◌≡◌, ℕ, ◌≤◌, Option, IfSome};
ghost use Rattle.wind_outside.specs.Counts.{Rose};
ghost use Rattle.wind_outside.specs.Files.{Files, IsFetchOf, IsWithin};
ghost use Rattle.wind_outside.specs.declared.folder.Fetched.TheVariants as fetched;
ghost use Rattle.wind_outside.specs.declared.sink.Put.TheVariants as puts;
ghost use Rattle.live_session.specs.Folder.{IsPresence, Lengthened, Replaced, SetAside};
ghost use Rattle.live_session.specs.declared.record_folder.Presence.TheVariants as presence;

use std::alloc::Global;
use wind_outside::{Fetched, Put};

/// Whether there is a file.
#[derive(Clone, Copy, Debug, PartialEq, Eq)]
pub enum Presence {
    /// There is.
    There,
    /// There is none.
    Absent,
    /// Asking failed, and counts as a fault.
    Failed,
}

/// When the bytes of a file are to be on the disk.
#[derive(Clone, Copy, Debug, PartialEq, Eq)]
pub enum Flush {
    /// Before the file is in its place.
    Now,
    /// When the system writes them.
    Later,
}

/// A folder in which files are written.
///
/// A contract can see its files and its count of faults. A folder can leave the files untold. The
/// count never falls, and stops at 2^64 - 1.
pub trait RecordFolder {
    ghost files: { Self → Option Files };

    ghost faults: { Self → ℕ };

    /// Makes the folder with this name, if it isn't there. That can fail, and counts as a fault.
    fn make(&mut self, name: &str) -> Put
        ensures kept { files self.new ≡ files self.old }
        ensures failed { result ≡ puts.Failed → Rose (faults self.old) (faults self.new) }
        ensures never_falls { faults self.old ≤ faults self.new };

    /// Returns whether there is a file with this name.
    fn has(&mut self, name: &str) -> Presence
        ensures kept { files self.new ≡ files self.old }
        ensures answers { IfSome (files self.old) (λ held. IsPresence (held name.now) result) }
        ensures failed { result ≡ presence.Failed → Rose (faults self.old) (faults self.new) }
        ensures never_falls { faults self.old ≤ faults self.new };

    /// Writes the file with this name beside its place, and then puts it there, instead of a file
    /// that may be there. Writing can fail, and counts as a fault; then the files that a contract
    /// sees are as before. The real folder fails if a file is beside the place already, and may keep
    /// a part of a new one there if it can't remove it. No contract can see a flush.
    fn replace(&mut self, alloc: Global, name: &str, bytes: &[u8], flush: Flush) -> Put
        ensures done { result ≡ puts.Done → Replaced (files self.old) (files self.new) name.now bytes.now }
        ensures kept { result ≡ puts.Failed → files self.new ≡ files self.old }
        ensures failed { result ≡ puts.Failed → Rose (faults self.old) (faults self.new) }
        ensures never_falls { faults self.old ≤ faults self.new };

    /// Adds bytes at the end of the file with this name, which must be there. Writing can fail, and
    /// counts as a fault; then the file is cut back to its length, and the files that a contract sees
    /// are as before. The real folder may leave a part of the bytes if it can't cut the file back.
    fn append(&mut self, alloc: Global, name: &str, bytes: &[u8]) -> Put
        ensures done { result ≡ puts.Done → Lengthened (files self.old) (files self.new) name.now bytes.now }
        ensures kept { result ≡ puts.Failed → files self.new ≡ files self.old }
        ensures failed { result ≡ puts.Failed → Rose (faults self.old) (faults self.new) }
        ensures never_falls { faults self.old ≤ faults self.new };

    /// Puts `.old` after the name of the file with this name, instead of a file that may have the
    /// longer name. Does nothing if there is no such file. That can fail, and counts as a fault;
    /// then the files are as before.
    fn set_aside(&mut self, alloc: Global, name: &str) -> Put
        ensures done { result ≡ puts.Done → SetAside (files self.old) (files self.new) name.now }
        ensures kept { result ≡ puts.Failed → files self.new ≡ files self.old }
        ensures failed { result ≡ puts.Failed → Rose (faults self.old) (faults self.new) }
        ensures never_falls { faults self.old ≤ faults self.new };

    /// Reads the file with this name. The answer is `TooLong` if the file is over `limit` bytes, `Failed`
    /// if the read failed, which counts as a fault, and `NoMemory` if host memory ran out.
    fn read(&mut self, alloc: Global, name: &str, limit: u32) -> Fetched
        ensures kept { files self.new ≡ files self.old }
        ensures answers { IfSome (files self.old) (λ held. IsFetchOf (held name.now) limit result) }
        ensures within { IsWithin limit result }
        ensures failed { result ≡ fetched.Failed → Rose (faults self.old) (faults self.new) }
        ensures never_falls { faults self.old ≤ faults self.new };

    /// Clears what a write of the file with this name has left beside its place, if it was cut off.
    /// The files that a contract sees don't change. The real folder puts `.old` after the name of the
    /// file with `.new`. That can fail, and counts as a fault.
    fn clear_beside(&mut self, alloc: Global, name: &str) -> Put
        ensures kept { files self.new ≡ files self.old }
        ensures failed { result ≡ puts.Failed → Rose (faults self.old) (faults self.new) }
        ensures never_falls { faults self.old ≤ faults self.new };
}
