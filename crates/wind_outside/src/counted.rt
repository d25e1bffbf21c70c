//! Handles of the host, with a count of faults.

ghost use Rattle.std.specs.Prelude.{◌≡◌, ◌≤◌};
ghost use Rattle.wind_outside.specs.Counts.{Rose};

/// A handle of the host, and how many calls by it failed. The count stops at 2^64 - 1.
#[derive(Drop)]
pub struct Counted<H: Drop> {
    /// The handle.
    pub handle: H,
    /// The calls that failed.
    pub faults: u64,
}

impl<H: Drop> Counted<H> {
    /// The handle, before any call failed.
    pub fn new(handle: H) -> Counted<H>
        ensures { result.faults ≡ 0 }
    {
        Counted { handle, faults: 0 }
    }

    /// Counts a call that failed.
    pub fn count_fault(&mut self)
        ensures rose { Rose self.old.faults self.new.faults }
        ensures never_falls { self.old.faults ≤ self.new.faults }
    {
        self.faults = self.faults.saturating_add(1);
    }
}
