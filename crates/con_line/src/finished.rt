//! The finished lines.

ghost use Rattle.std.specs.Prelude.{◌≡◌, ◌≤◌, ◌+◌, ◌==◌, [], length, take, drop, IfOk};
ghost use Rattle.wind_base.specs.Lines.{line_length};
ghost use Rattle.con_line.specs.Lines.{is_kept, with_kept};

use circular_buffer::HeapCircularBuffer;
use std::alloc::Global;
use std::marker::Model;
use wind_base::NoMemory;
use wind_base::limits::KEPT_BYTES;

/// The finished lines, each with its 0x0A, oldest first. Their room is allocated once.
#[derive(Drop)]
pub(crate) struct Finished {
    ring: HeapCircularBuffer<u8>,
}

impl Model for Finished {
    ghost use Rattle.std.specs.Prelude.{◌≡◌, ℕ, List};
    ghost use Rattle.wind_base.specs.Limits.{most_kept_bytes};

    ghost Value = { List ℕ };

    ghost view = { λ f. f.ring.items };

    ghost invariant = { λ f. f.ring.capacity ≡ most_kept_bytes };
}

impl Finished {
    /// Makes a list without lines, and allocates its room.
    pub(crate) fn new(alloc: Global) -> Result<Finished, NoMemory>
        ensures { IfOk result (λ f. f ≡ []) }
    {
        let ring = HeapCircularBuffer::with_capacity(alloc, KEPT_BYTES)?;
        Ok(Finished { ring })
    }

    /// Whether there is no line.
    pub(crate) fn is_empty(&self) -> bool
        ensures { result ≡ (length self.now == 0) }
    {
        self.ring.is_empty()
    }

    /// Drops all lines.
    pub(crate) fn clear(&mut self)
        ensures { self.new ≡ [] }
    {
        self.ring.clear();
    }

    /// Adds a line with its end after the others. If there is no room for it, it returns false, and
    /// nothing changes.
    pub(crate) fn keep(&mut self, line: &[u8]) -> bool
        ensures kept { result ≡ is_kept self.old line.now }
        ensures lines { self.new ≡ with_kept self.old line.now }
    {
        if self.ring.capacity() - self.ring.len() <= line.len() {
            return false;
        }
        self.ring.extend_from_slice(line);
        self.ring.push_back(b'\n');
        true
    }

    /// The length of the first line in bytes, without its end.
    pub(crate) fn first_len(&self) -> usize
        ensures exact { result ≡ line_length self.now }
        ensures inside { result ≤ length self.now }
    {
        self.ring.iter().take_while(|byte| **byte != b'\n').count()
    }

    /// Copies the first bytes, as many as `dst` takes.
    pub(crate) fn copy_first(&self, dst: &mut [u8])
        requires { length dst.old ≤ length self.now }
        ensures { dst.new ≡ take (length dst.old) self.now }
    {
        let (near, far) = self.ring.as_slices();
        let from_near = near.len().min(dst.len());
        let from_far = dst.len() - from_near;
        dst[..from_near].copy_from_slice(&near[..from_near]);
        dst[from_near..from_near + from_far].copy_from_slice(&far[..from_far]);
    }

    /// Drops the first line with its end.
    pub(crate) fn drop_first(&mut self)
        ensures { self.new ≡ drop (line_length self.old + 1) self.old }
    {
        let left = self.ring.len().saturating_sub(self.first_len() + 1);
        self.ring.truncate_front(left);
    }
}
