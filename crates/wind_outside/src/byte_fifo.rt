//! A first-in, first-out queue of bytes.

ghost use Rattle.std.specs.Prelude.{◌≡◌, [], slice_index, drop};

use crate::{Device, DeviceKind};
use arrayvec::ArrayVec;
use std::marker::Model;

// The greatest number of bytes in a queue.
const FIFO_BYTES: usize = 64;

/// A first-in, first-out queue of up to 64 bytes. A byte stored into a full queue is dropped. A
/// contract sees the list of its bytes, the first one first.
#[derive(Drop)]
pub struct ByteFifo {
    bytes: ArrayVec<u8, FIFO_BYTES>,
}

impl Model for ByteFifo {
    ghost use Rattle.std.specs.Prelude.{ℕ, List, length, ◌≤◌};

    ghost Value = { List ℕ };

    ghost view = { λ q. q.bytes.items };

    ghost invariant = { λ q. length q.bytes.items ≤ 64 };
}

impl ByteFifo {
    /// An empty queue.
    pub fn new() -> ByteFifo
        ensures { result ≡ [] }
    {
        ByteFifo {
            bytes: ArrayVec::new(),
        }
    }
}

impl Device for ByteFifo {
    ghost use Rattle.wind_outside.specs.declared.device.DeviceKind.TheVariants as kinds;

    ghost kind_of = { λ _. kinds.ByteFifo };

    ghost words_of = { λ bytes. bytes };

    fn kind(&self) -> DeviceKind {
        DeviceKind::ByteFifo
    }

    fn load(&mut self, off: u32) -> u32 {
        match off {
            0 => taken(&mut self.bytes),
            4 => self.bytes.len() as u32,
            _ => 0,
        }
    }

    fn store(&mut self, off: u32, v: u32) {
        if off == 0 && !self.bytes.is_full() {
            self.bytes.push((v % 0x100) as u8);
        }
    }
}

// Removes the first byte and returns it. 0 if the queue is empty.
fn taken(bytes: &mut ArrayVec<u8, FIFO_BYTES>) -> u32
    ensures front { result ≡ slice_index bytes.old.items 0 }
    ensures rest { bytes.new.items ≡ drop 1 bytes.old.items }
{
    if bytes.is_empty() {
        return 0;
    }
    bytes.remove(0) as u32
}
