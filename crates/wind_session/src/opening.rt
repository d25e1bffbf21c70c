//! The devices of the programs.

ghost use Rattle.std.specs.Prelude.{◌≡◌, ◌≤◌, [], ◌∷◌, IfOk, replicate, vec_capacity};

use std::alloc::{AllocError, Global};
use wind_outside::{ByteFifo, EventCounter, Latch, Slots};

/// The devices of a program's board, and a list for the slots that hold them.
#[derive(Drop)]
pub struct OpeningDevices {
    /// The device for slot 0.
    pub latch: Box<Latch>,
    /// The device for slot 1.
    pub fifo: Box<ByteFifo>,
    /// The device for slot 2.
    pub counter: Box<EventCounter>,
    /// The list, without a slot.
    pub slots: Slots,
}

impl OpeningDevices {
    /// A latch of zeros, an empty queue of bytes, a counter at 0, and an empty list with room for
    /// three slots.
    pub fn new(alloc: Global) -> Result<OpeningDevices, AllocError>
        ensures latch { IfOk result (λ d. d.latch.value ≡ replicate 4 0) }
        ensures fifo { IfOk result (λ d. d.fifo.value ≡ []) }
        ensures counter { IfOk result (λ d. d.counter.value ≡ 0 ∷ []) }
        ensures slots { IfOk result (λ d. d.slots.items ≡ []) }
        ensures room { IfOk result (λ d. 3 ≤ vec_capacity d.slots) }
    {
        Ok(OpeningDevices {
            latch: Box::new(alloc, Latch::new())?,
            fifo: Box::new(alloc, ByteFifo::new())?,
            counter: Box::new(alloc, EventCounter::new())?,
            slots: Vec::with_capacity(alloc, 3)?,
        })
    }
}
