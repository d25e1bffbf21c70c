//! A counter of events.

ghost use Rattle.std.specs.Prelude.{◌≡◌, [], ◌∷◌};

use crate::{Device, DeviceKind};
use std::marker::Model;

/// One word, to which a store adds modulo 2^32. A contract sees the list of this word.
#[derive(Drop)]
pub struct EventCounter {
    count: u32,
}

impl Model for EventCounter {
    ghost use Rattle.std.specs.Prelude.{ℕ, List, [], ◌∷◌};

    ghost Value = { List ℕ };

    ghost view = { λ c. c.count ∷ [] };
}

impl EventCounter {
    /// A counter at 0.
    pub fn new() -> EventCounter
        ensures { result ≡ 0 ∷ [] }
    {
        EventCounter { count: 0 }
    }
}

impl Device for EventCounter {
    ghost use Rattle.wind_outside.specs.declared.device.DeviceKind.TheVariants as kinds;

    ghost kind_of = { λ _. kinds.EventCounter };

    ghost words_of = { λ words. words };

    fn kind(&self) -> DeviceKind {
        DeviceKind::EventCounter
    }

    fn load(&mut self, off: u32) -> u32 {
        if off == 0 { self.count } else { 0 }
    }

    fn store(&mut self, off: u32, v: u32) {
        match off {
            0 => self.count = self.count.wrapping_add(v),
            4 => self.count = 0,
            _ => {}
        }
    }
}
