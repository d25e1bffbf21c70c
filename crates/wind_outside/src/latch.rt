//! Four words that hold what was stored.

ghost use Rattle.std.specs.Prelude.{◌≡◌, replicate};

use crate::{Device, DeviceKind};
use std::marker::Model;

/// A latch: four words. Each holds what was last stored there. A contract sees these words.
#[derive(Drop)]
pub struct Latch {
    words: [u32; 4],
}

impl Model for Latch {
    ghost use Rattle.std.specs.Prelude.{ℕ, List};

    ghost Value = { List ℕ };

    ghost view = { λ l. l.words };
}

impl Latch {
    /// A latch with four zeros.
    pub fn new() -> Latch
        ensures { result ≡ replicate 4 0 }
    {
        Latch { words: [0; 4] }
    }
}

impl Device for Latch {
    ghost use Rattle.wind_outside.specs.declared.device.DeviceKind.TheVariants as kinds;

    ghost kind_of = { λ _. kinds.Latch };

    ghost words_of = { λ words. words };

    fn kind(&self) -> DeviceKind {
        DeviceKind::Latch
    }

    fn load(&mut self, off: u32) -> u32 {
        if off < 16 {
            self.words[off as usize / 4]
        } else {
            0
        }
    }

    fn store(&mut self, off: u32, v: u32) {
        if off < 16 {
            self.words[off as usize / 4] = v;
        }
    }
}
