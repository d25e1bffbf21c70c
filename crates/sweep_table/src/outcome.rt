//! Outcomes.

ghost use Rattle.std.specs.Prelude.{◌≡◌, IfOk};

use std::alloc::{AllocError, Global};
use std::marker::Model;

/// An outcome, as the text that tells it.
#[derive(Drop)]
pub struct Outcome {
    bytes: Vec<u8>,
}

impl Model for Outcome {
    ghost use Rattle.std.specs.Prelude.{ℕ, List};

    ghost Value = { List ℕ };

    ghost view = { λ o. o.bytes.items };
}

impl Outcome {
    /// The outcome that this text tells.
    pub fn new(alloc: Global, text: &[u8]) -> Result<Outcome, AllocError>
        ensures { IfOk result (λ outcome. outcome ≡ text.now) }
    {
        Ok(Outcome {
            bytes: text.to_vec(alloc)?,
        })
    }

    /// The text.
    pub fn text(&self) -> &[u8]
        ensures { result.now ≡ self.now }
    {
        &self.bytes
    }
}
