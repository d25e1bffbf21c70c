//! Bytes that are kept.

ghost use Rattle.std.specs.Prelude.{◌≡◌, IfOk, Some, None};
ghost use Rattle.std.specs.Result.{result_ok};
ghost use Rattle.hex.specs.Hex.{decode_of};

use hex::FromHexError;
use std::alloc::Global;
use std::marker::Model;
use wind_base::NoMemory;

/// Bytes with an owner: the body of a packet, or what hexadecimal digits stand for.
#[derive(Drop)]
pub struct Bytes {
    kept: Vec<u8>,
}

impl Model for Bytes {
    ghost use Rattle.std.specs.Prelude.{ℕ, List};

    ghost Value = { List ℕ };

    ghost view = { λ b. b.kept.items };
}

impl Bytes {
    /// The bytes of a vector.
    pub(crate) fn of(kept: Vec<u8>) -> Bytes
        ensures { result ≡ kept.items }
    {
        Bytes { kept }
    }

    /// The bytes.
    pub fn as_slice(&self) -> &[u8]
        ensures { result.now ≡ self.now }
    {
        &self.kept
    }
}

/// The bytes that a text writes with two hexadecimal digits each, in either case. None if the text
/// has another character or an odd length.
pub fn decoded(alloc: Global, text: &[u8]) -> Result<Option<Bytes>, NoMemory>
    ensures { IfOk result (λ bytes. bytes ≡ result_ok (decode_of text.now)) }
{
    match hex::decode(alloc, text) {
        Ok(kept) => Ok(Some(Bytes { kept })),
        Err(FromHexError::OutOfMemory) => Err(NoMemory),
        Err(_) => Ok(None),
    }
}
