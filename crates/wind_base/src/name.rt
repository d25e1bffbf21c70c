//! Names of tasks, modules and symbols.

ghost use Rattle.std.specs.Prelude.{◌≡◌, ◌<◌, ◌≤◌, ◌↔◌, Err, IfOk, length, take};
ghost use Rattle.wind_base.specs.Limits.{longest_name, longest_short_name};
ghost use Rattle.wind_base.specs.declared.name.NameErr.TheVariants as errors;

use crate::limits::{NAME_BYTES, SHORT_NAME_BYTES};
use crate::{NoMemory, first_bytes};
use arrayvec::ArrayVec;
use std::alloc::{AllocError, Global};
use std::marker::Model;
use thiserror::Error;

/// A name of at most 31 bytes. It needs no host memory.
#[derive(Drop)]
pub struct ShortName {
    kept: ArrayVec<u8, SHORT_NAME_BYTES>,
}

impl Model for ShortName {
    ghost use Rattle.std.specs.Prelude.{ℕ, List, ◌≤◌, length};
    ghost use Rattle.wind_base.specs.Limits.{longest_short_name};

    ghost Value = { List ℕ };

    ghost view = { λ n. n.kept.items };

    ghost invariant = { λ n. length n.kept.items ≤ longest_short_name };
}

// A copy of bytes that fit.
fn copied(bytes: &[u8]) -> ArrayVec<u8, SHORT_NAME_BYTES>
    requires { length bytes.now ≤ longest_short_name }
    ensures { result.items ≡ bytes.now }
{
    let mut kept = ArrayVec::new();
    let _ = kept.try_extend_from_slice(bytes);
    kept
}

impl ShortName {
    /// The first 31 of these bytes, as a name.
    pub fn cut(bytes: &[u8]) -> ShortName
        ensures value { result ≡ take longest_short_name bytes.now }
        ensures within { length result ≤ longest_short_name }
    {
        ShortName {
            kept: copied(first_bytes(bytes, SHORT_NAME_BYTES)),
        }
    }

    /// A copy of this name.
    pub fn copied(&self) -> ShortName
        ensures { result ≡ self.now }
    {
        ShortName {
            kept: copied(&self.kept),
        }
    }

    /// The bytes of the name.
    pub fn bytes(&self) -> &[u8]
        ensures value { result.now ≡ self.now }
        ensures within { length result.now ≤ longest_short_name }
    {
        self.kept.as_slice()
    }
}

/// Why a name could not be made.
#[derive(Clone, Copy, Debug, PartialEq, Eq, Error)]
pub enum NameErr {
    /// The name is longer than 255 bytes.
    #[error("the name has more than {NAME_BYTES} bytes")]
    TooLong,
    /// Host memory ran out.
    #[error("{NoMemory}")]
    NoMemory,
}

/// A name of at most 255 bytes, in host memory.
#[derive(Drop)]
pub struct Name {
    kept: Vec<u8>,
}

impl Model for Name {
    ghost use Rattle.std.specs.Prelude.{ℕ, List, ◌≤◌, length};
    ghost use Rattle.wind_base.specs.Limits.{longest_name};

    ghost Value = { List ℕ };

    ghost view = { λ n. n.kept.items };

    ghost invariant = { λ n. length n.kept.items ≤ longest_name };
}

impl Name {
    /// The name of exactly these bytes.
    pub fn new(alloc: Global, bytes: &[u8]) -> Result<Name, NameErr>
        ensures value { IfOk result (λ name. name ≡ bytes.now) }
        ensures too_long { (result ≡ Err errors.TooLong) ↔ (longest_name < length bytes.now) }
    {
        if bytes.len() > NAME_BYTES {
            return Err(NameErr::TooLong);
        }
        let Ok(kept) = bytes.to_vec(alloc) else {
            return Err(NameErr::NoMemory);
        };
        Ok(Name { kept })
    }

    /// A copy of this name.
    pub fn copied(&self, alloc: Global) -> Result<Name, AllocError>
        ensures { IfOk result (λ copy. copy ≡ self.now) }
    {
        let kept = self.kept.to_vec(alloc)?;
        Ok(Name { kept })
    }

    /// The bytes of the name.
    pub fn bytes(&self) -> &[u8]
        ensures value { result.now ≡ self.now }
        ensures within { length result.now ≤ longest_name }
    {
        &self.kept
    }
}
