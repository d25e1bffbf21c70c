//! Strings.

ghost use Rattle.std.specs.Prelude.{◌≡◌, IfOk};
ghost use Rattle.source_text.specs.Strings.{escaped as escaped_lem, string_at};

use std::alloc::{AllocError, Global};
use std::marker::Model;

/// The bytes of a string, with its escapes replaced.
#[derive(Drop)]
pub struct Text {
    kept: Vec<u8>,
}

impl Model for Text {
    ghost use Rattle.std.specs.Prelude.{ℕ, List};

    ghost Value = { List ℕ };

    ghost view = { λ t. t.kept.items };
}

impl Text {
    /// A string of these bytes.
    pub fn new(alloc: Global, bytes: &[u8]) -> Result<Text, AllocError>
        ensures { IfOk result (λ t. t ≡ bytes.now) }
    {
        Ok(Text {
            kept: bytes.to_vec(alloc)?,
        })
    }

    /// The bytes.
    pub fn bytes(&self) -> &[u8]
        ensures { result.now ≡ self.now }
    {
        &self.kept
    }
}

/// The byte that an escape stands for, from the byte after its backslash. None if there is no such
/// escape.
pub fn escaped(byte: u8) -> Option<u8>
    ensures { result ≡ escaped_lem byte }
{
    match byte {
        b'n' => Some(b'\n'),
        b't' => Some(b'\t'),
        b'r' => Some(b'\r'),
        b'0' => Some(0),
        b'\\' | b'\'' | b'"' => Some(byte),
        _ => None,
    }
}

/// The string whose opening quote stands before the bytes, and the number of them that belong to
/// it. None if the string has no closing quote or an invalid escape.
#[tactic(auto, unfolding(crate::specs::Strings::string_at))]
pub fn string(alloc: Global, bytes: &[u8]) -> Result<Option<(Text, usize)>, AllocError>
    ensures { IfOk result (λ x. x ≡ string_at bytes.now) }
{
    let mut text = Vec::new(alloc);
    let mut mark = false;
    for (i, byte) in bytes.iter().enumerate() {
        if mark {
            let Some(value) = escaped(*byte) else {
                return Ok(None);
            };
            text.push(value)?;
            mark = false;
            continue;
        }
        if *byte == b'"' {
            return Ok(Some((Text { kept: text }, i + 1)));
        }
        if *byte == b'\\' {
            mark = true;
            continue;
        }
        text.push(*byte)?;
    }
    Ok(None)
}
