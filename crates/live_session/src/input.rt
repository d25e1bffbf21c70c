//! What is typed.

ghost use Rattle.std.specs.Prelude.{◌≡◌, ◌≢◌, ◌≤◌, ◌<◌, ◌-◌, ℕ, List, Option, IfOk, length, take, slice_index};
ghost use Rattle.std.specs.List.{All};
ghost use Rattle.wind_base.specs.Limits.{longest_chunk};
ghost use Rattle.wind_outside.specs.Counts.{Rose};
ghost use Rattle.live_session.specs.Input.{Gives, IsPart};
ghost use Rattle.live_session.specs.declared.input.InputPart.TheVariants as parts;

use std::alloc::{AllocError, Global};
use wind_base::limits::CHUNK_BYTES;

/// The next part of the input.
#[derive(Debug, Drop)]
pub enum InputPart {
    /// The next bytes: up to and including the next 0x0A, but at most 4,096.
    Bytes(Vec<u8>),
    /// There are no more bytes.
    End,
    /// Reading failed, and counts as a fault.
    Failed,
    /// Host memory ran out.
    NoMemory,
}

/// An input of bytes, which need not be text.
///
/// A contract can see the bytes that are left and the count of faults. An input can leave its bytes
/// untold. The count never falls, and stops at 2^64 - 1.
pub trait Input {
    ghost left: { Self → Option (List ℕ) };

    ghost faults: { Self → ℕ };

    /// Takes the next part.
    fn next_part(&mut self, alloc: Global) -> InputPart
        ensures gives { Gives (left self.old) (left self.new) result }
        ensures failed { result ≡ parts.Failed → Rose (faults self.old) (faults self.new) }
        ensures never_falls { faults self.old ≤ faults self.new };
}

/// The length of the first part of these bytes: up to and including the first 0x0A, but at most
/// 4,096.
pub(crate) fn part_len(bytes: &[u8]) -> usize
    ensures inside { result ≤ length bytes.now }
    ensures few { result ≤ longest_chunk }
    ensures some { (result ≡ 0) → length bytes.now ≡ 0 }
    ensures one_line { All (λ byte. byte ≢ 10) (take (result - 1) bytes.now) }
    ensures full { result < longest_chunk → slice_index bytes.now (result - 1) ≢ 10 → result ≡ length bytes.now }
{
    match bytes
        .iter()
        .take(CHUNK_BYTES)
        .position(|byte| *byte == b'\n')
    {
        Some(end) => end + 1,
        None => bytes.len().min(CHUNK_BYTES),
    }
}

/// The first part of these bytes.
pub(crate) fn first_part(alloc: Global, bytes: &[u8]) -> Result<Vec<u8>, AllocError>
    requires { 1 ≤ length bytes.now }
    ensures { IfOk result (λ part. IsPart part.items) }
{
    Vec::from_slice(alloc, &bytes[..part_len(bytes)])
}
