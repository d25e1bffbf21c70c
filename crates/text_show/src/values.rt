//! Where the values of a format come from.

ghost use Rattle.std.specs.Prelude.{◌≡◌, ◌<◌, ◌^◌, slice_get};
ghost use Rattle.board_mem.specs.Memory.{read};
ghost use Rattle.text_show.specs.Printf.{source_of, value_at};

use board_mem::Ram;

// One of the first values.
fn first_at(first: &[u32], n: u32) -> Option<u32>
    ensures { result ≡ slice_get first.now n }
{
    first.get(n as usize).copied()
}

// The word at an address, which may be outside RAM.
fn stack_word(ram: &Ram, at: u64) -> Option<u32>
    requires { at < 2 ^ 40 }
    ensures { result ≡ read 4 ram.now.bytes at }
{
    if at + 4 > u64::from(ram.size()) {
        return None;
    }
    ram.read32(at as u32)
}

/// The first seven values, and where the others are.
#[derive(Clone, Copy)]
pub(crate) struct Values<'a> {
    /// The first values.
    pub(crate) first: &'a [u32; 7],
    /// The stack pointer: the other values are the words from 8 bytes above it on.
    pub(crate) stack: u32,
    /// RAM.
    pub(crate) ram: &'a Ram,
}

impl Values<'_> {
    /// The value with this number.
    pub(crate) fn get(&self, n: u32) -> Option<u32>
        ensures { result ≡ value_at (source_of self.now) n }
    {
        if n < 7 {
            let first = self.first;
            return first_at(first, n);
        }
        stack_word(self.ram, u64::from(self.stack) + 8 + 4 * u64::from(n - 7))
    }
}
