//! The bus between the processor and the RAM and devices.

ghost use Rattle.std.specs.Prelude.{◌≡◌, ◌+◌, ◌≤◌, ◌^◌, IsTrue};
ghost use Rattle.ppc_core.specs.Buses.{Meaning, Loads, Stores, all_ram, IsLawful};

use thiserror::Error;

/// Neither RAM nor a device accepts the access.
#[derive(Clone, Copy, Debug, PartialEq, Eq, Error)]
#[error("access fault")]
pub struct Fault;

/// RAM and devices by address. Each call does what `meaning` says for its address and width;
/// `lawful` states the laws of `meaning`. A call that returns `Fault` changes nothing that the bus
/// holds.
pub trait Bus {
    /// What a bus holds, as plain data.
    ghost Held: { Type 0 };

    ghost held: { Self → Held };

    /// What each access does, and which addresses are RAM.
    ghost meaning: { Meaning Held };

    /// Loads the byte at an address.
    fn load8(&mut self, addr: u32) -> Result<u32, Fault>
        ensures { Loads meaning 1 addr (held self.old) (held self.new) result };

    /// Loads the halfword of two bytes at an address, with any alignment.
    fn load16(&mut self, addr: u32) -> Result<u32, Fault>
        ensures { Loads meaning 2 addr (held self.old) (held self.new) result };

    /// Loads the word of four bytes at an address, with any alignment.
    fn load32(&mut self, addr: u32) -> Result<u32, Fault>
        ensures { Loads meaning 4 addr (held self.old) (held self.new) result };

    /// Stores a byte.
    fn store8(&mut self, addr: u32, value: u32) -> Result<(), Fault>
        ensures { Stores meaning 1 addr value (held self.old) (held self.new) result };

    /// Stores a halfword, with any alignment.
    fn store16(&mut self, addr: u32, value: u32) -> Result<(), Fault>
        ensures { Stores meaning 2 addr value (held self.old) (held self.new) result };

    /// Stores a word, with any alignment.
    fn store32(&mut self, addr: u32, value: u32) -> Result<(), Fault>
        ensures { Stores meaning 4 addr value (held self.old) (held self.new) result };

    /// Whether the `n` bytes from an address on are all RAM.
    fn is_ram(&self, addr: u32, n: u32) -> bool
        ensures is { result ≡ all_ram meaning (held self.now) addr n }
        ensures ends { IsTrue result → addr + n ≤ 2 ^ 32 };

    ghost lawful: { IsLawful meaning };
}
