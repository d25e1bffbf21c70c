//! The bus by address, and its devices by slot.

ghost use Rattle.std.specs.Prelude.{◌≡◌};
ghost use Rattle.board_bus.specs.Access.{fetched};
ghost use Rattle.board_bus.specs.Seen.{bus_seen};
ghost use Rattle.board_bus.specs.Slots.{is_occupied as is_occupied_lem, without_device};

use crate::bus::BoardBus;
use crate::slots::{is_occupied, load_word, remove, store_word};
use ppc_core::{Bus, Fault};
use wind_outside::Device;

impl BoardBus {
    /// The word at an address, as an instruction. None if a byte of it is outside RAM, or if the
    /// address isn't a multiple of 4.
    #[inline(always)]
    pub fn fetch(&self, addr: u32) -> Option<u32>
        ensures { result ≡ fetched (bus_seen ⟦<dyn Device as Device>⟧ self.now) addr }
    {
        if addr % 4 != 0 {
            return None;
        }
        self.ram.read32(addr)
    }

    /// Whether a slot holds a device. `false` if there is no slot with this number.
    pub fn has_device(&self, slot: u32) -> bool
        ensures { result ≡ is_occupied_lem (bus_seen ⟦<dyn Device as Device>⟧ self.now).slots slot }
    {
        is_occupied(&self.slots, slot as usize)
    }

    /// Removes the device in a slot, and drops it. `false` if there is none; then nothing changes.
    pub fn remove_device(&mut self, slot: u32) -> bool
        ensures answer { result ≡ is_occupied_lem (bus_seen ⟦<dyn Device as Device>⟧ self.old).slots slot }
        ensures slots { (bus_seen ⟦<dyn Device as Device>⟧ self.new).slots
            ≡ without_device (bus_seen ⟦<dyn Device as Device>⟧ self.old).slots slot }
        ensures ram { self.new.ram ≡ self.old.ram }
    {
        remove(&mut self.slots, slot as usize)
    }
}

impl Bus for BoardBus {
    ghost use Rattle.board_bus.specs.BusState.{BusState};
    ghost use Rattle.board_bus.specs.Access.{board_meaning};
    ghost use Rattle.board_bus.specs.Seen.{bus_by};
    ghost use Rattle.board_bus.specs.Lawful.{board_lawful};

    ghost Held = { BusState };

    ghost held = { λ b. bus_by (λ d. (Device-box d).kind_of d.value) (λ d. (Device-box d).words_of d.value) b };

    ghost meaning = { board_meaning };

    ghost lawful = { board_lawful };

    #[inline(always)]
    fn load8(&mut self, addr: u32) -> Result<u32, Fault> {
        self.ram.read8(addr).ok_or(Fault)
    }

    #[inline(always)]
    fn load16(&mut self, addr: u32) -> Result<u32, Fault> {
        self.ram.read16(addr).ok_or(Fault)
    }

    #[inline(always)]
    fn load32(&mut self, addr: u32) -> Result<u32, Fault> {
        match self.ram.read32(addr) {
            Some(word) => Ok(word),
            None => load_word(&mut self.slots, addr).ok_or(Fault),
        }
    }

    #[inline(always)]
    fn store8(&mut self, addr: u32, value: u32) -> Result<(), Fault> {
        match self.ram.write8(addr, value) {
            Ok(()) => Ok(()),
            Err(_) => Err(Fault),
        }
    }

    #[inline(always)]
    fn store16(&mut self, addr: u32, value: u32) -> Result<(), Fault> {
        match self.ram.write16(addr, value) {
            Ok(()) => Ok(()),
            Err(_) => Err(Fault),
        }
    }

    #[inline(always)]
    fn store32(&mut self, addr: u32, value: u32) -> Result<(), Fault> {
        if self.ram.write32(addr, value).is_ok() || store_word(&mut self.slots, addr, value) {
            return Ok(());
        }
        Err(Fault)
    }

    #[inline(always)]
    fn is_ram(&self, addr: u32, n: u32) -> bool {
        self.ram.has(addr, n)
    }
}
