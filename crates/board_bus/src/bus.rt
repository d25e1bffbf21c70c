//! RAM and the device slots.

ghost use Rattle.std.specs.Prelude.{◌≡◌, ◌≤◌, length};
ghost use Rattle.wind_base.specs.Limits.{most_slots};

use board_mem::Ram;
use wind_outside::Slots;

/// RAM from address 0 on, and up to 16 device slots of 0x1000 bytes each, from 0xE0000000 on. An
/// access of a whole word at a multiple of 4 reaches the device in the slot of its address; every
/// other access is to RAM only. If RAM overlaps the slots, RAM is accessed.
///
/// The fields are public, so RAM can be borrowed together with other parts of the board.
#[derive(Drop)]
pub struct BoardBus {
    /// RAM.
    pub ram: Ram,
    /// The slots, from slot 0 on. Those after the last are empty.
    pub slots: Slots,
    pub ghost few: { length slots.items ≤ most_slots },
}

impl BoardBus {
    /// A bus with this RAM and these slots. It takes no memory.
    pub fn new(ram: Ram, slots: Slots) -> BoardBus
        requires { length slots.items ≤ most_slots }
        ensures ram { result.ram ≡ ram }
        ensures slots { result.slots ≡ slots }
    {
        BoardBus { ram, slots }
    }

    /// Its RAM.
    pub fn ram(&self) -> &Ram
        ensures { result.now ≡ self.now.ram }
    {
        &self.ram
    }

    /// Its slots, with the devices as they are now.
    pub fn into_slots(self) -> Slots
        ensures { result ≡ self.slots }
    {
        let BoardBus { ram: _, slots } = self;
        slots
    }
}
