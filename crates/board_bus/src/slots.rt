//! The device slots by address.

ghost use Rattle.std.specs.Prelude.{◌≡◌, ◌<◌, ◌≤◌, ◌%◌, Some, None, length, is_some};
ghost use Rattle.wind_base.specs.Limits.{slots_start, slot_bytes};
ghost use Rattle.wind_outside.specs.Devices.{slots_of};
ghost use Rattle.board_bus.specs.Slots.{is_occupied as is_occupied_lem, without_device, is_slot_word as is_slot_word_lem, slot_number as slot_number_lem, slot_offset as slot_offset_lem, device_at, with_device, reached, answer_of, device_loaded, device_stored, slots_loaded, slots_stored, slot_seen};

use wind_base::limits::{SLOT_BYTES, SLOTS, SLOTS_START};
use wind_outside::{Device, Slots};

// Whether a word access at this address is to a slot: at a multiple of 4, in the range of the
// slots.
fn is_slot_word(addr: u32) -> bool
    ensures { result ≡ is_slot_word_lem 4 addr }
{
    addr % 4 == 0 && addr >= SLOTS_START && addr < SLOTS_START + SLOTS as u32 * SLOT_BYTES
}

// The number of the slot with this address.
fn slot_number(addr: u32) -> usize
    requires { slots_start ≤ addr }
    ensures { result ≡ slot_number_lem addr }
{
    ((addr - SLOTS_START) / SLOT_BYTES) as usize
}

// The offset of an address from the start of its slot, in bytes.
fn slot_offset(addr: u32) -> u32
    requires { slots_start ≤ addr }
    ensures { result ≡ slot_offset_lem addr }
{
    (addr - SLOTS_START) % SLOT_BYTES
}

// Loads from the device in a slot. None if the slot is empty.
fn load_slot(slot: &mut Option<Box<dyn Device>>, off: u32) -> Option<u32>
    requires aligned { off % 4 ≡ 0 }
    requires inside { off < slot_bytes }
    ensures answer { result ≡ answer_of (slot_seen kind_of words_of slot.old) off }
    ensures slot { slot_seen kind_of words_of slot.new
        ≡ device_loaded (slot_seen kind_of words_of slot.old) off }
{
    match slot {
        Some(device) => Some(device.load(off)),
        None => None,
    }
}

// Stores to the device in a slot. `false` if the slot is empty.
fn store_slot(slot: &mut Option<Box<dyn Device>>, off: u32, v: u32) -> bool
    requires aligned { off % 4 ≡ 0 }
    requires inside { off < slot_bytes }
    ensures answer { result ≡ is_some (slot_seen kind_of words_of slot.old) }
    ensures slot { slot_seen kind_of words_of slot.new
        ≡ device_stored (slot_seen kind_of words_of slot.old) off v }
{
    match slot {
        Some(device) => {
            device.store(off, v);
            true
        }
        None => false,
    }
}

// Loads from slot `i`. None if it is empty.
fn load(slots: &mut Slots, i: usize, off: u32) -> Option<u32>
    requires aligned { off % 4 ≡ 0 }
    requires inside { off < slot_bytes }
    requires slot { i < length slots.old.items }
    ensures answer { result ≡ answer_of (device_at (slots_of kind_of words_of slots.old.items) i) off }
    ensures slots { let seen = slots_of kind_of words_of slots.old.items in
        slots_of kind_of words_of slots.new.items ≡ with_device seen i (device_loaded (device_at seen i) off) }
{
    load_slot(&mut slots[i], off)
}

// Stores to slot `i`. `false` if it is empty.
fn store(slots: &mut Slots, i: usize, off: u32, v: u32) -> bool
    requires aligned { off % 4 ≡ 0 }
    requires inside { off < slot_bytes }
    requires slot { i < length slots.old.items }
    ensures answer { result ≡ is_some (device_at (slots_of kind_of words_of slots.old.items) i) }
    ensures slots { let seen = slots_of kind_of words_of slots.old.items in
        slots_of kind_of words_of slots.new.items ≡ with_device seen i (device_stored (device_at seen i) off v) }
{
    store_slot(&mut slots[i], off, v)
}

/// Whether slot `i` holds a device.
pub(crate) fn is_occupied(slots: &Slots, i: usize) -> bool
    ensures { result ≡ is_occupied_lem (slots_of kind_of words_of slots.now.items) i }
{
    if i >= slots.len() {
        return false;
    }
    slots[i].is_some()
}

// Removes the device in slot `i`, and drops it. `false` if the slot is empty.
fn empty_slot(slots: &mut Slots, i: usize) -> bool
    requires slot { i < length slots.old.items }
    ensures answer { result ≡ is_some (device_at (slots_of kind_of words_of slots.old.items) i) }
    ensures slots { slots_of kind_of words_of slots.new.items
        ≡ without_device (slots_of kind_of words_of slots.old.items) i }
    ensures size { length slots.new.items ≡ length slots.old.items }
{
    slots[i].take().is_some()
}

/// Removes the device in slot `i`, and drops it. `false` if there is none; then nothing changes.
pub(crate) fn remove(slots: &mut Slots, i: usize) -> bool
    ensures answer { result ≡ is_occupied_lem (slots_of kind_of words_of slots.old.items) i }
    ensures slots { slots_of kind_of words_of slots.new.items
        ≡ without_device (slots_of kind_of words_of slots.old.items) i }
    ensures size { length slots.new.items ≡ length slots.old.items }
{
    if i >= slots.len() {
        return false;
    }
    empty_slot(slots, i)
}

/// Loads a word from a device. None if the address reaches no device.
#[inline(never)]
pub(crate) fn load_word(slots: &mut Slots, addr: u32) -> Option<u32>
    ensures answer { result
        ≡ answer_of (reached (slots_of kind_of words_of slots.old.items) 4 addr) (slot_offset_lem addr) }
    ensures slots { slots_of kind_of words_of slots.new.items
        ≡ slots_loaded (slots_of kind_of words_of slots.old.items) 4 addr }
{
    if !is_slot_word(addr) {
        return None;
    }
    let i = slot_number(addr);
    if i >= slots.len() {
        return None;
    }
    load(slots, i, slot_offset(addr))
}

/// Stores a word to a device. `false` if the address reaches no device.
#[inline(never)]
pub(crate) fn store_word(slots: &mut Slots, addr: u32, v: u32) -> bool
    ensures answer { result ≡ is_some (reached (slots_of kind_of words_of slots.old.items) 4 addr) }
    ensures slots { slots_of kind_of words_of slots.new.items
        ≡ slots_stored (slots_of kind_of words_of slots.old.items) 4 addr v }
{
    if !is_slot_word(addr) {
        return false;
    }
    let i = slot_number(addr);
    if i >= slots.len() {
        return false;
    }
    store(slots, i, slot_offset(addr), v)
}
