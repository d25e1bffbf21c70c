//! The devices as JSON.

ghost use Rattle.std.specs.Prelude.{◌≡◌, ◌++◌, ◌<◌, IfOk, OnOk};
ghost use Rattle.std.specs.Option.{option_map};
ghost use Rattle.serde_json.specs.View.{view};
ghost use Rattle.wind_base.specs.Limits.{most_slots};
ghost use Rattle.board_bus.specs.Slots.{device_at, slot_seen};
ghost use Rattle.wind_outside.specs.Devices.{slots_of};
ghost use Rattle.trace_state.specs.Held.{items_in};
ghost use Rattle.trace_state.specs.Modules.{device_data, devices_data, kind_word as kind_word_lem, slot_data};

use crate::json::{Items, Members};
use dev_irq::Irqs;
use serde_json::Value;
use std::alloc::{AllocError, Global};
use wind_base::limits::SLOTS;
use wind_outside::{Device, DeviceKind, Slots};

// The word for a kind of device.
fn kind_word(kind: DeviceKind) -> &'static str
    ensures { result.now ≡ kind_word_lem kind }
{
    match kind {
        DeviceKind::Latch => "latch",
        DeviceKind::ByteFifo => "byte fifo",
        DeviceKind::EventCounter => "event counter",
    }
}

// One device.
fn device_value(
    alloc: Global,
    slot: u32,
    kind: DeviceKind,
    pending: u32,
) -> Result<Value, AllocError>
    ensures { IfOk result (λ v. view v ≡ device_data slot kind pending) }
{
    let mut members = Members::new(alloc);
    members.put_number("slot", u64::from(slot))?;
    members.put_word("kind", kind_word(kind))?;
    members.put_number("pending", u64::from(pending))?;
    Ok(members.finish())
}

// The kind of the device in a slot.
fn kind_in(slot: &Option<Box<dyn Device>>) -> Option<DeviceKind>
    ensures { result ≡ option_map (λ d. d.kind) (slot_seen kind_of words_of slot.now) }
{
    match slot {
        Some(device) => Some(device.kind()),
        None => None,
    }
}

// Adds a slot, if it has a device.
fn add_slot(
    alloc: Global,
    items: &mut Items,
    slots: &Slots,
    irqs: &Irqs,
    slot: usize,
) -> Result<(), AllocError>
    requires { slot < most_slots }
    ensures { OnOk result (items_in items.new ≡ items_in items.old
        ++ slot_data irqs.now slot (device_at (slots_of kind_of words_of slots.now.items) slot)) }
{
    if slot >= slots.len() {
        return Ok(());
    }
    let Some(kind) = kind_in(&slots[slot]) else {
        return Ok(());
    };
    let pending = irqs.pending(slot as u32);
    items.add(device_value(alloc, slot as u32, kind, pending)?)
}

/// The devices: each slot that has one, with its kind and its pending interrupts.
#[tactic(auto, unfolding(crate::specs::Modules::devices_data))]
pub(crate) fn devices(alloc: Global, slots: &Slots, irqs: &Irqs) -> Result<Value, AllocError>
    ensures { IfOk result (λ v. view v ≡ devices_data irqs.now (slots_of kind_of words_of slots.now.items)) }
{
    let mut items = Items::new(alloc);
    for slot in 0..SLOTS {
        add_slot(alloc, &mut items, slots, irqs, slot)?;
    }
    Ok(items.finish())
}
