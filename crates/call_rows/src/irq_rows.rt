//! The calls on the interrupts of devices, and the removal of a device.

ghost use Rattle.std.specs.Prelude.{◌≡◌};
ghost use Rattle.board_bus.specs.Seen.{bus_seen};
ghost use Rattle.call_rows.specs.IrqRows.{row_of, is_device as is_device_lem, connect_row, disconnect_row, enable_row, change_row, pending_row, remove_row};

use board_bus::BoardBus;
use dev_irq::Irqs;
use isr_watch::Routine;
use kernel_world::{DONE, Reply};
use wind_base::Errno;
use wind_base::limits::SLOTS;
use wind_outside::Device;

// The reply if no device is in the slot.
const NO_DEVICE: Reply = Reply::Refusal(Errno::ObjIdError);

/// Whether there is a slot with this number, and it holds a device.
pub fn is_device(bus: &BoardBus, slot: u32) -> bool
    requires { Unit {0} }
    ensures { result ≡ is_device_lem (bus_seen ⟦<dyn Device as Device>⟧ bus.now).slots slot }
{
    (slot as usize) < SLOTS && bus.has_device(slot)
}

// A change of the line of a device in the interrupt controller.
#[derive(Clone, Copy)]
enum LineChange {
    Connect(Routine),
    // the entry of the routine whose earliest connection ends
    Disconnect(u32),
    Enable(bool),
}

// Changes the line of the device in a slot. Refused if there is no such device, and as the
// interrupt controller refuses it.
fn change(irqs: &mut Irqs, bus: &BoardBus, slot: u32, change: LineChange) -> Reply
    requires { Unit {0} }
    ensures row { row_of irqs.new (bus_seen ⟦<dyn Device as Device>⟧ bus.now).slots result
        ≡ change_row irqs.old (bus_seen ⟦<dyn Device as Device>⟧ bus.now).slots slot change }
{
    if !is_device(bus, slot) {
        return NO_DEVICE;
    }
    let changed = match change {
        LineChange::Connect(routine) => irqs.connect(slot, routine),
        LineChange::Disconnect(entry) => irqs.disconnect(slot, entry),
        LineChange::Enable(on) => {
            irqs.enable(slot, on);
            Ok(())
        }
    };
    match changed {
        Ok(()) => DONE,
        Err(errno) => Reply::Refusal(errno),
    }
}

/// intConnect: connects a routine to the interrupts of the device in a slot. Refused if there is no
/// such device, or if the slot has 4 routines.
pub fn connect(irqs: &mut Irqs, bus: &BoardBus, slot: u32, routine: Routine) -> Reply
    requires { Unit {0} }
    ensures row { row_of irqs.new (bus_seen ⟦<dyn Device as Device>⟧ bus.now).slots result
        ≡ connect_row irqs.old (bus_seen ⟦<dyn Device as Device>⟧ bus.now).slots slot routine }
{
    change(irqs, bus, slot, LineChange::Connect(routine))
}

/// intDisconnect: disconnects the earliest connection of a routine. Refused if there is no such
/// device, or if the routine isn't connected.
pub fn disconnect(irqs: &mut Irqs, bus: &BoardBus, slot: u32, routine: u32) -> Reply
    requires { Unit {0} }
    ensures row { row_of irqs.new (bus_seen ⟦<dyn Device as Device>⟧ bus.now).slots result
        ≡ disconnect_row irqs.old (bus_seen ⟦<dyn Device as Device>⟧ bus.now).slots slot routine }
{
    change(irqs, bus, slot, LineChange::Disconnect(routine))
}

/// intEnable and intDisable: enables the interrupts of a device, or disables them. Refused if there
/// is no such device.
pub fn enable(irqs: &mut Irqs, bus: &BoardBus, slot: u32, on: bool) -> Reply
    requires { Unit {0} }
    ensures row { row_of irqs.new (bus_seen ⟦<dyn Device as Device>⟧ bus.now).slots result
        ≡ enable_row irqs.old (bus_seen ⟦<dyn Device as Device>⟧ bus.now).slots slot on }
{
    change(irqs, bus, slot, LineChange::Enable(on))
}

/// intPending: answers how many interrupts of a device are pending. Refused if there is no such
/// device.
pub fn pending(irqs: &Irqs, bus: &BoardBus, slot: u32) -> Reply
    requires { Unit {0} }
    ensures row { row_of irqs.now (bus_seen ⟦<dyn Device as Device>⟧ bus.now).slots result
        ≡ pending_row irqs.now (bus_seen ⟦<dyn Device as Device>⟧ bus.now).slots slot }
{
    if !is_device(bus, slot) {
        return NO_DEVICE;
    }
    Reply::Answer(irqs.pending(slot))
}

/// devRemove: removes the device in a slot, with its routines and pending interrupts. Refused if
/// there is no such device.
pub fn remove(irqs: &mut Irqs, bus: &mut BoardBus, slot: u32) -> Reply
    requires { Unit {0} }
    ensures row { row_of irqs.new (bus_seen ⟦<dyn Device as Device>⟧ bus.new).slots result
        ≡ remove_row irqs.old (bus_seen ⟦<dyn Device as Device>⟧ bus.old).slots slot }
    ensures ram { bus.new.ram ≡ bus.old.ram }
{
    if !is_device(bus, slot) {
        return NO_DEVICE;
    }
    bus.remove_device(slot);
    irqs.clear(slot);
    DONE
}
