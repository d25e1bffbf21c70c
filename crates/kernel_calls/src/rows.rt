//! The row of each call: its effect, and how the caller is answered.

ghost use Rattle.std.specs.Prelude.{◌≡◌, ◌<◌, ◌≤◌, ◌^◌, [], true, false, IfOk, OnErr};
ghost use Rattle.wind_base.specs.OutBuf.{KeepsSpace};
ghost use Rattle.msg_queue.specs.{State.scene, Kept.IsKept};
ghost use Rattle.module_loader.specs.Holding.{AreHeld};
ghost use Rattle.call_rows.specs.{KernelWorldActors.{Acts, MayCall}, KernelWorldCallWords.gate_of, KernelWorldAllowed.may_exhaust_memory, KernelWorldKept.{IsEarly, KeepsWatch}, KernelWorldObjects.KeepsObjects, KernelWorldSeen.{world_seen, world_with}};
ghost use Rattle.kernel_calls.specs.{Calls.{with_reply, row as row_lem}, Space.{makes_room, HoldsSpace}};

use crate::module_rows::unload;
use crate::show_rows::{print, show_memory, show_modules, show_symbols, show_tasks};
use call_rows::memory_rows::{free, malloc, memalign};
use call_rows::queue_rows::{self, ReceiveWords, SendWords};
use call_rows::safety_rows::{delete, make_safe, make_unsafe};
use call_rows::spawning::{spawn_quickly, spawn_task};
use call_rows::symbol_rows::{NewSymbol, add_symbol};
use call_rows::task_rows::{
    context, delay, get_priority, lock, lock_interrupts, own_id, resume, slice, suspend,
    task_of_name, ticks, unlock, unlock_interrupts, verify,
};
use call_rows::{
    Actor, Call, DONE, Reply, World, errno_of, irq_rows, sem_rows, set_errno, watch_rows,
};
use isr_watch::Routine;
use std::alloc::Global;
use wind_base::{Errno, NoMemory};
use wind_outside::Device;

// Makes the row of a call in a world whose caller has left its gate. If memory runs out, nothing
// changes.
pub(crate) fn row(alloc: Global, w: &mut World, call: &Call, who: Actor) -> Result<Reply, NoMemory>
    requires live { Acts w.old.kern who }
    requires home { w.old.kern.lent ≡ false }
    requires end { w.old.part.end < 2 ^ 32 }
    requires ready { MayCall w.old.kern who }
    requires objects { KeepsObjects w.old.board w.old.kern w.old.objects }
    requires watch { KeepsWatch w.old.board w.old.kern.next_id w.old.watch }
    requires queues { IsKept (scene w.old.kern w.old.objects.queues w.old.bus.ram.bytes) }
    requires modules { AreHeld w.old.mods.rows w.old.part }
    requires early { IsEarly (world_with [] w.old) }
    requires room { 4096 ≤ w.old.out.room }
    ensures ok { IfOk result (λ r. with_reply (world_seen ⟦<dyn Device as Device>⟧ w.new) r
        ≡ row_lem call.now (world_seen ⟦<dyn Device as Device>⟧ w.old) who) }
    ensures err { OnErr result (world_seen ⟦<dyn Device as Device>⟧ w.new ≡ world_seen ⟦<dyn Device as Device>⟧ w.old) }
    ensures memory { OnErr result (may_exhaust_memory (gate_of call.now) ≡ true) }
    ensures space { makes_room (gate_of call.now) ≡ false → KeepsSpace w.old.out w.new.out }
    ensures holds { HoldsSpace w.old.out w.new.out }
{
    match *call {
        Call::TaskSpawn {
            name,
            priority,
            stack_size,
            entry,
            arguments,
            ..
        } => {
            let reply = spawn_task(w, name, priority, stack_size, entry, arguments);
            Ok(reply)
        }
        Call::Sp { entry, arguments } => Ok(spawn_quickly(w, entry, arguments)),
        Call::TaskDelete { id } => Ok(delete(&mut w.kern, &mut w.part, who, id, w.board)),
        Call::TaskSuspend { id } => Ok(suspend(&mut w.kern, who, id)),
        Call::TaskResume { id } => Ok(resume(&mut w.kern, who, id)),
        Call::TaskPrioritySet { id, priority } => {
            let reply = sem_rows::set_priority(&mut w.kern, &mut w.objects, who, id, priority);
            Ok(reply)
        }
        Call::TaskPriorityGet { id, address } => {
            let reply = get_priority(&w.kern, &mut w.bus.ram, who, id, address);
            Ok(reply)
        }
        Call::TaskDelay { ticks } => Ok(delay(&mut w.kern, who, ticks)),
        Call::TaskLock => Ok(lock(&mut w.kern, who)),
        Call::TaskUnlock => Ok(unlock(&mut w.kern, who)),
        Call::TaskSafe => Ok(make_safe(&mut w.kern, who)),
        Call::TaskUnsafe => Ok(make_unsafe(&mut w.kern, who)),
        Call::TaskIdSelf => Ok(own_id(who)),
        Call::TaskIdVerify { id } => Ok(verify(&w.kern, id)),
        Call::TaskNameToId { name } => Ok(task_of_name(&w.kern, &w.bus.ram, name)),
        Call::KernelTimeSlice { ticks } => Ok(slice(&mut w.kern, ticks)),
        Call::TickGet => Ok(ticks(&w.kern)),
        Call::SemBCreate { options, state } => {
            let reply = sem_rows::create_binary(&mut w.kern, &mut w.objects, options, state);
            Ok(reply)
        }
        Call::SemCCreate { options, count } => {
            let reply = sem_rows::create_counting(&mut w.kern, &mut w.objects, options, count);
            Ok(reply)
        }
        Call::SemMCreate { options } => {
            let reply = sem_rows::create_mutex(&mut w.kern, &mut w.objects, options);
            Ok(reply)
        }
        Call::SemTake { id, timeout } => {
            let reply = sem_rows::take(&mut w.kern, &mut w.objects, who, id, timeout);
            Ok(reply)
        }
        Call::SemGive { id } => Ok(sem_rows::give(&mut w.kern, &mut w.objects, who, id)),
        Call::SemFlush { id } => Ok(sem_rows::flush(&mut w.kern, &mut w.objects, id)),
        Call::SemDelete { id } => Ok(sem_rows::delete(&mut w.kern, &mut w.objects, id)),
        Call::MsgQCreate {
            max_msgs,
            max_length,
            options,
        } => queue_rows::create(
            alloc,
            &mut w.kern,
            &mut w.objects,
            max_msgs,
            max_length,
            options,
        ),
        Call::MsgQSend {
            id,
            buffer,
            count,
            timeout,
            priority,
        } => {
            let words = SendWords {
                buffer,
                count,
                timeout,
                priority,
            };
            let ram = &mut w.bus.ram;
            let reply = queue_rows::send(&mut w.kern, &mut w.objects, ram, who, id, words);
            Ok(reply)
        }
        Call::MsgQReceive {
            id,
            buffer,
            count,
            timeout,
        } => {
            let words = ReceiveWords {
                buffer,
                count,
                timeout,
            };
            let ram = &mut w.bus.ram;
            let reply = queue_rows::receive(&mut w.kern, &mut w.objects, ram, who, id, words);
            Ok(reply)
        }
        Call::MsgQDelete { id } => Ok(queue_rows::delete(&mut w.kern, &mut w.objects, id)),
        Call::MsgQNumMsgs { id } => Ok(queue_rows::count(&w.objects, id)),
        Call::WdCreate => Ok(watch_rows::create(&mut w.kern, &mut w.watch)),
        Call::WdStart {
            id,
            delay,
            routine,
            parameter,
        } => {
            let routine = Routine {
                entry: routine,
                param: parameter,
            };
            let reply = watch_rows::start(&w.kern, &mut w.watch, id, delay, routine);
            Ok(reply)
        }
        Call::WdCancel { id } => Ok(watch_rows::cancel(&mut w.watch, id)),
        Call::WdDelete { id } => Ok(watch_rows::delete(&mut w.watch, id)),
        Call::IntLock => Ok(lock_interrupts(&mut w.kern, who)),
        Call::IntUnlock { key } => Ok(unlock_interrupts(&mut w.kern, who, key)),
        Call::IntContext => Ok(context(who)),
        Call::Malloc { size } => Ok(malloc(&mut w.part, size)),
        Call::Free { address } => Ok(free(&mut w.part, address)),
        Call::Memalign { align, size } => Ok(memalign(&mut w.part, align, size)),
        Call::SymAdd {
            table,
            name,
            value,
            kind,
            ..
        } => {
            let symbol = NewSymbol { name, value, kind };
            add_symbol(alloc, &mut w.syms, &w.bus.ram, table, symbol)
        }
        Call::Printf {
            format,
            values,
            stack,
        } => {
            let bus = &w.bus;
            Ok(print(&bus.ram, format, &values, stack, &mut w.out))
        }
        Call::ErrnoGet => Ok(Reply::Answer(errno_of(w, who))),
        Call::ErrnoSet { number } => {
            set_errno(w, &who, number);
            Ok(DONE)
        }
        // The call needed no file, because the file's name can't be read.
        Call::Ld { .. } => Ok(Reply::Refusal(Errno::BadAddress)),
        Call::Unld { which, .. } => {
            let bus = &w.bus;
            let reply = unload(&mut w.mods, &mut w.part, &mut w.syms, &bus.ram, which);
            Ok(reply)
        }
        Call::I => show_tasks(alloc, &w.kern, &mut w.out),
        Call::Lkup { text } => {
            let bus = &w.bus;
            show_symbols(alloc, &w.syms, &bus.ram, text, &mut w.out)
        }
        Call::ModuleShow => show_modules(alloc, &w.mods, &mut w.out),
        Call::D {
            address,
            units,
            width,
        } => {
            let bus = &w.bus;
            show_memory(alloc, &bus.ram, address, units, width, &mut w.out)
        }
        Call::IntConnect {
            slot,
            routine,
            parameter,
        } => {
            let routine = Routine {
                entry: routine,
                param: parameter,
            };
            Ok(irq_rows::connect(&mut w.irqs, &w.bus, slot, routine))
        }
        Call::IntDisconnect { slot, routine } => {
            Ok(irq_rows::disconnect(&mut w.irqs, &w.bus, slot, routine))
        }
        Call::IntEnable { slot } => Ok(irq_rows::enable(&mut w.irqs, &w.bus, slot, true)),
        Call::IntDisable { slot } => Ok(irq_rows::enable(&mut w.irqs, &w.bus, slot, false)),
        Call::IntPending { slot } => Ok(irq_rows::pending(&w.irqs, &w.bus, slot)),
        Call::DevRemove { slot } => Ok(irq_rows::remove(&mut w.irqs, &mut w.bus, slot)),
    }
}
