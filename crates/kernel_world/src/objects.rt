//! The kernel's objects other than tasks and watchdogs.

ghost use Rattle.std.specs.Prelude.{◌≡◌, IfOk};
ghost use Rattle.kernel_world.specs.Objects.{no_objects};

use msg_queue::Queues;
use sem_mutex::Mutexes;
use sem_plain::Plain;
use std::alloc::Global;
use wind_base::{NoMemory, Profile};

/// The kernel's objects other than tasks and watchdogs.
#[derive(Drop)]
pub struct Objects {
    /// The binary and counting semaphores.
    pub semaphores: Plain,
    /// The mutexes.
    pub mutexes: Mutexes,
    /// The message queues.
    pub queues: Queues,
}

// No objects, with room reserved for the most of each kind, under a rule of inheritance.
pub(crate) fn reserved(alloc: Global, profile: Profile) -> Result<Objects, NoMemory>
    ensures { IfOk result (λ o. o ≡ no_objects profile) }
{
    Ok(Objects {
        semaphores: Plain::reserved(alloc)?,
        mutexes: Mutexes::reserved(alloc, profile)?,
        queues: Queues::reserved(alloc)?,
    })
}
