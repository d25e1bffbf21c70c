//! The number of messages of a queue, and its deletion.

ghost use Rattle.std.specs.Prelude.{◌≡◌, ◌<◌, ◌^◌, IsSome, IsOk, IfErr, ◌↔◌, List, ℕ};
ghost use Rattle.wind_base.specs.declared.errno.Errno.TheVariants.{ObjIdError};
ghost use Rattle.id_table.specs.Rows.{object_of};
ghost use Rattle.msg_queue.specs.State.{scene};
ghost use Rattle.msg_queue.specs.Comings.{delete as delete_lem, count_of};
ghost use Rattle.msg_queue.specs.Kept.{IsKept};

use crate::queues::Queues;
use id_table::Place;
use id_table::sides::{OBJECT, SENDERS};
use wind_base::Errno;
use wind_base::words::ERROR;
use wind_core::Kern;

impl Queues {
    /// The number of messages of a queue (VxWorks 5.4 Reference Manual, msgQNumMsgs).
    ///
    /// # Errors
    ///
    /// `ObjIdError` if there is no such queue.
    pub fn count(&self, id: u32) -> Result<u32, Errno>
        ensures { result ≡ count_of (object_of self.now.queues id) }
    {
        let Some(at) = self.find(id) else {
            return Err(Errno::ObjIdError);
        };
        Ok(self.queue(at).count())
    }

    /// Deletes a queue with its messages (VxWorks 5.4 Reference Manual, msgQDelete). The waits of
    /// its receivers and then of its senders end, in their order, with ERROR and `ObjDeleted`.
    ///
    /// # Errors
    ///
    /// `ObjIdError` if there is no such queue. Then nothing changes.
    pub fn delete(&mut self, kern: &mut Kern, id: u32) -> Result<(), Errno>
        requires since { kern.old.next_since < 2 ^ 62 }
        ensures scene { (ram : List ℕ) → scene kern.new self.new ram ≡ delete_lem (scene kern.old self.old ram) id }
        ensures live { IsOk result ↔ IsSome (object_of self.old.queues id) }
        ensures err { IfErr result (λ e. e ≡ ObjIdError) }
        ensures kept { (ram : List ℕ) → IsKept (scene kern.old self.old ram) → IsKept (scene kern.new self.new ram) }
    {
        kern.facts();
        let Some(at) = self.find(id) else {
            return Err(Errno::ObjIdError);
        };
        let receivers = Place {
            side: OBJECT,
            id: at,
        };
        let senders = Place {
            side: SENDERS,
            id: at,
        };
        kern.wake_all(receivers, ERROR, Some(Errno::ObjDeleted));
        kern.wake_all(senders, ERROR, Some(Errno::ObjDeleted));
        self.queues.remove(at);
        Ok(())
    }
}
