//! The creation of queues.

ghost use Rattle.std.specs.Prelude.{◌≡◌, ◌<◌, false, Some, IfOk, IfErr, IfSome, IfNone, List, ℕ};
ghost use Rattle.id_table.specs.Rows.{IdsBelow};
ghost use Rattle.msg_queue.specs.State.{scene};
ghost use Rattle.msg_queue.specs.Comings.{create_refusal, ids_refusal, IsMade, IsNotMade};
ghost use Rattle.msg_queue.specs.Kept.{IsKept};

use crate::queue::Queue;
use crate::queues::Queues;
use crate::size::{MSG_Q_PRIORITY, is_size};
use crate::words::MakeErr;
use id_table::Ident;
use std::alloc::Global;
use wind_base::Errno;
use wind_base::limits::QUEUES;
use wind_core::Kern;

// Why no queue can be made while `live` queues are live. It doesn't consider whether an id is left.
fn refusal(live: usize, max_msgs: u32, max_len: u32, options: u32) -> Option<Errno>
    ensures some { (next : ℕ) → IfSome result (λ e. create_refusal live next max_msgs max_len options ≡ Some e) }
    ensures none { (next : ℕ) → IfNone result (create_refusal live next max_msgs max_len options ≡ ids_refusal next) }
    ensures size { IfNone result (0 < max_msgs) }
{
    if options > MSG_Q_PRIORITY {
        return Some(Errno::InvalidOption);
    }
    if !is_size(max_msgs, max_len) {
        return Some(Errno::BadSize);
    }
    if live >= QUEUES as usize {
        return Some(Errno::TooMany);
    }
    None
}

impl Queues {
    /// Makes an empty queue with room for all its messages (VxWorks 5.4 Reference Manual,
    /// msgQCreate). Tasks wait there by priority with the option `MSG_Q_PRIORITY`, and in order of
    /// arrival with `MSG_Q_FIFO`.
    ///
    /// # Errors
    ///
    /// `Refused` gives the first of these that applies: `InvalidOption` if the options are neither
    /// of these; `BadSize` if the queue would have no message or exceed a size limit; `TooMany` if
    /// 256 queues are live; `IdsSpent` if no id is left. `NoMemory` if host memory runs out. In
    /// each case nothing changes.
    pub fn create(
        &mut self,
        alloc: Global,
        kern: &mut Kern,
        max_msgs: u32,
        max_len: u32,
        options: u32,
    ) -> Result<Ident, MakeErr>
        requires ids { kern.old.lent ≡ false }
        requires below { IdsBelow kern.old.next_id self.old.queues }
        ensures ok { IfOk result (IsMade kern.old kern.new self.old self.new max_msgs max_len options) }
        ensures err { IfErr result (IsNotMade kern.old kern.new self.old self.new max_msgs max_len options) }
        ensures kept { (ram : List ℕ) → IsKept (scene kern.old self.old ram) → IsKept (scene kern.new self.new ram) }
    {
        if let Some(e) = refusal(self.queues.len(), max_msgs, max_len, options) {
            return Err(MakeErr::Refused(e));
        }
        let Ok(queue) = Queue::reserved(alloc, max_msgs, max_len, options == MSG_Q_PRIORITY) else {
            return Err(MakeErr::NoMemory);
        };
        match kern.add_to(&mut self.queues, queue) {
            Ok(id) => Ok(id),
            Err(_) => Err(MakeErr::Refused(Errno::IdsSpent)),
        }
    }
}
