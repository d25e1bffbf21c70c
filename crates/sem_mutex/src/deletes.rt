//! The deletion of mutexes.

ghost use Rattle.std.specs.Prelude.{◌≡◌, ◌<◌, ◌+◌, ◌^◌, Some, None, IsSome, IfOk, IfErr};
ghost use Rattle.id_table.specs.Rows.{object_of};
ghost use Rattle.inheritance.specs.Mutexes.{both};
ghost use Rattle.sem_mutex.specs.Kept.{KeepsMutexes, FewSinces};
ghost use Rattle.sem_mutex.specs.Calls.{its_owner_ended, delete, delete_refusal};

use crate::mutexes::Mutexes;
use crate::owners::{ease, let_go};
use id_table::sides::OBJECT;
use id_table::{Ident, Place};
use wind_base::Errno;
use wind_base::words::ERROR;
use wind_core::Kern;

impl Mutexes {
    // Ends the ownership of a live owner: it gives up all its takes.
    fn end_owner(&self, k: &mut Kern, id: Ident)
        requires there { IsSome (object_of self.now.rows id) }
        requires since { k.old.next_since + 1 < 2 ^ 63 }
        ensures { k.new ≡ its_owner_ended self.now.profile k.old (object_of self.now.rows id) }
    {
        let m = self.mutex(id);
        let Some(owner) = m.owner else {
            return;
        };
        let depth = m.depth;
        if k.task(owner).is_none() {
            return;
        }
        let_go(k, owner, m, self.profile);
        ease(k, owner, m, depth);
    }

    /// Deletes the mutex (semDelete). The waits for it end, in their order, with ERROR and
    /// `ObjDeleted`. A live owner gives up all its takes.
    ///
    /// # Errors
    ///
    /// `ObjIdError` if there is no such mutex. Then nothing changes.
    pub fn delete(&mut self, k: &mut Kern, id: u32) -> Result<(), Errno>
        requires kept { KeepsMutexes (both k.old self.old) }
        requires since { FewSinces k.old }
        ensures ok { IfOk result (λ _. (delete_refusal (object_of self.old.rows id) ≡ None)
            × (both k.new self.new ≡ delete (both k.old self.old) id)) }
        ensures err { IfErr result (λ e. (delete_refusal (object_of self.old.rows id) ≡ Some e)
            × (both k.new self.new ≡ both k.old self.old)) }
        ensures kept { KeepsMutexes (both k.new self.new) }
    {
        let id = self.live(k, id)?;
        k.wake_all(Place { side: OBJECT, id }, ERROR, Some(Errno::ObjDeleted));
        self.end_owner(k, id);
        self.table.remove(id);
        Ok(())
    }
}
