//! Tables of objects by id.

ghost use Rattle.std.specs.Prelude.{◌≡◌, ◌<◌, ◌≤◌, [], false, length, IfOk, IfErr, IsOk, ◌↔◌, None, Some, IsSome, MatchOption, is_some, option_copied, slice_index_or};
ghost use Rattle.std.specs.Option.{option_copied_mut};
ghost use Rattle.std.specs.Borrow.{sem};
ghost use Rattle.wind_base.specs.Limits.{greatest_id};
ghost use Rattle.id_table.specs.Rows.{object_of, ids, objects, add_refusal, added, removed, IdsBelow, IsTable, Rises, next_above};
ghost use Rattle.id_table.specs.Source.{one_given};

use crate::entry::{Entry, id_above, position_near};
use crate::ident::Ident;
use crate::source::IdSource;
use slab::Slab;
use std::alloc::Global;
use std::marker::Model;
use wind_base::{Errno, NoMemory};

/// Objects by id, with a limit on their number.
#[derive(Drop)]
pub struct Table<T> {
    room: usize,
    // the position of the last object that was lent for writing; look-ups for writing begin there
    recent: usize,
    // by rising id
    order: Vec<Entry>,
    slots: Slab<T>,
}

impl<T> Model for Table<T> {
    ghost use Rattle.std.specs.Prelude.{◌≤◌, vec_capacity};
    ghost use Rattle.id_table.specs.Rows.{Rows, rows_code};

    ghost Value = { Rows T };

    ghost coded = { rows_code T.code };

    ghost use Rattle.id_table.specs.Inside.{rows_in, IsKept};

    ghost view = { λ t. record { rows = rows_in t.order.items t.slots; room = t.room } };

    ghost invariant = { λ t. (t.room ≤ vec_capacity t.order) × IsKept t.order.items t.slots t.room };
}

impl<T> Table<T> {
    ghost use Rattle.id_table.specs.Lends.{lends_object, lends_found};

    /// An empty table with room for `n` objects. No other call takes memory.
    pub fn reserved(alloc: Global, n: u32) -> Result<Table<T>, NoMemory>
        ensures { IfOk result (λ t. t ≡ record { rows = []; room = n }) }
    {
        let room = n as usize;
        let order = Vec::with_capacity(alloc, room)?;
        let slots = Slab::with_capacity(alloc, room)?;
        Ok(Table {
            room,
            recent: 0,
            order,
            slots,
        })
    }

    /// Does nothing. Its contract states the table's invariant.
    pub fn facts(&self)
        ensures { IsTable self.now }
    {
        // reading the order makes the invariant known
        let _ = &self.order;
    }

    /// The number of objects.
    pub fn len(&self) -> usize
        ensures { result ≡ length self.now.rows }
    {
        self.order.len()
    }

    /// The id at this position; positions count from 0 by rising id.
    pub fn id_at(&self, position: usize) -> Ident
        requires { position < length self.now.rows }
        ensures { result ≡ slice_index_or (ids self.now.rows) position result }
    {
        self.order[position].id
    }

    /// The object at this position; positions count from 0 by rising id.
    pub fn value_at(&self, position: usize) -> &T
        requires { position < length self.now.rows }
        ensures { result.now ≡ slice_index_or (objects self.now.rows) position result.now }
    {
        let key = self.order[position].key;
        &self.slots[key]
    }

    /// The object with this id. None if the id isn't live in this table.
    pub fn get(&self, id: Ident) -> Option<&T>
        ensures { option_copied result ≡ object_of self.now.rows id }
    {
        let at = position_near(&self.order, id, self.recent)?;
        self.slots.get(self.order[at].key)
    }

    /// Whether this id is live in this table.
    pub fn contains(&self, id: Ident) -> bool
        ensures { result ≡ is_some (object_of self.now.rows id) }
    {
        self.get(id).is_some()
    }

    /// The id with this number, if it is live in this table.
    pub fn find(&self, number: u32) -> Option<Ident>
        ensures { MatchOption result (object_of self.now.rows number ≡ None)
            (λ id. (id ≡ number) × IsSome (object_of self.now.rows id)) }
    {
        self.facts();
        let id = Ident::new(number)?;
        if self.contains(id) { Some(id) } else { None }
    }

    /// The id under which the next object will be added.
    ///
    /// # Errors
    ///
    /// `TooMany` if the table is full; otherwise `IdsSpent` if no id is left.
    pub fn next_id(&self, ids: &IdSource) -> Result<Ident, Errno>
        ensures ok { IfOk result (λ id. (add_refusal self.now.room (length self.now.rows) ids.now.next ≡ None)
            × (id ≡ ids.now.next)) }
        ensures err { IfErr result (λ e. add_refusal self.now.room (length self.now.rows) ids.now.next ≡ Some e) }
        ensures when { IsOk result ↔ (length self.now.rows < self.now.room) × (ids.now.next ≤ greatest_id) }
    {
        if self.len() >= self.room {
            return Err(Errno::TooMany);
        }
        ids.peek().ok_or(Errno::IdsSpent)
    }

    /// The least live id above `id`. None if there is none.
    pub fn next_after(&self, id: u32) -> Option<Ident>
        ensures value { result ≡ next_above self.now.rows id }
        ensures rising { Rises self.now.rows }
    {
        id_above(&self.order, id)
    }

    /// A mutable reference to the object with this id, which must exist.
    pub fn object_mut(&mut self, id: Ident) -> &mut T
        requires { IsSome (object_of self.old.rows id) }
        ensures* writes_back { sem 𝓛 (lends_object T.row self.entry id result) }
        ensures value { object_of self.old.rows id ≡ Some result.now }
    {
        match position_near(&self.order, id, self.recent) {
            Some(at) => {
                self.recent = at;
                let key = self.order[at].key;
                &mut self.slots[key]
            }
            None => unreachable!(),
        }
    }

    /// A mutable reference to the object with this id. None if the id isn't live in this table.
    pub fn get_mut(&mut self, id: Ident) -> Option<&mut T>
        ensures* writes_back { sem 𝓛 (lends_found T.row self.entry id result) }
        ensures value { option_copied_mut result ≡ object_of self.old.rows id }
    {
        if self.contains(id) {
            Some(self.object_mut(id))
        } else {
            None
        }
    }

    /// Removes the object with this id. None if the id isn't live in this table.
    pub fn remove(&mut self, id: Ident) -> Option<T>
        ensures value { result ≡ object_of self.old.rows id }
        ensures rows { self.new ≡ removed self.old id }
    {
        let at = position_near(&self.order, id, self.recent)?;
        let Entry { id: _, key } = self.order.remove(at);
        Some(self.slots.remove(key))
    }

    /// Adds an object under the source's next id. The source's ids aren't lent, and every live id
    /// of this table is below the next. If the table is full or no id is left, nothing changes and
    /// the object is returned.
    pub fn add(&mut self, ids: &mut IdSource, value: T) -> Result<Ident, T>
        requires home { ids.old.lent ≡ false }
        requires below { IdsBelow ids.old.next self.old.rows }
        ensures id { IfOk result (λ id. (id ≡ ids.old.next) × (ids.new ≡ one_given ids.old)) }
        ensures rows { IfOk result (λ id. self.new ≡ added self.old id value) }
        ensures err { IfErr result (λ v. (v ≡ value) × (self.new ≡ self.old) × (ids.new ≡ ids.old)) }
        ensures when { IsOk result ↔ (length self.old.rows < self.old.room) × (ids.old.next ≤ greatest_id) }
    {
        if self.order.len() >= self.room {
            return Err(value);
        }
        let Some(id) = ids.draw() else {
            return Err(value)
        };
        let key = self.slots.insert_reserved(value);
        self.order.push_reserved(Entry { id, key });
        Ok(id)
    }
}
