//! Linked lists of ids.

ghost use Rattle.std.specs.Prelude.{◌≡◌, ◌<◌, [], None, length, replicate, IfOk, IsSome, option_copied, Some};
ghost use Rattle.std.specs.Option.{ForSome};
ghost use Rattle.linked_lists.specs.Chains.{Chains, all_cells, chain_at, first_key, value_in, value_of, first_value as first_value_lem, with_cell, without_cell, with_value, AreChains, NextIs};
ghost use Rattle.linked_lists.specs.Named.{list_found};

use crate::index::{key_at, key_of};
use crate::lists::Lists;
use gap_vec::GapVec;
use id_table::entry::{Entry, position_of, rank_of};
use id_table::{Ident, NoMemory};
use std::alloc::Global;
use std::marker::Model;

// What a node holds: its id, and a value.
#[derive(Drop)]
pub(crate) struct Member<T> {
    pub(crate) who: Ident,
    pub(crate) value: T,
}

/// A fixed number of linked lists of ids, each id with a value. An id is in at most one list, and
/// only once.
#[derive(Drop)]
pub struct IdLists<T> {
    lists: Lists<Member<T>>,
    // by rising id
    index: GapVec<Entry>,
}

impl<T> Model for IdLists<T> {
    ghost use Rattle.linked_lists.specs.Chains.{Chains, chains_code};

    ghost Value = { Chains T };

    ghost coded = { chains_code T.code };

    ghost use Rattle.std.specs.Prelude.{◌≤◌};
    ghost use Rattle.linked_lists.specs.Named.{named, IsIndexed};

    ghost view = { λ t. named t.lists };

    ghost invariant = { λ t. (t.lists.room ≤ t.index.room) × IsIndexed t.lists.chains t.index.items };
}

impl<T> IdLists<T> {
    /// The given number of empty lists, with room for `n` ids together. No other call takes memory.
    pub fn reserved(alloc: Global, lists: u32, n: u32) -> Result<IdLists<T>, NoMemory>
        ensures { IfOk result (λ t. t ≡ record { chains = replicate lists []; room = n }) }
    {
        let index = GapVec::with_capacity(alloc, 2 * n as usize)?;
        let lists = Lists::reserved(alloc, lists, n)?;
        Ok(IdLists { lists, index })
    }

    /// Does nothing. Its contract states the invariant of the lists.
    pub fn facts(&self)
        ensures { AreChains self.now }
    {
        self.lists.facts();
        // reading the index makes the invariant known
        let _ = &self.index;
    }

    /// The number of ids in all lists together.
    pub fn len(&self) -> usize
        ensures { result ≡ length (all_cells self.now.chains) }
    {
        self.index.as_slice().len()
    }

    /// The greatest number of ids in all lists together.
    pub fn room(&self) -> usize
        ensures { result ≡ self.now.room }
    {
        self.lists.room()
    }

    /// The first id of a list. None if the list is empty.
    pub fn first(&self, list: usize) -> Option<Ident>
        requires { list < length self.now.chains }
        ensures { result ≡ first_key (chain_at self.now.chains list) }
    {
        let key = self.lists.first(list)?;
        Some(self.lists.value(key).who)
    }

    /// Inserts an id, which is in no list, into a list: before another id of the list, or at its
    /// end if `next` is none. The lists must have room for one more id.
    pub fn insert_before(&mut self, list: usize, next: Option<Ident>, who: Ident, value: T)
        requires list { list < length self.old.chains }
        requires next { ForSome next (λ id. IsSome (value_in (chain_at self.old.chains list) id)) }
        requires absent { value_of self.old.chains who ≡ None }
        requires room { length (all_cells self.old.chains) < self.old.room }
        ensures { self.new ≡ with_cell self.old list next (who, value) }
    {
        let next = key_of(self.index.as_slice(), next);
        let rank = rank_of(self.index.as_slice(), who);
        let key = self.lists.insert_before(list, next, Member { who, value });
        self.index.insert(rank, Entry { id: who, key });
    }

    /// Removes an id and returns its value. None if it is in no list; then nothing changes.
    pub fn remove(&mut self, who: Ident) -> Option<T>
        ensures value { result ≡ value_of self.old.chains who }
        ensures chains { self.new ≡ without_cell self.old who }
    {
        let at = position_of(self.index.as_slice(), who)?;
        let Entry { id: _, key } = self.index.remove(at);
        let Member { who: _, value } = self.lists.remove(key);
        Some(value)
    }

    /// The list that an id is in. None if it is in no list.
    pub fn list_of(&self, who: Ident) -> Option<usize>
        ensures { list_found self.now.chains who result }
    {
        let index = self.index.as_slice();
        let at = position_of(index, who)?;
        Some(self.lists.list_of(index[at].key))
    }

    /// The value of an id, which must be in a list.
    pub fn value(&self, who: Ident) -> &T
        requires { IsSome (value_of self.now.chains who) }
        ensures { value_of self.now.chains who ≡ Some result.now }
    {
        &self.lists.value(key_at(self.index.as_slice(), who)).value
    }

    /// The value of the first id of a list. None if the list is empty.
    pub fn first_value(&self, list: usize) -> Option<&T>
        requires { list < length self.now.chains }
        ensures { option_copied result ≡ first_value_lem (chain_at self.now.chains list) }
    {
        let key = self.lists.first(list)?;
        Some(&self.lists.value(key).value)
    }

    /// The id after `who` in its list. None if `who` is the last of its list or in no list.
    pub fn next(&self, who: Ident) -> Option<Ident>
        ensures after { NextIs self.now.chains who result }
        ensures absent { value_of self.now.chains who ≡ None → result ≡ None }
    {
        let index = self.index.as_slice();
        let position = position_of(index, who)?;
        let next = self.lists.next(index[position].key)?;
        Some(self.lists.value(next).who)
    }

    /// Gives an id, which must be in a list, another value.
    pub fn set(&mut self, who: Ident, value: T)
    where
        T: Drop,
        requires { IsSome (value_of self.old.chains who) }
        ensures { self.new ≡ with_value self.old who value }
    {
        let key = key_at(self.index.as_slice(), who);
        self.lists.set(key, Member { who, value });
    }
}
