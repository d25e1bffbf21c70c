//! Linked lists in one slab.

ghost use Rattle.std.specs.Option.{ForSome};
ghost use Rattle.std.specs.Prelude.{◌≡◌, ◌<◌, ◌+◌, [], None, Some, length, replicate, IfOk, IsSome};
ghost use Rattle.linked_lists.specs.Chains.{Chains, all_cells, chain_at, first_key, value_in, value_of, with_cell, without_cell, with_value, AreChains, IsOnlyIn, ValueIs, NextIs};

use crate::node::Side::{After, Before};
use crate::node::{Ends, Node, link, node_before};
use id_table::NoMemory;
use slab::Slab;
use std::alloc::Global;
use std::marker::Model;

/// A fixed number of linked lists, whose nodes are in one slab. A node keeps its key as long as it
/// is in its list.
#[derive(Drop)]
pub struct Lists<T> {
    room: usize,
    nodes: Slab<Node<T>>,
    ends: Vec<Ends>,
}

impl<T> Model for Lists<T> {
    ghost use Rattle.linked_lists.specs.Chains.{Chains, chains_code};

    ghost Value = { Chains T };

    ghost coded = { chains_code T.code };

    ghost use Rattle.linked_lists.specs.Inside.{chains_in, IsKept};

    ghost view = { λ t. record { chains = chains_in t.nodes t.ends.items; room = t.room } };

    ghost invariant = { λ t. IsKept t.nodes t.ends.items (chains_in t.nodes t.ends.items) t.room };
}

impl<T> Lists<T> {
    /// The given number of empty lists, with room for `n` nodes together. No other call takes
    /// memory.
    pub fn reserved(alloc: Global, lists: u32, n: u32) -> Result<Lists<T>, NoMemory>
        ensures { IfOk result (λ t. t ≡ record { chains = replicate lists []; room = n }) }
    {
        let room = n as usize;
        let empty = Ends {
            first: None,
            last: None,
        };
        let ends = vec![in alloc; empty; lists as usize]?;
        let nodes = Slab::with_capacity(alloc, room)?;
        Ok(Lists { room, nodes, ends })
    }

    /// Does nothing. Its contract states the invariant of the lists.
    pub fn facts(&self)
        ensures { AreChains self.now }
    {
        // reading the nodes makes the invariant known
        let _ = &self.nodes;
    }

    /// The greatest number of nodes in all lists together.
    pub fn room(&self) -> usize
        ensures { result ≡ self.now.room }
    {
        self.room
    }

    /// The key of the first node of a list. None if the list is empty.
    pub fn first(&self, list: usize) -> Option<usize>
        requires { list < length self.now.chains }
        ensures { result ≡ first_key (chain_at self.now.chains list) }
    {
        self.ends[list].first
    }

    /// The value that a node holds.
    pub fn value(&self, key: usize) -> &T
        requires { IsSome (value_of self.now.chains key) }
        ensures value { value_of self.now.chains key ≡ Some result.now }
        ensures same { ValueIs self.now.chains key result.now }
    {
        &self.nodes[key].value
    }

    /// The key of the node after this one in its list. None if this one is the last.
    pub fn next(&self, key: usize) -> Option<usize>
        requires { IsSome (value_of self.now.chains key) }
        ensures { NextIs self.now.chains key result }
    {
        self.nodes[key].after
    }

    /// The number of the list that a node is in.
    pub fn list_of(&self, key: usize) -> usize
        requires { IsSome (value_of self.now.chains key) }
        ensures { IsOnlyIn self.now.chains key result }
    {
        self.nodes[key].list
    }

    /// Inserts a node into a list before another of its nodes, or at its end if `next` is none, and
    /// returns the new node's key. No other node has this key. The lists must have room for one
    /// more node.
    pub fn insert_before(&mut self, list: usize, next: Option<usize>, value: T) -> usize
        requires list { list < length self.old.chains }
        requires next { ForSome next (λ key. IsSome (value_in (chain_at self.old.chains list) key)) }
        requires room { length (all_cells self.old.chains) < self.old.room }
        ensures fresh { value_of self.old.chains result ≡ None }
        ensures chains { self.new ≡ with_cell self.old list next (result, value) }
    {
        let before = node_before(&self.nodes, &self.ends, list, next);
        let key = self.nodes.insert_reserved(Node {
            list,
            before,
            after: next,
            value,
        });
        let new = Some(key);
        link(&mut self.nodes, &mut self.ends, list, After, before, new);
        link(&mut self.nodes, &mut self.ends, list, Before, next, new);
        key
    }

    /// Replaces the value that a node holds.
    pub fn set(&mut self, key: usize, value: T)
    where
        T: Drop,
        requires { IsSome (value_of self.old.chains key) }
        ensures { self.new ≡ with_value self.old key value }
    {
        self.nodes[key].value = value;
    }

    /// Removes a node from its list and returns the value that it held.
    pub fn remove(&mut self, key: usize) -> T
        requires { IsSome (value_of self.old.chains key) }
        ensures value { value_of self.old.chains key ≡ Some result }
        ensures chains { self.new ≡ without_cell self.old key }
        ensures count { length (all_cells self.new.chains) + 1 ≡ length (all_cells self.old.chains) }
    {
        let Node {
            list,
            before,
            after,
            value,
        } = self.nodes.remove(key);
        link(&mut self.nodes, &mut self.ends, list, After, before, after);
        link(&mut self.nodes, &mut self.ends, list, Before, after, before);
        value
    }
}
