//! The symbols in order of adding, and their chains.

ghost use Rattle.std.specs.Prelude.{◌≡◌, ◌<◌, ◌≤◌, ◌-◌, ◌+◌, ◌↔◌, [], length, take, IfOk, OnOk, Err, map, option_copied, vec_capacity};
ghost use Rattle.wind_base.specs.Limits.{most_symbols};
ghost use Rattle.symbol_table.specs.Newest.{newest, find_by_value};
ghost use Rattle.std.specs.List.{All};
ghost use Rattle.symbol_table.specs.State.{IsNamed, added, without_group, count_of};
ghost use Rattle.symbol_table.specs.Chains.{AreChains, hashes_of, is_sought, table_of};
ghost use Rattle.symbol_table.specs.Runs.{HasNone};
ghost use Rattle.symbol_table.specs.declared.symbol.SymErr.TheVariants as errors;

use crate::hashes::Hashes;
use crate::links::{Key, Links};
use crate::runs::{add_runs, first_of};
use crate::search::{leave_first, link_from, newest_named, newest_valued, widen};
use crate::symbol::{SymErr, Symbol};
use std::alloc::Global;
use std::marker::Model;
use wind_base::NoMemory;
use wind_base::limits::SYMBOLS;

/// Symbols in order of adding, with chains by name and by value. Each chain holds exactly the
/// entries of its hashes, from the newest to the oldest. There are at least as many chains of each
/// kind as there are symbols and room for more.
#[derive(Drop)]
pub struct Chains {
    list: Vec<Symbol>,
    // the hashes of each symbol
    hashes: Vec<Hashes>,
    // for each symbol, a position from which on all symbols up to it have its group
    runs: Vec<u32>,
    spare: u32,
    names: Links,
    values: Links,
}

impl Model for Chains {
    ghost use Rattle.std.specs.Prelude.{◌≡◌, ◌≤◌, ◌+◌, length, map, vec_capacity};
    ghost use Rattle.symbol_table.specs.Chains.{ChainsState, AreChains, hashes_of, state_of};
    ghost use Rattle.symbol_table.specs.Runs.{AreRuns};

    ghost Value = { ChainsState };

    ghost view = { λ t. record {
      list = t.list.items;
      spare = t.spare;
      names = state_of t.names;
      values = state_of t.values;
    } };

    ghost invariant = { λ t. (length t.list.items + t.spare ≤ vec_capacity t.list)
        × (length t.list.items + t.spare ≤ vec_capacity t.names.before)
        × (length t.list.items + t.spare ≤ vec_capacity t.values.before)
        × AreChains (record {
          list = t.list.items;
          spare = t.spare;
          names = state_of t.names;
          values = state_of t.values;
        })
        × (length t.list.items + t.spare ≤ vec_capacity t.runs)
        × (length t.runs.items ≡ length t.list.items)
        × AreRuns t.list.items t.runs.items
        × (length t.list.items + t.spare ≤ vec_capacity t.hashes)
        × (t.hashes.items ≡ map hashes_of t.list.items) };
}

impl Chains {
    /// No symbols, and no room.
    pub(crate) fn new(alloc: Global) -> Result<Chains, NoMemory>
        ensures { IfOk result (λ t. table_of t ≡ record { list = []; spare = 0 }) }
    {
        let names = Links::new(alloc)?;
        let values = Links::new(alloc)?;
        Ok(Chains {
            list: Vec::new(alloc),
            hashes: Vec::new(alloc),
            runs: Vec::new(alloc),
            spare: 0,
            names,
            values,
        })
    }

    /// The symbols in order of adding. The contract also gives the invariant of the chains.
    pub fn entries(&self) -> &[Symbol]
        ensures value { result.now ≡ self.now.list }
        ensures sound { AreChains self.now }
    {
        &self.list
    }

    /// As `Symbols::reserve`.
    pub(crate) fn reserve(&mut self, n: u32) -> Result<(), SymErr>
        ensures full { (result ≡ Err errors.TableFull) ↔ (most_symbols < length self.old.list + n) }
        ensures list { self.new.list ≡ self.old.list }
        ensures room { OnOk result (n ≤ self.new.spare) }
        ensures no_less { self.old.spare ≤ self.new.spare }
    {
        if n <= self.spare {
            return Ok(());
        }
        if self.list.len() as u64 + u64::from(n) > u64::from(SYMBOLS) {
            return Err(SymErr::TableFull);
        }
        let more = room_for(self.list.len() as u32, n);
        match self.make_room(more) {
            Ok(()) => Ok(()),
            Err(NoMemory) => Err(SymErr::NoMemory),
        }
    }

    /// Makes room for `n` symbols, and chains for them.
    fn make_room(&mut self, n: u32) -> Result<(), NoMemory>
        requires within { length self.old.list + n ≤ most_symbols }
        requires more { self.old.spare ≤ n }
        ensures list { self.new.list ≡ self.old.list }
        ensures room { OnOk result (n ≤ self.new.spare) }
        ensures no_less { self.old.spare ≤ self.new.spare }
    {
        self.list.reserve(n as usize)?;
        self.hashes.reserve(n as usize)?;
        self.runs.reserve(n as usize)?;
        self.names.reserve(n)?;
        self.values.reserve(n)?;
        let all = self.list.len() as u32 + n;
        widen(Key::Name, &self.list, &self.hashes, &mut self.names, all)?;
        widen(Key::Value, &self.list, &self.hashes, &mut self.values, all)?;
        self.spare = n;
        Ok(())
    }

    /// As `Symbols::add`.
    pub(crate) fn add(&mut self, symbol: Symbol)
        requires room { 0 < self.old.spare }
        requires named { 0 < length symbol.name }
        ensures { table_of self.new ≡ added (table_of self.old) symbol }
    {
        let hashes = Hashes::new(symbol.name.bytes(), symbol.value);
        self.names.add(hashes.name);
        self.values.add(hashes.value);
        self.list.push_reserved(symbol);
        self.hashes.push_reserved(hashes);
        add_runs(&self.list, &mut self.runs);
        self.spare -= 1;
    }

    /// The newest symbol with the name, or the newest global one.
    pub(crate) fn find_named(&self, name: &[u8], global_only: bool) -> Option<&Symbol>
        ensures { option_copied result ≡ newest (is_sought global_only name.now) self.now.list }
    {
        newest_named(&self.list, &self.names, name, global_only)
    }

    /// The newest symbol with the value.
    pub(crate) fn find_valued(&self, value: u32) -> Option<&Symbol>
        ensures { option_copied result ≡ find_by_value self.now.list value }
    {
        newest_valued(&self.list, &self.values, value)
    }

    /// As `Symbols::remove_group`.
    pub(crate) fn remove_group(&mut self, group: u32) -> u32
        ensures count { result ≡ count_of group self.old.list }
        ensures list { self.new.list ≡ without_group group self.old.list }
        ensures spare { self.new.spare ≡ self.old.spare }
    {
        let before = self.list.len();
        let first = first_of(&self.list, &self.runs, group);
        leave_first(Key::Name, &self.list, &self.hashes, &mut self.names, first);
        leave_first(
            Key::Value,
            &self.list,
            &self.hashes,
            &mut self.values,
            first,
        );
        drop_group(&mut self.list, &mut self.hashes, first, group);
        self.runs.truncate(first);
        add_runs(&self.list, &mut self.runs);
        link_from(Key::Name, &self.list, &self.hashes, &mut self.names, first);
        link_from(
            Key::Value,
            &self.list,
            &self.hashes,
            &mut self.values,
            first,
        );
        (before - self.list.len()) as u32
    }
}

/// How many symbols to make room for, if `n` are to be added to `len`: at least as many as there
/// are, unless the table can't hold these, so single symbols that are added one by one seldom make
/// room.
fn room_for(len: u32, n: u32) -> u32
    requires { len + n ≤ most_symbols }
    ensures enough { n ≤ result }
    ensures within { len + result ≤ most_symbols }
{
    u32::max(n, u32::min(len, SYMBOLS - len))
}

/// Removes a group's symbols and their hashes. No symbol before position `first` belongs to the
/// group.
fn drop_group(list: &mut Vec<Symbol>, hashes: &mut Vec<Hashes>, first: usize, group: u32)
    requires hashed { hashes.old.items ≡ map hashes_of list.old.items }
    requires within { first ≤ length list.old.items }
    requires none { HasNone group list.old.items 0 first }
    ensures items { list.new.items ≡ without_group group list.old.items }
    ensures before { take first list.new.items ≡ take first list.old.items }
    ensures within { first ≤ length list.new.items }
    ensures capacity { vec_capacity list.new ≡ vec_capacity list.old }
    ensures counted { length list.new.items + count_of group list.old.items ≡ length list.old.items }
    ensures named { All IsNamed list.old.items → All IsNamed list.new.items }
    ensures hashed { hashes.new.items ≡ map hashes_of list.new.items }
    ensures hashes_capacity { vec_capacity hashes.new ≡ vec_capacity hashes.old }
{
    let mut kept = first;
    for i in first..list.len() {
        if list[i].group != group {
            list.swap(kept, i);
            hashes.swap(kept, i);
            kept += 1;
        }
    }
    list.truncate(kept);
    hashes.truncate(kept);
}
