//! The table and its calls.

ghost use Rattle.std.specs.Prelude.{◌≡◌, ◌<◌, ◌≤◌, ◌+◌, ◌↔◌, [], length, IfOk, OnOk, Err, slice_get, option_copied};
ghost use Rattle.wind_base.specs.Limits.{most_symbols};
ghost use Rattle.symbol_table.specs.Newest.{find, find_global, find_by_value};
ghost use Rattle.symbol_table.specs.State.{IsTable, added, without_group, count_of};
ghost use Rattle.symbol_table.specs.Chains.{table_of};
ghost use Rattle.symbol_table.specs.declared.symbol.SymErr.TheVariants as errors;

use crate::chains::Chains;
use crate::symbol::{SymErr, Symbol};
use std::alloc::Global;
use std::marker::Model;
use wind_base::NoMemory;

/// Symbols in order of adding, at most 65,536. Contracts see them as a list, together with the
/// number of further symbols that there is room for.
#[derive(Drop)]
pub struct Symbols {
    chains: Chains,
}

impl Model for Symbols {
    ghost use Rattle.symbol_table.specs.State.{TableState};
    ghost use Rattle.symbol_table.specs.Chains.{table_of};

    ghost Value = { TableState };

    ghost view = { λ t. table_of t.chains };
}

impl Symbols {
    /// Makes a table without symbols and without room.
    pub fn new(alloc: Global) -> Result<Symbols, NoMemory>
        ensures { IfOk result (λ t. t ≡ record { list = []; spare = 0 }) }
    {
        match Chains::new(alloc) {
            Ok(chains) => Ok(Symbols { chains }),
            Err(NoMemory) => Err(NoMemory),
        }
    }

    /// Reserves room for `n` more symbols. It is refused exactly if the total would exceed 65,536
    /// or host memory runs out. The symbols stay as they were in every case.
    pub fn reserve(&mut self, n: u32) -> Result<(), SymErr>
        ensures full { (result ≡ Err errors.TableFull) ↔ (most_symbols < length self.old.list + n) }
        ensures list { self.new.list ≡ self.old.list }
        ensures room { OnOk result (n ≤ self.new.spare) }
        ensures no_less { self.old.spare ≤ self.new.spare }
    {
        self.chains.reserve(n)
    }

    /// The number of symbols. The contract also gives the invariant of the table: there are never
    /// more than 65,536 symbols, and each has a name of 1 to 255 bytes.
    pub fn len(&self) -> u32
        ensures count { result ≡ length self.now.list }
        ensures sound { IsTable self.now }
    {
        self.chains.entries().len() as u32
    }

    /// The symbol with this number, counted from 0 in order of adding.
    pub fn at(&self, i: u32) -> Option<&Symbol>
        ensures { option_copied result ≡ slice_get self.now.list i }
    {
        self.chains.entries().get(i as usize)
    }

    /// Adds a symbol after the others. There must be room for it, and its name must not be empty.
    pub fn add(&mut self, symbol: Symbol)
        requires room { 0 < self.old.spare }
        requires named { 0 < length symbol.name }
        ensures { self.new ≡ added self.old symbol }
    {
        self.chains.add(symbol);
    }

    /// The newest symbol with the name.
    pub fn find(&self, name: &[u8]) -> Option<&Symbol>
        ensures { option_copied result ≡ find self.now.list name.now }
    {
        self.chains.find_named(name, false)
    }

    /// The newest global symbol with the name.
    pub fn find_global(&self, name: &[u8]) -> Option<&Symbol>
        ensures { option_copied result ≡ find_global self.now.list name.now }
    {
        self.chains.find_named(name, true)
    }

    /// The newest symbol with the value.
    pub fn find_by_value(&self, value: u32) -> Option<&Symbol>
        ensures { option_copied result ≡ find_by_value self.now.list value }
    {
        self.chains.find_valued(value)
    }

    /// Removes the symbols of a module's group, and returns how many there were. The others stay in
    /// order.
    pub fn remove_group(&mut self, group: u32) -> u32
        requires { 0 < group }
        ensures count { result ≡ count_of group self.old.list }
        ensures list { self.new.list ≡ without_group group self.old.list }
        ensures spare { self.new.spare ≡ self.old.spare }
    {
        self.chains.remove_group(group)
    }

    /// The symbols in their chains, which hold exactly the entries of the table.
    pub fn chains(&self) -> &Chains
        ensures { table_of result.now ≡ self.now }
    {
        &self.chains
    }
}
