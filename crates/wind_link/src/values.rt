//! The values of the global names that the modules so far define.

ghost use Rattle.std.specs.Prelude.{◌≡◌, ℕ, ◌∷◌, List, None, Some, OnOk, IfOk, is_some, length, if◌then◌else◌, bytes_eq};
ghost use Rattle.elf_read.specs.declared.module.Sect.{Sect};
ghost use Rattle.symbol_table.specs.Newest.{find_global};
ghost use Rattle.module_image.specs.{Exports.{export_of, exports_from}, Image.{meaning_by, meanings_from}, Opening.symbols_of_gate};
ghost use Rattle.wind_base.specs.Limits.{gates_start};
ghost use Rattle.wind_link.specs.{Linking.opening_symbols, Values.{entry_of, entry_else, value_of, is_valueless as is_valueless_lem, Means}};

use elf_read::standard::STB_WEAK;
use elf_read::{Sym, SymPlace};
use module_image::is_visible;
use std::alloc::{AllocError, Global};
use std::collections::BTreeMap;
use wind_base::limits::GATES_START;
use wind_base::{Gate, gate_name};

/// The values of global names. A later module's value replaces an earlier one.
#[derive(Drop)]
pub(crate) struct Values<'a> {
    /// The value of each name.
    pub by_name: BTreeMap<&'a [u8], u32>,
}

impl<'a> Values<'a> {
    // No name has a value.
    #[tactic(auto, unfolding(crate::specs::Values::entry_of))]
    fn new(alloc: Global) -> Values<'a>
        ensures { (q : List ℕ) → entry_of result q ≡ None }
    {
        Values {
            by_name: BTreeMap::new(alloc),
        }
    }

    // The value of a name; 0 if it has none.
    #[tactic(auto, unfolding(crate::specs::Values::entry_of, crate::specs::Values::value_of))]
    fn value(&self, name: &[u8]) -> u32
        ensures { result ≡ value_of self.now name.now }
    {
        self.by_name.get(name).copied().unwrap_or(0)
    }

    // Gives a name this value.
    fn set(&mut self, name: &'a [u8], value: u32) -> Result<(), AllocError>
        ensures { OnOk result ((q : List ℕ) → entry_of self.new q
            ≡ (if bytes_eq name.now q then Some value else entry_of self.old q)) }
    {
        match self.by_name.insert(name, value) {
            Ok(_) => Ok(()),
            Err(_) => Err(AllocError),
        }
    }

    // Gives the gate's call its address, if the gate is that of a call.
    fn add_gate(&mut self, gate: Gate) -> Result<(), AllocError>
        ensures { OnOk result ((q : List ℕ) → entry_of self.new q
            ≡ entry_else (find_global (symbols_of_gate gates_start gate) q) (entry_of self.old q)) }
    {
        match gate_name(gate.number()) {
            Some(name) => self.set(name.as_bytes(), gate.address(GATES_START)),
            None => Ok(()),
        }
    }

    /// The values at the start: each call has the address of its gate.
    pub(crate) fn opening(alloc: Global) -> Result<Values<'a>, AllocError>
        ensures { IfOk result (λ v. Means v opening_symbols) }
    {
        let mut values = Values::new(alloc);
        for gate in Gate::all() {
            values.add_gate(*gate)?;
        }
        Ok(values)
    }

    // Gives a symbol's name this value, if modules that come later see the symbol.
    fn add_symbol(
        &mut self,
        mode: u32,
        symbol: &'a Sym,
        value: Option<u32>,
    ) -> Result<(), AllocError>
        ensures { OnOk result ((sections : List Sect) (q : List ℕ) → entry_of self.new q
            ≡ entry_else (find_global (export_of sections mode 0 symbol.now value) q) (entry_of self.old q)) }
    {
        match value {
            Some(value) if is_visible(mode, symbol) => self.set(symbol.name.bytes(), value),
            _ => Ok(()),
        }
    }

    /// Adds the values of a module's symbols that modules after it see.
    pub(crate) fn add_symbols(
        &mut self,
        mode: u32,
        symbols: &'a [Sym],
        values: &[Option<u32>],
    ) -> Result<(), AllocError>
        requires { length symbols.now ≡ length values.now }
        ensures { OnOk result ((sections : List Sect) (q : List ℕ) → entry_of self.new q
            ≡ entry_else (find_global (exports_from sections mode 0 symbols.now values.now) q) (entry_of self.old q)) }
    {
        for (i, symbol) in symbols.iter().enumerate() {
            self.add_symbol(mode, symbol, values[i])?;
        }
        Ok(())
    }

    // Whether a name has a value.
    #[tactic(auto, unfolding(crate::specs::Values::entry_of))]
    fn has(&self, name: &[u8]) -> bool
        ensures { result ≡ is_some (entry_of self.now name.now) }
    {
        self.by_name.get(name).is_some()
    }

    /// Whether the module doesn't define the symbol, the symbol isn't weak, and its name has no value.
    pub(crate) fn is_valueless(&self, symbol: &Sym) -> bool
        ensures { result ≡ is_valueless_lem self.now symbol.now }
    {
        match symbol.place {
            SymPlace::Undefined => symbol.binding != STB_WEAK && !self.has(symbol.name.bytes()),
            _ => false,
        }
    }

    // The value of a symbol: its own, or else that of its name.
    fn meaning(&self, symbol: &Sym, value: Option<u32>) -> u32
        ensures { result ≡ meaning_by (value_of self.now) symbol.now.name value }
    {
        match value {
            Some(value) => value,
            None => self.value(symbol.name.bytes()),
        }
    }

    /// The values of a module's symbols by number; number 0 means none, and has value 0.
    pub(crate) fn meanings(
        &self,
        alloc: Global,
        symbols: &[Sym],
        values: &[Option<u32>],
    ) -> Result<Vec<u32>, AllocError>
        requires { length symbols.now ≡ length values.now }
        ensures { IfOk result (λ v. v.items ≡ 0 ∷ meanings_from (value_of self.now) symbols.now values.now) }
    {
        let mut list = Vec::new(alloc);
        list.push(0)?;
        for (i, symbol) in symbols.iter().enumerate() {
            list.push(self.meaning(symbol, values[i]))?;
        }
        Ok(list)
    }
}
