//! The modules and the symbols as JSON.

ghost use Rattle.std.specs.Prelude.{◌≡◌, IfOk};
ghost use Rattle.serde_json.specs.View.{view};
ghost use Rattle.trace_state.specs.Json.{list_of};
ghost use Rattle.trace_state.specs.Modules.{module_data, symbol_data};
ghost use Rattle.trace_state.specs.Objects.{rows_data};

use crate::json::{Items, Members};
use module_loader::{LoadedModule, Modules};
use serde_json::Value;
use std::alloc::{AllocError, Global};
use symbol_table::{Symbol, Symbols};

// One module.
fn module_value(alloc: Global, id: u32, module: &LoadedModule) -> Result<Value, AllocError>
    ensures { IfOk result (λ v. view v ≡ module_data id module.now) }
{
    let mut members = Members::new(alloc);
    members.put_number("id", u64::from(id))?;
    members.put_text("name", module.name.bytes())?;
    members.put_number("text", u64::from(module.segments[0].addr))?;
    members.put_number("data", u64::from(module.segments[1].addr))?;
    members.put_number("bss", u64::from(module.segments[2].addr))?;
    Ok(members.finish())
}

/// The modules, by rising id.
pub(crate) fn modules(alloc: Global, modules: &Modules) -> Result<Value, AllocError>
    ensures { IfOk result (λ v. view v ≡ rows_data module_data modules.now.rows) }
{
    modules.facts();
    let mut items = Items::new(alloc);
    let mut last = 0;
    while let Some(id) = modules.next_after(last) {
        last = id.get();
        let Some(module) = modules.get(last) else {
            unreachable!()
        };
        items.add(module_value(alloc, last, module)?)?;
    }
    Ok(items.finish())
}

// One symbol.
fn symbol_value(alloc: Global, symbol: &Symbol) -> Result<Value, AllocError>
    ensures { IfOk result (λ v. view v ≡ symbol_data symbol.now) }
{
    let mut members = Members::new(alloc);
    members.put_text("name", symbol.name.bytes())?;
    members.put_number("value", u64::from(symbol.value))?;
    members.put_flag("global", symbol.global)?;
    members.put_number("group", u64::from(symbol.group))?;
    Ok(members.finish())
}

/// The symbols, in order of adding.
pub(crate) fn symbols(alloc: Global, symbols: &Symbols) -> Result<Value, AllocError>
    ensures { IfOk result (λ v. view v ≡ list_of symbol_data symbols.now.list) }
{
    let mut items = Items::new(alloc);
    for place in 0..symbols.len() {
        let Some(symbol) = symbols.at(place) else {
            unreachable!()
        };
        items.add(symbol_value(alloc, symbol)?)?;
    }
    Ok(items.finish())
}
