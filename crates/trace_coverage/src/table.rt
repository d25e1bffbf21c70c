//! The modules of a run, as the table of modules changes.

ghost use Rattle.std.specs.Prelude.{◌≡◌, ◌++◌, ◌∷◌, [], not, map, IfOk, OnOk};
ghost use Rattle.std.specs.List.{filter};
ghost use Rattle.trace_coverage.specs.Covered.{is_among as is_among_lem, is_live as is_live_lem, staying, unexecuted, with_new, with_word};

use crate::covered::Covered;
use id_table::Ident;
use module_loader::{LoadedModule, Modules};
use std::alloc::Global;
use wind_base::NoMemory;

/// Whether a module is in the table.
pub(crate) fn is_live(modules: &Modules, covered: &Covered) -> bool
    ensures { result ≡ is_live_lem modules.now.rows covered.now }
{
    modules.facts();
    let id = covered.id();
    match modules.get(id.get()) {
        Some(module) => covered.has_text_of(module),
        None => false,
    }
}

// Whether a module of the table is one of these.
fn is_among(list: &[Covered], id: Ident, module: &LoadedModule) -> bool
    ensures { result ≡ is_among_lem list.now (id, module.now) }
{
    list.iter().any(|covered| id == covered.id() && covered.has_text_of(module))
}

// Adds a module of the table, if it isn't one of these.
fn add_if_new(
    alloc: Global,
    new: &mut Vec<Covered>,
    list: &[Covered],
    id: Ident,
    module: &LoadedModule,
) -> Result<(), NoMemory>
    ensures { OnOk result (new.new.items
        ≡ new.old.items ++ map unexecuted (filter (λ r. not (is_among_lem list.now r)) ((id, module.now) ∷ []))) }
{
    if is_among(list, id, module) {
        return Ok(());
    }
    if new.push(Covered::new(alloc, id, module)?).is_err() {
        return Err(NoMemory);
    }
    Ok(())
}

// The modules of the table that aren't among these.
fn new_modules(alloc: Global, list: &[Covered], modules: &Modules) -> Result<Vec<Covered>, NoMemory>
    ensures { IfOk result (λ v. v.items
        ≡ map unexecuted (filter (λ r. not (is_among_lem list.now r)) modules.now.rows)) }
{
    modules.facts();
    let mut new = Vec::new(alloc);
    let mut last = 0;
    while let Some(id) = modules.next_after(last) {
        last = id.get();
        let Some(module) = modules.get(last) else {
            unreachable!()
        };
        add_if_new(alloc, &mut new, list, id, module)?;
    }
    Ok(new)
}

/// Adds each module of the table that isn't one of these.
pub(crate) fn add_new(
    alloc: Global,
    list: &mut Vec<Covered>,
    modules: &Modules,
) -> Result<(), NoMemory>
    ensures { OnOk result (list.new.items ≡ with_new modules.now.rows list.old.items) }
{
    let mut new = new_modules(alloc, list, modules)?;
    Ok(list.append(&mut new)?)
}

/// Drops each module that isn't in the table.
pub(crate) fn drop_gone(list: &mut Vec<Covered>, modules: &Modules)
    ensures { list.new.items ≡ staying modules.now.rows list.old.items }
{
    list.retain(|covered| is_live(modules, covered));
}

/// The word at this address was executed.
pub(crate) fn execute(list: &mut [Covered], at: u32)
    ensures { list.new ≡ map (with_word at) list.old }
{
    for place in 0..list.len() {
        list[place].execute(at);
    }
}
