//! The undefined names of modules.

ghost use Rattle.std.specs.Prelude.{◌≡◌, ◌++◌, OnOk, map};
ghost use Rattle.wind_link.specs.{Undefined.pair_of, Values.{valueless_name, valueless_names}};

use crate::values::Values;
use elf_read::Sym;
use std::alloc::AllocError;

/// A name that a module doesn't define and that has no value.
#[derive(Clone, Copy, Debug, Drop)]
pub(crate) struct Undefined<'a> {
    /// The line of the list that names the module, counted from 1.
    pub line: u64,
    /// The name.
    pub name: &'a [u8],
}

// Adds the name of a symbol, if it is undefined.
fn add_name<'a>(
    names: &mut Vec<Undefined<'a>>,
    values: &Values,
    symbol: &'a Sym,
    line: u64,
) -> Result<(), AllocError>
    ensures { OnOk result (map pair_of names.new.items
        ≡ map pair_of names.old.items ++ map (λ name. (line, name)) (valueless_name values.now symbol.now)) }
{
    if !values.is_valueless(symbol) {
        return Ok(());
    }
    names.push(Undefined {
        line,
        name: symbol.name.bytes(),
    })?;
    Ok(())
}

/// Adds the undefined names among the symbols of a module, which line `line` of the list names. Weak
/// symbols don't count.
pub(crate) fn add_undefined<'a>(
    names: &mut Vec<Undefined<'a>>,
    values: &Values,
    symbols: &'a [Sym],
    line: u64,
) -> Result<(), AllocError>
    ensures { OnOk result (map pair_of names.new.items
        ≡ map pair_of names.old.items ++ map (λ name. (line, name)) (valueless_names values.now symbols.now)) }
{
    for symbol in symbols {
        add_name(names, values, symbol, line)?;
    }
    Ok(())
}
