//! The addresses of a module whose segments have places.

ghost use Rattle.std.specs.Prelude.{◌≡◌, IfOk};
ghost use Rattle.module_image.specs.Layout.{addresses, ends_of, values};
ghost use Rattle.module_image.specs.Linkable.{IsLinkable};

use crate::layout::{find_ends, find_shapes, section_addresses, symbol_values};
use crate::segments::{Ends, Places};
use elf_read::Module;
use std::alloc::Global;
use wind_base::NoMemory;

/// The addresses of a module whose segments have places.
#[derive(Drop)]
pub struct Located {
    /// How many bytes of each segment the sections use.
    pub ends: Ends,
    /// The addresses of the sections.
    pub sections: Vec<u64>,
    /// The values of the symbols; None for a symbol that the module doesn't define.
    pub values: Vec<Option<u32>>,
}

/// The addresses of a module whose segments have these places.
#[tactic(auto, using(crate::proofs::Known::shapes_room, crate::proofs::Known::few_shapes, crate::proofs::Made::ends_are), unfolding(crate::specs::Layout::addresses, crate::specs::Layout::values))]
pub fn locate(alloc: Global, m: &Module, at: Places) -> Result<Located, NoMemory>
    requires { IsLinkable m.now }
    ensures ends { IfOk result (λ l. l.ends ≡ ends_of m.now) }
    ensures sections { IfOk result (λ l. l.sections.items ≡ addresses m.now at) }
    ensures values { IfOk result (λ l. l.values.items ≡ values m.now at) }
{
    let sections = m.sections.as_slice();
    let shapes = find_shapes(alloc, sections)?;
    let ends = find_ends(&shapes);
    let addresses = section_addresses(alloc, sections, at)?;
    let values = symbol_values(alloc, &addresses, at, ends.bss, m.symbols.as_slice())?;
    Ok(Located {
        ends,
        sections: addresses,
        values,
    })
}
