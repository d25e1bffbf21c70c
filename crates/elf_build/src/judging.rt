//! Whether a module has a file.

ghost use Rattle.std.specs.Prelude.{◌≡◌, ◌+◌, ◌*◌, ◌<◌, ◌↔◌, IsTrue};
ghost use Rattle.std.specs.List.{All};
ghost use Rattle.elf_read.specs.declared.module.SymPlace.TheVariants.{Elsewhere};
ghost use Rattle.elf_read.specs.Modules.{IsName, HoldsBytes, size_of as size_of_body};
ghost use Rattle.elf_build.specs.Buildable.{Buildable, Rises};
ghost use Rattle.elf_build.specs.Judging.{IsBuildableSect, IsBuildableSym, IsBuildableRel, IsBuildablePlace, IsSmall, HasBuildableParts};

use crate::groups::table_count;
use crate::lengths::file_len;
use elf_read::standard::{SHF_ALLOC, SHF_TLS_OR_COMPRESSED, STB_WEAK, STT_COMMON};
use elf_read::{Body, Module, Rel, Sect, Sym, SymPlace, is_alignment, width};
use wind_base::limits::{NAME_BYTES, RELOCATIONS, SECTION_BYTES, SECTION_HEADERS, SYMBOL_ENTRIES};

fn is_name(name: &[u8]) -> bool
    ensures { IsTrue result ↔ IsName name.now }
{
    name.len() <= NAME_BYTES && name.iter().all(|b| *b != 0)
}

fn size_of(body: &Body) -> usize
    ensures { result ≡ size_of_body body.now }
{
    match body {
        Body::Bytes(bytes) => bytes.as_slice().len(),
        Body::Size(size) => *size as usize,
    }
}

fn is_buildable_sect(s: &Sect) -> bool
    ensures { IsTrue result ↔ IsBuildableSect s.now }
{
    let flags = s.flags;
    is_name(s.name.bytes())
        && flags & SHF_ALLOC != 0
        && flags & SHF_TLS_OR_COMPRESSED == 0
        && is_alignment(s.align)
        && size_of(&s.body) <= SECTION_BYTES as usize
}

fn are_buildable_sects(sections: &[Sect]) -> bool
    ensures { IsTrue result ↔ All IsBuildableSect sections.now }
{
    sections.iter().all(|s| is_buildable_sect(s))
}

fn is_buildable_place(sections: &[Sect], place: SymPlace, value: u32, size: u32) -> bool
    ensures { IsTrue result ↔ IsBuildablePlace sections.now place value size }
{
    match place {
        SymPlace::Undefined | SymPlace::Absolute => true,
        SymPlace::Common => is_alignment(value) && size <= SECTION_BYTES,
        SymPlace::Section(i) => {
            (i as usize) < sections.len() && value as usize <= size_of(&sections[i as usize].body)
        }
        SymPlace::Elsewhere => false,
    }
}

fn is_buildable_sym(sections: &[Sect], s: &Sym) -> bool
    ensures { IsTrue result ↔ IsBuildableSym sections.now s.now }
{
    let value = s.value;
    let size = s.size;
    is_name(s.name.bytes())
        && s.binding <= STB_WEAK
        && s.kind <= STT_COMMON
        && is_buildable_place(sections, s.place, value, size)
}

fn are_buildable_syms(sections: &[Sect], symbols: &[Sym]) -> bool
    ensures { IsTrue result ↔ All (IsBuildableSym sections.now) symbols.now }
{
    symbols.iter().all(|s| is_buildable_sym(sections, s))
}

fn holds_bytes(body: &Body, end: usize) -> bool
    ensures { IsTrue result ↔ HoldsBytes body.now end }
{
    match body {
        Body::Bytes(bytes) => end <= bytes.as_slice().len(),
        Body::Size(_) => false,
    }
}

fn is_buildable_rel(sections: &[Sect], symbols: usize, r: &Rel) -> bool
    ensures { IsTrue result ↔ IsBuildableRel sections.now symbols r.now }
{
    let addend = r.addend;
    let end = r.offset as usize + width(r.kind) as usize;
    (r.section as usize) < sections.len()
        && holds_bytes(&sections[r.section as usize].body, end)
        && r.symbol as usize <= symbols
}

fn are_buildable_rels(sections: &[Sect], symbols: usize, relocs: &[Rel]) -> bool
    ensures { IsTrue result ↔ All (IsBuildableRel sections.now symbols) relocs.now }
{
    relocs
        .iter()
        .all(|r| is_buildable_rel(sections, symbols, r))
}

fn rises(relocs: &[Rel]) -> bool
    ensures { IsTrue result ↔ Rises 0 relocs.now }
{
    let mut last = 0;
    for r in relocs {
        if r.section < last {
            return false;
        }
        last = r.section;
    }
    true
}

fn has_buildable_parts(m: &Module) -> bool
    ensures { IsTrue result ↔ HasBuildableParts m.now }
{
    let sections = m.sections.as_slice();
    let symbols = m.symbols.as_slice();
    let relocs = m.relocs.as_slice();
    are_buildable_sects(sections)
        && are_buildable_syms(sections, symbols)
        && are_buildable_rels(sections, symbols.len(), relocs)
        && rises(relocs)
}

fn is_small(m: &Module) -> bool
    ensures { IsTrue result ↔ IsSmall m.now }
{
    let sections = m.sections.as_slice().len();
    let relocs = m.relocs.as_slice();
    sections <= SECTION_HEADERS as usize
        && relocs.len() <= RELOCATIONS as usize
        && sections + table_count(relocs) + 4 <= SECTION_HEADERS as usize
        && m.symbols.as_slice().len() < SYMBOL_ENTRIES as usize
}

/// Whether a module has a file, which `build` then makes. It has one if it meets all rules of files
/// and the file is shorter than 4 GiB. Besides, no symbol may be in a section that isn't loaded, no
/// name may have a zero, and the relocations must be in order of their sections.
#[tactic(auto, using(crate::proofs::Judged::judged, crate::proofs::Judged::unjudged))]
pub fn is_buildable(m: &Module) -> bool
    ensures { IsTrue result ↔ Buildable m.now }
{
    is_small(m) && has_buildable_parts(m) && file_len(m) <= u32::MAX as usize
}
