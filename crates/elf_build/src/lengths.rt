//! The length of a module's file.

ghost use Rattle.std.specs.Prelude.{◌≡◌, ◌*◌, ◌≤◌, length};
ghost use Rattle.std.specs.List.{All, flat_map};
ghost use Rattle.wind_base.specs.Limits.{most_section_headers, most_section_bytes};
ghost use Rattle.elf_build.specs.File.{sect_content, file_of};
ghost use Rattle.elf_build.specs.Judging.{IsBuildableSect, IsSmall};

use crate::groups::table_count;
use crate::name_tables::{FIRST_NAME, sect_names_len, sym_names_len};
use crate::tables::content;
use elf_read::standard::{EHDR_BYTES, RELA_BYTES, SHDR_BYTES, SYM_BYTES};
use elf_read::{Module, Sect};

#[tactic(auto, using(crate::proofs::Sizes::contents_left))]
fn contents_len(sections: &[Sect]) -> usize
    requires few { length sections.now ≤ most_section_headers }
    requires small { All IsBuildableSect sections.now }
    ensures value { result ≡ length (flat_map sect_content sections.now) }
    ensures low { result ≤ most_section_bytes * length sections.now }
{
    let mut sum = 0;
    for s in sections {
        sum += content(&s.body).len();
    }
    sum
}

/// The length of a module's file, in bytes.
pub(crate) fn file_len(m: &Module) -> usize
    requires small { IsSmall m.now }
    requires sections { All IsBuildableSect m.now.sections }
    ensures { result ≡ length (file_of m.now) }
{
    let sections = m.sections.as_slice();
    let symbols = m.symbols.as_slice();
    let relocs = m.relocs.as_slice();
    EHDR_BYTES
        + contents_len(sections)
        + SYM_BYTES * (symbols.len() + 1)
        + RELA_BYTES * relocs.len()
        + 1
        + sym_names_len(symbols)
        + FIRST_NAME as usize
        + sect_names_len(sections)
        + SHDR_BYTES * (sections.len() + table_count(relocs) + 4)
}
