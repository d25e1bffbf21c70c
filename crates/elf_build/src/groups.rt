//! Consecutive relocations of one section; they form a table.

ghost use Rattle.std.specs.Prelude.{◌≡◌, ◌≤◌, ◌<◌, length, drop};
ghost use Rattle.elf_build.specs.File.{leading as leading_of, tables_of};
ghost use Rattle.elf_build.specs.Writable.{LeadsTable};

use elf_read::Rel;

// The number of relocations at the beginning of the list that are for this section.
fn leading(section: u32, relocs: &[Rel]) -> usize
    ensures value { result ≡ leading_of section relocs.now }
    ensures within { result ≤ length relocs.now }
{
    for (i, r) in relocs.iter().enumerate() {
        if r.section != section {
            return i;
        }
    }
    relocs.len()
}

/// The number of relocations in the first table.
#[tactic(auto, using(crate::proofs::TableLemmas::leads_first))]
pub(crate) fn first_len(relocs: &[Rel]) -> usize
    requires { 0 < length relocs.now }
    ensures { LeadsTable result relocs.now }
{
    leading(relocs[0].section, relocs)
}

/// The relocations after the first `n`.
pub(crate) fn relocs_after(relocs: &[Rel], n: usize) -> &[Rel]
    requires { n ≤ length relocs.now }
    ensures { result.now ≡ drop n relocs.now }
{
    &relocs[n..]
}

/// The number of tables that the relocations form.
pub(crate) fn table_count(relocs: &[Rel]) -> usize
    ensures value { result ≡ length (tables_of relocs.now) }
    ensures few { result ≤ length relocs.now }
{
    let mut count = 0;
    let mut rest = relocs;
    while !rest.is_empty() {
        rest = relocs_after(rest, first_len(rest));
        count += 1;
    }
    count
}
