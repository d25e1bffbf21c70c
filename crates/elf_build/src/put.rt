//! Appends numbers and entries.

ghost use Rattle.std.specs.Prelude.{◌≡◌, ◌++◌, ◌<◌, IfOk};
ghost use Rattle.std.specs.List.{flat_map};
ghost use Rattle.byteorder.specs.Endian.{big_bytes};
ghost use Rattle.elf_build.specs.Entries.{header_bytes, symbol_bytes, relocation_bytes, ended};

use elf_read::{RelaEntry, SectionHeader, SymbolEntry};
use std::alloc::AllocError;

/// Appends bytes.
pub(crate) fn put_bytes(out: &mut Vec<u8>, piece: &[u8]) -> Result<(), AllocError>
    ensures { IfOk result (λ u. out.new.items ≡ out.old.items ++ piece.now) }
{
    out.extend_from_slice(piece)
}

/// Appends a number of two bytes, high byte first.
pub(crate) fn put_half(out: &mut Vec<u8>, n: u16) -> Result<(), AllocError>
    ensures { IfOk result (λ u. out.new.items ≡ out.old.items ++ big_bytes 2 n) }
{
    put_bytes(out, &n.to_be_bytes())
}

/// Appends a number of four bytes, high byte first.
pub(crate) fn put_word(out: &mut Vec<u8>, n: u32) -> Result<(), AllocError>
    ensures { IfOk result (λ u. out.new.items ≡ out.old.items ++ big_bytes 4 n) }
{
    put_bytes(out, &n.to_be_bytes())
}

/// Appends a name and its terminating zero.
#[tactic(auto, using(crate::proofs::Joins::two))]
pub(crate) fn put_name(out: &mut Vec<u8>, name: &[u8]) -> Result<(), AllocError>
    ensures { IfOk result (λ u. out.new.items ≡ out.old.items ++ ended name.now) }
{
    put_bytes(out, name)?;
    put_bytes(out, &[0])
}

// Appends numbers of four bytes each.
#[tactic(auto, using(crate::proofs::Joins::flat_step))]
fn put_words(out: &mut Vec<u8>, words: &[u32]) -> Result<(), AllocError>
    ensures { IfOk result (λ u. out.new.items ≡ out.old.items ++ flat_map (big_bytes 4) words.now) }
{
    for n in words {
        put_word(out, *n)?;
    }
    Ok(())
}

/// Appends a section header.
#[tactic(auto, unfolding(crate::specs::Entries::header_bytes))]
pub(crate) fn put_header(out: &mut Vec<u8>, h: SectionHeader) -> Result<(), AllocError>
    ensures { IfOk result (λ u. out.new.items ≡ out.old.items ++ header_bytes h) }
{
    put_words(
        out,
        &[
            h.name,
            h.kind,
            h.flags,
            0,
            h.offset,
            h.size,
            h.link,
            h.info,
            h.align,
            h.entry_size,
        ],
    )
}

/// Appends a symbol table entry.
#[tactic(auto, unfolding(crate::specs::Entries::symbol_bytes), using(crate::proofs::Joins::five))]
pub(crate) fn put_symbol(out: &mut Vec<u8>, e: SymbolEntry) -> Result<(), AllocError>
    ensures { IfOk result (λ u. out.new.items ≡ out.old.items ++ symbol_bytes e) }
{
    put_word(out, e.name)?;
    put_word(out, e.value)?;
    put_word(out, e.size)?;
    put_bytes(out, &[e.info, 0])?;
    put_half(out, e.section)
}

/// Appends a relocation entry.
#[tactic(auto, unfolding(crate::specs::Entries::relocation_bytes), using(crate::proofs::Joins::three))]
pub(crate) fn put_relocation(out: &mut Vec<u8>, r: RelaEntry) -> Result<(), AllocError>
    ensures { IfOk result (λ u. out.new.items ≡ out.old.items ++ relocation_bytes r) }
{
    put_word(out, r.offset)?;
    put_word(out, r.info)?;
    put_word(out, r.addend)
}
