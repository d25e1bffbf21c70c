//! The bytes that a load writes.

ghost use Rattle.std.specs.Prelude.{◌≡◌, ◌+◌, ◌≤◌, ◌<◌, ◌^◌, ◌++◌, length, map, replicate, All, OnOk, IfOk};
ghost use Rattle.reloc_link.specs.Patched.{LiesWithin, patched, fault_of};
ghost use Rattle.module_image.specs.Layout.{IsSectRoom, most_entries};
ghost use Rattle.module_image.specs.Image.{padded, laid, binding_of};

use crate::layout::{align_up, segment};
use crate::segments::SegmentKind;
use crate::sizes::is_same;
use elf_read::{Body, Rel, Sect, find_shape};
use reloc_link::{Binding, RelocErr, patch};
use std::alloc::{AllocError, Global};

/// Addresses are modulo this.
const WORDS: u64 = 0x1_0000_0000;

/// Adds `n` zeros at the end.
fn push_zeros(out: &mut Vec<u8>, n: u64) -> Result<(), AllocError>
    ensures { OnOk result (out.new.items ≡ out.old.items ++ replicate n 0) }
{
    for i in 0..n {
        out.push(0)?;
    }
    Ok(())
}

/// Adds a section at the next multiple of its alignment.
fn push_section(out: &mut Vec<u8>, from: u64, s: &Sect) -> Result<(), AllocError>
    requires room { IsSectRoom s.now }
    requires within { from ≤ 2 ^ 60 }
    ensures { OnOk result (out.new.items ≡ out.old.items ++ padded from s.now) }
{
    let start = align_up(from, s.align);
    push_zeros(out, start - from)?;
    match &s.body {
        Body::Bytes(bytes) => out.extend_from_slice(bytes.as_slice())?,
        Body::Size(n) => push_zeros(out, u64::from(*n))?,
    }
    Ok(())
}

/// The bytes of a segment before relocation.
pub(crate) fn lay(out: &mut Vec<u8>, sections: &[Sect], kind: SegmentKind) -> Result<(), AllocError>
    requires room { All IsSectRoom sections.now }
    requires few { length sections.now ≤ most_entries }
    ensures { OnOk result (out.new.items ≡ out.old.items ++ laid kind 0 sections.now) }
{
    let mut from = 0;
    for s in sections {
        let shape = find_shape(s);
        if is_same(kind, segment(shape)) {
            push_section(out, from, s)?;
            from = align_up(from, shape.align) + shape.size;
        }
    }
    Ok(())
}

fn binding(places: &[u64], at: &[u64], means: &[u32], r: &Rel) -> Binding
    requires places { r.now.section < length places.now }
    requires at { r.now.section < length at.now }
    requires means { r.now.symbol < length means.now }
    ensures { result ≡ binding_of places.now at.now means.now r.now }
{
    let own = places[r.section as usize] % WORDS + u64::from(r.offset);
    let own_at = at[r.section as usize] % WORDS + u64::from(r.offset);
    Binding {
        offset: (own % WORDS) as u32,
        kind: r.kind,
        s: means[r.symbol as usize],
        a: r.addend,
        p: (own_at % WORDS) as u32,
    }
}

fn bindings(
    alloc: Global,
    places: &[u64],
    at: &[u64],
    means: &[u32],
    relocs: &[Rel],
) -> Result<Vec<Binding>, AllocError>
    requires places { All (λ r. r.section < length places.now) relocs.now }
    requires at { All (λ r. r.section < length at.now) relocs.now }
    requires means { All (λ r. r.symbol < length means.now) relocs.now }
    ensures { IfOk result (λ v. v.items ≡ map (binding_of places.now at.now means.now) relocs.now) }
{
    let mut list = Vec::new(alloc);
    for r in relocs {
        list.push(binding(places, at, means, r))?;
    }
    Ok(list)
}

/// Writes every relocation into the bytes, in order, and stops at the first that is refused.
/// `places` says where the sections begin in the bytes, and `at` gives their addresses.
pub(crate) fn relocate(
    alloc: Global,
    bytes: &mut [u8],
    places: &[u64],
    at: &[u64],
    means: &[u32],
    relocs: &[Rel],
) -> Result<Result<(), RelocErr>, AllocError>
    requires places { All (λ r. r.section < length places.now) relocs.now }
    requires at { All (λ r. r.section < length at.now) relocs.now }
    requires means { All (λ r. r.symbol < length means.now) relocs.now }
    requires lies { All (LiesWithin (length bytes.old)) (map (binding_of places.now at.now means.now) relocs.now) }
    requires few { length relocs.now ≤ 2 ^ 32 }
    ensures image { OnOk result
        (bytes.new ≡ (patched 0 bytes.old (map (binding_of places.now at.now means.now) relocs.now)).image) }
    ensures fault { IfOk result
        (λ r. fault_of r ≡ (patched 0 bytes.old (map (binding_of places.now at.now means.now) relocs.now)).fault) }
{
    let list = bindings(alloc, places, at, means, relocs)?;
    Ok(patch(bytes, &list))
}
