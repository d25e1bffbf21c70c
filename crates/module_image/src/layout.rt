//! Where the sections and symbols of a module are.

ghost use Rattle.std.specs.Prelude.{◌≡◌, ◌+◌, ◌*◌, ◌≤◌, ◌<◌, ◌%◌, ◌^◌, length, map, All, IfOk};
ghost use Rattle.mem_partition.specs.Place.{aligned};
ghost use Rattle.elf_read.specs.Outline.{shape_of};
ghost use Rattle.module_image.specs.Layout.{segment_in, place_of, end_in, with_end, offset_by, after_shape, addresses_from, ends_by, no_ends, value_in, after_symbol, commons_end, IsShapeRoom, IsSectRoom, IsSymRoom, longest_step, most_entries, AreWithin, values_from};

use crate::segments::{Ends, Places, SegmentKind};
use elf_read::{Sect, Shape, Sym, SymPlace, find_shape};
use std::alloc::{AllocError, Global};

/// The flag of a writable section: `SHF_WRITE`.
const SHF_WRITE: u32 = 1;

/// The most bytes that one section or common symbol adds to a segment: its greatest size plus its
/// greatest alignment.
const LONGEST_STEP: u64 = 0x101_0000;

/// Addresses are modulo this.
const WORDS: u64 = 0x1_0000_0000;

/// No bytes of any segment are used.
pub(crate) const NO_ENDS: Ends = Ends {
    text: 0,
    data: 0,
    bss: 0,
};

/// The least multiple of `align` that is at least `n`.
#[tactic(auto, unfolding(mem_partition::specs::Place::aligned))]
pub(crate) fn align_up(n: u64, align: u32) -> u64
    requires some { 1 ≤ align }
    requires small { n < 2 ^ 62 }
    ensures value { result ≡ aligned n align }
    ensures small { result < n + align }
    ensures above { n ≤ result }
{
    let align = u64::from(align);
    (n + align - 1) / align * align
}

/// The segment of a section with this shape.
pub(crate) fn segment(s: Shape) -> SegmentKind
    ensures { result ≡ segment_in s }
{
    if !s.has_bytes {
        return SegmentKind::Bss;
    }
    if s.flags & SHF_WRITE == SHF_WRITE {
        SegmentKind::Data
    } else {
        SegmentKind::Text
    }
}

fn end_at(ends: Ends, kind: SegmentKind) -> u64
    ensures { result ≡ end_in ends kind }
{
    match kind {
        SegmentKind::Text => ends.text,
        SegmentKind::Data => ends.data,
        SegmentKind::Bss => ends.bss,
    }
}

fn put_end(ends: Ends, kind: SegmentKind, n: u64) -> Ends
    ensures { result ≡ with_end ends kind n }
{
    match kind {
        SegmentKind::Text => Ends { text: n, ..ends },
        SegmentKind::Data => Ends { data: n, ..ends },
        SegmentKind::Bss => Ends { bss: n, ..ends },
    }
}

fn place_at(at: Places, kind: SegmentKind) -> u64
    ensures value { result ≡ place_of at kind }
    ensures small { result < 2 ^ 32 }
{
    match kind {
        SegmentKind::Text => u64::from(at.text),
        SegmentKind::Data => u64::from(at.data),
        SegmentKind::Bss => u64::from(at.bss),
    }
}

/// The offset of a section with this shape in its segment.
fn offset(ends: Ends, s: Shape) -> u64
    requires room { IsShapeRoom s }
    requires within { AreWithin ends (2 ^ 60) }
    ensures value { result ≡ offset_by ends s }
    ensures bound { result ≤ end_in ends (segment_in s) + 65536 }
{
    align_up(end_at(ends, segment(s)), s.align)
}

/// The ends of the segments after a section with this shape.
pub(crate) fn advance(ends: Ends, s: Shape, n: u64) -> Ends
    requires room { IsShapeRoom s }
    requires within { AreWithin ends n }
    requires bound { n ≤ 2 ^ 59 }
    ensures value { result ≡ after_shape ends s }
    ensures within { AreWithin result (n + longest_step) }
{
    put_end(ends, segment(s), offset(ends, s) + s.size)
}

/// The ends of the segments after all sections.
pub(crate) fn find_ends(shapes: &[Shape]) -> Ends
    requires room { All IsShapeRoom shapes.now }
    requires few { length shapes.now ≤ most_entries }
    ensures value { result ≡ ends_by no_ends shapes.now }
    ensures within { AreWithin result (2 ^ 57) }
{
    let mut ends = NO_ENDS;
    for (i, s) in shapes.iter().enumerate() {
        ends = advance(ends, *s, i as u64 * LONGEST_STEP);
    }
    ends
}

/// The shapes of the sections.
pub(crate) fn find_shapes(alloc: Global, sections: &[Sect]) -> Result<Vec<Shape>, AllocError>
    ensures { IfOk result (λ v. v.items ≡ map shape_of sections.now) }
{
    sections
        .iter()
        .map(|s| find_shape(s))
        .collect::<Vec<Shape>>(alloc)
}

/// The addresses of the sections.
pub(crate) fn section_addresses(
    alloc: Global,
    sections: &[Sect],
    at: Places,
) -> Result<Vec<u64>, AllocError>
    requires room { All IsSectRoom sections.now }
    requires few { length sections.now ≤ most_entries }
    ensures { IfOk result (λ v. v.items ≡ addresses_from at no_ends sections.now) }
{
    let mut list = Vec::new(alloc);
    let mut ends = NO_ENDS;
    for (i, s) in sections.iter().enumerate() {
        let shape = find_shape(s);
        list.push(place_at(at, segment(shape)) + offset(ends, shape))?;
        ends = advance(ends, shape, i as u64 * LONGEST_STEP);
    }
    Ok(list)
}

/// The value of a symbol that the module defines.
fn value(places: &[u64], at: Places, end: u64, y: &Sym) -> Option<u32>
    requires room { IsSymRoom y.now }
    requires end { end ≤ 2 ^ 60 }
    ensures { result ≡ value_in places.now at end y.now }
{
    let own = y.value;
    match y.place {
        SymPlace::Undefined | SymPlace::Elsewhere => None,
        SymPlace::Absolute => Some(own),
        SymPlace::Common => Some(((u64::from(at.bss) + align_up(end, own)) % WORDS) as u32),
        SymPlace::Section(n) => {
            let start = places.get(n as usize).copied().unwrap_or(0);
            Some(((start % WORDS + u64::from(own)) % WORDS) as u32)
        }
    }
}

/// The end of bss after a symbol.
fn bss_after(end: u64, y: &Sym, n: u64) -> u64
    requires room { IsSymRoom y.now }
    requires within { end ≤ n }
    requires bound { n ≤ 2 ^ 59 }
    ensures value { result ≡ after_symbol end y.now y.now.place }
    ensures within { result ≤ n + longest_step }
{
    let align = y.value;
    let size = y.size;
    match y.place {
        SymPlace::Common => align_up(end, align) + u64::from(size),
        _ => end,
    }
}

/// The end of bss after the common symbols, if the sections end at `start`.
pub(crate) fn find_commons(start: u64, symbols: &[Sym]) -> u64
    requires room { All IsSymRoom symbols.now }
    requires few { length symbols.now ≤ most_entries }
    requires start { start ≤ 2 ^ 57 }
    ensures { result ≡ commons_end start symbols.now }
{
    let mut end = start;
    for (i, y) in symbols.iter().enumerate() {
        end = bss_after(end, y, start + i as u64 * LONGEST_STEP);
    }
    end
}

/// The values of the symbols.
pub(crate) fn symbol_values(
    alloc: Global,
    places: &[u64],
    at: Places,
    start: u64,
    symbols: &[Sym],
) -> Result<Vec<Option<u32>>, AllocError>
    requires room { All IsSymRoom symbols.now }
    requires few { length symbols.now ≤ most_entries }
    requires start { start ≤ 2 ^ 57 }
    ensures { IfOk result (λ v. v.items ≡ values_from places.now at start symbols.now) }
{
    let mut list = Vec::new(alloc);
    let mut end = start;
    for (i, y) in symbols.iter().enumerate() {
        list.push(value(places, at, end, y))?;
        end = bss_after(end, y, start + i as u64 * LONGEST_STEP);
    }
    Ok(list)
}
