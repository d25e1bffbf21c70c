//! The memory that a module needs.

ghost use Rattle.std.specs.Prelude.{◌≡◌, ◌≤◌, max, if◌then◌else◌, length, All, IfOk};
ghost use Rattle.wind_base.specs.Limits.{most_symbol_entries};
ghost use Rattle.mem_partition.specs.Place.{grain};
ghost use Rattle.module_image.specs.Exports.{export_count};
ghost use Rattle.module_image.specs.Layout.{segment_in, most_entries, IsShapeRoom, IsSymRoom};
ghost use Rattle.module_image.specs.Linkable.{IsLinkable};
ghost use Rattle.module_image.specs.Needs.{same_segment, align_by, align_after, common_align, needs_by, needs_of};

use crate::exports::count_exports;
use crate::layout::{find_commons, find_ends, find_shapes, segment};
use crate::segments::{Need, Needs, SegmentKind};
use elf_read::{Module, Shape, Sym, SymPlace};
use std::alloc::Global;
use wind_base::NoMemory;

/// The least alignment of a segment.
const LEAST_ALIGN: u32 = 16;

pub(crate) fn is_same(a: SegmentKind, b: SegmentKind) -> bool
    ensures { result ≡ same_segment a b }
{
    match (a, b) {
        (SegmentKind::Text, SegmentKind::Text)
        | (SegmentKind::Data, SegmentKind::Data)
        | (SegmentKind::Bss, SegmentKind::Bss) => true,
        _ => false,
    }
}

fn raise(align: u32, kind: SegmentKind, s: Shape) -> u32
    ensures { result ≡ (if same_segment kind (segment_in s) then max align s.align else align) }
{
    let own = s.align;
    if is_same(kind, segment(s)) {
        u32::max(align, own)
    } else {
        align
    }
}

/// The greatest alignment of the sections of a segment, at least 16.
fn find_align(kind: SegmentKind, shapes: &[Shape]) -> u32
    ensures { result ≡ align_by kind grain shapes.now }
{
    let mut align = LEAST_ALIGN;
    for s in shapes {
        align = raise(align, kind, *s);
    }
    align
}

fn raise_common(align: u32, y: &Sym) -> u32
    ensures { result ≡ align_after align y.now y.now.place }
{
    let own = y.value;
    match y.place {
        SymPlace::Common => u32::max(align, own),
        _ => align,
    }
}

/// The greatest of this alignment and those of the common symbols.
fn find_common_align(start: u32, symbols: &[Sym]) -> u32
    ensures { result ≡ common_align start symbols.now }
{
    let mut align = start;
    for y in symbols {
        align = raise_common(align, y);
    }
    align
}

/// The memory that each segment needs for sections of these shapes and these symbols.
pub fn measure(shapes: &[Shape], symbols: &[Sym]) -> Needs
    requires sections { All IsShapeRoom shapes.now }
    requires few { length shapes.now ≤ most_entries }
    requires symbols { All IsSymRoom symbols.now }
    requires few_symbols { length symbols.now ≤ most_entries }
    ensures { result ≡ needs_by shapes.now symbols.now }
{
    let ends = find_ends(shapes);
    Needs {
        text: Need {
            size: ends.text,
            align: find_align(SegmentKind::Text, shapes),
        },
        data: Need {
            size: ends.data,
            align: find_align(SegmentKind::Data, shapes),
        },
        bss: Need {
            size: find_commons(ends.bss, symbols),
            align: find_common_align(find_align(SegmentKind::Bss, shapes), symbols),
        },
    }
}

/// The memory that each segment of a module needs.
#[tactic(auto, using(crate::proofs::Known::shapes_room, crate::proofs::Known::few_shapes, crate::proofs::Made::needs_shaped))]
pub fn measure_module(alloc: Global, m: &Module) -> Result<Needs, NoMemory>
    requires { IsLinkable m.now }
    ensures { IfOk result (λ z. z ≡ needs_of m.now) }
{
    let sections = m.sections.as_slice();
    let symbols = m.symbols.as_slice();
    let shapes = find_shapes(alloc, sections)?;
    Ok(measure(&shapes, symbols))
}

/// How many of these symbols a load in this mode adds.
pub fn count_added(symbols: &[Sym], mode: u32) -> u32
    requires { length symbols.now ≤ most_symbol_entries }
    ensures { result ≡ export_count mode symbols.now }
{
    count_exports(mode, symbols)
}
