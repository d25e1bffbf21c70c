//! What follows from the definitions alone.

ghost use Rattle.module_image.specs.Laws.{AgreementLaw, CountLaw, SizeLaw};
ghost use Rattle.module_image.specs.LayoutLaw.{LayoutLaw};
ghost use Rattle.module_image.specs.Link.{LinkLaw};
ghost use Rattle.module_image.specs.Linkable.{LinkableLaw};

/// Relocation and the partition accept whatever an object file may say about widths of relocations
/// and alignments.
pub fn agreement_law()
    ensures { AgreementLaw }
{}

/// A load adds as many symbols as were counted before, whatever its places and its id are.
pub fn count_law()
    ensures { CountLaw }
{}

/// The module of a file can be linked.
pub fn linkable_law()
    ensures { LinkableLaw }
{}

/// An image has as many bytes as its module needs.
pub fn size_law()
    ensures { SizeLaw }
{}

/// Each section is in its segment, at a multiple of its alignment. Before relocation, the bytes
/// there are those of the section. The sections of a segment are in order.
pub fn layout_law()
    ensures { LayoutLaw }
{}

/// Take any list of loads over a table, where each load finds the symbols that the loads before it
/// left. Their images are those of one static link at the same places.
pub fn link_law()
    ensures { LinkLaw }
{}
