//! What follows from the definitions alone.

ghost use Rattle.reloc_link.specs.Laws.{TypesLaw, PatchLaw};

/// Each type of relocation has a number of its own.
pub fn types_law()
    ensures { TypesLaw }
{}

/// What writing bindings in order leaves. If a binding is refused, the answer is the first refusal,
/// with its number; the image holds what the bindings before it wrote. If none is refused and no
/// two fields overlap, each field holds what its relocation makes of its previous content. The
/// bytes outside all fields stay.
pub fn patch_law()
    ensures { PatchLaw }
{}
