//! What follows from the definitions alone.

ghost use Rattle.symbol_table.specs.Laws.{NewestLaw, RemovalLaw};
ghost use Rattle.symbol_table.specs.Chains.{ChainsLaw};

/// A look-up answers an entry that passes and after which none passes; it answers none only if none
/// passes. With one symbol more, it answers that symbol if it passes, and otherwise what it
/// answered before.
pub fn newest_law()
    ensures { NewestLaw }
{}

/// After a group is removed, the table has none of its symbols and all others. A look-up that no
/// symbol of the group passes answers as before.
pub fn removal_law()
    ensures { RemovalLaw }
{}

/// From the head of a chain, the links lead through exactly its entries, from the newest to the
/// oldest.
pub fn chains_law()
    ensures { ChainsLaw }
{}
