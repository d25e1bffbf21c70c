//! What follows from the equations of the board's bus and of the instructions on it.

ghost use Rattle.board_bus.specs.Laws.{MultipleLaw, RemovalLaw};

/// The law of `lmw` and `stmw`: they move each word between register RT + k and address EA + 4k,
/// and change nothing else.
pub fn multiple_law()
    ensures { MultipleLaw }
{}

/// The law of removed devices: the slot is empty, every other slot keeps its device, and an access
/// to an empty slot faults. No load or store fills a slot or empties one.
pub fn removal_law()
    ensures { RemovalLaw }
{}
