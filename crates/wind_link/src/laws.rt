//! What follows from the definitions alone.

ghost use Rattle.wind_link.specs.Boards.{BoardLaw, LinkedLaw};

/// Take accepted loads on a board. The first finds some symbols, and each other one finds those that
/// the load before it left. What they write is the static link of the same modules at the same
/// places over the first symbols, and RAM holds it all if nothing else writes into their blocks.
/// Tasks may run in between, and other blocks may come and go.
pub fn linked_law()
    ensures { LinkedLaw }
{}

/// Take loads on a board that begin with the symbols at the start, with no other load, unload or
/// added symbol in between, and let nothing else write into their blocks. If the same modules at the
/// same places have a static image, then each byte of their segments in RAM is the byte of the image
/// at its address.
pub fn board_law()
    ensures { BoardLaw }
{}
