//! What follows from the tables alone.

ghost use Rattle.wind_base.specs.Laws.{NamesLaw, NumbersLaw, GatesLaw, BoardsLaw};

/// No two gates have the same name, and no two errors the same number. Each gate has one number,
/// and only that gate is at its address. On each kind of board the gates follow RAM.
pub fn tables_law()
    ensures names { NamesLaw }
    ensures numbers { NumbersLaw }
    ensures gates { GatesLaw }
    ensures boards { BoardsLaw }
{}
