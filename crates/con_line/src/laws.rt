//! What follows from the console's definitions alone, whatever its code does.

ghost use Rattle.con_line.specs.Laws.{StartLaw, ByteLaw, DropLaw, MadeLaw, SplitLaw, FirstLineLaw};

/// The law of the invariant: a console has it before its first byte, and every byte and the
/// dropping of a line keep it.
pub fn kept_law()
    ensures start { StartLaw }
    ensures byte { ByteLaw }
    ensures dropped { DropLaw }
{}

/// The law of finished lines. Bytes are finished lines exactly if they are lines of at most 255
/// bytes without a 0x0A, each followed by a 0x0A. The first of them is the one that is read, and
/// dropping it leaves the others.
pub fn lines_law()
    ensures made { MadeLaw }
    ensures split { SplitLaw }
    ensures first { FirstLineLaw }
{}
