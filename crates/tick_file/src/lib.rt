//! The tick file: a text that says when ticks occur, when devices interrupt and when console bytes
//! arrive. `read_ticks` reads it, and a `Schedule` gives its events, one after another.
#![tactic(auto)]

ghost use Rattle.tick_file.specs.Forms.{GrammarLaw};
ghost use Rattle.tick_file.specs.Laws.{PiecesLaw, LinesLaw, TimetableLaw, EarlyLaw};
ghost use Rattle.tick_file.specs.Writing.{WritingLaw, MoreLaw, LongerLaw};

mod event;
mod line;
mod lines;
mod pending;
mod reading;
mod schedule;

pub use event::{Event, Rule, Said};
pub use line::{number, said};
pub use lines::first_line;
pub use reading::{TickErr, read_ticks};
pub use schedule::Schedule;

/// The law of the grammar: a line says a rule exactly if it is the words, gaps and numbers of that
/// rule. It says nothing exactly if it is blank or a comment.
pub fn grammar_law()
    ensures { GrammarLaw }
{}

/// The law of the pieces from which a text's lines are made: joined with an 0x0A between each two
/// they are the text, and none contains an 0x0A.
pub fn pieces_law()
    ensures { PiecesLaw }
{}

/// The law of a text's lines: its rules are those that its lines say, each with the number of its
/// line, counted from 1. Its first bad line is the first invalid one.
pub fn lines_law()
    ensures { LinesLaw }
{}

/// The law of a text's timetable: each event is before all that follow it, by time, line and number
/// in the line. Its events are exactly those that the rules of the text ask for.
pub fn timetable_law()
    ensures { TimetableLaw }
{}

/// The law of early events: whatever a text asks for comes before 2^64.
pub fn early_law()
    ensures { EarlyLaw }
{}

/// The law of written tick files. If a text has one line for each event of a list, none earlier than
/// the one before, its timetable is that list, and no line is invalid. One more event is one more
/// line.
pub fn writing_law()
    ensures written { WritingLaw }
    ensures more { MoreLaw }
    ensures longer { LongerLaw }
{}
