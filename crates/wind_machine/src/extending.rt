//! What follows if a console file and a timetable become longer while they are played.

ghost use Rattle.wind_machine.specs.Extending.{SameNext, StepExtends, OverExtends, RoomStays, DemandStays, TimeGrows, RunExtends, ExtendLaw, RecordLaw, GrowsLaw};

/// The law of more to come. Take a state with further console bytes and events after those that are
/// left. If no chunk of the console is due, each event asks for no more bytes than are left, and the
/// further events come later than every board time reached, its run makes the same steps.
pub fn extend_law()
    ensures next { SameNext }
    ensures step { StepExtends }
    ensures over { OverExtends }
    ensures room { RoomStays }
    ensures demand { DemandStays }
    ensures time { TimeGrows }
    ensures begins { RunExtends }
    ensures run { ExtendLaw }
{}

/// The law of a record that grows while it is played. Bytes and events that come later than the
/// board time reached make a longer record, and the run of the longer record begins with the run so
/// far.
pub fn live_law()
    ensures records { RecordLaw }
    ensures grows { GrowsLaw }
{}
