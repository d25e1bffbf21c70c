//! What follows from the definitions alone.

ghost use Rattle.debug_view.specs.Laws.{ListedLaw, PlacesLaw};

/// The law of places: the addresses told of a module's sections are those at which its load put
/// them.
pub fn places_law()
    ensures { PlacesLaw }
{}

/// The law of the list of threads: a thread is in it exactly if its registers are told.
pub fn listed_law()
    ensures { ListedLaw }
{}
