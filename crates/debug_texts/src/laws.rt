//! What follows from the definitions alone.

ghost use Rattle.debug_texts.specs.Parts.{PartsLaw};

/// The law of parts: enough parts of a text, read one after another up to the last, are the text.
pub fn parts_law()
    ensures { PartsLaw }
{}
