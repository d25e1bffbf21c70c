//! What follows from the definitions alone.

ghost use Rattle.debug_wire.specs.Laws.{BytesLaw, EscapeLaw, NumberLaw, PlacesLaw, ReaderLaw, ReadsBackLaw};

/// The law of frames: the frame of a body is read as a packet with that body, whatever comes before
/// and after it.
pub fn reads_back_law()
    ensures { ReadsBackLaw }
{}

/// The law of the reader: after any bytes it completes the frames of the input, and nothing else.
pub fn reader_law()
    ensures { ReaderLaw }
{}

/// The law of binary data: escaped bytes read back, and a body can have each of them.
pub fn escape_law()
    ensures { EscapeLaw }
{}

/// The law of numbers: their texts read back, with and without leading zeros.
pub fn number_law()
    ensures text { NumberLaw }
    ensures places { PlacesLaw }
{}

/// The law of bytes: two hexadecimal digits for each of them read back.
pub fn bytes_law()
    ensures { BytesLaw }
{}
