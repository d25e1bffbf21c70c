//! What a part of the input asks for.

ghost use Rattle.std.specs.Prelude.{◌≡◌};
ghost use Rattle.live_session.specs.Positions.{empties_line as empties_line_lem, last_of as last_of_lem, position_after as position_after_lem, request_of as request_of_lem};

use crate::dot_line::{DotLine, dot_line, is_dotted};

/// Where the input is, before its next part.
#[derive(Clone, Copy, Debug, PartialEq, Eq)]
pub enum Position {
    /// At the start of a line.
    Start,
    /// In a line for the board.
    Text,
    /// In a line for the program.
    Command,
}

/// What a part of the input asks for.
#[derive(Clone, Copy, Debug, PartialEq, Eq)]
pub enum Request {
    /// Its bytes are for the board.
    Send,
    /// It goes on in a line for the program.
    Skip,
    /// It begins a line for the program.
    Obey(DotLine),
}

/// Whether the board's line is empty after this byte: 0x0A and 0x0D end it, and 0x03 and 0x15 clear
/// it.
pub(crate) fn empties_line(byte: u8) -> bool
    ensures { result ≡ empties_line_lem byte }
{
    matches!(byte, b'\n' | b'\r' | 0x03 | 0x15)
}

// The last byte of a part.
fn last_of(part: &[u8]) -> u8
    ensures { result ≡ last_of_lem part.now }
{
    match part {
        [.., last] => *last,
        [] => 0,
    }
}

/// Where the input is after a part.
pub(crate) fn position_after(position: Position, part: &[u8]) -> Position
    ensures { result ≡ position_after_lem position part.now }
{
    let last = last_of(part);
    let is_command = match position {
        Position::Start => is_dotted(part),
        Position::Text => false,
        Position::Command => true,
    };
    if is_command {
        return if last == b'\n' {
            Position::Start
        } else {
            Position::Command
        };
    }
    if empties_line(last) {
        Position::Start
    } else {
        Position::Text
    }
}

/// What a part asks for. A line that begins with `.` is for the program, and only the part that
/// begins it counts.
pub(crate) fn request_of(position: Position, part: &[u8]) -> Request
    ensures { result ≡ request_of_lem position part.now }
{
    match position {
        Position::Start if is_dotted(part) => Request::Obey(dot_line(part)),
        Position::Start | Position::Text => Request::Send,
        Position::Command => Request::Skip,
    }
}
