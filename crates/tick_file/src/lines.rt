//! The lines of a tick file.

ghost use Rattle.std.specs.Prelude.{◌≡◌};
ghost use Rattle.tick_file.specs.Lines.{without_return as without_return_lem, first_line as first_line_lem};

use wind_base::line_len;

// A piece without an 0x0D at its end.
fn without_return(piece: &[u8]) -> &[u8]
    ensures { result.now ≡ without_return_lem piece.now }
{
    match piece {
        [prefix @ .., last] if *last == b'\r' => prefix,
        _ => piece,
    }
}

/// The first line of a text, without its end.
pub fn first_line(text: &[u8]) -> &[u8]
    ensures { result.now ≡ first_line_lem text.now }
{
    let n = line_len(text);
    if n < text.len() {
        without_return(&text[..n])
    } else {
        text
    }
}
