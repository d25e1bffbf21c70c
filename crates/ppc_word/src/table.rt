//! The table of patterns, through two functions.

ghost use Rattle.std.specs.Prelude.{◌≡◌, ◌<◌};
ghost use Rattle.ppc_word.specs.Table.{form_at, number};
ghost use Rattle.ppc_word.specs.Patterns.{pattern_of};

use crate::pattern::{PATTERNS, Pattern};
use crate::row::{ROWS, Row};

/// The pattern at a place of the table.
#[inline(always)]
pub(crate) fn pattern(place: usize) -> &'static Pattern
    requires { place < ROWS }
    ensures { result.now ≡ pattern_of (form_at place) }
{
    &PATTERNS[place]
}

/// The place of an instruction in the table.
pub(crate) fn place_of(row: Row) -> usize
    ensures is { result ≡ number row }
    ensures within { result < ROWS }
{
    row as usize
}
