//! Words, which blanks part.

ghost use Rattle.std.specs.Prelude.{◌≡◌, ◌≤◌, length};
ghost use Rattle.std.specs.List.{position_or_len, prefix_len};
ghost use Rattle.source_text.specs.Blanks.{is_blank, first_word as first_word_lem, after_word as after_word_lem};

use wind_base::bytes_after;

/// The bytes that part words.
#[derive(Clone, Copy, Debug)]
pub enum Blanks {
    /// Spaces.
    Spaces,
    /// Spaces and tabs.
    SpacesAndTabs,
}

impl Blanks {
    /// Whether a byte parts words.
    pub fn contains(self, byte: u8) -> bool
        ensures { result ≡ is_blank self byte }
    {
        match self {
            Blanks::Spaces => byte == b' ',
            Blanks::SpacesAndTabs => byte == b' ' || byte == b'\t',
        }
    }

    // The length in bytes of the first word.
    fn word_len(self, text: &[u8]) -> usize
        ensures exact { result ≡ position_or_len (is_blank self) text.now }
        ensures inside { result ≤ length text.now }
    {
        text.iter()
            .take_while(|byte| !self.contains(**byte))
            .count()
    }

    // How many blanks the text begins with.
    fn gap_len(self, text: &[u8]) -> usize
        ensures exact { result ≡ prefix_len (is_blank self) text.now }
        ensures inside { result ≤ length text.now }
    {
        text.iter().take_while(|byte| self.contains(**byte)).count()
    }

    /// The first word.
    pub fn first_word(self, text: &[u8]) -> &[u8]
        ensures { result.now ≡ first_word_lem (is_blank self) text.now }
    {
        &text[..self.word_len(text)]
    }

    /// What comes after the first word and the blanks after it.
    pub fn after_word(self, text: &[u8]) -> &[u8]
        ensures { result.now ≡ after_word_lem (is_blank self) text.now }
    {
        let rest = bytes_after(text, self.word_len(text));
        bytes_after(rest, self.gap_len(rest))
    }
}
