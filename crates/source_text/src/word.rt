//! The bytes of words.

ghost use Rattle.std.specs.Prelude.{◌≡◌, ◌≤◌, length};
ghost use Rattle.std.specs.List.{prefix_len};
ghost use Rattle.source_text.specs.Words.{is_blank as is_blank_lem, is_word_byte as is_word_byte_lem};

/// Whether the byte is a space or a tab.
pub fn is_blank(byte: u8) -> bool
    ensures { result ≡ is_blank_lem byte }
{
    byte == b' ' || byte == b'\t'
}

/// Whether the byte may stand in a name or a number.
pub fn is_word_byte(byte: u8) -> bool
    ensures { result ≡ is_word_byte_lem byte }
{
    byte.is_ascii_alphanumeric() || byte == b'_'
}

/// The length of the prefix of bytes that may stand in a name or a number.
pub fn word_len(bytes: &[u8]) -> usize
    ensures exact { result ≡ prefix_len is_word_byte_lem bytes.now }
    ensures inside { result ≤ length bytes.now }
{
    bytes.iter().take_while(|byte| is_word_byte(**byte)).count()
}
