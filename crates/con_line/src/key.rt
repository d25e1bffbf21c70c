//! What each byte of the console is for.

ghost use Rattle.std.specs.Prelude.{◌≡◌};
ghost use Rattle.con_line.specs.Keys.{key_of as key_of_lem};

/// What a byte of the console is for. The names are those of the special characters of POSIX
/// terminals.
#[derive(Clone, Copy, Debug, PartialEq, Eq)]
pub(crate) enum Key {
    /// 0x0D ends the line.
    Return,
    /// 0x0A ends the line, unless it follows a 0x0D.
    NewLine,
    /// 0x08 and 0x7F erase the last byte of the edited line.
    Erase,
    /// 0x15 clears the edited line.
    Kill,
    /// 0x03 clears all lines and aborts the shell.
    Interrupt,
    /// 0x09 and the other bytes from 0x20 on are typed.
    Text,
    /// Other bytes are dropped.
    Ignored,
}

/// The key that sends a byte.
pub(crate) fn key_of(byte: u8) -> Key
    ensures { result ≡ key_of_lem byte }
{
    match byte {
        b'\r' => Key::Return,
        b'\n' => Key::NewLine,
        0x08 | 0x7f => Key::Erase,
        0x15 => Key::Kill,
        0x03 => Key::Interrupt,
        b'\t' | 0x20.. => Key::Text,
        _ => Key::Ignored,
    }
}
