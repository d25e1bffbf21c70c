//! A screen that shows the bytes of the console and the program's own texts. This is a trusted edge
//! of the program.

use std::cell::Cell;
use std::fmt::Display;
use std::io;
use std::io::Print;

/// What a stream shows on the screen.
#[derive(Clone, Copy, Debug, PartialEq, Eq)]
pub(crate) enum Shows {
    /// The bytes of the console.
    Console,
    /// The program's own texts. Each begins on a line of its own.
    Texts,
    /// The echo of a line for the program, which goes on in the console's line.
    Echo,
}

/// A stream to a screen that it shares with other streams.
#[derive(Drop)]
pub(crate) struct Screen<'a, P: Print + Drop> {
    stream: P,
    shows: Shows,
    // whether the console's line has no end yet; `None` if nothing is shared
    is_open: Option<&'a Cell<bool>>,
}

impl<'a, P: Print + Drop> Screen<'a, P> {
    /// A stream that shares the screen, of which `is_open` says whether the console's line has no
    /// end yet.
    pub(crate) fn new(stream: P, shows: Shows, is_open: Option<&'a Cell<bool>>) -> Screen<'a, P> {
        Screen {
            stream,
            shows,
            is_open,
        }
    }

    /// Ends the console's line, if it has no end yet.
    pub(crate) fn end_line(&self) -> io::Result<()> {
        let Some(is_open) = self.is_open else {
            return Ok(());
        };
        if is_open.get() {
            is_open.set(false);
            self.stream.write_all(b"\n")?;
        }
        Ok(())
    }
}

// Whether a line is open after these bytes.
fn is_open_after(is_open: bool, bytes: &[u8]) -> bool {
    match bytes {
        [.., last] => *last != b'\n',
        [] => is_open,
    }
}

impl<P: Print + Drop> Print for Screen<'_, P> {
    fn print<D: Display + Drop>(&self, value: D) -> io::Result<()> {
        self.stream.print(value)
    }

    fn println<D: Display + Drop>(&self, value: D) -> io::Result<()> {
        self.stream.println(value)
    }

    fn write_all(&self, bytes: &[u8]) -> io::Result<()> {
        if self.shows == Shows::Texts {
            self.end_line()?;
        }
        self.stream.write_all(bytes)?;
        if self.shows != Shows::Texts
            && let Some(is_open) = self.is_open
        {
            is_open.set(is_open_after(is_open.get(), bytes));
        }
        Ok(())
    }
}
