//! A terminal whose keys come one by one, without the terminal's own editing and echo. Contracts
//! tell nothing of what is typed. This is a trusted edge of the program.

ghost use Rattle.std.specs.Prelude.{◌≡◌, ◌≢◌, ◌≤◌, length, None, Some, IfOk, IfSome};
ghost use Rattle.wind_outside.specs.Counts.{Rose};
ghost use Rattle.live_session.specs.Input.{Gives, IsPart};
ghost use Rattle.live_session.specs.declared.input.InputPart.TheVariants as parts;

use crate::input::{Input, InputPart, first_part};
use crate::serving::empties_line;
use con_line::{ByteDone, Console, LINE_ROOM};
use std::alloc::{AllocError, Global};
use std::io;
use std::io::{BufRead, ErrorKind, Print};
use wind_base::{NoMemory, OutBuf};
use wind_outside::{Counted, HostSink, Put, Sink};

// The key that ends the input: ^D.
const END: u8 = 0x04;

// The most bytes that a key echoes.
const ECHO_BYTES: u32 = 3;

// A line for the program while it is typed.
#[derive(Drop)]
struct Editor {
    console: Console,
    // how many bytes the line has
    held: usize,
}

// How many bytes a line has after a key with this echo.
fn held_after(held: usize, echo: &[u8]) -> usize {
    match echo {
        [] => held,
        [b'\n'] => 0,
        [_] => held.saturating_add(1),
        _ => held.saturating_sub(1),
    }
}

impl Editor {
    fn new(alloc: Global) -> Result<Editor, NoMemory> {
        let console = Console::new(alloc)?;
        Ok(Editor { console, held: 0 })
    }

    // Takes the finished line, with its end.
    fn take_line(&mut self, alloc: Global) -> Result<Vec<u8>, AllocError>
        ensures { IfOk result (λ part. IsPart part.items) }
    {
        let mut line = [0; LINE_ROOM];
        let len = self.console.first_line(&mut line).unwrap_or(0) as usize;
        let _ = self.console.drop_line();
        let len = len.min(LINE_ROOM - 1);
        line[len] = b'\n';
        first_part(alloc, &line[..len + 1])
    }

    // Takes a key, and shows what it echoes. If it ends the line, or interrupts the board, the line
    // or the key is a part of the input.
    fn press<E: Sink>(
        &mut self,
        alloc: Global,
        key: u8,
        screen: &mut E,
    ) -> Result<Option<Vec<u8>>, NoMemory>
        ensures { IfOk result (λ part. IfSome part (λ p. IsPart p.items)) }
    {
        let mut echo = OutBuf::reserved(alloc, ECHO_BYTES)?;
        let done = self.console.byte(key, &mut echo);
        self.held = held_after(self.held, echo.bytes());
        match screen.put(echo.bytes()) {
            Put::Done | Put::Failed => {}
        }
        match done {
            ByteDone::Kept => Ok(None),
            ByteDone::Abort => Ok(Some(first_part(alloc, &[key])?)),
            ByteDone::Line => Ok(Some(self.take_line(alloc)?)),
        }
    }
}

/// A terminal.
///
/// A part of the input is what one read brings, up to and including the first byte after which the
/// board's line is empty. A line that begins with `.` is edited and echoed here, by the keys of the
/// board's own console, and comes as one part when it ends. 0x04 ends the input.
#[derive(Drop)]
pub struct HostTerminal<R: BufRead + Drop, E: Print + Drop> {
    keys: Counted<R>,
    screen: HostSink<E>,
    editor: Editor,
    // the board's line is empty
    at_start: bool,
}

// The keys that come next.
#[derive(Drop)]
struct Keys {
    part: Vec<u8>,
    // it is a key of a line for the program
    is_edit: bool,
}

// How many of these keys are of one part of a line for the board.
fn text_len(keys: &[u8]) -> usize
    ensures { result ≤ length keys.now }
{
    let end = keys
        .iter()
        .position(|key| *key == END || empties_line(*key));
    match end {
        Some(at) if keys[at] == END => at,
        Some(at) => at + 1,
        None => keys.len(),
    }
}

// Takes the next keys, if there are more: one key of a line for the program, or a part of another
// line. `is_held` says whether there is a line for the program, and `at_start` whether another
// would begin.
fn take_keys<R: BufRead>(
    alloc: Global,
    reader: &mut R,
    is_held: bool,
    at_start: bool,
) -> io::Result<Option<Keys>>
    ensures { IfOk result (λ taken. IfSome taken (λ keys. IsPart keys.part.items)) }
{
    let keys = reader.fill_buf()?;
    let len = text_len(keys);
    if len == 0 {
        return Ok(None);
    }
    if is_held || (at_start && keys[0] == b'.') {
        let part = first_part(alloc, &keys[..1])?;
        reader.consume(1);
        return Ok(Some(Keys {
            part,
            is_edit: true,
        }));
    }
    let part = first_part(alloc, &keys[..len])?;
    reader.consume(part.len());
    Ok(Some(Keys {
        part,
        is_edit: false,
    }))
}

impl<R: BufRead + Drop, E: Print + Drop> HostTerminal<R, E> {
    /// A terminal with these keys, which shows on this stream what it echoes.
    pub fn new(alloc: Global, keys: R, screen: E) -> Result<HostTerminal<R, E>, NoMemory> {
        Ok(HostTerminal {
            keys: Counted::new(keys),
            screen: HostSink::new(screen),
            editor: Editor::new(alloc)?,
            at_start: true,
        })
    }

    // What is heard after a read that failed. A read that was interrupted is made again.
    fn failed(&mut self, error: io::Error) -> Option<InputPart>
        ensures gives { IfSome result (λ part. Gives None None part) }
        ensures failed { result ≡ Some parts.Failed → Rose self.old.keys.faults self.new.keys.faults }
        ensures again { result ≡ None → self.new.keys.faults ≡ self.old.keys.faults }
        ensures never_falls { self.old.keys.faults ≤ self.new.keys.faults }
    {
        match error.kind() {
            ErrorKind::Interrupted => None,
            ErrorKind::OutOfMemory => Some(InputPart::NoMemory),
            _ => {
                self.keys.count_fault();
                Some(InputPart::Failed)
            }
        }
    }

    // Takes a part of a line for the board, or a key of a line for the program.
    fn take(&mut self, alloc: Global, keys: Keys) -> Option<InputPart>
        requires { IsPart keys.part.items }
        ensures gives { IfSome result (λ part. Gives None None part) }
        ensures failed { result ≢ Some parts.Failed }
        ensures faults { self.new.keys.faults ≡ self.old.keys.faults }
    {
        let Keys { part, is_edit } = keys;
        if !is_edit {
            self.at_start = part.last().is_some_and(|byte| empties_line(*byte));
            return Some(InputPart::Bytes(part));
        }
        match self.editor.press(alloc, part[0], &mut self.screen) {
            Ok(Some(line)) => Some(InputPart::Bytes(line)),
            Ok(None) => None,
            Err(NoMemory) => Some(InputPart::NoMemory),
        }
    }

    // Hears the next keys.
    fn hear(&mut self, alloc: Global) -> Option<InputPart>
        ensures gives { IfSome result (λ part. Gives None None part) }
        ensures failed { result ≡ Some parts.Failed → Rose self.old.keys.faults self.new.keys.faults }
        ensures again { result ≡ None → self.new.keys.faults ≡ self.old.keys.faults }
        ensures never_falls { self.old.keys.faults ≤ self.new.keys.faults }
    {
        let is_held = self.editor.held > 0;
        let taken = match take_keys(alloc, &mut self.keys.handle, is_held, self.at_start) {
            Ok(taken) => taken,
            Err(error) => return self.failed(error),
        };
        match taken {
            Some(keys) => self.take(alloc, keys),
            None => Some(InputPart::End),
        }
    }

    // Hears keys until they are a part of the input.
    fn wait(&mut self, alloc: Global) -> InputPart
        ensures gives { Gives None None result }
        ensures failed { result ≡ parts.Failed → Rose self.old.keys.faults self.new.keys.faults }
        ensures never_falls { self.old.keys.faults ≤ self.new.keys.faults }
    {
        for _ in 0..u64::MAX {
            if let Some(part) = self.hear(alloc) {
                return part;
            }
        }
        InputPart::End
    }
}

impl<R: BufRead + Drop, E: Print + Drop> Input for HostTerminal<R, E> {
    ghost use Rattle.std.specs.Prelude.{None};

    ghost left = { λ _. None };

    ghost faults = { λ i. i.keys.faults };

    fn next_part(&mut self, alloc: Global) -> InputPart {
        self.wait(alloc)
    }
}
