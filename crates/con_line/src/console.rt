//! The console.

ghost use Rattle.std.specs.Prelude.{◌≡◌, ◌↔◌, ◌≤◌, ◌∷◌, [], if◌then◌else◌, length, Some, None, IfOk};
ghost use Rattle.wind_base.specs.Limits.{longest_line};
ghost use Rattle.wind_base.specs.OutBuf.{Added};
ghost use Rattle.con_line.specs.declared.console.ByteDone.TheVariants as done;
ghost use Rattle.con_line.specs.State.{console_of, opening_console};
ghost use Rattle.con_line.specs.Keys.{after_key, after_byte, echo_of, byte_echo, done_by, byte_done, erased, erase_echo, typed, type_echo};
ghost use Rattle.con_line.specs.Lines.{KeepsLines, is_kept, with_kept, laid_in, first_line as first_line_of, line_dropped, has_line as has_line_lem};
ghost use Rattle.con_line.specs.Effect.{Leaves};

use crate::finished::Finished;
use crate::key::{Key, key_of};
use arrayvec::ArrayVec;
use std::alloc::Global;
use std::marker::Model;
use wind_base::limits::LINE_BYTES;
use wind_base::text::add;
use wind_base::{NoMemory, OutBuf};

/// The room, in bytes, for any line and its end.
pub const LINE_ROOM: usize = LINE_BYTES + 1;

/// What a byte does besides its effect on the edited line.
#[derive(Clone, Copy, Debug, PartialEq, Eq)]
pub enum ByteDone {
    /// It aborts the shell.
    Abort,
    /// The edited line is finished, and kept until it is read.
    Line,
    /// Nothing more.
    Kept,
}

/// The console. Only `new` allocates memory.
#[derive(Drop)]
pub struct Console {
    edited: ArrayVec<u8, LINE_BYTES>,
    after_return: bool,
    finished: Finished,
}

impl Model for Console {
    ghost use Rattle.con_line.specs.State.{ConsoleState, console_of};
    ghost use Rattle.con_line.specs.Lines.{KeepsLines};

    ghost Value = { ConsoleState };

    ghost view = { λ c. console_of c.edited.items c.after_return c.finished };

    ghost invariant = { λ c. KeepsLines c.edited.items c.finished };
}

impl Console {
    /// Makes a console before its first byte. It allocates the room for the console's lines.
    pub fn new(alloc: Global) -> Result<Console, NoMemory>
        ensures { IfOk result (λ c. c ≡ opening_console) }
    {
        let finished = Finished::new(alloc)?;
        Ok(Console {
            edited: ArrayVec::new(),
            after_return: false,
            finished,
        })
    }

    /// Takes a byte, and adds what it echoes: at most three bytes. Returns `Abort` only for 0x03,
    /// and `Line` exactly if the edited line ends and is kept.
    pub fn byte(&mut self, byte: u8, echo: &mut OutBuf) -> ByteDone
        requires { 3 ≤ echo.old.room }
        ensures after { self.new ≡ after_byte self.old byte }
        ensures done { result ≡ byte_done self.old byte }
        ensures abort { (result ≡ done.Abort) ↔ (byte ≡ 3) }
        ensures finished { Leaves result self.old self.new }
        ensures echo { Added 3 echo.old echo.new (byte_echo self.old byte) }
    {
        let done = press(
            key_of(byte),
            byte,
            self.after_return,
            &mut self.edited,
            &mut self.finished,
            echo,
        );
        self.after_return = byte == b'\r';
        done
    }

    /// Whether there is a finished line.
    pub fn has_line(&self) -> bool
        ensures { result ≡ has_line_lem self.now }
    {
        !self.finished.is_empty()
    }

    /// Copies the first finished line to the beginning of `dst`, without its 0x0A; the line stays.
    /// Returns its length in bytes. If there is no finished line, it returns `None`, and `dst` is
    /// as it was.
    pub fn first_line(&self, dst: &mut [u8; LINE_ROOM]) -> Option<u32>
        ensures count { result ≡ (if has_line_lem self.now then Some (length (first_line_of self.now)) else None) }
        ensures line { dst.new ≡ laid_in (first_line_of self.now) dst.old }
        ensures none { result ≡ None → dst.new ≡ dst.old }
        ensures short { length (first_line_of self.now) ≤ longest_line }
    {
        if self.finished.is_empty() {
            return None;
        }
        let len = self.finished.first_len();
        self.finished.copy_first(&mut dst[..len]);
        Some(len as u32)
    }

    /// Drops the first finished line, with its 0x0A. Returns false exactly if there is none.
    pub fn drop_line(&mut self) -> bool
        ensures after { self.new ≡ line_dropped self.old }
        ensures dropped { result ≡ has_line_lem self.old }
    {
        let kept = !self.finished.is_empty();
        self.finished.drop_first();
        kept
    }

    /// Gives the invariant of the lines. The edited line has at most 255 bytes and no 0x0A. Each
    /// finished line has an end and at most 255 bytes; together they have at most 4096 bytes.
    pub fn facts(&self)
        ensures { KeepsLines self.now.edited self.now.finished }
    {
        // The type keeps the invariant; a look at a field gives it.
        let _ = &self.finished;
    }
}

// Handles a key, except for the mark of 0x0D.
fn press(
    key: Key,
    byte: u8,
    after_return: bool,
    edited: &mut ArrayVec<u8, LINE_BYTES>,
    finished: &mut Finished,
    echo: &mut OutBuf,
) -> ByteDone
    requires { 3 ≤ echo.old.room }
    ensures after { console_of edited.new.items after_return finished.new
        ≡ after_key key (console_of edited.old.items after_return finished.old) byte }
    ensures done { result ≡ done_by key (console_of edited.old.items after_return finished.old) }
    ensures echo { Added 3 echo.old echo.new
        (echo_of key (console_of edited.old.items after_return finished.old) byte) }
{
    match key {
        Key::Return => end_line(edited, finished, echo),
        Key::NewLine => {
            if after_return {
                return ByteDone::Kept;
            }
            end_line(edited, finished, echo)
        }
        Key::Erase => {
            erase(edited, echo);
            ByteDone::Kept
        }
        Key::Kill => {
            edited.clear();
            add(echo, b"\n");
            ByteDone::Kept
        }
        Key::Interrupt => {
            edited.clear();
            finished.clear();
            add(echo, b"\n");
            ByteDone::Abort
        }
        Key::Text => {
            enter(edited, byte, echo);
            ByteDone::Kept
        }
        Key::Ignored => ByteDone::Kept,
    }
}

// Ends the edited line. It is kept if there is room for it among the finished ones.
fn end_line(
    edited: &mut ArrayVec<u8, LINE_BYTES>,
    finished: &mut Finished,
    echo: &mut OutBuf,
) -> ByteDone
    requires { 3 ≤ echo.old.room }
    ensures edited { edited.new.items ≡ [] }
    ensures finished { finished.new ≡ with_kept finished.old edited.old.items }
    ensures done { result ≡ (if is_kept finished.old edited.old.items then done.Line else done.Kept) }
    ensures echo { Added 3 echo.old echo.new (10 ∷ []) }
{
    add(echo, b"\n");
    let kept = finished.keep(edited.as_slice());
    edited.clear();
    if kept { ByteDone::Line } else { ByteDone::Kept }
}

// Erases the last byte of the edited line, if there is one.
fn erase(edited: &mut ArrayVec<u8, LINE_BYTES>, echo: &mut OutBuf)
    requires { 3 ≤ echo.old.room }
    ensures line { edited.new.items ≡ erased edited.old.items }
    ensures echo { Added 3 echo.old echo.new (erase_echo edited.old.items) }
{
    if edited.pop().is_some() {
        add(echo, b"\x08 \x08");
    }
}

// Types a byte, if the edited line has room.
fn enter(edited: &mut ArrayVec<u8, LINE_BYTES>, byte: u8, echo: &mut OutBuf)
    requires { 3 ≤ echo.old.room }
    ensures line { edited.new.items ≡ typed edited.old.items byte }
    ensures echo { Added 3 echo.old echo.new (type_echo edited.old.items byte) }
{
    if edited.try_push(byte).is_ok() {
        add(echo, &[byte]);
    }
}
