//! The lines of a session.

use crate::board::{Board, Opening};
use crate::draft::Draft;
use crate::picture::picture;
use crate::reading::byte;
use crate::showing;
use case_files::{Player, Trouble, name, number};
use module_loader::LoadErr;
use std::alloc::Global;
use std::mem;
use text_show::module_rows;
use wind_base::{BoardKind, OutBuf};

/// The board before the first line that makes one.
const NOTHING: Opening = Opening {
    kind: BoardKind::One,
    start: 0,
    end: 0,
    ids: 0,
    blocks: 0,
    symbols: 0,
};

// A file and its name.
#[derive(Drop)]
struct File {
    name: String,
    bytes: Vec<u8>,
}

/// A board, the files made so far, and the module being described.
#[derive(Drop)]
pub struct Session {
    alloc: Global,
    board: Board,
    draft: Draft,
    files: Vec<File>,
}

impl Player for Session {
    fn new(alloc: Global) -> Result<Session, Trouble> {
        Ok(Session {
            alloc,
            board: Board::new(alloc, NOTHING)?,
            draft: Draft::new(alloc),
            files: Vec::new(alloc),
        })
    }

    /// Plays a line `COMMAND | ANSWER`, or `COMMAND` if nothing is answered. Returns the answer if
    /// it differs.
    fn play(&mut self, line: &str) -> Result<Option<String>, Trouble> {
        let (command, wanted) = match line.split_once('|') {
            Some((command, wanted)) => (command, wanted.trim()),
            None => (line, ""),
        };
        let mut words = Vec::new(self.alloc);
        for word in command.split_whitespace() {
            words.push(word)?;
        }
        let answer = self.answer(&words)?;
        if answer.as_str() == wanted {
            Ok(None)
        } else {
            Ok(Some(answer))
        }
    }
}

impl Session {
    fn answer(&mut self, words: &[&str]) -> Result<String, Trouble> {
        let [command, rest @ ..] = words else {
            return Err(Trouble::Unreadable);
        };
        let alloc = self.alloc;
        match *command {
            "section" => silent(alloc, self.draft.section(rest)),
            "zeros" => silent(alloc, self.draft.zeros(rest)),
            "symbol" => silent(alloc, self.draft.symbol(rest)),
            "reloc" => silent(alloc, self.draft.reloc(rest)),
            "file" => self.file(rest),
            "cut" => silent(alloc, self.cut(rest)),
            "byte" => silent(alloc, self.change(rest)),
            "board" => silent(alloc, self.open(BoardKind::One, rest)),
            "board-2" => silent(alloc, self.open(BoardKind::Two, rest)),
            "load" => self.load(rest),
            "loads" => self.load_often(rest),
            "unload" => self.unload(rest),
            _ => self.question(command, rest),
        }
    }
}

// The answer of a command without one.
fn silent(alloc: Global, done: Result<(), Trouble>) -> Result<String, Trouble> {
    done?;
    Ok(String::new(alloc))
}

// Files.
impl Session {
    // `file NAME`: makes a file with this name of the module described by the lines before, and
    // begins a new module.
    fn file(&mut self, words: &[&str]) -> Result<String, Trouble> {
        let [label] = words else {
            return Err(Trouble::Unreadable);
        };
        let name = label.to_string(self.alloc)?;
        let draft = mem::replace(&mut self.draft, Draft::new(self.alloc));
        match draft.file()? {
            Some(bytes) => {
                self.files.push(File { name, bytes })?;
                Ok(String::new(self.alloc))
            }
            None => Ok("no file".to_string(self.alloc)?),
        }
    }

    // `cut NAME LENGTH`: keeps only the first bytes of a file.
    fn cut(&mut self, words: &[&str]) -> Result<(), Trouble> {
        let [label, length] = words else {
            return Err(Trouble::Unreadable);
        };
        let length = number(length)?;
        let file = find(&mut self.files, label)?;
        file.truncate(length as usize);
        Ok(())
    }

    // `byte NAME AT VALUE`: changes a byte of a file.
    fn change(&mut self, words: &[&str]) -> Result<(), Trouble> {
        let [label, at, value] = words else {
            return Err(Trouble::Unreadable);
        };
        let at = number(at)?;
        let value = byte(value)?;
        let file = find(&mut self.files, label)?;
        let Some(place) = file.get_mut(at as usize) else {
            return Err(Trouble::Unreadable);
        };
        *place = value;
        Ok(())
    }
}

// The bytes of the newest file with a name.
fn find<'a>(files: &'a mut [File], label: &str) -> Result<&'a mut Vec<u8>, Trouble> {
    for file in files.iter_mut().rev() {
        if file.name.as_str() == label {
            return Ok(&mut file.bytes);
        }
    }
    Err(Trouble::Unreadable)
}

// Loads and unloads.
impl Session {
    // `board START END IDS BLOCKS SYMBOLS`: makes a board without modules. The files stay. After
    // `board-2` it is a board of kind 2.
    fn open(&mut self, kind: BoardKind, words: &[&str]) -> Result<(), Trouble> {
        let [start, end, ids, blocks, symbols] = words else {
            return Err(Trouble::Unreadable);
        };
        let opening = Opening {
            kind,
            start: number(start)?,
            end: number(end)?,
            ids: number(ids)?,
            blocks: number(blocks)?,
            symbols: number(symbols)?,
        };
        let board = Board::new(self.alloc, opening)?;
        drop(mem::replace(&mut self.board, board));
        Ok(())
    }

    // `load NAME MODE`: loads a file under its name.
    fn load(&mut self, words: &[&str]) -> Result<String, Trouble> {
        let [label, mode] = words else {
            return Err(Trouble::Unreadable);
        };
        let mode = number(mode)?;
        let file = find(&mut self.files, label)?;
        let before = picture(self.alloc, &mut self.board)?;
        let name = name(self.alloc, label)?;
        match self.board.load(name, file, mode) {
            Ok(answer) => showing::loaded(self.alloc, &answer),
            Err(reason) => refused(self.alloc, reason, &before, &mut self.board),
        }
    }

    // `loads NAME MODE COUNT`: loads it this many times. The answer is the last one.
    fn load_often(&mut self, words: &[&str]) -> Result<String, Trouble> {
        let [label, mode, count] = words else {
            return Err(Trouble::Unreadable);
        };
        let mut answer = String::new(self.alloc);
        for _ in 0..number(count)? {
            answer = self.load(&[*label, *mode])?;
        }
        Ok(answer)
    }

    // `unload ID`: unloads a module.
    fn unload(&mut self, words: &[&str]) -> Result<String, Trouble> {
        let [id] = words else {
            return Err(Trouble::Unreadable);
        };
        match self.board.unload(number(id)?) {
            Ok(()) => Ok(String::new(self.alloc)),
            Err(reason) => Ok(format!(in self.alloc; "{reason}")?),
        }
    }
}

// Why a load was refused, and whether the board is as before.
fn refused(
    alloc: Global,
    reason: LoadErr,
    before: &[u64],
    board: &mut Board,
) -> Result<String, Trouble> {
    let after = picture(alloc, board)?;
    showing::refused(alloc, reason, after.as_slice() == before)
}

// Commands that only ask.
impl Session {
    fn question(&self, command: &str, words: &[&str]) -> Result<String, Trouble> {
        match (command, words) {
            ("free", []) => showing::hexadecimal(self.alloc, self.board.part().free_total()),
            ("symbols", []) => showing::hexadecimal(self.alloc, self.board.symbols().len()),
            ("find", [label]) => {
                showing::symbol(self.alloc, self.board.symbols().find(label.as_bytes()))
            }
            ("newest", [label]) => {
                showing::id(
                    self.alloc,
                    self.board.modules().newest_named(label.as_bytes()),
                )
            }
            ("module", [id]) => showing::module(self.alloc, self.board.modules().get(number(id)?)),
            ("next", [id]) => {
                showing::id(self.alloc, self.board.modules().next_after(number(id)?))
            }
            ("table", [line]) => self.table_line(number(line)?),
            ("ram", [at, count]) => {
                showing::bytes(self.alloc, self.bytes_at(number(at)?, number(count)?)?)
            }
            _ => Err(Trouble::Unreadable),
        }
    }

    // The bytes of RAM from an address on; `None` if one is outside RAM.
    fn bytes_at(&self, at: u32, count: u32) -> Result<Option<Vec<u8>>, Trouble> {
        let ram = self.board.ram();
        if !ram.has(at, count) {
            return Ok(None);
        }
        let mut bytes = vec![in self.alloc; 0; count as usize]?;
        let _ = ram.copy_out(at, &mut bytes);
        Ok(Some(bytes))
    }

    // A line of the table of modules.
    fn table_line(&self, line: u32) -> Result<String, Trouble> {
        let mut out = OutBuf::reserved(self.alloc, 0)?;
        module_rows(self.alloc, self.board.modules(), &mut out)?;
        showing::line(self.alloc, out.bytes(), line)
    }
}
