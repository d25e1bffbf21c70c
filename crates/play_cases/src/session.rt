//! One session, in which one call may fail.

use outside_log::{LoggedFolder, LoggedSink};
use std::alloc::{AllocError, Global};
use std::fmt;
use wind_outside::{Folder, MemFolder, MemSink, Sink};
use wind_session::{Ending, Stand, Status, play};

/// The most bytes that a session writes.
const ROOM: u32 = 4096;

/// The most steps of a session, unless a limit is given.
pub const STEPS: u64 = 1_000_000;

/// Two object files.
#[derive(Drop)]
pub struct Objects {
    /// 16 bytes of code, with the global `f` at their start.
    pub f: Vec<u8>,
    /// 16 bytes of code that begin with a branch to `f`.
    pub caller: Vec<u8>,
}

/// The call that fails, by its number from 1.
#[derive(Clone, Copy)]
pub enum Failing {
    /// No call fails.
    Nothing,
    /// The fetch with this number fails.
    Fetch(u64),
    /// The put with this number fails.
    Put(u64),
}

impl fmt::Display for Failing {
    fn fmt<W: fmt::Write>(&self, f: &mut fmt::Formatter<W>) -> fmt::Result {
        match self {
            Failing::Nothing => write!(f, "if nothing fails"),
            Failing::Fetch(call) => write!(f, "if fetch {call} fails"),
            Failing::Put(call) => write!(f, "if put {call} fails"),
        }
    }
}

impl Failing {
    // The numbers of the fetches that fail.
    fn fetches(self, alloc: Global) -> Result<Vec<u64>, AllocError> {
        match self {
            Failing::Fetch(call) => Vec::from_slice(alloc, &[call]),
            _ => Ok(Vec::new(alloc)),
        }
    }

    // The numbers of the puts that fail.
    fn puts(self, alloc: Global) -> Result<Vec<u64>, AllocError> {
        match self {
            Failing::Put(call) => Vec::from_slice(alloc, &[call]),
            _ => Ok(Vec::new(alloc)),
        }
    }
}

/// What a session leaves.
#[derive(Clone, Copy)]
pub struct Left {
    /// The session's status.
    pub status: Status,
    /// How many steps the board made; `None` if no board was booted.
    pub steps: Option<u64>,
    /// How many pages of its RAM are made; `None` if no board was booted.
    pub pages: Option<u32>,
}

/// What a session leaves, and what it wrote.
#[derive(Drop)]
pub struct Outcome {
    /// What the session leaves.
    pub left: Left,
    out: MemSink,
}

impl Outcome {
    /// What the session wrote.
    pub fn bytes(&self) -> &[u8] {
        self.out.bytes()
    }
}

/// The calls that a session made to the folder and the sink.
#[derive(Drop)]
pub struct Logged {
    /// The folder, with its log of fetches.
    pub folder: LoggedFolder<MemFolder>,
    /// The sink, with its log of puts.
    pub out: LoggedSink<MemSink>,
}

/// A session.
#[derive(Clone, Copy)]
pub struct Session<'a> {
    /// The session's name in the tables.
    pub name: &'a str,
    /// The contents of its console file.
    pub console: &'a str,
    /// The object files of its modules.
    pub objects: &'a Objects,
}

// What is left of a session.
fn left_of(ending: &Ending) -> Left {
    let status = ending.status;
    match &ending.stand {
        Stand::Booted(board) => Left {
            status,
            steps: Some(board.steps()),
            pages: Some(board.world().bus.ram.pages().made()),
        },
        Stand::NotBooted(_) => Left {
            status,
            steps: None,
            pages: None,
        },
    }
}

// What a session with this limit leaves, on a board without devices.
fn played<F: Folder, O: Sink>(
    alloc: Global,
    limit: &str,
    folder: &mut F,
    out: &mut O,
    err: &mut MemSink,
) -> Left {
    let words = ["windplay", "--limit", limit];
    let ending = play(alloc, &words, folder, out, err, Vec::new(alloc));
    left_of(&ending)
}

// A sink in which these puts fail.
fn sink(alloc: Global, failing: Vec<u64>) -> Result<MemSink, AllocError> {
    MemSink::reserved(alloc, ROOM, failing).or(Err(AllocError))
}

impl<'a> Session<'a> {
    // A folder with the console file, a tick file without lines, and three modules, two of which
    // are the same file.
    fn folder(&self, alloc: Global, failing: Failing) -> Result<MemFolder, AllocError> {
        let mut folder = MemFolder::new(alloc, failing.fetches(alloc)?);
        let files: [(&str, &[u8]); 5] = [
            ("console.txt", self.console.as_bytes()),
            ("ticks.txt", b""),
            ("./a.o", &self.objects.f),
            ("./b.o", &self.objects.f),
            ("./c.o", &self.objects.caller),
        ];
        for (name, bytes) in files {
            folder
                .add(name, Vec::from_slice(alloc, bytes)?)
                .or(Err(AllocError))?;
        }
        Ok(folder)
    }

    /// Plays the session with at most `limit` steps, in which one call fails.
    pub fn play(&self, alloc: Global, failing: Failing, limit: u64) -> Result<Outcome, AllocError> {
        let limit = limit.to_string(alloc)?;
        let mut out = sink(alloc, failing.puts(alloc)?)?;
        let mut err = sink(alloc, Vec::new(alloc))?;
        let mut folder = self.folder(alloc, failing)?;
        let left = played(alloc, limit.as_str(), &mut folder, &mut out, &mut err);
        Ok(Outcome { left, out })
    }

    /// Plays the session, in which one call fails, and logs the calls to the folder and the sink.
    pub fn play_logged(&self, alloc: Global, failing: Failing) -> Result<Logged, AllocError> {
        let limit = STEPS.to_string(alloc)?;
        let out = sink(alloc, failing.puts(alloc)?)?;
        let mut out = LoggedSink::new(alloc, out);
        let mut err = sink(alloc, Vec::new(alloc))?;
        let folder = self.folder(alloc, failing)?;
        let mut folder = LoggedFolder::new(alloc, folder);
        played(alloc, limit.as_str(), &mut folder, &mut out, &mut err);
        Ok(Logged { folder, out })
    }
}
