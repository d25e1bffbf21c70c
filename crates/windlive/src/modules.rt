//! The modules of a record: the board gets each file as it was when it was first loaded, and the
//! record gets a copy. This is a trusted edge of the program.

ghost use Rattle.std.specs.Prelude.{◌≢◌};
ghost use Rattle.wind_outside.specs.Files.{IsWithin};
ghost use Rattle.wind_outside.specs.declared.folder.Fetched.TheVariants as fetched;

use kept_files::{FileAnswer, KeptFiles, Unkept};
use live_session::Command;
use std::alloc::{AllocError, Global};
use std::cell::Cell;
use std::io::{ErrorKind, Print};
use std::rt::Files;
use std::{fs, io};
use wind_base::limits::MODULE_FILE_BYTES;
use wind_outside::{Fetched, Folder, HostFolder};

/// The folder of modules of a session with a record.
#[derive(Drop)]
pub(crate) struct Modules<'a, R: Files + Copy + Drop, P: Print + Drop> {
    rt: R,
    source: Source<'a, R>,
    kept: KeptFiles,
    // whether the copies of an older record may still be in their place
    has_older: Cell<bool>,
    // where the program says what the record lacks
    texts: P,
}

// Where modules come from: the folder of modules, or, while the session replays a record, the copies
// there.
#[derive(Drop)]
struct Source<'a, R: Files + Copy + Drop> {
    folder: HostFolder<R>,
    // the names of the folder of modules and of the record's folder
    name: &'a str,
    record: &'a str,
    // whether the session still replays a record
    is_replaying: &'a Cell<bool>,
}

// Whether a name is that of a file in its folder: it names no other folder.
fn is_file_name(name: &str) -> bool {
    !name.is_empty()
        && name != "."
        && name != ".."
        && name.as_bytes().iter().all(|byte| *byte != b'/')
}

// The name of a file in the folder with this name.
fn file_of<'b>(folder: &str, path: &'b str) -> &'b str {
    let name = path.strip_prefix(folder).unwrap_or(path);
    name.strip_prefix("/").unwrap_or(name)
}

// The path of a copy in a record's folder.
fn copy_path(alloc: Global, record: &str, file: &str) -> Result<String, AllocError> {
    let folder = wind_session::path_in(alloc, record, "modules")?;
    wind_session::path_in(alloc, &folder, file)
}

// What is kept of a file, for a fetch of at most so many bytes.
fn answer_of(alloc: Global, kept: Option<&FileAnswer>, limit: u32) -> Fetched
    ensures within { IsWithin limit result }
    ensures kept { result ≢ fetched.Failed }
{
    match kept {
        Some(FileAnswer::File(bytes)) if bytes.len() <= limit as usize => {
            match Vec::from_slice(alloc, bytes) {
                Ok(copy) => Fetched::Found(copy),
                Err(AllocError) => Fetched::NoMemory,
            }
        }
        Some(FileAnswer::File(_) | FileAnswer::LongFile) => Fetched::TooLong,
        Some(FileAnswer::NoFile) => Fetched::Missing,
        None => Fetched::NoMemory,
    }
}

impl<'a, R: Files + Copy + Drop, P: Print + Drop> Modules<'a, R, P> {
    /// The folder of modules of a command with a record. With `--force` the copies of an older record
    /// are set aside before the first copy. While `is_replaying` is true, the modules are the copies
    /// in the record. `texts` takes the messages.
    pub(crate) fn new(
        alloc: Global,
        rt: R,
        command: &Command<'a>,
        is_replaying: &'a Cell<bool>,
        texts: P,
    ) -> Modules<'a, R, P> {
        let source = Source {
            folder: HostFolder::new(rt),
            name: command.modules,
            record: command.record,
            is_replaying,
        };
        Modules {
            rt,
            source,
            kept: KeptFiles::new(alloc),
            has_older: Cell::new(command.force),
            texts,
        }
    }

    // Says something of a file. A message that can't be written is lost.
    fn tell(&self, file: &str, text: &str) {
        for piece in ["windlive: ", file, text] {
            if self.texts.write_all(piece.as_bytes()).is_err() {
                return;
            }
        }
    }

    // Renames the folder of an older record's copies to `modules.old`, once.
    fn set_older_aside(&self, alloc: Global, folder: &str) -> io::Result<()> {
        if !self.has_older.get() {
            return Ok(());
        }
        let aside = wind_session::path_in(alloc, self.source.record, "modules.old")?;
        unless_absent(self.rt.remove_dir_all(alloc, &aside))?;
        unless_absent(self.rt.rename(folder, &aside))?;
        self.has_older.set(false);
        Ok(())
    }

    // Makes the record's copy of a file what is kept of it.
    fn write_copy(&self, alloc: Global, path: &str, file: &str) -> io::Result<()> {
        let folder = wind_session::path_in(alloc, self.source.record, "modules")?;
        self.set_older_aside(alloc, &folder)?;
        let copy = copy_path(alloc, self.source.record, file)?;
        match self.kept.get(path) {
            Some(FileAnswer::File(bytes)) => {
                make_folder(&self.rt, &folder)?;
                fs::write(&self.rt, copy.as_str(), bytes.as_slice())
            }
            _ => unless_absent(fs::remove_file(&self.rt, copy.as_str())),
        }
    }

    // Copies what is kept of a file into the record, or says that the record lacks it.
    fn copy(&self, alloc: Global, path: &str) {
        let file = file_of(self.source.name, path);
        if !is_file_name(file) {
            self.tell(file, " isn't in the record, since its name is a path\n");
        } else if self.write_copy(alloc, path, file).is_err() {
            self.tell(file, " isn't in the record: it can't be written\n");
        } else if let Some(FileAnswer::LongFile) = self.kept.get(path) {
            self.tell(file, " isn't in the record: it is over 4 MiB\n");
        }
    }

    // Whether the folder has other bytes for a file than what is kept.
    fn has_changed(&self, alloc: Global, path: &str) -> bool {
        let now = HostFolder::new(self.rt).fetch(alloc, path, MODULE_FILE_BYTES);
        match (self.kept.get(path), now) {
            (Some(FileAnswer::File(first)), Fetched::Found(bytes)) => {
                first.as_slice() != bytes.as_slice()
            }
            (Some(FileAnswer::NoFile), Fetched::Missing) => false,
            (Some(FileAnswer::LongFile), Fetched::TooLong) => false,
            (_, Fetched::Failed | Fetched::NoMemory) => false,
            _ => true,
        }
    }

    // Says if a file has changed since it was loaded first.
    fn tell_change(&self, alloc: Global, path: &str) {
        if self.has_changed(alloc, path) {
            let text = " has changed; this record keeps the first: load it under another name\n";
            self.tell(file_of(self.source.name, path), text);
        }
    }
}

// Makes a folder, unless it is there.
fn make_folder<R: Files>(rt: &R, name: &str) -> io::Result<()> {
    match fs::create_dir(rt, name) {
        Err(error) if error.kind() == ErrorKind::AlreadyExists => Ok(()),
        made => made,
    }
}

// The outcome of a call on a file that doesn't have to be there.
fn unless_absent(outcome: io::Result<()>) -> io::Result<()> {
    match outcome {
        Err(error) if error.kind() == ErrorKind::NotFound => Ok(()),
        Err(error) if error.kind() == ErrorKind::NotADirectory => Ok(()),
        outcome => outcome,
    }
}

impl<R: Files + Copy + Drop> Folder for Source<'_, R> {
    ghost use Rattle.std.specs.Prelude.{None};

    ghost files = { λ _. None };

    ghost requests = { λ _. None };

    ghost faults = { λ s. s.folder.faults };

    fn fetch(&mut self, alloc: Global, name: &str, limit: u32) -> Fetched {
        if !self.is_replaying.get() {
            return self.folder.fetch(alloc, name, limit);
        }
        let file = file_of(self.name, name);
        if !is_file_name(file) {
            return Fetched::Missing;
        }
        match copy_path(alloc, self.record, file) {
            Ok(path) => self.folder.fetch(alloc, &path, limit),
            Err(AllocError) => Fetched::NoMemory,
        }
    }
}

impl<R: Files + Copy + Drop, P: Print + Drop> Folder for Modules<'_, R, P> {
    ghost use Rattle.std.specs.Prelude.{None};

    ghost files = { λ _. None };

    ghost requests = { λ _. None };

    ghost faults = { λ m. m.source.folder.faults };

    fn fetch(&mut self, alloc: Global, name: &str, limit: u32) -> Fetched {
        if self.kept.get(name).is_some() {
            self.tell_change(alloc, name);
            return answer_of(alloc, self.kept.get(name), limit);
        }
        match self.kept.keep(alloc, &mut self.source, name) {
            Ok(()) => {}
            Err(Unkept::Failed) => return Fetched::Failed,
            Err(Unkept::NoMemory) => return Fetched::NoMemory,
        }
        if !self.source.is_replaying.get() {
            self.copy(alloc, name);
        }
        answer_of(alloc, self.kept.get(name), limit)
    }
}
