//! The real outside: a stream that is read, and the files of a directory. Contracts tell nothing of
//! their content. This is a trusted edge of the program.

ghost use Rattle.std.specs.Prelude.{◌≤◌, vec_len, IfOk};
ghost use Rattle.std.specs.Io.{StopsAt};
ghost use Rattle.wind_base.specs.Limits.{longest_chunk};

use crate::aside::aside_name;
use crate::input::{Input, InputPart};
use crate::record_folder::{Flush, Presence, RecordFolder};
use std::alloc::Global;
use std::fs::{OpenFile, OpenOptions};
use std::io::{BufRead, ErrorKind, Read, Write};
use std::rt::Files;
use std::{fs, io};
use wind_base::limits::CHUNK_BYTES;
use wind_outside::{Counted, Fetched, Folder, Put};

/// A stream that is read.
pub type HostInput<R> = Counted<R>;

/// The program's current directory, and the files below it.
pub type HostRecordFolder<R> = Counted<R>;

// Reads up to and including the next 0x0A, but at most 4,096 bytes.
fn read_part<R: BufRead>(alloc: Global, reader: &mut R) -> io::Result<Vec<u8>>
    ensures few { IfOk result (λ part. vec_len part ≤ longest_chunk) }
    ensures one_line { IfOk result (λ part. StopsAt part.items 10) }
{
    let mut part = Vec::new(alloc);
    let mut bytes = <&mut R as Read>::bytes(reader);
    for _ in 0..CHUNK_BYTES {
        let Some(byte) = bytes.next() else {
            return Ok(part);
        };
        let byte = byte?;
        part.push(byte)?;
        if byte == b'\n' {
            return Ok(part);
        }
    }
    Ok(part)
}

impl<R: BufRead + Drop> Input for Counted<R> {
    ghost use Rattle.std.specs.Prelude.{None};

    ghost left = { λ _. None };

    ghost faults = { λ i. i.faults };

    fn next_part(&mut self, alloc: Global) -> InputPart {
        match read_part(alloc, &mut self.handle) {
            Ok(bytes) if bytes.is_empty() => InputPart::End,
            Ok(bytes) => InputPart::Bytes(bytes),
            Err(error) if error.kind() == ErrorKind::OutOfMemory => InputPart::NoMemory,
            Err(_) => {
                self.count_fault();
                InputPart::Failed
            }
        }
    }
}

// The name of the file that is written beside the place of another.
fn beside(alloc: Global, name: &str) -> io::Result<String> {
    let mut path = name.to_string(alloc)?;
    path.push_str(".new")?;
    Ok(path)
}

// Writes a new file, and flushes it if that is asked for.
fn fill<F: Write + OpenFile>(file: &mut F, bytes: &[u8], flush: Flush) -> io::Result<()> {
    file.write_all(bytes)?;
    match flush {
        Flush::Now => file.sync_all(),
        Flush::Later => Ok(()),
    }
}

// Writes a file beside its place, and puts it there. A file that is beside the place already isn't
// touched, and then nothing is written. If writing fails, the new file is removed.
fn write_whole<R: Files>(
    alloc: Global,
    rt: &R,
    name: &str,
    bytes: &[u8],
    flush: Flush,
) -> io::Result<()> {
    let path = beside(alloc, name)?;
    let mut file = fs::File::create_new(rt, path.as_str())?;
    let written = fill(&mut file, bytes, flush);
    let placed = written.and_then(|()| fs::rename(rt, path.as_str(), name));
    if placed.is_err() {
        let _ = fs::remove_file(rt, path.as_str());
    }
    placed
}

// Puts `.old` after a file's name, if there is such a file.
fn move_file<R: Files>(alloc: Global, rt: &R, name: &str) -> io::Result<()> {
    let aside = aside_name(alloc, name)?;
    match fs::rename(rt, name, aside.as_str()) {
        Err(error) if error.kind() == ErrorKind::NotFound => Ok(()),
        moved => moved,
    }
}

// Adds bytes at the end of a file. If that fails, the file is cut back to its length.
fn write_more<R: Files>(rt: &R, name: &str, bytes: &[u8]) -> io::Result<()> {
    let mut file = OpenOptions::new().append(true).open(rt, name)?;
    let len = file.metadata()?.len();
    let written = file.write_all(bytes);
    if written.is_err() {
        let _ = file.set_len(len);
    }
    written
}

impl<R: Files + Drop> RecordFolder for Counted<R> {
    ghost use Rattle.std.specs.Prelude.{None};

    ghost files = { λ _. None };

    ghost faults = { λ f. f.faults };

    fn make(&mut self, name: &str) -> Put {
        match fs::create_dir(&self.handle, name) {
            Ok(()) => Put::Done,
            Err(error) if error.kind() == ErrorKind::AlreadyExists => Put::Done,
            Err(_) => {
                self.count_fault();
                Put::Failed
            }
        }
    }

    fn has(&mut self, name: &str) -> Presence {
        match fs::exists(&self.handle, name) {
            Ok(true) => Presence::There,
            Ok(false) => Presence::Absent,
            Err(error) if error.kind() == ErrorKind::NotADirectory => Presence::Absent,
            Err(_) => {
                self.count_fault();
                Presence::Failed
            }
        }
    }

    fn replace(&mut self, alloc: Global, name: &str, bytes: &[u8], flush: Flush) -> Put {
        if write_whole(alloc, &self.handle, name, bytes, flush).is_err() {
            self.count_fault();
            return Put::Failed;
        }
        Put::Done
    }

    fn append(&mut self, _alloc: Global, name: &str, bytes: &[u8]) -> Put {
        if bytes.is_empty() {
            return Put::Done;
        }
        if write_more(&self.handle, name, bytes).is_err() {
            self.count_fault();
            return Put::Failed;
        }
        Put::Done
    }

    fn set_aside(&mut self, alloc: Global, name: &str) -> Put {
        if move_file(alloc, &self.handle, name).is_err() {
            self.count_fault();
            return Put::Failed;
        }
        Put::Done
    }

    fn read(&mut self, alloc: Global, name: &str, limit: u32) -> Fetched {
        self.fetch(alloc, name, limit)
    }

    fn clear_beside(&mut self, alloc: Global, name: &str) -> Put {
        match beside(alloc, name) {
            Ok(path) => self.set_aside(alloc, &path),
            Err(_) => {
                self.count_fault();
                Put::Failed
            }
        }
    }
}
