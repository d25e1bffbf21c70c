//! The real outside: the files of a directory, and a standard stream. Contracts tell nothing of
//! their content. This is the trusted edge of the program.

ghost use Rattle.std.specs.Prelude.{◌≡◌, ◌≤◌, vec_len, IfOk, IfSome};
ghost use Rattle.wind_outside.specs.Host.{IsWhole, answer_of as answer_of_lem};

use crate::{Counted, Fetched, Folder, Put, Sink};
use std::alloc::Global;
use std::io::{ErrorKind, Print, Read};
use std::rt::Files;
use std::{fs, io};

/// The program's current directory, and the files below it.
pub type HostFolder<R> = Counted<R>;

/// A standard stream.
pub type HostSink<P> = Counted<P>;

// All that is left of a file, or None if that is longer than the limit. Memory is taken as the
// bytes are read, and at most one byte above the limit is read.
fn read_within<F: Read + Drop>(alloc: Global, file: F, limit: u32) -> io::Result<Option<Vec<u8>>>
    ensures within { IfOk result (λ found. IfSome found (λ bytes. vec_len bytes ≤ limit)) }
    ensures whole { IfOk result (λ found. IfSome (F.remaining file) (λ left. IsWhole limit left found)) }
{
    let limit = limit as usize;
    let mut bytes = Vec::new(alloc);
    file.take(limit as u64 + 1).read_to_end(&mut bytes)?;
    if bytes.len() > limit {
        return Ok(None);
    }
    Ok(Some(bytes))
}

// The folder's result for a read of a real file.
fn answer_of(read: io::Result<Option<Vec<u8>>>) -> Fetched
    ensures { result ≡ answer_of_lem read }
{
    match read {
        Ok(Some(bytes)) => Fetched::Found(bytes),
        Ok(None) => Fetched::TooLong,
        Err(error) => match error.kind() {
            ErrorKind::NotFound | ErrorKind::NotADirectory => Fetched::Missing,
            ErrorKind::OutOfMemory => Fetched::NoMemory,
            _ => Fetched::Failed,
        },
    }
}

impl<R: Files + Drop> Folder for Counted<R> {
    ghost use Rattle.std.specs.Prelude.{None};

    ghost files = { λ _. None };

    ghost requests = { λ _. None };

    ghost faults = { λ f. f.faults };

    fn fetch(&mut self, alloc: Global, name: &str, limit: u32) -> Fetched {
        let read = match fs::open(&self.handle, name) {
            Ok(file) => read_within(alloc, file, limit),
            Err(error) => Err(error),
        };
        let answer = answer_of(read);
        if let Fetched::Failed = answer {
            self.count_fault();
        }
        answer
    }
}

impl<P: Print + Drop> Sink for Counted<P> {
    ghost use Rattle.std.specs.Prelude.{None};

    ghost bytes = { λ _. None };

    ghost pieces = { λ _. None };

    ghost faults = { λ s. s.faults };

    fn put(&mut self, piece: &[u8]) -> Put {
        if self.handle.write_all(piece).is_err() {
            self.count_fault();
            return Put::Failed;
        }
        Put::Done
    }
}

#[cfg(test)]
mod tests {
    use super::*;
    use std::alloc::Allocator;
    use std::env;
    use std::fmt::Display;
    use std::fs::{Metadata, OpenOptions};
    use std::io::Write;
    use std::test::Fail;

    // The path of a file in the directory for temporary files.
    fn temporary(rt: &HostRuntime, name: &str) -> Result<String, Fail> {
        let directory = env::temp_dir(rt)?;
        let directory = directory.as_path().to_str().ok_or("no text")?;
        Ok(format!(in rt.alloc(); "{directory}/{name}")?)
    }

    // The results for a real directory: a file at its limit and one above it, a missing file, and a
    // directory.
    #[test]
    fn fetches_real_files(rt: HostRuntime) -> Result<(), Fail> {
        let alloc = rt.alloc();
        let directory = temporary(&rt, "")?;
        let file = temporary(&rt, "windplay_fetches_real_files")?;
        fs::write(&rt, file.as_str(), b"hello".as_slice())?;
        let mut folder = HostFolder::new(rt);
        match folder.fetch(alloc, &file, 5) {
            Fetched::Found(bytes) => assert_eq!(rt; bytes.as_slice(), b"hello".as_slice()),
            _ => assert!(rt; false, "not found"),
        }
        assert!(rt; matches!(folder.fetch(alloc, &file, 4), Fetched::TooLong));
        assert!(rt; matches!(folder.fetch(alloc, &directory, 5), Fetched::Failed));
        fs::remove_file(&rt, file.as_str())?;
        assert!(rt; matches!(folder.fetch(alloc, &file, 5), Fetched::Missing));
        Ok(())
    }

    // Files that exist and can't be opened.
    #[derive(Clone, Copy, Drop)]
    struct Locked<R: Files + Copy> {
        rt: R,
    }

    fn denied<T>() -> io::Result<T> {
        Err(io::Error::from(ErrorKind::PermissionDenied))
    }

    impl<R: Files + Copy> Files for Locked<R> {
        type File = R::File;

        type Dir = R::Dir;

        fn open_file(&self, _how: &OpenOptions, _path: &str) -> io::Result<R::File> {
            denied()
        }

        fn open_dir(&self, _path: &str) -> io::Result<R::Dir> {
            denied()
        }

        fn metadata(&self, path: &str) -> io::Result<Metadata> {
            self.rt.metadata(path)
        }

        fn symlink_metadata(&self, path: &str) -> io::Result<Metadata> {
            self.rt.symlink_metadata(path)
        }

        fn copy(&self, _from: &str, _to: &str) -> io::Result<u64> {
            denied()
        }

        fn rename(&self, _from: &str, _to: &str) -> io::Result<()> {
            denied()
        }

        fn remove_file(&self, _path: &str) -> io::Result<()> {
            denied()
        }

        fn create_dir(&self, _path: &str) -> io::Result<()> {
            denied()
        }

        fn remove_dir(&self, _path: &str) -> io::Result<()> {
            denied()
        }

        fn remove_dir_all<B: Allocator>(&self, _alloc: B, _path: &str) -> io::Result<()> {
            denied()
        }
    }

    // A file that can't be opened is a fault, not a missing file.
    #[test]
    fn fails_at_files_that_may_not_be_read(rt: HostRuntime) -> Result<(), Fail> {
        let mut folder = HostFolder::new(Locked { rt });
        assert!(rt; matches!(folder.fetch(rt.alloc(), "console", 5), Fetched::Failed));
        assert_eq!(rt; folder.faults, 1);
        Ok(())
    }

    // A stream that is stored in a file.
    #[derive(Drop)]
    struct Kept<'a> {
        rt: HostRuntime,
        name: &'a str,
    }

    impl Print for Kept<'_> {
        fn print<D: Display + Drop>(&self, _value: D) -> io::Result<()> {
            Ok(())
        }

        fn println<D: Display + Drop>(&self, _value: D) -> io::Result<()> {
            Ok(())
        }

        fn write_all(&self, bytes: &[u8]) -> io::Result<()> {
            let mut file = OpenOptions::new()
                .append(true)
                .create(true)
                .open(&self.rt, self.name)?;
            file.write_all(bytes)
        }
    }

    // The stream's bytes are all pieces in order. A stream that can't be written is a fault.
    #[test]
    fn puts_pieces_into_a_real_stream(rt: HostRuntime) -> Result<(), Fail> {
        let file = temporary(&rt, "windplay_puts_pieces")?;
        fs::write(&rt, file.as_str(), b"".as_slice())?;
        let mut sink = HostSink::new(Kept { rt, name: &file });
        assert_eq!(rt; sink.put(b"-> "), Put::Done);
        assert_eq!(rt; sink.put(b"i\n"), Put::Done);
        assert_eq!(rt;
            fs::read(&rt, file.as_str())?.as_slice(),
            b"-> i\n".as_slice()
        );
        fs::remove_file(&rt, file.as_str())?;
        let directory = temporary(&rt, "")?;
        let mut sink = HostSink::new(Kept {
            rt,
            name: &directory,
        });
        assert_eq!(rt; sink.put(b"-> "), Put::Failed);
        assert_eq!(rt; sink.faults, 1);
        Ok(())
    }
}
