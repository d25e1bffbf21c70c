//! The part of the console file that has not arrived yet.

ghost use Rattle.std.specs.Prelude.{◌≡◌, ◌<◌, ◌≤◌, ◌-◌, ◌++◌, IfSome, OnOk, OnErr, take, drop, length};
ghost use Rattle.wind_base.specs.Limits.{longest_chunk};
ghost use Rattle.wind_machine.specs.Feed.{is_end as is_end_lem, first_end as first_end_lem, chunk, after_chunk, supplied, brought as brought_by};

use std::marker::Model;
use wind_base::NoMemory;
use wind_base::limits::CHUNK_BYTES;

/// The bytes of the console file that have not arrived yet.
#[derive(Drop)]
pub struct Feed {
    file: Vec<u8>,
    next: usize,
}

impl Model for Feed {
    ghost use Rattle.std.specs.Prelude.{ℕ, List, ◌≤◌, drop, length};

    ghost Value = { List ℕ };

    ghost view = { λ f. drop f.next f.file.items };

    ghost invariant = { λ f. f.next ≤ length f.file.items };
}

impl Feed {
    /// All bytes of a console file.
    pub fn new(file: Vec<u8>) -> Feed
        ensures { result ≡ file.items }
    {
        Feed { file, next: 0 }
    }

    /// The bytes that are left.
    pub fn left(&self) -> &[u8]
        ensures { result.now ≡ self.now }
    {
        &self.file[self.next..]
    }

    /// Takes the next `n` bytes.
    pub fn advance(&mut self, n: usize)
        requires { n ≤ length self.old }
        ensures { self.new ≡ drop n self.old }
    {
        self.next += n;
    }

    /// Adds bytes after those that are left. If memory runs out, nothing changes.
    pub fn add(&mut self, bytes: &[u8]) -> Result<(), NoMemory>
        ensures ok { OnOk result (self.new ≡ self.old ++ bytes.now) }
        ensures err { OnErr result (self.new ≡ self.old) }
    {
        Ok(self.file.extend_from_slice(bytes)?)
    }

    /// Removes the last `n` bytes.
    pub fn take_back(&mut self, n: usize)
        requires { n ≤ length self.old }
        ensures { self.new ≡ take (length self.old - n) self.old }
    {
        let len = self.file.len() - n;
        self.file.truncate(len);
    }
}

fn is_end(byte: u8) -> bool
    ensures { result ≡ is_end_lem byte }
{
    byte == b'\n' || byte == b'\r'
}

// Where the first end of a line is among the bytes that may arrive at once.
fn first_end(left: &[u8]) -> Option<usize>
    ensures exact { result ≡ first_end_lem left.now }
    ensures inside { IfSome result (λ k. k < length left.now) }
    ensures short { IfSome result (λ k. k < longest_chunk) }
{
    left.iter().take(CHUNK_BYTES).position(|byte| is_end(*byte))
}

/// How many bytes of the file the next chunk takes, and whether a newline is supplied after them.
pub fn chunk_len(left: &[u8]) -> (usize, bool)
    ensures chunk { chunk left.now ≡ take result.0 left.now ++ supplied result.1 }
    ensures after { after_chunk left.now ≡ drop result.0 left.now }
    ensures inside { result.0 ≤ length left.now }
    ensures short { result.0 ≤ longest_chunk }
{
    match first_end(left) {
        Some(k) => (k + 1, false),
        None if left.len() > CHUNK_BYTES => (CHUNK_BYTES, false),
        None => (left.len(), true),
    }
}

/// How many bytes an event of the tick file takes: `n`, at most 4096, and no more than are left.
pub fn brought(left: &[u8], n: u32) -> usize
    ensures taken { take result left.now ≡ take (brought_by n) left.now }
    ensures after { drop result left.now ≡ drop (brought_by n) left.now }
    ensures inside { result ≤ length left.now }
    ensures short { result ≤ longest_chunk }
{
    (n as usize).min(CHUNK_BYTES).min(left.len())
}
