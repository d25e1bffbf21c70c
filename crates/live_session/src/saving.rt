//! The files of a record.

ghost use Rattle.std.specs.Prelude.{◌≡◌, ◌⊎◌, ◌≤◌, ◌++◌, ◌∷◌, [], ℕ, Err, IfOk, OnOk, OnErr, string_bytes};
ghost use Rattle.std.specs.Fmt.{decimal};
ghost use Rattle.wind_base.specs.Limits.{most_steps};
ghost use Rattle.wind_outside.specs.Counts.{Rose};
ghost use Rattle.live_session.specs.Folder.{Lengthened, Replaced};
ghost use Rattle.live_session.specs.Saving.{command_text as command_text_lem, replay_limit as replay_limit_lem, profile_digit as profile_digit_lem, board_digit as board_digit_lem, command_path, ticks_path, word_line, ArePaths, IsAdded, IsFree, IsTaken, IsSaved, IsSavedInPart, KeepsOthers};
ghost use Rattle.live_session.specs.Words.{command_state, IsTarget};
ghost use Rattle.live_session.specs.declared.saving.Claim.TheVariants as claims;
ghost use Rattle.live_session.specs.declared.saving.Unsaved.TheVariants as unsaved;

use crate::command::Command;
use crate::record::Record;
use crate::record_folder::{Flush, Presence, RecordFolder};
use itoa::Buffer;
use std::alloc::{AllocError, Global};
use wind_base::limits::STEPS;
use wind_base::{BoardKind, Profile};
use wind_outside::Put;
use wind_session::path_in;

/// The paths of a record's files.
#[derive(Drop)]
pub(crate) struct Paths {
    pub(crate) console: String,
    pub(crate) ticks: String,
    pub(crate) command: String,
}

/// For which command a record is written, and where. If the command asks for none, the paths are
/// unused.
#[derive(Clone, Copy)]
pub(crate) struct Target<'a> {
    pub(crate) command: &'a Command<'a>,
    pub(crate) paths: &'a Paths,
}

/// The paths of the files of the record in this folder.
pub(crate) fn paths_of(alloc: Global, folder: &str) -> Result<Paths, AllocError>
    ensures { IfOk result (λ paths. ArePaths folder.now (string_bytes paths.console) (string_bytes paths.ticks)
        (string_bytes paths.command)) }
{
    Ok(Paths {
        console: path_in(alloc, folder, "console.txt")?,
        ticks: path_in(alloc, folder, "ticks.txt")?,
        command: path_in(alloc, folder, "command.txt")?,
    })
}

/// Whether a record may be written.
#[derive(Clone, Copy, Debug, PartialEq, Eq)]
pub(crate) enum Claim {
    /// None of its files is there.
    Free,
    /// One of its files is there.
    Taken,
    /// Asking failed.
    Failed,
}

/// Whether one of a record's files is there.
pub(crate) fn find_claim<D: RecordFolder>(records: &mut D, target: Target) -> Claim
    requires { IsTarget target }
    ensures files { D.files records.new ≡ D.files records.old }
    ensures free { result ≡ claims.Free → IsFree target.entry.command.now.record.now (D.files records.old) }
    ensures taken { result ≡ claims.Taken → IsTaken target.entry.command.now.record.now (D.files records.old) }
    ensures failed { result ≡ claims.Failed → Rose (D.faults records.old) (D.faults records.new) }
    ensures never_falls { D.faults records.old ≤ D.faults records.new }
{
    let paths = target.paths;
    match records.has(&paths.console) {
        Presence::Absent => {}
        Presence::There => return Claim::Taken,
        Presence::Failed => return Claim::Failed,
    }
    match records.has(&paths.ticks) {
        Presence::Absent => {}
        Presence::There => return Claim::Taken,
        Presence::Failed => return Claim::Failed,
    }
    match records.has(&paths.command) {
        Presence::Absent => Claim::Free,
        Presence::There => Claim::Taken,
        Presence::Failed => Claim::Failed,
    }
}

// Adds a word of the command: an option, its value, and the end of the line.
fn add_word(text: &mut Vec<u8>, option: &str, value: &[u8]) -> Result<(), AllocError>
    ensures { OnOk result (text.new.items ≡ text.old.items ++ word_line option.now value.now) }
{
    text.extend_from_slice(option.as_bytes())?;
    text.extend_from_slice(value)?;
    text.extend_from_slice(b"\n")
}

// The number of a rule of inheritance.
fn profile_digit(profile: Profile) -> &'static [u8]
    ensures { result.now ≡ profile_digit_lem profile }
{
    match profile {
        Profile::One => b"1",
        Profile::Two => b"2",
    }
}

// The number of a kind of board.
fn board_digit(board: BoardKind) -> &'static [u8]
    ensures { result.now ≡ board_digit_lem board }
{
    match board {
        BoardKind::One => b"1",
        BoardKind::Two => b"2",
    }
}

/// The words with which windplay replays the record, one in each line, up to the digits of the limit.
pub(crate) fn command_front(alloc: Global, command: &Command) -> Result<Vec<u8>, AllocError>
    ensures { IfOk result (λ text. (limit : ℕ) → text.items ++ (decimal limit ++ 10 ∷ [])
        ≡ command_text_lem (command_state command.now) limit) }
{
    let mut text = Vec::new(alloc);
    add_word(&mut text, "--console=", b"console.txt")?;
    add_word(&mut text, "--ticks=", b"ticks.txt")?;
    add_word(&mut text, "--modules=", b"modules")?;
    add_word(&mut text, "--profile=", profile_digit(command.profile))?;
    add_word(&mut text, "--board=", board_digit(command.board))?;
    text.extend_from_slice(b"--limit=")?;
    Ok(text)
}

// The words with which windplay replays the record, one in each line.
fn command_text(alloc: Global, command: &Command, limit: u64) -> Result<Vec<u8>, AllocError>
    ensures { IfOk result (λ text. text.items ≡ command_text_lem (command_state command.now) limit) }
{
    let mut text = command_front(alloc, command)?;
    text.extend_from_slice(Buffer::new().format(limit).as_bytes())?;
    text.extend_from_slice(b"\n")?;
    Ok(text)
}

/// The limit with which the replay of a session ends as it does now: the steps made, and one more
/// if the run is over, so that the replay finds no further step.
pub(crate) fn replay_limit(steps: u64, is_over: bool) -> u64
    requires { steps ≤ most_steps }
    ensures value { result ≡ replay_limit_lem steps is_over }
    ensures within { result ≤ most_steps }
{
    if is_over && steps < STEPS {
        steps + 1
    } else {
        steps
    }
}

/// Why a record was not written.
#[derive(Clone, Copy, Debug, PartialEq, Eq)]
pub(crate) enum Unsaved {
    /// Writing failed.
    Failed,
    /// Host memory ran out.
    NoMemory,
}

impl From<AllocError> for Unsaved {
    ghost use Rattle.std.specs.Prelude.{◌≡◌};
    ghost use Rattle.live_session.specs.declared.saving.Unsaved.TheVariants as unsaved;

    ghost from_gives = { λ _ e. e ≡ unsaved.NoMemory };

    fn from(_error: AllocError) -> Unsaved {
        Unsaved::NoMemory
    }
}

// Writes one file.
fn write<D: RecordFolder>(
    alloc: Global,
    records: &mut D,
    path: &str,
    bytes: &[u8],
    flush: Flush,
) -> Result<(), Unsaved>
    ensures ok { OnOk result (Replaced (D.files records.old) (D.files records.new) path.now bytes.now) }
    ensures err { OnErr result (D.files records.new ≡ D.files records.old) }
    ensures failed { result ≡ Err unsaved.Failed → Rose (D.faults records.old) (D.faults records.new) }
    ensures never_falls { D.faults records.old ≤ D.faults records.new }
{
    match records.replace(alloc, path, bytes, flush) {
        Put::Done => Ok(()),
        Put::Failed => Err(Unsaved::Failed),
    }
}

// Adds bytes at the end of one file.
fn lengthen<D: RecordFolder>(
    alloc: Global,
    records: &mut D,
    path: &str,
    bytes: &[u8],
) -> Result<(), Unsaved>
    ensures ok { OnOk result (Lengthened (D.files records.old) (D.files records.new) path.now bytes.now) }
    ensures err { OnErr result (D.files records.new ≡ D.files records.old) }
    ensures failed { result ≡ Err unsaved.Failed → Rose (D.faults records.old) (D.faults records.new) }
    ensures never_falls { D.faults records.old ≤ D.faults records.new }
{
    match records.append(alloc, path, bytes) {
        Put::Done => Ok(()),
        Put::Failed => Err(Unsaved::Failed),
    }
}

/// Adds an event to the files of a record: its line to the tick file, and then its bytes to the
/// console file. The line comes first: a tick file without a line that brings bytes would let a
/// replay read the console file on demand.
pub(crate) fn add_to_files<D: RecordFolder>(
    alloc: Global,
    records: &mut D,
    target: Target,
    line: &[u8],
    bytes: &[u8],
) -> Result<(), Unsaved>
    requires { IsTarget target }
    ensures ok { OnOk result (IsAdded target.entry.command.now.record.now line.now bytes.now
        (D.files records.old) (D.files records.new)) }
    ensures err { OnErr result ((D.files records.new ≡ D.files records.old)
        ⊎ Lengthened (D.files records.old) (D.files records.new) (ticks_path target.entry.command.now.record.now) line.now) }
    ensures others { KeepsOthers target.entry.command.now.record.now (D.files records.old) (D.files records.new) }
    ensures failed { result ≡ Err unsaved.Failed → Rose (D.faults records.old) (D.faults records.new) }
    ensures never_falls { D.faults records.old ≤ D.faults records.new }
{
    lengthen(alloc, records, &target.paths.ticks, line)?;
    lengthen(alloc, records, &target.paths.console, bytes)
}

/// Writes the words with which windplay replays a record up to this limit.
pub(crate) fn write_words<D: RecordFolder>(
    alloc: Global,
    records: &mut D,
    target: Target,
    limit: u64,
) -> Result<(), Unsaved>
    requires { IsTarget target }
    ensures ok { OnOk result (Replaced (D.files records.old) (D.files records.new)
        (command_path target.entry.command.now.record.now)
        (command_text_lem (command_state target.entry.command.now) limit)) }
    ensures err { OnErr result (D.files records.new ≡ D.files records.old) }
    ensures others { KeepsOthers target.entry.command.now.record.now (D.files records.old) (D.files records.new) }
    ensures failed { result ≡ Err unsaved.Failed → Rose (D.faults records.old) (D.faults records.new) }
    ensures never_falls { D.faults records.old ≤ D.faults records.new }
{
    let words = command_text(alloc, target.command, limit)?;
    write(alloc, records, &target.paths.command, &words, Flush::Later)
}

/// Writes the files of a record and flushes each: the console file, the tick file, and last the
/// words with which windplay replays it.
pub(crate) fn save<D: RecordFolder>(
    alloc: Global,
    records: &mut D,
    target: Target,
    record: &Record,
    limit: u64,
) -> Result<(), Unsaved>
    requires { IsTarget target }
    ensures ok { OnOk result (IsSaved (command_state target.entry.command.now) record.now.console.bytes
        record.now.ticks.bytes limit (D.files records.old) (D.files records.new)) }
    ensures parts { IsSavedInPart (command_state target.entry.command.now) record.now.console.bytes
        record.now.ticks.bytes limit (D.files records.old) (D.files records.new) }
    ensures others { KeepsOthers target.entry.command.now.record.now (D.files records.old) (D.files records.new) }
    ensures failed { result ≡ Err unsaved.Failed → Rose (D.faults records.old) (D.faults records.new) }
    ensures never_falls { D.faults records.old ≤ D.faults records.new }
{
    let words = command_text(alloc, target.command, limit)?;
    let paths = target.paths;
    let (console, ticks) = (record.console.bytes(), record.ticks.bytes());
    write(alloc, records, &paths.console, console, Flush::Now)?;
    write(alloc, records, &paths.ticks, ticks, Flush::Now)?;
    write(alloc, records, &paths.command, &words, Flush::Now)
}
