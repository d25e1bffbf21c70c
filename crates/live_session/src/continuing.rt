//! What a session takes over from the record from which it goes on.

ghost use Rattle.std.specs.Prelude.{◌≡◌, ◌≢◌, ◌↔◌, ◌≤◌, ◌++◌, ◌∷◌, ℕ, [], true, Err, IsTrue, IfOk, IfErr, IfSome, IfNone, length};
ghost use Rattle.std.specs.Fmt.{decimal as decimal_lem};
ghost use Rattle.wind_base.specs.Limits.{longest_text_file, most_steps};
ghost use Rattle.wind_outside.specs.Counts.{Rose};
ghost use Rattle.live_session.specs.Continuing.{Has, IsReasonFor, IsTakenFrom, TakesOver, file_path, nothing as nothing_lem, unsaved_for as unsaved_for_lem};
ghost use Rattle.live_session.specs.Cutting.{IsTextOf};
ghost use Rattle.live_session.specs.Saving.{command_text as command_text_lem};
ghost use Rattle.live_session.specs.Session.{IsRefusal, first_steps as first_steps_lem, status_unless};
ghost use Rattle.live_session.specs.Words.{command_state, kept_of, IsTarget};
ghost use Rattle.live_session.specs.declared.reading.NotContinued.TheVariants as reasons;
ghost use Rattle.live_session.specs.declared.status.Status.TheVariants as status;

use crate::command::Command;
use crate::messages::tell_not_continued;
use crate::reading::{NotContinued, RecordFile, Texts, after_text, cut};
use crate::record_folder::RecordFolder;
use crate::saving::{Target, Unsaved, command_front};
use itoa::Buffer;
use std::alloc::Global;
use wind_base::decimal;
use wind_base::limits::{STEPS, TEXT_FILE_BYTES};
use wind_outside::{Fetched, Put, Sink};

/// What a session takes over: the texts of the record, and the most steps of their replay.
#[derive(Drop)]
pub(crate) struct Taken {
    pub(crate) texts: Texts,
    pub(crate) limit: u64,
}

// The path of a file of the record.
fn path_of<'a>(target: Target<'a>, file: RecordFile) -> &'a str
    requires { IsTarget target }
    ensures { result.now ≡ file_path target.entry.command.now.record.now file }
{
    let paths = target.paths;
    match file {
        RecordFile::Console => &paths.console,
        RecordFile::Ticks => &paths.ticks,
        RecordFile::Command => &paths.command,
    }
}

// The bytes of a file of the record.
fn read_file<D: RecordFolder>(
    alloc: Global,
    target: Target,
    records: &mut D,
    file: RecordFile,
) -> Result<Vec<u8>, NotContinued>
    requires { IsTarget target }
    ensures files { D.files records.new ≡ D.files records.old }
    ensures ok { IfOk result (λ bytes. Has (command_state target.entry.command.now) (D.files records.old) file bytes.items) }
    ensures short { IfOk result (λ bytes. length bytes.items ≤ longest_text_file) }
    ensures reason { IfErr result (IsReasonFor (command_state target.entry.command.now) (D.files records.old)) }
    ensures failed { result ≡ Err reasons.Failed → Rose (D.faults records.old) (D.faults records.new) }
    ensures never_falls { D.faults records.old ≤ D.faults records.new }
{
    match records.read(alloc, path_of(target, file), TEXT_FILE_BYTES) {
        Fetched::Found(bytes) => Ok(bytes),
        Fetched::Missing => Err(NotContinued::Foreign(file)),
        Fetched::TooLong => Err(NotContinued::Foreign(file)),
        Fetched::Failed => Err(NotContinued::Failed),
        Fetched::NoMemory => Err(NotContinued::NoMemory),
    }
}

// Whether these are the digits of a limit, as a record has them.
fn is_spelled(limit: u64, digits: &[u8]) -> bool
    ensures { IsTrue result ↔ (decimal_lem limit ≡ digits.now) }
{
    Buffer::new().format(limit).as_bytes() == digits
}

// The limit that this text spells, with the end of its line, as a record has it.
fn limit_of(text: &[u8]) -> Option<u64>
    ensures some { IfSome result (λ limit. (text.now ≡ decimal_lem limit ++ 10 ∷ []) × (limit ≤ most_steps)) }
    ensures none { IfNone result ((limit : ℕ) → limit ≤ most_steps → text.now ≢ decimal_lem limit ++ 10 ∷ []) }
{
    let Some((last, digits)) = text.split_last() else {
        return None;
    };
    if *last != b'\n' {
        return None;
    }
    let Some(limit) = decimal(digits, STEPS) else {
        return None;
    };
    if is_spelled(limit, digits) {
        Some(limit)
    } else {
        None
    }
}

// The limit in these words, if they are those of a record of this command.
fn limit_in(alloc: Global, command: &Command, words: &[u8]) -> Result<u64, NotContinued>
    ensures ok { IfOk result (λ limit. (words.now ≡ command_text_lem (command_state command.now) limit) × (limit ≤ most_steps)) }
    ensures err { IfErr result (λ reason. reason ≢ reasons.NoMemory
        → (limit : ℕ) → limit ≤ most_steps → words.now ≢ command_text_lem (command_state command.now) limit) }
    ensures known { result ≢ Err reasons.Failed }
{
    let foreign = NotContinued::Foreign(RecordFile::Command);
    let front = command_front(alloc, command)?;
    let Some(text) = after_text(words, &front) else {
        return Err(foreign);
    };
    match limit_of(text) {
        Some(limit) => Ok(limit),
        None => Err(foreign),
    }
}

// Clears what a write that was cut off has left beside the files of a record.
fn clear_beside<D: RecordFolder>(
    alloc: Global,
    target: Target,
    records: &mut D,
) -> Result<(), NotContinued>
    ensures files { D.files records.new ≡ D.files records.old }
    ensures failed { result ≡ Err reasons.Failed → Rose (D.faults records.old) (D.faults records.new) }
    ensures refused { IfErr result (λ reason. reason ≡ reasons.Failed) }
    ensures never_falls { D.faults records.old ≤ D.faults records.new }
{
    let paths = target.paths;
    if records.clear_beside(alloc, &paths.console) == Put::Failed
        || records.clear_beside(alloc, &paths.ticks) == Put::Failed
        || records.clear_beside(alloc, &paths.command) == Put::Failed
    {
        return Err(NotContinued::Failed);
    }
    Ok(())
}

// Takes over the record that is there. What a crash has torn is left out: bytes after the last line,
// a last line whose bytes aren't there, and bytes that no line brings.
fn take_over<D: RecordFolder>(
    alloc: Global,
    target: Target,
    records: &mut D,
) -> Result<Taken, NotContinued>
    requires { IsTarget target }
    ensures files { D.files records.new ≡ D.files records.old }
    ensures takes { IfOk result (λ taken. IfSome (D.files records.old)
        (IsTakenFrom (command_state target.entry.command.now) (kept_of taken))) }
    ensures texts { IfOk result (λ t. IsTextOf t.texts.console.items t.texts.ticks.items t.texts.lines t.texts.last) }
    ensures short { IfOk result (λ t. (length t.texts.console.items ≤ longest_text_file)
        × (length t.texts.ticks.items ≤ longest_text_file)) }
    ensures few { IfOk result (λ taken. taken.limit ≤ most_steps) }
    ensures reason { IfErr result (IsReasonFor (command_state target.entry.command.now) (D.files records.old)) }
    ensures failed { result ≡ Err reasons.Failed → Rose (D.faults records.old) (D.faults records.new) }
    ensures never_falls { D.faults records.old ≤ D.faults records.new }
{
    let words = read_file(alloc, target, records, RecordFile::Command)?;
    let limit = limit_in(alloc, target.command, &words)?;
    let console = read_file(alloc, target, records, RecordFile::Console)?;
    let ticks = read_file(alloc, target, records, RecordFile::Ticks)?;
    let texts = cut(alloc, &console, &ticks)?;
    clear_beside(alloc, target, records)?;
    Ok(Taken { texts, limit })
}

// What a new session takes over.
fn nothing(alloc: Global) -> Taken
    ensures kept { kept_of result ≡ nothing_lem }
    ensures texts { IsTextOf result.texts.console.items result.texts.ticks.items result.texts.lines result.texts.last }
{
    let console = Vec::new(alloc);
    let ticks = Vec::new(alloc);
    let texts = Texts {
        console,
        ticks,
        lines: 0,
        last: 0,
    };
    Taken { texts, limit: 0 }
}

// What becomes of a session that doesn't go on.
fn unsaved_for(reason: NotContinued) -> Unsaved
    ensures { result ≡ unsaved_for_lem reason }
{
    match reason {
        NotContinued::Foreign(_) | NotContinued::Failed => Unsaved::Failed,
        NotContinued::NoMemory => Unsaved::NoMemory,
    }
}

/// What the session of a command takes over: the record that is there, or nothing. Says why not.
pub(crate) fn taken_of<E: Sink, D: RecordFolder>(
    alloc: Global,
    target: Target,
    err: &mut E,
    records: &mut D,
) -> Result<Taken, Unsaved>
    requires target { IsTarget target }
    requires named { target.command.now.continues ≡ true → target.command.now.record.now ≢ [] }
    ensures files { D.files records.new ≡ D.files records.old }
    ensures takes { IfOk result (λ taken. TakesOver target.entry.command.now.continues
        (command_state target.entry.command.now) (kept_of taken) (D.files records.old)) }
    ensures texts { IfOk result (λ t. IsTextOf t.texts.console.items t.texts.ticks.items t.texts.lines t.texts.last) }
    ensures short { IfOk result (λ t. (length t.texts.console.items ≤ longest_text_file)
        × (length t.texts.ticks.items ≤ longest_text_file)) }
    ensures few { IfOk result (λ taken. taken.limit ≤ most_steps) }
    ensures refused { IfErr result (λ failure. IsRefusal (status_unless failure status.Ended)
        (command_state target.entry.command.now) (D.files records.old)
        (Rose (D.faults records.old) (D.faults records.new))) }
    ensures never_falls { D.faults records.old ≤ D.faults records.new }
{
    if !target.command.continues {
        return Ok(nothing(alloc));
    }
    match take_over(alloc, target, records) {
        Ok(taken) => Ok(taken),
        Err(reason) => {
            tell_not_continued(err, target.command.record.as_bytes(), reason);
            Err(unsaved_for(reason))
        }
    }
}

/// The most steps of a session's first run, if the replay of what it takes over has this limit.
pub(crate) fn first_steps(command: &Command, limit: u64) -> u64
    ensures { result ≡ first_steps_lem (command_state command.now) limit }
{
    if command.continues {
        limit
    } else {
        command.quiet_after
    }
}
