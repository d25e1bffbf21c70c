//! A call of the program: its arguments ask for a module or a listing.

ghost use Rattle.std.specs.Prelude.{◌≡◌, ◌↔◌, ◌≤◌, [], ◌∷◌, map, None, IfSome, IfOk, IfErr, bytes_eq, codes};
ghost use Rattle.wind_outside.specs.{Counts.Rose, Requests.GrowsBy};
ghost use Rattle.wind_outside.specs.declared.folder.FetchOutcome.TheVariants as outcomes;
ghost use Rattle.ppc_asm.specs.declared.status.AsmStatus.TheVariants as ends;
ghost use Rattle.ppc_asm.specs.Command.{Assembles, Lists, Unread, HasBytes, AssemblesFile, ListsFile, to_assemble, to_list, is_file as is_file_lem};
ghost use Rattle.ppc_asm.specs.Fetches.{Fetches, FetchesOnce, IsAfterFile, file_of, file_request};

use crate::assembling::assemble;
use crate::listing::{LINE_ROOM, list};
use crate::report::tell;
use crate::status::AsmStatus;
use asm_lines::AsmErr;
use elf_build::build;
use elf_read::check;
use std::alloc::Global;
use wind_base::OutBuf;
use wind_base::limits::TEXT_FILE_BYTES;
use wind_outside::{Fetched, Folder, Put, Sink};

fn is_file(word: &str) -> bool
    ensures { result ≡ is_file_lem word.now }
{
    !word.as_bytes().starts_with(b"-".as_slice())
}

fn is_list(word: &str) -> bool
    ensures { result ≡ bytes_eq word.now (codes "--list") }
{
    word.as_bytes() == b"--list".as_slice()
}

fn assemble_to<O: Sink>(alloc: Global, text: &[u8], out: &mut O) -> AsmStatus
    ensures assembles { Assembles (O.bytes out.old) (O.bytes out.new)
        (Rose (O.faults out.old) (O.faults out.new)) text.now result }
    ensures after { IsAfterFile result }
    ensures faults { O.faults out.old ≤ O.faults out.new }
{
    let module = match assemble(alloc, text) {
        Ok(module) => module,
        Err(AsmErr::Bad(line, cause)) => return AsmStatus::BadSource(line, cause),
        Err(AsmErr::NoMemory) => return AsmStatus::NoMemory,
    };
    let Ok(file) = build(alloc, &module) else {
        return AsmStatus::NoMemory;
    };
    match out.put(&file) {
        Put::Done => AsmStatus::Done,
        Put::Failed => AsmStatus::WriteFault,
    }
}

#[tactic(auto, using(crate::proofs::Ended::listed, crate::proofs::Ended::listed_part))]
fn list_to<O: Sink>(alloc: Global, bytes: &[u8], out: &mut O) -> AsmStatus
    ensures lists { Lists (O.bytes out.old) (O.bytes out.new)
        (Rose (O.faults out.old) (O.faults out.new)) bytes.now result }
    ensures after { IsAfterFile result }
    ensures faults { O.faults out.old ≤ O.faults out.new }
{
    match check(bytes) {
        Ok(()) => {}
        Err(error) => return AsmStatus::BadObject(error),
    }
    let Ok(mut line) = OutBuf::reserved(alloc, LINE_ROOM) else {
        return AsmStatus::NoMemory;
    };
    match list(out, &mut line, bytes) {
        Put::Done => AsmStatus::Done,
        Put::Failed => AsmStatus::WriteFault,
    }
}

// The bytes of a file, or the status with which the call ends without them.
fn bytes_of<F: Folder>(alloc: Global, file: &str, folder: &mut F) -> Result<Vec<u8>, AsmStatus>
    ensures found { IfOk result (λ bytes. HasBytes (F.files folder.old) file.now bytes.items) }
    ensures unread { IfErr result (Unread (F.files folder.old) file.now
        (Rose (F.faults folder.old) (F.faults folder.new))) }
    ensures fetched { IfOk result (λ bytes. GrowsBy (F.requests folder.old) (F.requests folder.new)
        (file_request file.now outcomes.Found ∷ [])) }
    ensures unfound { IfErr result (λ s. FetchesOnce file.now s (F.requests folder.old) (F.requests folder.new)) }
    ensures files { F.files folder.new ≡ F.files folder.old }
    ensures faults { F.faults folder.old ≤ F.faults folder.new }
{
    match folder.fetch(alloc, file, TEXT_FILE_BYTES) {
        Fetched::Found(bytes) => Ok(bytes),
        Fetched::Missing => Err(AsmStatus::Absent),
        Fetched::TooLong => Err(AsmStatus::TooLong),
        Fetched::Failed => Err(AsmStatus::ReadFault),
        Fetched::NoMemory => Err(AsmStatus::NoMemory),
    }
}

// The last argument, which names the file.
fn last<'a>(words: &[&'a str]) -> &'a str {
    match words {
        [.., file] => *file,
        [] => "",
    }
}

// The status of a call whose last argument names this file with these bytes. The message is on
// `err`.
fn ended<E: Sink>(err: &mut E, file: &str, bytes: &[u8], status: AsmStatus) -> AsmStatus
    ensures is { result ≡ status }
    ensures faults { E.faults err.old ≤ E.faults err.new }
    ensures quiet { result ≡ ends.Done → E.bytes err.new ≡ E.bytes err.old }
{
    tell(err, file, bytes, status);
    status
}

/// Does what the arguments ask for; the first is the program's name. `FILE` assembles the file and writes the module to
/// `out`. `--list FILE` writes the instructions of the file's executable sections. With every status but `Done`, a
/// message on `err` says why. The file is fetched once; without a file in the arguments nothing is fetched.
#[tactic(auto, using(crate::proofs::Fetching::fetched_once))]
pub fn ppcasm<F: Folder, O: Sink, E: Sink>(
    alloc: Global,
    words: &[&str],
    folder: &mut F,
    out: &mut O,
    err: &mut E,
) -> AsmStatus
    ensures assembles { IfSome (to_assemble (map (λ w. w.now) words.now)) (λ file.
        AssemblesFile (F.files folder.old) file (Rose (F.faults folder.old) (F.faults folder.new))
        (O.bytes out.old) (O.bytes out.new) (Rose (O.faults out.old) (O.faults out.new)) result) }
    ensures lists { IfSome (to_list (map (λ w. w.now) words.now)) (λ file.
        ListsFile (F.files folder.old) file (Rose (F.faults folder.old) (F.faults folder.new))
        (O.bytes out.old) (O.bytes out.new) (Rose (O.faults out.old) (O.faults out.new)) result) }
    ensures usage { (result ≡ ends.Usage)
        ↔ ((to_assemble (map (λ w. w.now) words.now) ≡ None) × (to_list (map (λ w. w.now) words.now) ≡ None)) }
    ensures untouched { result ≡ ends.Usage → O.bytes out.new ≡ O.bytes out.old }
    ensures requested { Fetches (file_of (map (λ w. w.now) words.now)) result
        (F.requests folder.old) (F.requests folder.new) }
    ensures files { F.files folder.new ≡ F.files folder.old }
    ensures faults { F.faults folder.old ≤ F.faults folder.new }
    ensures out_faults { O.faults out.old ≤ O.faults out.new }
    ensures err_faults { E.faults err.old ≤ E.faults err.new }
    ensures quiet { result ≡ ends.Done → E.bytes err.new ≡ E.bytes err.old }
{
    match words {
        [_, file] if is_file(file) => match bytes_of(alloc, file, folder) {
            Ok(text) => ended(err, file, &text, assemble_to(alloc, &text, out)),
            Err(status) => ended(err, file, b"", status),
        },
        [_, option, file] if is_list(option) && is_file(file) => {
            match bytes_of(alloc, file, folder) {
                Ok(bytes) => ended(err, file, &bytes, list_to(alloc, &bytes, out)),
                Err(status) => ended(err, file, b"", status),
            }
        }
        _ => ended(err, last(words), b"", AsmStatus::Usage),
    }
}
