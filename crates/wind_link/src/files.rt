//! The files of a call: the list, and the modules that its rows name.

ghost use Rattle.std.specs.Prelude.{◌≡◌, ◌+◌, ◌≤◌, ◌<◌, ◌^◌, [], ◌∷◌, None, OnOk, IfOk, IfErr, Ok, length, map, string_bytes};
ghost use Rattle.std.specs.List.{All};
ghost use Rattle.wind_outside.specs.Requests.{GrowsBy};
ghost use Rattle.wind_outside.specs.declared.folder.FetchOutcome.{FetchOutcome};
ghost use Rattle.wind_outside.specs.declared.folder.FetchOutcome.TheVariants as outcomes;
ghost use Rattle.elf_read.specs.{Contents.{ModuleOf, module_at}, Modules.IsModule, Outline.outline_of as outline_of_lem, Rules.checked};
ghost use Rattle.module_image.specs.Linkable.{IsLinkable};
ghost use Rattle.module_image.specs.Needs.{needs_of};
ghost use Rattle.module_image.specs.Opening.{opening_blocks as opening_blocks_lem};
ghost use Rattle.wind_link.specs.Placing.{wrong_segment, with_module, taken_by};
ghost use Rattle.wind_link.specs.Rows.{row as row_lem};
ghost use Rattle.wind_link.specs.Steps.{loads, AreAligned};
ghost use Rattle.wind_link.specs.Adding.{Adds, RefusesBytes, TellsObject};
ghost use Rattle.wind_link.specs.Command.{HasBytes, HasModule, AreRowLoads, Unread, NoModules, IsMisplaced, RefusesFile, RefusesRow, path_of};
ghost use Rattle.wind_link.specs.Fetches.{Unfound, FileEnds, RowEnds, FetchesRows, file_request, module_request, found_modules};

use crate::linking::Placed;
use crate::list::Row;
use crate::placing::{PlaceErr, opening_blocks, take_module};
use crate::status::LinkStatus;
use elf_read::{ElfErr, Module, Outline, fill, read_outline};
use mem_partition::Block;
use module_image::{Needs, Places, measure};
use std::alloc::{AllocError, Global};
use wind_base::NoMemory;
use wind_base::limits::MODULE_FILE_BYTES;
use wind_outside::{Fetched, Folder};

/// The bytes of a file of at most `most` bytes, which line `line` of the list names; the list itself
/// counts as line 0.
pub(crate) fn bytes_of<F: Folder>(
    alloc: Global,
    folder: &mut F,
    file: &str,
    most: u32,
    line: u64,
) -> Result<Vec<u8>, LinkStatus>
    ensures found { IfOk result (λ v. HasBytes most (F.files folder.old) file.now v.items) }
    ensures unread { IfErr result (Unread most (F.files folder.old) file.now line
        (record { before = F.faults folder.old; after = F.faults folder.new })) }
    ensures fetched { IfOk result (λ v. GrowsBy (F.requests folder.old) (F.requests folder.new)
        (file_request most file.now outcomes.Found ∷ [])) }
    ensures unfound { IfErr result (λ s. (outcome : FetchOutcome) × Unfound line outcome s
        × GrowsBy (F.requests folder.old) (F.requests folder.new) (file_request most file.now outcome ∷ [])) }
    ensures files { F.files folder.new ≡ F.files folder.old }
    ensures faults { F.faults folder.old ≤ F.faults folder.new }
{
    match folder.fetch(alloc, file, most) {
        Fetched::Found(bytes) => Ok(bytes),
        Fetched::Missing => Err(LinkStatus::Absent(line)),
        Fetched::TooLong => Err(LinkStatus::TooLong(line)),
        Fetched::Failed => Err(LinkStatus::ReadFault),
        Fetched::NoMemory => Err(LinkStatus::NoMemory),
    }
}

// Makes `path` that of a module's file.
fn set_path(path: &mut String, dir: &str, name: &str) -> Result<(), AllocError>
    ensures { OnOk result (string_bytes path.new ≡ path_of dir.now name.now) }
{
    path.clear();
    path.push_str(dir)?;
    path.push_str("/")?;
    path.push_str(name)
}

// Reads the outline of a module's file, which line `line` of the list names.
fn outline_of(alloc: Global, bytes: &[u8], line: u64) -> Result<Outline, LinkStatus>
    ensures outline { IfOk result (λ o. o ≡ outline_of_lem (module_at bytes.now)) }
    ensures passes { IfOk result (λ o. checked bytes.now ≡ Ok tt) }
    ensures known { IfOk result (λ o. IsModule (module_at bytes.now)) }
    ensures refused { IfErr result (TellsObject line bytes.now) }
{
    match read_outline(alloc, bytes) {
        Ok(outline) => Ok(outline),
        Err(ElfErr::NoMemory) => Err(LinkStatus::NoMemory),
        Err(error) => Err(LinkStatus::BadObject(line, error)),
    }
}

// Takes the blocks of a module, which line `line` of the list names.
fn place(taken: &mut Vec<Block>, needs: Needs, at: Places, line: u64) -> Result<(), LinkStatus>
    requires { AreAligned needs }
    ensures placed { OnOk result (wrong_segment taken.old.items needs at ≡ None) }
    ensures taken { OnOk result (taken.new.items ≡ with_module taken.old.items needs at) }
    ensures wrong { IfErr result (IsMisplaced (wrong_segment taken.old.items needs at) line) }
{
    match take_module(taken, needs, at) {
        Ok(()) => Ok(()),
        Err(PlaceErr::Wrong(kind)) => Err(LinkStatus::BadPlace(line, kind)),
        Err(PlaceErr::NoMemory) => Err(LinkStatus::NoMemory),
    }
}

// Takes the blocks of the module of a file with these bytes, and then copies the module. Line `line`
// of the list names the file.
fn placed_module(
    alloc: Global,
    taken: &mut Vec<Block>,
    bytes: &[u8],
    at: Places,
    line: u64,
) -> Result<Module, LinkStatus>
    ensures module { IfOk result (λ m. ModuleOf bytes.now m) }
    ensures linkable { IfOk result (λ m. IsLinkable m) }
    ensures placed { IfOk result (λ m. wrong_segment taken.old.items (needs_of m) at ≡ None) }
    ensures taken { IfOk result (λ m. taken.new.items ≡ with_module taken.old.items (needs_of m) at) }
    ensures refused { IfErr result (RefusesBytes bytes.now taken.old.items line at) }
{
    let outline = match outline_of(alloc, bytes, line) {
        Ok(outline) => outline,
        Err(end) => return Err(end),
    };
    let needs = measure(outline.shapes.as_slice(), outline.symbols.as_slice());
    match place(taken, needs, at, line) {
        Ok(()) => {}
        Err(end) => return Err(end),
    }
    match fill(alloc, bytes, outline) {
        Ok(module) => Ok(module),
        Err(NoMemory) => Err(LinkStatus::NoMemory),
    }
}

// Reads the module of a file, which line `line` of the list names, after its blocks are taken.
fn read_module<F: Folder>(
    alloc: Global,
    folder: &mut F,
    taken: &mut Vec<Block>,
    file: &str,
    at: Places,
    line: u64,
) -> Result<Module, LinkStatus>
    ensures module { IfOk result (λ m. HasModule (F.files folder.old) file.now m) }
    ensures linkable { IfOk result (λ m. IsLinkable m) }
    ensures placed { IfOk result (λ m. wrong_segment taken.old.items (needs_of m) at ≡ None) }
    ensures taken { IfOk result (λ m. taken.new.items ≡ with_module taken.old.items (needs_of m) at) }
    ensures refused { IfErr result (RefusesFile (F.files folder.old) file.now taken.old.items line at
        (record { before = F.faults folder.old; after = F.faults folder.new })) }
    ensures found { OnOk result (GrowsBy (F.requests folder.old) (F.requests folder.new)
        (module_request file.now outcomes.Found ∷ [])) }
    ensures ends { IfErr result (λ s. FileEnds file.now line s (F.requests folder.old) (F.requests folder.new)) }
    ensures files { F.files folder.new ≡ F.files folder.old }
    ensures faults { F.faults folder.old ≤ F.faults folder.new }
{
    let bytes = match bytes_of(alloc, folder, file, MODULE_FILE_BYTES, line) {
        Ok(bytes) => bytes,
        Err(end) => return Err(end),
    };
    match placed_module(alloc, taken, &bytes, at, line) {
        Ok(module) => Ok(module),
        Err(end) => Err(end),
    }
}

/// The modules so far, and the blocks of the pool that are taken.
#[derive(Drop)]
pub(crate) struct Modules {
    /// The modules, in the order of their rows.
    pub placed: Vec<Placed>,
    /// The blocks of the pool at the start, followed by those of the modules.
    pub taken: Vec<Block>,
}

// Reads the module of a row, and adds it. `path` is used for the path of its file.
fn add_module<F: Folder>(
    alloc: Global,
    folder: &mut F,
    modules: &mut Modules,
    path: &mut String,
    dir: &str,
    row: &Row,
) -> Result<(), LinkStatus>
    requires few { length modules.old.placed.items < 2 ^ 32 }
    requires taken { modules.old.taken.items ≡ taken_by opening_blocks_lem (loads modules.old.placed.items) }
    ensures added { OnOk result (Adds (F.files folder.old) dir.now (row_lem row.now) modules.old modules.new) }
    ensures refused { IfErr result (RefusesRow (F.files folder.old) dir.now modules.old.taken.items
        (length modules.old.placed.items + 1) (row_lem row.now)
        (record { before = F.faults folder.old; after = F.faults folder.new })) }
    ensures found { OnOk result (GrowsBy (F.requests folder.old) (F.requests folder.new)
        (module_request (path_of dir.now row.now.name.now) outcomes.Found ∷ [])) }
    ensures ends { IfErr result (λ s. RowEnds dir.now (length modules.old.placed.items + 1) (row_lem row.now) s
        (F.requests folder.old) (F.requests folder.new)) }
    ensures files { F.files folder.new ≡ F.files folder.old }
    ensures faults { F.faults folder.old ≤ F.faults folder.new }
{
    let line = modules.placed.len() as u64 + 1;
    match set_path(path, dir, row.name) {
        Ok(()) => {}
        Err(_) => return Err(LinkStatus::NoMemory),
    }
    let module = match read_module(
        alloc,
        folder,
        &mut modules.taken,
        path.as_str(),
        row.at,
        line,
    ) {
        Ok(module) => module,
        Err(end) => return Err(end),
    };
    let placed = Placed {
        module,
        mode: row.mode,
        text_at: row.at.text,
        data_at: row.at.data,
        bss_at: row.at.bss,
    };
    match modules.placed.push(placed) {
        Ok(()) => Ok(()),
        Err(_) => Err(LinkStatus::NoMemory),
    }
}

/// Reads the modules of the rows, from the files of the folder `dir`, each before the next. It tests
/// each module's places before it copies the module. `path` becomes the path of the last file that
/// was asked for.
pub(crate) fn read_modules<F: Folder>(
    alloc: Global,
    folder: &mut F,
    path: &mut String,
    dir: &str,
    rows: &[Row],
) -> Result<Modules, LinkStatus>
    requires few { length rows.now < 2 ^ 32 }
    ensures modules { IfOk result (λ m. AreRowLoads (F.files folder.old) dir.now opening_blocks_lem
        (map row_lem rows.now) (loads m.placed.items)) }
    ensures taken { IfOk result (λ m. m.taken.items ≡ taken_by opening_blocks_lem (loads m.placed.items)) }
    ensures count { IfOk result (λ m. length m.placed.items ≡ length rows.now) }
    ensures linkable { IfOk result (λ m. All (λ p. IsLinkable p.module) m.placed.items) }
    ensures refused { IfErr result (NoModules (F.files folder.old) dir.now (map row_lem rows.now)
        (record { before = F.faults folder.old; after = F.faults folder.new })) }
    ensures found { OnOk result (GrowsBy (F.requests folder.old) (F.requests folder.new)
        (found_modules dir.now (map row_lem rows.now))) }
    ensures ends { IfErr result (λ s. FetchesRows dir.now (map row_lem rows.now) s
        (F.requests folder.old) (F.requests folder.new)) }
    ensures files { F.files folder.new ≡ F.files folder.old }
    ensures faults { F.faults folder.old ≤ F.faults folder.new }
{
    let Ok(taken) = opening_blocks(alloc) else {
        return Err(LinkStatus::NoMemory);
    };
    let mut modules = Modules {
        placed: Vec::new(alloc),
        taken,
    };
    for row in rows {
        match add_module(alloc, folder, &mut modules, path, dir, row) {
            Ok(()) => {}
            Err(end) => return Err(end),
        }
    }
    Ok(modules)
}
