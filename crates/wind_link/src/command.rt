//! A call of the program: its arguments name a list and the folder of its modules.

ghost use Rattle.std.specs.Prelude.{◌≡◌, ◌↔◌, ◌<◌, ◌≤◌, ◌^◌, map, length, None, IfSome};
ghost use Rattle.std.specs.List.{All};
ghost use Rattle.wind_outside.specs.Counts.{Rose};
ghost use Rattle.module_image.specs.Linkable.{IsLinkable};
ghost use Rattle.module_image.specs.Opening.{opening_blocks};
ghost use Rattle.wind_link.specs.declared.status.LinkStatus.TheVariants as ends;
ghost use Rattle.wind_link.specs.Command.{status_of as status_of_lem, Links, LinksRows, LinksText, LinksList, to_link};
ghost use Rattle.wind_link.specs.Fetches.{Fetches, FetchesList, FetchesRows, FetchesText};
ghost use Rattle.wind_link.specs.Lists.{rows_of};
ghost use Rattle.wind_link.specs.Placing.{wrong_place, taken_by};
ghost use Rattle.wind_link.specs.Rows.{row as row_lem};
ghost use Rattle.wind_link.specs.Steps.{index_of, loads};
ghost use Rattle.wind_link.specs.Undefined.{TellsList, TellsRows, TellsText, TellsUndefined};

use crate::files::{Modules, bytes_of, read_modules};
use crate::linking::{LinkErr, link_placed};
use crate::list::{ListErr, Row, rows};
use crate::report::{Paths, tell, tell_relocation, tell_undefined, tell_usage};
use crate::status::LinkStatus;
use std::alloc::Global;
use wind_base::limits::TEXT_FILE_BYTES;
use wind_outside::{Folder, Put, Sink};

// The status for a refused link. Lines are counted from 1, and modules from 0.
fn status_of(error: LinkErr) -> LinkStatus
    requires { index_of error < 2 ^ 32 }
    ensures { result ≡ status_of_lem error }
{
    match error {
        LinkErr::BadPlace(index, kind) => LinkStatus::BadPlace(index + 1, kind),
        LinkErr::BadReloc(index, number, error) => LinkStatus::BadReloc(index + 1, number, error),
        LinkErr::NoMemory => LinkStatus::NoMemory,
    }
}

// The list and the folder of its modules, as the arguments name them.
#[derive(Clone, Copy, Debug, Drop)]
struct Names<'a> {
    list: &'a str,
    dir: &'a str,
}

// Links the modules, and writes the image to `out`. The undefined names are told on `err`.
fn link_to<O: Sink, E: Sink>(
    alloc: Global,
    modules: &Modules,
    list: &str,
    out: &mut O,
    err: &mut E,
) -> LinkStatus
    requires few { length modules.now.placed.items < 2 ^ 32 }
    requires linkable { All (λ p. IsLinkable p.module) modules.now.placed.items }
    requires placed { wrong_place 0 opening_blocks (loads modules.now.placed.items) ≡ None }
    requires taken { modules.now.taken.items ≡ taken_by opening_blocks (loads modules.now.placed.items) }
    ensures links { Links (O.bytes out.old) (O.bytes out.new) (Rose (O.faults out.old) (O.faults out.new))
        (loads modules.now.placed.items) result }
    ensures told { result ≡ ends.Done → TellsUndefined list.now (loads modules.now.placed.items)
        (E.bytes err.old) (E.bytes err.new) (E.faults err.old) (E.faults err.new) }
    ensures out_faults { O.faults out.old ≤ O.faults out.new }
    ensures err_faults { E.faults err.old ≤ E.faults err.new }
{
    let linked = match link_placed(alloc, &modules.placed, &modules.taken) {
        Ok(linked) => linked,
        Err(error) => {
            tell_relocation(err, list, &modules.placed, error);
            return status_of(error);
        }
    };
    match out.put(&linked.image) {
        Put::Done => {
            let _ = tell_undefined(err, list, &linked.undefined);
            LinkStatus::Done
        }
        Put::Failed => LinkStatus::WriteFault,
    }
}

// Links the modules of the rows.
fn link_rows<F: Folder, O: Sink, E: Sink>(
    alloc: Global,
    rows: &[Row],
    names: Names,
    path: &mut String,
    folder: &mut F,
    out: &mut O,
    err: &mut E,
) -> LinkStatus
    requires few { length rows.now < 2 ^ 32 }
    ensures links { LinksRows (F.files folder.old) names.entry.dir.now
        (record { before = F.faults folder.old; after = F.faults folder.new })
        (O.bytes out.old) (O.bytes out.new) (Rose (O.faults out.old) (O.faults out.new)) (map row_lem rows.now) result }
    ensures told { result ≡ ends.Done → TellsRows (F.files folder.old) names.entry.list.now names.entry.dir.now
        (map row_lem rows.now) (E.bytes err.old) (E.bytes err.new) (E.faults err.old) (E.faults err.new) }
    ensures requested { FetchesRows names.entry.dir.now (map row_lem rows.now) result
        (F.requests folder.old) (F.requests folder.new) }
    ensures files { F.files folder.new ≡ F.files folder.old }
    ensures faults { F.faults folder.old ≤ F.faults folder.new }
    ensures out_faults { O.faults out.old ≤ O.faults out.new }
    ensures err_faults { E.faults err.old ≤ E.faults err.new }
{
    match read_modules(alloc, folder, path, names.dir, rows) {
        Ok(modules) => link_to(alloc, &modules, names.list, out, err),
        Err(end) => end,
    }
}

// Links the modules of a list.
fn link_text<F: Folder, O: Sink, E: Sink>(
    alloc: Global,
    text: &[u8],
    names: Names,
    path: &mut String,
    folder: &mut F,
    out: &mut O,
    err: &mut E,
) -> LinkStatus
    ensures links { LinksText (F.files folder.old) names.entry.dir.now
        (record { before = F.faults folder.old; after = F.faults folder.new })
        (O.bytes out.old) (O.bytes out.new) (Rose (O.faults out.old) (O.faults out.new)) (rows_of text.now) result }
    ensures told { result ≡ ends.Done → TellsText (F.files folder.old) names.entry.list.now names.entry.dir.now text.now
        (E.bytes err.old) (E.bytes err.new) (E.faults err.old) (E.faults err.new) }
    ensures requested { FetchesText names.entry.dir.now (rows_of text.now) result
        (F.requests folder.old) (F.requests folder.new) }
    ensures files { F.files folder.new ≡ F.files folder.old }
    ensures faults { F.faults folder.old ≤ F.faults folder.new }
    ensures out_faults { O.faults out.old ≤ O.faults out.new }
    ensures err_faults { E.faults err.old ≤ E.faults err.new }
{
    match rows(alloc, text) {
        Ok(rows) => link_rows(alloc, &rows, names, path, folder, out, err),
        Err(ListErr::BadLine(line)) => LinkStatus::BadList(line),
        Err(ListErr::NoMemory) => LinkStatus::NoMemory,
    }
}

// Links the modules of the list. `path` is the path of the last module that was read.
fn link_list<F: Folder, O: Sink, E: Sink>(
    alloc: Global,
    names: Names,
    path: &mut String,
    folder: &mut F,
    out: &mut O,
    err: &mut E,
) -> LinkStatus
    ensures links { LinksList (F.files folder.old) names.entry.list.now names.entry.dir.now
        (record { before = F.faults folder.old; after = F.faults folder.new })
        (O.bytes out.old) (O.bytes out.new) (Rose (O.faults out.old) (O.faults out.new)) result }
    ensures told { result ≡ ends.Done → TellsList (F.files folder.old) names.entry.list.now names.entry.dir.now
        (E.bytes err.old) (E.bytes err.new) (E.faults err.old) (E.faults err.new) }
    ensures requested { FetchesList (F.files folder.old) names.entry.list.now names.entry.dir.now result
        (F.requests folder.old) (F.requests folder.new) }
    ensures files { F.files folder.new ≡ F.files folder.old }
    ensures faults { F.faults folder.old ≤ F.faults folder.new }
    ensures out_faults { O.faults out.old ≤ O.faults out.new }
    ensures err_faults { E.faults err.old ≤ E.faults err.new }
{
    match bytes_of(alloc, folder, names.list, TEXT_FILE_BYTES, 0) {
        Ok(text) => link_text(alloc, &text, names, path, folder, out, err),
        Err(end) => end,
    }
}

// Links the modules of the list, and says on `err` how the call ended.
fn link_names<F: Folder, O: Sink, E: Sink>(
    alloc: Global,
    names: Names,
    folder: &mut F,
    out: &mut O,
    err: &mut E,
) -> LinkStatus
    ensures links { LinksList (F.files folder.old) names.entry.list.now names.entry.dir.now
        (record { before = F.faults folder.old; after = F.faults folder.new })
        (O.bytes out.old) (O.bytes out.new) (Rose (O.faults out.old) (O.faults out.new)) result }
    ensures told { result ≡ ends.Done → TellsList (F.files folder.old) names.entry.list.now names.entry.dir.now
        (E.bytes err.old) (E.bytes err.new) (E.faults err.old) (E.faults err.new) }
    ensures requested { FetchesList (F.files folder.old) names.entry.list.now names.entry.dir.now result
        (F.requests folder.old) (F.requests folder.new) }
    ensures files { F.files folder.new ≡ F.files folder.old }
    ensures faults { F.faults folder.old ≤ F.faults folder.new }
    ensures out_faults { O.faults out.old ≤ O.faults out.new }
    ensures err_faults { E.faults err.old ≤ E.faults err.new }
{
    let mut path = String::new(alloc);
    let status = link_list(alloc, names, &mut path, folder, out, err);
    let paths = Paths {
        list: names.list,
        module: path.as_str(),
    };
    tell(err, paths, status);
    status
}

/// Links the modules that a list names into one image, and writes it to `out`. The arguments are the
/// program's name, the list, and the folder of the modules. The list is fetched first, and then each
/// module in order, up to the first refusal. With `Done`, `err` gets a line for each undefined name;
/// with every other status, a message on `err` says why.
pub fn windlink<F: Folder, O: Sink, E: Sink>(
    alloc: Global,
    words: &[&str],
    folder: &mut F,
    out: &mut O,
    err: &mut E,
) -> LinkStatus
    ensures links { IfSome (to_link (map (λ w. w.now) words.now))
        (λ (list, dir). LinksList (F.files folder.old) list dir
        (record { before = F.faults folder.old; after = F.faults folder.new })
        (O.bytes out.old) (O.bytes out.new) (Rose (O.faults out.old) (O.faults out.new)) result) }
    ensures told { IfSome (to_link (map (λ w. w.now) words.now))
        (λ (list, dir). result ≡ ends.Done → TellsList (F.files folder.old) list dir
        (E.bytes err.old) (E.bytes err.new) (E.faults err.old) (E.faults err.new)) }
    ensures requested { Fetches (F.files folder.old) (to_link (map (λ w. w.now) words.now)) result
        (F.requests folder.old) (F.requests folder.new) }
    ensures usage { (result ≡ ends.Usage) ↔ (to_link (map (λ w. w.now) words.now) ≡ None) }
    ensures untouched { result ≡ ends.Usage → O.bytes out.new ≡ O.bytes out.old }
    ensures files { F.files folder.new ≡ F.files folder.old }
    ensures faults { F.faults folder.old ≤ F.faults folder.new }
    ensures out_faults { O.faults out.old ≤ O.faults out.new }
    ensures err_faults { E.faults err.old ≤ E.faults err.new }
{
    match words {
        [_, list, dir] => link_names(alloc, Names { list, dir }, folder, out, err),
        _ => {
            tell_usage(err);
            LinkStatus::Usage
        }
    }
}
